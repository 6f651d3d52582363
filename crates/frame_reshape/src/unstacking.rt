// `unstack`: the labels of a level as columns.
ghost use Rattle.std.specs.Prelude.{◌≡◌, IfOk, IfSome};
ghost use Rattle.std.specs.Option.{option_map};
ghost use Rattle.cell_core.specs.declared.grid.Shape.TheVariants.{Series};
ghost use Rattle.column_core.specs.cells.Cell.{datum, IsGiven};
ghost use Rattle.frame_store.specs.tables.Table.{table_value};
ghost use Rattle.frame_labels.specs.method.Reshape as meant;
ghost use Rattle.frame_store.specs.Shown.{Makes};
ghost use Rattle.frame_store.specs.World.{IsKnownTable};

use crate::keys::{AxisKeys, LevelKeys};
use crate::spreading::spread_table;
use cell_core::{Cell, Code, Label, NoMemory, Reason, TextDict};
use frame_labels::level_of;
use frame_store::{ObjRef, OpFault, Table};
use multi_index::Axis;
use reshape::unstack_rows;
use std::alloc::Global;

// The names of the levels of an axis.
#[tactic(auto, using(crate::proofs::ItemLaws::all_items))]
fn names_of(alloc: Global, axis: &Axis) -> Result<Vec<Option<Label>>, NoMemory>
    ensures { IfOk result (λ names. names.items ≡ axis.now.names) }
{
    let mut names = Vec::new(alloc);
    for level in 0..axis.levels() {
        names.push(axis.name(level))?;
    }
    Ok(names)
}

// The cells of a Series under the labels of its other levels, with a column for each label of a level. Another level must
// stay, and no row may have the labels of another one.
#[tactic(auto, using(crate::proofs::UnstackLaws::level_refused))]
pub(crate) fn unstack(
    alloc: Global,
    dict: &TextDict,
    on: &ObjRef<'_>,
    argument: Option<Cell>,
) -> Result<Table, OpFault>
    requires known { IsKnownTable dict.now on.now }
    requires shape { on.now.shape ≡ Series }
    requires given { IfSome argument (IsGiven dict.now) }
    ensures { Makes dict.now result (meant.unstack_result (table_value dict.now on.now)
        (option_map (datum dict.now) argument)) }
{
    let axis = on.axis();
    if axis.levels() < 2 {
        return Err(OpFault::Refused(Code::BadValue(Reason::Levels)));
    }
    let level = level_of(alloc, dict, on, argument)?;
    let rest = axis.drop_level(alloc, level)?;
    let names = names_of(alloc, &rest)?;
    let keys = AxisKeys { axis: &rest };
    let spread = unstack_rows(alloc, dict, &keys, &LevelKeys { axis, level });
    let name = axis.name(level);
    spread_table(alloc, dict, spread, names.as_slice(), name, &on.column(0))
}
