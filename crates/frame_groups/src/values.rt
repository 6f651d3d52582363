// The columns that the brackets behind `groupby` name.
ghost use Rattle.std.specs.Prelude.{Some, None, IfOk, IfSome};
ghost use Rattle.std.specs.Option.{option_map};
ghost use Rattle.frame_store.specs.tables.Settled.{IsSettled};
ghost use Rattle.frame_store.specs.tables.Table.{table_value};
ghost use Rattle.column_core.specs.cells.Cell.{datum};
ghost use Rattle.frame_labels.specs.method.Groups as meant;
ghost use Rattle.frame_parts.specs.Makes.{MakesBy};
ghost use Rattle.frame_store.specs.Arguments.{items_of, object_value, IsLiveObject};
ghost use Rattle.frame_store.specs.Objects.{Tables, tables, table_at};
ghost use Rattle.frame_store.specs.Parts.{AreColumnsOf};
ghost use Rattle.frame_store.specs.World.{world, argument_in, IsSettledWorld, IsKnownArgument, IsKnownTable};
ghost use Rattle.frame_signatures.specs.Scalars.{scalars};
ghost use Rattle.frame_groups.specs.Grouped.{values_seen, AreValues};

use cell_core::{Cell, Code, Grid, Label, Places, TextDict};
use frame_labels::places_besides;
use frame_select::{argument_column, argument_columns, scalars_alone};
use frame_store::{Argument, Item, ObjId, ObjRef, OpFault, Store};
use std::alloc::Global;

// The columns of which something is made, and whether one label alone names them.
#[derive(Drop)]
pub(crate) struct Values {
    pub(crate) places: Places,
    pub(crate) single: bool,
}

// The column of a label.
fn labelled(alloc: Global, dict: &TextDict, on: &ObjRef<'_>, cell: Cell) -> Result<Values, OpFault>
    requires known { IsKnownTable dict.now on.now }
    requires cell { IsSettled datum dict.now cell }
    ensures answer { MakesBy values_seen dict.now result
        (meant.values_named (table_value dict.now on.now) (Some (datum dict.now cell)) None) }
    ensures values { IfOk result (AreValues on.now) }
{
    let place = argument_column(alloc, dict, on, Label::from(cell))?;
    let mut places = Places::new(alloc);
    places.push(place)?;
    Ok(Values {
        places,
        single: true,
    })
}

// The columns of a list of labels.
fn listed(
    alloc: Global,
    dict: &TextDict,
    on: &ObjRef<'_>,
    items: &[Item],
) -> Result<Values, OpFault>
    requires known { IsKnownTable dict.now on.now }
    requires items { IsSettled scalars dict.now items.now }
    ensures answer { (live : Tables) → MakesBy values_seen dict.now result
        (meant.values_named (table_value dict.now on.now) None
        (Some (items_of live dict.now items.now))) }
    ensures values { IfOk result (AreValues on.now) }
{
    let Some(cells) = scalars_alone(alloc, items)? else {
        return Err(OpFault::Refused(Code::WrongKind));
    };
    let places = argument_columns(alloc, dict, on, &cells)?;
    Ok(Values {
        places,
        single: false,
    })
}

// The columns that the brackets name, or all but the keys where there are none.
pub(crate) fn values_of(
    alloc: Global,
    store: &Store,
    dict: &TextDict,
    keys: &Places,
    brackets: Option<&Argument>,
    on: ObjId,
) -> Result<Values, OpFault>
    requires live { IsLiveObject (tables store.now) on }
    requires settled { IsSettledWorld (world store.now dict.now) }
    requires keys { AreColumnsOf (table_at (tables store.now) on.0) keys.now }
    requires brackets { IfSome brackets
        (λ a. IsKnownArgument (world store.now dict.now) a.now) }
    ensures answer { let t = object_value (tables store.now) dict.now on in
        let given = option_map (λ a. argument_in (world store.now dict.now) a.now) brackets.entry in
        MakesBy values_seen dict.now result (meant.values_in t keys.now given) }
    ensures values { IfOk result (AreValues (table_at (tables store.now) on.0)) }
{
    let source = store.read(on);
    let Some(given) = brackets else {
        let places = places_besides(alloc, source.columns(), keys)?;
        return Ok(Values {
            places,
            single: false,
        });
    };
    match given.scalar() {
        Some(cell) => labelled(alloc, dict, &source, cell),
        None => match given.list() {
            Some(items) => listed(alloc, dict, &source, items),
            None => Err(OpFault::Refused(Code::WrongKind)),
        },
    }
}
