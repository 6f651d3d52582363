// The methods that give an object's rows and columns under other headings.
ghost use Rattle.std.specs.Prelude.{◌≡◌, IsSome};
ghost use Rattle.cell_core.specs.declared.grid.Shape.TheVariants.{Series, Frame};
ghost use Rattle.frame_store.specs.tables.Cost.{free};
ghost use Rattle.frame_store.specs.tables.Settled.{IsSettled};
ghost use Rattle.frame_store.specs.tables.Table.{heading_value, table_value};
ghost use Rattle.frame_parts.specs.form.Finish.{limited};
ghost use Rattle.frame_parts.specs.form.Make.{pairs_in};
ghost use Rattle.frame_labels.specs.method.Methods as meant;
ghost use Rattle.frame_store.specs.Arguments.{entries_of};
ghost use Rattle.frame_store.specs.Objects.{Tables, tables, table_at};
ghost use Rattle.frame_store.specs.World.{world, IsSettledWorld, FormsFor};
ghost use Rattle.frame_methods.specs.Renames.{given_labels};

use crate::relabelling::renamed_headings;
use cell_core::{Grid, Label, TextDict};
use frame_labels::column_label;
use frame_select::{as_frame, renamed};
use frame_store::{Argument, Headings, ObjId, OpFault, Store, Value};
use std::alloc::Global;

// A Series with another name, or none.
pub(crate) fn rename_series(
    alloc: Global,
    store: &mut Store,
    dict: &TextDict,
    name: Option<Label>,
    on: ObjId,
) -> Result<Value, OpFault>
    requires live { IsSome (tables store.old on.0) }
    requires shape { (table_at (tables store.old) on.0).shape ≡ Series }
    requires settled { IsSettledWorld (world store.old dict.now) }
    requires name { IsSettled heading_value dict.now name }
    ensures { FormsFor free result
        (limited (meant.renamed_series (table_value dict.now (table_at (tables store.old) on.0))
        (heading_value dict.now name)))
        (world store.old dict.now) (world store.new dict.now) }
{
    let source = store.read(on);
    let mut headings = Headings::new(alloc, source.columns_name());
    headings.push(name)?;
    renamed(alloc, store, dict, on, headings)
}

// A frame under the labels that a dict gives to its columns.
#[tactic(auto, using(crate::proofs::NameLaws::meant_so, crate::proofs::RenameLaws::frame_renamed))]
pub(crate) fn rename_frame(
    alloc: Global,
    store: &mut Store,
    dict: &TextDict,
    pairs: &[(Label, Argument)],
    on: ObjId,
) -> Result<Value, OpFault>
    requires live { IsSome (tables store.old on.0) }
    requires shape { (table_at (tables store.old) on.0).shape ≡ Frame }
    requires settled { IsSettledWorld (world store.old dict.now) }
    requires given { IsSettled given_labels dict.now pairs.now }
    ensures { (live : Tables) → FormsFor free result
        (meant.renamed_frame (table_value dict.now (table_at (tables store.old) on.0))
        (pairs_in (entries_of live dict.now pairs.now)))
        (world store.old dict.now) (world store.new dict.now) }
{
    let headings = renamed_headings(alloc, dict, &store.read(on), pairs)?;
    renamed(alloc, store, dict, on, headings)
}

// The frame of a Series' one column.
pub(crate) fn to_frame(
    alloc: Global,
    store: &mut Store,
    dict: &TextDict,
    on: ObjId,
) -> Result<Value, OpFault>
    requires live { IsSome (tables store.old on.0) }
    requires shape { (table_at (tables store.old) on.0).shape ≡ Series }
    requires settled { IsSettledWorld (world store.old dict.now) }
    ensures { FormsFor free result
        (limited (meant.as_frame (table_value dict.now (table_at (tables store.old) on.0))))
        (world store.old dict.now) (world store.new dict.now) }
{
    let source = store.read(on);
    let mut headings = Headings::new(alloc, source.columns_name());
    headings.push(Some(column_label(source.heading(0))))?;
    as_frame(alloc, store, dict, on, headings)
}
