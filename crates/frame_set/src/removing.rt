// Columns that are removed.
ghost use Rattle.std.specs.Prelude.{◌≡◌, ◌<◌, length, All, IfOk};
ghost use Rattle.column_core.specs.cells.Cell.{label_datum};
ghost use Rattle.frame_parts.specs.form.Select.{places_besides, places_of_label};
ghost use Rattle.frame_select.specs.select.Set as meant;
ghost use Rattle.frame_store.specs.tables.Cost.{free};
ghost use Rattle.frame_store.specs.tables.Settled.{IsSettled};
ghost use Rattle.frame_store.specs.tables.Table.{table_value};
ghost use Rattle.frame_store.specs.Shown.{headings_value};
ghost use Rattle.frame_store.specs.World.{world, entry_in, IsKnownValue, IsKnownTable, IsSettledWorld, SetsFor};

use crate::sharing::replace_by_columns;
use cell_core::{Grid, Label, NoMemory, Places, Shape, TextDict};
use frame_parts::{same_heading, wrong_kind};
use frame_select::label_columns;
use frame_store::{ObjRef, OpFault, Store, Value};
use std::alloc::Global;

// The columns of a frame that have another label, in order.
fn other_columns(
    alloc: Global,
    dict: &TextDict,
    on: &ObjRef<'_>,
    label: Label,
) -> Result<Places, NoMemory>
    requires known { IsKnownTable dict.now on.now }
    requires label { IsSettled label_datum dict.now label }
    ensures others { IfOk result (λ others. others ≡ places_besides (table_value dict.now on.now)
        (places_of_label (headings_value dict.now on.now.headings) (label_datum dict.now label))) }
    ensures inside { IfOk result (All (λ place. place < length on.now.columns)) }
{
    let mut others = Places::new(alloc);
    for place in 0..on.columns() {
        if same_heading(dict, Some(label), on.heading(place)) {
            continue;
        }
        others.push(place)?;
    }
    Ok(others)
}

/// `del v[label]`: removes a frame's columns of a label, as in the pandas user guide, "Intro to data
/// structures", "Column selection, addition, deletion". Only the table of `on` changes.
///
/// # Errors
///
/// `WrongKind` where `on` is a scalar or a Series, and of a label that is no scalar; `NoKey`
/// where no column has the label. `NoMemory` may come in place of any answer. After a refusal all
/// objects are as they were.
pub fn remove(
    alloc: Global,
    store: &mut Store,
    dict: &TextDict,
    on: Value,
    label: Value,
) -> Result<(), OpFault>
    requires on { IsKnownValue (world store.old dict.now) on }
    requires label { IsKnownValue (world store.old dict.now) label }
    requires settled { IsSettledWorld (world store.old dict.now) }
    ensures { SetsFor free result on (meant.removal_result (entry_in (world store.old dict.now) on)
        (entry_in (world store.old dict.now) label))
        (world store.old dict.now) (world store.new dict.now) }
{
    let (Value::Object(id), Value::Scalar(cell)) = (on, label) else {
        return Err(wrong_kind());
    };
    let source = store.read(id);
    if source.shape() == Shape::Series {
        return Err(wrong_kind());
    }
    let label = Label::from(cell);
    let columns = label_columns(alloc, dict, &source, label)?;
    if columns.single {
        store.remove_column(id, *columns.places.at(0))?;
        return Ok(());
    }
    let others = other_columns(alloc, dict, &source, label)?;
    replace_by_columns(alloc, store, id, id, &others)?;
    Ok(())
}
