// The values for the cells that a setting reaches, and what is tested of them.
ghost use Rattle.std.specs.Prelude.{◌≡◌, ℕ, ◌<◌, ◌-◌, ◌*◌, ◌^◌, ◌⊎◌, min, List, length, replicate, IfOk};
ghost use Rattle.cell_core.specs.declared.code.Code.TheVariants as code;
ghost use Rattle.cell_core.specs.declared.code.Reason.TheVariants as reason;
ghost use Rattle.cell_core.specs.declared.grid.Shape.TheVariants.{Series};
ghost use Rattle.column_core.specs.cells.Text.{Text as OneText};
ghost use Rattle.column_core.specs.cells.Cell.{AreGiven, CellValue};
ghost use Rattle.frame_store.specs.tables.Settled.{IsSettled};
ghost use Rattle.frame_store.specs.tables.Table.{Table as OneTable, table_value, column_at};
ghost use Rattle.frame_store.specs.tables.Valid.{IsWhole};
ghost use Rattle.frame_parts.specs.form.Finish as finish;
ghost use Rattle.frame_select.specs.select.Set as meant;
ghost use Rattle.frame_parts.specs.Makes.{MakesBy};
ghost use Rattle.frame_store.specs.declared.fault.OpFault.TheVariants.{Refused};
ghost use Rattle.frame_store.specs.Objects.{tables};
ghost use Rattle.frame_store.specs.Shown.{cells_value};
ghost use Rattle.frame_store.specs.World.{world, IsKnownTable, IsSettledWorld};
ghost use Rattle.frame_select.specs.Reaches.{accessor_of, CanSelect};
ghost use Rattle.frame_select.specs.Selected.{as_it_is};
ghost use Rattle.frame_set.specs.Grown.{reached_tuples};
ghost use Rattle.frame_set.specs.Values.{value_in, reached_value, target_value, AddsOnOne, IsLiveSetValue, IsReachedOf, IsTargetOf, Tests, TestsThat, cells_reached, kind_there, AreKindsOf, HasKinds, count_with, rows_after, columns_after};

use crate::aligning::aligned_cells;
use crate::targets::{Reached, Target};
use crate::values::SetValue;
use cell_core::{
    Cell, Cells, Code, Grid, Kind, Label, NoMemory, Places, Reason, TextDict, Tuple, Tuples,
};
use column_core::ColRef;
use frame_parts::{list_kind, present_kind, within_limits, wrong_kind};
use frame_store::{ObjRef, OpFault, Selector, Store};
use multi_index::Axis;
use std::alloc::Global;

// The refusal of another number than is expected.
pub(crate) fn wrong_length(expected: usize, got: usize) -> OpFault
    ensures { result ≡ Refused (code.BadValue (reason.Length expected got)) }
{
    let length = Reason::Length(expected as u64, got as u64);
    OpFault::Refused(Code::BadValue(length))
}

// The same cell for each row and column.
fn repeated(alloc: Global, cell: Cell, rows: usize, columns: usize) -> Result<Cells, NoMemory>
    ensures { IfOk result (λ cells. cells ≡ replicate (rows * columns) cell) }
{
    let Some(count) = rows.checked_mul(columns) else {
        return Err(NoMemory);
    };
    let mut cells = Cells::new(alloc);
    for _ in 0..count {
        cells.push(cell)?;
    }
    Ok(cells)
}

// The cells of a column.
fn cells_of(alloc: Global, column: ColRef<'_>) -> Result<Cells, NoMemory>
    ensures { IfOk result (λ cells. cells ≡ column.entry.cells) }
{
    let mut cells = Cells::new(alloc);
    for row in 0..column.len() {
        cells.push(column.cell(row))?;
    }
    Ok(cells)
}

// A list goes by rows where one column is reached, and by columns where one row of several columns
// is.
fn expect_listed(rows: usize, columns: usize, count: usize) -> Result<(), OpFault>
    ensures { (cells : List CellValue) → length cells ≡ count
        → Tests result (meant.listed_values rows columns cells) }
{
    let by_columns = rows == 1 && columns > 1;
    let expected = if by_columns { columns } else { rows };
    let has_way = by_columns || columns == 1;
    if !has_way || count != expected {
        return Err(wrong_length(expected, count));
    }
    Ok(())
}

// The axis of the rows that are reached.
#[tactic(auto, using(crate::proofs::CellLaws::taken_reached))]
fn reached_axis(
    alloc: Global,
    dict: &TextDict,
    on: &ObjRef<'_>,
    rows: &Reached,
) -> Result<Axis, NoMemory>
    requires table { CanSelect dict.now on.now }
    requires rows { IsReachedOf (length on.now.labels) rows.now }
    requires one { AddsOnOne on.now rows.now }
    ensures tuples { IfOk result (λ axis. axis.tuples ≡ reached_tuples on.now rows.now) }
    ensures levels { IfOk result (λ axis. length axis.names ≡ length on.now.level_names) }
{
    match rows.added {
        None => on.axis().take(alloc, &rows.places),
        Some(label) => {
            let mut labels = Tuples::new(alloc);
            labels.push(Tuple::of(alloc, &[label]))?;
            Axis::from_tuples(alloc, dict, &labels, 1)
        }
    }
}

// The cells of a Series by position, of which there must be so many.
fn values_by_position(alloc: Global, count: usize, series: &ObjRef<'_>) -> Result<Cells, OpFault>
    requires known { IsWhole series.now }
    requires single { series.now.shape ≡ Series }
    ensures values { (texts : List OneText) → MakesBy cells_value texts result
        (meant.placed_values count (table_value texts series.now)) }
    ensures count { IfOk result (λ cells. length cells ≡ count) }
    ensures cells { IfOk result (λ cells. cells ≡ (column_at series.now.columns 0).cells) }
{
    if series.rows() != count {
        return Err(wrong_length(count, series.rows()));
    }
    Ok(cells_of(alloc, series.column(0))?)
}

// The cells of a Series, aligned to the labels of the rows that are reached.
#[tactic(auto, using(crate::proofs::Hints::values_by_label))]
fn values_by_label(
    alloc: Global,
    dict: &TextDict,
    on: &ObjRef<'_>,
    rows: &Reached,
    series: &ObjRef<'_>,
) -> Result<Cells, OpFault>
    requires table { CanSelect dict.now on.now }
    requires rows { IsReachedOf (length on.now.labels) rows.now }
    requires one { AddsOnOne on.now rows.now }
    requires given { IsSettled reached_value dict.now rows.now }
    requires series { IsKnownTable dict.now series.now }
    requires single { series.now.shape ≡ Series }
    ensures values { MakesBy cells_value dict.now result
        (meant.aligned_values (table_value dict.now on.now) (reached_value dict.now rows.now)
        (table_value dict.now series.now)) }
    ensures count { IfOk result (λ cells. length cells ≡ length rows.now.places) }
    ensures given { IfOk result (AreGiven dict.now) }
{
    let labels = reached_axis(alloc, dict, on, rows)?;
    aligned_cells(alloc, dict, &labels, series)
}

// The cells of a Series: by position in `iloc` and `iat`, and else aligned.
fn series_values(
    alloc: Global,
    dict: &TextDict,
    on: &ObjRef<'_>,
    by: Selector,
    rows: &Reached,
    series: &ObjRef<'_>,
) -> Result<Cells, OpFault>
    requires table { CanSelect dict.now on.now }
    requires rows { IsReachedOf (length on.now.labels) rows.now }
    requires one { AddsOnOne on.now rows.now }
    requires given { IsSettled reached_value dict.now rows.now }
    requires series { IsKnownTable dict.now series.now }
    requires single { series.now.shape ≡ Series }
    ensures values { MakesBy cells_value dict.now result
        (meant.series_values (accessor_of by) (table_value dict.now on.now)
        (reached_value dict.now rows.now) (table_value dict.now series.now)) }
    ensures count { IfOk result (λ cells. length cells ≡ length rows.now.places) }
    ensures given { IfOk result (AreGiven dict.now) }
{
    match by {
        Selector::Iloc => values_by_position(alloc, rows.places.len(), series),
        Selector::Iat => values_by_position(alloc, rows.places.len(), series),
        _ => values_by_label(alloc, dict, on, rows, series),
    }
}

// A value for each row and column that is reached, row by row.
#[tactic(auto, using(crate::proofs::Hints::values_for))]
pub(crate) fn values_for(
    alloc: Global,
    store: &Store,
    dict: &TextDict,
    on: &ObjRef<'_>,
    by: Selector,
    target: &Target,
    value: SetValue,
) -> Result<Cells, OpFault>
    requires table { CanSelect dict.now on.now }
    requires settled { IsSettledWorld (world store.now dict.now) }
    requires target { IsTargetOf on.now target.now }
    requires given { IsSettled target_value dict.now target.now }
    requires live { IsLiveSetValue (tables store.now) value }
    requires value { IsSettled (value_in (tables store.now)) dict.now value }
    ensures values { MakesBy cells_value dict.now result
        (meant.values_for (accessor_of by) (table_value dict.now on.now)
        (target_value dict.now target.now) (value_in (tables store.now) dict.now value)) }
    ensures count { IfOk result (λ cells. length cells ≡ cells_reached target.now) }
    ensures given { IfOk result (AreGiven dict.now) }
{
    let rows = target.rows.places.len();
    let columns = target.columns.places.len();
    match value {
        SetValue::Same(cell) => Ok(repeated(alloc, cell, rows, columns)?),
        SetValue::Listed(cells) => {
            expect_listed(rows, columns, cells.len())?;
            Ok(cells)
        }
        SetValue::Aligned(_) if columns != 1 => Err(wrong_kind()),
        SetValue::Aligned(id) => {
            series_values(alloc, dict, on, by, &target.rows, &store.read(id))
        }
    }
}

// The kind of a new column, as that of a whole column.
pub(crate) fn kind_for(store: &Store, value: &SetValue) -> Result<Kind, OpFault>
    requires { IsLiveSetValue (tables store.now) value.now }
    ensures { (texts : List OneText) → MakesBy as_it_is texts result
        (meant.kind_of_value (value_in (tables store.now) texts value.now)) }
{
    match value {
        SetValue::Same(cell) => Ok(present_kind(*cell).unwrap_or(Kind::Int64)),
        SetValue::Listed(cells) => list_kind(cells),
        SetValue::Aligned(id) => Ok(store.read(*id).kind(0)),
    }
}

// The kind of a column, where one more has another.
fn kind_at(on: &ObjRef<'_>, place: usize, added: Kind) -> Kind
    ensures { result ≡ kind_there on.now place added }
{
    if place < on.columns() {
        on.kind(place)
    } else {
        added
    }
}

// The kinds of the columns at these places, where one more has another.
pub(crate) fn kinds_of(
    alloc: Global,
    on: &ObjRef<'_>,
    columns: &Places,
    added: Kind,
) -> Result<Vec<Kind>, NoMemory>
    ensures kinds { IfOk result (λ kinds. (grown : OneTable)
        → HasKinds grown on.now added columns.now → AreKindsOf grown columns.now kinds.items) }
    ensures count { IfOk result (λ kinds. length kinds.items ≡ length columns.now) }
{
    let mut kinds = Vec::new(alloc);
    for place in columns.as_slice() {
        kinds.push(kind_at(on, *place, added))?;
    }
    Ok(kinds)
}

// Refuses values, row by row, of which one doesn't fit the kind of its column.
pub(crate) fn expect_fit(kinds: &[Kind], values: &[Cell]) -> Result<(), OpFault>
    requires { length values.now ≡ 0 ⊎ 0 < length kinds.now }
    ensures { (texts : List OneText) (grown : OneTable) (columns : List ℕ)
        → AreKindsOf grown columns kinds.now
        → TestsThat result (meant.fit_from 0 grown columns (cells_value texts values.now))
        code.WrongKind }
{
    let mut column = 0;
    for value in values {
        if !kinds[column].holds(*value) {
            return Err(wrong_kind());
        }
        column += 1;
        if column == kinds.len() {
            column = 0;
        }
    }
    Ok(())
}

// How many there are with one that is added. No table has as many as the greatest number.
fn count_with(count: usize, added: Option<Label>) -> usize
    ensures { result ≡ min (count_with count added) (2 ^ 64 - 1) }
{
    match added {
        Some(_) => count.saturating_add(1),
        None => count,
    }
}

// Refuses a table that would be beyond the limits with what a setting adds.
pub(crate) fn expect_room(on: &ObjRef<'_>, target: &Target) -> Result<(), OpFault>
    ensures { TestsThat result
        (finish.within_limits (rows_after on.now target.now) (columns_after on.now target.now))
        code.Limit }
{
    let rows = count_with(on.rows(), target.rows.added);
    let columns = count_with(on.columns(), target.columns.added);
    if !within_limits(rows, columns) {
        return Err(OpFault::Refused(Code::Limit));
    }
    Ok(())
}
