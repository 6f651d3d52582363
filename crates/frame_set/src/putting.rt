// Whole columns that are put into a frame.
ghost use Rattle.std.specs.Prelude.{◌≡◌, ◌<◌, ◌≤◌, length, Some, IfOk};
ghost use Rattle.cell_core.specs.declared.grid.Shape.TheVariants.{Frame, Series};
ghost use Rattle.column_core.specs.cells.Cell.{AreGiven, label_datum};
ghost use Rattle.frame_store.specs.tables.Settled.{IsSettled};
ghost use Rattle.frame_store.specs.tables.Table.{table_value};
ghost use Rattle.frame_store.specs.tables.Valid.{IsWhole};
ghost use Rattle.frame_parts.specs.form.Finish as finish;
ghost use Rattle.frame_select.specs.select.Set as meant;
ghost use Rattle.frame_parts.specs.Makes.{column_seen, MakesBy};
ghost use Rattle.frame_store.specs.Objects.{tables};
ghost use Rattle.frame_store.specs.Arguments.{object_value, shape_at, IsLiveObject};
ghost use Rattle.frame_store.specs.World.{world, IsKnownTable, IsSettledWorld};
ghost use Rattle.frame_set.specs.Aligned.{aligned_set};
ghost use Rattle.frame_set.specs.Assigned.{table_column, count_after, put_places, with_axis, with_places};
ghost use Rattle.frame_set.specs.Places.{places_at, places_of, IsSpotIn};
ghost use Rattle.frame_set.specs.Values.{value_in, IsLiveSetValue};
ghost use Rattle.frame_set.specs.Changes.{changed, columns_changed, columns_after, ChangesBy, SetsBy, IsChangeOf, IsSettingOf};

use crate::aligning::aligned_column;
use crate::changes::{Change, Setting};
use crate::columns::{missing_columns, scalar_column};
use crate::filling::wrong_length;
use crate::values::SetValue;
use cell_core::{Code, Grid, Label, NoMemory, Places, TextDict};
use column_core::Column;
use frame_parts::{list_column, same_rows, within_limits};
use frame_select::places_of_label;
use frame_store::{ObjId, ObjRef, OpFault, Store, Table, headings_of};
use multi_index::Axis;
use std::alloc::Global;

/// Where a column is put.
#[derive(Drop)]
enum Spot {
    /// In place of one column, or behind the last.
    One(usize),
    /// In place of each of several columns.
    Several(Places),
}

// Whether a table of so many rows and columns may have a column put in place of so many of them, or last.
fn has_room(rows: usize, columns: usize, replaced: usize) -> bool
    ensures { result ≡ finish.within_limits rows (count_after columns replaced) }
{
    if replaced == 0 {
        columns < 1 << 16 && within_limits(rows, columns + 1)
    } else {
        within_limits(rows, columns)
    }
}

// The places of the columns with the label, or that after the last one; `Limit` where the
// table, of so many rows, would be beyond the limits with a column there.
fn put_spot(
    alloc: Global,
    dict: &TextDict,
    on: &ObjRef<'_>,
    label: Label,
    rows: usize,
) -> Result<Spot, OpFault>
    requires known { IsKnownTable dict.now on.now }
    requires label { IsSettled label_datum dict.now label }
    ensures answer { MakesBy places_at dict.now result
        (put_places rows (table_value dict.now on.now) (label_datum dict.now label)) }
    ensures inside { IfOk result (IsSpotIn on.now) }
{
    let columns = on.columns();
    let places = places_of_label(alloc, dict, on, label)?;
    if !has_room(rows, columns, places.len()) {
        return Err(OpFault::Refused(Code::Limit));
    }
    match places.len() {
        0 => Ok(Spot::One(columns)),
        1 => Ok(Spot::One(*places.at(0))),
        _ => Ok(Spot::Several(places)),
    }
}

// A column for the rows of a frame, under a label.
pub(crate) fn put_change(
    alloc: Global,
    dict: &TextDict,
    on: &ObjRef<'_>,
    label: Label,
    column: Column,
) -> Result<Change, OpFault>
    requires known { IsKnownTable dict.now on.now }
    requires shape { on.now.shape ≡ Frame }
    requires label { IsSettled label_datum dict.now label }
    requires given { AreGiven dict.now column.cells }
    requires rows { length column.cells ≡ length on.now.labels }
    ensures change { ChangesBy dict.now on.now result
        (meant.put_result (table_value dict.now on.now) (label_datum dict.now label)
        (column_seen dict.now column)) }
    ensures fits { IfOk result (IsChangeOf on.now) }
    ensures one { IfOk result (λ change. columns_changed change ≤ 1) }
{
    let block = column.into_block();
    match put_spot(alloc, dict, on, label, on.rows())? {
        Spot::One(place) => Ok(Change::Column {
            place,
            label,
            block,
        }),
        Spot::Several(places) => Ok(Change::Columns {
            places,
            label,
            block,
        }),
    }
}

// The frame with a column in its places, each with cells of its own.
fn with_spot(
    alloc: Global,
    table: Table,
    spot: Spot,
    label: Label,
    column: Column,
) -> Result<Table, NoMemory>
    requires frame { table.shape ≡ Frame }
    requires rows { length column.cells ≡ length table.labels }
    requires spot { IsSpotIn table spot }
    ensures { IfOk result (λ made. made
        ≡ with_places table (places_of spot) label (table_column column)) }
{
    let mut made = table;
    match spot {
        Spot::One(place) => made.put_column(place, Some(label), column.into_block())?,
        Spot::Several(places) => {
            for place in places.as_slice() {
                let copy = column.as_ref().to_column(alloc)?;
                made.put_column(*place, Some(label), copy.into_block())?;
            }
        }
    }
    Ok(made)
}

// The frame with the rows of an axis, in which its columns hold NA, and a column under a label.
#[tactic(auto, using(crate::proofs::PutLaws::rows_whole, crate::proofs::PutLaws::labels_kept))]
fn rows_change(
    alloc: Global,
    on: &ObjRef<'_>,
    axis: Axis,
    spot: Spot,
    label: Label,
    column: Column,
) -> Result<Change, NoMemory>
    requires whole { IsWhole on.now }
    requires shape { on.now.shape ≡ Frame }
    requires rows { length column.cells ≡ length axis.tuples }
    requires more { length on.now.labels < length axis.tuples }
    requires spot { IsSpotIn on.now spot }
    ensures made { IfOk result (λ change. changed on.now change
        ≡ with_places (with_axis on.now axis) (places_of spot) label (table_column column)) }
    ensures fits { IfOk result (IsChangeOf on.now) }
    ensures one { IfOk result (λ change. columns_changed change ≤ 1) }
{
    let blocks = missing_columns(alloc, on, axis.len())?;
    let headings = headings_of(alloc, on)?;
    let table = Table::new(on.shape(), axis, headings, blocks);
    Ok(Change::Table(with_spot(alloc, table, spot, label, column)?))
}

// The scalars of a list, which go by rows; a frame without rows gets the labels 0, 1 and so on.
#[tactic(auto, using(crate::proofs::PutCases::range_count))]
fn list_change(
    alloc: Global,
    dict: &TextDict,
    on: &ObjRef<'_>,
    label: Label,
    column: Column,
) -> Result<Change, OpFault>
    requires known { IsKnownTable dict.now on.now }
    requires shape { on.now.shape ≡ Frame }
    requires label { IsSettled label_datum dict.now label }
    requires given { AreGiven dict.now column.cells }
    ensures change { ChangesBy dict.now on.now result
        (meant.list_set (table_value dict.now on.now) (label_datum dict.now label)
        (column_seen dict.now column)) }
    ensures fits { IfOk result (IsChangeOf on.now) }
    ensures one { IfOk result (λ change. columns_changed change ≤ 1) }
{
    let count = column.as_ref().len();
    if on.rows() == 0 && count > 0 {
        let spot = put_spot(alloc, dict, on, label, count)?;
        let axis = Axis::range(alloc, count)?;
        return Ok(rows_change(alloc, on, axis, spot, label, column)?);
    }
    if on.rows() != count {
        return Err(wrong_length(on.rows(), count));
    }
    put_change(alloc, dict, on, label, column)
}

// The cells of a Series, aligned to the rows of the frame.
fn aligned_change(
    alloc: Global,
    dict: &TextDict,
    on: &ObjRef<'_>,
    label: Label,
    series: &ObjRef<'_>,
) -> Result<Change, OpFault>
    requires known { IsKnownTable dict.now on.now }
    requires shape { on.now.shape ≡ Frame }
    requires label { IsSettled label_datum dict.now label }
    requires series { IsKnownTable dict.now series.now }
    requires single { series.now.shape ≡ Series }
    ensures change { ChangesBy dict.now on.now result
        (aligned_set (table_value dict.now on.now) (label_datum dict.now label)
        (table_value dict.now series.now)) }
    ensures fits { IfOk result (IsChangeOf on.now) }
    ensures one { IfOk result (λ change. columns_changed change ≤ 1) }
{
    let column = aligned_column(alloc, dict, on.axis(), series)?;
    put_change(alloc, dict, on, label, column)
}

// The cells of a Series, which gives its rows to a frame without rows.
fn series_change(
    alloc: Global,
    dict: &TextDict,
    on: &ObjRef<'_>,
    label: Label,
    series: &ObjRef<'_>,
) -> Result<Change, OpFault>
    requires known { IsKnownTable dict.now on.now }
    requires shape { on.now.shape ≡ Frame }
    requires label { IsSettled label_datum dict.now label }
    requires series { IsKnownTable dict.now series.now }
    requires single { series.now.shape ≡ Series }
    ensures change { ChangesBy dict.now on.now result
        (meant.series_set (table_value dict.now on.now) (label_datum dict.now label)
        (table_value dict.now series.now)) }
    ensures fits { IfOk result (IsChangeOf on.now) }
    ensures one { IfOk result (λ change. columns_changed change ≤ 1) }
{
    if on.rows() == 0 && series.rows() > 0 {
        let spot = put_spot(alloc, dict, on, label, series.rows())?;
        let column = series.column(0).to_column(alloc)?;
        let axis = series.axis().copy(alloc)?;
        return Ok(rows_change(alloc, on, axis, spot, label, column)?);
    }
    aligned_change(alloc, dict, on, label, series)
}

// A whole column of a frame, under a label.
pub(crate) fn column_change(
    alloc: Global,
    store: &Store,
    dict: &TextDict,
    on: &ObjRef<'_>,
    label: Label,
    value: SetValue,
) -> Result<Change, OpFault>
    requires known { IsKnownTable dict.now on.now }
    requires shape { on.now.shape ≡ Frame }
    requires label { IsSettled label_datum dict.now label }
    requires settled { IsSettledWorld (world store.now dict.now) }
    requires live { IsLiveSetValue (tables store.now) value }
    requires value { IsSettled (value_in (tables store.now)) dict.now value }
    ensures change { ChangesBy dict.now on.now result
        (meant.column_set (table_value dict.now on.now) (label_datum dict.now label)
        (value_in (tables store.now) dict.now value)) }
    ensures fits { IfOk result (IsChangeOf on.now) }
    ensures one { IfOk result (λ change. columns_changed change ≤ 1) }
{
    match value {
        SetValue::Same(cell) => {
            let column = scalar_column(alloc, cell, on.rows())?;
            put_change(alloc, dict, on, label, column)
        }
        SetValue::Listed(cells) => {
            let column = list_column(alloc, &cells)?;
            list_change(alloc, dict, on, label, column)
        }
        SetValue::Aligned(id) => series_change(alloc, dict, on, label, &store.read(id)),
    }
}

// The cells of a Series that ends. Its column moves where it has the frame's rows, if it goes to one place.
pub(crate) fn series_setting(
    alloc: Global,
    store: &Store,
    dict: &TextDict,
    on: &ObjRef<'_>,
    label: Label,
    series: ObjId,
) -> Result<Setting, OpFault>
    requires known { IsKnownTable dict.now on.now }
    requires shape { on.now.shape ≡ Frame }
    requires label { IsSettled label_datum dict.now label }
    requires settled { IsSettledWorld (world store.now dict.now) }
    requires live { IsLiveObject (tables store.now) series }
    requires single { shape_at (tables store.now) series ≡ Series }
    ensures setting { SetsBy (tables store.now) dict.now on.now result
        (meant.series_set (table_value dict.now on.now) (label_datum dict.now label)
        (object_value (tables store.now) dict.now series)) }
    ensures fits { IfOk result (IsSettingOf (tables store.now) (Some series) on.now) }
    ensures one { IfOk result (λ setting. columns_after setting ≤ 1) }
{
    let source = store.read(series);
    if same_rows(dict, on.axis(), source.axis()) {
        if let Spot::One(place) = put_spot(alloc, dict, on, label, on.rows())? {
            return Ok(Setting::Move {
                place,
                label,
                series,
            });
        }
    }
    let change = series_change(alloc, dict, on, label, &source)?;
    Ok(Setting::Change(change))
}
