// The rows, or the columns, of the labels in a list.
ghost use Rattle.std.specs.Prelude.{◌≡◌, length, map, All, IfOk, IsSome, Option};
ghost use Rattle.cell_core.specs.declared.cell.Cell.TheVariants.{Na};
ghost use Rattle.cell_core.specs.declared.grid.Shape.TheVariants.{Frame};
ghost use Rattle.column_core.specs.Moves.{IsPlaceOf};
ghost use Rattle.multi_index.specs.Axes.{HaveLevels};
ghost use Rattle.frame_store.specs.tables.Settled.{IsSettled};
ghost use Rattle.frame_store.specs.tables.Table.{table_value};
ghost use Rattle.meaning_method.specs.Reindex as meant;
ghost use Rattle.frame_store.specs.Arguments.{items_of, object_value, shape_at, IsLiveObject};
ghost use Rattle.frame_store.specs.Objects.{tables};
ghost use Rattle.frame_store.specs.Parts.{labelled, columns_of, table_column, IsSingle};
ghost use Rattle.frame_store.specs.Shown.{labels_value, Makes};
ghost use Rattle.frame_store.specs.World.{world, IsKnownTable, IsSettledWorld};
ghost use Rattle.frame_labels.specs.Reindexed.{heading_of, list_lent};

use crate::column_labels::columns_axis;
use cell_core::{Cell, Code, Gaps, Grid, Kind, Label, NoMemory, TextDict, Tuples};
use column_core::Column;
use frame_parts::{columns_on, rows_of_labels, within_limits};
use frame_select::{heading_list, listed_keys};
use frame_store::{Blocks, Item, ObjId, ObjRef, OpFault, Store, Table, headings_of};
use multi_index::Axis;
use std::alloc::Global;

// The axis of these tuples, whose levels have the names of another one's.
fn axis_like(alloc: Global, dict: &TextDict, labels: &Tuples, like: &Axis) -> Result<Axis, NoMemory>
    requires { HaveLevels (length like.now.names) labels.now }
    ensures { IfOk result (λ axis. labelled axis
        ≡ record { tuples = labels.now; names = like.now.names }) }
{
    let mut axis = Axis::from_tuples(alloc, dict, labels, like.levels())?;
    for level in 0..like.levels() {
        axis.set_name(level, like.name(level));
    }
    Ok(axis)
}

// The rows of these labels, each of them the table's or missing.
#[tactic(auto, using(crate::proofs::Hints::rows_reindexed))]
fn rows_reindexed(
    alloc: Global,
    dict: &TextDict,
    on: &ObjRef<'_>,
    labels: &Tuples,
) -> Result<Table, OpFault>
    requires known { IsKnownTable dict.now on.now }
    requires levels { HaveLevels (length on.now.level_names) labels.now }
    requires labels { IsSettled labels_value dict.now labels.now }
    ensures { Makes dict.now result (meant.rows_reindexed
        (table_value dict.now on.now) (labels_value dict.now labels.now)) }
{
    let axis = axis_like(alloc, dict, labels, on.axis())?;
    let rows = rows_of_labels(alloc, dict, on.axis(), &axis)?;
    if !within_limits(rows.len(), on.columns()) {
        return Err(OpFault::Refused(Code::Limit));
    }
    let blocks = columns_on(alloc, on, &rows)?;
    let headings = headings_of(alloc, on)?;
    Ok(Table::new(on.shape(), axis, headings, blocks))
}

// The labels of an axis of one level as headings.
fn labels_as_headings(alloc: Global, axis: &Axis) -> Result<Vec<Option<Label>>, NoMemory>
    requires one { length axis.now.names ≡ 1 }
    requires alike { HaveLevels 1 axis.now.tuples }
    ensures { IfOk result (λ headings. headings.items ≡ map heading_of axis.now.tuples) }
{
    let mut headings = Vec::new(alloc);
    for row in 0..axis.len() {
        headings.push(Some(axis.label(row, 0)))?;
    }
    Ok(headings)
}

// The column at a place, or whole numbers of which all are missing.
fn column_or_missing(
    alloc: Global,
    on: &ObjRef<'_>,
    place: Option<usize>,
) -> Result<Column, NoMemory>
    requires { IsPlaceOf (length on.now.columns) place }
    ensures { IfOk result (λ made. table_column made ≡ meant.column_or_missing Na on.now place) }
{
    match place {
        Some(place) => on.column(place).to_column(alloc),
        None => Column::repeat(alloc, Kind::Int64, Cell::Na, on.rows()),
    }
}

// The columns at these places, and missing ones at gaps, each in a block of its own.
#[tactic(auto, using(crate::proofs::Hints::columns_or_missing))]
fn columns_or_missing(alloc: Global, on: &ObjRef<'_>, places: &Gaps) -> Result<Blocks, NoMemory>
    requires { All (IsPlaceOf (length on.now.columns)) places.now }
    ensures single { IfOk result (All IsSingle) }
    ensures columns { IfOk result (λ made. columns_of made
        ≡ map (meant.column_or_missing Na on.now) places.now) }
{
    let mut made = Blocks::new(alloc);
    for k in 0..places.len() {
        let column = column_or_missing(alloc, on, *places.at(k))?;
        made.push(column.into_block())?;
    }
    Ok(made)
}

// The columns of these labels, each of them the frame's or missing.
#[tactic(auto, using(crate::proofs::Hints::columns_reindexed))]
fn columns_reindexed(
    alloc: Global,
    dict: &TextDict,
    on: &ObjRef<'_>,
    labels: &Tuples,
) -> Result<Table, OpFault>
    requires known { IsKnownTable dict.now on.now }
    requires shape { on.now.shape ≡ Frame }
    requires level { HaveLevels 1 labels.now }
    requires labels { IsSettled labels_value dict.now labels.now }
    ensures { Makes dict.now result (meant.columns_reindexed
        (table_value dict.now on.now) (labels_value dict.now labels.now)) }
{
    let wanted = Axis::from_tuples(alloc, dict, labels, 1)?;
    let own = columns_axis(alloc, dict, on)?;
    let places = rows_of_labels(alloc, dict, &own, &wanted)?;
    if !within_limits(on.rows(), places.len()) {
        return Err(OpFault::Refused(Code::Limit));
    }
    let labels = labels_as_headings(alloc, &wanted)?;
    let headings = heading_list(alloc, on.columns_name(), labels.as_slice())?;
    let blocks = columns_or_missing(alloc, on, &places)?;
    let axis = on.axis().copy(alloc)?;
    Ok(Table::new(on.shape(), axis, headings, blocks))
}

// The rows of the labels in a list: scalars on one level, and on several tuples with a label for each.
fn reindex_rows(
    alloc: Global,
    store: &Store,
    dict: &TextDict,
    items: &[Item],
    on: ObjId,
) -> Result<Table, OpFault>
    requires live { IsLiveObject (tables store.now) on }
    requires settled { IsSettledWorld (world store.now dict.now) }
    requires items { IsSettled (items_of (tables store.now)) dict.now items.now }
    ensures { Makes dict.now result
        (meant.reindex_rows (object_value (tables store.now) dict.now on)
        (items_of (tables store.now) dict.now items.now)) }
{
    let source = store.read(on);
    let labels = listed_keys(alloc, source.axis().levels(), items)?;
    rows_reindexed(alloc, dict, &source, &labels)
}

// The columns of the labels in a list.
fn reindex_columns(
    alloc: Global,
    store: &Store,
    dict: &TextDict,
    items: &[Item],
    on: ObjId,
) -> Result<Table, OpFault>
    requires live { IsLiveObject (tables store.now) on }
    requires shape { shape_at (tables store.now) on ≡ Frame }
    requires settled { IsSettledWorld (world store.now dict.now) }
    requires items { IsSettled (items_of (tables store.now)) dict.now items.now }
    ensures { Makes dict.now result
        (meant.reindex_columns (object_value (tables store.now) dict.now on)
        (items_of (tables store.now) dict.now items.now)) }
{
    let labels = listed_keys(alloc, 1, items)?;
    columns_reindexed(alloc, dict, &store.read(on), &labels)
}

/// The rows or the columns of the labels in a list: just one of the lists is given.
///
/// `WrongKind` where both are given or none, the refusals of labels of another form, `BadValue(Repeated)` where the list
/// isn't the table's own labels and these repeat one, `Limit`. `NoMemory` may come in place of any answer.
pub fn reindex(
    alloc: Global,
    store: &Store,
    dict: &TextDict,
    rows: Option<&[Item]>,
    columns: Option<&[Item]>,
    on: ObjId,
) -> Result<Table, OpFault>
    requires live { IsLiveObject (tables store.now) on }
    requires frame { IsSome columns → shape_at (tables store.now) on ≡ Frame }
    requires settled { IsSettledWorld (world store.now dict.now) }
    requires rows { IsSettled (list_lent (tables store.now)) dict.now rows }
    requires columns { IsSettled (list_lent (tables store.now)) dict.now columns }
    ensures { Makes dict.now result
        (meant.reindex_result (object_value (tables store.now) dict.now on)
        (list_lent (tables store.now) dict.now rows.entry)
        (list_lent (tables store.now) dict.now columns.entry)) }
{
    match rows {
        Some(items) => match columns {
            Some(_) => Err(OpFault::Refused(Code::WrongKind)),
            None => reindex_rows(alloc, store, dict, items, on),
        },
        None => match columns {
            Some(items) => reindex_columns(alloc, store, dict, items, on),
            None => Err(OpFault::Refused(Code::WrongKind)),
        },
    }
}
