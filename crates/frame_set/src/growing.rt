// Tables that get a row or a column.
ghost use Rattle.std.specs.Prelude.{◌≡◌, ◌<◌, ◌≤◌, ◌*◌, length, map, All, IfOk};
ghost use Rattle.frame_store.specs.tables.Change.{with_values};
ghost use Rattle.frame_store.specs.Parts.{labelled, IsSingle, IsHeld, block_column, AreHeld};
ghost use Rattle.frame_select.specs.Reaches.{CanSelect};
ghost use Rattle.frame_select.specs.charge.Charge.{different_count};
ghost use Rattle.frame_store.specs.tables.Valid.{IsWhole};
ghost use Rattle.frame_set.specs.Values.{cells_reached, AddsToFrame, IsTargetOf};
ghost use Rattle.frame_set.specs.Changes.{changed, columns_changed, IsChangeOf};
ghost use Rattle.frame_set.specs.Sole.{SetsColumns};
ghost use Rattle.frame_set.specs.Grown.{axis_with, columns_with_gap, with_row, new_column, column_added, grown_table};

use crate::changes::Change;
use crate::targets::{Reached, Target};
use cell_core::{Cell, Cells, Grid, Kind, Label, NoMemory, Places, TextDict, Tuple, Tuples};
use column_core::Block;
use frame_store::{Blocks, ObjRef, Table, headings_of};
use multi_index::Axis;
use std::alloc::Global;

// The axis of one level with one more label behind the last.
fn axis_with(
    alloc: Global,
    dict: &TextDict,
    on: &ObjRef<'_>,
    label: Label,
) -> Result<Axis, NoMemory>
    requires table { CanSelect dict.now on.now }
    requires one { length on.now.level_names ≡ 1 }
    ensures { IfOk result (λ axis. labelled axis ≡ axis_with on.now label) }
{
    let mut labels = Tuples::new(alloc);
    for row in 0..on.rows() {
        labels.push(Tuple::of(alloc, &[on.label(row, 0)]))?;
    }
    labels.push(Tuple::of(alloc, &[label]))?;
    let mut axis = Axis::from_tuples(alloc, dict, &labels, 1)?;
    axis.set_name(0, on.level_name(0));
    Ok(axis)
}

// The columns with one more row of NA.
#[tactic(auto, using(crate::proofs::GrowLaws::gap_more, crate::proofs::GrowLaws::gap_single))]
fn columns_with_gap(alloc: Global, on: &ObjRef<'_>) -> Result<Blocks, NoMemory>
    ensures columns { IfOk result (λ made. map block_column made ≡ columns_with_gap on.now) }
    ensures single { IfOk result (λ made. All IsSingle made) }
{
    let mut blocks = Blocks::new(alloc);
    for place in 0..on.columns() {
        let mut column = on.column(place).to_column(alloc)?;
        column.push(Cell::Na)?;
        blocks.push(column.into_block())?;
    }
    Ok(blocks)
}

// The table with one more row of NA.
fn with_row(
    alloc: Global,
    dict: &TextDict,
    on: &ObjRef<'_>,
    label: Label,
) -> Result<Table, NoMemory>
    requires table { CanSelect dict.now on.now }
    requires one { length on.now.level_names ≡ 1 }
    ensures { IfOk result (λ made. made ≡ with_row on.now label) }
{
    let axis = axis_with(alloc, dict, on, label)?;
    let blocks = columns_with_gap(alloc, on)?;
    let headings = headings_of(alloc, on)?;
    Ok(Table::new(on.shape(), axis, headings, blocks))
}

// One more column of NA, with these values at these rows.
fn new_column(
    alloc: Global,
    kind: Kind,
    count: usize,
    rows: &Places,
    values: &Cells,
) -> Result<Block, NoMemory>
    requires rows { All (λ row. row < count) rows.now }
    requires count { length values.now ≡ length rows.now }
    requires held { All (IsHeld kind) values.now }
    ensures single { IfOk result IsSingle }
    ensures rows { IfOk result (λ block. length (block_column block).cells ≡ count) }
    ensures column { IfOk result (λ block. block_column block
        ≡ new_column kind count rows.now values.now) }
{
    let mut block = Block::new(alloc, kind, 1, count)?;
    for k in 0..rows.len() {
        block.put(0, *rows.at(k), *values.at(k));
    }
    Ok(block)
}

// The table with one more column of NA, where a label is added for it.
fn with_gap_column(
    alloc: Global,
    table: Table,
    rows: usize,
    columns: usize,
    label: Option<Label>,
    kind: Kind,
) -> Result<Table, NoMemory>
    requires whole { IsWhole table }
    requires rows { rows ≡ length table.labels }
    requires columns { columns ≡ length table.columns }
    requires frame { AddsToFrame table label }
    ensures { IfOk result (λ made. made ≡ column_added table label kind) }
{
    let mut grown = table;
    if let Some(label) = label {
        let block = Block::new(alloc, kind, 1, rows)?;
        grown.put_column(columns, Some(label), block)?;
    }
    Ok(grown)
}

// The change that puts the values, and adds a row or a column where there is one to be added.
#[tactic(auto, using(crate::proofs::Hints::filled))]
pub(crate) fn filled(
    alloc: Global,
    dict: &TextDict,
    on: &ObjRef<'_>,
    target: Target,
    kind: Kind,
    values: Cells,
) -> Result<Change, NoMemory>
    requires table { CanSelect dict.now on.now }
    requires target { IsTargetOf on.now target }
    requires count { length values ≡ cells_reached target }
    requires held { AreHeld (grown_table on.now target kind).columns target.columns.places values }
    ensures made { IfOk result (λ change. changed on.now change
        ≡ with_values (grown_table on.now target kind)
        target.rows.places target.columns.places values) }
    ensures fits { IfOk result (IsChangeOf on.now) }
    ensures touched { IfOk result (λ change. columns_changed change
        ≤ different_count target.columns.places) }
    ensures picked { IfOk result (SetsColumns on.now target.columns.places) }
{
    let Target { rows, columns } = target;
    let Reached {
        places: rows,
        added: row_label,
    } = rows;
    let Reached {
        places: columns,
        added: column_label,
    } = columns;
    match (row_label, column_label) {
        (None, None) => Ok(Change::Cells {
            rows,
            columns,
            values,
        }),
        (None, Some(label)) => Ok(Change::Column {
            place: on.columns(),
            label,
            block: new_column(alloc, kind, on.rows(), &rows, &values)?,
        }),
        (Some(row), column) => {
            let Some(count) = on.rows().checked_add(1) else {
                return Err(NoMemory);
            };
            let made = with_row(alloc, dict, on, row)?;
            let mut table = with_gap_column(alloc, made, count, on.columns(), column, kind)?;
            table.set_cells(&rows, &columns, &values);
            Ok(Change::Table(table))
        }
    }
}
