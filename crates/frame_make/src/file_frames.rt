// The frame of the columns of a file.
ghost use Rattle.std.specs.Prelude.{◌≡◌, ◌≤◌, ◌^◌, map, reverse, IfOk};
ghost use Rattle.multi_index.specs.Axes.{HaveLevels};
ghost use Rattle.csv_frames.specs.Views.{PartsFit};
ghost use Rattle.frame_make.specs.Frames as meant;

use cell_core::{NoMemory, Shape, Tuples};
use csv_frames::{Columns, CsvTable};
use frame_store::{Blocks, Headings, Table};
use multi_index::Axis;
use std::alloc::Global;

/// The labels of columns, each a tuple of its own, as headings. `NoMemory` is the only refusal.
pub fn headings_of(alloc: Global, labels: &Tuples) -> Result<Headings, NoMemory>
    requires { HaveLevels 1 labels.now }
    ensures { IfOk result (λ made. made ≡ meant.headings_of labels.now) }
{
    let mut headings = Headings::new(alloc, None);
    for place in 0..labels.len() {
        headings.push(Some(labels.at(place).at(0)))?;
    }
    Ok(headings)
}

// The columns as blocks, the last one first.
fn blocks_from_last(alloc: Global, mut columns: Columns) -> Result<Blocks, NoMemory>
    ensures { IfOk result (λ made. made ≡ reverse (map meant.column_block columns)) }
{
    let mut blocks = Blocks::new(alloc);
    while let Some(column) = columns.pop() {
        blocks.push(column.into_block())?;
    }
    Ok(blocks)
}

// The blocks, the last one first.
fn reversed_blocks(alloc: Global, mut blocks: Blocks) -> Result<Blocks, NoMemory>
    ensures { IfOk result (λ made. made ≡ reverse blocks) }
{
    let mut made = Blocks::new(alloc);
    while let Some(block) = blocks.pop() {
        made.push(block)?;
    }
    Ok(made)
}

/// The columns as blocks. They are moved, so that no cell is copied: a list gives up its last item
/// alone, and is turned twice. `NoMemory` is the only refusal.
pub fn blocks_of(alloc: Global, columns: Columns) -> Result<Blocks, NoMemory>
    ensures { IfOk result (λ made. made ≡ map meant.column_block columns) }
{
    let blocks = blocks_from_last(alloc, columns)?;
    reversed_blocks(alloc, blocks)
}

// The frame of the columns that were read; the labels of its rows are 0, 1 and so on.
pub(crate) fn frame_of(alloc: Global, read: CsvTable) -> Result<Table, NoMemory>
    requires few { read.rows ≤ 2 ^ 63 }
    requires single { HaveLevels 1 read.labels }
    requires parts { PartsFit read }
    ensures { IfOk result (λ made. made ≡ meant.frame_of read) }
{
    let axis = Axis::range(alloc, read.rows)?;
    let headings = headings_of(alloc, &read.labels)?;
    let columns = blocks_of(alloc, read.columns)?;
    Ok(Table::new(Shape::Frame, axis, headings, columns))
}
