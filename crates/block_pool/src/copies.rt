// What views show of blocks, and copies of it.
ghost use Rattle.std.specs.Prelude.{◌≡◌, ◌<◌, ◌≤◌, ◌+◌, ◌^◌, ◌++◌, [], length, map, take, drop, slice_index_or, slice_set, IfOk, vec_len, vec_capacity};
ghost use Rattle.column_core.specs.Blocks.{columns_in};
ghost use Rattle.block_pool.specs.Pools.{cells_of};
ghost use Rattle.block_pool.specs.Placed.{shown_column, shown_grid, turned, IsEven, IsPlaced};

use crate::views::View;
use cell_core::NoMemory;
use column_core::{Block, ColRef, Column};
use std::alloc::Global;

/// A column of what a view shows of its block.
pub(crate) fn shown(block: &Block, view: View, column: usize) -> ColRef<'_>
    requires placed { IsPlaced block.now view }
    requires column { column < view.columns }
    ensures kind { result.kind ≡ block.now.kind }
    ensures cells { result.cells ≡ shown_column block.now view column }
{
    let _columns = block.columns();
    block.strided(view.first + column, view.rows())
}

/// What a view shows of its block, as a block of its own.
pub(crate) fn copied(alloc: Global, block: &Block, view: View) -> Result<Block, NoMemory>
    requires { IsPlaced block.now view }
    ensures { IfOk result (λ copy. copy ≡ shown_grid block.now view) }
{
    if view.columns == 1 {
        // The values of one column are copied as a slice where they lie side by side.
        return Ok(shown(block, view, 0).to_column(alloc)?.into_block());
    }
    copied_columns(alloc, block, view)
}

// The same for any number of columns, cell by cell.
fn copied_columns(alloc: Global, block: &Block, view: View) -> Result<Block, NoMemory>
    requires { IsPlaced block.now view }
    ensures { IfOk result (λ copy. copy ≡ shown_grid block.now view) }
{
    let mut copy = Block::new(alloc, block.kind(), view.columns, view.count)?;
    for column in 0..view.columns {
        fill(&mut copy, column, shown(block, view, column));
    }
    Ok(copy)
}

// Puts cells into a column.
fn fill(block: &mut Block, column: usize, cells: ColRef<'_>)
    requires column { column < length block.old.columns }
    requires kind { cells.kind ≡ block.old.kind }
    requires rows { length cells.cells ≡ block.old.rows }
    requires even { length (slice_index_or block.old.columns column []) ≡ block.old.rows }
    ensures { block.new ≡ record {
      kind = block.old.kind;
      rows = block.old.rows;
      columns = slice_set block.old.columns column cells.entry.cells;
    } }
{
    for row in 0..cells.len() {
        block.put(column, row, cells.cell(row));
    }
}

/// Moves the columns that a view shows of its block, which has no other cells, behind those of a list that has room
/// for them.
pub(crate) fn move_shown(block: Block, view: View, list: &mut Vec<Column>)
    requires placed { IsPlaced block view }
    requires even { IsEven block }
    requires full { cells_of (shown_grid block view) ≡ cells_of block }
    requires room { vec_len list.old + view.columns ≤ vec_capacity list.old }
    ensures items { list.new.items ≡ list.old.items ++ columns_in (shown_grid block view) }
    ensures len { vec_len list.new ≡ vec_len list.old + view.columns }
    ensures capacity { vec_capacity list.old ≤ vec_capacity list.new }
{
    let before = list.len();
    let _columns = block.columns();
    block.move_columns(view.columns, list);
    if view.back {
        turn_from(list, before);
    }
}

// Turns the columns from a place on about.
fn turn_from(list: &mut Vec<Column>, from: usize)
    requires { from ≤ vec_len list.old }
    ensures items { list.new.items
        ≡ take from list.old.items ++ map turned (drop from list.old.items) }
    ensures len { vec_len list.new ≡ vec_len list.old }
    ensures capacity { vec_capacity list.new ≡ vec_capacity list.old }
{
    for k in from..list.len() {
        list[k].reverse();
    }
}
