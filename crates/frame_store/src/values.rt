// Cells that are put into columns.
ghost use Rattle.std.specs.Prelude.{◌≡◌, ◌*◌, ◌<◌, length, vec_len, All};
ghost use Rattle.meaning_tables.specs.Change.{with_cell_at, with_cell, with_values_from};
ghost use Rattle.meaning_tables.specs.Table.{column_at};
ghost use Rattle.frame_store.specs.Parts.{block_column, columns_of, single_block, AreBelow, IsSingle, IsHeld, HaveRows, AreHeld};

use cell_core::{Cell, Cells, Places};
use column_core::Block;

// Puts a cell at a row of a block's one column.
fn put_cell(block: &mut Block, row: usize, cell: Cell)
    requires single { IsSingle block.old }
    requires row { row < length (block_column block.old).cells }
    requires held { IsHeld block.old.kind cell }
    ensures { block.new ≡ single_block (with_cell_at (block_column block.old) row cell) }
{
    block.put(0, row, cell);
}

// Puts a cell at a place and a row.
fn put_value(blocks: &mut Vec<Block>, place: usize, row: usize, cell: Cell)
    requires place { place < vec_len blocks.old }
    requires single { All IsSingle blocks.old.items }
    requires row { row < length (column_at (columns_of blocks.old.items) place).cells }
    requires held { IsHeld (column_at (columns_of blocks.old.items) place).kind cell }
    ensures columns { columns_of blocks.new.items
        ≡ with_cell (columns_of blocks.old.items) place row cell }
    ensures single { All IsSingle blocks.new.items }
    ensures len { vec_len blocks.new ≡ vec_len blocks.old }
{
    put_cell(&mut blocks[place], row, cell);
}

// Puts the values, row by row, into the columns at these places and at these rows.
pub(crate) fn put_values(
    blocks: &mut Vec<Block>,
    count: usize,
    rows: &Places,
    places: &Places,
    values: &Cells,
)
    requires single { All IsSingle blocks.old.items }
    requires filled { HaveRows count (columns_of blocks.old.items) }
    requires rows { AreBelow count rows.now }
    requires places { AreBelow (vec_len blocks.old) places.now }
    requires values { length values.now ≡ length rows.now * length places.now }
    requires held { AreHeld (columns_of blocks.old.items) places.now values.now }
    ensures columns { columns_of blocks.new.items
        ≡ with_values_from 0 (columns_of blocks.old.items) rows.now places.now values.now }
    ensures single { All IsSingle blocks.new.items }
    ensures filled { HaveRows count (columns_of blocks.new.items) }
    ensures len { vec_len blocks.new ≡ vec_len blocks.old }
{
    let width = places.len();
    for k in 0..values.len() {
        put_value(
            blocks,
            *places.at(k % width),
            *rows.at(k / width),
            *values.at(k),
        );
    }
}
