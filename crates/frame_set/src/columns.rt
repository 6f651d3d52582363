// Columns of one scalar, and of missing cells.
ghost use Rattle.std.specs.Prelude.{◌≡◌, List, map, replicate, All, IfOk};
ghost use Rattle.column_core.specs.cells.Text.{Text as OneText};
ghost use Rattle.column_core.specs.cells.Cell.{datum};
ghost use Rattle.frame_select.specs.select.Set as meant;
ghost use Rattle.frame_parts.specs.Makes.{column_seen};
ghost use Rattle.frame_store.specs.Parts.{block_column, IsSingle};
ghost use Rattle.frame_set.specs.Assigned.{missing_cells};

use cell_core::{Cell, Grid, Kind, NoMemory};
use column_core::{Block, Column};
use frame_parts::present_kind;
use frame_store::{Blocks, ObjRef};
use std::alloc::Global;

// A scalar in so many rows.
pub(crate) fn scalar_column(alloc: Global, cell: Cell, rows: usize) -> Result<Column, NoMemory>
    ensures seen { IfOk result (λ c. (texts : List OneText) → column_seen texts c
        ≡ meant.scalar_column rows (datum texts cell)) }
    ensures cells { IfOk result (λ c. c.cells ≡ replicate rows cell) }
{
    let kind = present_kind(cell).unwrap_or(Kind::Int64);
    Column::repeat(alloc, kind, cell, rows)
}

// Columns of the same kinds with so many missing cells.
pub(crate) fn missing_columns(
    alloc: Global,
    on: &ObjRef<'_>,
    rows: usize,
) -> Result<Blocks, NoMemory>
    ensures columns { IfOk result (λ made. map block_column made
        ≡ map (missing_cells rows) on.now.columns) }
    ensures single { IfOk result (λ made. All IsSingle made) }
{
    let mut made = Blocks::new(alloc);
    for place in 0..on.columns() {
        made.push(Block::new(alloc, on.kind(place), 1, rows)?)?;
    }
    Ok(made)
}
