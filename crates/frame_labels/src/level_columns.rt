// Levels of the rows as columns.
ghost use Rattle.std.specs.Prelude.{◌≡◌, ◌<◌, List, length, All, IfOk};
ghost use Rattle.column_core.specs.cells.Text.{Text as OneText};
ghost use Rattle.frame_parts.specs.Makes.{MakesBy, blocks_value, column_seen};
ghost use Rattle.frame_store.specs.Parts.{IsSingle};
ghost use Rattle.frame_labels.specs.LevelColumns as levels;

use cell_core::{Cell, Label};
use column_core::Column;
use frame_parts::{CellList, list_column};
use frame_store::{Blocks, OpFault};
use multi_index::Axis;
use std::alloc::Global;

/// The cell that a label is. Takes no memory.
pub fn cell_of(label: Label) -> Cell
    ensures { result ≡ levels.cell_of label }
{
    match label {
        Label::Na => Cell::Na,
        Label::Int(number) => Cell::Int(number),
        Label::Bool(truth) => Cell::Bool(truth),
        Label::Text(id) => Cell::Text(id),
    }
}

// The labels of a level, as cells.
#[derive(Drop)]
struct LevelCells<'a> {
    axis: &'a Axis,
    level: usize,
    ghost there: { level < length axis.now.names },
}

impl CellList for LevelCells<'_> {
    ghost use Rattle.frame_labels.specs.LevelColumns.{level_cells};

    ghost cells = { λ l. level_cells l.axis.now l.level };

    fn count(&self) -> usize {
        self.axis.len()
    }

    fn cell(&self, place: usize) -> Cell {
        cell_of(self.axis.label(place, self.level))
    }
}

// The labels of a level as a column, which must be of one kind.
fn level_column(alloc: Global, axis: &Axis, level: usize) -> Result<Column, OpFault>
    requires { level < length axis.now.names }
    ensures { (texts : List OneText) → MakesBy column_seen texts result
        (levels.level_column texts axis.now level) }
{
    list_column(alloc, &LevelCells { axis, level })
}

// The levels as columns, each in a block of its own.
#[tactic(auto, using(crate::proofs::LevelColumnLaws::levels_end))]
pub(crate) fn level_columns(alloc: Global, axis: &Axis) -> Result<Blocks, OpFault>
    ensures single { IfOk result (All IsSingle) }
    ensures columns { (texts : List OneText) → MakesBy blocks_value texts result
        (levels.level_columns texts axis.now) }
{
    let mut blocks = Blocks::new(alloc);
    for level in 0..axis.levels() {
        let column = level_column(alloc, axis, level)?;
        blocks.push(column.into_block())?;
    }
    Ok(blocks)
}
