// Columns that are made one by one.
ghost use Rattle.std.specs.Prelude.{◌≡◌, ◌<◌, List, [], map, length, All, Result, IfOk};
ghost use Rattle.cell_core.specs.declared.cell.Cell.{Cell};
ghost use Rattle.column_core.specs.cells.Cell.{CellValue, AreGiven, IsLonger};
ghost use Rattle.column_core.specs.cells.Fault.{FaultValue};
ghost use Rattle.frame_store.specs.tables.Table.{ColumnOf, table_value};
ghost use Rattle.frame_store.specs.tables.Valid.{IsWhole};
ghost use Rattle.frame_store.specs.tables.Settled.{IsSettled};
ghost use Rattle.frame_parts.specs.form.Finish.{try_all};
ghost use Rattle.frame_store.specs.Parts.{block_column, IsSingle, HaveRows};
ghost use Rattle.frame_store.specs.Shown.{cells_value, columns_value};
ghost use Rattle.frame_methods.specs.Columns.{EachGiven, MakesColumn, MakesColumns};
ghost use Rattle.frame_parts.specs.Makes.{column_seen};

use cell_core::{Grid, TextDict};
use column_core::{ColRef, Column};
use frame_store::{Blocks, ObjRef};
use nullable_array::ArrayFault;
use std::alloc::Global;

/// What an operation makes of a column, or its refusal, which is one of a kernel's.
pub type MadeColumn = Result<Column, ArrayFault>;

/// A column that is made of a column with as many cells.
pub trait ColumnOp {
    // The cells that it holds.
    ghost held: { Self → List Cell } = { λ _. [] };

    // What it makes of a column, by these cells with their texts.
    ghost answer: { Self → List CellValue
        → ColumnOf CellValue → Result (ColumnOf CellValue) FaultValue };

    /// What the operation makes of a column. `NoMemory` may come in place of any answer.
    fn column(&self, alloc: Global, dict: &mut TextDict, a: ColRef<'_>) -> MadeColumn
        requires own { EachGiven dict.old (held self.now) }
        requires cells { AreGiven dict.old a.cells }
        ensures longer { IsLonger dict.old dict.new }
        ensures given { IfOk result (λ c. AreGiven dict.new c.cells) }
        ensures rows { IfOk result (λ c. length c.cells ≡ length a.entry.cells) }
        ensures answer { MakesColumn dict.new result
            (answer self.now (cells_value dict.old (held self.now)) (column_seen dict.old a.entry)) };
}

// What is made of each column of a table, each in a block of its own, or the first fault.
#[tactic(auto, using(crate::proofs::HeldLaws::each_later))]
pub(crate) fn each_column<O: ColumnOp>(
    alloc: Global,
    dict: &mut TextDict,
    op: &O,
    on: &ObjRef<'_>,
) -> Result<Blocks, ArrayFault>
    requires own { EachGiven dict.old (O.held op.now) }
    requires whole { IsWhole on.now }
    requires settled { IsSettled table_value dict.old on.now }
    ensures longer { IsLonger dict.old dict.new }
    ensures given { IfOk result (λ made.
        All (λ c. AreGiven dict.new c.cells) (map block_column made)) }
    ensures single { IfOk result (λ made. All IsSingle made) }
    ensures rows { IfOk result (λ made. HaveRows (length on.now.labels) (map block_column made)) }
    ensures count { IfOk result (λ made. length made ≡ length on.now.columns) }
    ensures answer { MakesColumns dict.new result
        (try_all (O.answer op.now (cells_value dict.old (O.held op.now)))
        (columns_value dict.old on.now.columns)) }
{
    let mut made = Blocks::new(alloc);
    for place in 0..on.columns() {
        let column = op.column(alloc, dict, on.column(place))?;
        made.push(column.into_block())?;
    }
    Ok(made)
}
