// Operations with what they are made on.
ghost use Rattle.std.specs.Prelude.{◌≡◌, ℕ, List, All, length, Result};
ghost use Rattle.column_core.specs.cells.Cell.{CellValue};
ghost use Rattle.column_core.specs.cells.Column.{ColumnValue, ColumnFault};
ghost use Rattle.nullable_array.specs.Answers.{Answers, AnswersCell};
ghost use Rattle.column_core.specs.Moves.{IsPlaceOf};
ghost use Rattle.column_bench.specs.Work.{NeedNoTexts, ArePaired, IsReady, whole_of, one_of, work_value, IsAnswer};

use cell_core::{Cell, Gaps, Kind, TextDict};
use column_core::{Column, shift, take};
use column_operators::{Operator, binary};
use nullable_array::{ArrayFault, Cumulation, Reduction, cast, cumulate, reduce};
use std::alloc::Global;

/// An operation with the columns that it is made on.
#[derive(Drop)]
pub enum Work {
    /// An operator on two columns of one length.
    Pair(Operator, Column, Column),
    /// The sum of the cells.
    Total(Column),
    /// At each row the sum of the cells up to it.
    Running(Column),
    /// Each cell one row on.
    Shifted(Column),
    /// The cells at places.
    Taken(Column, Gaps),
    /// The cells as truth values.
    Truths(Column),
}

/// What an operation answers.
#[derive(Drop)]
pub enum Answer {
    /// A column.
    Whole(Column),
    /// One cell.
    One(Cell),
}

impl Work {
    /// What the operation answers. `NoMemory` may come in place of any answer.
    pub fn run(&self, alloc: Global, dict: &mut TextDict) -> Result<Answer, ArrayFault>
        requires { IsReady self.now }
        ensures { IsAnswer dict.new result (work_value dict.old self.now) }
    {
        match self {
            Work::Pair(op, a, b) => operated(alloc, dict, *op, a, b),
            Work::Total(a) => total(dict, a),
            Work::Running(a) => running(alloc, a),
            Work::Shifted(a) => shifted(alloc, a),
            Work::Taken(a, places) => taken(alloc, a, places),
            Work::Truths(a) => truths(alloc, dict, a),
        }
    }
}

fn operated(
    alloc: Global,
    dict: &mut TextDict,
    op: Operator,
    a: &Column,
    b: &Column,
) -> Result<Answer, ArrayFault>
    requires { ArePaired a.now.cells b.now.cells }
    ensures { IsAnswer dict.new result (work_value dict.old (Work.Pair op a.now b.now)) }
{
    whole(binary(alloc, dict, op, a.as_ref(), b.as_ref()))
}

fn total(dict: &TextDict, a: &Column) -> Result<Answer, ArrayFault>
    requires { NeedNoTexts a.now.cells }
    ensures { IsAnswer dict.now result (work_value dict.now (Work.Total a.now)) }
{
    one(reduce(dict, Reduction::Sum, a.as_ref()))
}

fn running(alloc: Global, a: &Column) -> Result<Answer, ArrayFault>
    ensures { (texts : List (List ℕ)) → IsAnswer texts result (work_value texts (Work.Running a.now)) }
{
    whole(cumulate(alloc, Cumulation::Sum, a.as_ref()))
}

fn shifted(alloc: Global, a: &Column) -> Result<Answer, ArrayFault>
    ensures { (texts : List (List ℕ)) → IsAnswer texts result (work_value texts (Work.Shifted a.now)) }
{
    Ok(Answer::Whole(shift(alloc, a.as_ref(), 1)?))
}

fn taken(alloc: Global, a: &Column, places: &Gaps) -> Result<Answer, ArrayFault>
    requires { All (IsPlaceOf (length a.now.cells)) places.now }
    ensures { (texts : List (List ℕ)) → IsAnswer texts result (work_value texts (Work.Taken a.now places.now)) }
{
    Ok(Answer::Whole(take(alloc, a.as_ref(), places)?))
}

fn truths(alloc: Global, dict: &mut TextDict, a: &Column) -> Result<Answer, ArrayFault>
    requires { NeedNoTexts a.now.cells }
    ensures { IsAnswer dict.new result (work_value dict.old (Work.Truths a.now)) }
{
    whole(cast(alloc, dict, a.as_ref(), Kind::Boolean))
}

// A column as the answer.
fn whole(made: Result<Column, ArrayFault>) -> Result<Answer, ArrayFault>
    ensures { (texts : List (List ℕ)) (value : Result ColumnValue ColumnFault) → Answers texts made value → IsAnswer texts result (whole_of value) }
{
    match made {
        Ok(column) => Ok(Answer::Whole(column)),
        Err(fault) => Err(fault),
    }
}

// A cell as the answer.
fn one(made: Result<Cell, ArrayFault>) -> Result<Answer, ArrayFault>
    ensures { (texts : List (List ℕ)) (value : Result CellValue ColumnFault) → AnswersCell texts made value → IsAnswer texts result (one_of value) }
{
    match made {
        Ok(cell) => Ok(Answer::One(cell)),
        Err(fault) => Err(fault),
    }
}
