// The operations by name.
ghost use Rattle.std.specs.Prelude.{◌≡◌, IfOk};
ghost use Rattle.column_core.specs.cells.Column.{tabulate};
ghost use Rattle.column_bench.specs.Data.{data_column, place_at};
ghost use Rattle.column_bench.specs.declared.data.Data.TheVariants.{Numbers, Divisors, Truths, OtherTruths};
ghost use Rattle.column_bench.specs.Operation.{name_of, operation_named, work_of};

use crate::data::{Data, places};
use crate::work::Work;
use cell_core::NoMemory;
use column_operators::Operator;
use std::alloc::Global;

/// An operation on columns.
#[derive(Clone, Copy)]
pub enum Operation {
    /// `+` of two columns of whole numbers.
    Add,
    /// `//` of two columns of whole numbers.
    FloorDiv,
    /// `<` of two columns of whole numbers.
    Lt,
    /// `&` of two columns of truth values.
    And,
    /// The sum of a column of whole numbers.
    Sum,
    /// The cumulative sum of a column of whole numbers.
    Cumsum,
    /// A column of whole numbers, moved by one row.
    Shift,
    /// The cells of a column of whole numbers at the places of earlier rows, NA where a place is none.
    Take,
    /// A column of the numbers 0 and 1 as truth values.
    Cast,
}

impl Operation {
    /// All operations.
    pub const ALL: [Operation; 9] = [
        Operation::Add,
        Operation::FloorDiv,
        Operation::Lt,
        Operation::And,
        Operation::Sum,
        Operation::Cumsum,
        Operation::Shift,
        Operation::Take,
        Operation::Cast,
    ];

    /// Its name.
    pub fn name(self) -> &'static str
        ensures { result.now ≡ name_of self }
    {
        match self {
            Operation::Add => "add",
            Operation::FloorDiv => "floor_div",
            Operation::Lt => "lt",
            Operation::And => "and",
            Operation::Sum => "sum",
            Operation::Cumsum => "cumsum",
            Operation::Shift => "shift",
            Operation::Take => "take",
            Operation::Cast => "cast",
        }
    }

    /// The operation of a name.
    pub fn named(word: &str) -> Option<Operation>
        ensures { result ≡ operation_named word.now }
    {
        match word {
            "add" => Some(Operation::Add),
            "floor_div" => Some(Operation::FloorDiv),
            "lt" => Some(Operation::Lt),
            "and" => Some(Operation::And),
            "sum" => Some(Operation::Sum),
            "cumsum" => Some(Operation::Cumsum),
            "shift" => Some(Operation::Shift),
            "take" => Some(Operation::Take),
            "cast" => Some(Operation::Cast),
            _ => None,
        }
    }

    /// The operation with what it is made on, columns of so many rows.
    pub fn work(self, alloc: Global, count: usize) -> Result<Work, NoMemory>
        ensures { IfOk result (λ w. w ≡ work_of self count) }
    {
        match self {
            Operation::Add => on_numbers(alloc, Operator::Add, count),
            Operation::FloorDiv => on_numbers(alloc, Operator::FloorDiv, count),
            Operation::Lt => on_numbers(alloc, Operator::Lt, count),
            Operation::And => on_truths(alloc, count),
            Operation::Sum => Ok(Work::Total(Data::Numbers.column(alloc, count)?)),
            Operation::Cumsum => Ok(Work::Running(Data::Numbers.column(alloc, count)?)),
            Operation::Shift => Ok(Work::Shifted(Data::Numbers.column(alloc, count)?)),
            Operation::Take => on_places(alloc, count),
            Operation::Cast => Ok(Work::Truths(Data::Bits.column(alloc, count)?)),
        }
    }
}

// An operator on two columns of whole numbers.
fn on_numbers(alloc: Global, op: Operator, count: usize) -> Result<Work, NoMemory>
    ensures { IfOk result (λ w. w ≡ Work.Pair op (data_column Numbers count) (data_column Divisors count)) }
{
    let left = Data::Numbers.column(alloc, count)?;
    let right = Data::Divisors.column(alloc, count)?;
    Ok(Work::Pair(op, left, right))
}

// `and` on two columns of truth values.
fn on_truths(alloc: Global, count: usize) -> Result<Work, NoMemory>
    ensures { IfOk result (λ w. w ≡ Work.Pair Operator.And (data_column Truths count) (data_column OtherTruths count)) }
{
    let left = Data::Truths.column(alloc, count)?;
    let right = Data::OtherTruths.column(alloc, count)?;
    Ok(Work::Pair(Operator::And, left, right))
}

// The cells at places.
fn on_places(alloc: Global, count: usize) -> Result<Work, NoMemory>
    ensures { IfOk result (λ w. w ≡ Work.Taken (data_column Numbers count) (tabulate count place_at)) }
{
    let column = Data::Numbers.column(alloc, count)?;
    let places = places(alloc, count)?;
    Ok(Work::Taken(column, places))
}
