// Reductions of columns.
ghost use Rattle.std.specs.Prelude.{◌≡◌, true, ◌<◌, ℕ, List, IfOk};
ghost use Rattle.cell_core.specs.declared.cell.Kind.TheVariants.{Int64, Boolean, Text as string};
ghost use Rattle.column_core.specs.cells.Cell.{datum, holds, AreGiven, IsGiven};
ghost use Rattle.column_core.specs.cells.Reduce.{reduction_cell, reduce_column};
ghost use Rattle.column_core.specs.Columns.{column_value, column_with, number_cell, truth_cell};
ghost use Rattle.column_core.specs.Views.{borrowed_column};
ghost use Rattle.nullable_array.specs.Folds.{reduction_of, reduced_kind};
ghost use Rattle.nullable_array.specs.Answers.{AnswersCell};

use crate::extremes::{greatest_number, least_number};
use crate::folds::{AllTrue, AnyTrue, Greatest, HowMany, Least, Total, fold_rows, fold_until};
use crate::ops::{ArrayFault, Reduction};
use crate::orders::{ByNumber, ByText, ByTruth};
use crate::pairs::Side;
use cell_core::{Cell, TextDict, TextId};
use column_core::{Borrowed, ColRef, Lane, Source, cell_of_number, cell_of_text, cell_of_truth};

/// What a reduction makes of the present cells: a sum or a count wraps and is 0 where there is none, `any` is then
/// False and `all` True, and a least or greatest cell is NA.
///
/// `KindMismatch` comes exactly where the reduction doesn't take the kind: a text has no sum and is neither true nor
/// false. Takes no memory.
pub fn reduce(dict: &TextDict, op: Reduction, a: ColRef<'_>) -> Result<Cell, ArrayFault>
    requires { AreGiven dict.now a.cells }
    ensures given { IfOk result (IsGiven dict.now) }
    ensures held { IfOk result (λ c. (texts : List (List ℕ)) →
        holds (reduced_kind op a.entry.kind) (datum texts c) ≡ true) }
    ensures answer { AnswersCell dict.now result
        (reduce_column (reduction_of op) (column_value dict.now a.entry)) }
{
    match &a.lanes {
        Borrowed::Ints(lane) => Ok(reduce_numbers(op, lane)),
        Borrowed::Truths(lane) => Ok(reduce_truths(op, lane)),
        Borrowed::Texts(lane) => reduce_texts(dict, op, lane),
    }
}

fn reduce_numbers(op: Reduction, a: &Lane<'_, i64>) -> Cell
    ensures given { (texts : List (List ℕ)) → IsGiven texts result }
    ensures held { (texts : List (List ℕ)) →
        holds (reduced_kind op Int64) (datum texts result) ≡ true }
    ensures value { (texts : List (List ℕ)) →
        datum texts result
        ≡ reduction_cell (reduction_of op)
        (column_value texts (borrowed_column (Borrowed.Ints a.now))).cells }
{
    match a.dense() {
        Some(side) => reduced_side(op, &side),
        None => reduced_numbers(op, a),
    }
}

// The same of numbers that lie side by side.
fn reduced_side<A: Side<i64>>(op: Reduction, a: &A) -> Cell
    ensures given { (texts : List (List ℕ)) → IsGiven texts result }
    ensures held { (texts : List (List ℕ)) →
        holds (reduced_kind op Int64) (datum texts result) ≡ true }
    ensures value { (texts : List (List ℕ)) →
        datum texts result
        ≡ reduction_cell (reduction_of op)
        (column_value texts
        (column_with Int64 number_cell (A.count_of a.now) (A.row_of a.now))).cells }
{
    match op {
        Reduction::Min => cell_of_number(least_number(a)),
        Reduction::Max => cell_of_number(greatest_number(a)),
        _ => reduced_numbers(op, a),
    }
}

fn reduce_truths(op: Reduction, a: &Lane<'_, bool>) -> Cell
    ensures given { (texts : List (List ℕ)) → IsGiven texts result }
    ensures held { (texts : List (List ℕ)) →
        holds (reduced_kind op Boolean) (datum texts result) ≡ true }
    ensures value { (texts : List (List ℕ)) →
        datum texts result
        ≡ reduction_cell (reduction_of op)
        (column_value texts (borrowed_column (Borrowed.Truths a.now))).cells }
{
    match a.dense() {
        Some(side) => reduced_truths(op, &side),
        None => reduced_truths(op, a),
    }
}

fn reduced_numbers<A: Source<i64>>(op: Reduction, a: &A) -> Cell
    ensures given { (texts : List (List ℕ)) → IsGiven texts result }
    ensures held { (texts : List (List ℕ)) →
        holds (reduced_kind op Int64) (datum texts result) ≡ true }
    ensures value { (texts : List (List ℕ)) →
        datum texts result
        ≡ reduction_cell (reduction_of op)
        (column_value texts
        (column_with Int64 number_cell (A.count_of a.now) (A.row_of a.now))).cells }
{
    match op {
        Reduction::Sum => cell_of_number(Some(fold_rows(&Total, 0, a))),
        Reduction::Min => cell_of_number(fold_rows(&Least { order: ByNumber }, None, a)),
        Reduction::Max => cell_of_number(fold_rows(&Greatest { order: ByNumber }, None, a)),
        Reduction::Any => Cell::Bool(fold_until(&AnyTrue, false, a)),
        Reduction::All => Cell::Bool(fold_until(&AllTrue, true, a)),
        Reduction::Count => cell_of_number(Some(fold_rows(&HowMany, 0, a))),
    }
}

fn reduced_truths<A: Source<bool>>(op: Reduction, a: &A) -> Cell
    ensures given { (texts : List (List ℕ)) → IsGiven texts result }
    ensures held { (texts : List (List ℕ)) →
        holds (reduced_kind op Boolean) (datum texts result) ≡ true }
    ensures value { (texts : List (List ℕ)) →
        datum texts result
        ≡ reduction_cell (reduction_of op)
        (column_value texts
        (column_with Boolean truth_cell (A.count_of a.now) (A.row_of a.now))).cells }
{
    match op {
        Reduction::Sum => cell_of_number(Some(fold_rows(&Total, 0, a))),
        Reduction::Min => cell_of_truth(fold_rows(&Least { order: ByTruth }, None, a)),
        Reduction::Max => cell_of_truth(fold_rows(&Greatest { order: ByTruth }, None, a)),
        Reduction::Any => Cell::Bool(fold_until(&AnyTrue, false, a)),
        Reduction::All => Cell::Bool(fold_until(&AllTrue, true, a)),
        Reduction::Count => cell_of_number(Some(fold_rows(&HowMany, 0, a))),
    }
}

fn reduce_texts(dict: &TextDict, op: Reduction, a: &Lane<'_, TextId>) -> Result<Cell, ArrayFault>
    requires { AreGiven dict.now (borrowed_column (Borrowed.Texts a.now)).cells }
    ensures given { IfOk result (IsGiven dict.now) }
    ensures held { IfOk result (λ c. (texts : List (List ℕ)) →
        holds (reduced_kind op string) (datum texts c) ≡ true) }
    ensures answer { AnswersCell dict.now result
        (reduce_column (reduction_of op)
        (column_value dict.now (borrowed_column (Borrowed.Texts a.now)))) }
{
    match op {
        Reduction::Min => Ok(cell_of_text(fold_rows(
            &Least {
                order: ByText { dict },
            },
            None,
            a,
        ))),
        Reduction::Max => Ok(cell_of_text(fold_rows(
            &Greatest {
                order: ByText { dict },
            },
            None,
            a,
        ))),
        Reduction::Count => Ok(cell_of_number(Some(fold_rows(&HowMany, 0, a)))),
        Reduction::Sum | Reduction::Any | Reduction::All => Err(ArrayFault::KindMismatch),
    }
}
