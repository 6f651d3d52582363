// Cumulations of columns.
ghost use Rattle.std.specs.Prelude.{◌≡◌, ◌<◌, ℕ, List, length, Option, Some, None, IfOk, if◌then◌else◌};
ghost use Rattle.column_core.specs.cells.Cell.{AreGiven};
ghost use Rattle.column_core.specs.cells.Cumulate.{cumulate_column};
ghost use Rattle.cell_core.specs.declared.cell.Kind.TheVariants.{Int64};
ghost use Rattle.column_core.specs.Columns.{column_value, column_with, number_cell};
ghost use Rattle.column_core.specs.Views.{borrowed_column};
ghost use Rattle.column_core.specs.Rows.{AreWritten};
ghost use Rattle.nullable_array.specs.Folds.{running_row, running_step, one_of_truth, cumulation_of};
ghost use Rattle.nullable_array.specs.Answers.{Answers};

use crate::folds::{Fold, Greatest, Least, next, one_if, sum};
use crate::ops::{ArrayFault, Cumulation};
use crate::orders::ByNumber;
use cell_core::NoMemory;
use column_core::{Borrowed, ColRef, Column, Element, Lane, Owned, Source};
use std::alloc::Global;

/// At each row the sum, the least or the greatest of the present cells up to it; NA stays and is passed over. A sum
/// wraps, and takes True as 1.
///
/// `KindMismatch` comes exactly where the kind isn't Int64, nor boolean for a sum. `NoMemory` may come in place of
/// any answer.
pub fn cumulate(alloc: Global, op: Cumulation, a: ColRef<'_>) -> Result<Column, ArrayFault>
    ensures given { IfOk result (λ c. (texts : List (List ℕ)) → AreGiven texts c.cells) }
    ensures answer { (texts : List (List ℕ)) →
        Answers texts result (cumulate_column (cumulation_of op) (column_value texts a.entry)) }
{
    match &a.lanes {
        Borrowed::Ints(lane) => cumulate_numbers(alloc, op, lane),
        Borrowed::Truths(lane) => cumulate_truths(alloc, op, lane),
        Borrowed::Texts(_) => Err(ArrayFault::KindMismatch),
    }
}

fn cumulate_numbers(alloc: Global, op: Cumulation, a: &Lane<'_, i64>) -> Result<Column, ArrayFault>
    ensures given { IfOk result (λ c. (texts : List (List ℕ)) → AreGiven texts c.cells) }
    ensures answer { (texts : List (List ℕ)) →
        Answers texts result
        (cumulate_column (cumulation_of op)
        (column_value texts (borrowed_column (Borrowed.Ints a.now)))) }
{
    match a.dense() {
        Some(side) => running_numbers(alloc, op, &side),
        None => running_numbers(alloc, op, a),
    }
}

fn running_numbers<A: Source<i64>>(
    alloc: Global,
    op: Cumulation,
    a: &A,
) -> Result<Column, ArrayFault>
    ensures given { IfOk result (λ c. (texts : List (List ℕ)) → AreGiven texts c.cells) }
    ensures answer { (texts : List (List ℕ)) → Answers texts result (cumulate_column (cumulation_of op)
        (column_value texts (column_with Int64 number_cell (A.count_of a.now) (A.row_of a.now)))) }
{
    match op {
        Cumulation::Sum => Ok(run(alloc, &RunningTotal, a)?),
        Cumulation::Min => Ok(run(alloc, &Least { order: ByNumber }, a)?),
        Cumulation::Max => Ok(run(alloc, &Greatest { order: ByNumber }, a)?),
    }
}

fn cumulate_truths(alloc: Global, op: Cumulation, a: &Lane<'_, bool>) -> Result<Column, ArrayFault>
    ensures given { IfOk result (λ c. (texts : List (List ℕ)) → AreGiven texts c.cells) }
    ensures answer { (texts : List (List ℕ)) →
        Answers texts result
        (cumulate_column (cumulation_of op)
        (column_value texts (borrowed_column (Borrowed.Truths a.now)))) }
{
    match op {
        Cumulation::Sum => Ok(run(alloc, &RunningTotal, a)?),
        Cumulation::Min | Cumulation::Max => Err(ArrayFault::KindMismatch),
    }
}

/// The sum so far, which wraps.
#[derive(Drop)]
struct RunningTotal;

impl Fold<i64, Option<i64>> for RunningTotal {
    ghost step_of = { λ _. running_step };

    #[inline(always)]
    fn step(&self, so_far: Option<i64>, x: i64) -> Option<i64>
        ensures { result ≡ running_step so_far x }
    {
        Some(sum(so_far.unwrap_or(0), x))
    }
}

impl Fold<bool, Option<i64>> for RunningTotal {
    ghost step_of = { λ _ s x. running_step s (one_of_truth x) };

    #[inline(always)]
    fn step(&self, so_far: Option<i64>, x: bool) -> Option<i64>
        ensures { result ≡ running_step so_far (one_of_truth x) }
    {
        Some(sum(so_far.unwrap_or(0), one_if(x)))
    }
}

// At each row what the rows up to it come to. Room for all rows is taken first, so that a row is a write.
fn running_rows<T, U: Copy + Drop, F: Fold<T, Option<U>>, A: Source<T>>(
    alloc: Global,
    fold: &F,
    blank: U,
    a: &A,
) -> Result<Owned<U>, NoMemory>
    ensures count { IfOk result (λ made. length made.values.items ≡ A.count_of a.now) }
    ensures rows { IfOk result (λ made. AreWritten
        (λ k. Some (running_row (F.step_of fold.now) (A.row_of a.now) k))
        (A.count_of a.now) made.values.items made.present.items) }
{
    let mut values = Vec::with_capacity(alloc, a.count())?;
    let mut present = Vec::with_capacity(alloc, a.count())?;
    let mut so_far = None;
    for row in 0..a.count() {
        let x = a.get(row);
        let is_present = x.is_some();
        so_far = next(fold, so_far, x);
        let value = kept(is_present, so_far);
        present.push_reserved(value.is_some());
        values.push_reserved(value.unwrap_or(blank));
    }
    Ok(Owned { values, present })
}

#[inline(always)]
fn kept<U: Copy>(is_present: bool, so_far: Option<U>) -> Option<U>
    ensures { result ≡ (if is_present then so_far else None) }
{
    if is_present { so_far } else { None }
}

// The same as a column.
fn run<T, U: Element, F: Fold<T, Option<U>>, A: Source<T>>(
    alloc: Global,
    fold: &F,
    a: &A,
) -> Result<Column, NoMemory>
    ensures { IfOk result (λ c. c
        ≡ column_with U.kind U.cell (A.count_of a.now)
        (running_row (F.step_of fold.now) (A.row_of a.now))) }
{
    let rows = running_rows(alloc, fold, U::blank(), a)?;
    Ok(U::column(rows))
}
