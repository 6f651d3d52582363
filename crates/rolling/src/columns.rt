// Columns of the answers of windows.
ghost use Rattle.std.specs.Prelude.{◌≡◌, ◌<◌, ◌≤◌, ◌+◌, ◌++◌, ◌∷◌, [], ℕ, ℤ, List, length, Option, Some, IfOk};
ghost use Rattle.cell_core.specs.declared.cell.Kind.TheVariants.{Int64};
ghost use Rattle.column_core.specs.cells.Cell.{AreGiven};
ghost use Rattle.column_core.specs.cells.Column.{tabulate};
ghost use Rattle.meaning_window.specs.Window.{rolled_column, expanded_column};
ghost use Rattle.column_core.specs.Columns.{column_value, column_with, number_cell};
ghost use Rattle.column_core.specs.Rows.{AreWritten};
ghost use Rattle.column_core.specs.Views.{borrowed_column};
ghost use Rattle.nullable_array.specs.Answers.{Answers};
ghost use Rattle.nullable_array.specs.Folds.{cumulation_of};

use crate::expanding::Expanding;
use crate::window::Window;
use cell_core::NoMemory;
use column_core::{Borrowed, ColRef, Column, Element, Lane, Owned, Source};
use nullable_array::{ArrayFault, Cumulation};
use std::alloc::Global;

/// What answers for each row in turn.
trait Answering {
    ghost has_taken: { Self → List (Option ℤ) → Type 0 };

    ghost answer_of: { Self → List (Option ℤ) → Option ℤ };

    /// Takes the value of a row, or none, and answers for the rows up to it.
    fn answer(&mut self, value: Option<i64>) -> Option<i64>
        ensures taken { (rows : List (Option ℤ)) →
            has_taken self.old rows → has_taken self.new (rows ++ value ∷ []) }
        ensures answer { (rows : List (Option ℤ)) →
            has_taken self.old rows → result ≡ answer_of self.old (rows ++ value ∷ []) }
        ensures same { (rows : List (Option ℤ)) →
            answer_of self.new rows ≡ answer_of self.old rows };
}

impl Answering for Window {
    ghost use Rattle.rolling.specs.Windows.{HasRows, answer_of_rows};

    ghost has_taken = { HasRows };

    ghost answer_of = { answer_of_rows };

    #[inline(always)]
    fn answer(&mut self, value: Option<i64>) -> Option<i64> {
        self.slide(value)
    }
}

impl Answering for Expanding {
    ghost use Rattle.rolling.specs.Expandings.{HasTaken, answer_of_rows};

    ghost has_taken = { HasTaken };

    ghost answer_of = { answer_of_rows };

    #[inline(always)]
    fn answer(&mut self, value: Option<i64>) -> Option<i64> {
        self.gather(value)
    }
}

// The answers for each row. Room for all rows is taken first, so that a row is a write.
fn answered_rows<W: Answering, A: Source<i64>>(
    alloc: Global,
    window: &mut W,
    a: &A,
) -> Result<Owned<i64>, NoMemory>
    requires { W.has_taken window.old [] }
    ensures count { IfOk result (λ made. length made.values.items ≡ A.count_of a.now) }
    ensures rows { IfOk result (λ made. AreWritten
        (λ k. Some (W.answer_of window.old (tabulate (k + 1) (A.row_of a.now))))
        (A.count_of a.now) made.values.items made.present.items) }
{
    let mut values = Vec::with_capacity(alloc, a.count())?;
    let mut present = Vec::with_capacity(alloc, a.count())?;
    for row in 0..a.count() {
        let value = window.answer(a.get(row));
        present.push_reserved(value.is_some());
        values.push_reserved(value.unwrap_or(0));
    }
    Ok(Owned { values, present })
}

// The same as a column.
fn answered<W: Answering, A: Source<i64>>(
    alloc: Global,
    window: &mut W,
    a: &A,
) -> Result<Column, NoMemory>
    requires { W.has_taken window.old [] }
    ensures { IfOk result (λ c. c ≡ column_with Int64 number_cell (A.count_of a.now)
        (λ k. W.answer_of window.old (tabulate (k + 1) (A.row_of a.now)))) }
{
    let rows = answered_rows(alloc, window, a)?;
    Ok(i64::column(rows))
}

/// For each row the answer of the window of the last `n` rows up to it, at least one: NA where fewer than `min_periods`
/// of its cells are present, else their sum, which wraps at 64 bits and is 0 for none, or the least or the greatest of
/// them, which is NA for none. A window that is longer than the column takes no more memory than one of all rows, and
/// answers as [`expand`] does.
///
/// `KindMismatch` comes exactly where the kind isn't Int64. `NoMemory` may come in place of any answer.
pub fn roll(
    alloc: Global,
    n: usize,
    min_periods: usize,
    op: Cumulation,
    a: ColRef<'_>,
) -> Result<Column, ArrayFault>
    requires { 0 < n }
    ensures given { IfOk result (λ c. (texts : List (List ℕ)) → AreGiven texts c.cells) }
    ensures answer { (texts : List (List ℕ)) → Answers texts result
        (rolled_column n min_periods (cumulation_of op) (column_value texts a.entry)) }
    ensures longer { (texts : List (List ℕ)) → length a.entry.cells ≤ n → Answers texts result
        (expanded_column min_periods (cumulation_of op) (column_value texts a.entry)) }
{
    match &a.lanes {
        Borrowed::Ints(lane) => Ok(roll_numbers(alloc, n, min_periods, op, lane)?),
        Borrowed::Truths(_) | Borrowed::Texts(_) => Err(ArrayFault::KindMismatch),
    }
}

fn roll_numbers(
    alloc: Global,
    n: usize,
    min_periods: usize,
    op: Cumulation,
    a: &Lane<'_, i64>,
) -> Result<Column, NoMemory>
    requires { 0 < n }
    ensures given { IfOk result (λ c. (texts : List (List ℕ)) → AreGiven texts c.cells) }
    ensures answer { IfOk result (λ c. (texts : List (List ℕ)) →
        rolled_column n min_periods (cumulation_of op)
        (column_value texts (borrowed_column (Borrowed.Ints a.now)))
        ≡ Ok (column_value texts c)) }
{
    let size = n.min(a.count.max(1));
    let mut window = Window::with_size(alloc, size, min_periods, op)?;
    answered(alloc, &mut window, a)
}

/// For each row the answer for all rows up to it: NA where fewer than `min_periods` of their cells are present, else
/// their sum, which wraps at 64 bits and is 0 for none, or the least or the greatest of them, which is NA for none.
///
/// `KindMismatch` comes exactly where the kind isn't Int64. `NoMemory` may come in place of any answer.
pub fn expand(
    alloc: Global,
    min_periods: usize,
    op: Cumulation,
    a: ColRef<'_>,
) -> Result<Column, ArrayFault>
    ensures given { IfOk result (λ c. (texts : List (List ℕ)) → AreGiven texts c.cells) }
    ensures answer { (texts : List (List ℕ)) → Answers texts result
        (expanded_column min_periods (cumulation_of op) (column_value texts a.entry)) }
{
    match &a.lanes {
        Borrowed::Ints(lane) => Ok(answered(alloc, &mut Expanding::new(min_periods, op), lane)?),
        Borrowed::Truths(_) | Borrowed::Texts(_) => Err(ArrayFault::KindMismatch),
    }
}
