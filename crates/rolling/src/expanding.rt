// What runs up to each row.
ghost use Rattle.std.specs.Prelude.{◌≡◌, ◌++◌, ◌∷◌, [], true, ℕ, List, map};
ghost use Rattle.cell_core.specs.declared.cell.Cell.{Cell as OneCell};
ghost use Rattle.cell_core.specs.declared.cell.Kind.TheVariants.{Int64};
ghost use Rattle.column_core.specs.cells.Cell.{datum, holds};
ghost use Rattle.meaning_window.specs.Window.{window_answer};
ghost use Rattle.nullable_array.specs.Folds.{cumulation_of};
ghost use Rattle.rolling.specs.Answers.{start_of, step_of};
ghost use Rattle.rolling.specs.Expandings.{HasSettings, HasPushed, with_row, answer_so_far};

use crate::running::sum;
use cell_core::Cell;
use column_core::{cell_of_number, number_in};
use nullable_array::Cumulation;
use std::marker::Model;

/// What runs up to each row: a window over all cells pushed, which none leaves. Contracts see how many present cells
/// an answer takes, what it makes of them, and which cells were pushed.
#[derive(Drop)]
pub struct Expanding {
    min_periods: usize,
    op: Cumulation,
    // How many cells were present, up to `min_periods`.
    present: usize,
    // What these come to.
    so_far: Option<i64>,
}

impl Model for Expanding {
    ghost use Rattle.rolling.specs.Expandings.{ExpandingValue};

    ghost Value = { ExpandingValue };

    ghost view = { λ e. record {
      min_periods = e.min_periods;
      op = e.op;
      present = e.present;
      so_far = e.so_far;
    } };
}

impl Expanding {
    /// Onto which no cell was pushed. It answers with the sum, the least or the greatest of the present cells where
    /// there are `min_periods` of them. Takes no memory.
    pub fn new(min_periods: usize, op: Cumulation) -> Expanding
        ensures settings { HasSettings min_periods op result }
        ensures pushed { HasPushed result [] }
    {
        Expanding {
            min_periods,
            op,
            present: 0,
            so_far: start(op),
        }
    }

    /// Pushes a cell, and answers for all cells pushed: NA where fewer than `min_periods` of them are present, else
    /// their sum, which wraps at 64 bits and is 0 for none, or the least or the greatest of them, which is NA for
    /// none. Takes no memory.
    pub fn push(&mut self, cell: Cell) -> Cell
        requires { (texts : List (List ℕ)) → holds Int64 (datum texts cell) ≡ true }
        ensures settings { HasSettings self.old.min_periods self.old.op self.new }
        ensures pushed { (pushed : List OneCell) →
            HasPushed self.old pushed → HasPushed self.new (pushed ++ cell ∷ []) }
        ensures held { (texts : List (List ℕ)) → holds Int64 (datum texts result) ≡ true }
        ensures answer { (texts : List (List ℕ)) (pushed : List OneCell) →
            HasPushed self.old pushed → datum texts result
            ≡ window_answer self.old.min_periods (cumulation_of self.old.op)
            (map (datum texts) (pushed ++ cell ∷ [])) }
    {
        cell_of_number(self.gather(number_in(cell)))
    }

    // The same of a number, or none.
    #[inline(always)]
    pub(crate) fn gather(&mut self, value: Option<i64>) -> Option<i64>
        ensures taken { self.new ≡ with_row self.old value }
        ensures answer { result ≡ answer_so_far (with_row self.old value) }
    {
        if let Some(x) = value {
            if self.present < self.min_periods {
                self.present += 1;
            }
            self.so_far = step(self.op, self.so_far, x);
        }
        if self.present < self.min_periods {
            None
        } else {
            self.so_far
        }
    }
}

// What no values come to.
fn start(op: Cumulation) -> Option<i64>
    ensures { result ≡ start_of op }
{
    match op {
        Cumulation::Sum => Some(0),
        Cumulation::Min | Cumulation::Max => None,
    }
}

// What the values so far come to with one more.
#[inline(always)]
fn step(op: Cumulation, so_far: Option<i64>, x: i64) -> Option<i64>
    ensures { result ≡ step_of op so_far x }
{
    match op {
        Cumulation::Sum => Some(sum(so_far.unwrap_or(0), x)),
        Cumulation::Min => Some(so_far.map_or(x, |least| least.min(x))),
        Cumulation::Max => Some(so_far.map_or(x, |greatest| greatest.max(x))),
    }
}
