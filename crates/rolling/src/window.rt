// A window over the last cells pushed.
ghost use Rattle.std.specs.Prelude.{◌≡◌, ◌<◌, ◌++◌, ◌∷◌, [], true, ℕ, List, map, length, drop, IfOk};
ghost use Rattle.cell_core.specs.declared.cell.Cell.{Cell as OneCell};
ghost use Rattle.cell_core.specs.declared.cell.Kind.TheVariants.{Int64};
ghost use Rattle.column_core.specs.cells.Cell.{datum, holds};
ghost use Rattle.nullable_array.specs.Distincts.{present_values};
ghost use Rattle.rolling.specs.Answers.{answer_of};
ghost use Rattle.rolling.specs.Windows.{HasSettings, HasPushed, answer_at, slid};

use crate::running::Running;
use cell_core::{Cell, NoMemory};
use column_core::{cell_of_number, number_in};
use nullable_array::Cumulation;
use std::alloc::Global;
use std::collections::VecDeque;
use std::marker::Model;

/// A window over the last cells pushed, so many at most. Contracts see its size, how many present cells an answer
/// takes, what it makes of them, and which cells were pushed.
#[derive(Drop)]
pub struct Window {
    size: usize,
    min_periods: usize,
    op: Cumulation,
    // The last cells pushed.
    recent: VecDeque<Option<i64>>,
    // How many of them are present.
    present: usize,
    // What these come to.
    running: Running,
}

impl Model for Window {
    ghost use Rattle.std.specs.VecDeque.{deque_capacity};
    ghost use Rattle.rolling.specs.Windows.{WindowValue, IsWindow};

    ghost Value = { WindowValue };

    ghost view = { λ w. record {
      size = w.size;
      min_periods = w.min_periods;
      op = w.op;
      recent = w.recent.items;
    } };

    ghost invariant = { λ w. IsWindow w.size (deque_capacity w.recent) w.op w.recent.items w.present w.running };
}

impl Window {
    /// A window of `n` cells, at least one, onto which none was pushed. It answers with the sum, the least or the
    /// greatest of its present cells where there are `min_periods` of them. Takes all memory that it needs;
    /// `NoMemory` may come in place of it.
    pub fn with_size(
        alloc: Global,
        n: usize,
        min_periods: usize,
        op: Cumulation,
    ) -> Result<Window, NoMemory>
        requires { 0 < n }
        ensures settings { IfOk result (HasSettings n min_periods op) }
        ensures pushed { IfOk result (λ w. HasPushed w []) }
    {
        let recent = VecDeque::with_capacity(alloc, n)?;
        let running = Running::start(alloc, op, n)?;
        Ok(Window {
            size: n,
            min_periods,
            op,
            recent,
            present: 0,
            running,
        })
    }

    /// Pushes a cell, and answers for the window that ends in it: NA where fewer than `min_periods` of its cells are
    /// present, else their sum, which wraps at 64 bits and is 0 for none, or the least or the greatest of them, which
    /// is NA for none. Takes no memory.
    pub fn push(&mut self, cell: Cell) -> Cell
        requires { (texts : List (List ℕ)) → holds Int64 (datum texts cell) ≡ true }
        ensures settings { HasSettings self.old.size self.old.min_periods self.old.op self.new }
        ensures pushed { (pushed : List OneCell) →
            HasPushed self.old pushed → HasPushed self.new (pushed ++ cell ∷ []) }
        ensures held { (texts : List (List ℕ)) → holds Int64 (datum texts result) ≡ true }
        ensures answer { (texts : List (List ℕ)) (pushed : List OneCell) →
            HasPushed self.old pushed → datum texts result
            ≡ answer_at self.old (map (datum texts) (pushed ++ cell ∷ [])) (length pushed) }
    {
        cell_of_number(self.slide(number_in(cell)))
    }

    // The same of a number, or none.
    #[inline(always)]
    pub(crate) fn slide(&mut self, value: Option<i64>) -> Option<i64>
        ensures some { 0 < self.old.size }
        ensures window { self.new
            ≡ record self.old { recent = slid self.old.size self.old.recent value } }
        ensures answer { result ≡ answer_of self.old.min_periods self.old.op
            (present_values (slid self.old.size self.old.recent value)) }
    {
        if self.recent.len() == self.size {
            self.forget_first();
        }
        self.append(value);
        self.answer()
    }

    #[inline(always)]
    fn forget_first(&mut self)
        ensures { self.new ≡ record self.old { recent = drop 1 self.old.recent } }
    {
        if let Some(Some(x)) = self.recent.pop_front() {
            self.present -= 1;
            self.running.remove(x);
        }
    }

    #[inline(always)]
    fn append(&mut self, value: Option<i64>)
        requires { length self.old.recent < self.old.size }
        ensures { self.new ≡ record self.old { recent = self.old.recent ++ value ∷ [] } }
    {
        // There is room, so this doesn't fail.
        let _ = self.recent.push_back(value);
        if let Some(x) = value {
            self.present += 1;
            self.running.add(x);
        }
    }

    #[inline(always)]
    fn answer(&self) -> Option<i64>
        ensures { result
            ≡ answer_of self.now.min_periods self.now.op (present_values self.now.recent) }
    {
        if self.present < self.min_periods {
            None
        } else {
            self.running.answer()
        }
    }
}
