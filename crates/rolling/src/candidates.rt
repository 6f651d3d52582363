// The values that can still be the least, or the greatest, of a window.
ghost use Rattle.std.specs.Prelude.{◌≡◌, ◌<◌, ◌≤◌, ◌-◌, ◌++◌, ◌∷◌, [], ℕ, ℤ, List, length, drop, slice_get, IfOk};
ghost use Rattle.std.specs.List.{list_any};
ghost use Rattle.std.specs.VecDeque.{deque_len, deque_capacity};
ghost use Rattle.rolling.specs.Candidates.{beats, unbeaten};

use cell_core::NoMemory;
use std::alloc::Global;
use std::collections::VecDeque;

/// Which end of the order is sought.
#[derive(Clone, Copy, Debug, PartialEq, Eq)]
pub(crate) enum Extreme {
    /// The least value.
    Least,
    /// The greatest value.
    Greatest,
}

impl Extreme {
    /// Whether the first value is further out than the second.
    #[inline(always)]
    fn beats(self, x: i64, y: i64) -> bool
        ensures { result ≡ beats self x y }
    {
        match self {
            Extreme::Least => x < y,
            Extreme::Greatest => y < x,
        }
    }
}

/// Of the values of a window those that none behind them beats, in their order: the first is the one that is furthest
/// out, and each other one takes its place once those before it have left. Equal values all stay.
#[derive(Drop)]
pub(crate) struct Candidates {
    pub(crate) extreme: Extreme,
    pub(crate) values: VecDeque<i64>,
}

impl Candidates {
    /// No values, with room for so many.
    pub(crate) fn with_room(
        alloc: Global,
        extreme: Extreme,
        count: usize,
    ) -> Result<Candidates, NoMemory>
        ensures extreme { IfOk result (λ c. c.extreme ≡ extreme) }
        ensures room { IfOk result (λ c. count ≤ deque_capacity c.values) }
        ensures values { IfOk result (λ c. c.values.items ≡ []) }
    {
        let values = VecDeque::with_capacity(alloc, count)?;
        Ok(Candidates { extreme, values })
    }

    /// The value that is furthest out.
    #[inline(always)]
    pub(crate) fn first(&self) -> Option<i64>
        ensures { result ≡ slice_get self.now.values.items 0 }
    {
        self.values.front().copied()
    }

    // Whether a value beats the last of these.
    #[inline(always)]
    fn is_last_beaten_by(&self, x: i64) -> bool
        ensures { result ≡ list_any (beats self.now.extreme x)
            (drop (length self.now.values.items - 1) self.now.values.items) }
    {
        match self.values.back() {
            Some(last) => self.extreme.beats(x, *last),
            None => false,
        }
    }

    /// A value comes in behind the others. Takes no memory.
    pub(crate) fn push(&mut self, x: i64)
        requires { deque_len self.old.values < deque_capacity self.old.values }
        ensures extreme { self.new.extreme ≡ self.old.extreme }
        ensures room { deque_capacity self.new.values ≡ deque_capacity self.old.values }
        ensures values { (values : List ℤ) →
            self.old.values.items ≡ unbeaten (beats self.old.extreme) values →
            self.new.values.items ≡ unbeaten (beats self.old.extreme) (values ++ x ∷ []) }
    {
        while self.is_last_beaten_by(x) {
            let _ = self.values.pop_back();
        }
        // There is room, so this doesn't fail.
        let _ = self.values.push_back(x);
    }

    /// The first value of the window leaves. Takes no memory.
    #[inline(always)]
    pub(crate) fn remove(&mut self, x: i64)
        ensures extreme { self.new.extreme ≡ self.old.extreme }
        ensures room { deque_capacity self.new.values ≡ deque_capacity self.old.values }
        ensures values { (values : List ℤ) →
            self.old.values.items ≡ unbeaten (beats self.old.extreme) (x ∷ values) →
            self.new.values.items ≡ unbeaten (beats self.old.extreme) values }
    {
        if self.first() == Some(x) {
            let _ = self.values.pop_front();
        }
    }
}
