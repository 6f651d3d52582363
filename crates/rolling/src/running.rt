// Running numbers of the values of a window.
ghost use Rattle.std.specs.Prelude.{◌≡◌, ◌++◌, ◌∷◌, [], ℕ, ℤ, List, ◌+ℤ◌, ◌-ℤ◌, IfOk};
ghost use Rattle.std.specs.Int.{int_wrap, w64};
ghost use Rattle.nullable_array.specs.declared.ops.Cumulation.{Cumulation as Op};
ghost use Rattle.rolling.specs.Answers.{came_to};
ghost use Rattle.rolling.specs.Running.{IsRunning, HasRoom};

use crate::candidates::{Candidates, Extreme};
use cell_core::NoMemory;
use nullable_array::Cumulation;
use std::alloc::Global;

/// The sum, which wraps.
#[inline(always)]
#[tactic(auto, using(std::proofs::lemmas::Int::wraps))]
pub(crate) fn sum(x: i64, y: i64) -> i64
    ensures { result ≡ int_wrap w64 (x +ℤ y) }
{
    x.wrapping_add(y)
}

// The difference, which wraps.
#[inline(always)]
#[tactic(auto, using(std::proofs::lemmas::Int::wraps))]
fn difference(x: i64, y: i64) -> i64
    ensures { result ≡ int_wrap w64 (x -ℤ y) }
{
    x.wrapping_sub(y)
}

/// What the values of a window come to, kept while values come in behind and leave in front.
#[derive(Drop)]
pub(crate) enum Running {
    /// The sum, which wraps.
    Total(i64),
    /// Those that can still be the least, or the greatest.
    Furthest(Candidates),
}

impl Running {
    /// The numbers of no values, with room for those of so many.
    pub(crate) fn start(alloc: Global, op: Cumulation, count: usize) -> Result<Running, NoMemory>
        ensures { IfOk result (λ r. IsRunning r op count []) }
    {
        let extreme = match op {
            Cumulation::Sum => return Ok(Running::Total(0)),
            Cumulation::Min => Extreme::Least,
            Cumulation::Max => Extreme::Greatest,
        };
        Ok(Running::Furthest(Candidates::with_room(alloc, extreme, count)?))
    }

    /// A value comes in behind the others. Takes no memory.
    #[inline(always)]
    pub(crate) fn add(&mut self, x: i64)
        requires { HasRoom self.old }
        ensures { (op : Op) (count : ℕ) (values : List ℤ) →
            IsRunning self.old op count values → IsRunning self.new op count (values ++ x ∷ []) }
    {
        match self {
            Running::Total(total) => *total = sum(*total, x),
            Running::Furthest(candidates) => candidates.push(x),
        }
    }

    /// The first value leaves. Takes no memory.
    #[inline(always)]
    pub(crate) fn remove(&mut self, x: i64)
        ensures { (op : Op) (count : ℕ) (values : List ℤ) →
            IsRunning self.old op count (x ∷ values) → IsRunning self.new op count values }
    {
        match self {
            Running::Total(total) => *total = difference(*total, x),
            Running::Furthest(candidates) => candidates.remove(x),
        }
    }

    /// What the values come to. Takes no memory.
    #[inline(always)]
    pub(crate) fn answer(&self) -> Option<i64>
        ensures { (op : Op) (count : ℕ) (values : List ℤ) →
            IsRunning self.now op count values → result ≡ came_to op values }
    {
        match self {
            Running::Total(total) => Some(*total),
            Running::Furthest(candidates) => candidates.first(),
        }
    }
}
