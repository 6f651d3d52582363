// The one loop that makes a column, over the operation of a row.
ghost use Rattle.std.specs.Prelude.{◌≡◌, ◌<◌, ◌+◌, ◌≤◌, ◌^◌, ℕ, length, Option, Some, None, Ok, OnOk, IfOk, IfErr, MatchResult};
ghost use Rattle.column_core.specs.Rows.{try_rows, made_rows, AreWritten, IsFirstRefused, Refuses};
ghost use Rattle.column_core.specs.declared.rows.RowFault.TheVariants.{Memory};

use crate::lanes::{Lane, Owned, repeated};
use std::alloc::{AllocError, Global};

/// Rows of values, each present or not.
pub trait Source<T> {
    ghost count_of: { Self → ℕ };

    ghost row_of: { Self → ℕ → Option T };

    /// How many rows there are.
    fn count(&self) -> usize
        ensures { result ≡ count_of self.now };

    /// The value of a row, where it is present.
    fn get(&self, row: usize) -> Option<T>
        requires { row < count_of self.now }
        ensures { result ≡ row_of self.now row };
}

/// An operation on the values of a row. `None` refuses the row.
pub trait RowOp<X, Y, U> {
    ghost takes: { Self → Option X → Option Y → Type 0 } = { λ _ _ _. Unit {0} };

    ghost row_of: { Self → Option X → Option Y → Option (Option U) };

    fn row(&self, x: Option<X>, y: Option<Y>) -> Option<Option<U>>
        requires { takes self.now x y }
        ensures { result ≡ row_of self.now x y };
}

/// Why no rows are made: the first row that is refused, or want of memory.
#[derive(Drop)]
pub enum RowFault {
    /// The operation refuses this row, the first that it does.
    Row(usize),
    /// Memory was refused.
    Memory,
}

impl From<AllocError> for RowFault {
    ghost from_gives = { λ _ e. e ≡ Memory };

    fn from(_: AllocError) -> RowFault {
        RowFault::Memory
    }
}

impl<T: Copy> Source<T> for Lane<'_, T> {
    ghost use Rattle.column_core.specs.Lanes.{lane_row};

    ghost count_of = { λ lane. lane.count };

    ghost row_of = { λ lane row. lane_row lane.values.now lane.present.now lane.start lane.stride lane.back row };

    #[inline(always)]
    fn count(&self) -> usize {
        self.count
    }

    #[inline(always)]
    fn get(&self, row: usize) -> Option<T> {
        Lane::get(self, row)
    }
}

// Writes each row, up to the first that is refused.
#[inline(always)]
fn fill<X, Y, U: Copy, O: RowOp<X, Y, U>, A: Source<X>, B: Source<Y>>(
    op: &O,
    blank: U,
    a: &A,
    b: &B,
    values: &mut [U],
    present: &mut [bool],
) -> Result<(), usize>
    requires values { length values.old ≡ A.count_of a.now }
    requires present { length present.old ≡ A.count_of a.now }
    requires same { A.count_of a.now ≡ B.count_of b.now }
    requires takes { (k : ℕ) → k < A.count_of a.now →
        O.takes op.now (A.row_of a.now k) (B.row_of b.now k) }
    ensures written { OnOk result (AreWritten
        (λ k. O.row_of op.now (A.row_of a.now k) (B.row_of b.now k))
        (A.count_of a.now) values.new present.new) }
    ensures refused { IfErr result (λ row. IsFirstRefused
        (λ k. O.row_of op.now (A.row_of a.now k) (B.row_of b.now k)) (A.count_of a.now) row) }
{
    for row in 0..present.len() {
        match op.row(a.get(row), b.get(row)) {
            Some(value) => {
                present[row] = value.is_some();
                values[row] = value.unwrap_or(blank);
            }
            None => return Err(row),
        }
    }
    Ok(())
}

/// The operation at each row, or the first row that it refuses.
#[inline(always)]
pub fn by_rows<X, Y, U: Copy + Drop, O: RowOp<X, Y, U>, A: Source<X>, B: Source<Y>>(
    alloc: Global,
    op: &O,
    blank: U,
    a: &A,
    b: &B,
) -> Result<Owned<U>, RowFault>
    requires same { A.count_of a.now ≡ B.count_of b.now }
    requires takes { (k : ℕ) → k < A.count_of a.now →
        O.takes op.now (A.row_of a.now k) (B.row_of b.now k) }
    ensures count { IfOk result (λ made. length made.values.items ≡ A.count_of a.now) }
    ensures rows { let whole = try_rows (A.count_of a.now) (λ k. O.row_of op.now (A.row_of a.now k) (B.row_of b.now k)) in
        MatchResult result
        (λ made. whole ≡ Ok (made_rows (A.count_of a.now) made.values.items made.present.items))
        (Refuses whole) }
{
    let mut values = repeated(alloc, blank, a.count())?;
    let mut present = repeated(alloc, false, a.count())?;
    match fill(op, blank, a, b, &mut values, &mut present) {
        Ok(()) => Ok(Owned { values, present }),
        Err(row) => Err(RowFault::Row(row)),
    }
}
