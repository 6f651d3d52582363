// The one loop over values and flags that lie side by side, for the operations that refuse no row.
ghost use Rattle.std.specs.Prelude.{◌≡◌, ◌<◌, ◌≤◌, ℕ, Bool, false, length, slice_get, slice_index_or, Option, Some, IfOk};
ghost use Rattle.std.proofs.Common.{refl};
ghost use Rattle.column_core.specs.Rows.{flagged, AreWritten};
ghost use Rattle.nullable_array.specs.Pairs.{AreFlagged, AreValued, AreFilled, flagged_at};

use cell_core::NoMemory;
use column_core::{Dense, Nothing, Owned, RowOp, Source};
use std::alloc::Global;

/// An operation that refuses no row, told by flags: where a flag is false, its value may be any.
pub trait PairOp<X, Y, U>: RowOp<X, Y, U> {
    ghost flag_of: { Self → X → Bool → Y → Bool → Bool };

    ghost value_of: { Self → X → Bool → Y → Bool → U };

    /// Whether the row has a value.
    fn flag(&self, x: X, p: bool, y: Y, q: bool) -> bool
        ensures { result ≡ flag_of self.now x p y q };

    /// The value, where the row has one.
    fn value(&self, x: X, p: bool, y: Y, q: bool) -> U
        ensures { result ≡ value_of self.now x p y q };

    ghost row_is: { (s : Self) (x : X) (p : Bool) (y : Y) (q : Bool) → Self.row_of s (flagged p x) (flagged q y) ≡ Some (flagged (flag_of s x p y q) (value_of s x p y q)) };
}

/// Rows whose flags and values are read each by itself: where a flag is false, its value may be any.
pub trait Side<T>: Source<T> + Drop {
    ghost flag_at: { Self → ℕ → Bool };

    ghost value_at: { Self → ℕ → Option T };

    /// Whether the row has a value.
    fn flag(&self, row: usize) -> bool
        requires { row < Self.count_of self.now }
        ensures { result ≡ flag_at self.now row };

    /// The value, where the row has one.
    fn value(&self, row: usize) -> T
        requires { row < Self.count_of self.now }
        ensures { value_at self.now row ≡ Some result };

    ghost row_at: { (s : Self) (row : ℕ) (x : T) → value_at s row ≡ Some x → Self.row_of s row ≡ flagged (flag_at s row) x };
}

impl<T: Copy> Side<T> for Dense<'_, T> {
    ghost flag_at = { λ s row. slice_index_or s.present.now row false };

    ghost value_at = { λ s row. slice_get s.values.now row };

    #[inline(always)]
    fn flag(&self, row: usize) -> bool
        requires { row < length self.now.values.now }
        ensures { result ≡ slice_index_or self.now.present.now row false }
    {
        self.present[row]
    }

    #[inline(always)]
    fn value(&self, row: usize) -> T
        requires { row < length self.now.values.now }
        ensures { slice_get self.now.values.now row ≡ Some result }
    {
        self.values[row]
    }

    ghost row_at = { λ s row. flagged_at s.values.now s.present.now row };
}

impl Side<()> for Nothing {
    ghost flag_at = { λ _ _. false };

    ghost value_at = { λ _ _. Some tt };

    #[inline(always)]
    fn flag(&self, _row: usize) -> bool {
        false
    }

    #[inline(always)]
    fn value(&self, _row: usize) {}

    ghost row_at = { λ _ _ _ _. refl };
}

// Whether each row has a value. Room for all rows is taken first, so that a row is a write.
#[inline(always)]
fn row_flags<X: Copy, Y: Copy, U: Copy, O: PairOp<X, Y, U>, A: Side<X>, B: Side<Y>>(
    alloc: Global,
    op: &O,
    a: &A,
    b: &B,
) -> Result<Vec<bool>, NoMemory>
    requires { A.count_of a.now ≡ B.count_of b.now }
    ensures count { IfOk result (λ flags. length flags.items ≡ A.count_of a.now) }
    ensures flags { IfOk result (λ flags. AreFlagged (O.flag_of op.now) (A.value_at a.now)
        (A.flag_at a.now) (B.value_at b.now) (B.flag_at b.now) (A.count_of a.now) flags.items) }
{
    let mut flags = Vec::with_capacity(alloc, a.count())?;
    for row in 0..a.count() {
        let x = a.value(row);
        let y = b.value(row);
        let flag = op.flag(x, a.flag(row), y, b.flag(row));
        flags.push_reserved(flag);
    }
    Ok(flags)
}

// So many rows are written in one stretch. The numbers of several rows then go into one register of narrower values, as
// of a comparison; row by row no more rows are taken at a time than a register has room for numbers.
const STRETCH: usize = 32;

// Adds the values of the rows from the one on and up to the other. There is room for them.
#[inline(always)]
fn push_values<X: Copy, Y: Copy, U: Copy, O: PairOp<X, Y, U>, A: Side<X>, B: Side<Y>>(
    op: &O,
    a: &A,
    b: &B,
    from: usize,
    to: usize,
    values: &mut Vec<U>,
)
    requires order { from ≤ to }
    requires within { to ≤ A.count_of a.now }
    requires same { A.count_of a.now ≡ B.count_of b.now }
    requires so_far { AreFilled (O.value_of op.now) (A.value_at a.now) (A.flag_at a.now)
        (B.value_at b.now) (B.flag_at b.now) (A.count_of a.now) from values.old }
    ensures { AreFilled (O.value_of op.now) (A.value_at a.now) (A.flag_at a.now)
        (B.value_at b.now) (B.flag_at b.now) (A.count_of a.now) to values.new }
{
    for row in from..to {
        let x = a.value(row);
        let y = b.value(row);
        let value = op.value(x, a.flag(row), y, b.flag(row));
        values.push_reserved(value);
    }
}

// The value of each row.
#[inline(always)]
fn row_values<X: Copy, Y: Copy, U: Copy + Drop, O: PairOp<X, Y, U>, A: Side<X>, B: Side<Y>>(
    alloc: Global,
    op: &O,
    a: &A,
    b: &B,
) -> Result<Vec<U>, NoMemory>
    requires { A.count_of a.now ≡ B.count_of b.now }
    ensures count { IfOk result (λ values. length values.items ≡ A.count_of a.now) }
    ensures values { IfOk result (λ values. AreValued (O.value_of op.now) (A.value_at a.now)
        (A.flag_at a.now) (B.value_at b.now) (B.flag_at b.now) (A.count_of a.now) values.items) }
{
    let mut values = Vec::with_capacity(alloc, a.count())?;
    let stretches = a.count() / STRETCH;
    for stretch in 0..stretches {
        let from = stretch * STRETCH;
        push_values(op, a, b, from, from + STRETCH, &mut values);
    }
    push_values(op, a, b, stretches * STRETCH, a.count(), &mut values);
    Ok(values)
}

/// The operation at each row: first the flags and then the values, so that either loop goes over a few slices.
#[inline(always)]
pub fn by_sides<X: Copy, Y: Copy, U: Copy + Drop, O: PairOp<X, Y, U>, A: Side<X>, B: Side<Y>>(
    alloc: Global,
    op: &O,
    a: A,
    b: B,
) -> Result<Owned<U>, NoMemory>
    requires { A.count_of a ≡ B.count_of b }
    ensures count { IfOk result (λ made. length made.values.items ≡ A.count_of a) }
    ensures rows { IfOk result (λ made. AreWritten
        (λ k. O.row_of op.now (A.row_of a k) (B.row_of b k))
        (A.count_of a) made.values.items made.present.items) }
{
    let present = row_flags(alloc, op, &a, &b)?;
    let values = row_values(alloc, op, &a, &b)?;
    Ok(Owned { values, present })
}
