// Sixteen rows at a time: values as the lanes of vectors, and the loop over the operations on them.
ghost use Rattle.std.specs.Prelude.{◌≡◌, ◌+◌, ◌≤◌, ◌<◌, ℕ, Bool, int_lt, length, slice_get, vec_len, vec_capacity, Some, IfOk};
ghost use Rattle.std.specs.Ordering.{int_eq};
ghost use Rattle.column_core.specs.Rows.{AreWritten};
ghost use Rattle.column_operators.specs.Tasks.{passes};
ghost use Rattle.column_operators.specs.Vectors.{IsNumber, IsTruth, AreLanes, AreMade, ArePushed, AreRows};

use crate::operators::{Both, Compare, Difference, Either, OneOf, Product, Sum};
use crate::ops::Relation;
use crate::pairs::Constant;
use cell_core::NoMemory;
use column_core::{Dense, Owned};
use nullable_array::{ByNumber, ByTruth, Order, PairOp, Side};
use std::alloc::Global;
use std::simd::prelude::*;

// So many rows make a strip. Their flags, a byte each, fill one register.
const ROWS: usize = 16;

/// A value of which a strip's are the lanes of one vector.
pub(crate) trait Vectored: Copy + Drop {
    /// The values of a strip.
    type Vector: Copy + Drop;

    ghost lane_is: { Self.Vector → ℕ → Self → Type 0 };

    /// The values from this place on.
    fn load(values: &[Self], from: usize) -> Self::Vector
        requires { from + 16 ≤ length values.now }
        ensures { AreLanes (lane_is result) (λ k. slice_get values.now (from + k)) };

    /// The same value in each lane.
    fn splat(value: Self) -> Self::Vector
        ensures { (k : ℕ) → k < 16 → lane_is result k value };

    /// Adds the value of each lane. There is room for them.
    fn push(vector: Self::Vector, values: &mut Vec<Self>)
        requires { vec_len values.old + 16 ≤ vec_capacity values.old }
        ensures { ArePushed (lane_is vector) values.old values.new };
}

impl Vectored for i64 {
    type Vector = i64x16;

    ghost lane_is = { IsNumber };

    // Number by number: what is read by itself is known to be in range. It is compiled to loads of vectors.
    #[inline(always)]
    fn load(values: &[i64], from: usize) -> i64x16 {
        let mut lanes = [0; ROWS];
        for lane in 0..ROWS {
            lanes[lane] = values[from + lane];
        }
        i64x16::from_array(lanes)
    }

    #[inline(always)]
    fn splat(value: i64) -> i64x16 {
        i64x16::splat(value)
    }

    #[inline(always)]
    fn push(vector: i64x16, values: &mut Vec<i64>) {
        let lanes = vector.to_array();
        for lane in 0..ROWS {
            values.push_reserved(lanes[lane]);
        }
    }
}

impl Vectored for bool {
    type Vector = u8x16;

    ghost lane_is = { IsTruth };

    #[inline(always)]
    fn load(values: &[bool], from: usize) -> u8x16 {
        let mut lanes = [0; ROWS];
        for lane in 0..ROWS {
            lanes[lane] = values[from + lane] as u8;
        }
        u8x16::from_array(lanes)
    }

    #[inline(always)]
    fn splat(value: bool) -> u8x16 {
        u8x16::splat(value as u8)
    }

    #[inline(always)]
    fn push(vector: u8x16, values: &mut Vec<bool>) {
        let lanes = vector.to_array();
        for lane in 0..ROWS {
            values.push_reserved(lanes[lane] != 0);
        }
    }
}

/// Rows whose flags and values are read a strip at a time.
pub(crate) trait VectorSide<T: Vectored>: Side<T> {
    /// Whether each row of the strip from this one on has a value.
    fn flags(&self, from: usize) -> u8x16
        requires { from + 16 ≤ Self.count_of self.now }
        ensures { (k : ℕ) → k < 16 → IsTruth result k (Self.flag_at self.now (from + k)) };

    /// The value of each, where the row has one.
    fn values(&self, from: usize) -> T::Vector
        requires { from + 16 ≤ Self.count_of self.now }
        ensures { AreLanes (T.lane_is result) (λ k. Self.value_at self.now (from + k)) };
}

impl<T: Vectored> VectorSide<T> for Dense<'_, T> {
    #[inline(always)]
    fn flags(&self, from: usize) -> u8x16 {
        bool::load(self.present, from)
    }

    #[inline(always)]
    fn values(&self, from: usize) -> T::Vector {
        T::load(self.values, from)
    }
}

impl<T: Vectored> VectorSide<T> for Constant<T> {
    #[inline(always)]
    fn flags(&self, _from: usize) -> u8x16 {
        bool::splat(self.value.is_some())
    }

    #[inline(always)]
    fn values(&self, _from: usize) -> T::Vector {
        T::splat(self.value.unwrap_or(self.blank))
    }
}

/// An operation whose flags and values are made a strip at a time.
pub(crate) trait VectorOp<X: Vectored, U: Vectored>: PairOp<X, X, U> {
    /// Whether each row has a value.
    fn flags(&self, x: X::Vector, p: u8x16, y: X::Vector, q: u8x16) -> u8x16
        ensures { (k : ℕ) (m n : X) (s t : Bool) → k < 16 →
            X.lane_is x k m → IsTruth p k s → X.lane_is y k n → IsTruth q k t →
            IsTruth result k (Self.flag_of self.now m s n t) };

    /// The value of each, where the row has one.
    fn values(&self, x: X::Vector, y: X::Vector) -> U::Vector
        ensures { (s t : Bool) → AreMade (X.lane_is x) (X.lane_is y) (U.lane_is result)
            (λ m n. Self.value_of self.now m s n t) };
}

impl VectorOp<i64, i64> for Sum {
    #[inline(always)]
    fn flags(&self, _: i64x16, p: u8x16, _: i64x16, q: u8x16) -> u8x16 {
        p & q
    }

    #[inline(always)]
    fn values(&self, x: i64x16, y: i64x16) -> i64x16 {
        x + y
    }
}

impl VectorOp<i64, i64> for Difference {
    #[inline(always)]
    fn flags(&self, _: i64x16, p: u8x16, _: i64x16, q: u8x16) -> u8x16 {
        p & q
    }

    #[inline(always)]
    fn values(&self, x: i64x16, y: i64x16) -> i64x16 {
        x - y
    }
}

impl VectorOp<i64, i64> for Product {
    #[inline(always)]
    fn flags(&self, _: i64x16, p: u8x16, _: i64x16, q: u8x16) -> u8x16 {
        p & q
    }

    #[inline(always)]
    fn values(&self, x: i64x16, y: i64x16) -> i64x16 {
        x * y
    }
}

impl VectorOp<bool, bool> for Both {
    #[inline(always)]
    fn flags(&self, x: u8x16, p: u8x16, y: u8x16, q: u8x16) -> u8x16 {
        (p & q) | (p & !x) | (q & !y)
    }

    #[inline(always)]
    fn values(&self, x: u8x16, y: u8x16) -> u8x16 {
        x & y
    }
}

impl VectorOp<bool, bool> for Either {
    #[inline(always)]
    fn flags(&self, x: u8x16, p: u8x16, y: u8x16, q: u8x16) -> u8x16 {
        (p & q) | (p & x) | (q & y)
    }

    #[inline(always)]
    fn values(&self, x: u8x16, y: u8x16) -> u8x16 {
        x | y
    }
}

impl VectorOp<bool, bool> for OneOf {
    #[inline(always)]
    fn flags(&self, _: u8x16, p: u8x16, _: u8x16, q: u8x16) -> u8x16 {
        p & q
    }

    #[inline(always)]
    fn values(&self, x: u8x16, y: u8x16) -> u8x16 {
        x ^ y
    }
}

/// An order by which the values of two strips are compared.
pub(crate) trait VectorOrder<T: Vectored>: Order<T> {
    /// Whether the values of each row are in the relation.
    fn passing(&self, relation: Relation, x: T::Vector, y: T::Vector) -> u8x16
        ensures { AreMade (T.lane_is x) (T.lane_is y) (IsTruth result)
            (λ m n. passes relation (Self.cmp self.now m n)) };
}

impl<T: Vectored, K: VectorOrder<T>> VectorOp<T, bool> for Compare<K> {
    #[inline(always)]
    fn flags(&self, _: T::Vector, p: u8x16, _: T::Vector, q: u8x16) -> u8x16 {
        p & q
    }

    #[inline(always)]
    fn values(&self, x: T::Vector, y: T::Vector) -> u8x16 {
        self.order.passing(self.relation, x, y)
    }
}

impl VectorOrder<i64> for ByNumber {
    // With a relation that is known at compile time one comparison is left.
    #[inline(always)]
    fn passing(&self, relation: Relation, x: i64x16, y: i64x16) -> u8x16 {
        let less = are_less(x, y) & bool::splat(relation.less);
        let equal = are_equal(x, y) & bool::splat(relation.equal);
        let greater = are_less(y, x) & bool::splat(relation.greater);
        less | equal | greater
    }
}

#[inline(always)]
fn are_less(x: i64x16, y: i64x16) -> u8x16
    ensures { AreMade (IsNumber x) (IsNumber y) (IsTruth result) int_lt }
{
    x.simd_lt(y)
        .select(i64x16::splat(1), i64x16::splat(0))
        .cast()
}

#[inline(always)]
fn are_equal(x: i64x16, y: i64x16) -> u8x16
    ensures { AreMade (IsNumber x) (IsNumber y) (IsTruth result) int_eq }
{
    x.simd_eq(y)
        .select(i64x16::splat(1), i64x16::splat(0))
        .cast()
}

impl VectorOrder<bool> for ByTruth {
    #[inline(always)]
    fn passing(&self, relation: Relation, x: u8x16, y: u8x16) -> u8x16 {
        let less = !x & y & bool::splat(relation.less);
        let equal = !(x ^ y) & bool::splat(relation.equal);
        let greater = x & !y & bool::splat(relation.greater);
        less | equal | greater
    }
}

// Adds the rows of the strip from this one on. There is room for all rows.
#[inline(always)]
fn push_strip<X: Vectored, U: Vectored, O: VectorOp<X, U>, A: VectorSide<X>, B: VectorSide<X>>(
    op: &O,
    a: &A,
    b: &B,
    from: usize,
    values: &mut Vec<U>,
    present: &mut Vec<bool>,
)
    requires within { from + 16 ≤ A.count_of a.now }
    requires same { A.count_of a.now ≡ B.count_of b.now }
    requires so_far { AreRows (λ k. O.row_of op.now (A.row_of a.now k) (B.row_of b.now k))
        (A.count_of a.now) from values.old present.old }
    ensures { AreRows (λ k. O.row_of op.now (A.row_of a.now k) (B.row_of b.now k))
        (A.count_of a.now) (from + 16) values.new present.new }
{
    let x = a.values(from);
    let y = b.values(from);
    let flags = op.flags(x, a.flags(from), y, b.flags(from));
    U::push(op.values(x, y), values);
    bool::push(flags, present);
}

// Adds the rows from this one on, one by one. There is room for all rows.
#[inline(always)]
fn push_rest<X: Vectored, U: Vectored, O: VectorOp<X, U>, A: VectorSide<X>, B: VectorSide<X>>(
    op: &O,
    a: &A,
    b: &B,
    from: usize,
    values: &mut Vec<U>,
    present: &mut Vec<bool>,
)
    requires within { from ≤ A.count_of a.now }
    requires same { A.count_of a.now ≡ B.count_of b.now }
    requires so_far { AreRows (λ k. O.row_of op.now (A.row_of a.now k) (B.row_of b.now k))
        (A.count_of a.now) from values.old present.old }
    ensures { AreRows (λ k. O.row_of op.now (A.row_of a.now k) (B.row_of b.now k))
        (A.count_of a.now) (A.count_of a.now) values.new present.new }
{
    for row in from..a.count() {
        let x = a.value(row);
        let y = b.value(row);
        let p = a.flag(row);
        let q = b.flag(row);
        values.push_reserved(op.value(x, p, y, q));
        present.push_reserved(op.flag(x, p, y, q));
    }
}

/// The operation at each row: a strip at a time, and the rows that make none one by one.
#[inline(always)]
pub(crate) fn by_vectors<
    X: Vectored,
    U: Vectored,
    O: VectorOp<X, U>,
    A: VectorSide<X>,
    B: VectorSide<X>,
>(alloc: Global, op: &O, a: &A, b: &B) -> Result<Owned<U>, NoMemory>
    requires { A.count_of a.now ≡ B.count_of b.now }
    ensures count { IfOk result (λ made. length made.values.items ≡ A.count_of a.now) }
    ensures rows { IfOk result (λ made. AreWritten
        (λ k. O.row_of op.now (A.row_of a.now k) (B.row_of b.now k))
        (A.count_of a.now) made.values.items made.present.items) }
{
    let mut values = Vec::with_capacity(alloc, a.count())?;
    let mut present = Vec::with_capacity(alloc, a.count())?;
    let strips = a.count() / ROWS;
    for strip in 0..strips {
        push_strip(op, a, b, strip * ROWS, &mut values, &mut present);
    }
    push_rest(op, a, b, strips * ROWS, &mut values, &mut present);
    Ok(Owned { values, present })
}
