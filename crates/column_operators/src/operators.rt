// The operations of the operators on the values of a row.
ghost use Rattle.std.specs.Prelude.{◌≡◌, ℤ, ◌+ℤ◌, ◌-ℤ◌, ◌*ℤ◌};
ghost use Rattle.column_core.specs.cells.Operator.{floor_quotient, floor_rest};
ghost use Rattle.column_operators.specs.Tasks.{passes};
ghost use Rattle.column_operators.specs.Operations.{number_row, division_row, compare_row, and_row, or_row, xor_row, not_row};

use crate::floor::{quotient, rest};
use crate::ops::Relation;
use column_core::RowOp;
use nullable_array::Order;
use std::cmp::Ordering;

#[derive(Drop)]
pub(crate) struct Sum;

impl RowOp<i64, i64, i64> for Sum {
    ghost row_of = { λ _. number_row (λ x y. x +ℤ y) };

    #[inline(always)]
    #[tactic(auto, using(std::proofs::lemmas::Int::wraps))]
    fn row(&self, x: Option<i64>, y: Option<i64>) -> Option<Option<i64>>
        ensures { result ≡ number_row (λ x y. x +ℤ y) x y }
    {
        match (x, y) {
            (Some(x), Some(y)) => Some(Some(x.wrapping_add(y))),
            _ => Some(None),
        }
    }
}

#[derive(Drop)]
pub(crate) struct Difference;

impl RowOp<i64, i64, i64> for Difference {
    ghost row_of = { λ _. number_row (λ x y. x -ℤ y) };

    #[inline(always)]
    #[tactic(auto, using(std::proofs::lemmas::Int::wraps))]
    fn row(&self, x: Option<i64>, y: Option<i64>) -> Option<Option<i64>>
        ensures { result ≡ number_row (λ x y. x -ℤ y) x y }
    {
        match (x, y) {
            (Some(x), Some(y)) => Some(Some(x.wrapping_sub(y))),
            _ => Some(None),
        }
    }
}

#[derive(Drop)]
pub(crate) struct Product;

impl RowOp<i64, i64, i64> for Product {
    ghost row_of = { λ _. number_row (λ x y. x *ℤ y) };

    #[inline(always)]
    #[tactic(auto, using(std::proofs::lemmas::Int::wraps))]
    fn row(&self, x: Option<i64>, y: Option<i64>) -> Option<Option<i64>>
        ensures { result ≡ number_row (λ x y. x *ℤ y) x y }
    {
        match (x, y) {
            (Some(x), Some(y)) => Some(Some(x.wrapping_mul(y))),
            _ => Some(None),
        }
    }
}

#[derive(Drop)]
pub(crate) struct Quotient;

impl RowOp<i64, i64, i64> for Quotient {
    ghost row_of = { λ _. division_row floor_quotient };

    #[inline(always)]
    fn row(&self, x: Option<i64>, y: Option<i64>) -> Option<Option<i64>>
        ensures { result ≡ division_row floor_quotient x y }
    {
        match (x, y) {
            (Some(_), Some(0)) => None,
            (Some(x), Some(y)) => Some(Some(quotient(x, y))),
            _ => Some(None),
        }
    }
}

#[derive(Drop)]
pub(crate) struct Rest;

impl RowOp<i64, i64, i64> for Rest {
    ghost row_of = { λ _. division_row floor_rest };

    #[inline(always)]
    fn row(&self, x: Option<i64>, y: Option<i64>) -> Option<Option<i64>>
        ensures { result ≡ division_row floor_rest x y }
    {
        match (x, y) {
            (Some(_), Some(0)) => None,
            (Some(x), Some(y)) => Some(Some(rest(x, y))),
            _ => Some(None),
        }
    }
}

/// Whether two values are in a relation.
#[derive(Drop)]
pub(crate) struct Compare<K> {
    pub(crate) order: K,
    pub(crate) relation: Relation,
}

impl<T: Drop, K: Order<T>> RowOp<T, T, bool> for Compare<K> {
    ghost row_of = { λ s. compare_row s.relation (K.cmp s.order) };

    #[inline(always)]
    fn row(&self, x: Option<T>, y: Option<T>) -> Option<Option<bool>>
        ensures { result ≡ compare_row self.now.relation (K.cmp self.now.order) x y }
    {
        match (x, y) {
            (Some(x), Some(y)) => Some(Some(is_in(self.relation, self.order.order(x, y)))),
            _ => Some(None),
        }
    }
}

#[inline(always)]
pub(crate) fn is_in(relation: Relation, order: Ordering) -> bool
    ensures { result ≡ passes relation order }
{
    if order.is_lt() {
        relation.less
    } else if order.is_eq() {
        relation.equal
    } else {
        relation.greater
    }
}

#[derive(Drop)]
pub(crate) struct Both;

impl RowOp<bool, bool, bool> for Both {
    ghost row_of = { λ _. and_row };

    #[inline(always)]
    fn row(&self, x: Option<bool>, y: Option<bool>) -> Option<Option<bool>>
        ensures { result ≡ and_row x y }
    {
        match (x, y) {
            (Some(false), _) => Some(Some(false)),
            (Some(true), y) => Some(y),
            (None, Some(false)) => Some(Some(false)),
            (None, _) => Some(None),
        }
    }
}

#[derive(Drop)]
pub(crate) struct Either;

impl RowOp<bool, bool, bool> for Either {
    ghost row_of = { λ _. or_row };

    #[inline(always)]
    fn row(&self, x: Option<bool>, y: Option<bool>) -> Option<Option<bool>>
        ensures { result ≡ or_row x y }
    {
        match (x, y) {
            (Some(true), _) => Some(Some(true)),
            (Some(false), y) => Some(y),
            (None, Some(true)) => Some(Some(true)),
            (None, _) => Some(None),
        }
    }
}

#[derive(Drop)]
pub(crate) struct OneOf;

impl RowOp<bool, bool, bool> for OneOf {
    ghost row_of = { λ _. xor_row };

    #[inline(always)]
    fn row(&self, x: Option<bool>, y: Option<bool>) -> Option<Option<bool>>
        ensures { result ≡ xor_row x y }
    {
        match (x, y) {
            (Some(true), Some(y)) => Some(Some(!y)),
            (Some(false), Some(y)) => Some(Some(y)),
            _ => Some(None),
        }
    }
}

/// The opposite truth value. The second operand is a column of nothing.
#[derive(Drop)]
pub(crate) struct Not;

impl RowOp<bool, (), bool> for Not {
    ghost row_of = { λ _ x _. not_row x };

    #[inline(always)]
    fn row(&self, x: Option<bool>, _: Option<()>) -> Option<Option<bool>>
        ensures { result ≡ not_row x }
    {
        match x {
            Some(x) => Some(Some(!x)),
            None => Some(None),
        }
    }
}
