// The operations told by flags, and a value that stands in each row.
ghost use Rattle.std.specs.Prelude.{◌≡◌, ◌<◌, ◌&&◌, ◌||◌, ◌+ℤ◌, ◌-ℤ◌, ◌*ℤ◌, unwrap_or, is_some, Option, Some};
ghost use Rattle.std.specs.Int.{int_wrap, w64};
ghost use Rattle.column_operators.specs.Tasks.{passes};
ghost use Rattle.column_operators.specs.Pairs.{and_flag, or_flag, xor_value, flagged_value, number_pair, compare_pair, and_pair, or_pair, xor_pair};

use crate::operators::{Both, Compare, Difference, Either, OneOf, Product, Sum, is_in};
use column_core::Source;
use nullable_array::{Order, PairOp, Side};

impl PairOp<i64, i64, i64> for Sum {
    ghost flag_of = { λ _ _ p _ q. p && q };

    ghost value_of = { λ _ x _ y _. int_wrap w64 (x +ℤ y) };

    #[inline(always)]
    fn flag(&self, _: i64, p: bool, _: i64, q: bool) -> bool {
        p & q
    }

    #[inline(always)]
    #[tactic(auto, using(std::proofs::lemmas::Int::wraps))]
    fn value(&self, x: i64, _: bool, y: i64, _: bool) -> i64
        ensures { result ≡ int_wrap w64 (x +ℤ y) }
    {
        x.wrapping_add(y)
    }

    ghost row_is = { λ _. number_pair (λ x y. x +ℤ y) };
}

impl PairOp<i64, i64, i64> for Difference {
    ghost flag_of = { λ _ _ p _ q. p && q };

    ghost value_of = { λ _ x _ y _. int_wrap w64 (x -ℤ y) };

    #[inline(always)]
    fn flag(&self, _: i64, p: bool, _: i64, q: bool) -> bool {
        p & q
    }

    #[inline(always)]
    #[tactic(auto, using(std::proofs::lemmas::Int::wraps))]
    fn value(&self, x: i64, _: bool, y: i64, _: bool) -> i64
        ensures { result ≡ int_wrap w64 (x -ℤ y) }
    {
        x.wrapping_sub(y)
    }

    ghost row_is = { λ _. number_pair (λ x y. x -ℤ y) };
}

impl PairOp<i64, i64, i64> for Product {
    ghost flag_of = { λ _ _ p _ q. p && q };

    ghost value_of = { λ _ x _ y _. int_wrap w64 (x *ℤ y) };

    #[inline(always)]
    fn flag(&self, _: i64, p: bool, _: i64, q: bool) -> bool {
        p & q
    }

    #[inline(always)]
    #[tactic(auto, using(std::proofs::lemmas::Int::wraps))]
    fn value(&self, x: i64, _: bool, y: i64, _: bool) -> i64
        ensures { result ≡ int_wrap w64 (x *ℤ y) }
    {
        x.wrapping_mul(y)
    }

    ghost row_is = { λ _. number_pair (λ x y. x *ℤ y) };
}

impl<T: Drop, K: Order<T>> PairOp<T, T, bool> for Compare<K> {
    ghost flag_of = { λ _ _ p _ q. p && q };

    ghost value_of = { λ s x _ y _. passes s.relation (K.cmp s.order x y) };

    #[inline(always)]
    fn flag(&self, _: T, p: bool, _: T, q: bool) -> bool {
        p & q
    }

    #[inline(always)]
    fn value(&self, x: T, _: bool, y: T, _: bool) -> bool
        ensures { result ≡ passes self.now.relation (K.cmp self.now.order x y) }
    {
        is_in(self.relation, self.order.order(x, y))
    }

    ghost row_is = { λ s. compare_pair s.relation (K.cmp s.order) };
}

impl PairOp<bool, bool, bool> for Both {
    ghost flag_of = { λ _. and_flag };

    ghost value_of = { λ _ x _ y _. x && y };

    #[inline(always)]
    fn flag(&self, x: bool, p: bool, y: bool, q: bool) -> bool
        ensures { result ≡ and_flag x p y q }
    {
        (p & q) | (p & !x) | (q & !y)
    }

    #[inline(always)]
    fn value(&self, x: bool, _: bool, y: bool, _: bool) -> bool {
        x & y
    }

    ghost row_is = { λ _. and_pair };
}

impl PairOp<bool, bool, bool> for Either {
    ghost flag_of = { λ _. or_flag };

    ghost value_of = { λ _ x _ y _. x || y };

    #[inline(always)]
    fn flag(&self, x: bool, p: bool, y: bool, q: bool) -> bool
        ensures { result ≡ or_flag x p y q }
    {
        (p & q) | (p & x) | (q & y)
    }

    #[inline(always)]
    fn value(&self, x: bool, _: bool, y: bool, _: bool) -> bool {
        x | y
    }

    ghost row_is = { λ _. or_pair };
}

impl PairOp<bool, bool, bool> for OneOf {
    ghost flag_of = { λ _ _ p _ q. p && q };

    ghost value_of = { λ _ x _ y _. xor_value x y };

    #[inline(always)]
    fn flag(&self, _: bool, p: bool, _: bool, q: bool) -> bool {
        p & q
    }

    #[inline(always)]
    fn value(&self, x: bool, _: bool, y: bool, _: bool) -> bool
        ensures { result ≡ xor_value x y }
    {
        x ^ y
    }

    ghost row_is = { λ _. xor_pair };
}

/// The same value, or none, in each of so many rows. What stands for none may be any.
#[derive(Drop)]
pub(crate) struct Constant<T> {
    pub(crate) value: Option<T>,
    pub(crate) blank: T,
    pub(crate) count: usize,
}

impl<T: Copy> Source<T> for Constant<T> {
    ghost count_of = { λ s. s.count };

    ghost row_of = { λ s _. s.value };

    #[inline(always)]
    fn count(&self) -> usize {
        self.count
    }

    #[inline(always)]
    fn get(&self, _row: usize) -> Option<T> {
        self.value
    }
}

impl<T: Copy> Side<T> for Constant<T> {
    ghost flag_at = { λ s _. is_some s.value };

    ghost value_at = { λ s _. Some (unwrap_or s.value s.blank) };

    #[inline(always)]
    fn flag(&self, _row: usize) -> bool
        ensures { result ≡ is_some self.now.value }
    {
        self.value.is_some()
    }

    #[inline(always)]
    fn value(&self, _row: usize) -> T
        ensures { Some (unwrap_or self.now.value self.now.blank) ≡ Some result }
    {
        self.value.unwrap_or(self.blank)
    }

    ghost row_at = { λ s _. flagged_value s.value s.blank };
}
