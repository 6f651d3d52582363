// What is gathered from the values of rows.
ghost use Rattle.std.specs.Prelude.{◌≡◌, not, ◌||◌, ◌&&◌, pos, Option};
ghost use Rattle.nullable_array.specs.Folds.{step_row, folded, sum_step, one_of_truth, is_not_zero, least_step, greatest_step};

use crate::orders::Order;
use column_core::Source;
use std::cmp::Ordering;

/// A step of what is gathered.
pub(crate) trait Fold<T, S> {
    ghost step_of: { Self → S → T → S };

    fn step(&self, so_far: S, x: T) -> S
        ensures { result ≡ step_of self.now so_far x };
}

/// What the present values come to.
#[inline(always)]
pub(crate) fn fold_rows<T, S: Copy, F: Fold<T, S>, A: Source<T>>(fold: &F, start: S, a: &A) -> S
    ensures { result ≡ folded (F.step_of fold.now) start (A.count_of a.now) (A.row_of a.now) }
{
    let mut so_far = start;
    for row in 0..a.count() {
        so_far = next(fold, so_far, a.get(row));
    }
    so_far
}

/// The same, where no further value changes what isn't the start any more: so it is known at the first such row.
#[inline(always)]
#[tactic(auto, using(crate::proofs::FoldLaws::folded_more))]
pub(crate) fn fold_until<T, F: Fold<T, bool>, A: Source<T>>(fold: &F, start: bool, a: &A) -> bool
    requires { (x : T) → F.step_of fold.now (not start) x ≡ not start }
    ensures { result ≡ folded (F.step_of fold.now) start (A.count_of a.now) (A.row_of a.now) }
{
    for row in 0..a.count() {
        let so_far = next(fold, start, a.get(row));
        if so_far != start {
            return so_far;
        }
    }
    start
}

#[inline(always)]
pub(crate) fn next<T, S: Copy, F: Fold<T, S>>(fold: &F, so_far: S, x: Option<T>) -> S
    ensures { result ≡ step_row (F.step_of fold.now) so_far x }
{
    match x {
        Some(x) => fold.step(so_far, x),
        None => so_far,
    }
}

/// The sum, which wraps.
#[derive(Drop)]
pub(crate) struct Total;

impl Fold<i64, i64> for Total {
    ghost step_of = { λ _. sum_step };

    #[inline(always)]
    fn step(&self, so_far: i64, x: i64) -> i64
        ensures { result ≡ sum_step so_far x }
    {
        sum(so_far, x)
    }
}

impl Fold<bool, i64> for Total {
    ghost step_of = { λ _ s x. sum_step s (one_of_truth x) };

    #[inline(always)]
    fn step(&self, so_far: i64, x: bool) -> i64
        ensures { result ≡ sum_step so_far (one_of_truth x) }
    {
        sum(so_far, one_if(x))
    }
}

/// How many there are.
#[derive(Drop)]
pub(crate) struct HowMany;

impl<T: Drop> Fold<T, i64> for HowMany {
    ghost step_of = { λ _ s _. sum_step s (pos 1) };

    #[inline(always)]
    fn step(&self, so_far: i64, _: T) -> i64
        ensures { result ≡ sum_step so_far (pos 1) }
    {
        sum(so_far, 1)
    }
}

#[inline(always)]
pub(crate) fn one_if(x: bool) -> i64
    ensures { result ≡ one_of_truth x }
{
    if x { 1 } else { 0 }
}

#[inline(always)]
#[tactic(auto, using(std::proofs::lemmas::Int::wraps))]
pub(crate) fn sum(x: i64, y: i64) -> i64
    ensures { result ≡ sum_step x y }
{
    x.wrapping_add(y)
}

/// Whether one is True, or isn't 0.
#[derive(Drop)]
pub(crate) struct AnyTrue;

impl Fold<bool, bool> for AnyTrue {
    ghost step_of = { λ _ s x. s || x };

    #[inline(always)]
    fn step(&self, so_far: bool, x: bool) -> bool
        ensures { result ≡ (so_far || x) }
    {
        so_far | x
    }
}

impl Fold<i64, bool> for AnyTrue {
    ghost step_of = { λ _ s x. s || is_not_zero x };

    #[inline(always)]
    fn step(&self, so_far: bool, x: i64) -> bool
        ensures { result ≡ (so_far || is_not_zero x) }
    {
        so_far | (x != 0)
    }
}

/// Whether each is True, or isn't 0.
#[derive(Drop)]
pub(crate) struct AllTrue;

impl Fold<bool, bool> for AllTrue {
    ghost step_of = { λ _ s x. s && x };

    #[inline(always)]
    fn step(&self, so_far: bool, x: bool) -> bool
        ensures { result ≡ (so_far && x) }
    {
        so_far & x
    }
}

impl Fold<i64, bool> for AllTrue {
    ghost step_of = { λ _ s x. s && is_not_zero x };

    #[inline(always)]
    fn step(&self, so_far: bool, x: i64) -> bool
        ensures { result ≡ (so_far && is_not_zero x) }
    {
        so_far & (x != 0)
    }
}

/// The first of the least values.
#[derive(Drop)]
pub(crate) struct Least<K> {
    pub(crate) order: K,
}

impl<T: Copy, K: Order<T>> Fold<T, Option<T>> for Least<K> {
    ghost step_of = { λ s. least_step (K.cmp s.order) };

    #[inline(always)]
    fn step(&self, so_far: Option<T>, x: T) -> Option<T>
        ensures { result ≡ least_step (K.cmp self.now.order) so_far x }
    {
        match so_far {
            None => Some(x),
            Some(best) => match self.order.order(x, best) {
                Ordering::Less => Some(x),
                _ => Some(best),
            },
        }
    }
}

/// The first of the greatest values.
#[derive(Drop)]
pub(crate) struct Greatest<K> {
    pub(crate) order: K,
}

impl<T: Copy, K: Order<T>> Fold<T, Option<T>> for Greatest<K> {
    ghost step_of = { λ s. greatest_step (K.cmp s.order) };

    #[inline(always)]
    fn step(&self, so_far: Option<T>, x: T) -> Option<T>
        ensures { result ≡ greatest_step (K.cmp self.now.order) so_far x }
    {
        match so_far {
            None => Some(x),
            Some(best) => match self.order.order(best, x) {
                Ordering::Less => Some(x),
                _ => Some(best),
            },
        }
    }
}
