// The least and the greatest of numbers that lie side by side.
ghost use Rattle.std.specs.Prelude.{◌≡◌, ℤ, Option, None, false, unwrap_or, if◌then◌else◌, FitsSigned};
ghost use Rattle.std.specs.Int.{w64};
ghost use Rattle.std.specs.Ordering.{int_cmp, is_lt};
ghost use Rattle.nullable_array.specs.Folds.{folded, least_step, greatest_step};

use crate::folds::{Greatest, Least, fold_rows};
use crate::orders::{ByNumber, Downward, Order};
use crate::pairs::Side;
use std::cmp::Ordering;

/// The least number that is present.
pub(crate) fn least_number<A: Side<i64>>(a: &A) -> Option<i64>
    ensures { result ≡ folded (least_step int_cmp) None (A.count_of a.now) (A.row_of a.now) }
{
    let best = last_or(&Downward, i64::MAX, a);
    if best != i64::MAX {
        return Some(best);
    }
    fold_rows(&Least { order: ByNumber }, None, a)
}

/// The greatest number that is present.
pub(crate) fn greatest_number<A: Side<i64>>(a: &A) -> Option<i64>
    ensures { result ≡ folded (greatest_step int_cmp) None (A.count_of a.now) (A.row_of a.now) }
{
    let best = last_or(&ByNumber, i64::MIN, a);
    if best != i64::MIN {
        return Some(best);
    }
    fold_rows(&Greatest { order: ByNumber }, None, a)
}

// The last number in an order, or the blank, which stands before all numbers, where none is present. So each row is one
// comparison, and several rows are taken at a time.
#[inline(always)]
fn last_or<K: Order<i64>, A: Side<i64>>(order: &K, blank: i64, a: &A) -> i64
    requires first { (x : ℤ) → FitsSigned w64 x → is_lt (K.cmp order.now x blank) ≡ false }
    requires alone { (x : ℤ) → FitsSigned w64 x → is_lt (K.cmp order.now blank x) ≡ false →
        x ≡ blank }
    ensures { result
        ≡ unwrap_or (folded (greatest_step (K.cmp order.now)) None (A.count_of a.now)
        (A.row_of a.now)) blank }
{
    let mut best = blank;
    for row in 0..a.count() {
        best = later(order, best, or_blank(a.flag(row), a.value(row), blank));
    }
    best
}

#[inline(always)]
fn or_blank(present: bool, x: i64, blank: i64) -> i64
    ensures { result ≡ (if present then x else blank) }
{
    if present { x } else { blank }
}

#[inline(always)]
fn later<K: Order<i64>>(order: &K, best: i64, x: i64) -> i64
    ensures { result ≡ (if is_lt (K.cmp order.now best x) then x else best) }
{
    match order.order(best, x) {
        Ordering::Less => x,
        _ => best,
    }
}
