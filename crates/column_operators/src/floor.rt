// Floor division and its rest, with Python's signs.
ghost use Rattle.std.specs.Prelude.{◌≡◌, ◌≢◌, pos, ◌<ℤ◌, ◌≤ℤ◌, neg_ℤ};
ghost use Rattle.std.specs.Int.{int_wrap, w64};
ghost use Rattle.column_core.specs.cells.Operator.{floor_quotient, floor_rest, rest_from_top};

/// The quotient, rounded toward minus infinity. It wraps at the smallest number by -1.
#[inline(always)]
pub(crate) fn quotient(x: i64, y: i64) -> i64
    requires { y ≢ pos 0 }
    ensures { result ≡ int_wrap w64 (floor_quotient x y) }
{
    if y > 0 {
        by_positive(x, y)
    } else {
        by_negative(x, y)
    }
}

/// The rest of the quotient, which has the divisor's sign.
#[inline(always)]
pub(crate) fn rest(x: i64, y: i64) -> i64
    requires { y ≢ pos 0 }
    ensures { result ≡ int_wrap w64 (floor_rest x y) }
{
    if y > 0 {
        rest_by_positive(x, y)
    } else {
        rest_by_negative(x, y)
    }
}

#[inline(always)]
#[tactic(auto, using(std::proofs::lemmas::Int::wraps))]
fn by_positive(x: i64, y: i64) -> i64
    requires { pos 0 <ℤ y }
    ensures { result ≡ int_wrap w64 (floor_quotient x y) }
{
    if x >= 0 { x / y } else { !(!x / y) }
}

#[inline(always)]
fn by_negative(x: i64, y: i64) -> i64
    requires { y <ℤ pos 0 }
    ensures { result ≡ int_wrap w64 (floor_quotient x y) }
{
    if x > 0 {
        (x - 1) / y - 1
    } else if y == -1 {
        opposite(x)
    } else {
        x / y
    }
}

#[inline(always)]
#[tactic(auto, using(std::proofs::lemmas::Int::wraps))]
fn opposite(x: i64) -> i64
    requires { x ≤ℤ pos 0 }
    ensures { result ≡ int_wrap w64 (neg_ℤ x) }
{
    x.wrapping_neg()
}

#[inline(always)]
fn rest_by_positive(x: i64, y: i64) -> i64
    requires { pos 0 <ℤ y }
    ensures { result ≡ floor_rest x y }
{
    if x >= 0 { x % y } else { from_top(!x, y) }
}

// How far a rest is below the divisor, less one.
#[inline(always)]
fn from_top(a: i64, y: i64) -> i64
    requires a { pos 0 ≤ℤ a }
    requires y { pos 0 <ℤ y }
    ensures { result ≡ rest_from_top a y }
{
    (y as u64 - 1 - a as u64 % y as u64) as i64
}

#[inline(always)]
fn rest_by_negative(x: i64, y: i64) -> i64
    requires { y <ℤ pos 0 }
    ensures { result ≡ floor_rest x y }
{
    if x > 0 {
        (x - 1) % y + (y + 1)
    } else if y == -1 {
        0
    } else {
        x % y
    }
}
