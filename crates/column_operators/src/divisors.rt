// Quotients by one divisor for many dividends.
ghost use Rattle.std.specs.Prelude.{◌≡◌, ◌<◌, ◌≤◌, ◌*◌, ◌/◌, ◌^◌, pos, Some};
ghost use Rattle.std.specs.Int.{int_wrap, w64};
ghost use Rattle.column_core.specs.cells.Operator.{floor_quotient};
ghost use Rattle.column_operators.specs.Operations.{division_row};
ghost use Rattle.column_operators.specs.Quotients.{magnitude as magnitude_of, signed_as, quotient_pair, IsInverse};

use column_core::RowOp;
use nullable_array::PairOp;

/// A divisor above 0 and below 2^63, with an inverse. The product of a dividend below 2^63 with the inverse gives the
/// quotient: a division takes several times as long.
#[derive(Drop)]
pub(crate) struct Divisor {
    value: u64,
    inverse: u64,
    shift: u32,
    ghost above: { 0 < value },
    ghost inverts: { IsInverse value inverse shift },
}

impl Divisor {
    #[tactic(auto, using(crate::proofs::QuotientLaws::least_power))]
    pub(crate) fn new(value: u64) -> Divisor
        requires above { 0 < value }
        requires below { value < 2 ^ 63 }
        ensures { result.value ≡ value }
    {
        let shift = 64 - (value - 1).leading_zeros();
        Divisor {
            value,
            inverse: inverse(value, shift),
            shift,
        }
    }

    /// The quotient of a dividend.
    #[inline(always)]
    #[tactic(auto, using(crate::proofs::QuotientLaws::by_inverse))]
    fn quotient(&self, dividend: u64) -> u64
        requires { dividend < 2 ^ 63 }
        ensures { result ≡ dividend / self.now.value }
    {
        let near = (product(2 * dividend, self.inverse) >> 64) as u64;
        near >> self.shift
    }
}

// The least number whose product with the divisor is no less than 2^63 times the power of 2.
fn inverse(value: u64, shift: u32) -> u64
    requires above { 0 < value }
    requires below { value < 2 ^ 63 }
    requires narrow { shift < 64 }
    requires enough { value ≤ 2 ^ shift }
    requires least { 2 ^ shift < 2 * value }
    ensures { IsInverse value result shift }
{
    let power = 1u128 << (63 + shift);
    ((power - 1) / u128::from(value) + 1) as u64
}

#[inline(always)]
fn product(x: u64, y: u64) -> u128
    ensures { result ≡ x * y }
{
    u128::from(x) * u128::from(y)
}

// The number, or how far it is below -1.
#[inline(always)]
fn magnitude(x: i64) -> u64
    ensures { result ≡ magnitude_of x }
{
    (if x < 0 { !x } else { x }) as u64
}

// The magnitude on the side of 0 on which a number is.
#[inline(always)]
fn beside(x: i64, magnitude: u64) -> i64
    requires { magnitude < 2 ^ 63 }
    ensures { result ≡ signed_as x magnitude }
{
    let above = magnitude as i64;
    if x < 0 { !above } else { above }
}

/// The quotient by a divisor above 0, rounded toward minus infinity.
#[derive(Drop)]
pub(crate) struct QuotientBy {
    pub(crate) divisor: Divisor,
}

impl QuotientBy {
    #[inline(always)]
    fn quotient(&self, x: i64) -> i64
        ensures { result ≡ int_wrap w64 (floor_quotient x (pos self.now.divisor.value)) }
    {
        beside(x, self.divisor.quotient(magnitude(x)))
    }
}

impl RowOp<i64, (), i64> for QuotientBy {
    ghost row_of = { λ s x _. division_row floor_quotient x (Some (pos s.divisor.value)) };

    #[inline(always)]
    fn row(&self, x: Option<i64>, _: Option<()>) -> Option<Option<i64>>
        ensures { result ≡ division_row floor_quotient x (Some (pos self.now.divisor.value)) }
    {
        match x {
            Some(x) => Some(Some(self.quotient(x))),
            None => Some(None),
        }
    }
}

impl PairOp<i64, (), i64> for QuotientBy {
    ghost flag_of = { λ _ _ p _ _. p };

    ghost value_of = { λ s x _ _ _. int_wrap w64 (floor_quotient x (pos s.divisor.value)) };

    #[inline(always)]
    fn flag(&self, _: i64, p: bool, _: (), _: bool) -> bool {
        p
    }

    #[inline(always)]
    fn value(&self, x: i64, _: bool, _: (), _: bool) -> i64
        ensures { result ≡ int_wrap w64 (floor_quotient x (pos self.now.divisor.value)) }
    {
        self.quotient(x)
    }

    ghost row_is = { λ s x p _ _. quotient_pair s.divisor.value s.divisor.above x p };
}
