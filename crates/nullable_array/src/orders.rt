// The orders of the values of a kind.
ghost use Rattle.std.specs.Prelude.{◌≡◌};
ghost use Rattle.std.specs.Ordering.{int_cmp, bool_cmp, nat_cmp};
ghost use Rattle.std.specs.Cmp.Lexicographic.{slice_cmp};
ghost use Rattle.std.specs.declared.cmp.Ordering.{Ordering as Order3};
ghost use Rattle.cell_core.specs.Values.{text_of};

use cell_core::{TextDict, TextId};
use std::cmp::Ordering;

/// An order of values.
pub trait Order<T> {
    ghost cmp: { Self → T → T → Order3 };

    /// How the first of two values stands to the second.
    fn order(&self, x: T, y: T) -> Ordering
        ensures { result ≡ cmp self.now x y };
}

/// Numbers by value.
#[derive(Drop)]
pub struct ByNumber;

impl Order<i64> for ByNumber {
    ghost cmp = { λ _. int_cmp };

    #[inline(always)]
    fn order(&self, x: i64, y: i64) -> Ordering {
        x.cmp(&y)
    }
}

/// Numbers by value, the greatest first.
#[derive(Drop)]
pub(crate) struct Downward;

impl Order<i64> for Downward {
    ghost cmp = { λ _ x y. int_cmp y x };

    #[inline(always)]
    fn order(&self, x: i64, y: i64) -> Ordering
        ensures { result ≡ int_cmp y x }
    {
        y.cmp(&x)
    }
}

/// False before True.
#[derive(Drop)]
pub struct ByTruth;

impl Order<bool> for ByTruth {
    ghost cmp = { λ _. bool_cmp };

    #[inline(always)]
    fn order(&self, x: bool, y: bool) -> Ordering {
        x.cmp(&y)
    }
}

/// Texts by code point.
#[derive(Drop)]
pub struct ByText<'a> {
    /// The texts of the numbers.
    pub dict: &'a TextDict,
}

impl Order<TextId> for ByText<'_> {
    ghost cmp = { λ s x y. slice_cmp nat_cmp (text_of s.dict.now x) (text_of s.dict.now y) };

    #[inline(always)]
    fn order(&self, x: TextId, y: TextId) -> Ordering {
        self.dict.text(x).cmp(&self.dict.text(y))
    }
}
