// Rows that lie side by side, one value in each row, and rows of nothing.
ghost use Rattle.std.specs.Prelude.{◌≡◌, ◌<◌, ◌+◌, ◌*◌, ◌&&◌, ℕ, not, nat_eq, nat_lt, length, is_some, IfSome, None};
ghost use Rattle.column_core.specs.Lanes.{option_at, lane_row};

use crate::lanes::Lane;
use crate::rows::Source;

/// Values that lie side by side.
#[derive(Drop)]
pub struct Dense<'a, T> {
    /// The values, with something in the place of each missing one.
    pub values: &'a [T],
    /// For each of them whether it is present.
    pub present: &'a [bool],
    pub ghost alike: { length present.now ≡ length values.now },
}

impl<T: Copy> Source<T> for Dense<'_, T> {
    ghost count_of = { λ d. length d.values.now };

    ghost row_of = { λ d row. option_at d.values.now d.present.now row };

    #[inline(always)]
    fn count(&self) -> usize {
        self.values.len()
    }

    #[inline(always)]
    fn get(&self, row: usize) -> Option<T> {
        let value = self.values[row];
        if self.present[row] { Some(value) } else { None }
    }
}

/// One value in each of so many rows.
#[derive(Drop)]
pub struct Same<T> {
    /// The value, or none.
    pub value: Option<T>,
    /// How many rows there are.
    pub count: usize,
}

impl<T: Copy> Source<T> for Same<T> {
    ghost count_of = { λ s. s.count };

    ghost row_of = { λ s _. s.value };

    #[inline(always)]
    fn count(&self) -> usize {
        self.count
    }

    #[inline(always)]
    fn get(&self, _row: usize) -> Option<T> {
        self.value
    }
}

/// So many rows of nothing, beside the rows of an operation on one value.
#[derive(Drop)]
pub struct Nothing {
    /// How many rows there are.
    pub count: usize,
}

impl Source<()> for Nothing {
    ghost count_of = { λ s. s.count };

    ghost row_of = { λ _ _. None };

    #[inline(always)]
    fn count(&self) -> usize {
        self.count
    }

    #[inline(always)]
    fn get(&self, _row: usize) -> Option<()> {
        None
    }
}

impl<'a, T: Copy> Lane<'a, T> {
    /// The values, exactly where there are some and they lie side by side.
    pub fn dense(&self) -> Option<Dense<'a, T>>
        ensures found { is_some result
            ≡ (nat_eq self.now.stride 1 && not self.now.back && nat_lt 0 self.now.count) }
        ensures count { IfSome result (λ d. length d.values.now ≡ self.now.count) }
        ensures rows { IfSome result (λ d. (row : ℕ) → row < self.now.count → option_at d.values.now d.present.now row
            ≡ lane_row self.now.values.now self.now.present.now self.now.start self.now.stride
            self.now.back row) }
    {
        if self.stride != 1 || self.back || self.count == 0 {
            return None;
        }
        let end = self.start + self.count;
        Some(Dense {
            values: &self.values[self.start..end],
            present: &self.present[self.start..end],
        })
    }
}
