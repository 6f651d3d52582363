// The rows of two sides, those of the left first, and the rows of one by the numbers of their keys.
ghost use Rattle.std.specs.Prelude.{◌≡◌, ◌<◌, ◌≤◌, ◌^◌, ◌++◌, [], length, slice_index_or, All, IfOk, IfSome, IfNone};
ghost use Rattle.multi_index.specs.Axes.{HaveLevels};
ghost use Rattle.row_keys.specs.Buckets.{buckets_of, rows_of_code};
ghost use Rattle.factorize.specs.Keys.{levels_of};

use cell_core::{Label, NoMemory};
use factorize::KeyLevels;
use row_keys::{Buckets, rows_by_code};
use std::alloc::Global;

/// The rows of two sides, those of the left first.
#[derive(Drop)]
pub(crate) struct BothRows<'a, L: KeyLevels, R: KeyLevels> {
    left: &'a L,
    right: &'a R,
    count: usize,
    ghost counted: { length (L.keys left.now ++ R.keys right.now) ≡ count },
    ghost alike: { let keys = L.keys left.now ++ R.keys right.now in HaveLevels (levels_of keys) keys },
}

impl<'a, L: KeyLevels, R: KeyLevels> BothRows<'a, L, R> {
    /// The rows of both; `None` exactly where there are more than can be counted. Takes no memory.
    pub fn of(left: &'a L, right: &'a R) -> Option<BothRows<'a, L, R>>
        requires { let keys = L.keys left.now ++ R.keys right.now in
            HaveLevels (levels_of keys) keys }
        ensures left { IfSome result (λ both. both.left.now ≡ left.now) }
        ensures right { IfSome result (λ both. both.right.now ≡ right.now) }
        ensures none { IfNone result (2 ^ 64 ≤ length (L.keys left.now ++ R.keys right.now)) }
    {
        let count = left.count().checked_add(right.count())?;
        Some(BothRows { left, right, count })
    }
}

impl<L: KeyLevels, R: KeyLevels> KeyLevels for BothRows<'_, L, R> {
    ghost use Rattle.std.specs.Prelude.{◌++◌};

    ghost keys = { λ both. L.keys both.left.now ++ R.keys both.right.now };

    fn count(&self) -> usize {
        self.count
    }

    fn levels(&self) -> usize {
        if self.left.count() > 0 {
            self.left.levels()
        } else {
            self.right.levels()
        }
    }

    fn label(&self, row: usize, level: usize) -> Label {
        let count = self.left.count();
        if row < count {
            self.left.label(row, level)
        } else {
            self.right.label(row - count, level)
        }
    }
}

/// The numbers of the keys of a side's rows, each below a count.
#[derive(Drop)]
pub(crate) struct SideCodes<'a> {
    pub count: usize,
    pub codes: &'a [usize],
    ghost below: { All (λ code. code < count) codes.now },
}

impl<'a> SideCodes<'a> {
    /// These numbers. Takes no memory.
    pub fn of(count: usize, codes: &'a [usize]) -> SideCodes<'a>
        requires { All (λ code. code < count) codes.now }
        ensures count { result.count ≡ count }
        ensures codes { result.codes.now ≡ codes.now }
    {
        SideCodes { count, codes }
    }

    /// The number of a row's key. Takes no memory.
    pub fn code(&self, row: usize) -> usize
        requires { row < length self.now.codes.now }
        ensures code { result ≡ slice_index_or self.now.codes.now row 0 }
        ensures below { result < self.now.count }
    {
        self.codes[row]
    }
}

/// The rows of a side by the numbers of their keys.
#[derive(Drop)]
pub(crate) struct CodedRows<'a> {
    pub count: usize,
    pub codes: &'a [usize],
    rows: Buckets,
    ghost buckets: { rows ≡ buckets_of count codes.now },
}

impl CodedRows<'_> {
    /// The rows whose keys have a number, in order. Takes no memory.
    #[tactic(auto, using(crate::proofs::Hints::rows_of))]
    pub fn rows_of(&self, code: usize) -> &[usize]
        requires { code < self.now.count }
        ensures { result.now ≡ rows_of_code code self.now.codes.now }
    {
        self.rows.rows(code)
    }
}

// The rows of a side by the numbers of their keys.
pub(crate) fn coded_rows<'a>(alloc: Global, side: &SideCodes<'a>) -> Result<CodedRows<'a>, NoMemory>
    ensures count { IfOk result (λ made. made.count ≡ side.now.count) }
    ensures codes { IfOk result (λ made. made.codes.now ≡ side.now.codes.now) }
{
    let rows = rows_by_code(alloc, side.count, side.codes)?;
    Ok(CodedRows {
        count: side.count,
        codes: side.codes,
        rows,
    })
}
