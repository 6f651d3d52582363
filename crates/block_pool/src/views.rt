// Which columns and rows of a block a view shows.
ghost use Rattle.std.specs.Prelude.{◌≡◌, ◌<◌, ◌≤◌, ◌+◌, ◌*◌, ◌^◌, ℕ, true, false, not, if◌then◌else◌};
ghost use Rattle.cell_core.specs.Grids.{AreRowsBelow, place_from};
ghost use Rattle.column_core.specs.Lanes.{LaneFits, lane_place};
ghost use Rattle.column_core.specs.Moves.{distance_of, is_ahead};

use cell_core::Rows;

/// The number of a view of a pool.
#[derive(Clone, Copy, Debug, PartialEq, Eq, Hash)]
pub struct ViewId(pub(crate) u64);

/// Columns side by side: so many from one on.
#[derive(Clone, Copy, Debug, PartialEq, Eq)]
pub struct Cols {
    /// The first column.
    pub from: usize,
    /// How many columns there are.
    pub count: usize,
}

/// The block of a view, its columns there, and its rows: the first, how far the next one is, whether it is back, and
/// how many there are.
#[derive(Clone, Copy)]
pub struct View {
    pub(crate) block: usize,
    pub(crate) first: usize,
    pub(crate) columns: usize,
    pub(crate) start: usize,
    pub(crate) stride: usize,
    pub(crate) back: bool,
    pub(crate) count: usize,
}

impl View {
    ghost use Rattle.block_pool.specs.Placed.{step_of};

    /// A view of all columns and rows of a block.
    pub(crate) fn whole(block: usize, columns: usize, rows: usize) -> View
        ensures { result ≡ record {
          block = block;
          first = 0;
          columns = columns;
          start = 0;
          stride = 1;
          back = false;
          count = rows;
        } }
    {
        View {
            block,
            first: 0,
            columns,
            start: 0,
            stride: 1,
            back: false,
            count: rows,
        }
    }

    /// The row of the block that is this row of the view.
    pub(crate) fn place(self, row: usize) -> usize
        requires within { lane_place self.start self.stride self.back row < 2 ^ 63 }
        requires above { self.back ≡ true → row * self.stride ≤ self.start }
        ensures { result ≡ lane_place self.start self.stride self.back row }
    {
        if self.back {
            self.start - row * self.stride
        } else {
            self.start + row * self.stride
        }
    }

    /// The rows of the view, as rows of its block.
    pub(crate) fn rows(self) -> Rows
        requires { self.stride < 2 ^ 63 }
        ensures { result ≡ record {
          start = self.start;
          step = step_of self.stride self.back;
          count = self.count;
        } }
    {
        let step = self.stride as i64;
        Rows {
            start: self.start,
            step: if self.back { -step } else { step },
            count: self.count,
        }
    }

    /// The view of these columns and rows of the view, on a block of so many rows.
    pub(crate) fn cut(self, cols: Cols, rows: Rows, limit: usize) -> View
        requires columns { self.first + self.columns < 2 ^ 64 }
        requires inside { cols.from + cols.count ≤ self.columns }
        requires fits { LaneFits self.start self.stride self.back self.count limit limit }
        requires moves { 1 < self.count → 0 < self.stride }
        requires limit { limit < 2 ^ 63 }
        requires rows { AreRowsBelow rows self.count }
        ensures block { result.block ≡ self.block }
        ensures first { result.first ≡ self.first + cols.from }
        ensures columns { result.columns ≡ cols.count }
        ensures count { result.count ≡ rows.count }
        ensures fits { LaneFits result.start result.stride result.back result.count limit limit }
        ensures moves { 1 < result.count → 0 < result.stride }
        ensures short { result.stride < 2 ^ 63 }
        ensures places { (row : ℕ) → row < rows.count →
            lane_place result.start result.stride result.back row
            ≡ lane_place self.start self.stride self.back (place_from rows.start rows.step row) }
    {
        let cut = View {
            block: self.block,
            first: self.first + cols.from,
            columns: cols.count,
            start: 0,
            stride: 1,
            back: false,
            count: rows.count,
        };
        if rows.count == 0 {
            return cut;
        }
        let start = self.place(rows.start);
        if rows.count == 1 {
            // The step of one row may be of any size.
            return View { start, ..cut };
        }
        View {
            start,
            stride: self.stride * distance(rows.step),
            back: turned(self.back, is_below_zero(rows.step)),
            ..cut
        }
    }
}

// How far a step goes, ahead or back.
fn distance(step: i64) -> usize
    ensures { result ≡ distance_of step }
{
    step.unsigned_abs() as usize
}

// Whether a step goes back.
fn is_below_zero(step: i64) -> bool
    ensures { result ≡ is_ahead step }
{
    step < 0
}

// The direction of steps in the one direction over rows that go in the other.
fn turned(back: bool, again: bool) -> bool
    ensures { result ≡ (if again then not back else back) }
{
    if again { !back } else { back }
}
