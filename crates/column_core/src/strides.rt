// Rows at equal distances.
ghost use Rattle.std.specs.Prelude.{◌≡◌, ◌<◌, ◌≤◌, ◌+◌, ℕ, false, not, length, if◌then◌else◌};
ghost use Rattle.cell_core.specs.Grids.{AreRowsBelow, place_from};
ghost use Rattle.cell_core.specs.declared.cell.Cell.TheVariants.{Na};
ghost use Rattle.meaning_cells.specs.Block.{strided as strided_cells};
ghost use Rattle.column_core.specs.Lanes.{lane_row};

use crate::columns::{Borrowed, ColRef};
use crate::lanes::Lane;
use crate::moves::{distance, is_below_zero};
use cell_core::Rows;

impl<'a, T: Copy> Lane<'a, T> {
    /// The rows at these places.
    pub fn strided(&self, rows: Rows) -> Lane<'a, T>
        requires { AreRowsBelow rows self.now.count }
        ensures count { result.count ≡ rows.count }
        ensures rows { (row : ℕ) → row < rows.count → lane_row result.values.now result.present.now result.start result.stride result.back row
            ≡ lane_row self.now.values.now self.now.present.now self.now.start self.now.stride
            self.now.back (place_from rows.start rows.step row) }
    {
        if rows.count == 0 {
            return self.by_ones(0, 0);
        }
        let start = self.place(rows.start);
        if rows.count == 1 {
            // The step of one row may be of any size.
            return self.by_ones(start, 1);
        }
        Lane {
            values: self.values,
            present: self.present,
            start,
            stride: self.stride * distance(rows.step),
            back: turned(self.back, is_below_zero(rows.step)),
            count: rows.count,
        }
    }

    // So many values that lie side by side.
    fn by_ones(&self, start: usize, count: usize) -> Lane<'a, T>
        requires { start + count ≤ length self.now.values.now }
        ensures count { result.count ≡ count }
        ensures rows { (row : ℕ) → lane_row result.values.now result.present.now result.start result.stride result.back row
            ≡ lane_row self.now.values.now self.now.present.now start 1 false row }
    {
        Lane {
            values: self.values,
            present: self.present,
            start,
            stride: 1,
            back: false,
            count,
        }
    }
}

// The direction of steps in the one direction over rows that go in the other.
fn turned(back: bool, again: bool) -> bool
    ensures { result ≡ (if again then not back else back) }
{
    if again { !back } else { back }
}

impl<'a> ColRef<'a> {
    /// The cells at these places, which are rows of the column: the first at `start`, each further one
    /// `step` rows on, or back where the step is below 0. Takes no memory.
    pub fn strided(&self, rows: Rows) -> ColRef<'a>
        requires { AreRowsBelow rows (length self.now.cells) }
        ensures kind { result.kind ≡ self.now.kind }
        ensures cells { result.cells ≡ strided_cells Na self.now.cells rows }
    {
        match &self.lanes {
            Borrowed::Ints(lane) => ColRef {
                lanes: Borrowed::Ints(lane.strided(rows)),
            },
            Borrowed::Truths(lane) => ColRef {
                lanes: Borrowed::Truths(lane.strided(rows)),
            },
            Borrowed::Texts(lane) => ColRef {
                lanes: Borrowed::Texts(lane.strided(rows)),
            },
        }
    }
}
