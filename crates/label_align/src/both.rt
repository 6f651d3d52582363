// The rows of two sides, numbered together: those of the left first.
ghost use Rattle.std.specs.Prelude.{◌≡◌, ◌<◌, ◌++◌, IfOk, length};
ghost use Rattle.std.specs.List.{range_with_len};
ghost use Rattle.multi_index.specs.Axes.{HaveLevels};
ghost use Rattle.sorting.specs.Sorting.{in_order};
ghost use Rattle.label_align.specs.Tuples.{row_less};
ghost use Rattle.label_align.specs.Both.{tuples_of};
ghost use Rattle.label_align.specs.Runs.{label_of_row, same_row};

use cell_core::{Label, NoMemory, Places, TextDict};
use multi_index::Axis;
use sorting::{LabelKeys, rows_by_labels};
use std::alloc::Global;

/// The rows of two axes, those of the left first.
#[derive(Clone, Copy)]
pub(crate) struct BothSides<'a> {
    pub left: &'a Axis,
    pub right: &'a Axis,
    pub levels: usize,
}

// The label of a row of an axis; NA where there is no such row or level.
fn axis_label(axis: &Axis, row: usize, level: usize) -> Label
    ensures { result ≡ label_of_row axis.now.tuples row level }
{
    if row < axis.len() && level < axis.levels() {
        axis.label(row, level)
    } else {
        Label::Na
    }
}

// The label of a row of both; NA where there is no such row or level.
pub(crate) fn label_of_both(left: &Axis, right: &Axis, row: usize, level: usize) -> Label
    ensures { result ≡ label_of_row (left.now.tuples ++ right.now.tuples) row level }
{
    let count = left.len();
    if row < count {
        axis_label(left, row, level)
    } else {
        axis_label(right, row - count, level)
    }
}

impl LabelKeys for BothSides<'_> {
    ghost use Rattle.std.specs.Prelude.{◌++◌};
    ghost use Rattle.label_align.specs.Runs.{label_of_row};

    ghost keys = { λ s. s.levels };

    ghost label_at = { λ s. label_of_row (s.left.now.tuples ++ s.right.now.tuples) };

    fn count(&self) -> usize {
        self.levels
    }

    fn at(&self, row: usize, key: usize) -> Label {
        label_of_both(self.left, self.right, row, key)
    }
}

// Whether two rows carry the same tuple.
#[tactic(auto, using(crate::proofs::OrderLaws::rows_differ))]
pub(crate) fn is_same_row(both: &BothSides<'_>, i: usize, j: usize) -> bool
    requires first { i < length (tuples_of both.now) }
    requires second { j < length (tuples_of both.now) }
    requires alike { HaveLevels both.now.levels (tuples_of both.now) }
    ensures { result ≡ same_row (tuples_of both.now) i j }
{
    for level in 0..both.levels {
        if both.at(i, level) != both.at(j, level) {
            return false;
        }
    }
    true
}

// All rows in the order of their tuples.
pub(crate) fn rows_in_order(
    alloc: Global,
    dict: &TextDict,
    both: &BothSides<'_>,
) -> Result<Places, NoMemory>
    requires { HaveLevels both.now.levels (tuples_of both.now) }
    ensures { let tuples = tuples_of both.now in
        IfOk result (λ rows. rows
        ≡ in_order (row_less dict.now tuples both.now.levels) (range_with_len 0 (length tuples))) }
{
    let Some(count) = both.left.len().checked_add(both.right.len()) else {
        return Err(NoMemory);
    };
    rows_by_labels(alloc, dict, both, true, count)
}
