// The axis of rows of both sides.
ghost use Rattle.std.specs.Prelude.{◌≡◌, ◌<◌, ◌≤◌, All, IfOk, length, map};
ghost use Rattle.multi_index.specs.Axes.{HaveLevels, nameless_axis, tuples_at};
ghost use Rattle.label_align.specs.Both.{tuples_of};
ghost use Rattle.label_align.specs.Runs.{label_of_row};

use crate::both::{BothSides, label_of_both};
use cell_core::{Label, NoMemory, TextDict};
use multi_index::Axis;
use row_keys::tuples_at;
use std::alloc::Global;

// The first label of each of these rows.
fn first_labels(alloc: Global, both: &BothSides<'_>, rows: &[usize]) -> Result<Vec<Label>, NoMemory>
    ensures { IfOk result (λ labels. labels.items
        ≡ map (λ row. label_of_row (tuples_of both.now) row 0) rows.now) }
{
    let mut labels = Vec::with_capacity(alloc, rows.len())?;
    for row in rows {
        labels.push(label_of_both(both.left, both.right, *row, 0))?;
    }
    Ok(labels)
}

// The axis of these rows, without names. On one level its labels are all that it holds, and no tuple is made.
pub(crate) fn axis_of_rows(
    alloc: Global,
    dict: &TextDict,
    both: &BothSides<'_>,
    rows: &[usize],
) -> Result<Axis, NoMemory>
    requires some { 1 ≤ both.now.levels }
    requires few { both.now.levels ≤ 4 }
    requires alike { HaveLevels both.now.levels (tuples_of both.now) }
    requires rows { All (λ row. row < length (tuples_of both.now)) rows.now }
    ensures { IfOk result (λ axis. axis
        ≡ nameless_axis (tuples_at (tuples_of both.now) rows.now) both.now.levels) }
{
    if both.levels == 1 {
        let labels = first_labels(alloc, both, rows)?;
        return Axis::from_labels(alloc, dict, labels);
    }
    let tuples = tuples_at(alloc, both.left, both.right, rows)?;
    Axis::from_tuples(alloc, dict, &tuples, both.levels)
}
