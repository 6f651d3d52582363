// The labels of the rows of a new table.
ghost use Rattle.std.specs.Prelude.{List, Some, IfOk};
ghost use Rattle.column_core.specs.cells.Text.{Text as OneText};
ghost use Rattle.frame_parts.specs.form.Finish.{default_labels};
ghost use Rattle.frame_parts.specs.Makes.{MakesBy};
ghost use Rattle.frame_make.specs.Index.{rows_labels, index_given, AreLevels, GivesLevels, IsUnnamed};
ghost use Rattle.frame_make.specs.Made as meant;

use crate::index::{level_count, row_tuples};
use cell_core::{Code, Reason, TextDict};
use frame_parts::within_limits;
use frame_store::{Item, OpFault};
use multi_index::Axis;
use std::alloc::Global;

// The axis of 0, 1 and so on, of a table that isn't beyond the limits.
#[tactic(auto, using(crate::proofs::Hints::counted_axis))]
fn counted_axis(alloc: Global, rows: usize, columns: usize) -> Result<Axis, OpFault>
    ensures names { IfOk result IsUnnamed }
    ensures labels { (texts : List OneText) → MakesBy meant.axis_labels texts result
        (meant.labels_within rows columns (default_labels rows)) }
{
    if !within_limits(rows, columns) {
        return Err(OpFault::Refused(Code::Limit));
    }
    Ok(Axis::range(alloc, rows)?)
}

// The axis of the labels in a list, one row of them for each row.
#[tactic(auto, using(crate::proofs::Hints::labelled_axis))]
fn labelled_axis(
    alloc: Global,
    dict: &TextDict,
    index: &[Item],
    rows: usize,
    columns: usize,
) -> Result<Axis, OpFault>
    requires { AreLevels index.now }
    ensures names { IfOk result IsUnnamed }
    ensures labels { (texts : List OneText) → MakesBy meant.axis_labels texts result
        (meant.listed_labels rows columns (rows_labels texts index.now)) }
{
    if index.len() != rows {
        let length = Reason::Length(rows as u64, index.len() as u64);
        return Err(OpFault::Refused(Code::BadValue(length)));
    }
    let levels = level_count(alloc, index)?;
    if levels > 4 || !within_limits(rows, columns) {
        return Err(OpFault::Refused(Code::Limit));
    }
    let tuples = row_tuples(alloc, index, levels)?;
    Ok(Axis::from_tuples(alloc, dict, &tuples, levels)?)
}

// The axis of the labels in the index, or of 0, 1 and so on.
pub(crate) fn index_axis(
    alloc: Global,
    dict: &TextDict,
    index: Option<&[Item]>,
    rows: usize,
    columns: usize,
) -> Result<Axis, OpFault>
    requires { GivesLevels index }
    ensures names { IfOk result IsUnnamed }
    ensures labels { (texts : List OneText) → MakesBy meant.axis_labels texts result
        (meant.index_labels rows columns (index_given texts index.entry)) }
{
    match index {
        None => counted_axis(alloc, rows, columns),
        Some(items) => labelled_axis(alloc, dict, items, rows, columns),
    }
}

// The axis of the labels in the index, as many as there are; the axis without rows where there is no index.
#[tactic(auto, using(crate::proofs::AxisLaws::free_same))]
pub(crate) fn bare_axis(
    alloc: Global,
    dict: &TextDict,
    index: Option<&[Item]>,
) -> Result<Axis, OpFault>
    requires { GivesLevels index }
    ensures names { IfOk result IsUnnamed }
    ensures labels { (texts : List OneText) → MakesBy meant.axis_labels texts result
        (meant.free_labels (index_given texts index.entry)) }
{
    match index {
        None => counted_axis(alloc, 0, 0),
        Some(items) => labelled_axis(alloc, dict, items, items.len(), 0),
    }
}
