// The rows that labels take, with a gap where there is none, and the columns on such rows.
ghost use Rattle.std.specs.Prelude.{◌≡◌, length, All, IfOk};
ghost use Rattle.cell_core.specs.declared.cell.Cell.TheVariants.{Na};
ghost use Rattle.column_core.specs.Moves.{IsPlaceOf};
ghost use Rattle.multi_index.specs.Axes.{HaveLevels};
ghost use Rattle.frame_store.specs.tables.Settled.{IsSettled};
ghost use Rattle.meaning_form.specs.align.Faults.{met_rows};
ghost use Rattle.meaning_form.specs.align.Targets.{reindexed};
ghost use Rattle.meaning_form.specs.Infix.{same_tuple, on_rows};
ghost use Rattle.frame_store.specs.Parts.{columns_of, IsSingle};
ghost use Rattle.frame_store.specs.Shown.{labels_value};
ghost use Rattle.frame_parts.specs.Makes.{MakesBy};

use crate::faults::align_refusal;
use cell_core::{Gaps, Grid, NoMemory, TextDict};
use column_core::take;
use frame_store::{Blocks, ObjRef, OpFault};
use label_align::reindex;
use multi_index::Axis;
use std::alloc::Global;

/// The row that each tuple of labels takes on an axis, or a gap where it has none ("Reindexing and altering labels" in
/// the pandas user guide). Where the tuples are the axis' own these are all rows in order.
///
/// # Errors
///
/// Where the tuples are others, `BadValue(Repeated)` of the first tuple of the axis that stands on more than one row.
/// `NoMemory` may come in place of any answer.
pub fn rows_of_labels(
    alloc: Global,
    dict: &TextDict,
    axis: &Axis,
    labels: &Axis,
) -> Result<Gaps, OpFault>
    requires levels { HaveLevels (length axis.now.names) labels.now.tuples }
    requires own { IsSettled labels_value dict.now axis.now.tuples }
    requires given { IsSettled labels_value dict.now labels.now.tuples }
    ensures rows { MakesBy (λ _ rows. rows) dict.now result (met_rows (reindexed same_tuple
        (labels_value dict.now axis.now.tuples) (labels_value dict.now labels.now.tuples))) }
    ensures count { IfOk result (λ rows. length rows ≡ length labels.now.tuples) }
    ensures below { IfOk result (All (IsPlaceOf (length axis.now.tuples))) }
{
    // Equal texts have equal numbers: `TextDict::len` says so.
    let _ = dict.len();
    match reindex(alloc, axis, labels) {
        Ok(rows) => Ok(rows),
        Err(fault) => Err(align_refusal(fault)),
    }
}

/// The columns on other rows, each of which is one of theirs or missing. `NoMemory` is the only refusal.
pub fn columns_on(alloc: Global, on: &ObjRef<'_>, rows: &Gaps) -> Result<Blocks, NoMemory>
    requires { All (IsPlaceOf (length on.now.labels)) rows.now }
    ensures single { IfOk result (All IsSingle) }
    ensures columns { IfOk result (λ made. columns_of made
        ≡ on_rows Na rows.now on.now.columns) }
{
    let mut made = Blocks::new(alloc);
    for place in 0..on.columns() {
        let column = take(alloc, on.column(place), rows)?;
        made.push(column.into_block())?;
    }
    Ok(made)
}
