// The frame of two frames' rows that are nearest.
ghost use Rattle.std.specs.Prelude.{◌≡◌, IfOk};
ghost use Rattle.column_core.specs.cells.Cell.{IsLonger};
ghost use Rattle.frame_store.specs.Arguments.{object_value, IsLiveObject};
ghost use Rattle.frame_store.specs.Objects.{tables};
ghost use Rattle.frame_store.specs.Shown.{cells_value, Makes};
ghost use Rattle.frame_store.specs.World.{world, IsSettledWorld};
ghost use Rattle.frame_store.specs.tables.Settled.{IsSettled};
ghost use Rattle.frame_store.specs.tables.Value.{one, table};
ghost use Rattle.meaning_nearest.specs.AsofMerge as meant;
ghost use Rattle.frame_asof.specs.Asked.{asof_value, labels_of};
ghost use Rattle.frame_asof.specs.Rows.{all_rows};

use crate::asked::Asof;
use crate::keys::keys_of_asof;
use crate::rows::rows_met;
use cell_core::{Code, Gaps, Grid, NoMemory, Shape, TextDict};
use frame_merge::frame_of_pairs;
use frame_store::{ObjId, OpFault, Store, Table};
use merge_concat::Pairs;
use std::alloc::Global;

// Each row, with the row of the other side that it meets.
fn pairs_of(alloc: Global, right: Gaps) -> Result<Pairs, NoMemory>
    ensures right { IfOk result (λ pairs. pairs.right ≡ right) }
    ensures left { IfOk result (λ pairs. pairs.left ≡ all_rows right) }
{
    let mut left = Gaps::new(alloc);
    for row in 0..right.len() {
        left.push(Some(row))?;
    }
    Ok(Pairs { left, right })
}

/// `pd.merge_asof(left, right, on, by, tolerance, direction)` of two objects: the frame of all rows of the left frame, in
/// order, each with the nearest row of the right one ("merge_asof" in the pandas user guide, "Merge, join, concatenate and
/// compare"). Of the right rows whose cells in the columns of `by` are equal, NA with NA, it is the last whose number in the
/// column of `on` isn't above the left row's, looking back, or the first whose number isn't below it, looking forward, and
/// as far from it as `tolerance` at most, where there is one. The columns are those of the left, and then those of the right
/// that are no keys; a label that both have, neither of them a key, gets `_x` on the left and `_y` on the right, behind its
/// text. A cell of the right is NA where there is no such row. The rows are numbered.
///
/// # Errors
///
/// In this order: `WrongKind` of an object that is no frame; for `on`, and then for each label of `by`, `NoKey` where no
/// column of the left has it, or none of the right, and `BadValue(Repeated)` where several columns of the left have it, or
/// of the right; `BadValue(KeyKinds)` of a column of `on` that isn't Int64, or of columns of `by` of different kinds;
/// `Limit` of more than four labels of `by`; `BadValue(Unsorted)` of the first row whose key is missing or less than the
/// one before it, the left first; `Limit`. `NoMemory` may come in place of any answer.
#[tactic(auto, using(frame_store::proofs::Settling::longer_self))]
pub fn asof_merged(
    alloc: Global,
    store: &Store,
    dict: &mut TextDict,
    left: ObjId,
    right: ObjId,
    asof: &Asof,
) -> Result<Table, OpFault>
    requires left { IsLiveObject (tables store.now) left }
    requires right { IsLiveObject (tables store.now) right }
    requires settled { IsSettledWorld (world store.now dict.old) }
    requires given { IsSettled cells_value dict.old (labels_of asof.now) }
    ensures longer { IsLonger dict.old dict.new }
    ensures answer { let l = one (table (object_value (tables store.now) dict.old left)) in
        let r = one (table (object_value (tables store.now) dict.old right)) in
        Makes dict.new result (meant.asof_result l r (asof_value dict.old asof.now)) }
{
    let l = store.read(left);
    let r = store.read(right);
    if l.shape() == Shape::Series || r.shape() == Shape::Series {
        return Err(OpFault::Refused(Code::WrongKind));
    }
    let keys = keys_of_asof(alloc, dict, &l, &r, asof)?;
    let rows = rows_met(alloc, dict, &l, &r, &keys, asof)?;
    let pairs = pairs_of(alloc, rows)?;
    frame_of_pairs(alloc, dict, &l, &r, &keys, &pairs)
}
