// The frame of two frames' rows that have equal keys.
ghost use Rattle.std.specs.Prelude.{◌≡◌};
ghost use Rattle.cell_core.specs.declared.grid.Shape.TheVariants.{Frame};
ghost use Rattle.column_core.specs.cells.Cell.{IsLonger};
ghost use Rattle.frame_store.specs.tables.Table.{table_value};
ghost use Rattle.frame_labels.specs.method.Merge as meant;
ghost use Rattle.frame_store.specs.Arguments.{object_value, shape_at, IsLiveObject};
ghost use Rattle.frame_store.specs.Objects.{tables};
ghost use Rattle.frame_store.specs.Shown.{Makes};
ghost use Rattle.frame_store.specs.World.{world, IsSettledWorld, IsKnownTable};
ghost use Rattle.frame_signatures.specs.Bound.{given_in};
ghost use Rattle.frame_merge.specs.Calls.{IsMergeCall};
ghost use Rattle.frame_parts.specs.form.Finish.{limited};
ghost use Rattle.frame_merge.specs.Keys.{keys_value, AreAlike, AreMergeKeys};
ghost use Rattle.frame_merge.specs.Rows.{pairs_value, AreRowsMet};

use crate::arguments::{how_named, once_in};
use crate::columns::columns_met;
use crate::headings::merged_labels;
use crate::keys::{MergeKeys, keys_of_merge, labels_told};
use crate::rows::rows_met;
use cell_core::{Code, Grid, Shape, TextDict};
use frame_labels::places_besides;
use frame_parts::{common_name, rows_within, within_limits};
use frame_select::heading_list;
use frame_signatures::{Bound, arguments};
use frame_store::{ObjId, ObjRef, OpFault, Store, Table};
use meaning_join::{How, Validate};
use merge_concat::Pairs;
use multi_index::Axis;
use std::alloc::Global;

/// The frame of pairs of rows of two frames: the columns of the left, then those of the right that are no keys, on these
/// rows, NA where there is none. A label that columns of both have, neither of them a key, gets a suffix. The cell of a key
/// comes from the side that has the row. The rows are numbered.
///
/// # Errors
///
/// `Limit` of a frame beyond the limits. `NoMemory` may come in place of any answer.
#[tactic(auto, using(frame_store::proofs::Settling::longer_self))]
pub fn frame_of_pairs(
    alloc: Global,
    dict: &mut TextDict,
    l: &ObjRef<'_>,
    r: &ObjRef<'_>,
    keys: &MergeKeys,
    pairs: &Pairs,
) -> Result<Table, OpFault>
    requires left { IsKnownTable dict.old l.now }
    requires right { IsKnownTable dict.old r.now }
    requires frames { (l.now.shape ≡ Frame) × (r.now.shape ≡ Frame) }
    requires keys { AreAlike l.now r.now keys.now }
    requires rows { AreRowsMet l.now r.now pairs.now }
    ensures longer { IsLonger dict.old dict.new }
    ensures answer { Makes dict.new result (limited (meant.merged (table_value dict.old l.now)
        (table_value dict.old r.now) (keys_value keys.now) (pairs_value pairs.now))) }
{
    let rights = places_besides(alloc, r.columns(), &keys.right)?;
    let name = common_name(dict, l.columns_name(), r.columns_name());
    let labels = merged_labels(alloc, dict, l, r, keys, &rights)?;
    let headings = heading_list(alloc, name, labels.as_slice())?;
    let count = pairs.left.len();
    if !within_limits(count, labels.len()) {
        return Err(OpFault::Refused(Code::Limit));
    }
    let axis = Axis::range(alloc, count)?;
    let blocks = columns_met(alloc, l, r, keys, &rights, pairs)?;
    Ok(Table::new(Shape::Frame, axis, headings, blocks))
}

// The rows of two frames that have equal keys, as a frame.
#[tactic(auto, using(frame_store::proofs::Settling::longer_self))]
fn merged_rows(
    alloc: Global,
    dict: &mut TextDict,
    l: &ObjRef<'_>,
    r: &ObjRef<'_>,
    keys: &MergeKeys,
    how: How,
    once: Validate,
) -> Result<Table, OpFault>
    requires left { IsKnownTable dict.old l.now }
    requires right { IsKnownTable dict.old r.now }
    requires frames { (l.now.shape ≡ Frame) × (r.now.shape ≡ Frame) }
    requires keys { AreMergeKeys l.now r.now keys.now }
    ensures longer { IsLonger dict.old dict.new }
    ensures answer { Makes dict.new result (meant.merged_rows (table_value dict.old l.now)
        (table_value dict.old r.now) how once (keys_value keys.now)) }
{
    let rights = places_besides(alloc, r.columns(), &keys.right)?;
    let most = rows_within(l.columns().saturating_add(rights.len()));
    let met = rows_met(alloc, dict, l, r, keys, how, once, most)?;
    let Some(pairs) = met else {
        return Err(OpFault::Refused(Code::Limit));
    };
    frame_of_pairs(alloc, dict, l, r, keys, &pairs)
}

// What `merge` of a frame makes of its bound arguments.
#[tactic(auto, using(frame_store::proofs::Settling::longer_self))]
pub(crate) fn merged(
    alloc: Global,
    store: &Store,
    dict: &mut TextDict,
    bound: &Bound<'_>,
    on: ObjId,
) -> Result<Table, OpFault>
    requires live { IsLiveObject (tables store.now) on }
    requires shape { shape_at (tables store.now) on ≡ Frame }
    requires settled { IsSettledWorld (world store.now dict.old) }
    requires call { IsMergeCall (world store.now dict.old) bound.now }
    ensures longer { IsLonger dict.old dict.new }
    ensures answer { let w = world store.now dict.old in Makes dict.new result
        (meant.merge_result (object_value w.tables dict.old on) (given_in w bound.now)) }
{
    let l = store.read(on);
    let r = store.read(bound.frame(arguments::MERGE_RIGHT));
    let how = how_named(bound.text(dict, arguments::MERGE_HOW));
    let once = once_in(bound.text_or_none(dict, arguments::MERGE_VALIDATE));
    let told = labels_told(alloc, bound)?;
    let keys = keys_of_merge(alloc, dict, told, &l, &r)?;
    merged_rows(alloc, dict, &l, &r, &keys, how, once)
}
