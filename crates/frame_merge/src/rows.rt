// The rows of two frames that have equal keys.
ghost use Rattle.std.specs.Prelude.{◌≡◌, IfOk, IfSome};
ghost use Rattle.frame_store.specs.tables.Table.{table_value};
ghost use Rattle.frame_store.specs.World.{IsKnownTable};
ghost use Rattle.frame_merge.specs.Keys.{keys_seen, AreMergeKeys};
ghost use Rattle.frame_merge.specs.Rows.{repeated_in, pairs_in, met_result, AreRowsMet, MeetsBy, IsJoinFault};

use crate::keys::MergeKeys;
use cell_core::{Code, Grid, NoMemory, TextDict};
use column_core::ColRef;
use factorize::KeyColumns;
use frame_labels::columns_at;
use frame_store::{ObjRef, OpFault};
use meaning_join::{How, Validate};
use merge_concat::{MergeFault, Pairs, join_rows};
use std::alloc::Global;

// What a join answers: no pairs where there are too many.
fn met(joined: Result<Pairs, MergeFault>) -> Result<Option<Pairs>, OpFault>
    requires { IsJoinFault joined }
    ensures { result ≡ met_result joined }
{
    match joined {
        Ok(pairs) => Ok(Some(pairs)),
        Err(MergeFault::TooLarge) => Ok(None),
        Err(MergeFault::NotOneToOne(side, key)) => {
            Err(OpFault::Refused(Code::BadMerge(side, key)))
        }
        Err(MergeFault::NoMemory) => Err(OpFault::NoMemory),
        Err(MergeFault::DuplicateLabels(_) | MergeFault::MixedKinds) => unreachable!(),
    }
}

// The rows of both frames that have equal keys, NA with NA, and as `how` says those that meet none; no pairs where
// there are more than the caller has room for. A key that stands twice on a side where each may stand once is refused.
#[tactic(auto, using(crate::proofs::RowLaws::both_fit, frame_labels::proofs::KeyLaws::keys_counted))]
pub(crate) fn rows_met(
    alloc: Global,
    dict: &TextDict,
    l: &ObjRef<'_>,
    r: &ObjRef<'_>,
    keys: &MergeKeys,
    how: How,
    once: Validate,
    most: usize,
) -> Result<Option<Pairs>, OpFault>
    requires left { IsKnownTable dict.now l.now }
    requires right { IsKnownTable dict.now r.now }
    requires keys { AreMergeKeys l.now r.now keys.now }
    ensures rows { let L = table_value dict.now l.now in
        let R = table_value dict.now r.now in
        MeetsBy dict.now most result (repeated_in once L R (keys_seen dict.now keys.now))
        (pairs_in how L R (keys_seen dict.now keys.now)) }
    ensures inside { IfOk result (λ met. IfSome met (AreRowsMet l.now r.now)) }
{
    // Equal texts have equal numbers: `TextDict::len` says so.
    let _ = dict.len();
    let lefts = columns_at(alloc, l, &keys.left)?;
    let rights = columns_at(alloc, r, &keys.right)?;
    let of_left: &[ColRef<'_>] = &lefts;
    let of_right: &[ColRef<'_>] = &rights;
    let left = KeyColumns::of(of_left, l.rows());
    let right = KeyColumns::of(of_right, r.rows());
    met(join_rows(alloc, dict, &left, &right, how, once, most))
}
