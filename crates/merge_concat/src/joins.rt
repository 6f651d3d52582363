// Rows of two sides whose keys are equal.
ghost use Rattle.std.specs.Prelude.{◌≡◌, ◌≤◌, ◌++◌, IfOk};
ghost use Rattle.multi_index.specs.Axes.{HaveLevels};
ghost use Rattle.meaning_join.specs.Pairs.{joined, joined_within};
ghost use Rattle.row_keys.specs.Keys.{same_tuple};
ghost use Rattle.factorize.specs.label_align.Tuples.{tuple_less};
ghost use Rattle.factorize.specs.Keys.{levels_of};
ghost use Rattle.merge_concat.specs.Codes.{is_outer};
ghost use Rattle.merge_concat.specs.Joining.{IsJoinOf};
ghost use Rattle.merge_concat.specs.JoinOrder.{IsOrderedJoin};
ghost use Rattle.merge_concat.specs.Pairs.{JoinsBy};

use crate::fault::MergeFault;
use crate::numbers::numbers_of_both;
use crate::pairs::{Pairs, joined_by_code};
use crate::repeats::repeated_key;
use crate::sides::SideCodes;
use cell_core::{Side, TextDict, Tuples};
use factorize::{KeyLevels, KeyTuples};
use meaning_join::{How, Validate};
use std::alloc::Global;

// As many rows as a table may have.
const MOST_ROWS: usize = 67108864;

// Whether the rows of both sides stay, and the keys are sorted.
fn is_outer(how: How) -> bool
    ensures { result ≡ is_outer how }
{
    matches!(how, How::Outer)
}

/// The rows of two sides that have equal keys, NA with NA, and as `how` says the rows without such a row on the
/// other side, with a gap there: by left row, then right row; with the sides exchanged for `Right`; and by the order
/// of the keys for `Outer` ("Merge, join, concatenate and compare" in the pandas user guide). The pairs are counted
/// before one is made, in time that grows with the rows of both sides alone: the caller has room for `most` of them. Texts
/// are told apart by their numbers and ordered by what they say. No tuple is made for a row. A key has as many labels as
/// each other one, four at most.
///
/// # Errors
///
/// `NotOneToOne` exactly where a key stands twice on a side on which `once` lets none stand twice, the left side
/// first, with the key of the first row whose key does. Else `TooLarge` exactly where there are more pairs than `most`.
/// `NoMemory` may come in place of any answer, and `DuplicateLabels` and `MixedKinds` never come.
#[tactic(auto, using(crate::proofs::Hints::join_rows))]
pub fn join_rows<L: KeyLevels, R: KeyLevels>(
    alloc: Global,
    dict: &TextDict,
    left: &L,
    right: &R,
    how: How,
    once: Validate,
    most: usize,
) -> Result<Pairs, MergeFault>
    requires alike { let keys = L.keys left.now ++ R.keys right.now in
        HaveLevels (levels_of keys) keys }
    requires few { levels_of (L.keys left.now ++ R.keys right.now) ≤ 4 }
    ensures pairs { JoinsBy result (joined_within most
        same_tuple (tuple_less dict.now) how once (L.keys left.now) (R.keys right.now)) }
    ensures law { IfOk result (IsJoinOf same_tuple how (L.keys left.now) (R.keys right.now)) }
    ensures order { IfOk result (IsOrderedJoin
        same_tuple (tuple_less dict.now) how (L.keys left.now) (R.keys right.now)) }
{
    let numbers = numbers_of_both(alloc, dict, left, right, is_outer(how))?;
    let codes: &[usize] = &numbers.codes;
    let (of_left, of_right) = codes.split_at(left.count());
    let lefts = SideCodes::of(numbers.count, of_left);
    let rights = SideCodes::of(numbers.count, of_right);
    let on_left = repeated_key(alloc, once.left, left, &lefts)?;
    if let Some(key) = on_left {
        return Err(MergeFault::NotOneToOne(Side::Left, key));
    }
    let on_right = repeated_key(alloc, once.right, right, &rights)?;
    if let Some(key) = on_right {
        return Err(MergeFault::NotOneToOne(Side::Right, key));
    }
    joined_by_code(alloc, how, &lefts, &rights, most)
}

// How many labels the tuples of two sides have.
fn levels_of_both(left: &Tuples, right: &Tuples) -> usize
    ensures levels { result ≡ levels_of (left.now ++ right.now) }
    ensures few { result ≤ 4 }
{
    if left.len() > 0 {
        left.at(0).len()
    } else if right.len() > 0 {
        right.at(0).len()
    } else {
        1
    }
}

/// The tuples of two sides that are equal, joined as [`join_rows`] joins the rows of tables, with as many pairs as a
/// table may have rows.
///
/// # Errors
///
/// Those of [`join_rows`], exactly where it has them for 2^26 pairs at most.
pub fn join_pairs(
    alloc: Global,
    dict: &TextDict,
    left: &Tuples,
    right: &Tuples,
    how: How,
    once: Validate,
) -> Result<Pairs, MergeFault>
    requires { HaveLevels (levels_of (left.now ++ right.now)) (left.now ++ right.now) }
    ensures pairs { JoinsBy result
        (joined same_tuple (tuple_less dict.now) how once left.now right.now) }
    ensures law { IfOk result (IsJoinOf same_tuple how left.now right.now) }
    ensures order { IfOk result (IsOrderedJoin
        same_tuple (tuple_less dict.now) how left.now right.now) }
{
    // No tuple has more than four labels.
    let _ = levels_of_both(left, right);
    let (lefts, rights) = (KeyTuples::of(left), KeyTuples::of(right));
    join_rows(alloc, dict, &lefts, &rights, how, once, MOST_ROWS)
}
