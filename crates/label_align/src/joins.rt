// The outer join of two axes.
ghost use Rattle.std.specs.Prelude.{◌≡◌, ◌<◌, ◌≤◌, ◌++◌, All, IfOk, None, length, replicate};
ghost use Rattle.multi_index.specs.Axes.{HaveLevels};
ghost use Rattle.meaning_align.specs.Joins as meant;
ghost use Rattle.meaning_align.specs.OuterJoin.{IsOuterJoin};
ghost use Rattle.row_keys.specs.Keys.{same_tuple};
ghost use Rattle.label_align.specs.Tuples.{tuple_less};
ghost use Rattle.label_align.specs.Both.{tuples_of};
ghost use Rattle.label_align.specs.Joined.{entries_shown, lists_seen};
ghost use Rattle.label_align.specs.Answers.{AlignsBy};
ghost use Rattle.label_align.specs.Runs.{AreGivenTuples};

use crate::axes::axis_of_rows;
use crate::both::{BothSides, rows_in_order};
use crate::fault::AlignFault;
use crate::joined::{Joined, JoinedRows, entries_of_runs};
use crate::runs::{runs_of, size_of_runs};
use cell_core::{Gaps, TextDict};
use multi_index::Axis;
use std::alloc::Global;

// As many rows as a table may have.
const MOST_ROWS: usize = 67108864;

// How many levels both axes have.
fn levels_of_both(a: &Axis, b: &Axis) -> usize
    requires { length a.now.names ≡ length b.now.names }
    ensures count { result ≡ length a.now.names }
    ensures some { 1 ≤ result }
    ensures few { result ≤ 4 }
    ensures alike { HaveLevels result (a.now.tuples ++ b.now.tuples) }
{
    a.levels().max(b.levels())
}

// The rows of both sides joined: put in order, and cut into runs that carry one tuple.
#[tactic(auto, using(crate::proofs::Hints::joined_rows))]
fn joined_rows(
    alloc: Global,
    dict: &TextDict,
    both: &BothSides<'_>,
    most: usize,
) -> Result<JoinedRows, AlignFault>
    requires alike { HaveLevels both.now.levels (tuples_of both.now) }
    requires given { AreGivenTuples dict.now (tuples_of both.now) }
    ensures inside { IfOk result (λ made.
        All (λ row. row < length (tuples_of both.now)) made.rows.items) }
    ensures rows { let left = both.now.left.now.tuples in
        AlignsBy (entries_shown (tuples_of both.now)) result
        (meant.outer_within most same_tuple (tuple_less dict.now) left both.now.right.now.tuples) }
{
    // Equal texts have equal numbers: `TextDict::len` says so.
    let _ = dict.len();
    let rows = rows_in_order(alloc, dict, both)?;
    let runs = runs_of(alloc, both, rows.as_slice())?;
    match size_of_runs(&runs, most) {
        Some(size) => {
            let count = both.left.len();
            let made = entries_of_runs(alloc, count, &runs, rows.as_slice(), size)?;
            Ok(made)
        }
        None => Err(AlignFault::TooLarge),
    }
}

/// The rows of two axes joined by their tuples, as [`outer`] joins them, for a caller that has room for so many at most.
/// They are counted before one is made.
///
/// # Errors
///
/// `TooLarge` exactly where there are more rows than that. `NoMemory` may come in place of any answer, and
/// `DuplicateLabels` never comes.
pub fn outer_within(
    alloc: Global,
    dict: &TextDict,
    a: &Axis,
    b: &Axis,
    most: usize,
) -> Result<Joined, AlignFault>
    requires levels { length a.now.names ≡ length b.now.names }
    requires given_a { AreGivenTuples dict.now a.now.tuples }
    requires given_b { AreGivenTuples dict.now b.now.tuples }
    ensures rows { AlignsBy lists_seen result
        (meant.outer_within most same_tuple (tuple_less dict.now) a.now.tuples b.now.tuples) }
    ensures law { IfOk result (λ joined.
        IsOuterJoin same_tuple (tuple_less dict.now) a.now.tuples b.now.tuples (lists_seen joined)) }
    ensures names { IfOk result (λ joined. joined.axis.names ≡ replicate (length a.now.names) None) }
{
    let both = BothSides {
        left: a,
        right: b,
        levels: levels_of_both(a, b),
    };
    let JoinedRows { rows, left, right } = joined_rows(alloc, dict, &both, most)?;
    let axis = axis_of_rows(alloc, dict, &both, &rows)?;
    Ok(Joined {
        axis,
        left: Gaps::from(left),
        right: Gaps::from(right),
    })
}

/// The rows of two axes joined by their tuples: all tuples of both in order. One that stands p times on the
/// left and q times on the right has p times q rows, by left, then right row; one of a single side has its rows
/// there, with gaps on the other ("Merge, join, concatenate and compare" in the pandas user guide). The rows are
/// counted before one is made. Texts are told apart by their numbers and ordered by what they say. The rows of both
/// sides are put in order by ranks, and those that carry one tuple then stand side by side.
///
/// # Errors
///
/// `TooLarge` exactly where there are more than 2^26 rows. `NoMemory` may come in place of any answer, and
/// `DuplicateLabels` never comes.
pub fn outer(alloc: Global, dict: &TextDict, a: &Axis, b: &Axis) -> Result<Joined, AlignFault>
    requires levels { length a.now.names ≡ length b.now.names }
    requires given_a { AreGivenTuples dict.now a.now.tuples }
    requires given_b { AreGivenTuples dict.now b.now.tuples }
    ensures rows { AlignsBy lists_seen result
        (meant.outer same_tuple (tuple_less dict.now) a.now.tuples b.now.tuples) }
    ensures law { IfOk result (λ joined.
        IsOuterJoin same_tuple (tuple_less dict.now) a.now.tuples b.now.tuples (lists_seen joined)) }
    ensures names { IfOk result (λ joined. joined.axis.names ≡ replicate (length a.now.names) None) }
{
    outer_within(alloc, dict, a, b, MOST_ROWS)
}
