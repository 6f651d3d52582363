// The row of each target.
ghost use Rattle.std.specs.Prelude.{◌≡◌, ◌<◌, ◌+◌, [], IfOk, MatchOption, Some, None, length, map, slice_index_or, All};
ghost use Rattle.std.specs.Bool.{Decides};
ghost use Rattle.std.specs.List.{range_with_len};
ghost use Rattle.multi_index.specs.Axes.{HaveLevels};
ghost use Rattle.meaning_align.specs.pick.Rows.{only_row};
ghost use Rattle.meaning_align.specs.Targets.{reindexed};
ghost use Rattle.row_keys.specs.Keys.{same_tuple};
ghost use Rattle.label_align.specs.Answers.{AlignsBy, as_it_is};
ghost use Rattle.label_align.specs.Targets.{IsFirstRepeat, NoneRepeats, row_below};

use crate::fault::AlignFault;
use cell_core::{Gaps, NoMemory, Tuple};
use multi_index::Axis;
use row_keys::{Buckets, LevelRows, numbered, rows_by_code};
use std::alloc::Global;

// Whether the axis has these tuples, row by row.
#[tactic(auto, using(index_core::proofs::SameLaws::holds, index_core::proofs::SameLaws::all_same))]
fn has_tuples<R: LevelRows>(alloc: Global, axis: &Axis, tuples: &R) -> bool
    requires { HaveLevels (length axis.now.names) (R.tuples tuples.now) }
    ensures { Decides result (axis.now.tuples ≡ R.tuples tuples.now) }
{
    if axis.len() != tuples.count() {
        return false;
    }
    for row in 0..axis.len() {
        if !has_tuple(axis, row, &tuples.tuple(alloc, row)) {
            return false;
        }
    }
    true
}

// Whether a row of the axis has this tuple.
#[tactic(auto, using(index_core::proofs::SameLaws::holds, index_core::proofs::SameLaws::all_same))]
fn has_tuple(axis: &Axis, row: usize, tuple: &Tuple) -> bool
    requires row { row < length axis.now.tuples }
    requires levels { length tuple.now ≡ length axis.now.names }
    ensures { Decides result (slice_index_or axis.now.tuples row [] ≡ tuple.now) }
{
    for level in 0..axis.levels() {
        if axis.label(row, level) != tuple.at(level) {
            return false;
        }
    }
    true
}

// All rows in order.
fn all_rows(alloc: Global, count: usize) -> Result<Gaps, NoMemory>
    ensures { IfOk result (λ rows. rows ≡ map Some (range_with_len 0 count)) }
{
    let mut rows = Vec::with_capacity(alloc, count)?;
    for row in 0..count {
        rows.push(Some(row))?;
    }
    Ok(Gaps::from(rows))
}

// The first of these codes that has more rows than one, by its place.
fn first_repeat(rows: &Buckets, codes: &[usize]) -> Option<usize>
    requires { All (λ code. code < length rows.now) codes.now }
    ensures { MatchOption result
        (NoneRepeats rows.now codes.now) (IsFirstRepeat rows.now codes.now) }
{
    for place in 0..codes.len() {
        if rows.rows(codes[place]).len() > 1 {
            return Some(place);
        }
    }
    None
}

// The only row of each code, or a gap.
fn rows_of_codes(alloc: Global, rows: &Buckets, codes: &[usize]) -> Result<Gaps, NoMemory>
    requires { All (λ code. code < length rows.now) codes.now }
    ensures { IfOk result (λ gaps. gaps
        ≡ map (λ code. only_row (slice_index_or rows.now code [])) codes.now) }
{
    let mut gaps = Vec::with_capacity(alloc, codes.len())?;
    for code in codes {
        gaps.push(row_if_one(rows.rows(*code)))?;
    }
    Ok(Gaps::from(gaps))
}

// Whether these are the numbers from 0 on, as codes by first sight are where no key stands twice.
#[tactic(auto, using(crate::proofs::Hints::are_in_sequence))]
fn are_in_sequence(codes: &[usize]) -> bool
    ensures { Decides result (codes.now ≡ range_with_len 0 (length codes.now)) }
{
    for place in 0..codes.len() {
        if codes[place] != place {
            return false;
        }
    }
    true
}

// Each code below the count as a row, and a gap for the others.
fn rows_below(alloc: Global, count: usize, codes: &[usize]) -> Result<Gaps, NoMemory>
    ensures { IfOk result (λ gaps. gaps ≡ map (row_below count) codes.now) }
{
    let mut gaps = Vec::with_capacity(alloc, codes.len())?;
    for code in codes {
        gaps.push(if *code < count { Some(*code) } else { None })?;
    }
    Ok(Gaps::from(gaps))
}

// The row of a list that has just one.
fn row_if_one(rows: &[usize]) -> Option<usize>
    ensures { result ≡ only_row rows.now }
{
    if rows.len() == 1 { Some(rows[0]) } else { None }
}

/// The row of each target tuple on an axis, or a gap where it has none ("Reindexing and altering labels" in the
/// pandas user guide). Where the targets are the axis' tuples, these are all rows in order. Texts are told apart
/// by their numbers.
///
/// # Errors
///
/// Where the targets are other tuples, `DuplicateLabels` with the first tuple of the axis that stands on more
/// than one row, exactly where there is one. `NoMemory` may come in place of any answer, and `TooLarge` never
/// comes.
#[tactic(auto, using(crate::proofs::Hints::reindex))]
pub fn reindex<R: LevelRows>(alloc: Global, a: &Axis, target: &R) -> Result<Gaps, AlignFault>
    requires { HaveLevels (length a.now.names) (R.tuples target.now) }
    ensures { AlignsBy as_it_is result (reindexed same_tuple a.now.tuples (R.tuples target.now)) }
{
    if has_tuples(alloc, a, target) {
        let rows = all_rows(alloc, a.len())?;
        return Ok(rows);
    }
    let numbers = numbered(alloc, a, target, a.levels())?;
    let codes: &[usize] = &numbers.codes;
    let firsts: &[usize] = &numbers.firsts;
    let (of_axis, of_target) = codes.split_at(a.len());
    if are_in_sequence(of_axis) {
        let gaps = rows_below(alloc, a.len(), of_target)?;
        return Ok(gaps);
    }
    let rows = rows_by_code(alloc, firsts.len(), of_axis)?;
    if let Some(row) = first_repeat(&rows, of_axis) {
        return Err(AlignFault::DuplicateLabels(a.tuple(alloc, row)));
    }
    let gaps = rows_of_codes(alloc, &rows, of_target)?;
    Ok(gaps)
}
