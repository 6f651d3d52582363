// Pairs of rows.
ghost use Rattle.std.specs.Prelude.{◌≡◌, ◌∷◌, ◌<◌, [], map, nat_eq, Some, OnOk, IfOk, MatchOption};
ghost use Rattle.meaning_join.specs.Pairs.{pair, partners, pairs_from, within};
ghost use Rattle.merge_concat.specs.Codes.{pairs_with, pairs_of, outer_pairs, code_pairs};
ghost use Rattle.merge_concat.specs.Codes.{counted_by_row, counted_by_key, IsCount};
ghost use Rattle.merge_concat.specs.Pairs.{ArePairs, AreListed, HasMore, JoinsBy};

use crate::fault::MergeFault;
use crate::sides::{CodedRows, SideCodes, coded_rows};
use cell_core::{Gaps, NoMemory};
use meaning_join::How;
use std::alloc::Global;

/// The rows of a join: for each the row of either side that it comes from, if there is one.
#[derive(Drop)]
pub struct Pairs {
    /// The row of the left side.
    pub left: Gaps,
    /// The row of the right side.
    pub right: Gaps,
}

// Pairs while they are made.
#[derive(Drop)]
struct PairLists {
    left: Vec<Option<usize>>,
    right: Vec<Option<usize>>,
}

// No pair, and room for so many.
fn no_pairs(alloc: Global, room: usize) -> Result<PairLists, NoMemory>
    ensures { IfOk result (λ out. AreListed out []) }
{
    let left = Vec::with_capacity(alloc, room)?;
    let right = Vec::with_capacity(alloc, room)?;
    Ok(PairLists { left, right })
}

// The pairs that are made.
fn pairs_made(lists: PairLists) -> Pairs
    ensures left { result.left ≡ lists.left.items }
    ensures right { result.right ≡ lists.right.items }
{
    Pairs {
        left: Gaps::from(lists.left),
        right: Gaps::from(lists.right),
    }
}

// Adds a pair.
fn push_pair(out: &mut PairLists, left: Option<usize>, right: Option<usize>) -> Result<(), NoMemory>
    ensures { OnOk result (HasMore out.old out.new (pair left right ∷ [])) }
{
    out.left.push(left)?;
    out.right.push(right)?;
    Ok(())
}

// Adds a left row, or a gap, with each right row.
#[tactic(auto, using(crate::proofs::Hints::push_left))]
fn push_left(out: &mut PairLists, left: Option<usize>, rights: &[usize]) -> Result<(), NoMemory>
    ensures { OnOk result (HasMore out.old out.new (pairs_with rights.now left)) }
{
    if rights.is_empty() {
        return push_pair(out, left, None);
    }
    for right in rights {
        push_pair(out, left, Some(*right))?;
    }
    Ok(())
}

// Adds each left row of a key with each right row of it.
fn push_key(out: &mut PairLists, lefts: &[usize], rights: &[usize]) -> Result<(), NoMemory>
    ensures { OnOk result (HasMore out.old out.new (pairs_of lefts.now rights.now)) }
{
    if lefts.is_empty() {
        return push_left(out, None, rights);
    }
    for left in lefts {
        push_left(out, Some(*left), rights)?;
    }
    Ok(())
}

// Adds a left row with the right rows that it meets; where it meets none, with a gap, if it stays.
fn push_row(out: &mut PairLists, stays: bool, row: usize, rights: &[usize]) -> Result<(), NoMemory>
    ensures { OnOk result (HasMore out.old out.new
        (map (pair (Some row)) (partners stays rights.now))) }
{
    if !stays && rights.is_empty() {
        return Ok(());
    }
    push_left(out, Some(row), rights)
}

// Each left row with the right rows of its number.
fn pairs_by_row(
    alloc: Global,
    room: usize,
    stays: bool,
    left: &SideCodes<'_>,
    right: &CodedRows<'_>,
) -> Result<Pairs, NoMemory>
    requires { left.now.count ≡ right.now.count }
    ensures { IfOk result (λ made. ArePairs made
        (pairs_from nat_eq stays 0 left.now.codes.now right.now.codes.now)) }
{
    let mut out = no_pairs(alloc, room)?;
    for row in 0..left.codes.len() {
        push_row(&mut out, stays, row, right.rows_of(left.code(row)))?;
    }
    Ok(pairs_made(out))
}

// How many pairs these are, if they are so many at most.
fn count_by_row(
    stays: bool,
    left: &SideCodes<'_>,
    right: &CodedRows<'_>,
    most: usize,
) -> Option<usize>
    requires { left.now.count ≡ right.now.count }
    ensures { let counted = counted_by_row stays left.now.codes.now right.now.codes.now in
        MatchOption result (most < counted) (λ count. IsCount most counted count) }
{
    let mut total = 0usize;
    for row in 0..left.codes.len() {
        let rights = right.rows_of(left.code(row)).len();
        let size = if stays { rights.max(1) } else { rights };
        if size > most - total {
            return None;
        }
        total += size;
    }
    Some(total)
}

// The rows of each number, one number after the other.
fn pairs_by_key(
    alloc: Global,
    room: usize,
    left: &CodedRows<'_>,
    right: &CodedRows<'_>,
) -> Result<Pairs, NoMemory>
    requires { left.now.count ≡ right.now.count }
    ensures { IfOk result (λ made. ArePairs made
        (outer_pairs left.now.count left.now.codes.now right.now.codes.now)) }
{
    let mut out = no_pairs(alloc, room)?;
    for code in 0..left.count {
        push_key(&mut out, left.rows_of(code), right.rows_of(code))?;
    }
    Ok(pairs_made(out))
}

// How many pairs these are, if they are so many at most.
#[tactic(auto, using(crate::proofs::CountLaws::counted_more))]
fn count_by_key(left: &CodedRows<'_>, right: &CodedRows<'_>, most: usize) -> Option<usize>
    requires { left.now.count ≡ right.now.count }
    ensures { let counted = counted_by_key left.now.count left.now.codes.now right.now.codes.now in
        MatchOption result (most < counted) (λ count. IsCount most counted count) }
{
    let mut total = 0usize;
    for code in 0..left.count {
        let lefts = left.rows_of(code).len().max(1);
        let rights = right.rows_of(code).len().max(1);
        match lefts.checked_mul(rights) {
            Some(size) if size <= most - total => total += size,
            _ => return None,
        }
    }
    Some(total)
}

// Each left row with the right rows of its number, unless there are too many.
#[tactic(auto, using(crate::proofs::Hints::joined_by_row))]
fn joined_by_row(
    alloc: Global,
    stays: bool,
    left: &SideCodes<'_>,
    right: &SideCodes<'_>,
    most: usize,
) -> Result<Pairs, MergeFault>
    requires { left.now.count ≡ right.now.count }
    ensures { JoinsBy result
        (within most (pairs_from nat_eq stays 0 left.now.codes.now right.now.codes.now)) }
{
    let rights = coded_rows(alloc, right)?;
    match count_by_row(stays, left, &rights, most) {
        Some(count) => Ok(pairs_by_row(alloc, count, stays, left, &rights)?),
        None => Err(MergeFault::TooLarge),
    }
}

// The rows of each number, unless there are too many.
#[tactic(auto, using(crate::proofs::Hints::joined_by_key))]
fn joined_by_key(
    alloc: Global,
    left: &SideCodes<'_>,
    right: &SideCodes<'_>,
    most: usize,
) -> Result<Pairs, MergeFault>
    requires { left.now.count ≡ right.now.count }
    ensures { JoinsBy result
        (within most (outer_pairs left.now.count left.now.codes.now right.now.codes.now)) }
{
    let lefts = coded_rows(alloc, left)?;
    let rights = coded_rows(alloc, right)?;
    match count_by_key(&lefts, &rights, most) {
        Some(count) => Ok(pairs_by_key(alloc, count, &lefts, &rights)?),
        None => Err(MergeFault::TooLarge),
    }
}

// The sides exchanged.
fn exchanged(pairs: Pairs) -> Pairs
    ensures left { result.left ≡ pairs.right }
    ensures right { result.right ≡ pairs.left }
{
    Pairs {
        left: pairs.right,
        right: pairs.left,
    }
}

// The rows of both sides whose keys have equal numbers, unless there are too many.
#[tactic(auto, using(crate::proofs::CountLaws::exchanged_joined))]
pub(crate) fn joined_by_code(
    alloc: Global,
    how: How,
    left: &SideCodes<'_>,
    right: &SideCodes<'_>,
    most: usize,
) -> Result<Pairs, MergeFault>
    requires { left.now.count ≡ right.now.count }
    ensures { JoinsBy result
        (within most (code_pairs how left.now.count left.now.codes.now right.now.codes.now)) }
{
    match how {
        How::Inner => joined_by_row(alloc, false, left, right, most),
        How::Left => joined_by_row(alloc, true, left, right, most),
        How::Right => Ok(exchanged(joined_by_row(alloc, true, right, left, most)?)),
        How::Outer => joined_by_key(alloc, left, right, most),
    }
}
