// Entries of the outer join, kept as three lists.
ghost use Rattle.std.specs.Prelude.{◌≡◌, ◌∷◌, ◌-◌, ◌≤◌, [], length, map, IfOk, OnOk};
ghost use Rattle.meaning_align.specs.Joins.{entry, entries_with, entries_of, lists_of};
ghost use Rattle.label_align.specs.Joined.{HasMore, entries_seen};
ghost use Rattle.label_align.specs.Runs.{run_entries, total};

use crate::runs::Run;
use cell_core::{Gaps, NoMemory};
use multi_index::Axis;
use std::alloc::Global;

/// The rows of an outer join: their axis, and for each the row of either side that it comes from, if there is one.
#[derive(Drop)]
pub struct Joined {
    /// The tuple of each row, on levels without names.
    pub axis: Axis,
    /// The row of the left side.
    pub left: Gaps,
    /// The row of the right side.
    pub right: Gaps,
}

/// The same with a row that carries the tuple, of both sides together, in place of the tuple.
#[derive(Drop)]
pub(crate) struct JoinedRows {
    pub rows: Vec<usize>,
    pub left: Vec<Option<usize>>,
    pub right: Vec<Option<usize>>,
}

// Adds an entry.
fn push_entry(
    out: &mut JoinedRows,
    key: usize,
    left: Option<usize>,
    right: Option<usize>,
) -> Result<(), NoMemory>
    ensures { OnOk result (HasMore out.old out.new (entry key left right ∷ [])) }
{
    out.rows.push(key)?;
    out.left.push(left)?;
    out.right.push(right)?;
    Ok(())
}

// Adds a left row, or a gap, with each right row; those of the right are counted from `first` on.
fn push_left(
    out: &mut JoinedRows,
    key: usize,
    left: Option<usize>,
    rights: &[usize],
    first: usize,
) -> Result<(), NoMemory>
    ensures { OnOk result (HasMore out.old out.new
        (entries_with key (map (λ row. row - first) rights.now) left)) }
{
    if rights.is_empty() {
        return push_entry(out, key, left, None);
    }
    for right in rights {
        push_entry(out, key, left, Some(right.saturating_sub(first)))?;
    }
    Ok(())
}

// Adds each left row of a key with each right row of it.
fn push_key(
    out: &mut JoinedRows,
    key: usize,
    lefts: &[usize],
    rights: &[usize],
    first: usize,
) -> Result<(), NoMemory>
    ensures { OnOk result (HasMore out.old out.new
        (entries_of key lefts.now (map (λ row. row - first) rights.now))) }
{
    if lefts.is_empty() {
        return push_left(out, key, None, rights, first);
    }
    for left in lefts {
        push_left(out, key, Some(*left), rights, first)?;
    }
    Ok(())
}

// The entries of runs that stand one behind the other in rows, where the rows of the right side are numbered from a
// count on, with room for as many as there are.
pub(crate) fn entries_of_runs(
    alloc: Global,
    count: usize,
    runs: &[Run],
    rows: &[usize],
    size: usize,
) -> Result<JoinedRows, NoMemory>
    requires { total runs.now ≤ length rows.now }
    ensures { IfOk result (λ made. entries_seen made
        ≡ lists_of (run_entries count runs.now rows.now)) }
{
    let mut out = JoinedRows {
        rows: Vec::with_capacity(alloc, size)?,
        left: Vec::with_capacity(alloc, size)?,
        right: Vec::with_capacity(alloc, size)?,
    };
    let mut from = 0usize;
    for run in runs {
        let mid = from + run.lefts;
        let end = mid + run.rights;
        push_key(&mut out, run.row, &rows[from..mid], &rows[mid..end], count)?;
        from = end;
    }
    Ok(out)
}
