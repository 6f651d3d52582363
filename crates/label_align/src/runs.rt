// Runs of rows in order that carry one key.
ghost use Rattle.std.specs.Prelude.{◌≡◌, ◌<◌, ◌≤◌, ◌+◌, ◌^◌, All, IfOk, SomeIff, drop, length, slice_index};
ghost use Rattle.multi_index.specs.Axes.{HaveLevels};
ghost use Rattle.label_align.specs.Both.{tuples_of};
ghost use Rattle.label_align.specs.Runs as runs;

use crate::both::{BothSides, is_same_row};
use cell_core::NoMemory;
use std::alloc::Global;

/// Rows in order that carry one key: one of them, and how many are of the left side and of the right.
#[derive(Clone, Copy)]
pub(crate) struct Run {
    pub row: usize,
    pub lefts: usize,
    pub rights: usize,
}

const NO_RUN: Run = Run {
    row: 0,
    lefts: 0,
    rights: 0,
};

// A run with one row more; those below the count are of the left side.
fn with_row(count: usize, run: Run, row: usize) -> Run
    requires { run.lefts + run.rights + 1 < 2 ^ 64 }
    ensures { result ≡ runs.with_row count run row }
{
    if row < count {
        Run {
            row,
            lefts: run.lefts + 1,
            rights: run.rights,
        }
    } else {
        Run {
            row,
            lefts: run.lefts,
            rights: run.rights + 1,
        }
    }
}

// Whether a run ends with the row at a place.
fn ends_at(both: &BothSides<'_>, rows: &[usize], place: usize) -> bool
    requires place { place < length rows.now }
    requires rows { All (λ row. row < length (tuples_of both.now)) rows.now }
    requires alike { HaveLevels both.now.levels (tuples_of both.now) }
    ensures { result ≡ runs.ends (runs.same_row (tuples_of both.now))
        (slice_index rows.now place) (drop (place + 1) rows.now) }
{
    if place + 1 == rows.len() {
        return true;
    }
    !is_same_row(both, rows[place], rows[place + 1])
}

// The runs of rows in order.
pub(crate) fn runs_of(
    alloc: Global,
    both: &BothSides<'_>,
    rows: &[usize],
) -> Result<Vec<Run>, NoMemory>
    requires rows { All (λ row. row < length (tuples_of both.now)) rows.now }
    requires alike { HaveLevels both.now.levels (tuples_of both.now) }
    ensures { let same = runs.same_row (tuples_of both.now) in
        IfOk result (λ made. made.items
        ≡ runs.runs_from same (length both.now.left.now.tuples) runs.no_run rows.now) }
{
    let count = both.left.len();
    let mut made = Vec::new(alloc);
    let mut run = NO_RUN;
    for place in 0..rows.len() {
        run = with_row(count, run, rows[place]);
        if ends_at(both, rows, place) {
            made.push(run)?;
            run = NO_RUN;
        }
    }
    Ok(made)
}

// How many entries runs have, where they are so many at most.
pub(crate) fn size_of_runs(parts: &[Run], most: usize) -> Option<usize>
    ensures { SomeIff result (runs.counted parts.now ≤ most) (runs.counted parts.now) }
{
    let mut total = 0usize;
    for run in parts {
        let left = run.lefts.max(1);
        let right = run.rights.max(1);
        match left.checked_mul(right) {
            Some(size) if size <= most - total => total += size,
            _ => return None,
        }
    }
    Some(total)
}
