// Of which columns new views are made.
ghost use Rattle.std.specs.Prelude.{◌≡◌, ◌<◌, ◌+◌, ℕ, All, [], None, length, IfOk, true, false};
ghost use Rattle.block_pool.specs.Pools.{IsLive};
ghost use Rattle.block_manager.specs.Changes.{grids_of, numbers_of};
ghost use Rattle.block_manager.specs.Spots.{AreWholes, AreWholesOf, Joins, Plans, marked, run_in, spot_at, whole_at};

use crate::spots::{Run, Spot};
use block_pool::{Pool, ViewId};
use cell_core::NoMemory;
use std::alloc::Global;

/// Runs of all columns of views, and for each view its run, if it has one.
#[derive(Drop)]
pub(crate) struct Wholes {
    pub(crate) runs: Vec<Run>,
    pub(crate) places: Vec<Option<usize>>,
}

/// Where columns stand on new views: the columns of old views that each of them shows, and the spot of each column.
#[derive(Drop)]
pub(crate) struct Plan {
    pub(crate) runs: Vec<Run>,
    pub(crate) spots: Vec<Spot>,
}

// How many views are remembered by the run of their last column.
const REMEMBERED: usize = 8;

/// No view stays whole. Takes no memory.
pub(crate) fn no_wholes(alloc: Global) -> Wholes
    ensures runs { result.runs.items ≡ [] }
    ensures places { result.places.items ≡ [] }
{
    Wholes {
        runs: Vec::new(alloc),
        places: Vec::new(alloc),
    }
}

/// A run of each view that has columns and isn't split. `NoMemory` is the only refusal.
pub(crate) fn whole_runs(
    alloc: Global,
    pool: &Pool,
    views: &[ViewId],
    split: &[bool],
) -> Result<Wholes, NoMemory>
    requires { All (IsLive pool.now) (numbers_of views.now) }
    ensures { IfOk result (λ made. AreWholesOf (grids_of pool.now (numbers_of views.now))
        (length views.now) split.now made.runs.items made.places.items) }
{
    let mut runs = Vec::new(alloc);
    let mut places = Vec::with_capacity(alloc, views.len())?;
    for view in 0..views.len() {
        let count = pool.columns(views[view]);
        if count == 0 || is_marked(split, view) {
            places.push(None)?;
            continue;
        }
        places.push(Some(runs.len()))?;
        runs.push(Run {
            view,
            from: 0,
            count,
            alone: false,
        })?;
    }
    Ok(Wholes { runs, places })
}

/// A plan of the picked columns. Those of whole views stay on the runs of these; others that stand side by side on a view, in
/// their order, are on one run as far as that can be seen at once. A marked column is on a run of its own. `NoMemory` is
/// the only refusal.
pub(crate) fn planned(
    alloc: Global,
    picks: &[Spot],
    marks: &[bool],
    wholes: Wholes,
) -> Result<Plan, NoMemory>
    requires wholes { AreWholes wholes.runs.items wholes.places.items }
    requires marks { (k : ℕ) → k < length picks.now → marked marks.now k ≡ true
        → whole_at wholes.places.items (spot_at picks.now k).view ≡ None }
    ensures { IfOk result (λ p. Plans wholes.runs.items wholes.places.items
        p.runs.items p.spots.items picks.now marks.now) }
{
    let Wholes { runs, places } = wholes;
    let mut runs = runs;
    let mut spots = Vec::with_capacity(alloc, picks.len())?;
    let mut last = [0usize; REMEMBERED];
    for k in 0..picks.len() {
        let pick = picks[k];
        let near = pick.view % REMEMBERED;
        let whole = run_of(&places, pick.view);
        let run = joined(&mut runs, whole, last[near], pick, is_marked(marks, k))?;
        last[near] = run;
        spots.push(Spot {
            view: run,
            column: pick.column - runs[run].from,
        })?;
    }
    Ok(Plan { runs, spots })
}

// The run of a whole view.
fn run_of(places: &[Option<usize>], view: usize) -> Option<usize>
    ensures { result ≡ whole_at places.now view }
{
    if view < places.len() {
        places[view]
    } else {
        None
    }
}

// Whether a column, or a view, is marked.
fn is_marked(marks: &[bool], k: usize) -> bool
    ensures { result ≡ marked marks.now k }
{
    k < marks.len() && marks[k]
}

// Has a column stand on the run of its whole view; else puts it on the run at a place, where it is the next one of
// it, or on a new run. Answers the run.
fn joined(
    runs: &mut Vec<Run>,
    whole: Option<usize>,
    near: usize,
    pick: Spot,
    alone: bool,
) -> Result<usize, NoMemory>
    ensures { IfOk result (λ run. Joins whole runs.old.items runs.new.items run pick alone) }
{
    if let Some(run) = whole {
        return Ok(run);
    }
    if near < runs.len() && !alone && is_next(runs[near], pick) {
        let Some(count) = runs[near].count.checked_add(1) else {
            return Err(NoMemory);
        };
        runs[near].count = count;
        return Ok(near);
    }
    let run = runs.len();
    runs.push(Run {
        view: pick.view,
        from: pick.column,
        count: 1,
        alone,
    })?;
    Ok(run)
}

// Whether a column is the next one of a run that isn't alone.
fn is_next(run: Run, pick: Spot) -> bool
    ensures view { result ≡ true → run.view ≡ pick.view }
    ensures next { result ≡ true → run.from + run.count ≡ pick.column }
    ensures plain { result ≡ true → run.alone ≡ false }
{
    !run.alone
        && run.view == pick.view
        && run.from <= pick.column
        && pick.column - run.from == run.count
}
