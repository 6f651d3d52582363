// Views that are made and ended.
ghost use Rattle.std.specs.Prelude.{◌≡◌, ◌<◌, ◌≤◌, ◌+◌, ◌∷◌, ◌++◌, [], length, map, sum_by, All, vec_len, vec_capacity, IfOk, OnErr};
ghost use Rattle.cell_core.specs.Grids.{AreRowsBelow};
ghost use Rattle.block_pool.specs.Pools.{IsLive, IsFree, Shares, cut, grid_at, total_of};
ghost use Rattle.block_manager.specs.Managed.{AreLive, Stays};
ghost use Rattle.block_manager.specs.Changes.{AddsAll, EndsEach, Lays, LaysRun, grids_of, numbers_of};
ghost use Rattle.block_manager.specs.Spots.{AreOwnRuns, IsRunOf, LieThere, copied_cells, rows_by, run_grid};

use crate::spots::Run;
use block_pool::{Cols, Pool, ViewId};
use cell_core::{NoMemory, Rows};
use column_core::Block;
use std::alloc::Global;

/// Ends these views, the last one first. Takes no memory.
pub(crate) fn release_all(pool: &mut Pool, views: Vec<ViewId>)
    requires { AreLive pool.old (numbers_of views.items) }
    ensures { EndsEach pool.old (numbers_of views.items) pool.new }
{
    let mut left = views;
    while let Some(view) = left.pop() {
        pool.release(view);
    }
}

/// Appends an item where there is room for it. Takes no memory.
pub(crate) fn append<T: Drop>(items: &mut Vec<T>, item: T)
    requires { vec_len items.old < vec_capacity items.old }
    ensures items { items.new.items ≡ items.old.items ++ item ∷ [] }
    ensures len { vec_len items.new ≡ vec_len items.old + 1 }
    ensures capacity { vec_capacity items.old ≤ vec_capacity items.new }
{
    if items.push(item).is_err() {
        unreachable!()
    }
}

/// Adds the blocks to the pool, with a view of each. `NoMemory` leaves all views and their blocks as they were.
pub(crate) fn add_all(
    alloc: Global,
    pool: &mut Pool,
    blocks: Vec<Block>,
) -> Result<Vec<ViewId>, NoMemory>
    ensures ok { IfOk result (λ views.
        AddsAll pool.old pool.new (numbers_of views.items) blocks.items) }
    ensures err { OnErr result (Stays pool.old pool.new) }
{
    let mut views = Vec::with_capacity(alloc, blocks.len())?;
    for block in blocks {
        match pool.add(block) {
            Ok(view) => append(&mut views, view),
            Err(_) => {
                release_all(pool, views);
                return Err(NoMemory);
            }
        }
    }
    Ok(views)
}

/// A view of each run of these views, at these rows or at all, in a list with room for so many views more. `NoMemory`
/// leaves the pool as it was.
pub(crate) fn shared(
    alloc: Global,
    pool: &mut Pool,
    views: &[ViewId],
    runs: &[Run],
    rows: Option<Rows>,
    more: usize,
) -> Result<Vec<ViewId>, NoMemory>
    requires live { AreLive pool.old (numbers_of views.now) }
    requires runs { All (IsRunOf (grids_of pool.old (numbers_of views.now)) rows) runs.now }
    ensures lays { IfOk result (λ made. Lays pool.old (numbers_of made.items) pool.new) }
    ensures grids { IfOk result (λ made. grids_of pool.new (numbers_of made.items)
        ≡ map (run_grid (grids_of pool.old (numbers_of views.now)) rows) runs.now) }
    ensures room { IfOk result (λ made. vec_len made + more ≤ vec_capacity made) }
    ensures blocks { pool.new.blocks ≡ pool.old.blocks }
    ensures err { OnErr result (pool.new ≡ pool.old) }
{
    let Some(count) = runs.len().checked_add(more) else {
        return Err(NoMemory);
    };
    let mut made = Vec::with_capacity(alloc, count)?;
    pool.reserve_views(runs.len())?;
    for k in 0..runs.len() {
        let run = runs[k];
        append(&mut made, part(pool, views[run.view], run, rows));
    }
    Ok(made)
}

// A view of a run of a view.
fn part(pool: &mut Pool, view: ViewId, run: Run, rows: Option<Rows>) -> ViewId
    requires live { IsLive pool.old view.0 }
    requires spare { 0 < pool.old.spare }
    requires some { 0 < run.count }
    requires columns { run.from + run.count ≤ length (grid_at pool.old view.0).columns }
    requires rows { AreRowsBelow (rows_by rows (grid_at pool.old view.0))
        (grid_at pool.old view.0).rows }
    ensures fresh { IsFree pool.old result.0 }
    ensures shares { Shares pool.old pool.new result.0 view.0
        (cut (grid_at pool.old view.0) run.from run.count
        (rows_by rows (grid_at pool.old view.0))) }
{
    let cols = Cols {
        from: run.from,
        count: run.count,
    };
    let rows = wanted(pool, view, run.from, rows);
    pool.view(view, cols, rows)
}

// These rows, or all rows of a view, which has a column at this place.
fn wanted(pool: &Pool, view: ViewId, column: usize, rows: Option<Rows>) -> Rows
    requires live { IsLive pool.now view.0 }
    requires column { column < length (grid_at pool.now view.0).columns }
    ensures { result ≡ rows_by rows (grid_at pool.now view.0) }
{
    match rows {
        Some(rows) => rows,
        None => Rows {
            start: 0,
            step: 1,
            count: pool.column(view, column).len(),
        },
    }
}

/// A view of each run of these views, at all rows. A run that is alone is copied to a block of its own. `NoMemory`
/// leaves the views and their blocks as they were.
pub(crate) fn laid(
    alloc: Global,
    pool: &mut Pool,
    views: &[ViewId],
    runs: &[Run],
) -> Result<Vec<ViewId>, NoMemory>
    requires live { AreLive pool.old (numbers_of views.now) }
    requires runs { All (IsRunOf (grids_of pool.old (numbers_of views.now)) None) runs.now }
    ensures lays { IfOk result (λ made. Lays pool.old (numbers_of made.items) pool.new) }
    ensures grids { IfOk result (λ made. grids_of pool.new (numbers_of made.items)
        ≡ map (run_grid (grids_of pool.old (numbers_of views.now)) None) runs.now) }
    ensures own { IfOk result (λ made. AreOwnRuns pool.new (numbers_of made.items) runs.now) }
    ensures lie { IfOk result (λ made. LieThere pool.old pool.new (numbers_of views.now)
        (numbers_of made.items) runs.now) }
    ensures held { IfOk result (λ made. total_of pool.new ≡ total_of pool.old
        + sum_by (copied_cells (grids_of pool.old (numbers_of views.now))) runs.now) }
    ensures err { OnErr result (Stays pool.old pool.new) }
{
    let mut made = Vec::with_capacity(alloc, runs.len())?;
    pool.reserve_views(runs.len())?;
    for k in 0..runs.len() {
        let run = runs[k];
        match laid_run(pool, views[run.view], run) {
            Ok(view) => append(&mut made, view),
            Err(refused) => {
                release_all(pool, made);
                return Err(refused);
            }
        }
    }
    Ok(made)
}

// A view of a run of a view, which is copied to a block of its own where the run is alone. `NoMemory` leaves the
// views and their blocks as they were.
fn laid_run(pool: &mut Pool, view: ViewId, run: Run) -> Result<ViewId, NoMemory>
    requires live { IsLive pool.old view.0 }
    requires spare { 0 < pool.old.spare }
    requires some { 0 < run.count }
    requires columns { run.from + run.count ≤ length (grid_at pool.old view.0).columns }
    ensures fresh { IfOk result (λ made. IsFree pool.old made.0) }
    ensures lays { IfOk result (λ made. LaysRun pool.old pool.new made.0 view.0
        (cut (grid_at pool.old view.0) run.from run.count
        (rows_by None (grid_at pool.old view.0))) run.alone) }
    ensures err { OnErr result (Stays pool.old pool.new) }
{
    let made = part(pool, view, run, None);
    if !run.alone {
        return Ok(made);
    }
    match pool.own(made) {
        Ok(()) => Ok(made),
        Err(refused) => {
            pool.release(made);
            Err(refused)
        }
    }
}
