// Columns that are laid out on views.
ghost use Rattle.std.specs.Prelude.{◌≡◌, ◌∷◌, ◌<◌, ◌≤◌, ◌+◌, ◌++◌, [], ◌^◌, All, length, map, insert, remove, IfOk, OnErr, replicate, true, vec_len, vec_capacity};
ghost use Rattle.block_pool.specs.Pools.{grid_at, total_of};
ghost use Rattle.block_manager.specs.Parts.{AreBelow};
ghost use Rattle.block_manager.specs.Managed.{AreLive, Stays};
ghost use Rattle.block_manager.specs.Changes.{Lays, grids_of, numbers_of};
ghost use Rattle.block_manager.specs.Spots.{AreMarked, AreOn, AreOwnAt, AreSoleBut, AreSplit, IsEvenGrid, IsPick, Shows, Stands, all_single, column_by, picked_cost, rows_at, shifted, spot_at, spot_columns};

use crate::planning::{no_wholes, planned, whole_runs};
use crate::spots::{Layout, Spot};
use crate::views::{laid, shared};
use block_pool::{Pool, ViewId};
use cell_core::{NoMemory, Places, Rows};
use std::alloc::Global;

/// A layout of the picked columns of views, at these rows or at all, on views that share their cells. It has room for
/// so many views and columns more. `NoMemory` leaves the pool as it was.
pub(crate) fn derived(
    alloc: Global,
    pool: &mut Pool,
    views: &[ViewId],
    picks: &[Spot],
    rows: Option<Rows>,
    more: usize,
) -> Result<Layout, NoMemory>
    requires live { AreLive pool.old (numbers_of views.now) }
    requires even { All IsEvenGrid (grids_of pool.old (numbers_of views.now)) }
    requires picks { All (IsPick (grids_of pool.old (numbers_of views.now)) rows) picks.now }
    ensures shows { IfOk result (λ made.
        Shows pool.new (numbers_of made.views.items) made.spots.items
        (map (column_by rows)
        (spot_columns (grids_of pool.old (numbers_of views.now)) picks.now))) }
    ensures lays { IfOk result (λ made.
        Lays pool.old (numbers_of made.views.items) pool.new) }
    ensures views_room { IfOk result (λ made.
        vec_len made.views + more ≤ vec_capacity made.views) }
    ensures spots_room { IfOk result (λ made.
        vec_len made.spots + more ≤ vec_capacity made.spots) }
    ensures blocks { pool.new.blocks ≡ pool.old.blocks }
    ensures err { OnErr result (pool.new ≡ pool.old) }
{
    let mut plan = planned(alloc, picks, &[], no_wholes(alloc))?;
    plan.spots.reserve(more)?;
    let made = shared(alloc, pool, views, &plan.runs, rows, more)?;
    Ok(Layout {
        views: made,
        spots: plan.spots,
    })
}

/// A layout of all columns of views on others, where the marked ones are copied to blocks of their own and the others
/// share their cells. A view that isn't split is shared whole. `NoMemory` leaves all views and their blocks as they
/// were.
pub(crate) fn separated(
    alloc: Global,
    pool: &mut Pool,
    views: &[ViewId],
    spots: &[Spot],
    marks: &Marks,
) -> Result<Layout, NoMemory>
    requires stands { Stands pool.old (numbers_of views.now) spots.now }
    requires split { AreSplit spots.now marks.now.columns.items marks.now.views.items }
    ensures shows { IfOk result (λ made.
        Shows pool.new (numbers_of made.views.items) made.spots.items
        (spot_columns (grids_of pool.old (numbers_of views.now)) spots.now)) }
    ensures lays { IfOk result (λ made.
        Lays pool.old (numbers_of made.views.items) pool.new) }
    ensures some { IfOk result (λ made.
        All (λ view. 0 < length (grid_at pool.new view).columns)
        (numbers_of made.views.items)) }
    ensures own { IfOk result (λ made.
        AreOwnAt pool.new (numbers_of made.views.items) made.spots.items
        marks.now.columns.items) }
    ensures sole { IfOk result (λ made.
        AreSoleBut pool.old pool.new (numbers_of views.now) (numbers_of made.views.items)
        spots.now made.spots.items marks.now.views.items) }
    ensures held { IfOk result (λ made. total_of pool.new ≡ total_of pool.old
        + picked_cost (rows_at (grids_of pool.old (numbers_of views.now)))
        marks.now.columns.items spots.now) }
    ensures err { OnErr result (Stays pool.old pool.new) }
{
    let wholes = whole_runs(alloc, pool, views, &marks.views)?;
    let plan = planned(alloc, spots, &marks.columns, wholes)?;
    let made = laid(alloc, pool, views, &plan.runs)?;
    Ok(Layout {
        views: made,
        spots: plan.spots,
    })
}

/// Columns that are to be copied, and the views that are split for that.
#[derive(Drop)]
pub(crate) struct Marks {
    pub(crate) columns: Vec<bool>,
    pub(crate) views: Vec<bool>,
}

/// The columns at these places whose views aren't alone on their blocks. `NoMemory` is the only refusal.
pub(crate) fn marked_at(
    alloc: Global,
    pool: &Pool,
    views: &[ViewId],
    spots: &[Spot],
    places: &Places,
) -> Result<Marks, NoMemory>
    requires stands { Stands pool.now (numbers_of views.now) spots.now }
    requires places { AreBelow (length spots.now) places.now }
    ensures { IfOk result (λ marks. AreMarked pool.now (numbers_of views.now) spots.now
        marks.columns.items marks.views.items places.now) }
{
    let mut columns = vec![in alloc; false; spots.len()]?;
    let mut split = vec![in alloc; false; views.len()]?;
    for k in 0..places.len() {
        let place = *places.at(k);
        let view = spots[place].view;
        if pool.sole(views[view]) {
            continue;
        }
        columns[place] = true;
        split[view] = true;
    }
    Ok(Marks {
        columns,
        views: split,
    })
}

/// All of so many columns on so many views. `NoMemory` is the only refusal.
pub(crate) fn all_marked(alloc: Global, columns: usize, views: usize) -> Result<Marks, NoMemory>
    ensures columns { IfOk result (λ marks. marks.columns.items ≡ replicate columns true) }
    ensures views { IfOk result (λ marks. marks.views.items ≡ replicate views true) }
{
    Ok(Marks {
        columns: vec![in alloc; true; columns]?,
        views: vec![in alloc; true; views]?,
    })
}

/// The spots at these places. `NoMemory` is the only refusal.
pub(crate) fn picked(alloc: Global, spots: &[Spot], places: &Places) -> Result<Vec<Spot>, NoMemory>
    requires { AreBelow (length spots.now) places.now }
    ensures { IfOk result (λ picks. picks.items ≡ map (spot_at spots.now) places.now) }
{
    let mut picks = Vec::with_capacity(alloc, places.len())?;
    for k in 0..places.len() {
        picks.push(spots[*places.at(k)])?;
    }
    Ok(picks)
}

/// The spots without the one at a place. `NoMemory` is the only refusal.
pub(crate) fn without(alloc: Global, spots: &[Spot], place: usize) -> Result<Vec<Spot>, NoMemory>
    requires { place < length spots.now }
    ensures { IfOk result (λ picks. picks.items ≡ remove spots.now place) }
{
    let mut picks = spots.to_vec(alloc)?;
    picks.remove(place);
    Ok(picks)
}

/// The spots of so many columns, each of which has a view of its own, and behind them these spots on the views behind.
/// `NoMemory` is the only refusal.
pub(crate) fn behind(alloc: Global, count: usize, spots: &[Spot]) -> Result<Vec<Spot>, NoMemory>
    requires { All (λ s. count + s.view < 2 ^ 64) spots.now }
    ensures { IfOk result (λ made. made.items
        ≡ all_single count ++ map (shifted count) spots.now) }
{
    let Some(all) = count.checked_add(spots.len()) else {
        return Err(NoMemory);
    };
    let mut made = Vec::with_capacity(alloc, all)?;
    for view in 0..count {
        made.push(Spot { view, column: 0 })?;
    }
    for k in 0..spots.len() {
        made.push(Spot {
            view: count + spots[k].view,
            column: spots[k].column,
        })?;
    }
    Ok(made)
}

/// Puts views behind others, and a column of one of them, by its spot on them, before the column at a place or last.
/// There is room for all. Takes no memory.
pub(crate) fn put_in(
    views: &mut Vec<ViewId>,
    spots: &mut Vec<Spot>,
    place: usize,
    added: &[ViewId],
    spot: Spot,
)
    requires place { place ≤ vec_len spots.old }
    requires spot { spot.view < length added.now }
    requires views_room { vec_len views.old + length added.now ≤ vec_capacity views.old }
    requires spots_room { vec_len spots.old < vec_capacity spots.old }
    ensures views { views.new.items ≡ views.old.items ++ added.now }
    ensures spots { spots.new.items
        ≡ insert spots.old.items place (shifted (length views.old.items) spot) }
{
    let moved = Spot {
        view: views.len() + spot.view,
        column: spot.column,
    };
    if views.extend_from_slice(added).is_err() {
        unreachable!()
    }
    if spots.insert(place, moved).is_err() {
        unreachable!()
    }
}
