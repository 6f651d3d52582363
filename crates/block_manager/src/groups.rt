// Views that are joined by their kinds.
ghost use Rattle.std.specs.Prelude.{◌≡◌, ◌<◌, ◌≤◌, ◌↔◌, ◌+◌, ◌^◌, ℕ, [], All, IsTrue, IfOk, length, map, vec_capacity};
ghost use Rattle.block_pool.specs.Pools.{IsLive, grid_at, live_count};
ghost use Rattle.block_manager.specs.Changes.{numbers_of};
ghost use Rattle.block_manager.specs.Spots.{AreOn, spot_at};
ghost use Rattle.block_manager.specs.Groups.{AreGroups, Enters, HasGroup, HasRoom, IsFilled, IsGroup, JoinsGroup, JoinsGroups, group_columns, group_seen, groups_seen, moved, times_in};

use crate::spots::Spot;
use crate::views::append;
use block_pool::{Pool, ViewId};
use cell_core::{Kind, NoMemory};
use column_core::Column;
use std::alloc::Global;

/// Views of one kind, how many columns they have, and a list for these.
#[derive(Drop)]
pub struct Group {
    pub(crate) kind: Kind,
    pub(crate) views: Vec<ViewId>,
    pub(crate) count: usize,
    pub(crate) room: Vec<Column>,
}

/// Views in groups, and for each of them its group and how many columns of that stand before its own.
#[derive(Drop)]
pub(crate) struct Groups {
    pub(crate) groups: Vec<Group>,
    pub(crate) targets: Vec<Spot>,
}

/// The views by their kinds, with room for the columns of each group. `NoMemory` is the only refusal.
pub(crate) fn grouped(alloc: Global, pool: &Pool, views: &[ViewId]) -> Result<Groups, NoMemory>
    requires { All (IsLive pool.now) (numbers_of views.now) }
    ensures groups { IfOk result (λ made. AreGroups (grid_at pool.now)
        (numbers_of views.now) (groups_seen made.groups.items) made.targets.items) }
    ensures room { IfOk result (λ made. All HasRoom made.groups.items) }
{
    let mut groups = Vec::new(alloc);
    let mut targets = Vec::with_capacity(alloc, views.len())?;
    for k in 0..views.len() {
        let target = enter(alloc, pool, &mut groups, views[k])?;
        targets.push(target)?;
    }
    for place in 0..groups.len() {
        let group = &mut groups[place];
        group.room.reserve(group.count)?;
    }
    Ok(Groups { groups, targets })
}

// Puts a view into the group of its kind, and answers where its columns stand there. `NoMemory` is the only refusal.
fn enter(
    alloc: Global,
    pool: &Pool,
    groups: &mut Vec<Group>,
    view: ViewId,
) -> Result<Spot, NoMemory>
    requires live { IsLive pool.now view.0 }
    requires empty { All (λ g. g.room.items ≡ []) groups.old.items }
    ensures enters { IfOk result (λ target. Enters (grid_at pool.now) view.0
        (groups_seen groups.old.items) (groups_seen groups.new.items) target) }
    ensures empty { IfOk result (λ target. All (λ g. g.room.items ≡ []) groups.new.items) }
{
    let place = group_of(alloc, groups, pool.kind(view))?;
    let group = &mut groups[place];
    let column = group.count;
    let Some(count) = column.checked_add(pool.columns(view)) else {
        return Err(NoMemory);
    };
    group.views.push(view)?;
    group.count = count;
    Ok(Spot {
        view: place,
        column,
    })
}

// The place of the group of a kind, which is a new one where there was none. `NoMemory` is the only refusal.
fn group_of(alloc: Global, groups: &mut Vec<Group>, kind: Kind) -> Result<usize, NoMemory>
    requires empty { All (λ g. g.room.items ≡ []) groups.old.items }
    ensures has { IfOk result (λ place. HasGroup
        (groups_seen groups.old.items) (groups_seen groups.new.items) kind place) }
    ensures empty { IfOk result (λ place. All (λ g. g.room.items ≡ []) groups.new.items) }
{
    for place in 0..groups.len() {
        if groups[place].kind == kind {
            return Ok(place);
        }
    }
    groups.push(Group {
        kind,
        views: Vec::new(alloc),
        count: 0,
        room: Vec::new(alloc),
    })?;
    Ok(groups.len() - 1)
}

/// Whether each view has columns and all cells of its block. Takes no memory.
pub(crate) fn are_filled(pool: &Pool, views: &[ViewId]) -> bool
    requires { All (IsLive pool.now) (numbers_of views.now) }
    ensures { IsTrue result ↔ All (IsFilled pool.now) (numbers_of views.now) }
{
    for k in 0..views.len() {
        if !is_filled(pool, views[k]) {
            return false;
        }
    }
    true
}

// Whether a view has columns and all cells of its block. Takes no memory.
fn is_filled(pool: &Pool, view: ViewId) -> bool
    requires { IsLive pool.now view.0 }
    ensures { IsTrue result ↔ IsFilled pool.now view.0 }
{
    if pool.columns(view) == 0 {
        return false;
    }
    pool.full(view)
}

/// Moves columns on views to where their views' columns stand in groups. Takes no memory.
pub(crate) fn move_spots(spots: &mut [Spot], targets: &[Spot])
    requires on { AreOn (length targets.now) spots.old }
    requires few { All (λ s. (spot_at targets.now s.view).column + s.column < 2 ^ 64) spots.old }
    ensures { spots.new ≡ map (moved targets.now) spots.old }
{
    for k in 0..spots.len() {
        let target = targets[spots[k].view];
        spots[k] = Spot {
            view: target.view,
            column: target.column + spots[k].column,
        };
    }
}

/// Joins the views of each group on one block, and puts the views that are left into a list that has room for them.
/// Takes no memory.
pub(crate) fn join_all(pool: &mut Pool, groups: Vec<Group>, list: &mut Vec<ViewId>)
    requires empty { list.old.items ≡ [] }
    requires room { length groups.items ≤ vec_capacity list.old }
    requires groups { All (IsGroup pool.old) (groups_seen groups.items) }
    requires apart { (q : ℕ) → times_in q (groups_seen groups.items) ≤ live_count pool.old q }
    requires rooms { All HasRoom groups.items }
    requires counts { All (λ g. g.count ≡ length (group_columns (grid_at pool.old) g))
        (groups_seen groups.items) }
    ensures joins { JoinsGroups pool.old pool.new (groups_seen groups.items)
        (numbers_of list.new.items) }
{
    for group in groups {
        let view = join(pool, group);
        append(list, view);
    }
}

// Joins the views of a group on one block. Takes no memory.
fn join(pool: &mut Pool, group: Group) -> ViewId
    requires group { IsGroup pool.old (group_seen group) }
    requires room { HasRoom group }
    requires count { group.count
        ≡ length (group_columns (grid_at pool.old) (group_seen group)) }
    ensures { JoinsGroup pool.old pool.new (group_seen group) result.0 }
{
    let Group { views, room, .. } = group;
    let mut first = views;
    let Some(last) = first.pop() else {
        unreachable!()
    };
    if first.len() == 0 {
        return last;
    }
    pool.join(&first, last, room);
    last
}
