// The columns of a table, on views of a pool.
ghost use Rattle.std.specs.Prelude.{◌≡◌, ◌*◌, ◌+◌, ◌<◌, ◌≤◌, ◌++◌, ◌∷◌, [], length, map, sum, All, remove, IfOk, IfErr, OnOk, OnErr, vec_len, vec_capacity};
ghost use Rattle.cell_core.specs.declared.cell.Cell.TheVariants.{Na};
ghost use Rattle.cell_core.specs.Grids.{AreRowsBelow};
ghost use Rattle.meaning_tables.specs.Table.{column_at};
ghost use Rattle.meaning_tables.specs.Change.{put_at, strided_column, with_values_from};
ghost use Rattle.block_pool.specs.Pools.{PoolValue, IsSole, cells_of, grid_at, total_of};
ghost use Rattle.block_manager.specs.Parts.{block_column, table_column, AreBelow, AreHeld, AreRowsIn, HaveRows, IsSingle};
ghost use Rattle.block_manager.specs.Managed.{no_columns, columns_on, cells_named, rows_of, StandsOn, AreJoined, AreLive, Exchanges, Keeps, Stays, StayOnBlocks, RaisesBy, AreSole};
ghost use Rattle.block_manager.specs.Changes.{EndsEach, Lays, numbers_of};
ghost use Rattle.block_manager.specs.Spots.{AreOn, Shows, TakesLast, laid_out};
ghost use Rattle.block_manager.specs.Groups.{AreGroups, HasRoom, IsFilled, groups_seen};

use crate::groups::{Groups, are_filled, grouped, join_all, move_spots};
use crate::layout::{all_marked, behind, derived, marked_at, picked, put_in, separated, without};
use crate::setting::{are_sole, put_values};
use crate::spots::{Layout, Spot};
use crate::views::{add_all, release_all};
use block_pool::{Pool, ViewId};
use cell_core::{Cells, NoMemory, Places, Rows};
use column_core::{Block, ColRef};
use std::alloc::Global;
use std::marker::Model;
use std::mem;

/// A list of columns that are placed on views of one pool. It keeps the allocator that it was made with.
///
/// The pool that is handed in is the one on whose views the manager stands: they are live, and each of
/// them stands there once. No call changes the block or the cells of a live view that isn't the
/// manager's, or ends one, and the views that a call makes weren't live. A refusal is want of memory,
/// and leaves the manager, all views and their blocks as they were.
#[derive(Drop)]
pub struct Manager {
    pub(crate) alloc: Global,
    pub(crate) views: Vec<ViewId>,
    pub(crate) spots: Vec<Spot>,
}

impl Model for Manager {
    ghost use Rattle.std.specs.Prelude.{length};
    ghost use Rattle.block_manager.specs.Managed.{ManagerValue};
    ghost use Rattle.block_manager.specs.Changes.{numbers_of};
    ghost use Rattle.block_manager.specs.Spots.{AreOn, laid_out};

    ghost Value = { ManagerValue };

    ghost view = { λ m. laid_out (numbers_of m.views.items) m.spots.items };

    ghost invariant = { λ m. AreOn (length m.views.items) m.spots.items };
}

// The first column of the first view.
const FIRST: Spot = Spot { view: 0, column: 0 };

impl Manager {
    /// A manager without columns. Takes no memory.
    pub fn new(alloc: Global) -> Manager
        ensures { result ≡ no_columns }
    {
        Manager {
            alloc,
            views: Vec::new(alloc),
            spots: Vec::new(alloc),
        }
    }

    /// A manager of these blocks, each of which is one column, with the columns of one kind on one block. All have as
    /// many rows. `NoMemory` leaves all views and their blocks as they were.
    pub fn of_blocks(
        alloc: Global,
        pool: &mut Pool,
        blocks: Vec<Block>,
    ) -> Result<Manager, NoMemory>
        requires single { All IsSingle blocks.items }
        requires rows { HaveRows (rows_of (map block_column blocks.items))
            (map block_column blocks.items) }
        ensures columns { IfOk result (λ made.
            columns_on pool.new made ≡ map block_column blocks.items) }
        ensures stands { IfOk result (λ made. StandsOn pool.new made) }
        ensures views { IfOk result (λ made. Exchanges pool.old pool.new [] made.views) }
        ensures kept { Keeps pool.old pool.new [] }
        ensures held { IfOk result (λ made.
            RaisesBy (sum (map cells_of blocks.items)) pool.old pool.new) }
        ensures joined { IfOk result (λ made. AreJoined pool.new made) }
        ensures err { OnErr result (Stays pool.old pool.new) }
    {
        let spots = behind(alloc, blocks.len(), &[])?;
        let views = add_all(alloc, pool, blocks)?;
        let mut made = Manager {
            alloc,
            views,
            spots,
        };
        if made.consolidate(pool).is_err() {
            release_all(pool, made.views);
            return Err(NoMemory);
        }
        Ok(made)
    }

    /// How many columns there are. Takes no memory.
    pub fn columns(&self) -> usize
        ensures { result ≡ length self.now.places }
    {
        self.spots.len()
    }

    /// The cells of a column. Takes no memory.
    pub fn column<'a>(&self, pool: &'a Pool, column: usize) -> ColRef<'a>
        requires stands { StandsOn pool.now self.now }
        requires column { column < length self.now.places }
        ensures { table_column result ≡ column_at (columns_on pool.now self.now) column }
    {
        let spot = self.spots[column];
        pool.column(self.views[spot.view], spot.column)
    }

    /// A manager of these rows of all columns, which shares their cells, so that no block is added.
    /// `NoMemory` leaves the pool as it was.
    pub fn slice(&self, pool: &mut Pool, rows: Rows) -> Result<Manager, NoMemory>
        requires stands { StandsOn pool.old self.now }
        requires rows { All (λ c. AreRowsBelow rows (length c.cells))
            (columns_on pool.old self.now) }
        ensures columns { IfOk result (λ made. columns_on pool.new made
            ≡ map (strided_column Na rows) (columns_on pool.old self.now)) }
        ensures stands { IfOk result (λ made. StandsOn pool.new made) }
        ensures views { IfOk result (λ made. Exchanges pool.old pool.new [] made.views) }
        ensures kept { Keeps pool.old pool.new [] }
        ensures blocks { pool.new.blocks ≡ pool.old.blocks }
        ensures err { OnErr result (pool.new ≡ pool.old) }
    {
        let made = derived(self.alloc, pool, &self.views, &self.spots, Some(rows), 0)?;
        Ok(Manager {
            alloc: self.alloc,
            views: made.views,
            spots: made.spots,
        })
    }

    /// A manager of the columns at these places, which shares their cells, so that no block is added. A
    /// place may stand twice. `NoMemory` leaves the pool as it was.
    pub fn select(&self, pool: &mut Pool, columns: &Places) -> Result<Manager, NoMemory>
        requires stands { StandsOn pool.old self.now }
        requires columns { AreBelow (length self.now.places) columns.now }
        ensures columns { IfOk result (λ made. columns_on pool.new made
            ≡ map (column_at (columns_on pool.old self.now)) columns.now) }
        ensures stands { IfOk result (λ made. StandsOn pool.new made) }
        ensures views { IfOk result (λ made. Exchanges pool.old pool.new [] made.views) }
        ensures kept { Keeps pool.old pool.new [] }
        ensures blocks { pool.new.blocks ≡ pool.old.blocks }
        ensures err { OnErr result (pool.new ≡ pool.old) }
    {
        let picks = picked(self.alloc, &self.spots, columns)?;
        let made = derived(self.alloc, pool, &self.views, &picks, None, 0)?;
        Ok(Manager {
            alloc: self.alloc,
            views: made.views,
            spots: made.spots,
        })
    }

    /// Replaces a column, which the block is, or appends it where the number is that of the columns. The
    /// block has one column, with as many rows as each of the manager's columns. An appended column has a
    /// view and a block of its own. Where memory is refused, the block comes back, and the manager, all
    /// views and their blocks are as they were.
    pub fn put_column(&mut self, pool: &mut Pool, column: usize, block: Block) -> Result<(), Block>
        requires stands { StandsOn pool.old self.old }
        requires column { column ≤ length self.old.places }
        requires single { IsSingle block }
        requires rows { HaveRows block.rows (columns_on pool.old self.old) }
        ensures columns { OnOk result (columns_on pool.new self.new
            ≡ put_at (columns_on pool.old self.old) column (block_column block)) }
        ensures stands { StandsOn pool.new self.new }
        ensures views { Exchanges pool.old pool.new self.old.views self.new.views }
        ensures kept { Keeps pool.old pool.new self.old.views }
        ensures held { OnOk result (RaisesBy (cells_of block) pool.old pool.new) }
        ensures sole { column ≡ length self.old.places → All (IsSole pool.old) self.old.views
            → OnOk result (All (IsSole pool.new) self.new.views) }
        ensures err { OnErr result ((self.new ≡ self.old) × Stays pool.old pool.new) }
        ensures returned { IfErr result (λ back. back ≡ block) }
    {
        if column == self.spots.len() {
            return self.append_block(pool, block);
        }
        let Ok(rest) = self.without(pool, column, 1) else {
            return Err(block);
        };
        let mut made = rest;
        match pool.add(block) {
            Ok(view) => {
                put_in(&mut made.views, &mut made.spots, column, &[view], FIRST);
                self.renew(pool, made);
                Ok(())
            }
            Err(block) => {
                release_all(pool, made.views);
                Err(block)
            }
        }
    }

    /// Puts the values, one for each of these rows of these columns, row by row. Where a cell is given
    /// twice, the later value stays. Those of these columns that share their blocks are first copied to blocks
    /// of their own, and no other column is, so that no other manager sees a change. `NoMemory` leaves the
    /// manager, all views and their blocks as they were.
    pub fn set_cells(
        &mut self,
        pool: &mut Pool,
        rows: &Places,
        columns: &Places,
        values: &Cells,
    ) -> Result<(), NoMemory>
        requires stands { StandsOn pool.old self.old }
        requires columns { AreBelow (length self.old.places) columns.now }
        requires rows { AreRowsIn (columns_on pool.old self.old) columns.now rows.now }
        requires values { length values.now ≡ length rows.now * length columns.now }
        requires held { AreHeld (columns_on pool.old self.old) columns.now values.now }
        ensures columns { OnOk result (columns_on pool.new self.new
            ≡ with_values_from 0 (columns_on pool.old self.old) rows.now columns.now values.now) }
        ensures stands { StandsOn pool.new self.new }
        ensures views { Exchanges pool.old pool.new self.old.views self.new.views }
        ensures kept { Keeps pool.old pool.new self.old.views }
        ensures held { OnOk result (RaisesBy
            (cells_named (columns_on pool.old self.old) columns.now) pool.old pool.new) }
        ensures sole { OnOk result (AreSole pool.old self.old columns.now →
            (self.new ≡ self.old) × StayOnBlocks pool.old pool.new) }
        ensures err { OnErr result ((self.new ≡ self.old) × Stays pool.old pool.new) }
    {
        self.own_columns(pool, columns)?;
        put_values(pool, &self.views, &self.spots, rows, columns, values);
        Ok(())
    }

    /// Puts the blocks, each of which is one column, before all columns. `NoMemory` leaves the manager, all
    /// views and their blocks as they were.
    pub fn put_first(&mut self, pool: &mut Pool, first: Vec<Block>) -> Result<(), NoMemory>
        requires stands { StandsOn pool.old self.old }
        requires single { All IsSingle first.items }
        ensures columns { OnOk result (columns_on pool.new self.new
            ≡ map block_column first.items ++ columns_on pool.old self.old) }
        ensures stands { StandsOn pool.new self.new }
        ensures views { Exchanges pool.old pool.new self.old.views self.new.views }
        ensures kept { Keeps pool.old pool.new self.old.views }
        ensures held { OnOk result (RaisesBy (sum (map cells_of first.items)) pool.old pool.new) }
        ensures err { OnErr result ((self.new ≡ self.old) × Stays pool.old pool.new) }
    {
        let spots = behind(self.alloc, first.len(), &self.spots)?;
        let mut views = add_all(self.alloc, pool, first)?;
        if views.extend_from_slice(&self.views).is_err() {
            release_all(pool, views);
            return Err(NoMemory);
        }
        self.views = views;
        self.spots = spots;
        Ok(())
    }

    /// Takes the column of another manager, as `put_column` takes a block. Where memory is refused the other
    /// manager is handed back, and this one is as it was.
    pub fn take_column(
        &mut self,
        pool: &mut Pool,
        column: usize,
        from: Manager,
    ) -> Result<(), Manager>
        requires stands { StandsOn pool.old self.old }
        requires from { StandsOn pool.old from }
        requires apart { AreLive pool.old (self.old.views ++ from.views) }
        requires one { length from.places ≡ 1 }
        requires column { column ≤ length self.old.places }
        ensures columns { OnOk result (columns_on pool.new self.new
            ≡ put_at (columns_on pool.old self.old) column
            (column_at (columns_on pool.old from) 0)) }
        ensures stands { StandsOn pool.new self.new }
        ensures views { OnOk result (Exchanges pool.old pool.new
            (self.old.views ++ from.views) self.new.views) }
        ensures kept { Keeps pool.old pool.new (self.old.views ++ from.views) }
        ensures held { RaisesBy 0 pool.old pool.new }
        ensures err { OnErr result ((self.new ≡ self.old) × (pool.new ≡ pool.old)) }
        ensures returned { IfErr result (λ back. back ≡ from) }
    {
        if column == self.spots.len() {
            return self.append_from(from);
        }
        let Ok(rest) = self.without(pool, column, from.views.len()) else {
            return Err(from);
        };
        let mut made = rest;
        put_in(
            &mut made.views,
            &mut made.spots,
            column,
            &from.views,
            from.spots[0],
        );
        self.renew(pool, made);
        Ok(())
    }

    /// Removes a column. `NoMemory` leaves the manager, all views and their blocks as they were.
    pub fn remove_column(&mut self, pool: &mut Pool, column: usize) -> Result<(), NoMemory>
        requires stands { StandsOn pool.old self.old }
        requires column { column < length self.old.places }
        ensures columns { OnOk result (columns_on pool.new self.new
            ≡ remove (columns_on pool.old self.old) column) }
        ensures stands { StandsOn pool.new self.new }
        ensures views { Exchanges pool.old pool.new self.old.views self.new.views }
        ensures kept { Keeps pool.old pool.new self.old.views }
        ensures held { RaisesBy 0 pool.old pool.new }
        ensures err { OnErr result ((self.new ≡ self.old) × Stays pool.old pool.new) }
    {
        let made = self.without(pool, column, 0)?;
        self.renew(pool, made);
        Ok(())
    }

    /// Joins the columns of one kind on one block. Each view is alone on its block, and all columns have as many rows.
    /// No cell is copied where each view has all cells of its block; else all columns are copied first. `NoMemory`
    /// leaves the manager, all views and their blocks as they were.
    pub fn consolidate(&mut self, pool: &mut Pool) -> Result<(), NoMemory>
        requires stands { StandsOn pool.old self.old }
        requires sole { All (IsSole pool.old) self.old.views }
        requires rows { HaveRows (rows_of (columns_on pool.old self.old))
            (columns_on pool.old self.old) }
        ensures columns { OnOk result
            (columns_on pool.new self.new ≡ columns_on pool.old self.old) }
        ensures stands { StandsOn pool.new self.new }
        ensures views { Exchanges pool.old pool.new self.old.views self.new.views }
        ensures kept { Keeps pool.old pool.new self.old.views }
        ensures held { RaisesBy 0 pool.old pool.new }
        ensures joined { OnOk result (AreJoined pool.new self.new) }
        ensures err { OnErr result ((self.new ≡ self.old) × Stays pool.old pool.new) }
    {
        if self.views.len() < 2 {
            return Ok(());
        }
        if are_filled(pool, &self.views) {
            let groups = grouped(self.alloc, pool, &self.views)?;
            self.join(pool, groups);
            return Ok(());
        }
        let groups = self.own_all(pool)?;
        self.join(pool, groups);
        Ok(())
    }

    /// Ends all views of the manager. Takes no memory.
    pub fn release(self, pool: &mut Pool)
        requires { StandsOn pool.old self }
        ensures views { Exchanges pool.old pool.new self.views [] }
        ensures kept { Keeps pool.old pool.new self.views }
        ensures held { RaisesBy 0 pool.old pool.new }
    {
        release_all(pool, self.views);
    }

    // The columns but the one at a place, on views that share their cells, with room for so many views and columns
    // more. `NoMemory` leaves the pool as it was.
    fn without(&self, pool: &mut Pool, column: usize, more: usize) -> Result<Layout, NoMemory>
        requires stands { StandsOn pool.old self.now }
        requires column { column < length self.now.places }
        ensures shows { IfOk result (λ made.
            Shows pool.new (numbers_of made.views.items) made.spots.items
            (remove (columns_on pool.old self.now) column)) }
        ensures count { IfOk result (λ made.
            length made.spots.items + 1 ≡ length self.now.places) }
        ensures lays { IfOk result (λ made.
            Lays pool.old (numbers_of made.views.items) pool.new) }
        ensures views_room { IfOk result (λ made.
            vec_len made.views + more ≤ vec_capacity made.views) }
        ensures spots_room { IfOk result (λ made.
            vec_len made.spots + more ≤ vec_capacity made.spots) }
        ensures blocks { pool.new.blocks ≡ pool.old.blocks }
        ensures err { OnErr result (pool.new ≡ pool.old) }
    {
        let picks = without(self.alloc, &self.spots, column)?;
        derived(self.alloc, pool, &self.views, &picks, None, more)
    }

    // Has its columns on these views from now on, and ends those on which they stood. Takes no memory.
    fn renew(&mut self, pool: &mut Pool, by: Layout)
        requires live { AreLive pool.old self.old.views }
        requires on { AreOn (length by.views.items) by.spots.items }
        ensures is { self.new ≡ laid_out (numbers_of by.views.items) by.spots.items }
        ensures ended { EndsEach pool.old self.old.views pool.new }
    {
        let before = mem::replace(&mut self.views, by.views);
        self.spots = by.spots;
        release_all(pool, before);
    }

    // Puts a column, which the block is, last. Where memory is refused, the block comes back, and the manager, all views
    // and their blocks are as they were.
    fn append_block(&mut self, pool: &mut Pool, block: Block) -> Result<(), Block>
        requires stands { StandsOn pool.old self.old }
        requires single { IsSingle block }
        ensures columns { OnOk result (columns_on pool.new self.new
            ≡ columns_on pool.old self.old ++ block_column block ∷ []) }
        ensures stands { StandsOn pool.new self.new }
        ensures views { Exchanges pool.old pool.new self.old.views self.new.views }
        ensures kept { Keeps pool.old pool.new self.old.views }
        ensures held { OnOk result (RaisesBy (cells_of block) pool.old pool.new) }
        ensures sole { All (IsSole pool.old) self.old.views
            → OnOk result (All (IsSole pool.new) self.new.views) }
        ensures err { OnErr result ((self.new ≡ self.old) × Stays pool.old pool.new) }
        ensures returned { IfErr result (λ back. back ≡ block) }
    {
        if self.views.reserve(1).is_err() {
            return Err(block);
        }
        if self.spots.reserve(1).is_err() {
            return Err(block);
        }
        let view = pool.add(block)?;
        let last = self.spots.len();
        put_in(&mut self.views, &mut self.spots, last, &[view], FIRST);
        Ok(())
    }

    // Takes the column of another manager as its last one. Where memory is refused the other manager is handed back,
    // and this one is as it was.
    fn append_from(&mut self, from: Manager) -> Result<(), Manager>
        requires one { length from.places ≡ 1 }
        ensures ok { OnOk result ((pool : PoolValue) → StandsOn pool self.old → StandsOn pool from
            → AreLive pool (self.old.views ++ from.views)
            → TakesLast pool self.old from self.new) }
        ensures err { OnErr result (self.new ≡ self.old) }
        ensures returned { IfErr result (λ back. back ≡ from) }
    {
        if self.views.reserve(from.views.len()).is_err() {
            return Err(from);
        }
        if self.spots.reserve(1).is_err() {
            return Err(from);
        }
        let last = self.spots.len();
        put_in(
            &mut self.views,
            &mut self.spots,
            last,
            &from.views,
            from.spots[0],
        );
        Ok(())
    }

    // Has the view of each of these columns be alone on its block, by copies of those of which it isn't so.
    // `NoMemory` leaves the manager, all views and their blocks as they were.
    fn own_columns(&mut self, pool: &mut Pool, columns: &Places) -> Result<(), NoMemory>
        requires stands { StandsOn pool.old self.old }
        requires columns { AreBelow (length self.old.places) columns.now }
        ensures columns { OnOk result
            (columns_on pool.new self.new ≡ columns_on pool.old self.old) }
        ensures stands { StandsOn pool.new self.new }
        ensures views { Exchanges pool.old pool.new self.old.views self.new.views }
        ensures kept { Keeps pool.old pool.new self.old.views }
        ensures alone { OnOk result (AreSole pool.new self.new columns.now) }
        ensures held { OnOk result (RaisesBy
            (cells_named (columns_on pool.old self.old) columns.now) pool.old pool.new) }
        ensures sole { OnOk result (AreSole pool.old self.old columns.now →
            (self.new ≡ self.old) × (pool.new ≡ pool.old)) }
        ensures err { OnErr result ((self.new ≡ self.old) × Stays pool.old pool.new) }
    {
        if are_sole(pool, &self.views, &self.spots, columns) {
            return Ok(());
        }
        let marks = marked_at(self.alloc, pool, &self.views, &self.spots, columns)?;
        let made = separated(self.alloc, pool, &self.views, &self.spots, &marks)?;
        self.renew(pool, made);
        Ok(())
    }

    // Copies all columns to blocks of their own, and answers their views by their kinds. `NoMemory` leaves the manager,
    // all views and their blocks as they were.
    fn own_all(&mut self, pool: &mut Pool) -> Result<Groups, NoMemory>
        requires stands { StandsOn pool.old self.old }
        requires sole { All (IsSole pool.old) self.old.views }
        ensures columns { OnOk result
            (columns_on pool.new self.new ≡ columns_on pool.old self.old) }
        ensures stands { StandsOn pool.new self.new }
        ensures views { Exchanges pool.old pool.new self.old.views self.new.views }
        ensures kept { Keeps pool.old pool.new self.old.views }
        ensures held { RaisesBy 0 pool.old pool.new }
        ensures sole { OnOk result (All (IsSole pool.new) self.new.views) }
        ensures filled { OnOk result (All (IsFilled pool.new) self.new.views) }
        ensures groups { IfOk result (λ made. AreGroups (grid_at pool.new) self.new.views
            (groups_seen made.groups.items) made.targets.items) }
        ensures rooms { IfOk result (λ made. All HasRoom made.groups.items) }
        ensures err { OnErr result ((self.new ≡ self.old) × Stays pool.old pool.new) }
    {
        let all = all_marked(self.alloc, self.spots.len(), self.views.len())?;
        let made = separated(self.alloc, pool, &self.views, &self.spots, &all)?;
        // No block has fewer cells than a view on it.
        let _held = pool.held();
        match grouped(self.alloc, pool, &made.views) {
            Ok(groups) => {
                self.renew(pool, made);
                Ok(groups)
            }
            Err(refused) => {
                release_all(pool, made.views);
                Err(refused)
            }
        }
    }

    // Joins the views of each group on one block. Each has columns and all cells of its block, and all columns have as
    // many rows. Takes no memory.
    fn join(&mut self, pool: &mut Pool, groups: Groups)
        requires stands { StandsOn pool.old self.old }
        requires sole { All (IsSole pool.old) self.old.views }
        requires filled { All (IsFilled pool.old) self.old.views }
        requires rows { HaveRows (rows_of (columns_on pool.old self.old))
            (columns_on pool.old self.old) }
        requires groups { AreGroups (grid_at pool.old) self.old.views
            (groups_seen groups.groups.items) groups.targets.items }
        requires rooms { All HasRoom groups.groups.items }
        ensures columns { columns_on pool.new self.new ≡ columns_on pool.old self.old }
        ensures stands { StandsOn pool.new self.new }
        ensures views { Exchanges pool.old pool.new self.old.views self.new.views }
        ensures kept { Keeps pool.old pool.new self.old.views }
        ensures held { total_of pool.new ≡ total_of pool.old }
        ensures joined { AreJoined pool.new self.new }
    {
        move_spots(&mut self.spots, &groups.targets);
        self.views.clear();
        join_all(pool, groups.groups, &mut self.views);
    }
}
