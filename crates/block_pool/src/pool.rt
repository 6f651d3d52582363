// The pool: views, and the blocks that they lie on.
ghost use Rattle.std.specs.Prelude.{◌≡◌, ◌<◌, ◌≤◌, ◌+◌, ◌*◌, ◌^◌, ◌++◌, ◌↔◌, ℕ, [], List, true, length, map, All, slice_index_or, IsTrue, IsOk, max, IfOk, IfErr, OnOk, OnErr, vec_len, vec_capacity};
ghost use Rattle.std.specs.FinMap as map;
ghost use Rattle.cell_core.specs.Grids.{AreRowsBelow};
ghost use Rattle.column_core.specs.cells.Cell.{datum, holds};
ghost use Rattle.column_core.specs.Blocks.{columns_in, FitBlock, IsColumnOf, block_with};
ghost use Rattle.block_pool.specs.Pools.{empty_pool, numbers_of, cut, cells_of, total_of, beside, CanJoin, IsApart, IsFull, Joins, with_block, grid_with, grid_at, IsLive, IsFree, IsSole, held_of, KeepsBlocks, Adds, Shares, Owns, Ends, with_grid};

use crate::copies::{copied, move_shown, shown};
use crate::lots::{Lot, counted, lay, leave, make_room};
use crate::views::{Cols, View, ViewId};
use cell_core::{Cell, Kind, NoMemory, Rows};
use column_core::{Block, ColRef, Column};
use slab::Slab;
use std::alloc::Global;
use std::marker::Model;

/// Blocks and the views on them. It keeps the allocator that it was made with.
///
/// Every view that is handed in is live. A refusal is want of memory, as for 2^63 rows or 2^64 cells, which no memory
/// holds, and leaves the pool as it was.
#[derive(Drop)]
pub struct Pool {
    alloc: Global,
    lots: Slab<Lot>,
    views: Slab<View>,
    spare: usize,
    held: u64,
}

impl Model for Pool {
    ghost use Rattle.block_pool.specs.Pools.{PoolValue};
    ghost use Rattle.block_pool.specs.Codes.{coded_pool};

    ghost Value = { PoolValue };

    ghost coded = { coded_pool };

    ghost use Rattle.block_pool.specs.Placed.{pool_value, IsPool};

    ghost view = { λ p. pool_value p.lots.slots p.views.slots p.spare };

    ghost invariant = { λ p. IsPool p.lots.slots p.views.slots p.spare p.views.capacity p.held };
}

impl Pool {
    /// A pool without views. Takes no memory.
    pub fn new(alloc: Global) -> Pool
        ensures { result ≡ empty_pool }
    {
        Pool {
            alloc,
            lots: Slab::new(alloc),
            views: Slab::new(alloc),
            spare: 0,
            held: 0,
        }
    }

    /// A view of a block that is new to the pool, of all its cells. Where memory is refused, the block comes back
    /// and the pool stays as it was.
    pub fn add(&mut self, block: Block) -> Result<ViewId, Block>
        ensures fresh { IfOk result (λ id. IsFree self.old id.0) }
        ensures ok { IfOk result (λ id. Adds self.old self.new id.0 block) }
        ensures err { OnErr result (self.new ≡ self.old) }
        ensures returned { IfErr result (λ back. back ≡ block) }
    {
        let Some(held) = counted(self.held, &block) else {
            return Err(block);
        };
        if make_room(&mut self.views, self.spare).is_err() {
            return Err(block);
        }
        let (columns, rows) = (block.columns(), block.rows());
        match self.lots.insert(Lot { block, users: 1 }) {
            Ok(name) => {
                let key = self.views.insert_reserved(View::whole(name, columns, rows));
                self.held = held;
                Ok(ViewId(key as u64))
            }
            Err(failed) => Err(failed.value.block),
        }
    }

    /// Makes room for so many more views at least. `NoMemory` leaves the pool as it was.
    pub fn reserve_views(&mut self, n: usize) -> Result<(), NoMemory>
        ensures ok { OnOk result (self.new
            ≡ record self.old { spare = max self.old.spare n }) }
        ensures enough { n ≤ self.old.spare → IsOk result }
        ensures err { OnErr result (self.new ≡ self.old) }
    {
        if n > self.spare {
            self.views.reserve(n)?;
            self.spare = n;
        }
        Ok(())
    }

    /// Another view of these columns and rows of a view. Takes no memory: it uses a spare view.
    pub fn view(&mut self, id: ViewId, cols: Cols, rows: Rows) -> ViewId
        requires live { IsLive self.old id.0 }
        requires spare { 0 < self.old.spare }
        requires columns { cols.from + cols.count ≤ length (grid_at self.old id.0).columns }
        requires rows { AreRowsBelow rows (grid_at self.old id.0).rows }
        ensures fresh { IsFree self.old result.0 }
        ensures shares { Shares self.old self.new result.0 id.0
            (cut (grid_at self.old id.0) cols.from cols.count rows) }
    {
        let view = self.views[id.0 as usize];
        let lot = &self.lots[view.block];
        let (_columns, limit) = (lot.block.columns(), lot.block.rows());
        let cut = view.cut(cols, rows, limit);
        let _room = self.views.capacity();
        let slot = lay(&mut self.lots, &mut self.views, cut);
        self.spare -= 1;
        ViewId(slot as u64)
    }

    /// Another view of all cells of a view. Takes no memory: it uses a spare view.
    pub fn share(&mut self, id: ViewId) -> ViewId
        requires live { IsLive self.old id.0 }
        requires spare { 0 < self.old.spare }
        ensures fresh { IsFree self.old result.0 }
        ensures shares { Shares self.old self.new result.0 id.0 (grid_at self.old id.0) }
    {
        let view = self.views[id.0 as usize];
        let _room = self.views.capacity();
        let slot = lay(&mut self.lots, &mut self.views, view);
        self.spare -= 1;
        ViewId(slot as u64)
    }

    /// Makes a view the only one on its block, where it isn't by a copy of its cells. `NoMemory` leaves the pool as
    /// it was, and never comes where the view is the only one.
    pub fn own(&mut self, id: ViewId) -> Result<(), NoMemory>
        requires { IsLive self.old id.0 }
        ensures sole { IsSole self.old id.0 → IsOk result × (self.new ≡ self.old) }
        ensures shared { ¬ IsSole self.old id.0 → OnOk result (Owns self.old self.new id.0) }
        ensures alone { OnOk result (IsSole self.new id.0) }
        ensures err { OnErr result (self.new ≡ self.old) }
    {
        let view = self.views[id.0 as usize];
        let lot = &self.lots[view.block];
        if lot.users == 1 {
            return Ok(());
        }
        let block = copied(self.alloc, &lot.block, view)?;
        let Some(held) = counted(self.held, &block) else {
            return Err(NoMemory);
        };
        let name = self.lots.insert(Lot { block, users: 1 })?;
        self.held = leave(&mut self.lots, held, view.block);
        self.views[id.0 as usize] = View::whole(name, view.columns, view.count);
        Ok(())
    }

    /// Puts a cell, which the view's kind holds, in place of the one at a column and a row. No other view lies on
    /// the view's block, so none sees it. Takes no memory.
    pub fn set(&mut self, id: ViewId, column: usize, row: usize, cell: Cell)
        requires live { IsLive self.old id.0 }
        requires sole { IsSole self.old id.0 }
        requires column { column < length (grid_at self.old id.0).columns }
        requires row { row < (grid_at self.old id.0).rows }
        requires held { (texts : List (List ℕ)) →
            holds (grid_at self.old id.0).kind (datum texts cell) ≡ true }
        ensures { self.new
            ≡ with_grid self.old id.0 (grid_with (grid_at self.old id.0) column row cell) }
    {
        let view = self.views[id.0 as usize];
        let lot = &mut self.lots[view.block];
        let _columns = lot.block.columns();
        lot.block.put(view.first + column, view.place(row), cell);
    }

    /// Ends a view. Takes no memory.
    pub fn release(&mut self, id: ViewId)
        requires { IsLive self.old id.0 }
        ensures { Ends self.old self.new id.0 }
    {
        let view = self.views.remove(id.0 as usize);
        let _room = self.views.capacity();
        self.held = leave(&mut self.lots, self.held, view.block);
        self.spare += 1;
    }

    /// Puts the columns of the first views before those of the last one, all on one block, and ends the first views.
    /// Each of them has a block of its own, all of one kind and with as many rows. The columns move through a list
    /// that has room for all of them, so that this takes no memory, and no cell is copied.
    pub fn join(&mut self, first: &[ViewId], last: ViewId, room: Vec<Column>)
        requires views { CanJoin self.old (numbers_of first.now) last.0 }
        requires empty { room.items ≡ [] }
        requires room { length (beside (map (grid_at self.old) (numbers_of first.now))
            (grid_at self.old last.0)).columns ≤ vec_capacity room }
        ensures joins { Joins self.old self.new (numbers_of first.now) last.0 }
        ensures held { total_of self.new ≡ total_of self.old }
    {
        let mut columns = room;
        // No more cells are counted than one number holds.
        let _held = self.held;
        for k in 0..first.len() {
            self.take(first[k], &mut columns);
        }
        self.put_before(last, columns);
    }

    // Ends a view that has a block of its own, and moves its columns behind those of a list with room for them.
    fn take(&mut self, id: ViewId, list: &mut Vec<Column>)
        requires apart { IsApart self.old id.0 }
        requires room { vec_len list.old + length (grid_at self.old id.0).columns
            ≤ vec_capacity list.old }
        ensures ended { Ends self.old self.new id.0 }
        ensures items { list.new.items ≡ list.old.items ++ columns_in (grid_at self.old id.0) }
        ensures fit { All (IsColumnOf (grid_at self.old id.0).kind (grid_at self.old id.0).rows)
            (columns_in (grid_at self.old id.0)) }
        ensures len { vec_len list.new
            ≡ vec_len list.old + length (grid_at self.old id.0).columns }
        ensures capacity { vec_capacity list.old ≤ vec_capacity list.new }
    {
        let view = self.views.remove(id.0 as usize);
        let _room = self.views.capacity();
        let lot = self.lots.remove(view.block);
        self.held -= lot.block.cells() as u64;
        self.spare += 1;
        move_shown(lot.block, view, list);
    }

    // Puts columns before those of a view that has a block of its own, through a list with room for all.
    fn put_before(&mut self, id: ViewId, list: Vec<Column>)
        requires apart { IsApart self.old id.0 }
        requires fit { FitBlock (grid_at self.old id.0).kind (grid_at self.old id.0).rows list.items }
        requires few { total_of self.old + length list.items * (grid_at self.old id.0).rows
            < 2 ^ 64 }
        requires room { vec_len list + length (grid_at self.old id.0).columns
            ≤ vec_capacity list }
        ensures { self.new ≡ with_block self.old id.0
            (block_with (grid_at self.old id.0).kind (grid_at self.old id.0).rows
            (list.items ++ columns_in (grid_at self.old id.0))) }
    {
        let view = self.views[id.0 as usize];
        let lot = self.lots.remove(view.block);
        let kind = lot.block.kind();
        let mut columns = list;
        self.held += (columns.len() * view.count) as u64;
        move_shown(lot.block, view, &mut columns);
        let count = columns.len();
        let block = Block::of_columns(kind, view.count, columns);
        let name = self.lots.insert_reserved(Lot { block, users: 1 });
        self.views[id.0 as usize] = View::whole(name, count, view.count);
    }

    /// The kind of a view's cells. Takes no memory.
    pub fn kind(&self, id: ViewId) -> Kind
        requires { IsLive self.now id.0 }
        ensures { result ≡ (grid_at self.now id.0).kind }
    {
        let view = self.views[id.0 as usize];
        self.lots[view.block].block.kind()
    }

    /// How many columns a view has. Takes no memory.
    pub fn columns(&self, id: ViewId) -> usize
        requires { IsLive self.now id.0 }
        ensures { result ≡ length (grid_at self.now id.0).columns }
    {
        self.views[id.0 as usize].columns
    }

    /// Whether a view has as many cells as its block, and so all of them. Takes no memory.
    pub fn full(&self, id: ViewId) -> bool
        requires { IsLive self.now id.0 }
        ensures { IsTrue result ↔ IsFull self.now id.0 }
    {
        let view = self.views[id.0 as usize];
        let cells = self.lots[view.block].block.cells();
        view.columns * view.count == cells
    }

    /// The cells of a column of a view. Takes no memory.
    pub fn column(&self, id: ViewId, column: usize) -> ColRef<'_>
        requires live { IsLive self.now id.0 }
        requires column { column < length (grid_at self.now id.0).columns }
        ensures kind { result.kind ≡ (grid_at self.now id.0).kind }
        ensures cells { result.cells ≡ slice_index_or (grid_at self.now id.0).columns column [] }
        ensures rows { length result.cells ≡ (grid_at self.now id.0).rows }
    {
        let view = self.views[id.0 as usize];
        shown(&self.lots[view.block].block, view, column)
    }

    /// Whether no other live view lies on the view's block. Takes no memory.
    pub fn sole(&self, id: ViewId) -> bool
        requires { IsLive self.now id.0 }
        ensures { IsTrue result ↔ IsSole self.now id.0 }
    {
        let view = self.views[id.0 as usize];
        self.lots[view.block].users == 1
    }

    /// How many cells the blocks have on which a live view lies, or 2^64 - 1 where there are more.
    /// Takes no memory.
    pub fn held(&self) -> u64
        ensures cells { result ≡ held_of self.now }
        ensures kept { KeepsBlocks self.now }
    {
        self.held
    }
}
