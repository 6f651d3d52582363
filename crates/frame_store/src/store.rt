// The live objects and their tables.
ghost use Rattle.std.specs.Prelude.{◌≡◌, ◌≢◌, ◌↔◌, ◌*◌, ◌<◌, ◌≤◌, ℕ, length, sum, map, All, Some, None, IsTrue, IfOk, IfSome, OnOk, OnErr};
ghost use Rattle.cell_core.specs.declared.grid.Shape.TheVariants.{Series, Frame};
ghost use Rattle.cell_core.specs.Grids.{AreRowsBelow};
ghost use Rattle.meaning_tables.specs.Table.{cell_count, column_at};
ghost use Rattle.meaning_tables.specs.Change.{with_column, without_column, with_labels, with_values};
ghost use Rattle.meaning_tables.specs.Valid.{AreHeadings, IsWhole};
ghost use Rattle.multi_index.specs.Axes.{HaveLevels};
ghost use Rattle.block_pool.specs.Pools.{cells_of};
ghost use Rattle.block_manager.specs.Managed.{cells_named};
ghost use Rattle.frame_store.specs.Setting.{AreSet};
ghost use Rattle.frame_store.specs.Parts.{block_column, table_column, table_of, cut_table, labelled, axis_of, AreRowsOf, AreColumnsOf, FitsRows, IsSingle, HaveRows, AreHeld, TakesHeading, table_behind};
ghost use Rattle.frame_store.specs.Stores.{IsStore, charged};

use crate::blocks::Blocks;
use crate::headings::Headings;
use crate::live::Object;
use crate::object::{ObjId, ObjRef};
use crate::table::Table;
use block_pool::Pool;
use cell_core::{Cells, Label, NoMemory, Places, Rows, Shape};
use column_core::{Block, ColRef};
use multi_index::Axis;
use slab::Slab;
use std::alloc::Global;
use std::mem;

/// A whole table for each live object. It keeps the allocator that it was made with.
///
/// Every call changes the table of the object that it names and no other. An object that is handed
/// in is live. The only refusal is `NoMemory`, which leaves every table as it was.
///
/// The columns of all objects lie on the blocks of one pool. An object that is derived from another one shares its blocks,
/// and what both hold counts once. A call that changes cells, columns or labels changes the blocks of the object that it
/// names and of no other.
#[derive(Drop)]
pub struct Store {
    alloc: Global,
    pool: Pool,
    objects: Slab<Object>,
    pub ghost kept: { IsStore objects.slots pool },
}

impl Store {
    ghost use Rattle.frame_store.specs.Objects.{tables, with_object, with_moved, with_replaced, table_on, held_of, holding_of, changing, CountsOnce, AreByKind, AreSoleIn, KeepBlocks, Raises, blocks_on, IsLiveIn, IsFree, Stays, Becomes, Alters, Turns};

    /// A store without objects. Takes no memory.
    pub fn new(alloc: Global) -> Store
        ensures tables { tables result ≡ (λ _. None) }
        ensures holding { (holding_of result).cells ≡ 0 }
    {
        Store {
            alloc,
            pool: Pool::new(alloc),
            objects: Slab::new(alloc),
        }
    }

    /// A new object with the table of these parts: the axis has a tuple for each row, the headings
    /// an entry for each column, and each block is one column, in their order. The number that it
    /// gets is that of no live object, and its columns of one kind lie on one block. `NoMemory`
    /// leaves the store as it was.
    pub fn add(
        &mut self,
        shape: Shape,
        axis: Axis,
        headings: Headings,
        blocks: Blocks,
    ) -> Result<ObjId, NoMemory>
        requires single { All IsSingle blocks }
        requires whole { IsWhole (table_of shape axis headings blocks) }
        ensures fresh { IfOk result (IsFree self.old) }
        ensures ok { IfOk result (λ id.
            Becomes self.old self.new id (table_of shape axis headings blocks)) }
        ensures err { OnErr result (Stays self.old self.new) }
        ensures held { Raises (charged (sum (map cells_of blocks)) result) self.old self.new }
        ensures blocks { KeepBlocks None self.old self.new }
        ensures by_kind { IfOk result (AreByKind self.new) }
    {
        self.insert(Table::new(shape, axis, headings, blocks))
    }

    /// A new object with the table. The number that it gets is that of no live object, and its columns
    /// of one kind lie on one block. `NoMemory` leaves the store as it was.
    pub fn insert(&mut self, table: Table) -> Result<ObjId, NoMemory>
        ensures fresh { IfOk result (IsFree self.old) }
        ensures ok { IfOk result (λ id. Becomes self.old self.new id table) }
        ensures err { OnErr result (Stays self.old self.new) }
        ensures held { Raises (charged (cell_count table) result) self.old self.new }
        ensures blocks { KeepBlocks None self.old self.new }
        ensures by_kind { IfOk result (AreByKind self.new) }
    {
        self.objects.reserve(1)?;
        let object = table.into_object(self.alloc, &mut self.pool)?;
        let key = self.objects.insert_reserved(object);
        Ok(ObjId(key as u64))
    }

    /// A new object with these rows of these columns of another, which stays as it is, under the axis
    /// and the headings. `NoMemory` leaves the store as it was.
    pub fn derive(
        &mut self,
        on: ObjId,
        shape: Shape,
        rows: Rows,
        columns: &Places,
        axis: Axis,
        headings: Headings,
    ) -> Result<ObjId, NoMemory>
        requires live { IsLiveIn self.old on }
        requires rows { AreRowsBelow rows (length (table_on self.old on).labels) }
        requires columns { AreColumnsOf (table_on self.old on) columns.now }
        requires labels { length axis.tuples ≡ rows.count }
        requires headed { length headings.labels ≡ length columns.now }
        requires headings { AreHeadings shape headings.columns_name headings.labels }
        ensures fresh { IfOk result (IsFree self.old) }
        ensures ok { IfOk result (λ id. Becomes self.old self.new id
            (cut_table shape axis headings (table_on self.old on) rows columns.now)) }
        ensures err { OnErr result (Stays self.old self.new) }
        ensures held { Raises 0 self.old self.new }
        ensures blocks { KeepBlocks None self.old self.new }
    {
        self.objects.reserve(1)?;
        let manager = self.objects[on.0 as usize].cut(&mut self.pool, rows, columns)?;
        let object = Object::new(shape, axis, headings, manager);
        let key = self.objects.insert_reserved(object);
        Ok(ObjId(key as u64))
    }

    /// A new object with the blocks, each of which is one column, before all columns of another object,
    /// which stays as it is, under the axis and the headings, one for each column of both. `NoMemory`
    /// leaves the store as it was.
    pub fn derive_behind(
        &mut self,
        on: ObjId,
        shape: Shape,
        first: Blocks,
        axis: Axis,
        headings: Headings,
    ) -> Result<ObjId, NoMemory>
        requires live { IsLiveIn self.old on }
        requires single { All IsSingle first }
        requires whole { IsWhole (table_behind shape axis headings first
            (table_on self.old on)) }
        ensures fresh { IfOk result (IsFree self.old) }
        ensures ok { IfOk result (λ id. Becomes self.old self.new id
            (table_behind shape axis headings first (table_on self.old on))) }
        ensures err { OnErr result (Stays self.old self.new) }
        ensures held { Raises (charged (sum (map cells_of first)) result) self.old self.new }
        ensures blocks { KeepBlocks None self.old self.new }
    {
        self.objects.reserve(1)?;
        let manager = self.objects[on.0 as usize].behind(&mut self.pool, first)?;
        let object = Object::new(shape, axis, headings, manager);
        let key = self.objects.insert_reserved(object);
        Ok(ObjId(key as u64))
    }

    /// Puts the values, one for each row and column, row by row. Where a cell is given twice, the
    /// later value stays: each cell is then the last value given for it, else what it was.
    /// `NoMemory` leaves the store as it was.
    pub fn set_cells(
        &mut self,
        on: ObjId,
        rows: &Places,
        columns: &Places,
        values: &Cells,
    ) -> Result<(), NoMemory>
        requires live { IsLiveIn self.old on }
        requires rows { AreRowsOf (table_on self.old on) rows.now }
        requires columns { AreColumnsOf (table_on self.old on) columns.now }
        requires values { length values.now ≡ length rows.now * length columns.now }
        requires held { AreHeld (table_on self.old on).columns columns.now values.now }
        ensures ok { OnOk result (Alters self.old self.new on
            (λ t. with_values t rows.now columns.now values.now)) }
        ensures err { OnErr result (Stays self.old self.new) }
        ensures law { OnOk result (AreSet rows.now columns.now values.now
            (table_on self.old on).columns (table_on self.new on).columns) }
        ensures held { Raises (charged (cells_named (table_on self.old on).columns columns.now)
            result) self.old self.new }
        ensures blocks { KeepBlocks (changing on.0 result) self.old self.new }
        ensures sole { OnOk result (AreSoleIn self.old on columns.now →
            blocks_on self.new on.0 ≡ blocks_on self.old on.0) }
    {
        self.objects[on.0 as usize].set_cells(&mut self.pool, rows, columns, values)
    }

    /// Replaces a column, which the block is, and its heading, or appends them last where the number
    /// is that of the columns. `NoMemory` leaves the store as it was.
    pub fn put_column(
        &mut self,
        on: ObjId,
        column: usize,
        heading: Option<Label>,
        block: Block,
    ) -> Result<(), NoMemory>
        requires live { IsLiveIn self.old on }
        requires column { column ≤ length (table_on self.old on).columns }
        requires single { IsSingle block }
        requires rows { FitsRows (table_on self.old on) block }
        requires headings { TakesHeading (table_on self.old on) column heading }
        ensures ok { OnOk result (Alters self.old self.new on
            (λ t. with_column t column heading (block_column block))) }
        ensures err { OnErr result (Stays self.old self.new) }
        ensures held { Raises (charged (cells_of block) result) self.old self.new }
        ensures blocks { KeepBlocks (changing on.0 result) self.old self.new }
    {
        self.objects[on.0 as usize].put_column(&mut self.pool, column, heading, block)
    }

    /// Puts the column of a Series, which ends, as `put_column` puts a block: it moves, and none of its
    /// cells is copied. `NoMemory` leaves the store as it was.
    pub fn move_column(
        &mut self,
        on: ObjId,
        column: usize,
        heading: Option<Label>,
        series: ObjId,
    ) -> Result<(), NoMemory>
        requires live { IsLiveIn self.old on }
        requires series_live { IsLiveIn self.old series }
        requires different { on.0 ≢ series.0 }
        requires column { column ≤ length (table_on self.old on).columns }
        requires series { (table_on self.old series).shape ≡ Series }
        requires rows { length (table_on self.old series).labels
            ≡ length (table_on self.old on).labels }
        requires headings { TakesHeading (table_on self.old on) column heading }
        ensures ok { OnOk result (Turns self.old self.new
            (λ live. with_moved live on.0 column heading series.0)) }
        ensures err { OnErr result (Stays self.old self.new) }
        ensures held { Raises 0 self.old self.new }
        ensures blocks { KeepBlocks (changing on.0 result) self.old self.new }
    {
        let source = self.objects.remove(series.0 as usize);
        let object = &mut self.objects[on.0 as usize];
        match object.take_column(&mut self.pool, column, heading, source) {
            Ok(()) => Ok(()),
            Err(source) => {
                self.objects.insert_reserved(source);
                Err(NoMemory)
            }
        }
    }

    /// Removes a column and its heading. `NoMemory` leaves the store as it was.
    pub fn remove_column(&mut self, on: ObjId, column: usize) -> Result<(), NoMemory>
        requires live { IsLiveIn self.old on }
        requires column { column < length (table_on self.old on).columns }
        requires frame { (table_on self.old on).shape ≡ Frame }
        ensures ok { OnOk result (Alters self.old self.new on (λ t. without_column t column)) }
        ensures err { OnErr result (Stays self.old self.new) }
        ensures held { Raises 0 self.old self.new }
        ensures blocks { KeepBlocks (changing on.0 result) self.old self.new }
    {
        self.objects[on.0 as usize].remove_column(&mut self.pool, column)
    }

    /// Gives an object the table of another one, which ends. Takes no memory.
    pub fn replace(&mut self, on: ObjId, by: ObjId)
        requires live { IsLiveIn self.old on }
        requires by { IsLiveIn self.old by }
        requires different { on.0 ≢ by.0 }
        ensures ok { Turns self.old self.new (λ live. with_replaced live on.0 by.0) }
        ensures held { Raises 0 self.old self.new }
        ensures blocks { KeepBlocks (Some on.0) self.old self.new }
    {
        let object = self.objects.remove(by.0 as usize);
        let ended = mem::replace(&mut self.objects[on.0 as usize], object);
        ended.release(&mut self.pool);
    }

    /// Gives an object another axis, with as many tuples as each column has cells. Takes no memory.
    pub fn replace_axis(&mut self, on: ObjId, axis: Axis)
        requires live { IsLiveIn self.old on }
        requires rows { HaveRows (length axis.tuples) (table_on self.old on).columns }
        ensures ok { Alters self.old self.new on (λ t. with_labels t axis.tuples axis.names) }
        ensures held { Raises 0 self.old self.new }
        ensures blocks { KeepBlocks None self.old self.new }
    {
        self.objects[on.0 as usize].replace_axis(axis);
    }

    /// Whether the number is that of a live object. Takes no memory.
    pub fn contains(&self, id: ObjId) -> bool
        ensures { IsTrue result ↔ IsLiveIn self.now id }
    {
        self.objects.contains(id.0 as usize)
    }

    /// Ends an object. Takes no memory.
    pub fn drop_object(&mut self, on: ObjId)
        requires { IsLiveIn self.old on }
        ensures ok { Turns self.old self.new (λ live. with_object live on.0 None) }
        ensures held { Raises 0 self.old self.new }
        ensures blocks { KeepBlocks None self.old self.new }
    {
        let object = self.objects.remove(on.0 as usize);
        object.release(&mut self.pool);
    }

    /// The table of an object. Takes no memory.
    pub fn read(&self, on: ObjId) -> ObjRef<'_>
        requires { IsLiveIn self.now on }
        ensures table { tables self.now on.0 ≡ Some result }
        ensures whole { IsWhole result }
        ensures levels { HaveLevels (length result.level_names) result.labels }
    {
        self.objects[on.0 as usize].read(&self.pool)
    }

    /// A column of an object. Takes no memory.
    pub fn column(&self, on: ObjId, column: usize) -> ColRef<'_>
        requires live { IsLiveIn self.now on }
        requires column { column < length (table_on self.now on).columns }
        ensures column { column_at (table_on self.now on).columns column ≡ table_column result }
        ensures rows { length result.cells ≡ length (table_on self.now on).labels }
    {
        self.objects[on.0 as usize].column(&self.pool, column)
    }

    /// The axis of an object. Takes no memory.
    pub fn axis(&self, on: ObjId) -> &Axis
        requires { IsLiveIn self.now on }
        ensures { labelled result.now ≡ axis_of (table_on self.now on) }
    {
        self.objects[on.0 as usize].axis()
    }

    /// How many cells the blocks have on which the columns of live objects lie, each block counted once, or
    /// 2^64 - 1 where there are more: 0 where no object is live, and at least the rows of each table with a column. Takes no
    /// memory.
    pub fn held(&self) -> u64
        ensures count { result ≡ held_of self.now }
        ensures once { CountsOnce (tables self.now) (holding_of self.now) }
        ensures none { ((id : ℕ) → tables self.now id ≡ None) → result ≡ 0 }
        ensures least { (id : ℕ) → IfSome (tables self.now id) (λ t.
            0 < length t.columns → length t.labels ≤ (holding_of self.now).cells) }
    {
        self.pool.held()
    }
}
