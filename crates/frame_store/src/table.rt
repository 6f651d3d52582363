// A table that isn't an object yet.
ghost use Rattle.std.specs.Prelude.{◌≡◌, ◌*◌, ◌≤◌, [], length, All, IfOk, OnOk, OnErr};
ghost use Rattle.meaning_tables.specs.Change.{with_column, with_values};
ghost use Rattle.meaning_tables.specs.Valid.{IsWhole};
ghost use Rattle.block_manager.specs.Managed.{AreJoined, RaisesBy};
ghost use Rattle.frame_store.specs.Setting.{AreSet};
ghost use Rattle.frame_store.specs.Parts.{block_column, table_of, AreRowsOf, AreColumnsOf, FitsRows, IsSingle, AreHeld, TakesHeading};
ghost use Rattle.meaning_tables.specs.Table.{cell_count};
ghost use Rattle.frame_store.specs.Stores.{IsKeptOn, Trades, charged, object_views, table_over};

use crate::blocks::Blocks;
use crate::columns::put_at;
use crate::headings::Headings;
use crate::live::Object;
use crate::object::{Columns, ObjRef};
use crate::values::put_values;
use block_manager::Manager;
use block_pool::Pool;
use cell_core::{Cells, Label, NoMemory, Places, Shape};
use column_core::Block;
use multi_index::Axis;
use std::alloc::Global;
use std::marker::Model;

/// A whole table: its axis, its headings, and its columns, one to a block. It becomes an object by
/// [`Store::insert`](crate::Store::insert).
#[derive(Drop)]
pub struct Table {
    shape: Shape,
    axis: Axis,
    columns_name: Option<Label>,
    headings: Vec<Option<Label>>,
    blocks: Vec<Block>,
}

impl Model for Table {
    ghost use Rattle.meaning_tables.specs.Table.{NumberedTable};

    ghost Value = { NumberedTable };

    ghost use Rattle.frame_store.specs.Views.{kept_table, IsKept};

    ghost view = { kept_table };

    ghost invariant = { IsKept };
}

impl Table {
    /// The table of these parts: the axis has a tuple for each row, the headings an entry for each
    /// column, and each block is one column, in their order. Takes no memory.
    pub fn new(shape: Shape, axis: Axis, headings: Headings, blocks: Blocks) -> Table
        requires single { All IsSingle blocks }
        requires whole { IsWhole (table_of shape axis headings blocks) }
        ensures { result ≡ table_of shape axis headings blocks }
    {
        Table {
            shape,
            axis,
            columns_name: headings.columns_name,
            headings: headings.labels,
            blocks: blocks.items,
        }
    }

    /// The table as that of an object is read, before it is one. Takes no memory.
    pub fn read(&self) -> ObjRef<'_>
        ensures { result ≡ self.now }
    {
        ObjRef {
            shape: self.shape,
            axis: &self.axis,
            columns_name: self.columns_name,
            headings: &self.headings,
            columns: Columns::Owned(&self.blocks),
        }
    }

    /// The object with the parts of the table, whose columns come onto blocks of the pool, those of one
    /// kind onto one. `NoMemory` leaves the views of the pool and their blocks as they were.
    pub(crate) fn into_object(self, alloc: Global, pool: &mut Pool) -> Result<Object, NoMemory>
        ensures table { IfOk result (λ object. table_over pool.new object ≡ self) }
        ensures kept { IfOk result (λ object. IsKeptOn pool.new object) }
        ensures trades { Trades pool.old pool.new [] (object_views result) }
        ensures held { RaisesBy (charged (cell_count self) result) pool.old pool.new }
        ensures joined { IfOk result (λ object. AreJoined pool.new object.manager) }
    {
        let manager = Manager::of_blocks(alloc, pool, self.blocks)?;
        let headings = Headings {
            columns_name: self.columns_name,
            labels: self.headings,
        };
        Ok(Object::new(self.shape, self.axis, headings, manager))
    }

    /// Puts the values, one for each row and column, row by row. Where a cell is given twice, the
    /// later value stays. Takes no memory.
    pub fn set_cells(&mut self, rows: &Places, places: &Places, values: &Cells)
        requires rows { AreRowsOf self.old rows.now }
        requires places { AreColumnsOf self.old places.now }
        requires values { length values.now ≡ length rows.now * length places.now }
        requires held { AreHeld self.old.columns places.now values.now }
        ensures table { self.new ≡ with_values self.old rows.now places.now values.now }
        ensures law { AreSet rows.now places.now values.now self.old.columns self.new.columns }
    {
        put_values(&mut self.blocks, self.axis.len(), rows, places, values);
    }

    /// Replaces a column, which the block is, and its heading, or appends them last where the number
    /// is that of the columns. `NoMemory` leaves the table as it was.
    pub fn put_column(
        &mut self,
        column: usize,
        heading: Option<Label>,
        block: Block,
    ) -> Result<(), NoMemory>
        requires column { column ≤ length self.old.columns }
        requires single { IsSingle block }
        requires rows { FitsRows self.old block }
        requires headings { TakesHeading self.old column heading }
        ensures ok { OnOk result
            (self.new ≡ with_column self.old column heading (block_column block)) }
        ensures err { OnErr result (self.new ≡ self.old) }
    {
        self.headings.reserve(1)?;
        self.blocks.reserve(1)?;
        put_at(&mut self.headings, column, heading);
        put_at(&mut self.blocks, column, block);
        Ok(())
    }
}
