// What a store keeps of a live object.
ghost use Rattle.std.specs.Prelude.{◌≡◌, ◌*◌, ◌<◌, ◌≤◌, ◌++◌, [], length, map, sum, All, IfOk, IfErr, OnOk, OnErr};
ghost use Rattle.cell_core.specs.declared.cell.Cell.TheVariants.{Na};
ghost use Rattle.cell_core.specs.declared.grid.Shape.TheVariants.{Series, Frame};
ghost use Rattle.cell_core.specs.Grids.{AreRowsBelow};
ghost use Rattle.meaning_tables.specs.Table.{column_at};
ghost use Rattle.meaning_tables.specs.Change.{cut_columns, put_at, with_column, without_column, with_values};
ghost use Rattle.multi_index.specs.Axes.{HaveLevels};
ghost use Rattle.meaning_tables.specs.Valid.{IsWhole};
ghost use Rattle.block_pool.specs.Pools.{cells_of};
ghost use Rattle.block_manager.specs.Managed.{AreLive, AreSole, Exchanges, Keeps, RaisesBy, StandsOn, Stays, StayOnBlocks, cells_named, columns_on};
ghost use Rattle.frame_store.specs.Parts.{block_column, columns_of, table_column, AreBelow, AreRowsOf, AreColumnsOf, FitsRows, HaveRows, IsSingle, AreHeld, TakesHeading};
ghost use Rattle.frame_store.specs.Stores.{IsKeptOn, Trades, charged, manager_views, table_over};

use crate::blocks::Blocks;
use crate::columns::put_at;
use crate::headings::Headings;
use crate::object::{Columns, ObjRef};
use block_manager::Manager;
use block_pool::Pool;
use cell_core::{Cells, Label, NoMemory, Places, Rows, Shape};
use column_core::{Block, ColRef};
use multi_index::Axis;
use std::marker::Model;

/// The axis and the headings of an object, and its columns, which a manager has on the store's pool.
#[derive(Drop)]
pub struct Object {
    shape: Shape,
    axis: Axis,
    columns_name: Option<Label>,
    headings: Vec<Option<Label>>,
    manager: Manager,
}

impl Model for Object {
    ghost use Rattle.frame_store.specs.Stores.{ObjectValue};

    ghost Value = { ObjectValue };

    ghost view = { λ o. record {
      shape = o.shape;
      axis = o.axis;
      headings = record { columns_name = o.columns_name; labels = o.headings.items };
      manager = o.manager;
    } };
}

impl Object {
    /// The object of these parts.
    pub(crate) fn new(shape: Shape, axis: Axis, headings: Headings, manager: Manager) -> Object
        ensures { result ≡ record {
          shape = shape;
          axis = axis;
          headings = headings;
          manager = manager;
        } }
    {
        Object {
            shape,
            axis,
            columns_name: headings.columns_name,
            headings: headings.labels,
            manager,
        }
    }

    /// A manager of these rows of the columns at these places, which shares their cells.
    pub(crate) fn cut(
        &self,
        pool: &mut Pool,
        rows: Rows,
        columns: &Places,
    ) -> Result<Manager, NoMemory>
        requires kept { IsKeptOn pool.old self.now }
        requires rows { AreRowsBelow rows (length self.now.axis.tuples) }
        requires columns { AreColumnsOf (table_over pool.old self.now) columns.now }
        ensures columns { IfOk result (λ made. columns_on pool.new made
            ≡ cut_columns Na (columns_on pool.old self.now.manager) rows columns.now) }
        ensures stands { IfOk result (λ made. StandsOn pool.new made) }
        ensures trades { Trades pool.old pool.new [] (manager_views result) }
        ensures held { RaisesBy 0 pool.old pool.new }
    {
        cut(&self.manager, pool, rows, columns)
    }

    /// A manager of the blocks, and behind them of all columns, which share their cells.
    pub(crate) fn behind(&self, pool: &mut Pool, first: Blocks) -> Result<Manager, NoMemory>
        requires kept { IsKeptOn pool.old self.now }
        requires single { All IsSingle first }
        ensures columns { IfOk result (λ made. columns_on pool.new made
            ≡ columns_of first ++ columns_on pool.old self.now.manager) }
        ensures stands { IfOk result (λ made. StandsOn pool.new made) }
        ensures trades { Trades pool.old pool.new [] (manager_views result) }
        ensures held { RaisesBy (charged (sum (map cells_of first)) result) pool.old pool.new }
    {
        behind(&self.manager, pool, first.items, self.axis.len())
    }

    /// Puts the values, one for each row and column, row by row, as the manager does.
    pub(crate) fn set_cells(
        &mut self,
        pool: &mut Pool,
        rows: &Places,
        columns: &Places,
        values: &Cells,
    ) -> Result<(), NoMemory>
        requires kept { IsKeptOn pool.old self.old }
        requires rows { AreRowsOf (table_over pool.old self.old) rows.now }
        requires columns { AreColumnsOf (table_over pool.old self.old) columns.now }
        requires values { length values.now ≡ length rows.now * length columns.now }
        requires held { AreHeld (table_over pool.old self.old).columns columns.now values.now }
        ensures table { OnOk result (table_over pool.new self.new
            ≡ with_values (table_over pool.old self.old) rows.now columns.now values.now) }
        ensures kept { IsKeptOn pool.new self.new }
        ensures trades { Trades pool.old pool.new self.old.manager.views self.new.manager.views }
        ensures held { RaisesBy (charged (cells_named (columns_on pool.old self.old.manager)
            columns.now) result) pool.old pool.new }
        ensures sole { OnOk result (AreSole pool.old self.old.manager columns.now →
            (self.new ≡ self.old) × StayOnBlocks pool.old pool.new) }
        ensures err { OnErr result ((self.new ≡ self.old) × Stays pool.old pool.new) }
    {
        self.manager.set_cells(pool, rows, columns, values)
    }

    /// Replaces a column, which the block is, and its heading, or appends them last where the number is
    /// that of the columns.
    pub(crate) fn put_column(
        &mut self,
        pool: &mut Pool,
        column: usize,
        heading: Option<Label>,
        block: Block,
    ) -> Result<(), NoMemory>
        requires kept { IsKeptOn pool.old self.old }
        requires column { column ≤ length (table_over pool.old self.old).columns }
        requires single { IsSingle block }
        requires rows { FitsRows (table_over pool.old self.old) block }
        requires headings { TakesHeading (table_over pool.old self.old) column heading }
        ensures table { OnOk result (table_over pool.new self.new
            ≡ with_column (table_over pool.old self.old) column heading (block_column block)) }
        ensures kept { IsKeptOn pool.new self.new }
        ensures trades { Trades pool.old pool.new self.old.manager.views self.new.manager.views }
        ensures held { RaisesBy (charged (cells_of block) result) pool.old pool.new }
        ensures err { OnErr result ((self.new ≡ self.old) × Stays pool.old pool.new) }
    {
        self.headings.reserve(1)?;
        put(&mut self.manager, pool, column, block)?;
        put_at(&mut self.headings, column, heading);
        Ok(())
    }

    /// Takes the column of a Series, as `put_column` takes a block. Where memory is refused the Series is
    /// handed back.
    pub(crate) fn take_column(
        &mut self,
        pool: &mut Pool,
        column: usize,
        heading: Option<Label>,
        from: Object,
    ) -> Result<(), Object>
        requires kept { IsKeptOn pool.old self.old }
        requires from { IsKeptOn pool.old from }
        requires apart { AreLive pool.old (self.old.manager.views ++ from.manager.views) }
        requires column { column ≤ length (table_over pool.old self.old).columns }
        requires series { from.shape ≡ Series }
        requires rows { length from.axis.tuples ≡ length self.old.axis.tuples }
        requires headings { TakesHeading (table_over pool.old self.old) column heading }
        ensures table { OnOk result (table_over pool.new self.new
            ≡ with_column (table_over pool.old self.old) column heading
            (column_at (table_over pool.old from).columns 0)) }
        ensures kept { IsKeptOn pool.new self.new }
        ensures trades { OnOk result (Trades pool.old pool.new
            (self.old.manager.views ++ from.manager.views) self.new.manager.views) }
        ensures held { RaisesBy 0 pool.old pool.new }
        ensures err { OnErr result ((self.new ≡ self.old) × (pool.new ≡ pool.old)) }
        ensures back { IfErr result (λ back. back ≡ from) }
    {
        if self.headings.reserve(1).is_err() {
            return Err(from);
        }
        match take(&mut self.manager, pool, column, from) {
            Ok(()) => {
                put_at(&mut self.headings, column, heading);
                Ok(())
            }
            Err(from) => Err(from),
        }
    }

    /// Removes a column and its heading.
    pub(crate) fn remove_column(&mut self, pool: &mut Pool, column: usize) -> Result<(), NoMemory>
        requires kept { IsKeptOn pool.old self.old }
        requires column { column < length (table_over pool.old self.old).columns }
        requires frame { self.old.shape ≡ Frame }
        ensures table { OnOk result (table_over pool.new self.new
            ≡ without_column (table_over pool.old self.old) column) }
        ensures kept { IsKeptOn pool.new self.new }
        ensures trades { Trades pool.old pool.new self.old.manager.views self.new.manager.views }
        ensures held { RaisesBy 0 pool.old pool.new }
        ensures err { OnErr result ((self.new ≡ self.old) × Stays pool.old pool.new) }
    {
        self.manager.remove_column(pool, column)?;
        self.headings.remove(column);
        Ok(())
    }

    /// Gives the object another axis.
    pub(crate) fn replace_axis(&mut self, axis: Axis)
        ensures { self.new ≡ record self.old { axis = axis } }
    {
        self.axis = axis;
    }

    /// Ends the views of the object's columns.
    pub(crate) fn release(self, pool: &mut Pool)
        requires { IsKeptOn pool.old self }
        ensures trades { Trades pool.old pool.new self.manager.views [] }
        ensures held { RaisesBy 0 pool.old pool.new }
    {
        self.manager.release(pool);
    }

    /// The table, as it is read.
    pub(crate) fn read<'a>(&'a self, pool: &'a Pool) -> ObjRef<'a>
        requires { IsKeptOn pool.now self.now }
        ensures table { result ≡ table_over pool.now self.now }
        ensures whole { IsWhole result }
        ensures levels { HaveLevels (length result.level_names) result.labels }
    {
        let _ = self.axis.levels();
        ObjRef {
            shape: self.shape,
            axis: &self.axis,
            columns_name: self.columns_name,
            headings: &self.headings,
            columns: Columns::Placed(pool, &self.manager),
        }
    }

    /// A column.
    pub(crate) fn column<'a>(&self, pool: &'a Pool, column: usize) -> ColRef<'a>
        requires kept { IsKeptOn pool.now self.now }
        requires column { column < length (table_over pool.now self.now).columns }
        ensures column { column_at (table_over pool.now self.now).columns column
            ≡ table_column result }
        ensures rows { length result.cells ≡ length self.now.axis.tuples }
    {
        self.manager.column(pool, column)
    }

    /// The axis of the rows.
    pub(crate) fn axis(&self) -> &Axis
        ensures { result.now ≡ self.now.axis }
    {
        &self.axis
    }
}

// The columns at these places and rows, which share their cells with those of a manager.
fn cut(
    manager: &Manager,
    pool: &mut Pool,
    rows: Rows,
    columns: &Places,
) -> Result<Manager, NoMemory>
    requires stands { StandsOn pool.old manager.now }
    requires columns { AreBelow (length manager.now.places) columns.now }
    requires rows { All (λ c. AreRowsBelow rows (length c.cells))
        (columns_on pool.old manager.now) }
    ensures columns { IfOk result (λ made. columns_on pool.new made
        ≡ cut_columns Na (columns_on pool.old manager.now) rows columns.now) }
    ensures stands { IfOk result (λ made. StandsOn pool.new made) }
    ensures trades { Trades pool.old pool.new [] (manager_views result) }
    ensures held { RaisesBy 0 pool.old pool.new }
{
    let picked = manager.select(pool, columns)?;
    let made = picked.slice(pool, rows);
    picked.release(pool);
    made
}

// Replaces a column, which the block is, or appends it last.
fn put(manager: &mut Manager, pool: &mut Pool, column: usize, block: Block) -> Result<(), NoMemory>
    requires stands { StandsOn pool.old manager.old }
    requires column { column ≤ length manager.old.places }
    requires single { IsSingle block }
    requires rows { HaveRows block.rows (columns_on pool.old manager.old) }
    ensures columns { OnOk result (columns_on pool.new manager.new
        ≡ put_at (columns_on pool.old manager.old) column (block_column block)) }
    ensures stands { StandsOn pool.new manager.new }
    ensures trades { Trades pool.old pool.new manager.old.views manager.new.views }
    ensures held { RaisesBy (charged (cells_of block) result) pool.old pool.new }
    ensures err { OnErr result ((manager.new ≡ manager.old) × Stays pool.old pool.new) }
{
    if manager.put_column(pool, column, block).is_err() {
        return Err(NoMemory);
    }
    Ok(())
}

// Takes the column of a Series, which is handed back where memory is refused.
fn take(manager: &mut Manager, pool: &mut Pool, column: usize, from: Object) -> Result<(), Object>
    requires stands { StandsOn pool.old manager.old }
    requires from { IsKeptOn pool.old from }
    requires apart { AreLive pool.old (manager.old.views ++ from.manager.views) }
    requires column { column ≤ length manager.old.places }
    requires series { from.shape ≡ Series }
    ensures columns { OnOk result (columns_on pool.new manager.new
        ≡ put_at (columns_on pool.old manager.old) column
        (column_at (columns_on pool.old from.manager) 0)) }
    ensures stands { StandsOn pool.new manager.new }
    ensures trades { OnOk result (Trades pool.old pool.new
        (manager.old.views ++ from.manager.views) manager.new.views) }
    ensures held { RaisesBy 0 pool.old pool.new }
    ensures err { OnErr result ((manager.new ≡ manager.old) × (pool.new ≡ pool.old)) }
    ensures back { IfErr result (λ back. back ≡ from) }
{
    let Object {
        shape,
        axis,
        columns_name,
        headings,
        manager: taken,
    } = from;
    match manager.take_column(pool, column, taken) {
        Ok(()) => Ok(()),
        Err(taken) => Err(Object {
            shape,
            axis,
            columns_name,
            headings,
            manager: taken,
        }),
    }
}

// The blocks, and behind them all columns of a manager, each of so many rows, whose cells they share.
fn behind(
    manager: &Manager,
    pool: &mut Pool,
    first: Vec<Block>,
    count: usize,
) -> Result<Manager, NoMemory>
    requires stands { StandsOn pool.old manager.now }
    requires rows { HaveRows count (columns_on pool.old manager.now) }
    requires single { All IsSingle first.items }
    ensures columns { IfOk result (λ made. columns_on pool.new made
        ≡ columns_of first.items ++ columns_on pool.old manager.now) }
    ensures stands { IfOk result (λ made. StandsOn pool.new made) }
    ensures trades { Trades pool.old pool.new [] (manager_views result) }
    ensures held { RaisesBy (charged (sum (map cells_of first.items)) result)
        pool.old pool.new }
{
    let rows = Rows {
        start: 0,
        step: 1,
        count,
    };
    let mut made = manager.slice(pool, rows)?;
    match made.put_first(pool, first) {
        Ok(()) => Ok(made),
        Err(NoMemory) => {
            made.release(pool);
            Err(NoMemory)
        }
    }
}
