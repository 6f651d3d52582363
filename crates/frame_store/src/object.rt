// Objects by number, and tables to be read.
ghost use Rattle.std.specs.Prelude.{◌≡◌, ◌<◌, length, slice_get, Some};
ghost use Rattle.meaning_tables.specs.Table.{column_at};
ghost use Rattle.frame_store.specs.Grids.{grid_of};
ghost use Rattle.frame_store.specs.Parts.{labelled, axis_of, table_column};

use block_manager::Manager;
use block_pool::Pool;
use cell_core::{Cell, Grid, Kind, Label, Shape};
use column_core::{Block, ColRef};
use multi_index::Axis;
use std::marker::Model;

/// The number of an object of a store.
#[derive(Clone, Copy, Debug, PartialEq, Eq, Hash)]
pub struct ObjId(pub(crate) u64);

/// Columns that are read: blocks of one column each, or those of a manager on its pool.
#[derive(Clone, Copy)]
pub enum Columns<'a> {
    Owned(&'a Vec<Block>),
    Placed(&'a Pool, &'a Manager),
}

/// The table of an object, borrowed.
#[derive(Drop)]
pub struct ObjRef<'a> {
    pub(crate) shape: Shape,
    pub(crate) axis: &'a Axis,
    pub(crate) columns_name: Option<Label>,
    pub(crate) headings: &'a Vec<Option<Label>>,
    pub(crate) columns: Columns<'a>,
}

impl<'a> Model for ObjRef<'a> {
    ghost use Rattle.meaning_tables.specs.Table.{NumberedTable};

    ghost Value = { NumberedTable };

    ghost use Rattle.frame_store.specs.Views.{read_table, IsRead};

    ghost view = { read_table };

    ghost invariant = { IsRead };
}

impl ObjRef<'_> {
    /// The axis of the rows. Takes no memory.
    pub fn axis(&self) -> &Axis
        ensures { labelled result.now ≡ axis_of self.now }
    {
        self.axis
    }

    /// A column, counted from 0. Takes no memory.
    pub fn column(&self, column: usize) -> ColRef<'_>
        requires { column < length self.now.columns }
        ensures column { column_at self.now.columns column ≡ table_column result }
        ensures rows { length result.cells ≡ length self.now.labels }
    {
        match self.columns {
            Columns::Owned(blocks) => blocks[column].column(0),
            Columns::Placed(pool, manager) => manager.column(pool, column),
        }
    }
}

impl Grid for ObjRef<'_> {
    ghost table = { grid_of };

    fn shape(&self) -> Shape {
        self.shape
    }

    fn rows(&self) -> usize {
        self.axis.len()
    }

    fn columns(&self) -> usize {
        self.headings.len()
    }

    fn levels(&self) -> usize {
        self.axis.levels()
    }

    fn kind(&self, column: usize) -> Kind {
        self.column(column).kind()
    }

    fn heading(&self, column: usize) -> Option<Label> {
        self.headings[column]
    }

    fn columns_name(&self) -> Option<Label> {
        self.columns_name
    }

    fn level_name(&self, level: usize) -> Option<Label> {
        self.axis.name(level)
    }

    fn label(&self, row: usize, level: usize) -> Label {
        self.axis.label(row, level)
    }

    fn cell(&self, row: usize, column: usize) -> Cell {
        self.column(column).cell(row)
    }
}
