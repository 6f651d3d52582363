// Blocks: columns of one kind and one length.
ghost use Rattle.std.specs.Prelude.{◌≡◌, ◌<◌, ◌≤◌, ◌+◌, ◌*◌, ◌++◌, All, ◌∷◌, [], ℕ, List, true, length, map, take, replicate, slice_get, slice_index_or, Some, IfOk, vec_len, vec_capacity};
ghost use Rattle.cell_core.specs.Grids.{AreRowsBelow};
ghost use Rattle.cell_core.specs.declared.cell.Cell.TheVariants.{Na};
ghost use Rattle.meaning_cells.specs.Cell.{datum, holds};
ghost use Rattle.meaning_cells.specs.Block.{strided, filled_with, with_cell};
ghost use Rattle.column_core.specs.Blocks.{FitBlock, block_with, column_in, columns_in, columns_of, kind_of, put_in};

use crate::columns::{ColRef, Column};
use cell_core::{Cell, Kind, NoMemory, Rows};
use std::alloc::Global;
use std::marker::Model;

/// One column, or columns of one kind and one length, each in its own memory.
#[derive(Drop)]
pub enum Parts {
    /// One column.
    One(Column),
    /// So many columns, maybe none, of this kind.
    Many(Kind, Vec<Column>),
}

/// Columns of one kind and one length. Contracts see the kind, the number of rows and the cells by column and row.
#[derive(Drop)]
pub struct Block {
    parts: Parts,
    rows: usize,
}

impl Model for Block {
    ghost use Rattle.column_core.specs.Blocks.{CellBlock, block_of, FitParts};

    ghost Value = { CellBlock };

    ghost view = { λ b. block_of b.parts b.rows };

    ghost invariant = { λ b. FitParts b.parts b.rows };
}

impl Column {
    /// The column as a block of one column. Takes no memory.
    pub fn into_block(self) -> Block
        ensures { result ≡ record {
          kind = self.kind;
          rows = length self.cells;
          columns = self.cells ∷ [];
        } }
    {
        let rows = self.as_ref().len();
        Block {
            parts: Parts::One(self),
            rows,
        }
    }
}

impl Block {
    /// A block of so many columns and rows whose cells are all NA. `NoMemory` may come in place of it.
    pub fn new(alloc: Global, kind: Kind, columns: usize, rows: usize) -> Result<Block, NoMemory>
        ensures { IfOk result (λ b. b
            ≡ record { kind = kind; rows = rows; columns = filled_with Na columns rows }) }
    {
        if columns == 1 {
            return Ok(Column::repeat(alloc, kind, Cell::Na, rows)?.into_block());
        }
        if columns.checked_mul(rows).is_none() {
            return Err(NoMemory);
        }
        let blank = blank_columns(alloc, kind, columns, rows)?;
        Ok(Block::of_columns(kind, rows, blank))
    }

    /// The block of these columns, all of this kind and of so many rows. Takes no memory.
    pub fn of_columns(kind: Kind, rows: usize, columns: Vec<Column>) -> Block
        requires { FitBlock kind rows columns.items }
        ensures { result ≡ block_with kind rows columns.items }
    {
        Block {
            parts: Parts::Many(kind, columns),
            rows,
        }
    }

    /// The kind of the cells. Takes no memory.
    pub fn kind(&self) -> Kind
        ensures { result ≡ self.now.kind }
    {
        match &self.parts {
            Parts::One(column) => column.as_ref().kind(),
            Parts::Many(kind, _) => *kind,
        }
    }

    /// How many columns there are. Takes no memory.
    pub fn columns(&self) -> usize
        ensures { result ≡ length self.now.columns }
    {
        match &self.parts {
            Parts::One(_) => 1,
            Parts::Many(_, columns) => columns.len(),
        }
    }

    /// How many rows each column has. Takes no memory.
    pub fn rows(&self) -> usize
        ensures { result ≡ self.now.rows }
    {
        self.rows
    }

    /// How many cells there are: as many in each column as there are rows. Takes no memory.
    pub fn cells(&self) -> usize
        ensures count { result ≡ length self.now.columns * self.now.rows }
        ensures even { All (λ column. length column ≡ self.now.rows) self.now.columns }
    {
        self.columns() * self.rows
    }

    /// Puts a cell, which the block's kind holds, in place of the one at a column and a row. Takes no memory.
    pub fn put(&mut self, column: usize, row: usize, cell: Cell)
        requires column { column < length self.old.columns }
        requires row { row < self.old.rows }
        requires held { (texts : List (List ℕ)) → holds self.old.kind (datum texts cell) ≡ true }
        ensures { self.new ≡ record {
          kind = self.old.kind;
          rows = self.old.rows;
          columns = with_cell self.old.columns column row cell;
        } }
    {
        put_part(&mut self.parts, column, row, cell);
    }

    /// The cells of a column. Takes no memory.
    pub fn column(&self, column: usize) -> ColRef<'_>
        requires { column < length self.now.columns }
        ensures kind { result.kind ≡ self.now.kind }
        ensures cells { slice_get self.now.columns column ≡ Some result.cells }
        ensures rows { length result.cells ≡ self.now.rows }
    {
        match &self.parts {
            Parts::One(only) => only.as_ref(),
            Parts::Many(_, columns) => columns[column].as_ref(),
        }
    }

    /// The cells of a column at these rows, as `ColRef::strided` gives them. Takes no memory.
    #[tactic(auto, using(std::proofs::lemmas::Option::get_or_from_slice_get))]
    pub fn strided(&self, column: usize, rows: Rows) -> ColRef<'_>
        requires column { column < length self.now.columns }
        requires rows { AreRowsBelow rows self.now.rows }
        ensures kind { result.kind ≡ self.now.kind }
        ensures cells { result.cells ≡ strided Na (slice_index_or self.now.columns column []) rows }
    {
        self.column(column).strided(rows)
    }

    /// Moves its first columns, so many, behind those of a list that has room for them. Takes no memory.
    pub fn move_columns(self, count: usize, list: &mut Vec<Column>)
        requires count { count ≤ length self.columns }
        requires room { vec_len list.old + count ≤ vec_capacity list.old }
        ensures items { list.new.items ≡ list.old.items ++ take count (columns_in self) }
        ensures len { vec_len list.new ≡ vec_len list.old + count }
        ensures capacity { vec_capacity list.old ≤ vec_capacity list.new }
    {
        move_parts(self.parts, count, list);
    }
}

// Puts a cell into a column at a row.
fn put_part(parts: &mut Parts, column: usize, row: usize, cell: Cell)
    requires column { column < length (columns_of parts.old) }
    requires row { row < length (column_in (columns_of parts.old) column).cells }
    requires held { (texts : List (List ℕ)) →
        holds (column_in (columns_of parts.old) column).kind (datum texts cell) ≡ true }
    ensures columns { columns_of parts.new ≡ put_in (columns_of parts.old) column row cell }
    ensures kind { kind_of parts.new ≡ kind_of parts.old }
{
    match parts {
        Parts::One(only) => only.put(row, cell),
        Parts::Many(_, columns) => columns[column].put(row, cell),
    }
}

// Moves the first columns, so many, behind those of a list that has room for them.
fn move_parts(parts: Parts, count: usize, list: &mut Vec<Column>)
    requires count { count ≤ length (columns_of parts) }
    requires room { vec_len list.old + count ≤ vec_capacity list.old }
    ensures items { list.new.items ≡ list.old.items ++ take count (columns_of parts) }
    ensures len { vec_len list.new ≡ vec_len list.old + count }
    ensures capacity { vec_capacity list.old ≤ vec_capacity list.new }
{
    match parts {
        Parts::One(only) => append_one(list, only, count),
        Parts::Many(_, columns) => append_some(list, columns, count),
    }
}

// So many columns of missing cells.
#[tactic(auto, using(std::proofs::lemmas::List::replicate_more))]
fn blank_columns(
    alloc: Global,
    kind: Kind,
    columns: usize,
    rows: usize,
) -> Result<Vec<Column>, NoMemory>
    ensures { IfOk result (λ made. made.items
        ≡ replicate columns record { kind = kind; cells = replicate rows Na }) }
{
    let mut made = Vec::with_capacity(alloc, columns)?;
    for _ in 0..columns {
        made.push(Column::repeat(alloc, kind, Cell::Na, rows)?)?;
    }
    Ok(made)
}

// Appends a column where there is room for it.
fn append(list: &mut Vec<Column>, column: Column)
    requires { vec_len list.old < vec_capacity list.old }
    ensures items { list.new.items ≡ list.old.items ++ column ∷ [] }
    ensures len { vec_len list.new ≡ vec_len list.old + 1 }
    ensures capacity { vec_capacity list.old ≤ vec_capacity list.new }
{
    if list.push(column).is_err() {
        unreachable!()
    }
}

// Appends a column where one is wanted and there is room for it.
fn append_one(list: &mut Vec<Column>, column: Column, count: usize)
    requires count { count ≤ 1 }
    requires room { vec_len list.old + count ≤ vec_capacity list.old }
    ensures items { list.new.items ≡ list.old.items ++ take count (column ∷ []) }
    ensures len { vec_len list.new ≡ vec_len list.old + count }
    ensures capacity { vec_capacity list.old ≤ vec_capacity list.new }
{
    if count == 1 {
        append(list, column);
    }
}

// Appends the first columns, so many, where there is room for them.
fn append_some(list: &mut Vec<Column>, columns: Vec<Column>, count: usize)
    requires count { count ≤ length columns.items }
    requires room { vec_len list.old + count ≤ vec_capacity list.old }
    ensures items { list.new.items ≡ list.old.items ++ take count columns.items }
    ensures len { vec_len list.new ≡ vec_len list.old + count }
    ensures capacity { vec_capacity list.old ≤ vec_capacity list.new }
{
    let mut first = columns;
    first.truncate(count);
    for column in first {
        append(list, column);
    }
}
