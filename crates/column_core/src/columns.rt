// Columns of cells of one kind, borrowed and of their own.
ghost use Rattle.std.specs.Prelude.{◌≡◌, ◌<◌, ◌∷◌, ◌++◌, [], true, length, replicate, reverse, slice_get, slice_set, List, ℕ, Option, Some, None, IfOk, OnOk, OnErr};
ghost use Rattle.cell_core.specs.declared.cell.Kind.{Kind as CellKind};
ghost use Rattle.cell_core.specs.declared.cell.Kind.TheVariants.{Int64, Boolean, Text as string};
ghost use Rattle.cell_core.specs.declared.cell.Cell.{Cell as OneCell};
ghost use Rattle.cell_core.specs.declared.cell.Cell.TheVariants.{Na};
ghost use Rattle.column_core.specs.Lanes.{option_at};
ghost use Rattle.column_core.specs.Columns.{number_cell, truth_cell, text_cell, column_with, number_given, truth_given};
ghost use Rattle.meaning_cells.specs.Cell.{IsGiven, datum, holds};
ghost use Rattle.column_core.specs.Views.{kept_column};

use crate::lanes::{Lane, Owned};
use cell_core::{Cell, Kind, NoMemory, TextId};
use std::alloc::Global;
use std::marker::Model;

/// Values that are borrowed, by the kind of their cells: whole numbers, truth values, or numbers of texts. A copy
/// borrows the same values, so `ColRef { lanes: a.lanes }` has the cells of `a` once more.
#[derive(Clone, Copy)]
pub enum Borrowed<'a> {
    /// Whole numbers.
    Ints(Lane<'a, i64>),
    /// Truth values.
    Truths(Lane<'a, bool>),
    /// Texts by number.
    Texts(Lane<'a, TextId>),
}

/// Values that are kept, by the kind of their cells: whole numbers, truth values, or numbers of texts.
#[derive(Drop)]
pub enum Kept {
    /// Whole numbers.
    Ints(Owned<i64>),
    /// Truth values.
    Truths(Owned<bool>),
    /// Texts by number.
    Texts(Owned<TextId>),
}

/// Cells of one kind that are borrowed. Nothing is copied.
#[derive(Drop)]
pub struct ColRef<'a> {
    /// The cells' values, and which of them are present.
    pub lanes: Borrowed<'a>,
}

/// Cells of one kind. It keeps the allocator that it was made with.
#[derive(Drop)]
pub struct Column {
    /// The cells' values, and which of them are present.
    pub lanes: Kept,
}

impl<'a> Model for ColRef<'a> {
    ghost use Rattle.column_core.specs.Columns.{CellColumn};

    ghost Value = { CellColumn };

    ghost use Rattle.column_core.specs.Views.{borrowed_column};

    ghost view = { λ c. borrowed_column c.lanes };
}

impl Model for Column {
    ghost use Rattle.column_core.specs.Columns.{CellColumn};

    ghost Value = { CellColumn };

    ghost use Rattle.column_core.specs.Views.{kept_column};

    ghost view = { λ c. kept_column c.lanes };
}

/// A value of a kind, of which columns are made.
pub trait Element: Copy + Drop {
    ghost kind: { CellKind };

    ghost cell: { Option Self → OneCell };

    /// What stands where no value is present.
    fn blank() -> Self;

    /// The column of these rows.
    fn column(rows: Owned<Self>) -> Column
        ensures { result ≡ column_with kind cell (length rows.values.items) (option_at rows.values.items rows.present.items) };

    ghost missing: { Self.cell None ≡ Na };
}

/// A value that needs no dictionary.
pub trait Plain: Element {
    ghost plain: { (texts : List (List ℕ)) (x : Option Self) → IsGiven texts (Self.cell x) };
}

impl Plain for i64 {
    ghost plain = { number_given };
}

impl Plain for bool {
    ghost plain = { truth_given };
}

impl Element for i64 {
    ghost kind = { Int64 };

    ghost cell = { number_cell };

    fn blank() -> i64 {
        0
    }

    fn column(rows: Owned<i64>) -> Column
        ensures { result ≡ column_with Int64 number_cell (length rows.values.items)
            (option_at rows.values.items rows.present.items) }
    {
        Column {
            lanes: Kept::Ints(rows),
        }
    }

    ghost missing = { λ i. Na };
}

impl Element for bool {
    ghost kind = { Boolean };

    ghost cell = { truth_cell };

    fn blank() -> bool {
        false
    }

    fn column(rows: Owned<bool>) -> Column
        ensures { result ≡ column_with Boolean truth_cell (length rows.values.items)
            (option_at rows.values.items rows.present.items) }
    {
        Column {
            lanes: Kept::Truths(rows),
        }
    }

    ghost missing = { λ i. Na };
}

impl Element for TextId {
    ghost kind = { string };

    ghost cell = { text_cell };

    fn blank() -> TextId {
        TextId(0)
    }

    fn column(rows: Owned<TextId>) -> Column
        ensures { result ≡ column_with string text_cell (length rows.values.items)
            (option_at rows.values.items rows.present.items) }
    {
        Column {
            lanes: Kept::Texts(rows),
        }
    }

    ghost missing = { λ i. Na };
}

impl Column {
    /// A column without cells. Takes no memory.
    pub fn new(alloc: Global, kind: Kind) -> Column
        ensures { result ≡ record { kind = kind; cells = [] } }
    {
        match kind {
            Kind::Int64 => i64::column(Owned::new(alloc)),
            Kind::Boolean => bool::column(Owned::new(alloc)),
            Kind::Text => TextId::column(Owned::new(alloc)),
        }
    }

    /// So many cells, each of them this one, which the kind holds.
    pub fn repeat(alloc: Global, kind: Kind, cell: Cell, count: usize) -> Result<Column, NoMemory>
        requires { (texts : List (List ℕ)) → holds kind (datum texts cell) ≡ true }
        ensures { IfOk result (λ c. c ≡ record { kind = kind; cells = replicate count cell }) }
    {
        match kind {
            Kind::Int64 => repeated_value(alloc, number_in(cell), count),
            Kind::Boolean => repeated_value(alloc, truth_in(cell), count),
            Kind::Text => repeated_value(alloc, text_in(cell), count),
        }
    }

    /// Appends a cell, which the column's kind holds. `NoMemory` leaves the column as it was.
    pub fn push(&mut self, cell: Cell) -> Result<(), NoMemory>
        requires { (texts : List (List ℕ)) → holds self.old.kind (datum texts cell) ≡ true }
        ensures ok { OnOk result (self.new
            ≡ record { kind = self.old.kind; cells = self.old.cells ++ cell ∷ [] }) }
        ensures err { OnErr result (self.new ≡ self.old) }
    {
        push_kept(&mut self.lanes, cell)
    }

    /// Puts a cell, which the column's kind holds, in place of the one at a row. Takes no memory.
    pub fn put(&mut self, row: usize, cell: Cell)
        requires row { row < length self.old.cells }
        requires held { (texts : List (List ℕ)) → holds self.old.kind (datum texts cell) ≡ true }
        ensures { self.new
            ≡ record { kind = self.old.kind; cells = slice_set self.old.cells row cell } }
    {
        put_kept(&mut self.lanes, row, cell);
    }

    /// Turns the cells about, so that the last one stands first. Takes no memory.
    pub fn reverse(&mut self)
        ensures { self.new ≡ record { kind = self.old.kind; cells = reverse self.old.cells } }
    {
        turn_kept(&mut self.lanes);
    }

    /// The cells, borrowed. Takes no memory.
    pub fn as_ref(&self) -> ColRef<'_>
        ensures { result ≡ self.now }
    {
        whole(&self.lanes)
    }
}

// The value, or none, in so many rows.
fn repeated_value<T: Element>(
    alloc: Global,
    value: Option<T>,
    count: usize,
) -> Result<Column, NoMemory>
    ensures { IfOk result (λ c. c
        ≡ record { kind = T.kind; cells = replicate count (T.cell value) }) }
{
    let rows = Owned::filled(alloc, T::blank(), value, count)?;
    Ok(T::column(rows))
}

/// All cells that are kept, borrowed.
pub fn whole(lanes: &Kept) -> ColRef<'_>
    ensures { result ≡ kept_column lanes.now }
{
    match lanes {
        Kept::Ints(rows) => ColRef {
            lanes: Borrowed::Ints(rows.lane()),
        },
        Kept::Truths(rows) => ColRef {
            lanes: Borrowed::Truths(rows.lane()),
        },
        Kept::Texts(rows) => ColRef {
            lanes: Borrowed::Texts(rows.lane()),
        },
    }
}

#[tactic(auto, using(crate::proofs::CellRows::pushed_answer))]
fn push_kept(lanes: &mut Kept, cell: Cell) -> Result<(), NoMemory>
    requires { (texts : List (List ℕ)) →
        holds (kept_column lanes.old).kind (datum texts cell) ≡ true }
    ensures ok { OnOk result (kept_column lanes.new
        ≡ record {
          kind = (kept_column lanes.old).kind;
          cells = (kept_column lanes.old).cells ++ cell ∷ [];
        }) }
    ensures err { OnErr result (kept_column lanes.new ≡ kept_column lanes.old) }
{
    match lanes {
        Kept::Ints(rows) => rows.push(0, number_in(cell)),
        Kept::Truths(rows) => rows.push(false, truth_in(cell)),
        Kept::Texts(rows) => rows.push(TextId(0), text_in(cell)),
    }
}

fn put_kept(lanes: &mut Kept, at: usize, cell: Cell)
    requires at { at < length (kept_column lanes.old).cells }
    requires held { (texts : List (List ℕ)) →
        holds (kept_column lanes.old).kind (datum texts cell) ≡ true }
    ensures { kept_column lanes.new
        ≡ record {
          kind = (kept_column lanes.old).kind;
          cells = slice_set (kept_column lanes.old).cells at cell;
        } }
{
    match lanes {
        Kept::Ints(rows) => rows.put(0, at, number_in(cell)),
        Kept::Truths(rows) => rows.put(false, at, truth_in(cell)),
        Kept::Texts(rows) => rows.put(TextId(0), at, text_in(cell)),
    }
}

fn turn_kept(lanes: &mut Kept)
    ensures { kept_column lanes.new
        ≡ record {
          kind = (kept_column lanes.old).kind;
          cells = reverse (kept_column lanes.old).cells;
        } }
{
    match lanes {
        Kept::Ints(rows) => rows.reverse(),
        Kept::Truths(rows) => rows.reverse(),
        Kept::Texts(rows) => rows.reverse(),
    }
}

/// The whole number in a cell, or `None` in NA. The cell is one of them: a column of whole numbers holds no other.
/// Takes no memory.
pub fn number_in(cell: Cell) -> Option<i64>
    requires { holds Int64 (datum [] cell) ≡ true }
    ensures { number_cell result ≡ cell }
{
    match cell {
        Cell::Int(x) => Some(x),
        Cell::Na => None,
        _ => unreachable!(),
    }
}

/// The truth value in a cell, or `None` in NA. The cell is one of them: a column of truth values holds no other.
/// Takes no memory.
pub fn truth_in(cell: Cell) -> Option<bool>
    requires { holds Boolean (datum [] cell) ≡ true }
    ensures { truth_cell result ≡ cell }
{
    match cell {
        Cell::Bool(x) => Some(x),
        Cell::Na => None,
        _ => unreachable!(),
    }
}

/// The number of the text in a cell, or `None` in NA. The cell is one of them: a column of texts holds no other.
/// Takes no memory.
pub fn text_in(cell: Cell) -> Option<TextId>
    requires { holds string (datum [] cell) ≡ true }
    ensures { text_cell result ≡ cell }
{
    match cell {
        Cell::Text(x) => Some(x),
        Cell::Na => None,
        _ => unreachable!(),
    }
}

impl ColRef<'_> {
    /// The kind of the cells. Takes no memory.
    pub fn kind(&self) -> Kind
        ensures { result ≡ self.now.kind }
    {
        match &self.lanes {
            Borrowed::Ints(_) => Kind::Int64,
            Borrowed::Truths(_) => Kind::Boolean,
            Borrowed::Texts(_) => Kind::Text,
        }
    }

    /// How many cells there are. Takes no memory.
    pub fn len(&self) -> usize
        ensures { result ≡ length self.now.cells }
    {
        match &self.lanes {
            Borrowed::Ints(lane) => lane.count,
            Borrowed::Truths(lane) => lane.count,
            Borrowed::Texts(lane) => lane.count,
        }
    }

    /// The cell of a row, counted from 0. Takes no memory.
    pub fn cell(&self, row: usize) -> Cell
        requires { row < length self.now.cells }
        ensures cell { slice_get self.now.cells row ≡ Some result }
        ensures held { (texts : List (List ℕ)) → holds self.now.kind (datum texts result) ≡ true }
    {
        match &self.lanes {
            Borrowed::Ints(lane) => cell_of_number(lane.get(row)),
            Borrowed::Truths(lane) => cell_of_truth(lane.get(row)),
            Borrowed::Texts(lane) => cell_of_text(lane.get(row)),
        }
    }
}

/// The cell of a whole number, and NA of `None`. A column of whole numbers holds it. Takes no memory.
pub fn cell_of_number(value: Option<i64>) -> Cell
    ensures cell { result ≡ number_cell value }
    ensures held { (texts : List (List ℕ)) → holds Int64 (datum texts result) ≡ true }
{
    match value {
        None => Cell::Na,
        Some(x) => Cell::Int(x),
    }
}

/// The cell of a truth value, and NA of `None`. Takes no memory.
pub fn cell_of_truth(value: Option<bool>) -> Cell
    ensures { result ≡ truth_cell value }
{
    match value {
        None => Cell::Na,
        Some(x) => Cell::Bool(x),
    }
}

/// The cell of a text's number, and NA of `None`. Takes no memory.
pub fn cell_of_text(value: Option<TextId>) -> Cell
    ensures { result ≡ text_cell value }
{
    match value {
        None => Cell::Na,
        Some(x) => Cell::Text(x),
    }
}
