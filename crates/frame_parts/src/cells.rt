// Columns of cells that stand one after the other.
ghost use Rattle.std.specs.Prelude.{◌≡◌, ◌<◌, List, length, slice_get, Some, IfOk};
ghost use Rattle.std.specs.List.{list_all};
ghost use Rattle.column_core.specs.cells.Text.{Text as OneText};
ghost use Rattle.column_core.specs.cells.Cell.{holds};
ghost use Rattle.meaning_form.specs.Set as set;
ghost use Rattle.frame_store.specs.Shown.{cells_value};
ghost use Rattle.frame_parts.specs.Makes.{MakesBy, column_seen, column_listed, held_column, IsKindOf};

use crate::kinds::present_kind;
use cell_core::{Cell, Cells, Code, Kind};
use column_core::Column;
use frame_store::OpFault;
use std::alloc::Global;

/// Cells one after the other, as those of a list or the labels of a level.
pub trait CellList {
    ghost use Rattle.std.specs.Prelude.{List};
    ghost use Rattle.cell_core.specs.declared.cell.Cell.{Cell};

    ghost cells: { Self → List Cell };

    /// How many cells there are. Takes no memory.
    fn count(&self) -> usize
        ensures { result ≡ length (cells self.now) };

    /// The cell at a place, counted from 0. Takes no memory.
    fn cell(&self, place: usize) -> Cell
        requires { place < length (cells self.now) }
        ensures { slice_get (cells self.now) place ≡ Some result };
}

impl CellList for Cells {
    ghost cells = { λ l. l };

    fn count(&self) -> usize {
        self.len()
    }

    fn cell(&self, place: usize) -> Cell {
        *self.at(place)
    }
}

// The kind of the first cell that is present; whole numbers where none is.
fn first_kind<C: CellList>(cells: &C) -> Kind
    ensures { (texts : List OneText)
        → result ≡ set.first_kind (cells_value texts (C.cells cells.now)) }
{
    for place in 0..cells.count() {
        match present_kind(cells.cell(place)) {
            Some(kind) => return kind,
            None => {}
        }
    }
    Kind::Int64
}

// Whether a column of the kind may have all these cells.
fn holds_all<C: CellList>(kind: Kind, cells: &C) -> bool
    ensures { (texts : List OneText) → result
        ≡ list_all (holds kind) (cells_value texts (C.cells cells.now)) }
{
    for place in 0..cells.count() {
        if !kind.holds(cells.cell(place)) {
            return false;
        }
    }
    true
}

/// The kind of these cells, that of the first which is present, or whole numbers where none is. Takes no memory.
///
/// Refused with [`Code::WrongKind`] exactly where a cell is of another kind.
pub fn list_kind<C: CellList>(cells: &C) -> Result<Kind, OpFault>
    ensures answer { (texts : List OneText) → MakesBy (column_listed (C.cells cells.now)) texts result
        (set.list_column (cells_value texts (C.cells cells.now))) }
    ensures held { IfOk result (IsKindOf (C.cells cells.now)) }
{
    let kind = first_kind(cells);
    if !holds_all(kind, cells) {
        return Err(OpFault::Refused(Code::WrongKind));
    }
    Ok(kind)
}

// The column of these cells, each of which the kind must hold.
fn column_of_kind<C: CellList>(alloc: Global, kind: Kind, cells: &C) -> Result<Column, OpFault>
    ensures answer { (texts : List OneText) → MakesBy column_seen texts result
        (held_column kind (cells_value texts (C.cells cells.now))) }
    ensures cells { IfOk result (λ c. c.cells ≡ C.cells cells.now) }
{
    let mut column = Column::new(alloc, kind);
    for place in 0..cells.count() {
        let cell = cells.cell(place);
        if !kind.holds(cell) {
            return Err(OpFault::Refused(Code::WrongKind));
        }
        column.push(cell)?;
    }
    Ok(column)
}

/// The column of these cells, of the kind that [`list_kind`] answers.
///
/// Refused with [`Code::WrongKind`] exactly where a cell is of another kind; memory may end besides.
pub fn list_column<C: CellList>(alloc: Global, cells: &C) -> Result<Column, OpFault>
    ensures answer { (texts : List OneText) → MakesBy column_seen texts result
        (set.list_column (cells_value texts (C.cells cells.now))) }
    ensures cells { IfOk result (λ c. c.cells ≡ C.cells cells.now) }
{
    column_of_kind(alloc, first_kind(cells), cells)
}
