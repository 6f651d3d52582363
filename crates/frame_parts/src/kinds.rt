// The kind that a cell has.
ghost use Rattle.std.specs.Prelude.{◌≡◌, ◌∷◌, List, true, unwrap_or};
ghost use Rattle.cell_core.specs.declared.cell.Kind.TheVariants.{Int64 as numbers};
ghost use Rattle.column_core.specs.cells.Text.{Text as OneText};
ghost use Rattle.column_core.specs.cells.Cell.{CellValue, datum, holds};
ghost use Rattle.column_core.specs.cells.Operator as operator;
ghost use Rattle.meaning_form.specs.Set as set;

use cell_core::{Cell, Kind};

/// The kind of a cell that is present; none of NA. Takes no memory.
pub fn present_kind(cell: Cell) -> Option<Kind>
    ensures kind { (texts : List OneText) → operator.scalar_kind numbers (datum texts cell)
        ≡ unwrap_or result numbers }
    ensures first { (texts : List OneText) (rest : List CellValue)
        → set.first_kind (datum texts cell ∷ rest) ≡ unwrap_or result (set.first_kind rest) }
    ensures held { (texts : List OneText)
        → holds (unwrap_or result numbers) (datum texts cell) ≡ true }
{
    match cell {
        Cell::Int(_) => Some(Kind::Int64),
        Cell::Bool(_) => Some(Kind::Boolean),
        Cell::Text(_) => Some(Kind::Text),
        Cell::Na => None,
    }
}
