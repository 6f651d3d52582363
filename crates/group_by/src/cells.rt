// Cells, read and gathered into columns.
ghost use Rattle.std.specs.Prelude.{◌≡◌, ◌<◌, ◌^◌, ℕ, true, not, List, All, IfOk};
ghost use Rattle.cell_core.specs.declared.cell.Kind.TheVariants.{Int64};
ghost use Rattle.column_core.specs.cells.Cell.{datum, holds};
ghost use Rattle.column_core.specs.cells.Reduce.{is_present};
ghost use Rattle.factorize.specs.group.Reductions.{count_cell};
ghost use Rattle.group_by.specs.Distincts.{is_missing};

use cell_core::{Cell, Kind, NoMemory};
use column_core::Column;
use std::alloc::Global;

// Whether a cell is missing.
#[inline(always)]
pub(crate) fn is_na(cell: Cell) -> bool
    ensures missing { result ≡ is_missing cell }
    ensures value { (texts : List (List ℕ)) → result ≡ not (is_present (datum texts cell)) }
{
    match cell {
        Cell::Na => true,
        _ => false,
    }
}

// A number of rows or cells.
pub(crate) fn counted(count: usize) -> Cell
    ensures value { (texts : List (List ℕ)) → datum texts result ≡ count_cell count }
    ensures held { (texts : List (List ℕ)) → holds Int64 (datum texts result) ≡ true }
{
    Cell::Int((count as u64).cast_signed())
}

// A column of these cells, which the kind holds.
pub(crate) fn column_of(alloc: Global, kind: Kind, cells: &[Cell]) -> Result<Column, NoMemory>
    requires { All (λ c. (texts : List (List ℕ)) → holds kind (datum texts c) ≡ true) cells.now }
    ensures { IfOk result (λ column. column ≡ record { kind = kind; cells = cells.now }) }
{
    let mut column = Column::new(alloc, kind);
    for cell in cells {
        column.push(*cell)?;
    }
    Ok(column)
}
