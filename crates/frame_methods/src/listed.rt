// The scalars of a list, for a look-up of each cell.
ghost use Rattle.std.specs.Prelude.{◌≡◌, List, Bool, IfOk, OnOk};
ghost use Rattle.std.specs.List.{list_any};
ghost use Rattle.column_core.specs.cells.Text.{Text as OneText};
ghost use Rattle.column_core.specs.cells.Cell.{CellValue, AreGiven};
ghost use Rattle.frame_store.specs.tables.Settled.{IsSettled};
ghost use Rattle.frame_store.specs.Shown.{cells_value};
ghost use Rattle.frame_signatures.specs.Scalars.{scalars};
ghost use Rattle.frame_methods.specs.Listed.{noted};

use cell_core::{Cell, NoMemory, TextDict};
use frame_store::Item;
use indexmap::IndexSet;
use std::alloc::Global;

// Whether a cell is among these. Texts are told apart by their numbers.
#[derive(Drop)]
pub(crate) struct ListedCells {
    pub(crate) values: IndexSet<Cell>,
}

// Adds a cell, if there is one.
fn note(values: &mut IndexSet<Cell>, cell: Option<Cell>) -> Result<(), NoMemory>
    ensures { OnOk result (values.new.keys ≡ noted values.old.keys cell) }
{
    if let Some(cell) = cell {
        values.insert(cell)?;
    }
    Ok(())
}

// The different scalars of a list. Texts are told apart by their numbers.
pub(crate) fn listed_cells(
    alloc: Global,
    dict: &TextDict,
    items: &[Item],
) -> Result<IndexSet<Cell>, NoMemory>
    requires { IsSettled scalars dict.now items.now }
    ensures given { IfOk result (λ values. AreGiven dict.now values.keys) }
    ensures same { IfOk result (λ values. (texts : List OneText) (test : CellValue → Bool)
        → list_any test (cells_value texts values.keys) ≡ list_any test (scalars texts items.now)) }
{
    let mut values = IndexSet::new(alloc);
    for item in items {
        note(&mut values, item.scalar())?;
    }
    Ok(values)
}
