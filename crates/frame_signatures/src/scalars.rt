// The scalars of a list that is given.
ghost use Rattle.std.specs.Prelude.{◌≡◌, List, IfOk};
ghost use Rattle.frame_store.specs.cells.Text.{Text as OneText};
ghost use Rattle.frame_store.specs.Shown.{cells_value};
ghost use Rattle.frame_signatures.specs.Scalars.{scalars};

use cell_core::{Cells, NoMemory};
use frame_store::Item;
use std::alloc::Global;

/// The scalars among the parts of a list, in their order. `NoMemory` is the only refusal.
pub fn scalars_of(alloc: Global, items: &[Item]) -> Result<Cells, NoMemory>
    ensures { IfOk result (λ cells. (texts : List OneText)
        → cells_value texts cells ≡ scalars texts items.now) }
{
    let mut cells = Cells::new(alloc);
    for item in items {
        if let Some(cell) = item.scalar() {
            cells.push(cell)?;
        }
    }
    Ok(cells)
}
