// What is read of lists.
ghost use Rattle.std.specs.Prelude.{◌≡◌, List, IfOk};
ghost use Rattle.std.specs.Option.{option_map};
ghost use Rattle.column_core.specs.cells.Text.{Text as OneText};
ghost use Rattle.frame_store.specs.Objects.{Tables};
ghost use Rattle.frame_store.specs.Arguments.{items_of};
ghost use Rattle.frame_store.specs.Shown.{cells_value};
ghost use Rattle.frame_select.specs.Selected.{scalars_in};

use cell_core::{Cells, NoMemory};
use frame_store::Item;
use std::alloc::Global;

/// The scalars of a list of scalars alone. `NoMemory` is the only refusal.
pub fn scalars_alone(alloc: Global, items: &[Item]) -> Result<Option<Cells>, NoMemory>
    ensures { IfOk result (λ found. (live : Tables) (texts : List OneText)
        → option_map (cells_value texts) found ≡ scalars_in (items_of live texts items.now)) }
{
    let mut cells = Cells::new(alloc);
    let mut rest = items;
    while let [first, after @ ..] = rest {
        match first.scalar() {
            Some(cell) => cells.push(cell)?,
            None => return Ok(None),
        }
        rest = after;
    }
    Ok(Some(cells))
}
