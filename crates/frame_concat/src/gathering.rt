// The parts and their labels, read of the arguments of a call.
ghost use Rattle.std.specs.Prelude.{◌≡◌, List, map, IfOk};
ghost use Rattle.column_core.specs.cells.Text.{Text};
ghost use Rattle.column_core.specs.cells.Cell.{label_datum};
ghost use Rattle.frame_parts.specs.form.Select.{labels_of};
ghost use Rattle.meaning_method.specs.Concat as meant;
ghost use Rattle.frame_store.specs.Arguments.{items_of, AreLiveItems};
ghost use Rattle.frame_store.specs.Objects.{Tables, tables};
ghost use Rattle.frame_concat.specs.Parts.{parts_value, AreSettledParts};

use crate::parts::Part;
use cell_core::{Label, NoMemory};
use frame_store::{Item, Store};
use std::alloc::Global;

// The objects of a list.
pub(crate) fn parts_of<'a>(
    alloc: Global,
    store: &'a Store,
    items: &[Item],
) -> Result<Vec<Part<'a>>, NoMemory>
    requires { AreLiveItems (tables store.now) items.now }
    ensures parts { (texts : List Text) → IfOk result (λ parts. parts_value texts parts.items
        ≡ meant.tables_of (items_of (tables store.now) texts items.now)) }
    ensures known { IfOk result (λ parts. AreSettledParts (tables store.now) parts.items) }
{
    let mut parts = Vec::new(alloc);
    for item in items {
        if let Some(id) = item.object() {
            parts.push(Part::new(alloc, store.read(id))?)?;
        }
    }
    Ok(parts)
}

// The scalars of a list, as labels.
pub(crate) fn labels_of(alloc: Global, items: &[Item]) -> Result<Vec<Label>, NoMemory>
    ensures { (live : Tables) (texts : List Text) → IfOk result (λ labels.
        map (label_datum texts) labels.items ≡ labels_of (items_of live texts items.now)) }
{
    let mut labels = Vec::new(alloc);
    for item in items {
        if let Some(cell) = item.scalar() {
            labels.push(Label::from(cell))?;
        }
    }
    Ok(labels)
}
