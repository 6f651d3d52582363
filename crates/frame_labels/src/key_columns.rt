// Columns by their places.
ghost use Rattle.std.specs.Prelude.{◌≡◌, length, map, All, IfOk};
ghost use Rattle.frame_store.specs.tables.Table.{column_at};
ghost use Rattle.frame_store.specs.Parts.{table_column, AreColumnsOf};

use cell_core::{NoMemory, Places};
use column_core::ColRef;
use frame_store::ObjRef;
use std::alloc::Global;

/// The columns at these places, in their order. `NoMemory` is the only refusal.
pub fn columns_at<'a>(
    alloc: Global,
    on: &'a ObjRef<'_>,
    places: &Places,
) -> Result<Vec<ColRef<'a>>, NoMemory>
    requires { AreColumnsOf on.now places.now }
    ensures columns { IfOk result (λ made. map table_column made.items
        ≡ map (column_at on.now.columns) places.now) }
    ensures rows { IfOk result (λ made.
        All (λ column. length column.cells ≡ length on.now.labels) made.items) }
{
    let mut columns = Vec::new(alloc);
    for k in 0..places.len() {
        columns.push(on.column(*places.at(k)))?;
    }
    Ok(columns)
}
