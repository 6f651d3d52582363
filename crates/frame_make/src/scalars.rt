// Columns of the scalars of a list.
ghost use Rattle.std.specs.Prelude.{List};
ghost use Rattle.column_core.specs.cells.Text.{Text as OneText};
ghost use Rattle.frame_parts.specs.form.Set as set;
ghost use Rattle.frame_parts.specs.Makes.{MakesBy, column_seen};
ghost use Rattle.frame_signatures.specs.Scalars.{scalars};

use column_core::Column;
use frame_parts::list_column;
use frame_signatures::scalars_of;
use frame_store::{Item, OpFault};
use std::alloc::Global;

// The column of the scalars, which must be of one kind.
pub(crate) fn scalar_column(alloc: Global, items: &[Item]) -> Result<Column, OpFault>
    ensures { (texts : List OneText) → MakesBy column_seen texts result
        (set.list_column (scalars texts items.now)) }
{
    let cells = scalars_of(alloc, items)?;
    list_column(alloc, &cells)
}
