// Rows at equal distances, as a list.
ghost use Rattle.std.specs.Prelude.{◌≡◌, ◌<◌, ◌^◌, IfOk};
ghost use Rattle.cell_core.specs.Grids.{AreRowsBelow, IsPlace, place_from};
ghost use Rattle.indexers.specs.Picks.{span_of};

use crate::keys::Picked;
use cell_core::{NoMemory, Places, Rows};
use std::alloc::Global;

// The place of a row among them.
fn place_of(rows: Rows, row: usize) -> usize
    requires place { IsPlace rows.start rows.step row }
    requires fits { place_from rows.start rows.step row < 2 ^ 64 }
    ensures { result ≡ place_from rows.start rows.step row }
{
    let distance = row * rows.step.unsigned_abs() as usize;
    if rows.step >= 0 {
        rows.start + distance
    } else {
        rows.start - distance
    }
}

// All rows of a slice, with the slice. The rows lie below a limit.
pub(crate) fn spanned(alloc: Global, rows: Rows, limit: usize) -> Result<Picked, NoMemory>
    requires { AreRowsBelow rows limit }
    ensures { IfOk result (λ picked. picked ≡ span_of rows) }
{
    let mut places = Places::new(alloc);
    for row in 0..rows.count {
        places.push(place_of(rows, row))?;
    }
    Ok(Picked {
        places,
        single: false,
        dropped: 0,
        span: Some(rows),
    })
}
