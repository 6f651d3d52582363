// Cells that are set.
ghost use Rattle.std.specs.Prelude.{◌≡◌, ◌*◌, ◌<◌, ◌↔◌, ℕ, IsTrue, List, length, slice_index};
ghost use Rattle.meaning_tables.specs.Change.{with_cell, with_values_from};
ghost use Rattle.meaning_tables.specs.Table.{column_at};
ghost use Rattle.block_pool.specs.Pools.{IsSole};
ghost use Rattle.block_manager.specs.Parts.{AreBelow, AreHeld, AreRowsIn, IsHeld};
ghost use Rattle.block_manager.specs.Changes.{Writes, grids_of, numbers_of};
ghost use Rattle.block_manager.specs.Spots.{AreAloneAt, Stands, spot_at, spot_columns};

use crate::spots::Spot;
use block_pool::{Pool, ViewId};
use cell_core::{Cell, Cells, Places};

/// Whether the view of each of these columns is alone on its block. Takes no memory.
pub(crate) fn are_sole(pool: &Pool, views: &[ViewId], spots: &[Spot], places: &Places) -> bool
    requires stands { Stands pool.now (numbers_of views.now) spots.now }
    requires places { AreBelow (length spots.now) places.now }
    ensures { IsTrue result
        ↔ AreAloneAt pool.now (numbers_of views.now) spots.now places.now }
{
    for k in 0..places.len() {
        let spot = spots[*places.at(k)];
        if !pool.sole(views[spot.view]) {
            return false;
        }
    }
    true
}

// Puts a cell at a place and a row.
fn put_value(
    pool: &mut Pool,
    views: &[ViewId],
    spots: &[Spot],
    place: usize,
    row: usize,
    cell: Cell,
)
    requires place { place < length spots.now }
    requires stands { Stands pool.old (numbers_of views.now) spots.now }
    requires sole { IsSole pool.old
        (slice_index (numbers_of views.now) (spot_at spots.now place).view) }
    requires row { row < length
        (column_at (spot_columns (grids_of pool.old (numbers_of views.now)) spots.now)
        place).cells }
    requires held { IsHeld
        (column_at (spot_columns (grids_of pool.old (numbers_of views.now)) spots.now)
        place).kind cell }
    ensures columns { spot_columns (grids_of pool.new (numbers_of views.now)) spots.now
        ≡ with_cell (spot_columns (grids_of pool.old (numbers_of views.now)) spots.now)
        place row cell }
    ensures stands { Stands pool.new (numbers_of views.now) spots.now }
    ensures writes { Writes pool.old pool.new (numbers_of views.now) }
    ensures alone { (places : List ℕ)
        → AreAloneAt pool.old (numbers_of views.now) spots.now places
        → AreAloneAt pool.new (numbers_of views.now) spots.now places }
{
    let spot = spots[place];
    pool.set(views[spot.view], spot.column, row, cell);
}

/// Puts the values, row by row, into the columns at these places and at these rows. No other view lies on
/// the block of such a column. Takes no memory.
pub(crate) fn put_values(
    pool: &mut Pool,
    views: &[ViewId],
    spots: &[Spot],
    rows: &Places,
    places: &Places,
    values: &Cells,
)
    requires stands { Stands pool.old (numbers_of views.now) spots.now }
    requires places { AreBelow (length spots.now) places.now }
    requires alone { AreAloneAt pool.old (numbers_of views.now) spots.now places.now }
    requires rows { AreRowsIn
        (spot_columns (grids_of pool.old (numbers_of views.now)) spots.now)
        places.now rows.now }
    requires values { length values.now ≡ length rows.now * length places.now }
    requires held { AreHeld
        (spot_columns (grids_of pool.old (numbers_of views.now)) spots.now)
        places.now values.now }
    ensures columns { spot_columns (grids_of pool.new (numbers_of views.now)) spots.now
        ≡ with_values_from 0
        (spot_columns (grids_of pool.old (numbers_of views.now)) spots.now)
        rows.now places.now values.now }
    ensures stands { Stands pool.new (numbers_of views.now) spots.now }
    ensures writes { Writes pool.old pool.new (numbers_of views.now) }
{
    let width = places.len();
    for k in 0..values.len() {
        put_value(
            pool,
            views,
            spots,
            *places.at(k % width),
            *rows.at(k / width),
            *values.at(k),
        );
    }
}
