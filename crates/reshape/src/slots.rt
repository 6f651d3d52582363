// The rows that cells come from, by the numbers of their keys and labels.
ghost use Rattle.std.specs.Prelude.{◌≡◌, ◌<◌, ◌*◌, ◌^◌, None, length, slice_index_or, All, IfOk};
ghost use Rattle.column_core.specs.Moves.{IsPlaceOf};
ghost use Rattle.reshape.specs.Slots.{slot_of, slots_of, placed_at, rows_at_slots};

use cell_core::{Gaps, NoMemory};
use factorize::Groups;
use std::alloc::Global;

// The place of a row's cell, if the row has a key and a label: row by row over the columns.
fn slot_of_row(keys: &Groups, labels: &Groups, row: usize) -> Option<usize>
    requires key { row < length keys.now.codes }
    requires label { row < length labels.now.codes }
    requires few { keys.now.count * labels.now.count < 2 ^ 64 }
    ensures slot { result ≡ slot_of labels.now.count
        (slice_index_or keys.now.codes row None) (slice_index_or labels.now.codes row None) }
    ensures below { IsPlaceOf (keys.now.count * labels.now.count) result }
{
    let key = keys.code(row)?;
    let label = labels.code(row)?;
    Some(key * labels.count() + label)
}

// Notes a row at its place, if it has one.
fn place_row(places: &mut [Option<usize>], slot: Option<usize>, row: usize)
    requires { IsPlaceOf (length places.old) slot }
    ensures { places.new ≡ placed_at places.old slot row }
{
    if let Some(slot) = slot {
        places[slot] = Some(row);
    }
}

// Notes each row at the place of its cell.
fn place_rows(places: &mut [Option<usize>], keys: &Groups, labels: &Groups)
    requires alike { length keys.now.codes ≡ length labels.now.codes }
    requires cells { length places.old ≡ keys.now.count * labels.now.count }
    requires none { All (λ place. place ≡ None) places.old }
    ensures { places.new ≡ rows_at_slots (length places.old) (slots_of keys.now labels.now) }
{
    for row in 0..keys.rows() {
        let slot = slot_of_row(keys, labels, row);
        place_row(places, slot, row);
    }
}

// For each cell the last row that it comes from, if there is one.
pub(crate) fn rows_of_cells(
    alloc: Global,
    keys: &Groups,
    labels: &Groups,
    cells: usize,
) -> Result<Gaps, NoMemory>
    requires alike { length keys.now.codes ≡ length labels.now.codes }
    requires cells { cells ≡ keys.now.count * labels.now.count }
    ensures { IfOk result (λ places. places ≡ rows_at_slots cells (slots_of keys.now labels.now)) }
{
    let mut places = vec![in alloc; None; cells]?;
    place_rows(&mut places, keys, labels);
    Ok(Gaps::from(places))
}
