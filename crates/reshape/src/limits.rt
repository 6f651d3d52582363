// What a table may have.
ghost use Rattle.std.specs.Prelude.{◌≡◌, ◌*◌, ◌≤◌, ◌^◌, true, false, MatchOption};
ghost use Rattle.meaning_shapes.specs.tables.Valid.{within_limits};

// As many rows as a table may have, as many columns, and as many cells.
const MOST_ROWS: usize = 1 << 26;

const MOST_COLUMNS: usize = 1 << 16;

const MOST_CELLS: usize = 1 << 26;

// How many cells there are in so many rows and columns, if a table may have them.
pub(crate) fn cells_within_limits(rows: usize, columns: usize) -> Option<usize>
    ensures { MatchOption result (within_limits rows columns ≡ false)
        (λ cells. (cells ≡ rows * columns) × (within_limits rows columns ≡ true)) }
{
    if rows > MOST_ROWS || columns > MOST_COLUMNS {
        return None;
    }
    let cells = rows * columns;
    if cells > MOST_CELLS {
        None
    } else {
        Some(cells)
    }
}
