// Rows with a label at each level, as tuples.
ghost use Rattle.std.specs.Prelude.{◌≡◌, ◌≤◌, ◌<◌, [], length, slice_get, Some, All};

use cell_core::{Label, NoMemory, Tuple};
use factorize::KeyLevels;
use merge_concat::key_of_row;
use row_keys::LevelRows;
use std::alloc::Global;

/// Rows with a label at each of one to four levels, as the cells of columns ([`factorize::KeyColumns`]).
#[derive(Drop)]
pub struct ByLevels<'a, R: KeyLevels> {
    rows: &'a R,
    ghost few: { All (λ key. length key ≤ 4) (R.keys rows.now) },
}

impl<'a, R: KeyLevels> ByLevels<'a, R> {
    /// These rows, which have four levels at most. Takes no memory.
    pub fn of(rows: &'a R) -> ByLevels<'a, R>
        requires { All (λ key. length key ≤ 4) (R.keys rows.now) }
        ensures { result.rows.now ≡ rows.now }
    {
        ByLevels { rows }
    }
}

impl<R: KeyLevels> LevelRows for ByLevels<'_, R> {
    ghost tuples = { λ by. R.keys by.rows.now };

    fn count(&self) -> usize {
        self.rows.count()
    }

    fn push_level(&self, level: usize, labels: &mut Vec<Label>) -> Result<(), NoMemory> {
        for row in 0..self.rows.count() {
            labels.push(self.rows.label(row, level))?;
        }
        Ok(())
    }

    fn tuple(&self, alloc: Global, row: usize) -> Tuple {
        tuple_of(alloc, self.rows, row)
    }
}

// The labels of a row.
fn tuple_of<R: KeyLevels>(alloc: Global, rows: &R, row: usize) -> Tuple
    requires row { row < length (R.keys rows.now) }
    requires few { All (λ key. length key ≤ 4) (R.keys rows.now) }
    ensures { slice_get (R.keys rows.now) row ≡ Some result }
{
    key_of_row(alloc, rows, row)
}
