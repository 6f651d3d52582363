// The keys of a side.
ghost use Rattle.std.specs.Prelude.{◌≡◌, map, Some, IfOk, IfErr, IfNone};
ghost use Rattle.column_core.specs.cells.Column.{tabulate};
ghost use Rattle.meaning_asof.specs.AsOf.{breaks_order, first_unsorted};
ghost use Rattle.asof_merge.specs.Keys.{AreInOrder, AreSorted, IsUnsorted};

use crate::fault::AsofFault;
use cell_core::{Cell, NoMemory, Side};
use column_core::Source;
use std::alloc::Global;

/// Cells as keys: whole numbers, and nothing else.
#[derive(Drop)]
pub(crate) struct CellKeys<'a> {
    pub cells: &'a [Cell],
}

impl Source<i64> for CellKeys<'_> {
    ghost use Rattle.std.specs.Prelude.{[], length, slice_index_or};
    ghost use Rattle.cell_core.specs.declared.cell.Cell.TheVariants.{Na};
    ghost use Rattle.column_core.specs.cells.Cell.{datum};
    ghost use Rattle.meaning_asof.specs.AsOf.{key_of};

    ghost count_of = { λ keys. length keys.cells.now };

    ghost row_of = { λ keys row. key_of (datum [] (slice_index_or keys.cells.now row Na)) };

    fn count(&self) -> usize {
        self.cells.len()
    }

    fn get(&self, row: usize) -> Option<i64> {
        match self.cells[row] {
            Cell::Int(key) => Some(key),
            _ => None,
        }
    }
}

// Whether a key is missing, or less than the one before it.
fn breaks_order(before: Option<i64>, key: Option<i64>) -> bool
    ensures { result ≡ breaks_order before key }
{
    match (before, key) {
        (_, None) => true,
        (None, Some(_)) => false,
        (Some(before), Some(key)) => key < before,
    }
}

// The first row whose key is missing or less than the one before it.
fn first_unsorted<S: Source<i64>>(rows: &S) -> Option<usize>
    ensures first { result
        ≡ first_unsorted (tabulate (S.count_of rows.now) (S.row_of rows.now)) }
    ensures none { IfNone result
        (AreInOrder (tabulate (S.count_of rows.now) (S.row_of rows.now)) (S.count_of rows.now)) }
{
    let mut before = None;
    for row in 0..rows.count() {
        let key = rows.get(row);
        if breaks_order(before, key) {
            return Some(row);
        }
        before = key;
    }
    None
}

// The keys, none of which is missing.
fn present_keys<S: Source<i64>>(alloc: Global, rows: &S) -> Result<Vec<i64>, NoMemory>
    requires { AreInOrder
        (tabulate (S.count_of rows.now) (S.row_of rows.now)) (S.count_of rows.now) }
    ensures { IfOk result (λ keys.
        tabulate (S.count_of rows.now) (S.row_of rows.now) ≡ map Some keys.items) }
{
    let count = rows.count();
    let mut keys = Vec::with_capacity(alloc, count)?;
    for row in 0..count {
        keys.push(rows.get(row).unwrap_or(0))?;
    }
    Ok(keys)
}

/// The keys of a side, of which none is missing or less than the one before it.
///
/// # Errors
///
/// `Unsorted` with the side exactly where one is, and with the first such row. `NoMemory` may come in place of any answer.
#[tactic(auto, using(crate::proofs::KeyLaws::are_sorted))]
pub(crate) fn sorted_keys<S: Source<i64>>(
    alloc: Global,
    side: Side,
    rows: &S,
) -> Result<Vec<i64>, AsofFault>
    ensures ok { IfOk result
        (λ keys. AreSorted (tabulate (S.count_of rows.now) (S.row_of rows.now)) keys.items) }
    ensures err { IfErr result
        (IsUnsorted side (tabulate (S.count_of rows.now) (S.row_of rows.now))) }
{
    if let Some(row) = first_unsorted(rows) {
        return Err(AsofFault::Unsorted(side, row));
    }
    let keys = present_keys(alloc, rows)?;
    Ok(keys)
}
