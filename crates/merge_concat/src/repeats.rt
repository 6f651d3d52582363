// The first key that stands twice on a side.
ghost use Rattle.std.specs.Prelude.{◌≡◌, ◌<◌, ◌≤◌, [], All, IfOk, IfSome, length, nat_lt, slice_index_or};
ghost use Rattle.row_keys.specs.Buckets.{rows_of_code};
ghost use Rattle.merge_concat.specs.Codes.{repeated_from, repeated_in, AreCounts};

use crate::sides::SideCodes;
use cell_core::{Label, NoMemory, Tuple};
use factorize::KeyLevels;
use std::alloc::Global;

// How many rows each number has, as far as a byte counts.
fn counted_rows(alloc: Global, side: &SideCodes<'_>) -> Result<Vec<u8>, NoMemory>
    ensures { IfOk result (λ counts. AreCounts side.now.codes.now side.now.count counts.items) }
{
    let mut counts = vec![in alloc; 0u8; side.count]?;
    for row in 0..side.codes.len() {
        let code = side.code(row);
        counts[code] = counts[code].saturating_add(1);
    }
    Ok(counts)
}

// Whether a number has more than one row.
fn stands_twice(side: &SideCodes<'_>, counts: &[u8], code: usize) -> bool
    requires counts { AreCounts side.now.codes.now side.now.count counts.now }
    requires below { code < side.now.count }
    ensures { result ≡ nat_lt 1 (length (rows_of_code code side.now.codes.now)) }
{
    counts[code] > 1
}

// The first row whose number stands twice.
fn first_repeat(side: &SideCodes<'_>, counts: &[u8]) -> Option<usize>
    requires { AreCounts side.now.codes.now side.now.count counts.now }
    ensures row { result ≡ repeated_from side.now.codes.now 0 side.now.codes.now }
    ensures below { IfSome result (λ row. row < length side.now.codes.now) }
{
    for row in 0..side.codes.len() {
        if stands_twice(side, counts, side.code(row)) {
            return Some(row);
        }
    }
    None
}

/// The first row whose number stands on more than one row, if there is one: each number is below the count. It takes time
/// that grows with the rows and the numbers. `NoMemory` is the only refusal.
pub fn first_repeated_row(
    alloc: Global,
    count: usize,
    codes: &[usize],
) -> Result<Option<usize>, NoMemory>
    requires { All (λ code. code < count) codes.now }
    ensures row { IfOk result (λ found. found ≡ repeated_from codes.now 0 codes.now) }
    ensures below { IfOk result (λ found. IfSome found (λ row. row < length codes.now)) }
{
    let side = SideCodes::of(count, codes);
    let counts = counted_rows(alloc, &side)?;
    Ok(first_repeat(&side, &counts))
}

/// The key of a row as a tuple, where it has four labels at most. Takes no memory.
pub fn key_of_row<R: KeyLevels>(alloc: Global, rows: &R, row: usize) -> Tuple
    requires row { row < length (R.keys rows.now) }
    requires few { length (slice_index_or (R.keys rows.now) row []) ≤ 4 }
    ensures { result ≡ slice_index_or (R.keys rows.now) row [] }
{
    let mut labels = [Label::Na; 4];
    let levels = rows.levels();
    for level in 0..levels {
        labels[level] = rows.label(row, level);
    }
    Tuple::of(alloc, &labels[..levels])
}

// The first key of a side that stands twice there, where each may stand once.
pub(crate) fn repeated_key<R: KeyLevels>(
    alloc: Global,
    once: bool,
    rows: &R,
    side: &SideCodes<'_>,
) -> Result<Option<Tuple>, NoMemory>
    requires counted { length side.now.codes.now ≡ length (R.keys rows.now) }
    requires few { All (λ key. length key ≤ 4) (R.keys rows.now) }
    ensures { IfOk result (λ found. found
        ≡ repeated_in once (R.keys rows.now) side.now.codes.now) }
{
    if !once {
        return Ok(None);
    }
    match first_repeated_row(alloc, side.count, side.codes)? {
        Some(row) => Ok(Some(key_of_row(alloc, rows, row))),
        None => Ok(None),
    }
}
