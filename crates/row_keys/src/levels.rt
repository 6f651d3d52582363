// The numbers of tuples, level by level.
ghost use Rattle.std.specs.Prelude.{◌≡◌, ◌<◌, ◌≤◌, [], ◌++◌, map, length, slice_index_or, IfOk, All};
ghost use Rattle.multi_index.specs.Axes.{HaveLevels, tuples_at};
ghost use Rattle.row_keys.specs.Keys.{same_tuple, codes_of, first_rows, label_in};

use crate::codes::{label_codes, pair_codes};
use crate::numbers::Numbers;
use crate::rows::{Column, Level};
use crate::sides::LevelRows;
use cell_core::{Label, NoMemory, Tuple, Tuples};
use std::alloc::Global;

// The labels of a level, of the one side and then of the other.
fn labels_at<A: LevelRows, B: LevelRows>(
    alloc: Global,
    left: &A,
    right: &B,
    level: usize,
) -> Result<Vec<Label>, NoMemory>
    ensures { IfOk result (λ labels. labels.items
        ≡ map (label_in level) (A.tuples left.now ++ B.tuples right.now)) }
{
    let mut labels = Vec::new(alloc);
    left.push_level(level, &mut labels)?;
    right.push_level(level, &mut labels)?;
    Ok(labels)
}

/// Numbers the tuples of two sides together, those of the left first, by first sight: one pass a level, and no
/// tuple is made. `NoMemory` is the only refusal.
pub fn numbered<A: LevelRows, B: LevelRows>(
    alloc: Global,
    left: &A,
    right: &B,
    levels: usize,
) -> Result<Numbers, NoMemory>
    requires some { 1 ≤ levels }
    requires alike { HaveLevels levels (A.tuples left.now ++ B.tuples right.now) }
    ensures codes { IfOk result (λ n. n.codes.items
        ≡ codes_of same_tuple (A.tuples left.now ++ B.tuples right.now)) }
    ensures firsts { IfOk result (λ n. n.firsts.items
        ≡ first_rows same_tuple (A.tuples left.now ++ B.tuples right.now)) }
{
    let mut level = levels - 1;
    let labels = labels_at(alloc, left, right, level)?;
    let mut numbers = label_codes(alloc, &Column { labels: &labels })?;
    while level > 0 {
        level -= 1;
        let upper = labels_at(alloc, left, right, level)?;
        numbers = pair_codes(
            alloc,
            &Level {
                labels: &upper,
                codes: &numbers.codes,
            },
        )?;
    }
    Ok(numbers)
}

// The tuple of a row of two sides, those of the left first.
fn tuple_at<A: LevelRows, B: LevelRows>(alloc: Global, left: &A, right: &B, row: usize) -> Tuple
    requires { row < length (A.tuples left.now ++ B.tuples right.now) }
    ensures { result ≡ slice_index_or (A.tuples left.now ++ B.tuples right.now) row [] }
{
    let count = left.count();
    if row < count {
        left.tuple(alloc, row)
    } else {
        right.tuple(alloc, row - count)
    }
}

/// The tuples at these rows of two sides, those of the left first. `NoMemory` is the only refusal.
pub fn tuples_at<A: LevelRows, B: LevelRows>(
    alloc: Global,
    left: &A,
    right: &B,
    rows: &[usize],
) -> Result<Tuples, NoMemory>
    requires { All (λ row. row < length (A.tuples left.now ++ B.tuples right.now)) rows.now }
    ensures { IfOk result (λ made. made
        ≡ tuples_at (A.tuples left.now ++ B.tuples right.now) rows.now) }
{
    let mut made = Tuples::new(alloc);
    for row in rows {
        made.push(tuple_at(alloc, left, right, *row))?;
    }
    Ok(made)
}
