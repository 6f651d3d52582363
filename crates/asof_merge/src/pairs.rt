// For each row the nearest row of the other side.
ghost use Rattle.std.specs.Prelude.{◌≡◌, ◌≤◌, ◌++◌, ℕ, List, map, length, Some, IfOk};
ghost use Rattle.std.specs.List.{zip};
ghost use Rattle.column_core.specs.cells.Column.{tabulate};
ghost use Rattle.factorize.specs.multi_index.Axes.{HaveLevels};
ghost use Rattle.row_keys.specs.Keys.{same_tuple};
ghost use Rattle.factorize.specs.Keys.{levels_of};
ghost use Rattle.meaning_asof.specs.AsOf.{asof_rows, asof_merged};
ghost use Rattle.asof_merge.specs.Walk.{IsAscending};
ghost use Rattle.asof_merge.specs.Keys.{keys_of, ungrouped};
ghost use Rattle.asof_merge.specs.Answers.{MatchesBy};

use crate::fault::AsofFault;
use crate::keys::{CellKeys, sorted_keys};
use crate::walk::{SideRows, nearest_rows};
use cell_core::{Cells, Gaps, NoMemory, Side, Tuples};
use column_core::Source;
use meaning_asof::Direction;
use row_keys::{LevelRows, numbered};
use std::alloc::Global;

// How many levels the tuples of two sides have.
fn levels_of_both<A: LevelRows, B: LevelRows>(alloc: Global, left: &A, right: &B) -> usize
    ensures levels { result ≡ levels_of (A.tuples left.now ++ B.tuples right.now) }
    ensures some { 1 ≤ result }
{
    if left.count() > 0 {
        left.tuple(alloc, 0).len()
    } else if right.count() > 0 {
        right.tuple(alloc, 0).len()
    } else {
        1
    }
}

// For each row of the left side the nearest row of the right one with its tuple. The keys of each side are in order.
fn rows_by_tuple<A: LevelRows, B: LevelRows>(
    alloc: Global,
    left: &[i64],
    right: &[i64],
    left_by: &A,
    right_by: &B,
    direction: Direction,
    tolerance: Option<u64>,
) -> Result<Gaps, NoMemory>
    requires left { IsAscending left.now }
    requires right { IsAscending right.now }
    requires left_by { length left.now ≡ length (A.tuples left_by.now) }
    requires right_by { length right.now ≡ length (B.tuples right_by.now) }
    requires alike { let tuples = A.tuples left_by.now ++ B.tuples right_by.now in
        HaveLevels (levels_of tuples) tuples }
    ensures { IfOk result (λ rows. rows ≡ asof_rows same_tuple direction tolerance
        (zip (map Some left.now) (A.tuples left_by.now))
        (zip (map Some right.now) (B.tuples right_by.now))) }
{
    let levels = levels_of_both(alloc, left_by, right_by);
    let numbers = numbered(alloc, left_by, right_by, levels)?;
    let codes: &[usize] = &numbers.codes;
    let firsts: &[usize] = &numbers.firsts;
    let (of_left, of_right) = codes.split_at(left.len());
    let lefts = SideRows::of(left, of_left, firsts.len());
    let rights = SideRows::of(right, of_right, firsts.len());
    let found = nearest_rows(alloc, direction, tolerance, &lefts, &rights)?;
    Ok(Gaps::from(found))
}

/// For each row of the left side the nearest row of the right one that has its tuple, NA equal to NA, or nothing ("merge_asof"
/// in the pandas user guide, "Merge, join, concatenate and compare"): looking back the last row whose key isn't above its own,
/// looking forward the first one whose key isn't below it. With a tolerance the keys are that far apart at most, in whole
/// numbers without a limit. It takes time that grows with the rows of both sides alone. Texts are told apart by their
/// numbers. Each side has a tuple for each key, and all tuples have as many labels.
///
/// # Errors
///
/// `Unsorted` exactly where a key is missing or less than the one before it: with the first such row of the left side, and else
/// of the right one. `NoMemory` may come in place of any answer.
pub fn asof_rows<S: Source<i64>, T: Source<i64>, A: LevelRows, B: LevelRows>(
    alloc: Global,
    left: &S,
    right: &T,
    left_by: &A,
    right_by: &B,
    direction: Direction,
    tolerance: Option<u64>,
) -> Result<Gaps, AsofFault>
    requires left { S.count_of left.now ≡ length (A.tuples left_by.now) }
    requires right { T.count_of right.now ≡ length (B.tuples right_by.now) }
    requires alike { let tuples = A.tuples left_by.now ++ B.tuples right_by.now in
        HaveLevels (levels_of tuples) tuples }
    ensures { MatchesBy result (asof_merged same_tuple direction tolerance
        (zip (tabulate (S.count_of left.now) (S.row_of left.now)) (A.tuples left_by.now))
        (zip (tabulate (T.count_of right.now) (T.row_of right.now)) (B.tuples right_by.now))) }
{
    let lefts = sorted_keys(alloc, Side::Left, left)?;
    let rights = sorted_keys(alloc, Side::Right, right)?;
    let rows = rows_by_tuple(
        alloc, &lefts, &rights, left_by, right_by, direction, tolerance,
    )?;
    Ok(rows)
}

// For each row of the left side the nearest row of the right one. The keys of each side are in order.
fn rows_of_one_group(
    alloc: Global,
    left: &[i64],
    right: &[i64],
    direction: Direction,
    tolerance: Option<u64>,
) -> Result<Gaps, NoMemory>
    requires left { IsAscending left.now }
    requires right { IsAscending right.now }
    ensures { IfOk result (λ rows. rows ≡ asof_rows same_tuple direction tolerance
        (ungrouped (map Some left.now)) (ungrouped (map Some right.now))) }
{
    let of_left = vec![in alloc; 0usize; left.len()]?;
    let of_right = vec![in alloc; 0usize; right.len()]?;
    let lefts = SideRows::of(left, &of_left, 1);
    let rights = SideRows::of(right, &of_right, 1);
    let found = nearest_rows(alloc, direction, tolerance, &lefts, &rights)?;
    Ok(Gaps::from(found))
}

/// The same where all rows are of one group.
///
/// # Errors
///
/// Those of [`asof_rows`], exactly where it has them.
pub fn asof_rows_ungrouped<S: Source<i64>, T: Source<i64>>(
    alloc: Global,
    left: &S,
    right: &T,
    direction: Direction,
    tolerance: Option<u64>,
) -> Result<Gaps, AsofFault>
    ensures { MatchesBy result (asof_merged same_tuple direction tolerance
        (ungrouped (tabulate (S.count_of left.now) (S.row_of left.now)))
        (ungrouped (tabulate (T.count_of right.now) (T.row_of right.now)))) }
{
    let lefts = sorted_keys(alloc, Side::Left, left)?;
    let rights = sorted_keys(alloc, Side::Right, right)?;
    let rows = rows_of_one_group(alloc, &lefts, &rights, direction, tolerance)?;
    Ok(rows)
}

/// As [`asof_rows`], for cells and tuples of labels. A cell that isn't a whole number is a missing key.
///
/// # Errors
///
/// Those of [`asof_rows`], exactly where it has them.
pub fn asof_pairs(
    alloc: Global,
    left: &Cells,
    right: &Cells,
    left_by: &Tuples,
    right_by: &Tuples,
    direction: Direction,
    tolerance: Option<u64>,
) -> Result<Gaps, AsofFault>
    requires left { length left.now ≡ length left_by.now }
    requires right { length right.now ≡ length right_by.now }
    requires alike { let tuples = left_by.now ++ right_by.now in
        HaveLevels (levels_of tuples) tuples }
    ensures { (texts : List (List ℕ)) → MatchesBy result (asof_merged same_tuple direction tolerance
        (zip (keys_of texts left.now) left_by.now) (zip (keys_of texts right.now) right_by.now)) }
{
    let lefts = CellKeys {
        cells: left.as_slice(),
    };
    let rights = CellKeys {
        cells: right.as_slice(),
    };
    asof_rows(
        alloc, &lefts, &rights, left_by, right_by, direction, tolerance,
    )
}
