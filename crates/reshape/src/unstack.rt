// Labels that become columns.
ghost use Rattle.std.specs.Prelude.{◌≡◌, ◌≤◌, ◌<◌, length, All, IfOk};
ghost use Rattle.factorize.specs.multi_index.Axes.{tuples_at};
ghost use Rattle.row_keys.specs.Keys.{same_tuple};
ghost use Rattle.factorize.specs.label_align.Tuples.{tuple_less};
ghost use Rattle.factorize.specs.Keys.{levels_of};
ghost use Rattle.factorize.specs.multi_index.Axes.{HaveLevels};
ghost use Rattle.meaning_shapes.specs.Reshape.{unstacked};
ghost use Rattle.meaning_shapes.specs.Unstacking.{IsUnstacking};
ghost use Rattle.reshape.specs.Answers.{Unstacks, spread_value};

use crate::entries::{entry_of_row, repeated_entry};
use crate::fault::ReshapeFault;
use crate::limits::cells_within_limits;
use crate::slots::rows_of_cells;
use cell_core::{Gaps, NoMemory, Places, TextDict, Tuples};
use factorize::{KeyGroups, KeyLevels, KeyTuples, group_by_keys};
use merge_concat::key_of_row;
use std::alloc::Global;

/// Rows that are spread over columns.
#[derive(Drop)]
pub struct Spread {
    /// The key of each row, in order.
    pub rows: Tuples,
    /// The label of each column, in order.
    pub columns: Tuples,
    /// Row by row over the columns, the row that the cell comes from, if there is one.
    pub places: Gaps,
}

// The keys at these rows.
fn keys_at<R: KeyLevels>(alloc: Global, rows: &R, places: &Places) -> Result<Tuples, NoMemory>
    requires rows { All (λ row. row < length (R.keys rows.now)) places.now }
    requires few { All (λ key. length key ≤ 4) (R.keys rows.now) }
    ensures { IfOk result (λ made. made ≡ tuples_at (R.keys rows.now) places.now) }
{
    let mut made = Tuples::new(alloc);
    for row in places.as_slice() {
        made.push(key_of_row(alloc, rows, *row))?;
    }
    Ok(made)
}

/// Rows by their keys and labels ("Reshaping by stacking and unstacking" in "Reshaping and pivot tables" of the pandas
/// user guide): a row for each distinct key and a column for each distinct label, both in order, and for each of them the
/// row that has both, if there is one. Texts are told apart by their numbers and ordered by what they say. It takes time
/// that grows with the rows and the cells that are answered; cells are counted before one is made. A key has one to three
/// labels.
///
/// # Errors
///
/// `Duplicates` exactly where more rows than one have the same key and label: with the first such key, and the label
/// behind it. Else `TooLarge` exactly where there are more than 2^26 rows, 2^16 columns or 2^26 cells. `NoMemory` may come
/// in place of any answer, and `MixedKinds` never comes.
pub fn unstack_rows<R: KeyLevels, C: KeyLevels>(
    alloc: Global,
    dict: &TextDict,
    rest: &R,
    spread: &C,
) -> Result<Spread, ReshapeFault>
    requires count { length (R.keys rest.now) ≡ length (C.keys spread.now) }
    requires alike { HaveLevels (levels_of (R.keys rest.now)) (R.keys rest.now) }
    requires few { levels_of (R.keys rest.now) ≤ 3 }
    requires one { HaveLevels 1 (C.keys spread.now) }
    ensures places { Unstacks result
        (unstacked same_tuple (tuple_less dict.now) (R.keys rest.now) (C.keys spread.now)) }
    ensures law { IfOk result (λ made. IsUnstacking same_tuple (tuple_less dict.now)
        (R.keys rest.now) (C.keys spread.now) (spread_value made)) }
{
    let keys = group_by_keys(alloc, dict, rest, true, false)?;
    if let Some(row) = repeated_entry(alloc, spread, &keys.groups)? {
        return Err(ReshapeFault::Duplicates(entry_of_row(alloc, rest, spread, row)));
    }
    let labels = group_by_keys(alloc, dict, spread, true, false)?;
    let Some(cells) = cells_within_limits(keys.groups.count(), labels.groups.count()) else {
        return Err(ReshapeFault::TooLarge);
    };
    let places = rows_of_cells(alloc, &keys.groups, &labels.groups, cells)?;
    let rows = keys_at(alloc, rest, &keys.firsts)?;
    let columns = keys_at(alloc, spread, &labels.firsts)?;
    Ok(Spread {
        rows,
        columns,
        places,
    })
}

/// Tuples of labels that are spread as [`unstack_rows`] spreads the rows of tables: those that stay, of one to three
/// labels, and for each of them one that becomes a column's.
///
/// # Errors
///
/// Those of [`unstack_rows`], exactly where it has them.
pub fn unstack_places(
    alloc: Global,
    dict: &TextDict,
    rest: &Tuples,
    spread: &Tuples,
) -> Result<Spread, ReshapeFault>
    requires count { length rest.now ≡ length spread.now }
    requires alike { HaveLevels (levels_of rest.now) rest.now }
    requires few { levels_of rest.now ≤ 3 }
    requires one { HaveLevels 1 spread.now }
    ensures places { Unstacks result
        (unstacked same_tuple (tuple_less dict.now) rest.now spread.now) }
    ensures law { IfOk result (λ made. IsUnstacking same_tuple (tuple_less dict.now)
        rest.now spread.now (spread_value made)) }
{
    unstack_rows(alloc, dict, &KeyTuples::of(rest), &KeyTuples::of(spread))
}
