// The groups of rows by the cells of columns, and those cells as labels.
ghost use Rattle.std.specs.Prelude.{◌≡◌, ◌≤◌, length, map, IfOk};
ghost use Rattle.frame_store.specs.Parts.{AreColumnsOf, AreRowsOf};
ghost use Rattle.frame_store.specs.World.{IsKnownTable};
ghost use Rattle.frame_labels.specs.Levels.{row_labels};
ghost use Rattle.frame_labels.specs.RowGroups.{grouping_by, AreGroupsOf};

use crate::indexing::row_tuple;
use crate::key_columns::columns_at;
use cell_core::{Grid, NoMemory, Places, TextDict, Tuples};
use column_core::ColRef;
use factorize::{KeyColumns, KeyGroups, group_by_keys};
use frame_store::ObjRef;
use std::alloc::Global;

/// The groups of the rows whose cells in these columns, of which there is one at least, are equal, and for each group a
/// row with its cells. The groups stand in the order of their cells, or in that of their first rows; with `dropna` a row
/// that has a missing cell there is in no group. `NoMemory` is the only refusal.
pub fn groups_by(
    alloc: Global,
    dict: &TextDict,
    on: &ObjRef<'_>,
    keys: &Places,
    sorted: bool,
    dropna: bool,
) -> Result<KeyGroups, NoMemory>
    requires known { IsKnownTable dict.now on.now }
    requires keys { AreColumnsOf on.now keys.now }
    requires some { 1 ≤ length keys.now }
    ensures { IfOk result (AreGroupsOf dict.now on.now (grouping_by keys.now sorted dropna)) }
{
    // Equal texts have equal numbers: `TextDict::len` says so.
    let _ = dict.len();
    let columns = columns_at(alloc, on, keys)?;
    let keys: &[ColRef<'_>] = &columns;
    let rows = KeyColumns::of(keys, on.rows());
    group_by_keys(alloc, dict, &rows, sorted, dropna)
}

/// The cells of these rows in these columns, of which there are one to four, as tuples of labels. `NoMemory` is the only
/// refusal.
pub fn key_tuples(
    alloc: Global,
    on: &ObjRef<'_>,
    keys: &Places,
    rows: &Places,
) -> Result<Tuples, NoMemory>
    requires keys { AreColumnsOf on.now keys.now }
    requires some { 1 ≤ length keys.now }
    requires few { length keys.now ≤ 4 }
    requires rows { AreRowsOf on.now rows.now }
    ensures { IfOk result (λ tuples. tuples ≡ map (row_labels on.now keys.now) rows.now) }
{
    let mut tuples = Tuples::new(alloc);
    for k in 0..rows.len() {
        tuples.push(row_tuple(alloc, on, keys, *rows.at(k)))?;
    }
    Ok(tuples)
}
