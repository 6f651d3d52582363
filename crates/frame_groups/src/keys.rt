// The groups of a frame's rows by the cells of its key columns, and the labels and columns of the keys.
ghost use Rattle.std.specs.Prelude.{◌≡◌, ◌≤◌, length, map, IfOk};
ghost use Rattle.frame_store.specs.tables.Table.{table_value};
ghost use Rattle.frame_store.specs.tables.Valid.{IsWhole};
ghost use Rattle.frame_labels.specs.method.Groups as meant;
ghost use Rattle.frame_store.specs.Parts.{labelled, AreRowsOf, AreColumnsOf};
ghost use Rattle.frame_store.specs.Shown.{labels_value};
ghost use Rattle.frame_store.specs.World.{IsKnownTable};
ghost use Rattle.frame_select.specs.Selected.{headings_at};
ghost use Rattle.frame_labels.specs.Levels.{row_labels};
ghost use Rattle.frame_groups.specs.Grouped.{grouping_seen, HasKeys};

use crate::grouping::Grouping;
use cell_core::{NoMemory, Places, TextDict};
use factorize::KeyGroups;
use frame_labels::{groups_by, key_tuples, named_axis};
use frame_select::headings_at;
use frame_store::ObjRef;
use multi_index::Axis;
use std::alloc::Global;

// The group of each row, and a row of each group that has its key.
pub(crate) fn groups_of(
    alloc: Global,
    dict: &TextDict,
    on: &ObjRef<'_>,
    grouping: &Grouping,
) -> Result<KeyGroups, NoMemory>
    requires known { IsKnownTable dict.now on.now }
    requires keys { HasKeys on.now grouping.now }
    ensures groups { let t = table_value dict.now on.now in
        IfOk result (λ g. g.groups ≡ meant.groups_of t (grouping_seen dict.now grouping.now)) }
    ensures labels { let t = table_value dict.now on.now in
        IfOk result (λ g. labels_value dict.now (map (row_labels on.now grouping.now.keys) g.firsts)
        ≡ meant.keys_of t (grouping_seen dict.now grouping.now)) }
    ensures firsts { IfOk result (λ g. AreRowsOf on.now g.firsts) }
{
    groups_by(
        alloc,
        dict,
        on,
        &grouping.keys,
        grouping.sorted,
        grouping.dropna,
    )
}

// The axis of the keys of these rows, whose levels have the names of the key columns.
#[tactic(auto, using(frame_labels::proofs::IndexingLaws::rows_alike))]
pub(crate) fn key_axis(
    alloc: Global,
    dict: &TextDict,
    on: &ObjRef<'_>,
    keys: &Places,
    rows: &Places,
) -> Result<Axis, NoMemory>
    requires whole { IsWhole on.now }
    requires keys { AreColumnsOf on.now keys.now }
    requires some { 1 ≤ length keys.now }
    requires few { length keys.now ≤ 4 }
    requires rows { AreRowsOf on.now rows.now }
    ensures { IfOk result (λ axis. labelled axis ≡ record {
      tuples = map (row_labels on.now keys.now) rows.now;
      names = headings_at on.now keys.now;
    }) }
{
    let tuples = key_tuples(alloc, on, keys, rows)?;
    let axis = Axis::from_tuples(alloc, dict, &tuples, keys.len())?;
    let names = headings_at(alloc, on, keys)?;
    Ok(named_axis(axis, names.as_slice()))
}
