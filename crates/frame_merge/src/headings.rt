// The labels of the columns of two frames beside one another.
ghost use Rattle.std.specs.Prelude.{◌≡◌, ◌<◌, length, map, IfOk};
ghost use Rattle.column_core.specs.cells.Cell.{IsLonger};
ghost use Rattle.frame_store.specs.tables.Settled.{IsSettled};
ghost use Rattle.frame_store.specs.tables.Table.{table_value, heading_value};
ghost use Rattle.frame_store.specs.tables.Valid.{IsWhole};
ghost use Rattle.frame_labels.specs.method.Merge.{right_places};
ghost use Rattle.frame_store.specs.Parts.{AreColumnsOf};
ghost use Rattle.frame_store.specs.Shown.{headings_value};
ghost use Rattle.frame_store.specs.World.{IsKnownTable};
ghost use Rattle.frame_select.specs.Selected.{headings_at};
ghost use Rattle.frame_merge.specs.Keys.{keys_value, AreAlike};
ghost use Rattle.frame_merge.specs.Headings.{label_beside, merged_headings, AreAmong};

use crate::keys::MergeKeys;
use crate::places::key_at;
use crate::suffixes::heading_beside;
use cell_core::{Grid, Label, NoMemory, Places, TextDict};
use frame_labels::places_besides;
use frame_select::places_below;
use frame_store::ObjRef;
use indexmap::IndexSet;
use std::alloc::Global;

// The headings of these columns, each once.
pub(crate) fn heading_set(
    alloc: Global,
    on: &ObjRef<'_>,
    places: &Places,
) -> Result<IndexSet<Option<Label>>, NoMemory>
    requires whole { IsWhole on.now }
    requires places { AreColumnsOf on.now places.now }
    ensures { IfOk result (λ made. AreAmong made.keys (headings_at on.now places.now)) }
{
    let mut made = IndexSet::new(alloc);
    for k in 0..places.len() {
        made.insert(on.heading(*places.at(k)))?;
    }
    Ok(made)
}

// The label of a column: with a suffix where it is no key and one of the others is equal.
#[tactic(auto, using(frame_store::proofs::Settling::longer_self))]
fn label_beside(
    alloc: Global,
    dict: &mut TextDict,
    on: &ObjRef<'_>,
    column: usize,
    keys: &Places,
    suffix: &str,
    others: &IndexSet<Option<Label>>,
) -> Result<Option<Label>, NoMemory>
    requires known { IsKnownTable dict.old on.now }
    requires column { column < length on.now.columns }
    ensures longer { IsLonger dict.old dict.new }
    ensures given { IfOk result (IsSettled heading_value dict.new) }
    ensures label { IfOk result (λ made. heading_value dict.new made ≡ label_beside
        (table_value dict.old on.now) on.now keys.now suffix.now others.now.keys column) }
{
    let heading = on.heading(column);
    match key_at(keys, column) {
        Some(_) => Ok(heading),
        None => heading_beside(alloc, dict, heading, suffix, others),
    }
}

// The labels of these columns.
fn labels_beside(
    alloc: Global,
    dict: &mut TextDict,
    on: &ObjRef<'_>,
    places: &Places,
    keys: &Places,
    suffix: &str,
    others: &IndexSet<Option<Label>>,
) -> Result<Vec<Option<Label>>, NoMemory>
    requires known { IsKnownTable dict.old on.now }
    requires places { AreColumnsOf on.now places.now }
    ensures longer { IsLonger dict.old dict.new }
    ensures given { IfOk result (λ made. IsSettled headings_value dict.new made.items) }
    ensures labels { IfOk result (λ made. headings_value dict.new made.items ≡ map (label_beside
        (table_value dict.old on.now) on.now keys.now suffix.now others.now.keys) places.now) }
{
    let mut labels = Vec::new(alloc);
    for k in 0..places.len() {
        let column = *places.at(k);
        labels.push(label_beside(alloc, dict, on, column, keys, suffix, others)?)?;
    }
    Ok(labels)
}

// The labels of the columns of the left frame, and then of those of the right frame that are no keys.
pub(crate) fn merged_labels(
    alloc: Global,
    dict: &mut TextDict,
    l: &ObjRef<'_>,
    r: &ObjRef<'_>,
    keys: &MergeKeys,
    rights: &Places,
) -> Result<Vec<Option<Label>>, NoMemory>
    requires left { IsKnownTable dict.old l.now }
    requires right { IsKnownTable dict.old r.now }
    requires keys { AreAlike l.now r.now keys.now }
    requires rights { rights.now ≡ right_places (table_value dict.old r.now) (keys_value keys.now) }
    ensures longer { IsLonger dict.old dict.new }
    ensures given { IfOk result (λ made. IsSettled headings_value dict.new made.items) }
    ensures labels { IfOk result (λ made. headings_value dict.new made.items ≡ merged_headings
        (table_value dict.old l.now) (table_value dict.old r.now) (keys_value keys.now)) }
{
    // Equal texts have equal numbers: `TextDict::len` says so.
    let _ = dict.len();
    let all = places_below(alloc, l.columns())?;
    let lefts = places_besides(alloc, l.columns(), &keys.left)?;
    let of_left = heading_set(alloc, l, &lefts)?;
    let of_right = heading_set(alloc, r, rights)?;
    let mut labels = labels_beside(alloc, dict, l, &all, &keys.left, "_x", &of_right)?;
    let none = Places::new(alloc);
    let own = labels_beside(alloc, dict, r, rights, &none, "_y", &of_left)?;
    labels.extend_from_slice(own.as_slice())?;
    Ok(labels)
}
