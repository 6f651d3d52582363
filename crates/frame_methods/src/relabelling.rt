// The labels that a dict gives to columns.
ghost use Rattle.std.specs.Prelude.{◌≡◌, [], map, length, IfOk};
ghost use Rattle.indexmap.specs.IndexMap.{insert_all};
ghost use Rattle.cell_core.specs.declared.grid.Shape.TheVariants.{Frame};
ghost use Rattle.frame_store.specs.tables.Settled.{IsSettled};
ghost use Rattle.frame_store.specs.tables.Table.{table_value};
ghost use Rattle.frame_store.specs.tables.Valid.{IsWhole, AreHeadings};
ghost use Rattle.meaning_call.specs.Binding.{same_label};
ghost use Rattle.frame_parts.specs.Makes.{MakesBy};
ghost use Rattle.frame_store.specs.Shown.{headings_value};
ghost use Rattle.frame_methods.specs.Renames.{given_labels, pairs_seen, have_labels, heading_by, relabelled, labels_seen};

use cell_core::{Code, Grid, Label, NoMemory, TextDict};
use frame_parts::name_of;
use frame_select::heading_list;
use frame_store::{Argument, Headings, ObjRef, OpFault};
use indexmap::IndexMap;
use std::alloc::Global;

// Each key with the label that its last value is; none where that is no scalar. Texts are told
// apart by their numbers.
fn last_labels(
    alloc: Global,
    dict: &TextDict,
    pairs: &[(Label, Argument)],
) -> Result<IndexMap<Label, Option<Label>>, NoMemory>
    requires { IsSettled given_labels dict.now pairs.now }
    ensures settled { IfOk result (λ labels. IsSettled pairs_seen dict.now labels.entries) }
    ensures last { IfOk result (λ labels. pairs_seen dict.now labels.entries
        ≡ insert_all same_label [] (given_labels dict.now pairs.now)) }
{
    // Equal texts have equal numbers: `TextDict::len` says so.
    let _ = dict.len();
    let mut labels = IndexMap::new(alloc);
    for (key, value) in pairs {
        labels.insert(*key, name_of(value.scalar()))?;
    }
    Ok(labels)
}

// Whether each key has a label.
fn have_labels(labels: &IndexMap<Label, Option<Label>>) -> bool
    ensures { result ≡ have_labels labels.now.entries }
{
    labels.values().all(|label| label.is_some())
}

// The heading of a column: its new label, or the old one where it has none.
fn new_heading(labels: &IndexMap<Label, Option<Label>>, heading: Option<Label>) -> Option<Label>
    ensures { result ≡ heading_by labels.now.entries heading }
{
    match heading {
        Some(label) => match labels.get(&label) {
            Some(Some(new)) => Some(*new),
            _ => Some(label),
        },
        None => None,
    }
}

// The new headings of all columns.
fn new_headings(
    alloc: Global,
    on: &ObjRef<'_>,
    labels: &IndexMap<Label, Option<Label>>,
) -> Result<Vec<Option<Label>>, NoMemory>
    requires { length on.now.headings ≡ length on.now.columns }
    ensures { IfOk result (λ made. made.items
        ≡ map (heading_by labels.now.entries) on.now.headings) }
{
    let mut made = Vec::new(alloc);
    for place in 0..on.columns() {
        made.push(new_heading(labels, on.heading(place)))?;
    }
    Ok(made)
}

// The headings of a frame's columns under the labels of a dict; those that it doesn't name stay.
pub(crate) fn renamed_headings(
    alloc: Global,
    dict: &TextDict,
    on: &ObjRef<'_>,
    pairs: &[(Label, Argument)],
) -> Result<Headings, OpFault>
    requires whole { IsWhole on.now }
    requires shape { on.now.shape ≡ Frame }
    requires settled { IsSettled table_value dict.now on.now }
    requires given { IsSettled given_labels dict.now pairs.now }
    ensures headed { IfOk result (λ made. length made.labels ≡ length on.now.headings) }
    ensures headings { IfOk result (λ made. AreHeadings Frame made.columns_name made.labels) }
    ensures name { IfOk result (λ made. made.columns_name ≡ on.now.columns_name) }
    ensures settled { IfOk result (λ made. IsSettled headings_value dict.now made.labels) }
    ensures answer { MakesBy labels_seen dict.now result
        (relabelled (insert_all same_label [] (given_labels dict.now pairs.now))
        (headings_value dict.now on.now.headings)) }
{
    // Equal texts have equal numbers: `TextDict::len` says so.
    let _ = dict.len();
    let labels = last_labels(alloc, dict, pairs)?;
    if !have_labels(&labels) {
        return Err(OpFault::Refused(Code::WrongKind));
    }
    let headings = new_headings(alloc, on, &labels)?;
    Ok(heading_list(alloc, on.columns_name(), &headings)?)
}
