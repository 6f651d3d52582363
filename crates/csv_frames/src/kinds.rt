// The kinds that are named for columns.
ghost use Rattle.std.specs.Prelude.{◌≡◌, IfOk, map};
ghost use Rattle.column_core.specs.cells.Text.{Text as OneText};
ghost use Rattle.meaning_csv.specs.CsvRead as meant;
ghost use Rattle.csv_frames.specs.Views.{texts_seen, entries_seen, kinds_seen, kind_at};

use crate::table::NamedKinds;
use cell_core::{Kind, NoMemory, TextDict};
use indexmap::IndexMap;
use std::alloc::Global;

// The kinds by label.
#[tactic(auto, using(crate::proofs::KindLaws::kind_step))]
fn kinds_by_label(
    alloc: Global,
    dict: &TextDict,
    kinds: &NamedKinds,
) -> Result<IndexMap<String, Kind>, NoMemory>
    ensures { IfOk result (λ named. (label : OneText) →
        kind_at (kinds_seen named.entries) label
        ≡ meant.named_kind (entries_seen dict.now kinds.now) label) }
{
    let mut named = IndexMap::new(alloc);
    for k in 0..kinds.len() {
        let entry = *kinds.at(k);
        let label = String::from_str(alloc, dict.text(entry.label))?;
        named.insert(label, entry.kind)?;
    }
    Ok(named)
}

#[tactic(auto, using(crate::proofs::KindLaws::kind_found))]
fn kind_of_label(named: &IndexMap<String, Kind>, label: &str) -> Option<Kind>
    ensures { result ≡ kind_at (kinds_seen named.now.entries) label.now }
{
    named.get(label).copied()
}

/// The kind that is named for each of the labels, if one is.
pub(crate) fn kinds_of_labels(
    alloc: Global,
    dict: &TextDict,
    kinds: &NamedKinds,
    labels: &[String],
) -> Result<Vec<Option<Kind>>, NoMemory>
    ensures { IfOk result (λ named. named.items
        ≡ map (meant.named_kind (entries_seen dict.now kinds.now)) (texts_seen labels.now)) }
{
    let by_label = kinds_by_label(alloc, dict, kinds)?;
    let mut named = Vec::new(alloc);
    let mut rest = labels;
    while let [label, more @ ..] = rest {
        named.push(kind_of_label(&by_label, label.as_str()))?;
        rest = more;
    }
    Ok(named)
}
