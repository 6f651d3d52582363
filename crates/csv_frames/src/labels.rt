// The labels of columns.
ghost use Rattle.std.specs.Prelude.{◌≡◌, ◌<◌, ◌≤◌, [], not, IfOk, OnOk, string_bytes};
ghost use Rattle.std.specs.List.{list_any, IsDistinct};
ghost use Rattle.csv.specs.Records.{fields_of};
ghost use Rattle.cell_core.specs.Texts.{with_text};
ghost use Rattle.column_core.specs.cells.Text.{same_text};
ghost use Rattle.meaning_csv.specs.CsvRead as meant;
ghost use Rattle.csv_frames.specs.Labels.{IsSkipped, AreSkipped};
ghost use Rattle.csv_frames.specs.Views.{texts_seen};

use crate::records::field_in;
use cell_core::{NoMemory, TextDict};
use csv::StringRecord;
use std::alloc::Global;

// The label that stands at a place; an empty one is named by the place.
fn label_named(alloc: Global, place: usize, label: &str) -> Result<String, NoMemory>
    ensures { IfOk result (λ named. string_bytes named ≡ meant.label_named place label.now) }
{
    if label.is_empty() {
        Ok(format!(in alloc; "Unnamed: {place}")?)
    } else {
        Ok(String::from_str(alloc, label)?)
    }
}

// The labels that the header names.
fn labels_named(alloc: Global, header: &StringRecord) -> Result<Vec<String>, NoMemory>
    ensures { IfOk result (λ labels. texts_seen labels.items
        ≡ meant.labels_named 0 (fields_of header.now)) }
{
    let mut labels = Vec::new(alloc);
    for place in 0..header.len() {
        labels.push(label_named(alloc, place, field_in(header, place))?)?;
    }
    Ok(labels)
}

// Puts a text among others, and says whether it is new.
#[tactic(auto, using(crate::proofs::LabelLaws::new_number))]
fn is_new(texts: &mut TextDict, text: &str) -> Result<bool, NoMemory>
    ensures texts { OnOk result (texts.new ≡ with_text texts.old text.now) }
    ensures new { IfOk result (λ new. new ≡ not (list_any (same_text text.now) texts.old)) }
{
    let known = texts.len() as u64;
    let number = texts.intern(text)?;
    Ok(number.0 == known)
}

// The texts, each once.
fn all_of(alloc: Global, texts: &[String]) -> Result<TextDict, NoMemory>
    ensures { IfOk result (λ all. all ≡ meant.with_texts [] (texts_seen texts.now)) }
{
    let mut all = TextDict::new(alloc);
    let mut rest = texts;
    while let [text, more @ ..] = rest {
        all.intern(text.as_str())?;
        rest = more;
    }
    Ok(all)
}

// The labels so far.
#[derive(Drop)]
struct Labels {
    // Those of the header, each once.
    before: TextDict,
    // Those that no other column may get.
    taken: TextDict,
    // For each of those before a number from which on one is free.
    next: Vec<usize>,
}

// The label with the least number that gives no label that is taken, and where to look for the next one. No number
// before `first` is free. The label is taken then.
#[tactic(auto, using(crate::proofs::SkippedLaws::label_last, std::proofs::Common::string_bytes))]
fn free_label(
    alloc: Global,
    columns: usize,
    taken: &mut TextDict,
    first: usize,
    label: &str,
) -> Result<(String, usize), NoMemory>
    requires columns { 0 < columns }
    requires some { 1 ≤ first }
    requires skipped { IsSkipped taken.old label.now first }
    ensures label { IfOk result (λ free. string_bytes free.0
        ≡ meant.free_label columns taken.old label.now) }
    ensures taken { IfOk result (λ free. taken.new ≡ with_text taken.old (string_bytes free.0)) }
    ensures some { IfOk result (λ free. 1 ≤ free.1) }
    ensures skipped { IfOk result (λ free. IsSkipped taken.new label.now free.1) }
{
    for number in first..columns {
        let numbered = format!(in alloc; "{label}.{number}")?;
        if is_new(taken, numbered.as_str())? {
            return Ok((numbered, number));
        }
    }
    let numbered = format!(in alloc; "{label}.{columns}")?;
    taken.intern(numbered.as_str())?;
    Ok((numbered, first))
}

// The label of the next column, which stands among the others then and is taken.
#[tactic(auto, using(crate::proofs::Hints::next_label))]
fn next_label(
    alloc: Global,
    columns: usize,
    labels: &mut Labels,
    label: &str,
) -> Result<String, NoMemory>
    requires columns { 0 < columns }
    requires skipped { AreSkipped labels.old.before labels.old.taken labels.old.next.items }
    ensures label { IfOk result (λ next. string_bytes next
        ≡ meant.next_label columns labels.old.before labels.old.taken label.now) }
    ensures before { OnOk result (labels.new.before ≡ with_text labels.old.before label.now) }
    ensures taken { IfOk result (λ next. labels.new.taken
        ≡ with_text labels.old.taken (string_bytes next)) }
    ensures skipped { OnOk result (AreSkipped labels.new.before labels.new.taken
        labels.new.next.items) }
{
    let known = labels.before.len();
    let number = labels.before.intern(label)?.0 as usize;
    if number == known {
        labels.taken.intern(label)?;
        labels.next.push(1)?;
        return Ok(String::from_str(alloc, label)?);
    }
    let first = labels.next[number];
    let (free, next) = free_label(alloc, columns, &mut labels.taken, first, label)?;
    labels.next[number] = next;
    Ok(free)
}

// The labels, of which those that stood before get a number.
fn different_labels(alloc: Global, header: &[String]) -> Result<Vec<String>, NoMemory>
    ensures { IfOk result (λ different. texts_seen different.items
        ≡ meant.different_labels (texts_seen header.now)) }
{
    let mut labels = Labels {
        before: TextDict::new(alloc),
        taken: all_of(alloc, header)?,
        next: Vec::new(alloc),
    };
    let mut different = Vec::new(alloc);
    let mut rest = header;
    while let [label, more @ ..] = rest {
        let next = next_label(alloc, header.len(), &mut labels, label.as_str())?;
        different.push(next)?;
        rest = more;
    }
    Ok(different)
}

/// The labels of the columns that the header gives, which all differ.
#[tactic(auto, using(crate::proofs::Hints::labels_of))]
pub(crate) fn labels_of(alloc: Global, header: &StringRecord) -> Result<Vec<String>, NoMemory>
    ensures labels { IfOk result (λ labels. texts_seen labels.items
        ≡ meant.labels_of (fields_of header.now)) }
    ensures different { IfOk result (λ labels. IsDistinct same_text (texts_seen labels.items)) }
{
    let labels = labels_named(alloc, header)?;
    different_labels(alloc, labels.as_slice())
}
