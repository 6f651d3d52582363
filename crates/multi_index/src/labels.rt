// The labels of a level.
ghost use Rattle.std.specs.Prelude.{◌≡◌, ◌^◌, ◌<◌, ◌≤◌, ℕ, length, slice_get, Some, IfOk, OnOk, All};
ghost use Rattle.index_core.specs.Ranges.{range_labels};
ghost use Rattle.sorting.specs.Sorting.{in_order};
ghost use Rattle.multi_index.specs.Levels.{AreLevelLabels, IsKnown, IsCodeOf, is_present, label_less, level_labels, seen_labels};

use crate::seen::{labels_by_row, seen_code, seen_count, seen_label};
use cell_core::{Label, NoMemory, TextDict};
use index_core::Index;
use indexmap::IndexSet;
use std::alloc::Global;
use std::marker::Model;
use std::rc::Rc;

// The labels of a level, by code: different ones, of which none is missing.
#[derive(Drop)]
pub(crate) struct LevelLabels {
    labels: KeptLabels,
}

#[derive(Drop)]
enum KeptLabels {
    Below(usize),
    Listed(IndexSet<Label>),
    Seen(Rc<Index>),
}

impl Model for LevelLabels {
    ghost use Rattle.std.specs.Prelude.{List};
    ghost use Rattle.cell_core.specs.declared.cell.Label.{Label};

    ghost Value = { List Label };

    ghost use Rattle.multi_index.specs.Kept.{kept_labels, AreLabels};

    ghost view = { λ l. kept_labels l.labels };

    ghost invariant = { λ l. AreLabels l.labels };
}

impl LevelLabels {
    // The whole numbers 0 to n - 1.
    pub(crate) fn below(n: usize) -> LevelLabels
        requires { n ≤ 2 ^ 63 }
        ensures { result ≡ range_labels n }
    {
        LevelLabels {
            labels: KeptLabels::Below(n),
        }
    }

    // The different labels that are present among these, in order.
    pub(crate) fn of(
        alloc: Global,
        dict: &TextDict,
        rows: &[Label],
    ) -> Result<LevelLabels, NoMemory>
        ensures { IfOk result (λ labels. labels ≡ level_labels dict.now rows.now) }
    {
        let mut labels = different(alloc, rows)?;
        put_in_order(dict, &mut labels)?;
        Ok(LevelLabels {
            labels: KeptLabels::Listed(labels),
        })
    }

    // The same of an index. Of labels that stand in order no list is made.
    pub(crate) fn of_index(
        alloc: Global,
        dict: &TextDict,
        rows: &Rc<Index>,
    ) -> Result<LevelLabels, NoMemory>
        ensures { IfOk result (λ labels. labels ≡ level_labels dict.now rows.now.value) }
    {
        let index: &Index = rows;
        if index.is_sorted(dict) {
            let shared = rows.clone()?;
            return Ok(LevelLabels::seen(shared));
        }
        let labels = labels_by_row(alloc, index)?;
        LevelLabels::of(alloc, dict, &labels)
    }

    // The different labels that are present among these, by first sight. No list of them is made.
    pub(crate) fn seen(rows: Rc<Index>) -> LevelLabels
        ensures { result ≡ seen_labels rows.value }
    {
        LevelLabels {
            labels: KeptLabels::Seen(rows),
        }
    }

    // The same labels, with a table of them if they were seen alone.
    pub(crate) fn listed(
        alloc: Global,
        labels: &Rc<LevelLabels>,
    ) -> Result<Rc<LevelLabels>, NoMemory>
        ensures { IfOk result (λ listed. listed.value ≡ labels.now.value) }
    {
        let kept: &LevelLabels = labels;
        if let KeptLabels::Seen(rows) = &kept.labels {
            let rows = labels_by_row(alloc, rows)?;
            let labels = KeptLabels::Listed(different(alloc, &rows)?);
            return Ok(Rc::new(alloc, LevelLabels { labels })?);
        }
        let shared = labels.clone()?;
        Ok(shared)
    }

    // How many labels there are.
    pub(crate) fn len(&self) -> usize
        ensures count { result ≡ length self.now }
        ensures known { AreLevelLabels self.now }
    {
        match &self.labels {
            KeptLabels::Below(n) => *n,
            KeptLabels::Listed(labels) => labels.len(),
            KeptLabels::Seen(rows) => seen_count(rows),
        }
    }

    // The label of a code.
    pub(crate) fn label(&self, code: usize) -> Label
        requires { code < length self.now }
        ensures { slice_get self.now code ≡ Some result }
    {
        match &self.labels {
            KeptLabels::Below(_) => Label::Int(code as i64),
            KeptLabels::Listed(labels) => labels.as_slice()[code],
            KeptLabels::Seen(rows) => seen_label(rows, code),
        }
    }

    // The code of a label that is one of these, and none of the missing label.
    pub(crate) fn code(&self, label: Label) -> Option<usize>
        requires { IsKnown self.now label }
        ensures { IsCodeOf self.now label result }
    {
        match &self.labels {
            KeptLabels::Below(_) => number_code(label),
            KeptLabels::Listed(labels) => labels.get_index_of(&label),
            KeptLabels::Seen(rows) => seen_code(rows, label),
        }
    }
}

// The code of a label among the whole numbers from 0 on.
fn number_code(label: Label) -> Option<usize>
    ensures { (n : ℕ) → IsKnown (range_labels n) label → IsCodeOf (range_labels n) label result }
{
    match label {
        Label::Int(number) => Some(number.unsigned_abs() as usize),
        Label::Bool(_) => None,
        Label::Text(_) => None,
        Label::Na => None,
    }
}

// Whether a label isn't missing.
fn is_present(label: Label) -> bool
    ensures { result ≡ is_present label }
{
    !matches!(label, Label::Na)
}

// The different labels that are present, by first sight.
fn different(alloc: Global, rows: &[Label]) -> Result<IndexSet<Label>, NoMemory>
    ensures { IfOk result (λ labels. labels.keys ≡ seen_labels rows.now) }
{
    let mut labels = IndexSet::new(alloc);
    for label in rows {
        if is_present(*label) {
            labels.insert(*label)?;
        }
    }
    Ok(labels)
}

// Puts labels in order.
fn put_in_order(dict: &TextDict, labels: &mut IndexSet<Label>) -> Result<(), NoMemory>
    ensures { OnOk result (labels.new.keys ≡ in_order (label_less dict.now) labels.old.keys) }
{
    labels.sort_by(|a, b| dict.compare(*a, *b))?;
    Ok(())
}
