// A list of labels.
ghost use Rattle.std.specs.Prelude.{◌≡◌, ◌^◌, ◌<◌, ◌≤◌, length, slice_get, Some, IfOk, All};
ghost use Rattle.std.specs.Bool.{Decides};
ghost use Rattle.cell_core.specs.Grids.{AreRowsBelow};
ghost use Rattle.meaning_pick.specs.Labels.{rows_of_key, all_differ};
ghost use Rattle.meaning_pick.specs.Rows.{rows_of};
ghost use Rattle.meaning_pick.specs.Slices.{is_in_order, label_slice};
ghost use Rattle.index_core.specs.Labels.{same_number, order_in, labels_at};
ghost use Rattle.index_core.specs.Picks.{PicksBy, TellsBy, as_it_is};
ghost use Rattle.index_core.specs.Ranges.{range_labels};

use crate::fault::IndexFault;
use crate::found::LabelRows;
use crate::{listed, ranges};
use cell_core::{Label, NoMemory, Places, Rows, TextDict};
use std::alloc::Global;
use std::marker::Model;

/// A list of labels. Labels may repeat.
#[derive(Drop)]
pub struct Index {
    labels: IndexLabels,
}

#[derive(Drop)]
enum IndexLabels {
    Below(usize),
    Listed(Vec<Label>),
}

impl Model for Index {
    ghost use Rattle.std.specs.Prelude.{List};
    ghost use Rattle.cell_core.specs.declared.cell.Label.{Label};

    ghost Value = { List Label };

    ghost use Rattle.index_core.specs.Views.{kept_labels, HasWholeNumbers};

    ghost view = { λ i. kept_labels i.labels };

    ghost invariant = { λ i. HasWholeNumbers i.labels };
}

impl Index {
    /// The whole numbers from 0 to n - 1, in order. `NoMemory` is the only refusal.
    pub fn range(alloc: Global, n: usize) -> Result<Index, NoMemory>
        requires { n ≤ 2 ^ 63 }
        ensures { IfOk result (λ index. index ≡ range_labels n) }
    {
        Ok(Index {
            labels: IndexLabels::Below(n),
        })
    }

    /// These labels, in order. `NoMemory` is the only refusal.
    pub fn from_labels(alloc: Global, labels: &[Label]) -> Result<Index, NoMemory>
        ensures { IfOk result (λ index. index ≡ labels.now) }
    {
        let copied = labels.to_vec(alloc)?;
        Ok(Index {
            labels: IndexLabels::Listed(copied),
        })
    }

    /// These labels, in order. Takes no memory.
    pub fn from_vec(labels: Vec<Label>) -> Index
        ensures { result ≡ labels.items }
    {
        Index {
            labels: IndexLabels::Listed(labels),
        }
    }

    /// An index of its own with the same labels. `NoMemory` is the only refusal.
    pub fn copy(&self, alloc: Global) -> Result<Index, NoMemory>
        ensures { IfOk result (λ index. index ≡ self.now) }
    {
        let labels = match &self.labels {
            IndexLabels::Below(n) => IndexLabels::Below(*n),
            IndexLabels::Listed(labels) => IndexLabels::Listed(labels.to_vec(alloc)?),
        };
        Ok(Index { labels })
    }

    /// How many labels there are. Takes no memory.
    pub fn len(&self) -> usize
        ensures { result ≡ length self.now }
    {
        match &self.labels {
            IndexLabels::Below(n) => *n,
            IndexLabels::Listed(labels) => labels.len(),
        }
    }

    /// The label at a place, counted from 0. Takes no memory.
    #[tactic(auto, using(std::proofs::lemmas::Option::slice_get_read))]
    pub fn label(&self, place: usize) -> Label
        requires { place < length self.now }
        ensures { slice_get self.now place ≡ Some result }
    {
        match &self.labels {
            IndexLabels::Below(_) => Label::Int(place as i64),
            IndexLabels::Listed(labels) => labels[place],
        }
    }

    /// Whether the other index has the same labels at the same places. Texts are compared by their
    /// numbers, and two ranges by their lengths alone. Takes no memory.
    pub fn same_labels(&self, other: &Index) -> bool
        ensures { Decides result (self.now ≡ other.now) }
    {
        match (&self.labels, &other.labels) {
            (IndexLabels::Below(m), IndexLabels::Below(n)) => m == n,
            _ => self.same_places(other),
        }
    }

    // Whether the other index has the same labels at the same places, label by label.
    #[tactic(auto, using(crate::proofs::SameLaws::holds, crate::proofs::SameLaws::all_same))]
    fn same_places(&self, other: &Index) -> bool
        ensures { Decides result (self.now ≡ other.now) }
    {
        if self.len() != other.len() {
            return false;
        }
        for place in 0..self.len() {
            if self.label(place) != other.label(place) {
                return false;
            }
        }
        true
    }

    /// The labels at these places, in their order. `NoMemory` is the only refusal.
    pub fn take(&self, alloc: Global, places: &Places) -> Result<Index, NoMemory>
        requires { All (λ place. place < length self.now) places.now }
        ensures { IfOk result (λ index. index ≡ labels_at self.now places.now) }
    {
        let mut taken = Vec::new(alloc);
        for place in places.as_slice() {
            taken.push(self.label(*place))?;
        }
        Ok(Index::from_vec(taken))
    }

    /// The places of a label, in order ("Selection by label" in the pandas user guide). Texts are compared by their
    /// numbers. A range answers without a search, and a list is read once.
    ///
    /// # Errors
    ///
    /// `NotThere` exactly where the label stands nowhere. `NoMemory` may come in place of any answer.
    pub fn places(&self, alloc: Global, label: Label) -> Result<Places, IndexFault>
        ensures { PicksBy as_it_is result (rows_of_key same_number self.now label) }
    {
        match &self.labels {
            IndexLabels::Below(n) => ranges::places_of(alloc, *n, label),
            IndexLabels::Listed(labels) => listed::places_of(alloc, labels, label),
        }
    }

    /// The places of a slice by labels, both ends included, as a run of places ("Slicing with labels" in the pandas
    /// user guide). A bound that isn't given is an end. Where the labels are in order, the slice goes from the first
    /// label that isn't below `from` to the last one that isn't above `to`. Else it goes from the place of the one to
    /// that of the other, and has none where they stand the other way. Takes no memory. A range answers without a
    /// search; a list is read once, and searched by halving where it is in order.
    ///
    /// # Errors
    ///
    /// Where the labels aren't in order, `NotThere` of a bound that stands nowhere, and `BoundNotUnique` of one that stands more than once,
    /// of `from` first. `NoMemory` never comes.
    pub fn slice_places(
        &self,
        dict: &TextDict,
        from: Option<Label>,
        to: Option<Label>,
    ) -> Result<Rows, IndexFault>
        ensures rows { TellsBy rows_of result (label_slice (order_in dict.now) from to self.now) }
        ensures below { IfOk result (λ rows. AreRowsBelow rows (length self.now)) }
    {
        match &self.labels {
            IndexLabels::Below(n) => Ok(ranges::slice_of(*n, from, to)),
            IndexLabels::Listed(labels) => listed::slice_of(dict, labels, from, to),
        }
    }

    /// Whether no label stands twice. Texts are compared by their numbers. `NoMemory` is the only refusal.
    pub fn is_unique(&self, alloc: Global) -> Result<bool, NoMemory>
        ensures { IfOk result (λ unique. unique ≡ all_differ same_number self.now) }
    {
        match &self.labels {
            IndexLabels::Below(_) => Ok(true),
            IndexLabels::Listed(labels) => listed::all_differ(alloc, labels),
        }
    }

    /// Whether no label is less than the one before. Takes no memory.
    pub fn is_sorted(&self, dict: &TextDict) -> bool
        ensures { result ≡ is_in_order (order_in dict.now) self.now }
    {
        match &self.labels {
            IndexLabels::Below(_) => true,
            IndexLabels::Listed(labels) => listed::is_sorted(dict, labels),
        }
    }

    /// The rows of each label, for those who ask for many. `NoMemory` is the only refusal.
    pub fn rows_by_label(&self, alloc: Global) -> Result<LabelRows<'_>, NoMemory>
        ensures { IfOk result (λ rows. rows ≡ self.now) }
    {
        match &self.labels {
            IndexLabels::Below(n) => Ok(LabelRows::of_range(*n)),
            IndexLabels::Listed(labels) => LabelRows::of_labels(alloc, labels),
        }
    }
}
