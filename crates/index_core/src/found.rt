// The rows of each label of a list.
ghost use Rattle.std.specs.Prelude.{◌≡◌, ◌++◌, OnOk, IfOk};
ghost use Rattle.meaning_pick.specs.Rows.{only_row, are_some};
ghost use Rattle.index_core.specs.Labels.{places_in};
ghost use Rattle.index_core.specs.Ranges.{range_labels};

use crate::ranges::place_of;
use cell_core::{Label, NoMemory, Places};
use indexmap::IndexMap;
use std::alloc::Global;
use std::marker::Model;

/// The rows of each label of an index, which it borrows. To make it takes a step for each label, and to ask takes a
/// step for each row of the answer. Of a range it keeps the length alone.
#[derive(Drop)]
pub struct LabelRows<'a> {
    known: Known<'a>,
}

#[derive(Drop)]
enum Known<'a> {
    Below(usize),
    Linked(Links<'a>),
}

// The first row of each label, and behind each row the next one with its label.
#[derive(Drop)]
struct Links<'a> {
    labels: &'a [Label],
    first: IndexMap<Label, usize>,
    next: Vec<Option<usize>>,
}

impl<'a> Model for LabelRows<'a> {
    ghost use Rattle.std.specs.Prelude.{List};
    ghost use Rattle.cell_core.specs.declared.cell.Label.{Label};

    ghost Value = { List Label };

    ghost use Rattle.index_core.specs.Known.{known_labels};

    ghost view = { λ r. known_labels r.known };
}

impl<'a> Model for Links<'a> {
    ghost use Rattle.std.specs.Prelude.{List};
    ghost use Rattle.cell_core.specs.declared.cell.Label.{Label};

    ghost Value = { List Label };

    ghost view = { λ r. r.labels.now };

    ghost use Rattle.index_core.specs.Found.{AreLinked};

    ghost invariant = { λ r. AreLinked r.first.entries r.next.items r.labels.now };
}

impl<'a> LabelRows<'a> {
    // The rows of the labels 0 to n - 1.
    pub(crate) fn of_range(n: usize) -> LabelRows<'a>
        ensures { result ≡ range_labels n }
    {
        LabelRows {
            known: Known::Below(n),
        }
    }

    // The rows of the labels of a list.
    pub(crate) fn of_labels(alloc: Global, labels: &'a [Label]) -> Result<LabelRows<'a>, NoMemory>
        ensures { IfOk result (λ rows. rows ≡ labels.now) }
    {
        let links = linked(alloc, labels)?;
        Ok(LabelRows {
            known: Known::Linked(links),
        })
    }

    /// Appends the rows of a label, in order, and says whether there are some. After `NoMemory` some of them may stand there.
    pub fn push_rows(&self, label: Label, rows: &mut Places) -> Result<bool, NoMemory>
        ensures rows { OnOk result (rows.new ≡ rows.old ++ places_in self.now label) }
        ensures some { IfOk result (λ some. some ≡ are_some (places_in self.now label)) }
    {
        match &self.known {
            Known::Below(n) => push_place(*n, label, rows),
            Known::Linked(links) => links.push_rows(label, rows),
        }
    }

    /// The row of a label that stands just once. Takes no memory.
    pub fn only_row(&self, label: Label) -> Option<usize>
        ensures { result ≡ only_row (places_in self.now label) }
    {
        match &self.known {
            Known::Below(n) => place_of(*n, label),
            Known::Linked(links) => links.only_row(label),
        }
    }
}

// Appends the place of a label among the labels 0 to n - 1, if it is one of them.
fn push_place(n: usize, label: Label, rows: &mut Places) -> Result<bool, NoMemory>
    ensures rows { OnOk result (rows.new ≡ rows.old ++ places_in (range_labels n) label) }
    ensures some { IfOk result (λ some. some ≡ are_some (places_in (range_labels n) label)) }
{
    let Some(place) = place_of(n, label) else {
        return Ok(false);
    };
    rows.push(place)?;
    Ok(true)
}

// Links each row to the next one with its label, from the last row on.
fn linked<'a>(alloc: Global, labels: &'a [Label]) -> Result<Links<'a>, NoMemory>
    ensures { IfOk result (λ links. links ≡ labels.now) }
{
    let mut first = IndexMap::new(alloc);
    let mut next = vec![in alloc; None; labels.len()]?;
    for row in (0..labels.len()).rev() {
        let later = first.insert(labels[row], row)?;
        next[row] = later;
    }
    Ok(Links {
        labels,
        first,
        next,
    })
}

impl<'a> Links<'a> {
    // Appends the rows of a label, in order, and says whether there are some.
    fn push_rows(&self, label: Label, rows: &mut Places) -> Result<bool, NoMemory>
        ensures rows { OnOk result (rows.new ≡ rows.old ++ places_in self.now label) }
        ensures some { IfOk result (λ some. some ≡ are_some (places_in self.now label)) }
    {
        let first = self.first.get(&label).copied();
        let mut rest = first;
        while let Some(row) = rest {
            rows.push(row)?;
            rest = self.next[row];
        }
        Ok(first.is_some())
    }

    // The row of a label that stands just once.
    fn only_row(&self, label: Label) -> Option<usize>
        ensures { result ≡ only_row (places_in self.now label) }
    {
        match self.first.get(&label).copied() {
            Some(row) if self.next[row].is_none() => Some(row),
            _ => None,
        }
    }
}
