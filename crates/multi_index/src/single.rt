// One level by labels, as axes of one level keep it.
ghost use Rattle.std.specs.Prelude.{◌≡◌, ◌^◌, ◌<◌, ◌≤◌, length, slice_index_or, IfOk, All};
ghost use Rattle.cell_core.specs.declared.cell.Label.TheVariants.{Na};
ghost use Rattle.multi_index.specs.Levels.{IsKnown, IsCodeOf, new_level, range_level, seen_level, taken_level};

use crate::labels::LevelLabels;
use crate::level::Level;
use crate::seen::labels_by_row;
use cell_core::{Label, NoMemory, Places, TextDict};
use index_core::Index;
use std::alloc::Global;
use std::marker::Model;
use std::rc::Rc;

// The labels of a level, and the label of each row. Levels that are made of this one share its labels.
#[derive(Drop)]
pub(crate) struct SingleLevel {
    labels: Rc<LevelLabels>,
    rows: Rc<Index>,
}

impl Model for SingleLevel {
    ghost use Rattle.std.specs.Prelude.{All};
    ghost use Rattle.multi_index.specs.Levels.{LevelValue, IsKnown};

    ghost Value = { LevelValue };

    ghost view = { λ l. record { labels = l.labels.value; rows = l.rows.value } };

    ghost invariant = { λ l. All (IsKnown l.labels.value) l.rows.value };
}

impl SingleLevel {
    // The whole numbers 0 to n - 1.
    pub(crate) fn range(alloc: Global, n: usize) -> Result<SingleLevel, NoMemory>
        requires { n ≤ 2 ^ 63 }
        ensures { IfOk result (λ level. level ≡ range_level n) }
    {
        let labels = Rc::new(alloc, LevelLabels::below(n))?;
        let index = Index::range(alloc, n)?;
        let rows = Rc::new(alloc, index)?;
        Ok(SingleLevel { labels, rows })
    }

    // A new level of these labels by row.
    pub(crate) fn of(
        alloc: Global,
        dict: &TextDict,
        rows: Vec<Label>,
    ) -> Result<SingleLevel, NoMemory>
        ensures { IfOk result (λ level. level ≡ new_level dict.now rows.items) }
    {
        let index = Rc::new(alloc, Index::from_vec(rows))?;
        let own = LevelLabels::of_index(alloc, dict, &index)?;
        let labels = Rc::new(alloc, own)?;
        Ok(SingleLevel {
            labels,
            rows: index,
        })
    }

    // A new level of these labels by row, whose own labels are in the order in which they are seen first. No list of
    // them is made.
    pub(crate) fn seen(alloc: Global, rows: Vec<Label>) -> Result<SingleLevel, NoMemory>
        ensures { IfOk result (λ level. level ≡ seen_level rows.items) }
    {
        let index = Rc::new(alloc, Index::from_vec(rows))?;
        let shared = index.clone()?;
        let labels = Rc::new(alloc, LevelLabels::seen(shared))?;
        Ok(SingleLevel {
            labels,
            rows: index,
        })
    }

    // The level, by labels.
    pub(crate) fn decoded(alloc: Global, level: &Level) -> Result<SingleLevel, NoMemory>
        ensures { IfOk result (λ single. single ≡ level.now) }
    {
        let rows = level.rows(alloc)?;
        let labels = level.shared()?;
        let index = Rc::new(alloc, Index::from_vec(rows))?;
        Ok(SingleLevel {
            labels,
            rows: index,
        })
    }

    // The level in codes.
    pub(crate) fn coded(&self, alloc: Global) -> Result<Level, NoMemory>
        ensures { IfOk result (λ level. level ≡ self.now) }
    {
        let rows = labels_by_row(alloc, &self.rows)?;
        let labels = LevelLabels::listed(alloc, &self.labels)?;
        Level::coded(alloc, labels, &rows)
    }

    // The labels of the level, by code.
    pub(crate) fn labels(&self) -> &LevelLabels
        ensures { result.now ≡ self.now.labels }
    {
        &self.labels
    }

    // The label of each row.
    pub(crate) fn rows(&self) -> &Index
        ensures { result.now ≡ self.now.rows }
    {
        &self.rows
    }

    // The code of a row's label.
    pub(crate) fn code(&self, row: usize) -> Option<usize>
        requires { row < length self.now.rows }
        ensures { IsCodeOf self.now.labels (slice_index_or self.now.rows row Na) result }
    {
        self.labels.code(self.rows.label(row))
    }

    // The rows at these places, in their order.
    pub(crate) fn take(&self, alloc: Global, places: &Places) -> Result<SingleLevel, NoMemory>
        requires { All (λ place. place < length self.now.rows) places.now }
        ensures { IfOk result (λ level. level ≡ taken_level places.now self.now) }
    {
        let taken = self.rows.take(alloc, places)?;
        let rows = Rc::new(alloc, taken)?;
        let labels = self.labels.clone()?;
        Ok(SingleLevel { labels, rows })
    }

    // The same level, which shares its labels and rows with this one.
    pub(crate) fn copy(&self) -> Result<SingleLevel, NoMemory>
        ensures { IfOk result (λ level. level ≡ self.now) }
    {
        let rows = self.rows.clone()?;
        let labels = self.labels.clone()?;
        Ok(SingleLevel { labels, rows })
    }
}
