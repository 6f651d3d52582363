// The levels of an axis.
ghost use Rattle.std.specs.Prelude.{◌≡◌, ◌^◌, ◌<◌, ◌≤◌, ◌∷◌, [], length, map, slice_get, slice_index_or, Some, IfOk, All, MatchOption};
ghost use Rattle.cell_core.specs.declared.cell.Label.TheVariants.{Na};
ghost use Rattle.multi_index.specs.Axes.{HaveLevels, with_one, single_tuples};
ghost use Rattle.multi_index.specs.Levels.{AreLevelLabels, AreLevels, IsCodeOf, level_tuples, levels_at, labels_on, new_level, new_levels, no_level, range_level, row_count, row_tuple, seen_level, taken_level};

use crate::labels::LevelLabels;
use crate::level::Level;
use crate::single::SingleLevel;
use cell_core::{Label, NoMemory, Places, TextDict, Tuples};
use index_core::Index;
use std::alloc::Global;
use std::marker::Model;

/// The levels of an axis, one to four: the labels of each level, which differ and of which none is missing, and the
/// label of each row on it. Several levels keep for each row the codes of its labels, and share the labels of a level
/// with the levels that were made of it.
#[derive(Drop)]
pub struct Levels {
    kept: KeptLevels,
}

#[derive(Drop)]
enum KeptLevels {
    Single(SingleLevel),
    Coded(Vec<Level>),
}

impl Model for Levels {
    ghost use Rattle.std.specs.Prelude.{List};
    ghost use Rattle.multi_index.specs.Levels.{LevelValue};

    ghost Value = { List LevelValue };

    ghost use Rattle.multi_index.specs.Kept.{kept_levels, AreKept};
    ghost use Rattle.multi_index.specs.Levels.{AreLevels};

    ghost view = { λ l. kept_levels l.kept };

    ghost invariant = { λ l. AreLevels (kept_levels l.kept) × AreKept l.kept };
}

impl Levels {
    /// One level of the whole numbers from 0 to n - 1. `NoMemory` is the only refusal.
    pub fn range(alloc: Global, n: usize) -> Result<Levels, NoMemory>
        requires { n ≤ 2 ^ 63 }
        ensures { IfOk result (λ levels. levels ≡ range_level n ∷ []) }
    {
        let level = SingleLevel::range(alloc, n)?;
        Ok(Levels {
            kept: KeptLevels::Single(level),
        })
    }

    /// One level of these labels by row, whose own labels are the different ones that are present, in the order in
    /// which they are seen first. No list of them is made: [`Levels::level_size`], [`Levels::level_label`] and
    /// [`Levels::code`] walk over the labels. `NoMemory` is the only refusal.
    pub fn from_labels(alloc: Global, labels: Vec<Label>) -> Result<Levels, NoMemory>
        ensures { IfOk result (λ levels. levels ≡ seen_level labels.items ∷ []) }
    {
        let level = SingleLevel::seen(alloc, labels)?;
        Ok(Levels {
            kept: KeptLevels::Single(level),
        })
    }

    /// The levels of these tuples, each of `count` labels. The labels of each level are the different ones of the
    /// tuples that are present, in order. `NoMemory` is the only refusal.
    pub fn from_tuples(
        alloc: Global,
        dict: &TextDict,
        tuples: &Tuples,
        count: usize,
    ) -> Result<Levels, NoMemory>
        requires some { 1 ≤ count }
        requires few { count ≤ 4 }
        requires alike { HaveLevels count tuples.now }
        ensures { IfOk result (λ levels. levels ≡ new_levels dict.now tuples.now count) }
    {
        if count == 1 {
            let level = SingleLevel::of(alloc, dict, labels_on(alloc, tuples, 0)?)?;
            return Ok(Levels {
                kept: KeptLevels::Single(level),
            });
        }
        let mut levels = Vec::with_capacity(alloc, count)?;
        for level in 0..count {
            levels.push(Level::of(alloc, dict, &labels_on(alloc, tuples, level)?)?)?;
        }
        Ok(Levels {
            kept: KeptLevels::Coded(levels),
        })
    }

    /// Levels of their own with the same labels and rows. `NoMemory` is the only refusal.
    pub fn copy(&self, alloc: Global) -> Result<Levels, NoMemory>
        ensures { IfOk result (λ levels. levels ≡ self.now) }
    {
        let kept = match &self.kept {
            KeptLevels::Single(level) => KeptLevels::Single(level.copy()?),
            KeptLevels::Coded(levels) => KeptLevels::Coded(copies(alloc, levels)?),
        };
        Ok(Levels { kept })
    }

    /// How many levels there are: one to four. Takes no memory.
    pub fn count(&self) -> usize
        ensures count { result ≡ length self.now }
        ensures whole { AreLevels self.now }
    {
        match &self.kept {
            KeptLevels::Single(_) => 1,
            KeptLevels::Coded(levels) => levels.len(),
        }
    }

    /// How many rows there are. Takes no memory.
    pub fn len(&self) -> usize
        ensures rows { result ≡ row_count self.now }
        ensures tuples { result ≡ length (level_tuples self.now) }
    {
        match &self.kept {
            KeptLevels::Single(level) => level.rows().len(),
            KeptLevels::Coded(levels) => levels[0].len(),
        }
    }

    /// The label of a row on a level, both counted from 0. Takes no memory.
    pub fn label(&self, row: usize, level: usize) -> Label
        requires row { row < row_count self.now }
        requires level { level < length self.now }
        ensures { slice_get (row_tuple self.now row) level ≡ Some result }
    {
        match &self.kept {
            KeptLevels::Single(one) => one.rows().label(row),
            KeptLevels::Coded(levels) => levels[level].label(row),
        }
    }

    // The labels of a level, by code.
    fn labels(&self, level: usize) -> &LevelLabels
        requires { level < length self.now }
        ensures { result.now ≡ (slice_index_or self.now level no_level).labels }
    {
        match &self.kept {
            KeptLevels::Single(one) => one.labels(),
            KeptLevels::Coded(levels) => levels[level].labels(),
        }
    }

    /// How many labels a level has, those that no row has among them. They differ, and none is missing. Takes no memory.
    pub fn level_size(&self, level: usize) -> usize
        requires { level < length self.now }
        ensures size { result ≡ length (slice_index_or self.now level no_level).labels }
        ensures known { AreLevelLabels (slice_index_or self.now level no_level).labels }
    {
        self.labels(level).len()
    }

    /// The label of a code on a level. Takes no memory.
    pub fn level_label(&self, level: usize, code: usize) -> Label
        requires level { level < length self.now }
        requires code { code < length (slice_index_or self.now level no_level).labels }
        ensures { slice_get (slice_index_or self.now level no_level).labels code ≡ Some result }
    {
        self.labels(level).label(code)
    }

    /// The code of a row's label on a level: its place among the labels of the level; none exactly where the label is
    /// missing. Takes no memory.
    pub fn code(&self, row: usize, level: usize) -> Option<usize>
        requires row { row < row_count self.now }
        requires level { level < length self.now }
        ensures { let at = slice_index_or self.now level no_level in
            IsCodeOf at.labels (slice_index_or at.rows row Na) result }
    {
        match &self.kept {
            KeptLevels::Single(one) => one.code(row),
            KeptLevels::Coded(levels) => levels[level].code(row),
        }
    }

    // The labels of one level.
    pub(crate) fn index(&self) -> Option<&Index>
        ensures { MatchOption result (2 ≤ length self.now)
            (λ index. (length self.now ≡ 1) × (single_tuples index.now ≡ level_tuples self.now)) }
    {
        match &self.kept {
            KeptLevels::Single(level) => Some(level.rows()),
            KeptLevels::Coded(_) => None,
        }
    }

    /// The rows at these places, in their order. Each level keeps its labels, those that no row has as well.
    /// `NoMemory` is the only refusal.
    pub fn take(&self, alloc: Global, places: &Places) -> Result<Levels, NoMemory>
        requires { All (λ place. place < row_count self.now) places.now }
        ensures { IfOk result (λ levels. levels ≡ map (taken_level places.now) self.now) }
    {
        match &self.kept {
            KeptLevels::Single(level) => {
                let one = level.take(alloc, places)?;
                Ok(Levels {
                    kept: KeptLevels::Single(one),
                })
            }
            KeptLevels::Coded(levels) => {
                let made = taken(alloc, levels, places)?;
                Ok(Levels {
                    kept: KeptLevels::Coded(made),
                })
            }
        }
    }

    // A level by labels.
    fn single(&self, alloc: Global, level: usize) -> Result<SingleLevel, NoMemory>
        requires { level < length self.now }
        ensures { IfOk result (λ single. single ≡ slice_index_or self.now level no_level) }
    {
        match &self.kept {
            KeptLevels::Single(one) => one.copy(),
            KeptLevels::Coded(levels) => SingleLevel::decoded(alloc, &levels[level]),
        }
    }

    // A level in codes.
    fn coded(&self, alloc: Global, level: usize) -> Result<Level, NoMemory>
        requires { level < length self.now }
        ensures { IfOk result (λ coded. coded ≡ slice_index_or self.now level no_level) }
    {
        match &self.kept {
            KeptLevels::Single(one) => one.coded(alloc),
            KeptLevels::Coded(levels) => levels[level].copy(alloc),
        }
    }

    /// The same rows on these of the levels, in their order, each with all its labels. `NoMemory` is the only refusal.
    pub fn at(&self, alloc: Global, order: &[usize]) -> Result<Levels, NoMemory>
        requires some { 1 ≤ length order.now }
        requires few { length order.now ≤ 4 }
        requires inside { All (λ level. level < length self.now) order.now }
        ensures { IfOk result (λ levels. levels ≡ levels_at self.now order.now) }
    {
        if order.len() == 1 {
            let level = self.single(alloc, order[0])?;
            return Ok(Levels {
                kept: KeptLevels::Single(level),
            });
        }
        let _ = &self.kept;
        let mut levels = Vec::with_capacity(alloc, order.len())?;
        for level in order {
            levels.push(self.coded(alloc, *level)?)?;
        }
        Ok(Levels {
            kept: KeptLevels::Coded(levels),
        })
    }

    /// The same rows with one more level, which has these labels by row: first where `outer` is true, else last. The old
    /// levels keep their labels, and the new one has the different ones that are present, in order. `NoMemory` is the
    /// only refusal.
    pub fn with_level(
        &self,
        alloc: Global,
        dict: &TextDict,
        labels: &[Label],
        outer: bool,
    ) -> Result<Levels, NoMemory>
        requires rows { length labels.now ≡ row_count self.now }
        requires few { length self.now < 4 }
        ensures { IfOk result (λ levels. levels
            ≡ with_one outer (new_level dict.now labels.now) self.now) }
    {
        let new = Level::of(alloc, dict, labels)?;
        let mut levels = Vec::with_capacity(alloc, self.count() + 1)?;
        for level in 0..self.count() {
            levels.push(self.coded(alloc, level)?)?;
        }
        let place = if outer { 0 } else { levels.len() };
        levels.insert(place, new)?;
        Ok(Levels {
            kept: KeptLevels::Coded(levels),
        })
    }
}

// The labels of tuples on a level.
fn labels_on(alloc: Global, tuples: &Tuples, level: usize) -> Result<Vec<Label>, NoMemory>
    requires { All (λ tuple. level < length tuple) tuples.now }
    ensures { IfOk result (λ labels. labels.items ≡ labels_on level tuples.now) }
{
    let mut labels = Vec::with_capacity(alloc, tuples.len())?;
    for tuple in tuples.as_slice() {
        labels.push(tuple.at(level))?;
    }
    Ok(labels)
}

// Levels of their own with the same labels and rows.
fn copies(alloc: Global, levels: &[Level]) -> Result<Vec<Level>, NoMemory>
    ensures { IfOk result (λ copies. copies.items ≡ levels.now) }
{
    let mut made = Vec::with_capacity(alloc, levels.len())?;
    for level in levels {
        made.push(level.copy(alloc)?)?;
    }
    Ok(made)
}

// The rows at these places on each level.
fn taken(alloc: Global, levels: &[Level], places: &Places) -> Result<Vec<Level>, NoMemory>
    requires { All (λ level. All (λ place. place < length level.rows) places.now) levels.now }
    ensures { IfOk result (λ taken. taken.items ≡ map (taken_level places.now) levels.now) }
{
    let mut made = Vec::with_capacity(alloc, levels.len())?;
    for level in levels {
        made.push(level.take(alloc, places)?)?;
    }
    Ok(made)
}
