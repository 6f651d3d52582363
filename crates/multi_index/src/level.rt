// One level in codes.
ghost use Rattle.std.specs.Prelude.{◌≡◌, ◌<◌, length, slice_get, slice_index_or, map, Some, None, IfOk, All};
ghost use Rattle.cell_core.specs.declared.cell.Label.TheVariants.{Na};
ghost use Rattle.multi_index.specs.Levels.{IsKnown, IsCodeOf, IsCodeBelow, label_of, new_level, taken_level};

use crate::labels::LevelLabels;
use cell_core::{Label, NoMemory, Places, TextDict};
use std::alloc::Global;
use std::marker::Model;
use std::rc::Rc;

// The labels of a level, and the code of each row's label: none where it is missing. Levels that are made of this one
// share its labels.
#[derive(Drop)]
pub(crate) struct Level {
    labels: Rc<LevelLabels>,
    codes: Vec<Option<u32>>,
}

impl Model for Level {
    ghost use Rattle.std.specs.Prelude.{length, map, All};
    ghost use Rattle.multi_index.specs.Levels.{LevelValue, label_of, IsCodeBelow};

    ghost Value = { LevelValue };

    ghost view = { λ l. record { labels = l.labels.value; rows = map (label_of l.labels.value) l.codes.items } };

    ghost invariant = { λ l. All (IsCodeBelow (length l.labels.value)) l.codes.items };
}

impl Level {
    // A new level of these labels by row.
    pub(crate) fn of(alloc: Global, dict: &TextDict, rows: &[Label]) -> Result<Level, NoMemory>
        ensures { IfOk result (λ level. level ≡ new_level dict.now rows.now) }
    {
        let labels = LevelLabels::of(alloc, dict, rows)?;
        let shared = Rc::new(alloc, labels)?;
        Level::coded(alloc, shared, rows)
    }

    // The level of these labels, with these by row.
    pub(crate) fn coded(
        alloc: Global,
        labels: Rc<LevelLabels>,
        rows: &[Label],
    ) -> Result<Level, NoMemory>
        requires { All (IsKnown labels.value) rows.now }
        ensures { IfOk result (λ level. level ≡ record { labels = labels.value; rows = rows.now }) }
    {
        let codes = codes_of(alloc, &labels, rows)?;
        Ok(Level { labels, codes })
    }

    // How many rows there are.
    pub(crate) fn len(&self) -> usize
        ensures { result ≡ length self.now.rows }
    {
        self.codes.len()
    }

    // The labels of the level, by code.
    pub(crate) fn labels(&self) -> &LevelLabels
        ensures { result.now ≡ self.now.labels }
    {
        &self.labels
    }

    // The same labels, shared with this level.
    pub(crate) fn shared(&self) -> Result<Rc<LevelLabels>, NoMemory>
        ensures { IfOk result (λ labels. labels.value ≡ self.now.labels) }
    {
        let labels = self.labels.clone()?;
        Ok(labels)
    }

    // The label of a row.
    pub(crate) fn label(&self, row: usize) -> Label
        requires { row < length self.now.rows }
        ensures { slice_get self.now.rows row ≡ Some result }
    {
        label_of(&self.labels, self.codes[row])
    }

    // The code of a row's label.
    pub(crate) fn code(&self, row: usize) -> Option<usize>
        requires { row < length self.now.rows }
        ensures { IsCodeOf self.now.labels (slice_index_or self.now.rows row Na) result }
    {
        match self.codes[row] {
            Some(code) => Some(code as usize),
            None => None,
        }
    }

    // The rows at these places, in their order.
    pub(crate) fn take(&self, alloc: Global, places: &Places) -> Result<Level, NoMemory>
        requires { All (λ place. place < length self.now.rows) places.now }
        ensures { IfOk result (λ level. level ≡ taken_level places.now self.now) }
    {
        let codes = codes_at(alloc, &self.codes, places.as_slice())?;
        let labels = self.labels.clone()?;
        Ok(Level { labels, codes })
    }

    // A level of its own with the same rows.
    pub(crate) fn copy(&self, alloc: Global) -> Result<Level, NoMemory>
        ensures { IfOk result (λ level. level ≡ self.now) }
    {
        let codes = self.codes.to_vec(alloc)?;
        let labels = self.labels.clone()?;
        Ok(Level { labels, codes })
    }

    // The label of each row.
    pub(crate) fn rows(&self, alloc: Global) -> Result<Vec<Label>, NoMemory>
        ensures rows { IfOk result (λ rows. rows.items ≡ self.now.rows) }
        ensures known { IfOk result (λ rows. All (IsKnown self.now.labels) rows.items) }
    {
        let rows = labels_of(alloc, &self.labels, &self.codes)?;
        Ok(rows)
    }
}

// The code of a label that is one of these, or missing. No axis has room for labels that 32 bits can't number.
fn code_of(labels: &LevelLabels, label: Label) -> Result<Option<u32>, NoMemory>
    requires { IsKnown labels.now label }
    ensures label { IfOk result (λ code. label_of labels.now code ≡ label) }
    ensures below { IfOk result (IsCodeBelow (length labels.now)) }
{
    let Some(code) = labels.code(label) else {
        return Ok(None);
    };
    match u32::try_from(code) {
        Ok(code) => Ok(Some(code)),
        Err(_) => Err(NoMemory),
    }
}

// The codes of labels that are among these, or missing.
fn codes_of(
    alloc: Global,
    labels: &LevelLabels,
    rows: &[Label],
) -> Result<Vec<Option<u32>>, NoMemory>
    requires { All (IsKnown labels.now) rows.now }
    ensures rows { IfOk result (λ codes. map (label_of labels.now) codes.items ≡ rows.now) }
    ensures below { IfOk result (λ codes. All (IsCodeBelow (length labels.now)) codes.items) }
{
    let mut codes = Vec::with_capacity(alloc, rows.len())?;
    for label in rows {
        codes.push(code_of(labels, *label)?)?;
    }
    Ok(codes)
}

// The codes at these places, in their order.
fn codes_at(
    alloc: Global,
    codes: &[Option<u32>],
    places: &[usize],
) -> Result<Vec<Option<u32>>, NoMemory>
    requires { All (λ place. place < length codes.now) places.now }
    ensures { IfOk result (λ taken. taken.items
        ≡ map (λ place. slice_index_or codes.now place None) places.now) }
{
    let mut taken = Vec::with_capacity(alloc, places.len())?;
    for place in places {
        taken.push(codes[*place])?;
    }
    Ok(taken)
}

// The label of a code.
fn label_of(labels: &LevelLabels, code: Option<u32>) -> Label
    requires { IsCodeBelow (length labels.now) code }
    ensures { result ≡ label_of labels.now code }
{
    match code {
        Some(code) => labels.label(code as usize),
        None => Label::Na,
    }
}

// The labels of codes.
fn labels_of(
    alloc: Global,
    labels: &LevelLabels,
    codes: &[Option<u32>],
) -> Result<Vec<Label>, NoMemory>
    requires { All (IsCodeBelow (length labels.now)) codes.now }
    ensures { IfOk result (λ rows. rows.items ≡ map (label_of labels.now) codes.now) }
{
    let mut rows = Vec::with_capacity(alloc, codes.len())?;
    for code in codes {
        rows.push(label_of(labels, *code))?;
    }
    Ok(rows)
}
