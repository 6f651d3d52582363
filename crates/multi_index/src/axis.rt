// Tuples of labels by row, and the names of their levels.
ghost use Rattle.std.specs.Prelude.{◌≡◌, ◌^◌, ◌<◌, ◌≤◌, ◌∷◌, [], length, slice_get, Some, IfOk, IfSome, All};
ghost use Rattle.std.specs.Bool.{Decides};
ghost use Rattle.std.specs.Option.{option_copied, option_map};
ghost use Rattle.cell_core.specs.Grids.{AreRowsBelow};
ghost use Rattle.index_core.specs.pick.Labels.{rows_of_key};
ghost use Rattle.index_core.specs.pick.Leading.{leads, leading_cmp};
ghost use Rattle.index_core.specs.pick.Rows.{rows_of};
ghost use Rattle.index_core.specs.pick.Slices.{label_slice};
ghost use Rattle.index_core.specs.Labels.{same_number, order_in};
ghost use Rattle.multi_index.specs.Axes.{HaveLevels, AreLeading, nameless_axis, range_axis, single_tuples, tuples_at, label_at, with_name, taken_axis, at_levels, without_level, without_leading, with_swapped, with_level};
ghost use Rattle.multi_index.specs.Levels.{AreLevels, level_tuples};
ghost use Rattle.multi_index.specs.Picks.{AddsLevel, PicksBy, TellsBy, as_it_is, axis_fault, leading_rows, leading_slice};

use crate::fault::AxisFault;
use crate::levels::Levels;
use crate::listed;
use crate::names::{all_levels, names_of, names_with};
use cell_core::{Label, NoMemory, Places, Rows, TextDict, Tuple, Tuples};
use index_core::{Index, IndexFault, LabelRows};
use std::alloc::Global;
use std::marker::Model;

/// A tuple of labels for each row, and a name or none for each level. Tuples may repeat. It keeps the
/// allocator that it was made with.
#[derive(Drop)]
pub struct Axis {
    alloc: Global,
    levels: Levels,
    names: [Option<Label>; 4],
}

impl Model for Axis {
    ghost use Rattle.multi_index.specs.Axes.{AxisValue};

    ghost Value = { AxisValue };

    ghost use Rattle.multi_index.specs.Views.{kept_axis, IsAxis};

    ghost view = { kept_axis };

    ghost invariant = { IsAxis };
}

impl Axis {
    /// One level of the whole numbers from 0 to n - 1, without a name. `NoMemory` is the only refusal.
    pub fn range(alloc: Global, n: usize) -> Result<Axis, NoMemory>
        requires { n ≤ 2 ^ 63 }
        ensures { IfOk result (λ axis. axis ≡ range_axis n) }
    {
        let levels = Levels::range(alloc, n)?;
        Ok(nameless(alloc, levels))
    }

    /// These tuples in order, each of `levels` labels, without names. `NoMemory` is the only refusal.
    pub fn from_tuples(
        alloc: Global,
        dict: &TextDict,
        tuples: &Tuples,
        levels: usize,
    ) -> Result<Axis, NoMemory>
        requires some { 1 ≤ levels }
        requires few { levels ≤ 4 }
        requires alike { HaveLevels levels tuples.now }
        ensures { IfOk result (λ axis. axis ≡ nameless_axis tuples.now levels) }
    {
        let kept = Levels::from_tuples(alloc, dict, tuples, levels)?;
        Ok(nameless(alloc, kept))
    }

    /// One level of these labels in order, without a name. `NoMemory` is the only refusal.
    pub fn from_labels(alloc: Global, dict: &TextDict, labels: Vec<Label>) -> Result<Axis, NoMemory>
        ensures { IfOk result (λ axis. axis ≡ nameless_axis (single_tuples labels.items) 1) }
    {
        let levels = Levels::from_labels(alloc, labels)?;
        Ok(nameless(alloc, levels))
    }

    /// An axis of its own with the same tuples and names. `NoMemory` is the only refusal.
    pub fn copy(&self, alloc: Global) -> Result<Axis, NoMemory>
        ensures { IfOk result (λ axis. axis ≡ self.now) }
    {
        let levels = self.levels.copy(alloc)?;
        let names = self.names;
        Ok(Axis {
            alloc,
            levels,
            names,
        })
    }

    /// How many rows there are. Takes no memory.
    pub fn len(&self) -> usize
        ensures { result ≡ length self.now.tuples }
    {
        self.levels.len()
    }

    /// How many levels there are: one to four, and each tuple has a label for each. Takes no memory.
    pub fn levels(&self) -> usize
        ensures count { result ≡ length self.now.names }
        ensures some { 1 ≤ result }
        ensures few { result ≤ 4 }
        ensures alike { HaveLevels result self.now.tuples }
    {
        self.levels.count()
    }

    /// The label of a row at a level, both counted from 0. Takes no memory.
    pub fn label(&self, row: usize, level: usize) -> Label
        requires row { row < length self.now.tuples }
        requires level { level < length self.now.names }
        ensures { label_at self.now row level ≡ Some result }
    {
        self.levels.label(row, level)
    }

    /// The levels: the labels of each, and the codes of each row's labels. Takes no memory.
    pub fn by_level(&self) -> &Levels
        ensures tuples { level_tuples result.now ≡ self.now.tuples }
        ensures count { length result.now ≡ length self.now.names }
    {
        &self.levels
    }

    /// The name of a level, if it has one. Takes no memory.
    pub fn name(&self, level: usize) -> Option<Label>
        requires { level < length self.now.names }
        ensures { slice_get self.now.names level ≡ Some result }
    {
        let names = &self.names;
        names[level]
    }

    /// Whether the other axis has the same tuples at the same rows, whatever the names of the levels
    /// are. Texts are compared by their numbers, and two ranges by their lengths alone. Takes no memory.
    pub fn same_labels(&self, other: &Axis) -> bool
        ensures { Decides result (self.now.tuples ≡ other.now.tuples) }
    {
        match (self.levels.index(), other.levels.index()) {
            (Some(a), Some(b)) => a.same_labels(b),
            _ => self.same_rows(other),
        }
    }

    // Whether the other axis has the same tuples, row by row. Without rows, axes of different levels have them as well.
    fn same_rows(&self, other: &Axis) -> bool
        ensures { Decides result (self.now.tuples ≡ other.now.tuples) }
    {
        if self.len() != other.len() {
            return false;
        }
        if self.levels() != other.levels() {
            return self.len() == 0;
        }
        for row in 0..self.len() {
            if !self.same_row(other, row) {
                return false;
            }
        }
        true
    }

    // Whether the tuples of a row are the same.
    fn same_row(&self, other: &Axis, row: usize) -> bool
        requires row { row < length self.now.tuples }
        requires other { row < length other.now.tuples }
        requires levels { length self.now.names ≡ length other.now.names }
        requires alike { HaveLevels (length self.now.names) other.now.tuples }
        ensures { Decides result (slice_get self.now.tuples row ≡ slice_get other.now.tuples row) }
    {
        for level in 0..self.levels() {
            if self.label(row, level) != other.label(row, level) {
                return false;
            }
        }
        true
    }

    /// Gives a level another name, or none. Takes no memory.
    pub fn set_name(&mut self, level: usize, name: Option<Label>)
        requires { level < length self.old.names }
        ensures { self.new ≡ with_name self.old level name }
    {
        let names = &mut self.names;
        names[level] = name;
    }

    /// The rows at these places, in their order, on the same levels with the same names.
    /// `NoMemory` is the only refusal.
    pub fn take(&self, alloc: Global, places: &Places) -> Result<Axis, NoMemory>
        requires { All (λ place. place < length self.now.tuples) places.now }
        ensures { IfOk result (λ axis. axis ≡ taken_axis self.now places.now) }
    {
        let levels = self.levels.take(alloc, places)?;
        Ok(Axis {
            alloc,
            levels,
            names: self.names,
        })
    }

    /// The rows of each label on one level, for those who ask for many. Texts are compared by their numbers.
    /// `NoMemory` is the only refusal.
    pub fn rows_by_label(&self, alloc: Global) -> Result<LabelRows<'_>, NoMemory>
        requires { length self.now.names ≡ 1 }
        ensures { IfOk result (λ rows. single_tuples rows ≡ self.now.tuples) }
    {
        match self.levels.index() {
            Some(labels) => labels.rows_by_label(alloc),
            None => unreachable!(),
        }
    }

    // The axis of these of its levels, in their order.
    fn of_levels(&self, alloc: Global, order: &[usize]) -> Result<Axis, NoMemory>
        requires some { 1 ≤ length order.now }
        requires few { length order.now ≤ 4 }
        requires inside { All (λ level. level < length self.now.names) order.now }
        ensures { IfOk result (λ axis. axis ≡ at_levels self.now order.now) }
    {
        let levels = self.levels.at(alloc, order)?;
        Ok(Axis {
            alloc,
            levels,
            names: names_of(self, order),
        })
    }

    /// The same rows without a level, which leaves with its name. `NoMemory` is the only refusal.
    #[tactic(auto, using(crate::proofs::Hints::drop_level))]
    pub fn drop_level(&self, alloc: Global, level: usize) -> Result<Axis, NoMemory>
        requires level { level < length self.now.names }
        requires stays { 2 ≤ length self.now.names }
        ensures { IfOk result (λ axis. axis ≡ without_level self.now level) }
    {
        let mut order = all_levels(alloc, self.levels())?;
        order.remove(level);
        self.of_levels(alloc, &order)
    }

    /// The same rows without so many leading levels, which leave with their names; one level or more stays.
    /// `NoMemory` is the only refusal.
    #[tactic(auto, using(crate::proofs::Hints::drop_levels))]
    pub fn drop_levels(&self, alloc: Global, count: usize) -> Result<Axis, NoMemory>
        requires { count < length self.now.names }
        ensures { IfOk result (λ axis. axis ≡ without_leading self.now count) }
    {
        let order = all_levels(alloc, self.levels())?;
        let levels: &[usize] = &order;
        let (_, rest) = levels.split_at(count);
        self.of_levels(alloc, rest)
    }

    /// The same rows with two levels exchanged, which may be one and the same; each keeps its name.
    /// `NoMemory` is the only refusal.
    #[tactic(auto, using(crate::proofs::Hints::swap_levels))]
    pub fn swap_levels(&self, alloc: Global, i: usize, j: usize) -> Result<Axis, NoMemory>
        requires first { i < length self.now.names }
        requires second { j < length self.now.names }
        ensures { IfOk result (λ axis. axis ≡ with_swapped self.now i j) }
    {
        let mut order = all_levels(alloc, self.levels())?;
        order.swap(i, j);
        self.of_levels(alloc, &order)
    }

    /// The same rows with one more level, which has these labels and no name: first where `outer` is true, else last.
    ///
    /// # Errors
    ///
    /// `TooManyLevels` exactly where there are four levels. `NoMemory` may come in place of any answer.
    pub fn add_level(
        &self,
        alloc: Global,
        dict: &TextDict,
        labels: &[Label],
        outer: bool,
    ) -> Result<Axis, AxisFault>
        requires { length labels.now ≡ length self.now.tuples }
        ensures { AddsLevel (length self.now.names) (with_level self.now labels.now outer) result }
    {
        if self.levels() == 4 {
            return Err(AxisFault::TooManyLevels);
        }
        let levels = self.levels.with_level(alloc, dict, labels, outer)?;
        Ok(Axis {
            alloc,
            levels,
            names: names_with(self, outer),
        })
    }

    /// The rows whose leading labels are these, in order ("Selection by label" in the pandas user guide): one label
    /// at least, and at most one for each level. Texts are compared by their numbers. The rows are read once.
    ///
    /// # Errors
    ///
    /// `NotThere` exactly where there is no such row. `NoMemory` may come in place of any answer.
    pub fn places(&self, alloc: Global, leading: &Tuple) -> Result<Places, AxisFault>
        requires { AreLeading (length self.now.names) leading.now }
        ensures { PicksBy as_it_is result (leading_rows self.now leading.now) }
    {
        match self.levels.index() {
            Some(labels) => single_places(alloc, labels, leading),
            None => listed::places_of(alloc, &self.levels, leading),
        }
    }

    /// The rows of a slice by leading labels, both ends included, as a run of rows ("Slicing with labels" and
    /// "Advanced indexing with hierarchical index" in the pandas user guide). Each bound has one label at least, and
    /// at most one for each level; one that isn't given is an end. On one level they are those of
    /// [`Index::slice_places`]. On several the rows must be in order, and the slice goes from the first one not below
    /// `from` to the last one not above `to`. Takes no memory.
    ///
    /// # Errors
    ///
    /// Where the rows aren't in order: on one level `NotThere` of a bound that stands nowhere, and `BoundNotUnique` of
    /// one that stands more than once, of `from` first; on several levels `NotThere` of the first bound that is given.
    /// `NoMemory` never comes.
    pub fn slice_places(
        &self,
        dict: &TextDict,
        from: Option<&Tuple>,
        to: Option<&Tuple>,
    ) -> Result<Rows, AxisFault>
        requires from { IfSome from (λ bound. AreLeading (length self.now.names) bound.now) }
        requires to { IfSome to (λ bound. AreLeading (length self.now.names) bound.now) }
        ensures rows { TellsBy rows_of result (leading_slice dict.now self.now (option_copied from.entry) (option_copied to.entry)) }
        ensures below { IfOk result (λ rows. AreRowsBelow rows (length self.now.tuples)) }
    {
        match self.levels.index() {
            Some(labels) => single_slice(self.alloc, dict, labels, from, to),
            None => listed::slice_of(dict, &self.levels, from, to),
        }
    }
}

// An axis of these levels, without names.
fn nameless(alloc: Global, levels: Levels) -> Axis
    requires { AreLevels levels }
    ensures { result ≡ nameless_axis (level_tuples levels) (length levels) }
{
    Axis {
        alloc,
        levels,
        names: [None; 4],
    }
}

// The rows of a label on one level.
fn single_places(alloc: Global, labels: &Index, key: &Tuple) -> Result<Places, AxisFault>
    requires { length key.now ≡ 1 }
    ensures { PicksBy as_it_is result
        (rows_of_key (leads same_number) (single_tuples labels.now) key.now) }
{
    match labels.places(alloc, key.at(0)) {
        Ok(places) => Ok(places),
        Err(fault) => Err(axis_fault(alloc, fault)),
    }
}

// The rows of a slice on one level.
fn single_slice(
    alloc: Global,
    dict: &TextDict,
    labels: &Index,
    from: Option<&Tuple>,
    to: Option<&Tuple>,
) -> Result<Rows, AxisFault>
    requires from { IfSome from (λ bound. length bound.now ≡ 1) }
    requires to { IfSome to (λ bound. length bound.now ≡ 1) }
    ensures rows { TellsBy rows_of result (label_slice (leading_cmp (order_in dict.now))
        (option_copied from.entry) (option_copied to.entry) (single_tuples labels.now)) }
    ensures below { IfOk result (λ rows. AreRowsBelow rows (length (single_tuples labels.now))) }
{
    match labels.slice_places(dict, only_label(from), only_label(to)) {
        Ok(rows) => Ok(rows),
        Err(fault) => Err(axis_fault(alloc, fault)),
    }
}

// The fault with its label as a tuple.
fn axis_fault(alloc: Global, fault: IndexFault) -> AxisFault
    ensures { result ≡ axis_fault fault }
{
    match fault {
        IndexFault::NotThere(label) => AxisFault::NotThere(Tuple::of(alloc, &[label])),
        IndexFault::BoundNotUnique(label) => AxisFault::BoundNotUnique(Tuple::of(alloc, &[label])),
        IndexFault::NoMemory => AxisFault::NoMemory,
    }
}

// The label of a bound on one level.
fn only_label(bound: Option<&Tuple>) -> Option<Label>
    requires { IfSome bound (λ tuple. length tuple.now ≡ 1) }
    ensures { option_map (λ label. label ∷ []) result ≡ option_copied bound.entry }
{
    match bound {
        Some(tuple) => Some(tuple.at(0)),
        None => None,
    }
}
