// Axes one below the other.
ghost use Rattle.std.specs.Prelude.{◌≡◌, ◌+◌, ◌<◌, ◌≤◌, ◌++◌, true, length, map, replicate, IfOk, OnOk};
ghost use Rattle.multi_index.specs.Axes.{HaveLevels, nameless_axis, with_level};
ghost use Rattle.row_keys.specs.Keys.{label_in};
ghost use Rattle.merge_concat.specs.Axes.{tuples_of_each, tuples_in, levels_of_first, HaveLevelsOfFirst, tuples_below, levels_below, AreKeysOf, keys_below};

use cell_core::{Label, NoMemory, TextDict};
use multi_index::Axis;
use row_keys::LevelRows;
use std::alloc::Global;

// How many levels the axes have.
#[tactic(auto, using(std::proofs::lemmas::List::take_all))]
fn levels_of(axes: &[&Axis]) -> usize
    requires some { 1 ≤ length axes.now }
    requires alike { HaveLevelsOfFirst axes.now }
    ensures count { result ≡ levels_of_first axes.now }
    ensures some { 1 ≤ result }
    ensures few { result ≤ 4 }
    ensures alike { HaveLevels result (tuples_in axes.now) }
{
    let mut levels = 1;
    for axis in axes {
        levels = axis.levels();
    }
    levels
}

// The labels of a level, axis by axis.
fn labels_at(alloc: Global, axes: &[&Axis], level: usize) -> Result<Vec<Label>, NoMemory>
    ensures { IfOk result (λ labels. labels.items
        ≡ map (label_in level) (tuples_in axes.now)) }
{
    let mut labels = Vec::new(alloc);
    for axis in axes {
        axis.push_level(level, &mut labels)?;
    }
    Ok(labels)
}

// Appends a label so many times.
fn push_times(labels: &mut Vec<Label>, label: Label, times: usize) -> Result<(), NoMemory>
    ensures { OnOk result (labels.new.items ≡ labels.old.items ++ replicate times label) }
{
    for _ in 0..times {
        labels.push(label)?;
    }
    Ok(())
}

// The key of its axis for each row, axis by axis.
fn keys_by_row(alloc: Global, keys: &[Label], axes: &[&Axis]) -> Result<Vec<Label>, NoMemory>
    requires { length keys.now ≡ length axes.now }
    ensures { IfOk result (λ labels. labels.items ≡ keys_below keys.now (tuples_of_each axes.now)) }
{
    let mut labels = Vec::new(alloc);
    for place in 0..axes.len() {
        push_times(&mut labels, keys[place], axes[place].len())?;
    }
    Ok(labels)
}

// One more level of these labels, in front of the others, of which there are three at most.
fn behind(alloc: Global, dict: &TextDict, labels: &[Label], axis: &Axis) -> Result<Axis, NoMemory>
    requires rows { length labels.now ≡ length axis.now.tuples }
    requires few { length axis.now.names < 4 }
    ensures { IfOk result (λ made. made ≡ with_level axis.now labels.now true) }
{
    match axis.add_level(alloc, dict, labels, true) {
        Ok(made) => Ok(made),
        Err(_) => Err(NoMemory),
    }
}

// The labels of all axes, level by level from the last one on.
#[tactic(auto, using(crate::proofs::Hints::all_levels))]
pub(crate) fn all_levels(alloc: Global, dict: &TextDict, axes: &[&Axis]) -> Result<Axis, NoMemory>
    requires some { 1 ≤ length axes.now }
    requires alike { HaveLevelsOfFirst axes.now }
    ensures { IfOk result (λ axis. axis
        ≡ nameless_axis (tuples_in axes.now) (levels_of_first axes.now)) }
{
    let mut level = levels_of(axes) - 1;
    let mut axis = Axis::from_labels(alloc, dict, labels_at(alloc, axes, level)?)?;
    while level > 0 {
        level -= 1;
        let labels = labels_at(alloc, axes, level)?;
        axis = behind(alloc, dict, &labels, &axis)?;
    }
    Ok(axis)
}

/// The labels of axes, one axis after the other, on levels without names ("Concatenating objects" in "Merge, join,
/// concatenate and compare" of the pandas user guide): one axis at least, all with the same number of levels. With keys,
/// one for each axis, the rows of an axis have its key in one level more, which is the first: there are three others at
/// most then. `NoMemory` is the only refusal.
#[tactic(auto, using(crate::proofs::Hints::axis_below))]
pub fn axis_below(
    alloc: Global,
    dict: &TextDict,
    axes: &[&Axis],
    keys: Option<&[Label]>,
) -> Result<Axis, NoMemory>
    requires some { 1 ≤ length axes.now }
    requires alike { HaveLevelsOfFirst axes.now }
    requires keys { AreKeysOf keys (length axes.now) (levels_of_first axes.now) }
    ensures { IfOk result (λ axis. axis
        ≡ nameless_axis (tuples_below keys.entry (tuples_of_each axes.now))
        (levels_below keys.entry (levels_of_first axes.now))) }
{
    let axis = all_levels(alloc, dict, axes)?;
    let Some(keys) = keys else {
        return Ok(axis);
    };
    let labels = keys_by_row(alloc, keys, axes)?;
    behind(alloc, dict, &labels, &axis)
}
