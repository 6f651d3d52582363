// Axes side by side.
ghost use Rattle.std.specs.Prelude.{◌≡◌, ◌≤◌, ◌++◌, [], false, length, filter, IfOk, All};
ghost use Rattle.std.specs.List.{list_any, list_all, flat_map};
ghost use Rattle.meaning_join.specs.align.Targets.{first_repeated};
ghost use Rattle.meaning_join.specs.Concat.{are_equal, first_axis, repeated_on_any, united, labels_within_limit, labels_concatenated};
ghost use Rattle.column_core.specs.cells.Reduce.{distinct};
ghost use Rattle.multi_index.specs.Axes.{HaveLevels};
ghost use Rattle.row_keys.specs.Keys.{same_tuple};
ghost use Rattle.merge_concat.specs.Concats.{ConcatsBy, as_it_is};
ghost use Rattle.merge_concat.specs.Axes.{HaveLevelsOfFirst, tuples_of_each};

use crate::axes::all_levels;
use crate::fault::MergeFault;
use crate::repeats::first_repeated_row;
use cell_core::{NoMemory, TextDict, Tuple, Tuples};
use multi_index::Axis;
use row_keys::{LevelRows, find_partners, numbered, tuples_at};
use std::alloc::Global;

// As many labels as an axis may have.
const MOST_LABELS: usize = 1 << 26;

/// Whether all axes have the tuples of the first, row by row. Texts are told apart by their numbers. Takes no memory.
pub fn have_same_labels(axes: &[&Axis]) -> bool
    ensures { result ≡ are_equal same_tuple (tuples_of_each axes.now) }
{
    let [first, others @ ..] = axes else {
        return true;
    };
    for other in others {
        if !first.same_labels(other) {
            return false;
        }
    }
    true
}

// The first tuple that stands on more than one row, if there is one.
#[tactic(auto, using(crate::proofs::Hints::repeated_on))]
fn repeated_on(alloc: Global, axis: &Axis) -> Result<Option<Tuple>, NoMemory>
    ensures { IfOk result (λ repeated. repeated ≡ first_repeated same_tuple axis.now.tuples) }
{
    let none = Tuples::new(alloc);
    let numbers = numbered(alloc, axis, &none, axis.levels())?;
    match first_repeated_row(alloc, numbers.firsts.len(), &numbers.codes)? {
        Some(row) => Ok(Some(axis.tuple(alloc, row))),
        None => Ok(None),
    }
}

// Of the first axis on which a tuple stands on more than one row, the first such tuple.
#[tactic(auto, using(crate::proofs::Hints::first_repeat))]
fn first_repeat(alloc: Global, axes: &[&Axis]) -> Result<Option<Tuple>, NoMemory>
    ensures { IfOk result (λ repeated. repeated
        ≡ repeated_on_any same_tuple (tuples_of_each axes.now)) }
{
    for axis in axes {
        if let Some(repeated) = repeated_on(alloc, axis)? {
            return Ok(Some(repeated));
        }
    }
    Ok(None)
}

// The tuples of an axis.
fn tuples_of(alloc: Global, axis: &Axis) -> Result<Tuples, NoMemory>
    ensures { IfOk result (λ tuples. tuples ≡ axis.now.tuples) }
{
    let mut tuples = Tuples::new(alloc);
    for row in 0..axis.len() {
        tuples.push(axis.tuple(alloc, row))?;
    }
    Ok(tuples)
}

// Each of these tuples, if it stands on the axis: both have so many levels.
fn those_on(alloc: Global, tuples: &Tuples, axis: &Axis, levels: usize) -> Result<Tuples, NoMemory>
    requires tuples { HaveLevels levels tuples.now }
    requires axis { length axis.now.names ≡ levels }
    ensures { IfOk result (λ kept. kept
        ≡ filter (λ tuple. list_any (same_tuple tuple) axis.now.tuples) tuples.now) }
{
    let partners = find_partners(alloc, tuples, axis, axis.levels())?;
    let mut kept = Tuples::new(alloc);
    for row in 0..tuples.len() {
        if !partners.rows(row).is_empty() {
            kept.push(tuples.at(row).copy())?;
        }
    }
    Ok(kept)
}

// The tuples of the first axis that stand on all the others.
fn those_on_all(alloc: Global, first: &Axis, others: &[&Axis]) -> Result<Tuples, NoMemory>
    requires { All (λ axis. length axis.now.names ≡ length first.now.names) others.now }
    ensures { IfOk result (λ kept. kept
        ≡ filter (λ tuple. list_all (list_any (same_tuple tuple)) (tuples_of_each others.now))
        first.now.tuples) }
{
    let levels = first.levels();
    let mut kept = tuples_of(alloc, first)?;
    for other in others {
        kept = those_on(alloc, &kept, other, levels)?;
    }
    Ok(kept)
}

// The different tuples of an axis, in the order of first sight.
#[tactic(auto, using(crate::proofs::Hints::different))]
fn different(alloc: Global, axis: &Axis) -> Result<Tuples, NoMemory>
    ensures { IfOk result (λ tuples. tuples ≡ distinct same_tuple axis.now.tuples) }
{
    let none = Tuples::new(alloc);
    let numbers = numbered(alloc, axis, &none, axis.levels())?;
    tuples_at(alloc, axis, &none, &numbers.firsts)
}

// The tuples that stand on any of the axes, or on all of them.
#[tactic(auto, using(crate::proofs::UnitedLaws::united_any))]
fn union_of(alloc: Global, dict: &TextDict, axes: &[&Axis], inner: bool) -> Result<Tuples, NoMemory>
    requires { HaveLevelsOfFirst axes.now }
    ensures { IfOk result (λ tuples. tuples
        ≡ united same_tuple inner (tuples_of_each axes.now)) }
{
    let [first, others @ ..] = axes else {
        return Ok(Tuples::new(alloc));
    };
    if inner {
        return those_on_all(alloc, first, others);
    }
    let all = all_levels(alloc, dict, axes)?;
    different(alloc, &all)
}

// The tuples of the first axis.
fn first_tuples(alloc: Global, axes: &[&Axis]) -> Result<Tuples, NoMemory>
    ensures { IfOk result (λ tuples. tuples ≡ first_axis (tuples_of_each axes.now)) }
{
    match axes {
        [first, ..] => tuples_of(alloc, first),
        [] => Ok(Tuples::new(alloc)),
    }
}

// The tuples, unless there are more than an axis may have.
fn within_limit(tuples: Tuples) -> Result<Tuples, MergeFault>
    ensures { ConcatsBy as_it_is result (labels_within_limit tuples) }
{
    if tuples.len() > MOST_LABELS {
        return Err(MergeFault::TooLarge);
    }
    Ok(tuples)
}

/// The labels of axes that are put side by side ("Concatenating objects" in "Merge, join, concatenate and compare" of the
/// pandas user guide). Where all have the tuples of the first these stay, even if tuples repeat. Else they are the tuples
/// that stand on any axis, each once in the order of first sight, or with `inner` those of the first that stand on all
/// axes; all axes have the same number of levels then. Texts are told apart by their numbers.
///
/// # Errors
///
/// Where not all axes have the tuples of the first, `DuplicateLabels` exactly where a tuple stands on more than one row
/// of an axis, with the first such tuple of the first such axis. Else `TooLarge` exactly where there are more than 2^26
/// labels. `NoMemory` may come in place of any answer, and no other fault comes.
pub fn concat_columns(
    alloc: Global,
    dict: &TextDict,
    axes: &[&Axis],
    inner: bool,
) -> Result<Tuples, MergeFault>
    requires { are_equal same_tuple (tuples_of_each axes.now) ≡ false → HaveLevelsOfFirst axes.now }
    ensures { ConcatsBy as_it_is result
        (labels_concatenated same_tuple inner (tuples_of_each axes.now)) }
{
    if have_same_labels(axes) {
        let tuples = first_tuples(alloc, axes)?;
        return within_limit(tuples);
    }
    if let Some(repeated) = first_repeat(alloc, axes)? {
        return Err(MergeFault::DuplicateLabels(repeated));
    }
    let tuples = union_of(alloc, dict, axes, inner)?;
    within_limit(tuples)
}
