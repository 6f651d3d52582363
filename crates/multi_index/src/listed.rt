// The rows of leading labels and of slices on several levels.
ghost use Rattle.std.specs.Prelude.{◌≡◌, ◌<◌, true, not, length, IfOk};
ghost use Rattle.std.specs.Option.{option_copied};
ghost use Rattle.cell_core.specs.Grids.{AreRowsBelow};
ghost use Rattle.index_core.specs.pick.Labels.{rows_of_key};
ghost use Rattle.index_core.specs.pick.Leading.{leads, leading_cmp};
ghost use Rattle.index_core.specs.pick.Rows.{rows_of};
ghost use Rattle.index_core.specs.pick.Slices.{is_in_order, reaches, stays_within, leading_slice, unfound_slice};
ghost use Rattle.index_core.specs.Labels.{same_number, order_in};
ghost use Rattle.index_core.specs.Splits.{IsSplitAt};
ghost use Rattle.multi_index.specs.Levels.{level_tuples, row_count, row_tuple};
ghost use Rattle.multi_index.specs.Picks.{PicksBy, TellsBy, as_it_is};

use crate::fault::AxisFault;
use crate::levels::Levels;
use cell_core::{Places, Rows, TextDict, Tuple};
use index_core::run_of;
use std::alloc::Global;
use std::cmp::Ordering;

// Whether these are the leading labels of a row.
#[tactic(auto, using(crate::proofs::Hints::leads))]
fn leads(leading: &Tuple, levels: &Levels, row: usize) -> bool
    requires { row < row_count levels.now }
    ensures { result ≡ leads same_number leading.now (row_tuple levels.now row) }
{
    if levels.count() < leading.len() {
        return false;
    }
    for level in 0..leading.len() {
        if leading.at(level) != levels.label(row, level) {
            return false;
        }
    }
    true
}

// The rows with these leading labels, in order.
pub(crate) fn places_of(
    alloc: Global,
    levels: &Levels,
    leading: &Tuple,
) -> Result<Places, AxisFault>
    ensures { PicksBy as_it_is result (rows_of_key (leads same_number) (level_tuples levels.now) leading.now) }
{
    let mut places = Places::new(alloc);
    for row in 0..levels.len() {
        if leads(leading, levels, row) {
            places.push(row)?;
        }
    }
    if places.len() == 0 {
        return Err(AxisFault::NotThere(leading.copy()));
    }
    Ok(places)
}

// How a row's leading labels stand to a bound.
#[tactic(auto, using(crate::proofs::Hints::compare))]
fn compare(dict: &TextDict, levels: &Levels, row: usize, bound: &Tuple) -> Ordering
    requires { row < row_count levels.now }
    ensures { result ≡ leading_cmp (order_in dict.now) (row_tuple levels.now row) bound.now }
{
    for level in 0..bound.len() {
        if level >= levels.count() {
            return Ordering::Less;
        }
        let order = dict.compare(levels.label(row, level), bound.at(level));
        if order != Ordering::Equal {
            return order;
        }
    }
    Ordering::Equal
}

// How a row stands to another one.
#[tactic(auto, using(crate::proofs::Hints::compare))]
fn compare_rows(dict: &TextDict, levels: &Levels, row: usize, other: usize) -> Ordering
    requires row { row < row_count levels.now }
    requires other { other < row_count levels.now }
    ensures { result ≡ leading_cmp (order_in dict.now) (row_tuple levels.now row)
        (row_tuple levels.now other) }
{
    for level in 0..levels.count() {
        let order = dict.compare(levels.label(row, level), levels.label(other, level));
        if order != Ordering::Equal {
            return order;
        }
    }
    Ordering::Equal
}

// Whether no row is less than the one before.
fn is_sorted(dict: &TextDict, levels: &Levels) -> bool
    ensures { result ≡ is_in_order (leading_cmp (order_in dict.now)) (level_tuples levels.now) }
{
    for row in 1..levels.len() {
        if compare_rows(dict, levels, row, row - 1).is_lt() {
            return false;
        }
    }
    true
}

// The first row that isn't below the bound.
fn first_reached(dict: &TextDict, levels: &Levels, bound: Option<&Tuple>) -> usize
    requires { is_in_order (leading_cmp (order_in dict.now)) (level_tuples levels.now) ≡ true }
    ensures { IsSplitAt (reaches (leading_cmp (order_in dict.now)) (option_copied bound.entry))
        (level_tuples levels.now) result }
{
    let Some(bound) = bound else {
        return 0;
    };
    for row in 0..levels.len() {
        if !compare(dict, levels, row, bound).is_lt() {
            return row;
        }
    }
    levels.len()
}

// The row behind the last one that isn't above the bound.
fn end_within(dict: &TextDict, levels: &Levels, bound: Option<&Tuple>) -> usize
    requires { is_in_order (leading_cmp (order_in dict.now)) (level_tuples levels.now) ≡ true }
    ensures { IsSplitAt (λ tuple. not (stays_within (leading_cmp (order_in dict.now))
        (option_copied bound.entry) tuple)) (level_tuples levels.now) result }
{
    let Some(bound) = bound else {
        return levels.len();
    };
    for row in 0..levels.len() {
        if compare(dict, levels, row, bound).is_gt() {
            return row;
        }
    }
    levels.len()
}

// The rows of a slice where the rows aren't in order: all without a bound.
fn unfound_slice(
    levels: &Levels,
    from: Option<&Tuple>,
    to: Option<&Tuple>,
) -> Result<Rows, AxisFault>
    ensures rows { TellsBy rows_of result
        (unfound_slice (option_copied from.entry) (option_copied to.entry) (level_tuples levels.now)) }
    ensures below { IfOk result (λ rows. AreRowsBelow rows (length (level_tuples levels.now))) }
{
    match from.or(to) {
        Some(bound) => Err(AxisFault::NotThere(bound.copy())),
        None => Ok(run_of(0, levels.len(), levels.len())),
    }
}

// The rows of a slice.
pub(crate) fn slice_of(
    dict: &TextDict,
    levels: &Levels,
    from: Option<&Tuple>,
    to: Option<&Tuple>,
) -> Result<Rows, AxisFault>
    ensures rows { TellsBy rows_of result (leading_slice (leading_cmp (order_in dict.now))
        (option_copied from.entry) (option_copied to.entry) (level_tuples levels.now)) }
    ensures below { IfOk result (λ rows. AreRowsBelow rows (length (level_tuples levels.now))) }
{
    if !is_sorted(dict, levels) {
        return unfound_slice(levels, from, to);
    }
    let first = first_reached(dict, levels, from);
    let end = end_within(dict, levels, to);
    Ok(run_of(first, end, levels.len()))
}
