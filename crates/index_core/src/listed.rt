// The places of labels in a list.
ghost use Rattle.std.specs.Prelude.{◌≡◌, ◌<◌, ◌≤◌, true, length, IfOk};
ghost use Rattle.cell_core.specs.Grids.{AreRowsBelow};
ghost use Rattle.meaning_pick.specs.Labels.{rows_of_key, all_differ};
ghost use Rattle.meaning_pick.specs.Rows.{rows_of};
ghost use Rattle.meaning_pick.specs.Slices.{is_in_order, row_of_bound, first_row, end_row, label_slice};
ghost use Rattle.index_core.specs.Labels.{same_number, order_in};
ghost use Rattle.index_core.specs.Picks.{PicksBy, TellsBy, as_it_is};
ghost use Rattle.index_core.specs.Splits.{BeginsAt, EndsAt};

use crate::fault::IndexFault;
use crate::ranges::run_of;
use cell_core::{Label, NoMemory, Places, Rows, TextDict};
use indexmap::IndexSet;
use std::alloc::Global;

// The places of a label, in order.
pub(crate) fn places_of(alloc: Global, labels: &[Label], label: Label) -> Result<Places, IndexFault>
    ensures { PicksBy as_it_is result (rows_of_key same_number labels.now label) }
{
    let mut places = Places::new(alloc);
    for place in 0..labels.len() {
        if label == labels[place] {
            places.push(place)?;
        }
    }
    if places.len() == 0 {
        return Err(IndexFault::NotThere(label));
    }
    Ok(places)
}

// Whether no label stands twice.
pub(crate) fn all_differ(alloc: Global, labels: &[Label]) -> Result<bool, NoMemory>
    ensures { IfOk result (λ differ. differ ≡ all_differ same_number labels.now) }
{
    let mut later = IndexSet::new(alloc);
    for place in (0..labels.len()).rev() {
        if !later.insert(labels[place])? {
            return Ok(false);
        }
    }
    Ok(true)
}

// Whether no label is less than the one before.
#[tactic(auto, using(meaning_pick::proofs::OrderLaws::order_kept))]
pub(crate) fn is_sorted(dict: &TextDict, labels: &[Label]) -> bool
    ensures { result ≡ is_in_order (order_in dict.now) labels.now }
{
    for place in 1..labels.len() {
        if dict.compare(labels[place], labels[place - 1]).is_lt() {
            return false;
        }
    }
    true
}

// The first place whose label isn't below the bound.
fn first_reached(dict: &TextDict, labels: &[Label], bound: Option<Label>) -> usize
    requires { is_in_order (order_in dict.now) labels.now ≡ true }
    ensures { BeginsAt dict.now bound labels.now result }
{
    let Some(bound) = bound else {
        return 0;
    };
    labels.partition_point(|label| dict.compare(*label, bound).is_lt())
}

// The place behind the last label that isn't above the bound.
fn end_within(dict: &TextDict, labels: &[Label], bound: Option<Label>) -> usize
    requires { is_in_order (order_in dict.now) labels.now ≡ true }
    ensures { EndsAt dict.now bound labels.now result }
{
    let Some(bound) = bound else {
        return labels.len();
    };
    labels.partition_point(|label| !dict.compare(*label, bound).is_gt())
}

// The place of a bound, which must stand there once.
fn place_of_bound(dict: &TextDict, labels: &[Label], bound: Label) -> Result<usize, IndexFault>
    ensures place { TellsBy as_it_is result (row_of_bound (order_in dict.now) labels.now bound) }
    ensures inside { IfOk result (λ place. place < length labels.now) }
{
    let mut found = None;
    for place in 0..labels.len() {
        if dict.compare(labels[place], bound).is_eq() {
            if found.is_some() {
                return Err(IndexFault::BoundNotUnique(bound));
            }
            found = Some(place);
        }
    }
    match found {
        Some(place) => Ok(place),
        None => Err(IndexFault::NotThere(bound)),
    }
}

// The place at which a slice begins, where the labels aren't in order.
fn first_place(dict: &TextDict, labels: &[Label], bound: Option<Label>) -> Result<usize, IndexFault>
    ensures { TellsBy as_it_is result (first_row (order_in dict.now) labels.now bound) }
{
    match bound {
        Some(bound) => place_of_bound(dict, labels, bound),
        None => Ok(0),
    }
}

// The place before which it ends.
fn end_place(dict: &TextDict, labels: &[Label], bound: Option<Label>) -> Result<usize, IndexFault>
    ensures place { TellsBy as_it_is result (end_row (order_in dict.now) labels.now bound) }
    ensures within { IfOk result (λ end. end ≤ length labels.now) }
{
    match bound {
        Some(bound) => Ok(place_of_bound(dict, labels, bound)? + 1),
        None => Ok(labels.len()),
    }
}

// The places of a slice. Labels in order are searched by halving.
#[tactic(auto, using(crate::proofs::SplitLaws::slice_in_order))]
pub(crate) fn slice_of(
    dict: &TextDict,
    labels: &[Label],
    lower: Option<Label>,
    upper: Option<Label>,
) -> Result<Rows, IndexFault>
    ensures rows { TellsBy rows_of result (label_slice (order_in dict.now) lower upper labels.now) }
    ensures below { IfOk result (λ rows. AreRowsBelow rows (length labels.now)) }
{
    if is_sorted(dict, labels) {
        let first = first_reached(dict, labels, lower);
        let end = end_within(dict, labels, upper);
        return Ok(run_of(first, end, labels.len()));
    }
    let first = first_place(dict, labels, lower)?;
    let end = end_place(dict, labels, upper)?;
    Ok(run_of(first, end, labels.len()))
}
