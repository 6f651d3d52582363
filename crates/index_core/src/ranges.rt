// The labels 0 to n - 1, whose places are told without a search.
ghost use Rattle.std.specs.Prelude.{◌≡◌, ◌≤◌, List, Some};
ghost use Rattle.std.specs.Option.{option_to_list};
ghost use Rattle.cell_core.specs.declared.cell.Label.TheVariants.{Int};
ghost use Rattle.cell_core.specs.Grids.{AreRowsBelow};
ghost use Rattle.meaning_pick.specs.cells.Text.{Text as OneText};
ghost use Rattle.meaning_pick.specs.Labels.{rows_of_key};
ghost use Rattle.meaning_pick.specs.Rows.{rows_between, rows_of};
ghost use Rattle.meaning_pick.specs.Slices.{sorted_slice};
ghost use Rattle.index_core.specs.Labels.{same_number, order_in, places_in};
ghost use Rattle.index_core.specs.Picks.{PicksBy, as_it_is};
ghost use Rattle.index_core.specs.Ranges.{range_labels};
ghost use Rattle.index_core.specs.Splits.{BeginsAt, EndsAt};

use crate::fault::IndexFault;
use cell_core::{Label, Places, Rows};
use std::alloc::Global;

// The place of a label among the numbers, if it is one of them.
#[tactic(auto, using(crate::proofs::NumberLaws::nowhere))]
pub(crate) fn place_of(n: usize, label: Label) -> Option<usize>
    ensures { option_to_list result ≡ places_in (range_labels n) label }
{
    match label {
        Label::Bool(_) => None,
        Label::Int(number) => place_of_number(n, number),
        Label::Text(_) => None,
        Label::Na => None,
    }
}

fn place_of_number(n: usize, number: i64) -> Option<usize>
    ensures { option_to_list result ≡ places_in (range_labels n) (Int number) }
{
    if number < 0 {
        return None;
    }
    let place = number.unsigned_abs() as usize;
    if place < n { Some(place) } else { None }
}

// The place of a label as a list.
pub(crate) fn places_of(alloc: Global, n: usize, label: Label) -> Result<Places, IndexFault>
    ensures { PicksBy as_it_is result (rows_of_key same_number (range_labels n) label) }
{
    let Some(place) = place_of(n, label) else {
        return Err(IndexFault::NotThere(label));
    };
    let mut places = Places::new(alloc);
    places.push(place)?;
    Ok(places)
}

// The first place whose number isn't below the bound.
fn first_reached(n: usize, bound: Option<Label>) -> usize
    ensures { (texts : List OneText) → BeginsAt texts bound (range_labels n) result }
{
    match bound {
        Some(label) => first_at(n, label),
        None => 0,
    }
}

fn first_at(n: usize, label: Label) -> usize
    ensures { (texts : List OneText) → BeginsAt texts (Some label) (range_labels n) result }
{
    match label {
        Label::Bool(_) => 0,
        Label::Int(number) => first_from(n, number),
        Label::Text(_) => n,
        Label::Na => n,
    }
}

fn first_from(n: usize, number: i64) -> usize
    ensures { (texts : List OneText) → BeginsAt texts (Some (Int number)) (range_labels n) result }
{
    if number < 0 {
        return 0;
    }
    n.min(number.unsigned_abs() as usize)
}

// The place behind the last number that isn't above the bound.
fn end_within(n: usize, bound: Option<Label>) -> usize
    ensures { (texts : List OneText) → EndsAt texts bound (range_labels n) result }
{
    match bound {
        Some(label) => end_at(n, label),
        None => n,
    }
}

fn end_at(n: usize, label: Label) -> usize
    ensures { (texts : List OneText) → EndsAt texts (Some label) (range_labels n) result }
{
    match label {
        Label::Bool(_) => 0,
        Label::Int(number) => end_with(n, number),
        Label::Text(_) => n,
        Label::Na => n,
    }
}

fn end_with(n: usize, number: i64) -> usize
    ensures { (texts : List OneText) → EndsAt texts (Some (Int number)) (range_labels n) result }
{
    if number < 0 {
        return 0;
    }
    n.min(number.unsigned_abs() as usize + 1)
}

// The places of a slice.
pub(crate) fn slice_of(n: usize, lower: Option<Label>, upper: Option<Label>) -> Rows
    ensures rows { (texts : List OneText) → rows_of result ≡ sorted_slice (order_in texts) lower upper (range_labels n) }
    ensures below { AreRowsBelow result n }
{
    run_of(first_reached(n, lower), end_within(n, upper), n)
}

/// The places from one on that stand before another one: none where they stand the other way. Takes no memory.
#[tactic(auto, using(crate::proofs::NumberLaws::run_rows))]
pub fn run_of(first: usize, end: usize, limit: usize) -> Rows
    requires { end ≤ limit }
    ensures rows { rows_of result ≡ rows_between first end }
    ensures below { AreRowsBelow result limit }
{
    Rows {
        start: first,
        step: 1,
        count: end.saturating_sub(first),
    }
}
