// The columns that a setting touches.
ghost use Rattle.std.specs.Prelude.{◌≡◌, ◌<◌, length, IfOk, All};
ghost use Rattle.cell_core.specs.declared.grid.Shape.TheVariants.{Frame};
ghost use Rattle.frame_select.specs.charge.Charge.{different_count, reached_count, touched_columns, touched_in};
ghost use Rattle.column_core.specs.cells.Cell.{label_datum};
ghost use Rattle.frame_store.specs.tables.Settled.{IsSettled};
ghost use Rattle.frame_store.specs.tables.Table.{table_value};
ghost use Rattle.frame_select.specs.select.Set as meant;
ghost use Rattle.frame_store.specs.Arguments.{subscript_of};
ghost use Rattle.frame_store.specs.Objects.{Tables};
ghost use Rattle.frame_store.specs.World.{world, entry_in, subscript_in, IsKnownValue, IsKnownSubscript, IsSettledWorld};
ghost use Rattle.frame_select.specs.Reaches.{accessor_of, CanSelect};
ghost use Rattle.frame_select.specs.Selected.{IsKnownSecond, second_in, way_of};
ghost use Rattle.frame_set.specs.Values.{IsReachedOf};

use crate::targets::{Reached, columns_reached, label_to_add};
use cell_core::{Grid, Label, NoMemory, Places, Shape, TextDict};
use frame_select::places_of_label;
use frame_store::{ObjRef, OpFault, Selector, Store, Subscript, Value};
use std::alloc::Global;

// How many different places stand in a list. A place is counted where it stands last.
fn different_places(alloc: Global, count: usize, places: &Places) -> Result<usize, NoMemory>
    requires { All (λ place. place < count) places.now }
    ensures { IfOk result (λ different. different ≡ different_count places.now) }
{
    let mut later = vec![in alloc; false; count]?;
    let mut different = 0;
    for k in (0..places.len()).rev() {
        let place = *places.at(k);
        if !later[place] {
            later[place] = true;
            different += 1;
        }
    }
    Ok(different)
}

// How many different columns are reached among so many, one that is added among them.
fn different_columns(alloc: Global, count: usize, reached: &Reached) -> Result<usize, NoMemory>
    requires { IsReachedOf count reached.now }
    ensures { IfOk result (λ different. different ≡ different_count reached.now.places) }
{
    if reached.added.is_some() {
        return Ok(1);
    }
    different_places(alloc, count, &reached.places)
}

// How many different columns the column key of an accessor reaches, and none where it is refused.
fn columns_touched(
    alloc: Global,
    dict: &TextDict,
    on: &ObjRef<'_>,
    by: Selector,
    key: &Subscript,
) -> Result<usize, NoMemory>
    requires table { CanSelect dict.now on.now }
    requires shape { on.now.shape ≡ Frame }
    ensures { (live : Tables) → IsSettled (subscript_of live) dict.now key.now
        → IfOk result (λ touched. touched ≡ reached_count (meant.columns_set (accessor_of by)
        (table_value dict.now on.now) (subscript_of live dict.now key.now))) }
{
    match columns_reached(alloc, dict, on, by, key) {
        Ok(reached) => different_columns(alloc, on.columns(), &reached),
        Err(OpFault::Refused(_)) => Ok(0),
        Err(OpFault::NoMemory) => Err(NoMemory),
    }
}

// How many columns have the label, or 1 where it is to be added.
fn columns_put(
    alloc: Global,
    dict: &TextDict,
    on: &ObjRef<'_>,
    label: Label,
) -> Result<usize, NoMemory>
    requires table { CanSelect dict.now on.now }
    requires label { IsSettled label_datum dict.now label }
    ensures { IfOk result (λ count. count ≡ length
        (meant.places_to_put (table_value dict.now on.now) (label_datum dict.now label))) }
{
    let places = places_of_label(alloc, dict, on, label)?;
    match places.len() {
        0 => Ok(1),
        several => Ok(several),
    }
}

// How many different columns of a table these keys touch.
fn touched_in(
    alloc: Global,
    store: &Store,
    dict: &TextDict,
    on: &ObjRef<'_>,
    by: Selector,
    first: &Subscript,
    second: Option<&Subscript>,
) -> Result<usize, NoMemory>
    requires table { CanSelect dict.now on.now }
    requires first { IsKnownSubscript (world store.now dict.now) first.now }
    requires second { IsKnownSecond (world store.now dict.now) second }
    ensures { IfOk result (λ touched. touched ≡ touched_in on.now.shape (way_of by)
        (table_value dict.now on.now) (subscript_in (world store.now dict.now) first.now)
        (second_in (world store.now dict.now) second.entry)) }
{
    if on.shape() == Shape::Series {
        return Ok(1);
    }
    match (by, second) {
        (Selector::Plain, None) => match label_to_add(Selector::Loc, first) {
            Some(label) => columns_put(alloc, dict, on, label),
            None => Ok(0),
        },
        (Selector::Plain, Some(_)) => Ok(0),
        (_, None) => Ok(on.columns()),
        (_, Some(key)) => columns_touched(alloc, dict, on, by, key),
    }
}

/// How many different columns a setting by these keys touches: 1 on a Series; of a frame the
/// columns that the column key picks, each counted once, all where no column key is given, and 1
/// for a label that a setting would add. Brackets of a frame touch all columns of the label. A
/// column key that is refused touches none, and so do brackets of a frame whose key isn't one
/// label or that have a second key, and a setting on a scalar.
///
/// # Errors
///
/// `NoMemory` is the only refusal.
pub fn touched(
    alloc: Global,
    store: &Store,
    dict: &TextDict,
    on: Value,
    by: Selector,
    first: &Subscript,
    second: Option<&Subscript>,
) -> Result<u64, NoMemory>
    requires on { IsKnownValue (world store.now dict.now) on }
    requires settled { IsSettledWorld (world store.now dict.now) }
    requires first { IsKnownSubscript (world store.now dict.now) first.now }
    requires second { IsKnownSecond (world store.now dict.now) second }
    ensures { IfOk result (λ touched. touched
        ≡ touched_columns (entry_in (world store.now dict.now) on) (way_of by)
        (subscript_in (world store.now dict.now) first.now)
        (second_in (world store.now dict.now) second.entry)) }
{
    let Value::Object(id) = on else {
        return Ok(0);
    };
    let touched = touched_in(alloc, store, dict, &store.read(id), by, first, second)?;
    Ok(touched as u64)
}
