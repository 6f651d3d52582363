// The cells that a setting reaches.
ghost use Rattle.std.specs.Prelude.{◌≡◌, ◌∷◌, [], List, length, Result, Some, None, IfOk, IfSome};
ghost use Rattle.std.specs.Option.{option_map};
ghost use Rattle.cell_core.specs.declared.grid.Shape.TheVariants.{Frame};
ghost use Rattle.column_core.specs.cells.Text.{Text as OneText};
ghost use Rattle.column_core.specs.cells.Cell.{LabelValue, label_datum};
ghost use Rattle.column_core.specs.cells.Fault.{FaultValue};
ghost use Rattle.frame_store.specs.tables.Settled.{IsSettled};
ghost use Rattle.frame_store.specs.tables.Table.{table_value, heading_value};
ghost use Rattle.label_align.specs.pick.Keys.{Pick};
ghost use Rattle.frame_select.specs.select.Set as meant;
ghost use Rattle.frame_parts.specs.Makes.{MakesBy};
ghost use Rattle.frame_store.specs.Objects.{Tables};
ghost use Rattle.frame_store.specs.Arguments.{subscript_of};
ghost use Rattle.frame_store.specs.World.{world, subscript_in, IsKnownSubscript, IsSettledWorld};
ghost use Rattle.frame_select.specs.Reaches.{accessor_of, pick_value, CanSelect, PicksBelow};
ghost use Rattle.frame_set.specs.Values.{reached_value, target_value, rows_of_pair, IsReachedOf, IsTargetOf, AddsOnOne, TellsAbsence};
ghost use Rattle.frame_select.specs.Selected.{IsKnownSecond, second_in};

use cell_core::{Code, Grid, Label, NoMemory, Places, Shape, TextDict};
use frame_parts::wrong_kind;
use frame_select::{all_columns, columns_by, joined_key, may_stand_alone, rows_by};
use frame_store::{Argument, ObjRef, OpFault, Selector, Store, Subscript, Value};
use indexers::Picked;
use std::alloc::Global;

/// The rows or the columns that a setting reaches, and the label of one that it adds behind the
/// last.
#[derive(Drop)]
pub(crate) struct Reached {
    pub(crate) places: Places,
    pub(crate) added: Option<Label>,
}

/// The rows and the columns that a setting reaches.
#[derive(Drop)]
pub(crate) struct Target {
    pub(crate) rows: Reached,
    pub(crate) columns: Reached,
}

// Those that a key picks.
fn picked(picked: Picked) -> Reached
    ensures { result ≡ record { places = picked.places; added = None } }
{
    Reached {
        places: picked.places,
        added: None,
    }
}

// One more, with a label, after so many.
fn added(alloc: Global, count: usize, label: Label) -> Result<Reached, NoMemory>
    ensures { IfOk result (λ reached. reached
        ≡ record { places = count ∷ []; added = Some label }) }
{
    let mut places = Places::new(alloc);
    places.push(count)?;
    Ok(Reached {
        places,
        added: Some(label),
    })
}

// The label that a key adds where it isn't there: a scalar does in `loc` and `at`.
pub(crate) fn label_to_add(by: Selector, key: &Subscript) -> Option<Label>
    ensures { (live : Tables) (texts : List OneText) → option_map (label_datum texts) result
        ≡ meant.added_label (accessor_of by) (subscript_of live texts key.now) }
{
    match (by, key) {
        (Selector::Iloc, _) => None,
        (Selector::Iat, _) => None,
        (_, Subscript::Key(Argument::One(Value::Scalar(cell)))) => Some(Label::from(*cell)),
        _ => None,
    }
}

// The label of the row that a key adds where it isn't there, on one level alone.
fn row_to_add(on: &ObjRef<'_>, by: Selector, key: &Subscript) -> Option<Label>
    ensures label { (live : Tables) (texts : List OneText) → option_map (label_datum texts) result
        ≡ meant.row_to_add (accessor_of by) (table_value texts on.now)
        (subscript_of live texts key.now) }
    ensures one { IfSome result (λ label. length on.now.level_names ≡ 1) }
{
    if on.levels() == 1 {
        label_to_add(by, key)
    } else {
        None
    }
}

// What was picked, or one more where the label isn't there and may be added.
fn picked_or_added(
    alloc: Global,
    rows: Result<Picked, OpFault>,
    count: usize,
    label: Option<Label>,
) -> Result<Reached, OpFault>
    requires { IfOk rows (PicksBelow count) }
    ensures reached { (texts : List OneText) (tuples : List (List LabelValue))
        (pick : Result Pick FaultValue) → length tuples ≡ count
        → MakesBy pick_value texts rows pick
        → TellsAbsence (heading_value texts label) tuples pick
        → MakesBy reached_value texts result
        (meant.or_added (heading_value texts label) tuples pick) }
    ensures within { IfOk result (IsReachedOf count) }
    ensures own { IfOk result (λ reached. IfSome reached.added (λ added. label ≡ Some added)) }
    ensures given { (texts : List OneText) → IsSettled heading_value texts label
        → IfOk result (IsSettled reached_value texts) }
{
    match rows {
        Ok(rows) => Ok(picked(rows)),
        Err(OpFault::Refused(Code::NoKey(key))) => match label {
            Some(label) => Ok(added(alloc, count, label)?),
            None => Err(OpFault::Refused(Code::NoKey(key))),
        },
        Err(fault) => Err(fault),
    }
}

// The rows that a key reaches.
fn rows_reached(
    alloc: Global,
    store: &Store,
    dict: &TextDict,
    on: &ObjRef<'_>,
    by: Selector,
    key: &Subscript,
) -> Result<Reached, OpFault>
    requires table { CanSelect dict.now on.now }
    requires settled { IsSettledWorld (world store.now dict.now) }
    requires key { IsKnownSubscript (world store.now dict.now) key.now }
    ensures rows { MakesBy reached_value dict.now result (meant.rows_set (accessor_of by)
        (table_value dict.now on.now) (subscript_in (world store.now dict.now) key.now)) }
    ensures within { IfOk result (IsReachedOf (length on.now.labels)) }
    ensures one { IfOk result (AddsOnOne on.now) }
    ensures given { IfOk result (IsSettled reached_value dict.now) }
{
    let rows = rows_by(alloc, store, dict, on, by, key);
    picked_or_added(alloc, rows, on.rows(), row_to_add(on, by, key))
}

// The rows that two keys of a Series reach, which are one tuple.
fn rows_of_pair(
    alloc: Global,
    store: &Store,
    dict: &TextDict,
    on: &ObjRef<'_>,
    by: Selector,
    first: &Subscript,
    second: &Subscript,
) -> Result<Reached, OpFault>
    requires table { CanSelect dict.now on.now }
    requires settled { IsSettledWorld (world store.now dict.now) }
    requires first { IsKnownSubscript (world store.now dict.now) first.now }
    requires second { IsKnownSubscript (world store.now dict.now) second.now }
    ensures rows { MakesBy reached_value dict.now result (rows_of_pair (accessor_of by)
        (table_value dict.now on.now) (subscript_in (world store.now dict.now) first.now)
        (subscript_in (world store.now dict.now) second.now)) }
    ensures within { IfOk result (IsReachedOf (length on.now.labels)) }
    ensures one { IfOk result (AddsOnOne on.now) }
    ensures given { IfOk result (IsSettled reached_value dict.now) }
{
    let key = joined_key(alloc, by, on.levels(), first, second)?;
    rows_reached(alloc, store, dict, on, by, &key)
}

// The columns that a key reaches.
pub(crate) fn columns_reached(
    alloc: Global,
    dict: &TextDict,
    on: &ObjRef<'_>,
    by: Selector,
    key: &Subscript,
) -> Result<Reached, OpFault>
    requires table { CanSelect dict.now on.now }
    requires shape { on.now.shape ≡ Frame }
    ensures columns { (live : Tables) → IsSettled (subscript_of live) dict.now key.now
        → MakesBy reached_value dict.now result (meant.columns_set (accessor_of by)
        (table_value dict.now on.now) (subscript_of live dict.now key.now)) }
    ensures within { IfOk result (IsReachedOf (length on.now.columns)) }
    ensures given { (live : Tables) → IsSettled (subscript_of live) dict.now key.now
        → IfOk result (IsSettled reached_value dict.now) }
{
    let columns = columns_by(alloc, dict, on, by, key);
    picked_or_added(alloc, columns, on.columns(), label_to_add(by, key))
}

// What the keys of an accessor reach: as many keys as in a selection.
pub(crate) fn target_of(
    alloc: Global,
    store: &Store,
    dict: &TextDict,
    on: &ObjRef<'_>,
    by: Selector,
    first: &Subscript,
    second: Option<&Subscript>,
) -> Result<Target, OpFault>
    requires table { CanSelect dict.now on.now }
    requires settled { IsSettledWorld (world store.now dict.now) }
    requires first { IsKnownSubscript (world store.now dict.now) first.now }
    requires second { IsKnownSecond (world store.now dict.now) second }
    ensures target { MakesBy target_value dict.now result
        (meant.target_by on.now.shape (accessor_of by) (table_value dict.now on.now)
        (subscript_in (world store.now dict.now) first.now)
        (second_in (world store.now dict.now) second.entry)) }
    ensures within { IfOk result (IsTargetOf on.now) }
    ensures given { IfOk result (IsSettled target_value dict.now) }
{
    let takes_one = on.shape() == Shape::Series || may_stand_alone(by, first);
    match second {
        None if takes_one => {
            let rows = rows_reached(alloc, store, dict, on, by, first)?;
            let columns = picked(all_columns(alloc, on)?);
            Ok(Target { rows, columns })
        }
        None => Err(wrong_kind()),
        Some(key) if on.shape() == Shape::Frame => {
            let rows = rows_reached(alloc, store, dict, on, by, first)?;
            let columns = columns_reached(alloc, dict, on, by, key)?;
            Ok(Target { rows, columns })
        }
        Some(key) => {
            let rows = rows_of_pair(alloc, store, dict, on, by, first, key)?;
            let columns = picked(all_columns(alloc, on)?);
            Ok(Target { rows, columns })
        }
    }
}
