// Settings of objects: read into one change, and then carried out.
ghost use Rattle.std.specs.Prelude.{◌≡◌, ◌≤◌, [], List, length, None, IfOk, IfSome, OnOk};
ghost use Rattle.cell_core.specs.declared.grid.Shape.TheVariants.{Frame};
ghost use Rattle.column_core.specs.cells.Text.{Text as OneText};
ghost use Rattle.frame_store.specs.tables.Settled.{IsSettled};
ghost use Rattle.frame_store.specs.tables.Table.{table_value};
ghost use Rattle.frame_select.specs.charge.Charge.{different_count, setting_charge, touched_in, touched_item};
ghost use Rattle.frame_select.specs.select.Select.{through};
ghost use Rattle.frame_select.specs.select.Set as meant;
ghost use Rattle.frame_parts.specs.Makes.{MakesBy};
ghost use Rattle.frame_store.specs.Objects.{tables};
ghost use Rattle.frame_store.specs.World.{world, entry_in, subscript_in, IsKnownValue, IsKnownSubscript, IsKnownTable, IsSettledWorld, SetsFor};
ghost use Rattle.frame_select.specs.Reaches.{accessor_of, CanSelect};
ghost use Rattle.frame_select.specs.Selected.{IsKnownSecond, second_in, as_it_is, way_of};
ghost use Rattle.frame_set.specs.Assigned.{new_value_in, moved_object, IsKnownNew, IsOther, without};
ghost use Rattle.frame_set.specs.Values.{value_in, target_value, kind_added, IsLiveSetValue, IsTargetOf};
ghost use Rattle.frame_set.specs.Changes.{columns_changed, columns_after, ChangesBy, SetsBy, IsChangeOf, IsSettingOf};
ghost use Rattle.frame_set.specs.Sole.{columns_picked, KeepsSoleBlocks, SetsColumns, SetsPicked};

use crate::changes::{Change, Setting, carry_out};
use crate::filling::{expect_fit, expect_room, kind_for, kinds_of, values_for};
use crate::growing::filled;
use crate::putting::{column_change, series_setting};
use crate::targets::{Target, label_to_add, target_of};
use crate::values::{NewValue, SetValue, moved_object, set_value};
use cell_core::{Code, Grid, Kind, Reason, Shape, TextDict};
use frame_parts::wrong_kind;
use frame_store::{ObjRef, OpFault, Selector, Store, Subscript, Value};
use std::alloc::Global;

// Whether a setting adds a row to a frame without columns, and names none.
fn lacks_columns(on: &ObjRef<'_>, target: &Target) -> bool
    ensures { result ≡ meant.lacks_columns (table_value [] on.now) (target_value [] target.now) }
{
    on.columns() == 0 && target.rows.added.is_some() && target.columns.added.is_none()
}

// The kind of the column that a setting adds, and of no column where it adds none.
fn added_kind(store: &Store, target: &Target, value: &SetValue) -> Result<Kind, OpFault>
    requires { IsLiveSetValue (tables store.now) value.now }
    ensures { (texts : List OneText) → MakesBy as_it_is texts result
        (kind_added target.now.columns.added (value_in (tables store.now) texts value.now)) }
{
    match target.columns.added {
        Some(_) => kind_for(store, value),
        None => Ok(Kind::Int64),
    }
}

// The cells that a setting reaches, with a value for each.
fn cells_change(
    alloc: Global,
    store: &Store,
    dict: &TextDict,
    on: &ObjRef<'_>,
    by: Selector,
    target: Target,
    value: SetValue,
) -> Result<Change, OpFault>
    requires table { CanSelect dict.now on.now }
    requires settled { IsSettledWorld (world store.now dict.now) }
    requires target { IsTargetOf on.now target }
    requires given { IsSettled target_value dict.now target }
    requires live { IsLiveSetValue (tables store.now) value }
    requires value { IsSettled (value_in (tables store.now)) dict.now value }
    ensures change { ChangesBy dict.now on.now result
        (meant.target_set (accessor_of by) (table_value dict.now on.now)
        (value_in (tables store.now) dict.now value) (target_value dict.now target)) }
    ensures fits { IfOk result (IsChangeOf on.now) }
    ensures touched { IfOk result (λ change. columns_changed change
        ≤ different_count target.columns.places) }
    ensures picked { IfOk result (SetsColumns on.now target.columns.places) }
{
    if lacks_columns(on, &target) {
        return Err(OpFault::Refused(Code::BadValue(Reason::NoColumns)));
    }
    // The kind is refused after the length, and asked for before the values move.
    let kind = added_kind(store, &target, &value);
    let values = values_for(alloc, store, dict, on, by, &target, value)?;
    let kind = kind?;
    let kinds = kinds_of(alloc, on, &target.columns.places, kind)?;
    expect_fit(&kinds, values.as_slice())?;
    expect_room(on, &target)?;
    Ok(filled(alloc, dict, on, target, kind, values)?)
}

// A setting behind an accessor: the form of the value, the keys, and then the cells.
fn access_change(
    alloc: Global,
    store: &Store,
    dict: &TextDict,
    on: &ObjRef<'_>,
    by: Selector,
    first: &Subscript,
    second: Option<&Subscript>,
    value: NewValue<'_>,
) -> Result<Change, OpFault>
    requires table { CanSelect dict.now on.now }
    requires settled { IsSettledWorld (world store.now dict.now) }
    requires first { IsKnownSubscript (world store.now dict.now) first.now }
    requires second { IsKnownSecond (world store.now dict.now) second }
    requires value { IsKnownNew (world store.now dict.now) value }
    ensures change { ChangesBy dict.now on.now result
        (meant.access_set (accessor_of by) (table_value dict.now on.now)
        (subscript_in (world store.now dict.now) first.now)
        (second_in (world store.now dict.now) second.entry)
        (new_value_in (world store.now dict.now) value.entry)) }
    ensures fits { IfOk result (IsChangeOf on.now) }
    ensures touched { IfOk result (λ change. columns_changed change ≤ touched_in on.now.shape
        (through (accessor_of by)) (table_value dict.now on.now)
        (subscript_in (world store.now dict.now) first.now)
        (second_in (world store.now dict.now) second.entry)) }
    ensures picked { IfOk result (SetsColumns on.now (columns_picked on.now.shape
        (accessor_of by) (table_value dict.now on.now)
        (second_in (world store.now dict.now) second.entry))) }
{
    let value = set_value(alloc, store, value)?;
    let target = target_of(alloc, store, dict, on, by, first, second)?;
    cells_change(alloc, store, dict, on, by, target, value)
}

// The whole columns of a frame whose label is the key, or a new one. That of a Series that ends may move.
fn frame_setting(
    alloc: Global,
    store: &Store,
    dict: &TextDict,
    on: &ObjRef<'_>,
    key: &Subscript,
    value: NewValue<'_>,
) -> Result<Setting, OpFault>
    requires known { IsKnownTable dict.now on.now }
    requires settled { IsSettledWorld (world store.now dict.now) }
    requires shape { on.now.shape ≡ Frame }
    requires key { IsKnownSubscript (world store.now dict.now) key.now }
    requires value { IsKnownNew (world store.now dict.now) value }
    ensures setting { SetsBy (tables store.now) dict.now on.now result
        (meant.frame_set (table_value dict.now on.now)
        (subscript_in (world store.now dict.now) key.now)
        (new_value_in (world store.now dict.now) value.entry)) }
    ensures fits { IfOk result
        (IsSettingOf (tables store.now) (moved_object value.entry) on.now) }
    ensures touched { IfOk result (λ setting. columns_after setting ≤ touched_item
        (table_value dict.now on.now) (subscript_in (world store.now dict.now) key.now) None) }
{
    let Some(label) = label_to_add(Selector::Loc, key) else {
        return Err(wrong_kind());
    };
    let read = set_value(alloc, store, value)?;
    match value {
        NewValue::Copied(_) => {
            let change = column_change(alloc, store, dict, on, label, read)?;
            Ok(Setting::Change(change))
        }
        NewValue::Moved(series) => series_setting(alloc, store, dict, on, label, series),
    }
}

// What a setting does, tested whole, or its first refusal. Brackets of a Series are `loc`.
fn setting_for(
    alloc: Global,
    store: &Store,
    dict: &TextDict,
    on: &ObjRef<'_>,
    by: Selector,
    first: &Subscript,
    second: Option<&Subscript>,
    value: NewValue<'_>,
) -> Result<Setting, OpFault>
    requires table { CanSelect dict.now on.now }
    requires settled { IsSettledWorld (world store.now dict.now) }
    requires first { IsKnownSubscript (world store.now dict.now) first.now }
    requires second { IsKnownSecond (world store.now dict.now) second }
    requires value { IsKnownNew (world store.now dict.now) value }
    ensures setting { SetsBy (tables store.now) dict.now on.now result
        (meant.table_set (way_of by) (table_value dict.now on.now)
        (subscript_in (world store.now dict.now) first.now)
        (second_in (world store.now dict.now) second.entry)
        (new_value_in (world store.now dict.now) value.entry)) }
    ensures fits { IfOk result
        (IsSettingOf (tables store.now) (moved_object value.entry) on.now) }
    ensures touched { IfOk result (λ setting. columns_after setting ≤ touched_in on.now.shape
        (way_of by) (table_value dict.now on.now)
        (subscript_in (world store.now dict.now) first.now)
        (second_in (world store.now dict.now) second.entry)) }
    ensures picked { IfOk result (SetsPicked (way_of by) on.now (columns_picked on.now.shape
        (accessor_of by) (table_value dict.now on.now)
        (second_in (world store.now dict.now) second.entry))) }
{
    match (by, on.shape(), second) {
        (Selector::Plain, Shape::Frame, None) => {
            frame_setting(alloc, store, dict, on, first, value)
        }
        (Selector::Plain, Shape::Frame, Some(_)) => Err(wrong_kind()),
        _ => {
            let change = access_change(alloc, store, dict, on, by, first, second, value)?;
            Ok(Setting::Change(change))
        }
    }
}

/// A setting: `v[..] = value`, `v.loc[..] = value` and so on, as in the pandas user guide,
/// "Indexing and selecting data" ("Setting with enlargement" among it). Only the table of `on`
/// changes, and no other object with it (PDEP-7: each object behaves as a copy). A value that is
/// [`Moved`](NewValue::Moved) ends with the setting. A setting by `loc`, `iloc`, `at` or `iat` that
/// adds no row or column writes in place where the picked columns share no block.
///
/// Brackets on a frame replace all columns of a label, or make one: a scalar in each row, a list by
/// rows, a Series aligned to the rows. A frame without rows gets those of the Series, or the labels 0, 1
/// and so on for a list; its other columns are missing there. Else the cells that the keys pick are
/// set, as a selection would pick them: a scalar in each, a list by rows in one column or by
/// columns in one row, a Series by position in `iloc` and `iat` and aligned to the labels of the
/// rows in `loc` and `at`. Where a cell is picked twice, the later value stays. A scalar key of
/// `loc` and `at` that isn't there adds a row or a column, a row on one level alone.
///
/// A Series is aligned ("Intro to data structures", "Data alignment"): it goes by position where
/// its labels are those of the rows, in one order, and else each row takes the cell at its label,
/// and is missing where there is none.
///
/// # Errors
///
/// `WrongKind` where `on` is a scalar. Of a whole column: `WrongKind` of a subscript or a value of
/// another form and of scalars of different kinds; where the frame has rows, `BadValue(Length)` of a
/// list that hasn't as many scalars, or `BadValue(Levels)` of a Series on another number of levels
/// and then `BadValue(Repeated)` of one that repeats a label, unless its labels are those of the
/// rows; `Limit`. Of cells: `WrongKind` of a value of another form; the refusals of the keys as in a
/// selection (see [`rows_by`](frame_select::rows_by)); `BadValue(NoColumns)` of a new row of a frame
/// without columns, where the keys name no column; `BadValue(Length)` of a list; `WrongKind` of a
/// Series for several columns or for none; `BadValue(Length)` of a Series by position, and
/// `BadValue(Levels)` and `BadValue(Repeated)` of one that is aligned, as above; `WrongKind` of
/// scalars of different kinds for a new column, and of a cell that its column's kind doesn't hold;
/// `Limit`. `NoMemory` may come in place of any answer. After a refusal all objects are as they
/// were, and none ends.
pub fn assign(
    alloc: Global,
    store: &mut Store,
    dict: &mut TextDict,
    on: Value,
    by: Selector,
    first: &Subscript,
    second: Option<&Subscript>,
    value: NewValue<'_>,
) -> Result<(), OpFault>
    requires on { IsKnownValue (world store.old dict.old) on }
    requires settled { IsSettledWorld (world store.old dict.old) }
    requires first { IsKnownSubscript (world store.old dict.old) first.now }
    requires second { IsKnownSecond (world store.old dict.old) second }
    requires value { IsKnownNew (world store.old dict.old) value }
    requires other { IfSome (moved_object value) (IsOther on) }
    ensures answer { SetsFor (setting_charge (entry_in (world store.old dict.old) on) (way_of by)
        (subscript_in (world store.old dict.old) first.now)
        (second_in (world store.old dict.old) second.entry)) result on
        (meant.assign_result (entry_in (world store.old dict.old) on)
        (way_of by) (subscript_in (world store.old dict.old) first.now)
        (second_in (world store.old dict.old) second.entry)
        (new_value_in (world store.old dict.old) value.entry))
        (without result (moved_object value.entry) (world store.old dict.old))
        (world store.new dict.new) }
    ensures sole { OnOk result (KeepsSoleBlocks store.old store.new dict.old on (way_of by)
        (second_in (world store.old dict.old) second.entry)) }
{
    let Value::Object(id) = on else {
        return Err(wrong_kind());
    };
    let setting = setting_for(
        alloc,
        store,
        dict,
        &store.read(id),
        by,
        first,
        second,
        value,
    )?;
    carry_out(alloc, store, id, setting, moved_object(value))?;
    Ok(())
}
