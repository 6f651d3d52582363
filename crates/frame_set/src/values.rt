// The value of a setting.
ghost use Rattle.std.specs.Prelude.{◌≡◌, List, IfOk};
ghost use Rattle.column_core.specs.cells.Text.{Text as OneText};
ghost use Rattle.frame_store.specs.tables.Value.{one, table};
ghost use Rattle.frame_select.specs.select.Set as meant;
ghost use Rattle.frame_parts.specs.Makes.{MakesBy};
ghost use Rattle.frame_store.specs.Objects.{tables};
ghost use Rattle.frame_store.specs.Arguments.{argument_of, object_value as table_of, IsLiveArgument, IsLiveObject};
ghost use Rattle.frame_set.specs.Assigned.{new_value, moved_object, IsLiveNew};
ghost use Rattle.frame_set.specs.Values.{value_in, IsLiveSetValue};

use cell_core::{Cell, Cells, Grid, Shape};
use frame_parts::wrong_kind;
use frame_select::scalars_alone;
use frame_store::{Argument, ObjId, OpFault, Store, Value};
use std::alloc::Global;

/// What a place is set to.
#[derive(Clone, Copy)]
pub enum NewValue<'a> {
    /// A value that stays as it is: its cells are copied.
    Copied(&'a Argument),
    /// An object that isn't needed after the setting, which ends it: as a whole column of the same
    /// rows its cells move. After a refusal it is as it was.
    Moved(ObjId),
}

/// The value of a setting: a scalar for each cell, a list, or a Series.
#[derive(Drop)]
pub(crate) enum SetValue {
    Same(Cell),
    Listed(Cells),
    Aligned(ObjId),
}

// The object that ends with a setting.
pub(crate) fn moved_object(value: NewValue<'_>) -> Option<ObjId>
    ensures { result ≡ moved_object value.entry }
{
    match value {
        NewValue::Copied(_) => None,
        NewValue::Moved(id) => Some(id),
    }
}

// The value that an object is: a Series.
fn object_value(store: &Store, id: ObjId) -> Result<SetValue, OpFault>
    requires { IsLiveObject (tables store.now) id }
    ensures value { (texts : List OneText) → MakesBy (value_in (tables store.now)) texts result
        (meant.set_value (one (table (table_of (tables store.now) texts id)))) }
    ensures live { IfOk result (IsLiveSetValue (tables store.now)) }
{
    match store.read(id).shape() {
        Shape::Series => Ok(SetValue::Aligned(id)),
        Shape::Frame => Err(wrong_kind()),
    }
}

// The value that an argument is.
fn argument_value(alloc: Global, store: &Store, value: &Argument) -> Result<SetValue, OpFault>
    requires { IsLiveArgument (tables store.now) value.now }
    ensures value { (texts : List OneText) → MakesBy (value_in (tables store.now)) texts result
        (meant.set_value (argument_of (tables store.now) texts value.now)) }
    ensures live { IfOk result (IsLiveSetValue (tables store.now)) }
{
    match value {
        Argument::One(Value::Scalar(cell)) => Ok(SetValue::Same(*cell)),
        Argument::One(Value::Object(id)) => object_value(store, *id),
        Argument::Many(items) => match scalars_alone(alloc, items.as_slice())? {
            Some(cells) => Ok(SetValue::Listed(cells)),
            None => Err(wrong_kind()),
        },
        _ => Err(wrong_kind()),
    }
}

// The value that is given.
pub(crate) fn set_value(
    alloc: Global,
    store: &Store,
    value: NewValue<'_>,
) -> Result<SetValue, OpFault>
    requires { IsLiveNew (tables store.now) value }
    ensures value { (texts : List OneText) → MakesBy (value_in (tables store.now)) texts result
        (meant.set_value (new_value (tables store.now) texts value.entry)) }
    ensures live { IfOk result (IsLiveSetValue (tables store.now)) }
{
    match value {
        NewValue::Copied(value) => argument_value(alloc, store, value),
        NewValue::Moved(id) => object_value(store, id),
    }
}
