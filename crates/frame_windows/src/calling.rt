// Calls behind `rolling` and `expanding` on objects.
ghost use Rattle.std.specs.Prelude.{Ok};
ghost use Rattle.frame_labels.specs.method.Windows as meant;
ghost use Rattle.frame_store.specs.Arguments.{object_value, IsLive, IsLiveObject};
ghost use Rattle.frame_store.specs.Objects.{tables};
ghost use Rattle.frame_store.specs.World.{world, entry_in, arguments_in, IsSettledWorld, AreKnownArguments, Forms};
ghost use Rattle.frame_windows.specs.Windows.{windows_of, told_of, windowed_result, AreSome};

use crate::calls::window_call;
use crate::columns::Windowed;
use crate::windows::{Windows, WindowsTold, name_of, windows_told};
use cell_core::TextDict;
use frame_labels::no_attribute;
use frame_methods::columns_placed;
use frame_store::{Named, ObjId, OpFault, Store, Value};
use std::alloc::Global;

// A call behind windows of an object.
fn windowed(
    alloc: Global,
    store: &mut Store,
    dict: &mut TextDict,
    on: ObjId,
    windows: Windows,
    name: &str,
    args: &[Named],
) -> Result<Value, OpFault>
    requires live { IsLiveObject (tables store.old) on }
    requires settled { IsSettledWorld (world store.old dict.old) }
    requires windows { AreSome windows }
    requires arguments { AreKnownArguments (world store.old dict.old) args.now }
    ensures { let w = world store.old dict.old in
        Forms result (meant.windows_of (object_value w.tables w.texts on)
        (Ok (windows_of windows)) name.now (arguments_in w args.now)) w (world store.new dict.new) }
{
    let op = window_call(alloc, store, dict, name, args)?;
    columns_placed(alloc, store, dict, &Windowed { windows, op }, on)
}

/// A method behind `rolling` or `expanding` of a Series or a frame: `s.rolling(window, ..).name()`.
///
/// The answer is a new object with as many rows, columns and labels as the value has: at each row the sum, the least or the
/// greatest cell of the row's window, which is the last `window` rows up to it, and for `expanding` all rows up to it
/// ("Windowing operations" in the pandas user guide). It is NA where fewer than `min_periods` cells of the window are
/// present; a sum wraps at 64 bits and is 0 for no cell, and the least and the greatest of none are NA. No object that was
/// there changes.
///
/// # Errors
///
/// In this order: `NoAttribute` of a scalar, which has neither name; `WrongKind` of arguments of `rolling` or `expanding`
/// that are unknown, missing, too many, given twice or of another form; `BadValue(Argument)` of a `window` below 1, and of a
/// `min_periods` that is below 0 or above `window`; `NoAttribute` of another last name than `sum`, `min` and `max`;
/// `WrongKind` of its arguments; `WrongKind` of a column whose kind isn't Int64; `Limit`. `NoMemory` may come in place of
/// any answer. After a refusal all objects are as they were.
pub fn method(
    alloc: Global,
    store: &mut Store,
    dict: &mut TextDict,
    on: Value,
    told: WindowsTold<'_>,
    name: &str,
    args: &[Named],
) -> Result<Value, OpFault>
    requires live { IsLive (tables store.old) on }
    requires settled { IsSettledWorld (world store.old dict.old) }
    requires told { AreKnownArguments (world store.old dict.old) (told_of told) }
    requires arguments { AreKnownArguments (world store.old dict.old) args.now }
    ensures { let w = world store.old dict.old in
        Forms result (windowed_result w (entry_in w on) told.entry name.now
        (arguments_in w args.now)) w (world store.new dict.new) }
{
    let Value::Object(id) = on else {
        return Err(no_attribute(alloc, name_of(told)));
    };
    let windows = windows_told(store, dict, told)?;
    windowed(alloc, store, dict, id, windows, name, args)
}
