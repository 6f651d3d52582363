// Calls behind `str` on objects.
ghost use Rattle.std.specs.Prelude.{◌≡◌, List};
ghost use Rattle.frame_store.specs.cells.Text.{Text as OneText};
ghost use Rattle.frame_labels.specs.method.StrCalls as meant;
ghost use Rattle.meaning_call.specs.Signature.{str_parameters};
ghost use Rattle.meaning_call.specs.Binding.{bound_of, on_bound};
ghost use Rattle.frame_store.specs.Arguments.{entry_of, object_value, IsLive, IsLiveObject};
ghost use Rattle.frame_store.specs.Objects.{tables};
ghost use Rattle.frame_store.specs.tables.Table.{table_value};
ghost use Rattle.frame_store.specs.tables.Valid.{IsWhole};
ghost use Rattle.frame_store.specs.tables.Value.{table};
ghost use Rattle.frame_store.specs.World.{world, entry_in, arguments_in, IsSettledWorld, AreKnownArguments, Forms};
ghost use Rattle.frame_late.specs.StrOps.{HasTexts};

use crate::told::told;
use cell_core::{Grid, Kind, Shape, TextDict};
use frame_labels::no_attribute;
use frame_methods::columns_placed;
use frame_signatures::{bind, str_named, str_parameters};
use frame_store::{Named, ObjId, ObjRef, OpFault, Store, Value};
use meaning_call::StrMethod;
use std::alloc::Global;

/// Whether there is a method of texts of the name: `len`, `strip`, `startswith`, `endswith`, `contains`, `slice` or
/// `zfill`. Takes no memory.
pub fn text_exists(name: &str) -> bool
    ensures { result ≡ meant.has_str_method name.now }
{
    str_named(name).is_some()
}

// Whether the table of an object is a Series of texts.
fn is_texts(object: &ObjRef<'_>) -> bool
    requires { IsWhole object.now }
    ensures { (texts : List OneText) → result ≡ meant.has_texts (table (table_value texts object.now)) }
{
    match object.shape() {
        Shape::Series => matches!(object.kind(0), Kind::Text),
        Shape::Frame => false,
    }
}

/// Whether a value has texts behind `str`: it is a Series whose kind is `string`. Takes no memory.
pub fn has_texts(store: &Store, on: Value) -> bool
    requires { IsLive (tables store.now) on }
    ensures { (texts : List OneText)
        → result ≡ meant.has_texts (entry_of (tables store.now) texts on) }
{
    match on {
        Value::Scalar(_) => false,
        Value::Object(id) => is_texts(&store.read(id)),
    }
}

// A method of the texts of an object, with these arguments.
fn called(
    alloc: Global,
    store: &mut Store,
    dict: &mut TextDict,
    on: ObjId,
    method: StrMethod,
    args: &[Named],
) -> Result<Value, OpFault>
    requires live { IsLiveObject (tables store.old) on }
    requires settled { IsSettledWorld (world store.old dict.old) }
    requires arguments { AreKnownArguments (world store.old dict.old) args.now }
    requires texts { HasTexts (world store.old dict.old) on }
    ensures { let w = world store.old dict.old in
        Forms result (on_bound (bound_of (str_parameters method) (arguments_in w args.now))
        (meant.str_answer (object_value w.tables w.texts on) method)) w (world store.new dict.new) }
{
    let bound = bind(store, dict, str_parameters(method), args)?;
    let op = told(method, &bound)?;
    columns_placed(alloc, store, dict, &op, on)
}

/// A method of the texts of a Series: `s.str.name(..)`.
///
/// The answer is a new Series with the labels and the name of the value: of each text what the method makes of its code
/// points, and NA of NA ("Working with text data" in the pandas user guide). No object that was there changes.
///
/// # Errors
///
/// In this order: `NoAttribute` of `str` where the value isn't a Series of kind `string`; `NoAttribute` of a name for which
/// [`text_exists`] is false; `WrongKind` of arguments that are unknown, missing, too many, given twice or of another form;
/// `BadValue(Argument)` of a `regex` that is True, of a step of 0 and of a width above 65,536; `Limit`. `NoMemory` may come
/// in place of any answer. After a refusal all objects are as they were.
pub fn method(
    alloc: Global,
    store: &mut Store,
    dict: &mut TextDict,
    on: Value,
    name: &str,
    args: &[Named],
) -> Result<Value, OpFault>
    requires live { IsLive (tables store.old) on }
    requires settled { IsSettledWorld (world store.old dict.old) }
    requires arguments { AreKnownArguments (world store.old dict.old) args.now }
    ensures { let w = world store.old dict.old in
        Forms result (meant.str_result (entry_in w on) name.now (arguments_in w args.now))
        w (world store.new dict.new) }
{
    let Value::Object(id) = on else {
        return Err(no_attribute(alloc, "str"));
    };
    if !has_texts(store, on) {
        return Err(no_attribute(alloc, "str"));
    }
    let Some(method) = str_named(name) else {
        return Err(no_attribute(alloc, name));
    };
    called(alloc, store, dict, id, method, args)
}
