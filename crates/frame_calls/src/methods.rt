// Methods of values by their names.
ghost use Rattle.std.specs.Prelude.{◌≡◌, ◌||◌, List, Some};
ghost use Rattle.meaning_query.specs.Method.{is_query};
ghost use Rattle.frame_labels.specs.method.cells.Text.{Text as OneText};
ghost use Rattle.meaning_call.specs.Signature as signature;
ghost use Rattle.frame_labels.specs.method.Calls as calls;
ghost use Rattle.frame_labels.specs.method.Calls.{has_attribute, plain_result, table_call, call_result};
ghost use Rattle.frame_labels.specs.method.Charges.{method_charge, call_charge};
ghost use Rattle.frame_store.specs.Arguments.{entry_of, object_value, shape_at, IsLive, IsLiveObject};
ghost use Rattle.frame_store.specs.Objects.{tables};
ghost use Rattle.frame_store.specs.World.{world, entry_in, arguments_in, IsSettledWorld, AreKnownArguments, FormsFor};
ghost use Rattle.frame_calls.specs.Chains.{chain_in, IsKnownChain};
ghost use Rattle.frame_calls.specs.Calls.{method_in, chain_of, IsKnownBetween};

use crate::between::Between;
use crate::chain::Chain;
use cell_core::{Grid, Shape, TextDict};
use frame_groups::GroupedCall;
use frame_labels::no_attribute;
use frame_late::has_texts;
use frame_methods::{
    column_method, label_method, level_method, row_method, summary_method, table_method,
};
use frame_signatures::method_named;
use frame_store::{Named, NamedList, ObjId, OpFault, Store, Value};
use frame_windows::WindowsTold;
use meaning_call::{Method, OtherMethod};
use std::alloc::Global;

/// The method that a value has under a name, `groupby`, `rolling` and `expanding` among them. A scalar has none.
/// Takes no memory.
pub fn method_of(store: &Store, on: Value, name: &str) -> Option<Method>
    requires { IsLive (tables store.now) on }
    ensures { (texts : List OneText)
        → result ≡ method_in (entry_of (tables store.now) texts on) name.now }
{
    match on {
        Value::Scalar(_) => None,
        Value::Object(id) => method_named(store.read(id).shape(), name),
    }
}

/// Whether the name is that of a query of the value: `query` of a frame. Takes no memory.
pub fn is_query(store: &Store, on: Value, name: &str) -> bool
    requires { IsLive (tables store.now) on }
    ensures { (texts : List OneText)
        → result ≡ is_query (entry_of (tables store.now) texts on) name.now }
{
    match on {
        Value::Scalar(_) => false,
        Value::Object(id) => store.read(id).shape() == Shape::Frame && name == "query",
    }
}

/// Whether a value has a method of the name, `groupby`, `rolling`, `expanding` and a frame's `query` among them, or texts
/// behind `str`, which a Series of kind `string` alone has. A scalar has none. Takes no memory.
#[tactic(auto, using(crate::proofs::NameLaws::has_named))]
pub fn exists(store: &Store, on: Value, name: &str) -> bool
    requires { IsLive (tables store.now) on }
    ensures { (texts : List OneText) → let v = entry_of (tables store.now) texts on in
        result ≡ (has_attribute v name.now || is_query v name.now) }
{
    if name == "str" {
        return has_texts(store, on);
    }
    method_of(store, on, name).is_some() || is_query(store, on, name)
}

// A method that an object has under the name, by its family.
#[tactic(auto, using(meaning_call::proofs::ShapeLaws::named_fits))]
fn answered(
    alloc: Global,
    store: &mut Store,
    dict: &mut TextDict,
    on: ObjId,
    method: Method,
    name: &str,
    args: &[Named],
) -> Result<Value, OpFault>
    requires live { IsLiveObject (tables store.old) on }
    requires named { signature.method_named (shape_at (tables store.old) on) name.now ≡ Some method }
    requires settled { IsSettledWorld (world store.old dict.old) }
    requires arguments { AreKnownArguments (world store.old dict.old) args.now }
    ensures { let w = world store.old dict.old in
        let given = arguments_in w args.now in
        let t = object_value w.tables w.texts on in
        FormsFor (method_charge method given t) result (table_call (Some method) name.now given t)
        w (world store.new dict.new) }
{
    match method {
        Method::Columns(method) => column_method(alloc, store, dict, on, method, args),
        Method::Summary(method) => summary_method(alloc, store, dict, on, method, args),
        Method::Rows(method) => row_method(alloc, store, dict, on, method, args),
        Method::Levels(method) => level_method(alloc, store, dict, on, method, args),
        Method::Labels(method) => label_method(alloc, store, dict, on, method, args),
        Method::Table(method) => table_method(alloc, store, dict, on, method, args),
        Method::Reshape(method) => frame_reshape::method(alloc, store, dict, on, method, args),
        Method::Other(OtherMethod::Merge) => frame_merge::merge(alloc, store, dict, on, args),
        Method::Other(OtherMethod::Groupby)
        | Method::Other(OtherMethod::Rolling)
        | Method::Other(OtherMethod::Expanding) => Err(no_attribute(alloc, name)),
    }
}

/// The method that [`method_of`] tells of a value and a name, called with these arguments.
///
/// It is answered as [`method`] answers it of a plain chain, with the same refusals.
pub fn method_called(
    alloc: Global,
    store: &mut Store,
    dict: &mut TextDict,
    on: Value,
    method: Method,
    name: &str,
    args: &NamedList,
) -> Result<Value, OpFault>
    requires live { IsLive (tables store.old) on }
    requires named { method_in (entry_in (world store.old dict.old) on) name.now ≡ Some method }
    requires settled { IsSettledWorld (world store.old dict.old) }
    requires arguments { AreKnownArguments (world store.old dict.old) args.now }
    ensures { let w = world store.old dict.old in
        let given = arguments_in w args.now in
        FormsFor (call_charge (entry_in w on) (calls.plain name.now) given) result
        (plain_result (entry_in w on) name.now given) w (world store.new dict.new) }
{
    let Value::Object(id) = on else {
        return Err(no_attribute(alloc, name));
    };
    answered(alloc, store, dict, id, method, name, args.as_slice())
}

// A method of a value, if it has one of the name.
fn plain(
    alloc: Global,
    store: &mut Store,
    dict: &mut TextDict,
    on: Value,
    name: &str,
    args: &[Named],
) -> Result<Value, OpFault>
    requires live { IsLive (tables store.old) on }
    requires settled { IsSettledWorld (world store.old dict.old) }
    requires arguments { AreKnownArguments (world store.old dict.old) args.now }
    ensures { let w = world store.old dict.old in
        let given = arguments_in w args.now in
        FormsFor (call_charge (entry_in w on) (calls.plain name.now) given) result
        (plain_result (entry_in w on) name.now given) w (world store.new dict.new) }
{
    let Value::Object(id) = on else {
        return Err(no_attribute(alloc, name));
    };
    match method_named(store.read(id).shape(), name) {
        Some(method) => answered(alloc, store, dict, id, method, name, args),
        None => Err(no_attribute(alloc, name)),
    }
}

/// A method behind `groupby`, `rolling` or `expanding`: `s.rolling(..).name(..)`.
///
/// It is answered as [`method`] answers it of the chain of these parts, with the same refusals.
pub fn method_behind(
    alloc: Global,
    store: &mut Store,
    dict: &mut TextDict,
    on: Value,
    between: Between<'_>,
    name: &str,
    args: &NamedList,
) -> Result<Value, OpFault>
    requires live { IsLive (tables store.old) on }
    requires settled { IsSettledWorld (world store.old dict.old) }
    requires before { IsKnownBetween (world store.old dict.old) between }
    requires arguments { AreKnownArguments (world store.old dict.old) args.now }
    ensures { let w = world store.old dict.old in
        let chain = chain_of w between.entry name.now in
        let given = arguments_in w args.now in
        FormsFor (call_charge (entry_in w on) chain given) result
        (call_result (entry_in w on) chain given) w (world store.new dict.new) }
{
    let args = args.as_slice();
    match between {
        Between::Groupby(by, brackets) => {
            let call = GroupedCall {
                by: by.as_slice(),
                brackets: brackets.as_ref(),
                name,
                args,
            };
            frame_groups::method(alloc, store, dict, on, call)
        }
        Between::Rolling(told) => {
            let told = WindowsTold::Rolling(told.as_slice());
            frame_windows::method(alloc, store, dict, on, told, name, args)
        }
        Between::Expanding(told) => {
            let told = WindowsTold::Expanding(told.as_slice());
            frame_windows::method(alloc, store, dict, on, told, name, args)
        }
    }
}

/// A method of a value by its name, alone or behind `str`, `groupby`, `rolling` or `expanding`: `s.name(..)`.
///
/// The answer is a scalar, or a new object whose table is that of its own rows; no other object
/// changes. The objects hold at most as many cells more as the call costs. The scalar that `to_csv`
/// answers is a text, to which the dictionary gives a number. The methods are those of the API reference
/// of pandas, "Series" and "DataFrame".
///
/// # Errors
///
/// In this order: `NoAttribute` where the value has no such method (a scalar has none), also for `groupby`, `rolling`
/// and `expanding` alone, which stand in forms of their own; `WrongKind` of arguments that are unknown, missing, too
/// many, given twice or of a form that the method doesn't take; `BadValue(Argument)` of a value that isn't listed; the
/// method's own refusals; `Limit`. Behind `str`, `groupby`, `rolling` and `expanding` they are those of
/// [`frame_late::method`], [`frame_groups::method`] and [`frame_windows::method`]. `NoMemory` may come in place of any
/// answer. After a refusal all objects are as they were.
pub fn method(
    alloc: Global,
    store: &mut Store,
    dict: &mut TextDict,
    on: Value,
    chain: &Chain,
    args: &NamedList,
) -> Result<Value, OpFault>
    requires live { IsLive (tables store.old) on }
    requires settled { IsSettledWorld (world store.old dict.old) }
    requires before { IsKnownChain (world store.old dict.old) chain.now }
    requires arguments { AreKnownArguments (world store.old dict.old) args.now }
    ensures { let w = world store.old dict.old in
        let called = chain_in w chain.now in
        let given = arguments_in w args.now in
        FormsFor (call_charge (entry_in w on) called given) result
        (call_result (entry_in w on) called given) w (world store.new dict.new) }
{
    match chain {
        Chain::Plain(name) => plain(alloc, store, dict, on, name.as_str(), args.as_slice()),
        Chain::Text(name) => {
            frame_late::method(alloc, store, dict, on, name.as_str(), args.as_slice())
        }
        Chain::Group(by, brackets, name) => {
            let between = Between::Groupby(by, brackets);
            method_behind(alloc, store, dict, on, between, name.as_str(), args)
        }
        Chain::Rolling(told, name) => {
            let between = Between::Rolling(told);
            method_behind(alloc, store, dict, on, between, name.as_str(), args)
        }
        Chain::Expanding(told, name) => {
            let between = Between::Expanding(told);
            method_behind(alloc, store, dict, on, between, name.as_str(), args)
        }
    }
}
