// Which arguments have a form, and which are among the listed values.
ghost use Rattle.std.specs.Prelude.{◌≡◌, Bool, List};
ghost use Rattle.frame_store.specs.cells.Text.{Text};
ghost use Rattle.frame_store.specs.cells.Cell.{datum, label_datum, int_cell, text_cell, truth_cell, na_cell};
ghost use Rattle.frame_store.specs.tables.Value.{row};
ghost use Rattle.meaning_call.specs.Binding as plain;
ghost use Rattle.frame_store.specs.Objects.{Tables, tables};
ghost use Rattle.frame_store.specs.Arguments.{shape_at, IsLiveObject, item_of, items_of, argument_of, entries_of, IsLiveArgument};
ghost use Rattle.frame_store.specs.Readers.{Agrees, AgreesBy};
ghost use Rattle.frame_store.specs.World.{world, argument_in};

use cell_core::{Cell, Grid, Label, Shape, TextDict};
use frame_store::{Argument, Item, ObjId, Store, Value};
use meaning_call::{Accepted, Choices, Omitted, Parameter};

fn is_scalar(item: &Item) -> bool
    ensures { Agrees plain.is_scalar item_of item.now result }
{
    match item {
        Item::One(Value::Scalar(_)) => true,
        Item::One(Value::Object(_)) => false,
        Item::Row(_) => false,
    }
}

fn is_object(item: &Item) -> bool
    ensures { Agrees plain.is_object item_of item.now result }
{
    match item {
        Item::One(Value::Object(_)) => true,
        Item::One(Value::Scalar(_)) => false,
        Item::Row(_) => false,
    }
}

/// Whether each part of a list is a scalar. Takes no memory.
pub fn are_scalars(items: &[Item]) -> bool
    ensures { Agrees (plain.each plain.is_scalar) items_of items.now result }
{
    items.iter().all(is_scalar)
}

fn are_objects(items: &[Item]) -> bool
    ensures { Agrees (plain.each plain.is_object) items_of items.now result }
{
    items.iter().all(is_object)
}

// A scalar, or a tuple of scalars alone.
fn is_key(item: &Item) -> bool
    ensures { Agrees plain.is_key item_of item.now result }
{
    match item {
        Item::One(Value::Scalar(_)) => true,
        Item::One(Value::Object(_)) => false,
        Item::Row(parts) => are_scalars(parts.as_slice()),
    }
}

fn are_keys(items: &[Item]) -> bool
    ensures { Agrees (plain.each plain.is_key) items_of items.now result }
{
    items.iter().all(is_key)
}

// A tuple of so many scalars, of which these are the parts.
#[tactic(auto, using(crate::proofs::FormLaws::count_is))]
fn are_so_many(count: usize, parts: &[Item]) -> bool
    ensures { Agrees (λ gs. plain.is_tuple_of count (row gs)) items_of parts.now result }
{
    parts.len() == count && are_scalars(parts)
}

fn is_tuple_of(count: usize, item: &Item) -> bool
    ensures { Agrees (plain.is_tuple_of count) item_of item.now result }
{
    match item {
        Item::One(_) => false,
        Item::Row(parts) => are_so_many(count, parts.as_slice()),
    }
}

fn are_tuples_of(count: usize, items: &[Item]) -> bool
    ensures { Agrees (plain.each (plain.is_tuple_of count)) items_of items.now result }
{
    items.iter().all(|item| is_tuple_of(count, item))
}

// Two scalars or more, and after them tuples of as many.
#[tactic(auto, using(crate::proofs::FormLaws::count_is))]
fn are_tuples_like(parts: &[Item], rest: &[Item]) -> bool
    ensures { (live : Tables) (texts : List Text) → result
        ≡ plain.are_alike (row (items_of live texts parts.now)) (items_of live texts rest.now) }
{
    1 < parts.len() && are_scalars(parts) && are_tuples_of(parts.len(), rest)
}

// Scalars alone, or tuples of two scalars or more, all as long as the first.
fn are_alike(first: &Item, rest: &[Item]) -> bool
    ensures { (live : Tables) (texts : List Text) → result
        ≡ plain.are_alike (item_of live texts first.now) (items_of live texts rest.now) }
{
    match first {
        Item::One(Value::Scalar(_)) => are_scalars(rest),
        Item::One(Value::Object(_)) => false,
        Item::Row(parts) => are_tuples_like(parts.as_slice(), rest),
    }
}

fn are_row_labels(items: &[Item]) -> bool
    ensures { Agrees plain.are_row_labels items_of items.now result }
{
    match items {
        [] => true,
        [first, rest @ ..] => are_alike(first, rest),
    }
}

// Whether a key stands among the pairs.
fn has_key(dict: &TextDict, key: Label, pairs: &[(Label, Argument)]) -> bool
    ensures { AgreesBy dict.now (plain.has_key (label_datum dict.now key))
        entries_of pairs.now result }
{
    let mut rest = pairs;
    while let [first, after @ ..] = rest {
        if dict.compare(key, first.0).is_eq() {
            return true;
        }
        rest = after;
    }
    false
}

fn is_text(argument: &Argument) -> bool
    ensures { Agrees plain.is_given_text argument_of argument.now result }
{
    match argument {
        Argument::One(Value::Scalar(cell)) => matches!(cell, Cell::Text(_)),
        Argument::One(Value::Object(_)) => false,
        Argument::Nothing => false,
        Argument::Row(_) => false,
        Argument::Many(_) => false,
        Argument::Table(_) => false,
    }
}

// Whether each value that isn't replaced by a later one of its key is a text.
fn are_texts(dict: &TextDict, pairs: &[(Label, Argument)]) -> bool
    ensures { AgreesBy dict.now (plain.each_value plain.is_given_text) entries_of pairs.now result }
{
    let mut rest = pairs;
    while let [first, after @ ..] = rest {
        if !has_key(dict, first.0, after) && !is_text(&first.1) {
            return false;
        }
        rest = after;
    }
    true
}

fn is_kind_name(dict: &TextDict, argument: &Argument) -> bool
    ensures { AgreesBy dict.now plain.is_kind_name argument_of argument.now result }
{
    match argument {
        Argument::One(Value::Scalar(cell)) => lists_scalar(dict, Choices::KindNames, *cell),
        Argument::One(Value::Object(_)) => false,
        Argument::Nothing => false,
        Argument::Row(_) => false,
        Argument::Many(_) => false,
        Argument::Table(_) => false,
    }
}

// Whether each value that isn't replaced by a later one of its key is the name of a kind.
fn are_kind_names(dict: &TextDict, pairs: &[(Label, Argument)]) -> bool
    ensures { AgreesBy dict.now (plain.each_value plain.is_kind_name) entries_of pairs.now result }
{
    let mut rest = pairs;
    while let [first, after @ ..] = rest {
        if !has_key(dict, first.0, after) && !is_kind_name(dict, &first.1) {
            return false;
        }
        rest = after;
    }
    true
}

fn none_has(accepted: Accepted) -> bool
    ensures { result ≡ plain.none_has accepted }
{
    matches!(accepted, Accepted::ScalarOrNone | Accepted::Names)
}

fn scalar_has(accepted: Accepted, cell: Cell) -> bool
    ensures { (texts : List Text) → result ≡ plain.scalar_has accepted (datum texts cell) }
{
    match accepted {
        Accepted::Truth => matches!(cell, Cell::Bool(_)),
        Accepted::Whole => matches!(cell, Cell::Int(_)),
        Accepted::Text => matches!(cell, Cell::Text(_)),
        Accepted::Scalar => true,
        Accepted::ScalarOrNone => true,
        Accepted::Labels => true,
        Accepted::SomeLabels => true,
        Accepted::Names => true,
        Accepted::Level => matches!(cell, Cell::Int(_) | Cell::Text(_)),
        _ => false,
    }
}

fn object_has(accepted: Accepted, shape: Shape) -> bool
    ensures { result ≡ plain.object_has accepted shape }
{
    match accepted {
        Accepted::Frame => matches!(shape, Shape::Frame),
        _ => false,
    }
}

#[tactic(auto, using(crate::proofs::FormLaws::count_is))]
fn list_has(accepted: Accepted, items: &[Item]) -> bool
    ensures { Agrees (plain.list_has accepted) items_of items.now result }
{
    match accepted {
        Accepted::Scalars => are_scalars(items),
        Accepted::Labels => are_scalars(items),
        Accepted::SomeLabels => 0 < items.len() && are_scalars(items),
        Accepted::Keys => are_keys(items),
        Accepted::RowLabels => are_row_labels(items),
        Accepted::Names => are_scalars(items),
        Accepted::Objects => are_objects(items),
        _ => false,
    }
}

fn dict_has(dict: &TextDict, accepted: Accepted, pairs: &[(Label, Argument)]) -> bool
    ensures { AgreesBy dict.now (plain.dict_has accepted) entries_of pairs.now result }
{
    match accepted {
        Accepted::Dict => true,
        Accepted::TextDict => are_texts(dict, pairs),
        _ => false,
    }
}

fn none_stands(omitted: Omitted) -> bool
    ensures { result ≡ plain.none_stands omitted }
{
    matches!(omitted, Omitted::None)
}

fn shape_of(store: &Store, on: ObjId) -> Shape
    requires { IsLiveObject (tables store.now) on }
    ensures { result ≡ shape_at (tables store.now) on }
{
    store.read(on).shape()
}

// Whether a parameter takes an argument.
pub(crate) fn takes(
    store: &Store,
    dict: &TextDict,
    parameter: Parameter,
    argument: &Argument,
) -> bool
    requires { IsLiveArgument (tables store.now) argument.now }
    ensures { result
        ≡ plain.takes parameter (argument_in (world store.now dict.now) argument.now) }
{
    match argument {
        Argument::Nothing => none_stands(parameter.omitted) || none_has(parameter.accepted),
        Argument::One(Value::Scalar(cell)) => scalar_has(parameter.accepted, *cell),
        Argument::One(Value::Object(on)) => object_has(parameter.accepted, shape_of(store, *on)),
        Argument::Row(_) => false,
        Argument::Many(items) => list_has(parameter.accepted, items.as_slice()),
        Argument::Table(pairs) => dict_has(dict, parameter.accepted, pairs.as_slice()),
    }
}

fn lists_text(listed: Choices, text: &str) -> bool
    ensures { result ≡ plain.lists_scalar listed (text_cell text.now) }
{
    match listed {
        Choices::Any => true,
        Choices::KindNames => matches!(text, "Int64" | "boolean" | "string"),
        Choices::KindNameDict => true,
        Choices::Backends => matches!(text, "numpy_nullable"),
        Choices::Hows => matches!(text, "inner" | "left" | "right" | "outer"),
        Choices::Joins => matches!(text, "inner" | "outer"),
        Choices::Validations => is_validation(text),
        Choices::Aggregations => {
            matches!(text, "sum" | "min" | "max" | "count" | "first" | "last")
        }
        Choices::Axes | Choices::NoRegex => false,
    }
}

fn is_validation(text: &str) -> bool
    ensures { result ≡ plain.is_among plain.validation_names (text_cell text.now) }
{
    matches!(
        text,
        "one_to_one"
            | "one_to_many"
            | "many_to_one"
            | "many_to_many"
            | "1:1"
            | "1:m"
            | "m:1"
            | "m:m"
    )
}

fn lists_whole(listed: Choices, number: i64) -> bool
    ensures { result ≡ plain.lists_scalar listed (int_cell number) }
{
    match listed {
        Choices::Any => true,
        Choices::KindNameDict => true,
        Choices::Axes => number == 0 || number == 1,
        _ => false,
    }
}

fn lists_truth(listed: Choices, truth: bool) -> bool
    ensures { result ≡ plain.lists_scalar listed (truth_cell truth) }
{
    match listed {
        Choices::Any => true,
        Choices::KindNameDict => true,
        Choices::NoRegex => !truth,
        _ => false,
    }
}

fn lists_na(listed: Choices) -> bool
    ensures { result ≡ plain.lists_scalar listed na_cell }
{
    matches!(listed, Choices::Any | Choices::KindNameDict)
}

fn lists_scalar(dict: &TextDict, listed: Choices, cell: Cell) -> bool
    ensures { result ≡ plain.lists_scalar listed (datum dict.now cell) }
{
    match cell {
        Cell::Text(id) => lists_text(listed, dict.text(id)),
        Cell::Int(number) => lists_whole(listed, number),
        Cell::Bool(truth) => lists_truth(listed, truth),
        Cell::Na => lists_na(listed),
    }
}

fn lists_dict(dict: &TextDict, listed: Choices, pairs: &[(Label, Argument)]) -> bool
    ensures { AgreesBy dict.now (plain.lists_dict listed) entries_of pairs.now result }
{
    match listed {
        Choices::KindNameDict => are_kind_names(dict, pairs),
        _ => true,
    }
}

// Whether an argument is among the listed values.
pub(crate) fn lists(dict: &TextDict, listed: Choices, argument: &Argument) -> bool
    ensures { AgreesBy dict.now (plain.lists listed) argument_of argument.now result }
{
    match argument {
        Argument::Nothing => true,
        Argument::One(Value::Scalar(cell)) => lists_scalar(dict, listed, *cell),
        Argument::One(Value::Object(_)) => true,
        Argument::Row(_) => true,
        Argument::Many(_) => true,
        Argument::Table(pairs) => lists_dict(dict, listed, pairs.as_slice()),
    }
}
