// The last call: what is made of groups.
ghost use Rattle.std.specs.Prelude.{◌≡◌, List};
ghost use Rattle.std.specs.Option.{option_map};
ghost use Rattle.column_core.specs.cells.Text.{Text};
ghost use Rattle.frame_labels.specs.method.Groups as meant;
ghost use Rattle.frame_parts.specs.Makes.{MakesBy};
ghost use Rattle.group_by.specs.Operations.{reduction_of};
ghost use Rattle.frame_store.specs.World.{world, arguments_in, AreKnownArguments};
ghost use Rattle.frame_groups.specs.Calls.{call_of, call_seen};

use cell_core::{Code, Reason, TextDict};
use frame_labels::without_arguments;
use frame_signatures::bind;
use frame_store::{Named, OpFault, Store};
use group_by::GroupOp;
use meaning_call::{Accepted, Choices, Omitted, Parameter, ParameterName};
use std::alloc::Global;

// What is made of groups: a cell for each group, or one for each row.
#[derive(Clone, Copy)]
pub(crate) enum GroupCall {
    Reduced(GroupOp),
    Size,
    Transformed(GroupOp),
    Cumsum,
    Cumcount,
}

// The reduction that a name means.
fn reduction_named(name: &str) -> Option<GroupOp>
    ensures { option_map reduction_of result ≡ meant.reduction_named name.now }
{
    match name {
        "sum" => Some(GroupOp::Sum),
        "min" => Some(GroupOp::Min),
        "max" => Some(GroupOp::Max),
        "count" => Some(GroupOp::Count),
        "nunique" => Some(GroupOp::Distinct),
        "first" => Some(GroupOp::First),
        "last" => Some(GroupOp::Last),
        _ => None,
    }
}

// The call that a name means which takes no argument.
fn plain_call(name: &str) -> Option<GroupCall>
    ensures { option_map call_of result ≡ meant.plain_call name.now }
{
    match name {
        "size" => Some(GroupCall::Size),
        "cumsum" => Some(GroupCall::Cumsum),
        "cumcount" => Some(GroupCall::Cumcount),
        _ => match reduction_named(name) {
            Some(op) => Some(GroupCall::Reduced(op)),
            None => None,
        },
    }
}

// The place of the name that `transform` is told.
const TRANSFORM_NAME: usize = 0;

// What `transform` is told: the name of a reduction.
fn transform_parameters() -> &'static [Parameter]
    ensures { result.now ≡ meant.transform_parameters }
{
    &[Parameter {
        name: ParameterName::Name,
        accepted: Accepted::Text,
        omitted: Omitted::Required,
        listed: Choices::Any,
    }]
}

// What `transform` makes, by the name of a reduction.
fn transformed(name: &str) -> Result<GroupCall, OpFault>
    ensures { (texts : List Text) → MakesBy call_seen texts result
        (meant.transform_of (meant.reduction_named name.now)) }
{
    match reduction_named(name) {
        Some(op) => Ok(GroupCall::Transformed(op)),
        None => Err(OpFault::Refused(Code::BadValue(Reason::Argument))),
    }
}

// The call that a name means which takes no argument, with these arguments.
fn called_without(
    alloc: Global,
    store: &Store,
    dict: &TextDict,
    name: &str,
    args: &[Named],
) -> Result<GroupCall, OpFault>
    requires { AreKnownArguments (world store.now dict.now) args.now }
    ensures { let gs = arguments_in (world store.now dict.now) args.now in
        MakesBy call_seen dict.now result
        (meant.without_arguments (meant.plain_call name.now) name.now gs) }
{
    without_arguments(alloc, store, dict, plain_call(name), name, args)
}

// The last call, of this name and with these arguments.
pub(crate) fn group_call(
    alloc: Global,
    store: &Store,
    dict: &TextDict,
    name: &str,
    args: &[Named],
) -> Result<GroupCall, OpFault>
    requires { AreKnownArguments (world store.now dict.now) args.now }
    ensures { let gs = arguments_in (world store.now dict.now) args.now in
        MakesBy call_seen dict.now result (meant.group_call_of name.now gs) }
{
    match name {
        "transform" => {
            let bound = bind(store, dict, transform_parameters(), args)?;
            transformed(bound.text(dict, TRANSFORM_NAME))
        }
        _ => called_without(alloc, store, dict, name, args),
    }
}
