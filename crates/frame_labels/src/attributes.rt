// The fault of a name that no method has, and what a name means that takes no arguments.
ghost use Rattle.meaning_method.specs.Groups as meant;
ghost use Rattle.frame_parts.specs.Makes.{MakesBy};
ghost use Rattle.frame_store.specs.World.{world, arguments_in, AreKnownArguments};
ghost use Rattle.frame_select.specs.Selected.{as_it_is};
ghost use Rattle.frame_labels.specs.Faults.{NamesNone};

use cell_core::{Code, TextDict, Words};
use frame_signatures::bind;
use frame_store::{Named, OpFault, Store};
use std::alloc::Global;

/// An AttributeError of the name, or want of memory.
pub fn no_attribute(alloc: Global, name: &str) -> OpFault
    ensures { NamesNone result name.now }
{
    match Words::from_text(alloc, name) {
        Ok(name) => OpFault::Refused(Code::NoAttribute(name)),
        Err(_) => OpFault::NoMemory,
    }
}

/// What the last name behind `groupby`, `rolling` or `expanding` means, where it takes no arguments.
///
/// `NoAttribute` of a name that means nothing there, and else `WrongKind` where it has arguments. `NoMemory` may come in
/// place of any answer.
pub fn without_arguments<C: Copy>(
    alloc: Global,
    store: &Store,
    dict: &TextDict,
    call: Option<C>,
    name: &str,
    args: &[Named],
) -> Result<C, OpFault>
    requires { AreKnownArguments (world store.now dict.now) args.now }
    ensures { let gs = arguments_in (world store.now dict.now) args.now in
        MakesBy as_it_is dict.now result (meant.without_arguments call name.now gs) }
{
    let Some(call) = call else {
        return Err(no_attribute(alloc, name));
    };
    let _bound = bind(store, dict, &[], args)?;
    Ok(call)
}
