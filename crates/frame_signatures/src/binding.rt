// How the arguments of a call are bound to a signature.
ghost use Rattle.std.specs.Prelude.{◌≡◌, ◌+◌, ◌<◌, ◌^◌, length, slice_get};
ghost use Rattle.std.specs.List.{position_or_len};
ghost use Rattle.frame_store.specs.cells.Text.{same_text};
ghost use Rattle.meaning_call.specs.Signature as signature;
ghost use Rattle.meaning_call.specs.Binding as plain;
ghost use Rattle.frame_store.specs.Objects.{tables};
ghost use Rattle.frame_store.specs.Arguments.{argument_of, named_of, arguments_of, IsLiveArgument, AreLive};
ghost use Rattle.frame_store.specs.Readers.{Agrees, AgreesBy, AgreesSeen, IsLiveWith, lent_argument, IsLiveLent};
ghost use Rattle.frame_store.specs.World.{world, arguments_in};
ghost use Rattle.frame_signatures.specs.Bound.{IsBound};

use crate::bound::Bound;
use crate::forms::{lists, takes};
use crate::table::spelled;
use cell_core::{Code, Reason, TextDict, Words};
use frame_store::{Argument, Named, OpFault, Store};
use meaning_call::{Omitted, Parameter};

/// Why arguments aren't bound. As a `Code` it is `WrongKind`, or `BadValue` of an argument.
#[derive(Clone, Copy, Debug, PartialEq, Eq)]
pub enum Unbound {
    /// A `TypeError`: an argument without a parameter, a parameter without an argument or with two,
    /// or an argument that hasn't the form.
    NotTaken,
    /// A `ValueError`: an argument that isn't among the listed values.
    NotListed,
}

impl From<Unbound> for Code {
    ghost use Rattle.std.specs.Prelude.{◌≡◌};
    ghost use Rattle.frame_signatures.specs.Bound.{code_of};

    ghost from_gives = { λ unbound code. code ≡ code_of unbound };

    fn from(unbound: Unbound) -> Self {
        match unbound {
            Unbound::NotTaken => Code::WrongKind,
            Unbound::NotListed => Code::BadValue(Reason::Argument),
        }
    }
}

impl From<Unbound> for OpFault {
    ghost use Rattle.std.specs.Prelude.{◌≡◌};
    ghost use Rattle.frame_store.specs.declared.fault.OpFault.TheVariants.{Refused};
    ghost use Rattle.frame_signatures.specs.Bound.{code_of};

    ghost from_gives = { λ unbound fault. fault ≡ Refused (code_of unbound) };

    fn from(unbound: Unbound) -> Self {
        OpFault::Refused(Code::from(unbound))
    }
}

// The place of the parameter with a name, or the number of parameters.
fn place_named(parameters: &[Parameter], name: &str) -> usize
    ensures { result
        ≡ position_or_len (λ p. same_text (signature.spelled p.name) name.now) parameters.now }
{
    let mut place = 0;
    let mut rest = parameters;
    while let [first, after @ ..] = rest {
        if spelled(first.name) == name {
            return place;
        }
        place += 1;
        rest = after;
    }
    place
}

/// The place of the parameter that an argument goes to, after so many arguments without a name: the
/// next one, or the one of its name. It is the number of parameters, or above, where there is none.
/// Takes no memory.
pub fn goes_to(parameters: &[Parameter], unnamed: usize, name: &Option<Words>) -> usize
    ensures { result ≡ plain.goes_to parameters.now unnamed name.now }
{
    match name {
        None => unnamed,
        Some(name) => place_named(parameters, name.as_str()),
    }
}

/// How many arguments without a name there are after one more, of which there were so many. Takes no memory.
pub fn counted(unnamed: usize, name: &Option<Words>) -> usize
    requires { unnamed + 1 < 2 ^ 64 }
    ensures { result ≡ plain.counted unnamed name.now }
{
    match name {
        None => unnamed + 1,
        Some(_) => unnamed,
    }
}

// The argument that goes to a place, where so many arguments without a name came before these.
pub(crate) fn given_after<'a>(
    parameters: &[Parameter],
    unnamed: usize,
    args: &'a [Named],
    place: usize,
) -> Option<&'a Argument>
    requires { unnamed + length args.now < 2 ^ 64 }
    ensures value { AgreesSeen (λ gs. plain.given_at parameters.now unnamed gs place)
        arguments_of args.now lent_argument result }
    ensures live { IsLiveWith AreLive args.now IsLiveLent result }
{
    let mut unnamed = unnamed;
    let mut rest = args;
    while let [first, after @ ..] = rest {
        if goes_to(parameters, unnamed, &first.name) == place {
            return Some(&first.value);
        }
        unnamed = counted(unnamed, &first.name);
        rest = after;
    }
    None
}

// Whether an argument goes to a parameter that takes it, and none of those after it goes there.
fn fits(
    store: &Store,
    dict: &TextDict,
    parameters: &[Parameter],
    unnamed: usize,
    first: &Named,
    after: &[Named],
) -> bool
    requires few { unnamed + length after.now + 1 < 2 ^ 64 }
    requires live { IsLiveArgument (tables store.now) first.now.value }
    ensures { result ≡ plain.fits parameters.now unnamed
        (named_of (tables store.now) dict.now first.now)
        (arguments_in (world store.now dict.now) after.now) }
{
    let place = goes_to(parameters, unnamed, &first.name);
    match parameters.get(place) {
        None => false,
        Some(parameter) => {
            takes(store, dict, *parameter, &first.value)
                && given_after(parameters, counted(unnamed, &first.name), after, place).is_none()
        }
    }
}

// Whether each argument goes to a parameter that takes it, and no two go to one.
fn all_fit(store: &Store, dict: &TextDict, parameters: &[Parameter], args: &[Named]) -> bool
    requires { AreLive (tables store.now) args.now }
    ensures { result
        ≡ plain.fit parameters.now 0 (arguments_in (world store.now dict.now) args.now) }
{
    let mut unnamed = 0;
    let mut rest = args;
    while let [first, after @ ..] = rest {
        if !fits(store, dict, parameters, unnamed, first, after) {
            return false;
        }
        unnamed = counted(unnamed, &first.name);
        rest = after;
    }
    true
}

fn listed_at(dict: &TextDict, parameters: &[Parameter], place: usize, argument: &Argument) -> bool
    ensures { AgreesBy dict.now (plain.listed_by (slice_get parameters.now place))
        argument_of argument.now result }
{
    match parameters.get(place) {
        None => true,
        Some(parameter) => lists(dict, parameter.listed, argument),
    }
}

// Whether each argument is among the values that its parameter lists.
fn all_listed(dict: &TextDict, parameters: &[Parameter], args: &[Named]) -> bool
    ensures { AgreesBy dict.now (plain.are_listed parameters.now 0) arguments_of args.now result }
{
    let mut unnamed = 0;
    let mut rest = args;
    while let [first, after @ ..] = rest {
        let place = goes_to(parameters, unnamed, &first.name);
        if !listed_at(dict, parameters, place, &first.value) {
            return false;
        }
        unnamed = counted(unnamed, &first.name);
        rest = after;
    }
    true
}

fn may_be_omitted(omitted: Omitted) -> bool
    ensures { result ≡ plain.may_be_omitted omitted }
{
    match omitted {
        Omitted::Required => false,
        _ => true,
    }
}

// Whether no parameter lacks its argument.
fn none_missing(parameters: &[Parameter], args: &[Named]) -> bool
    ensures { Agrees (λ gs. plain.none_missing parameters.now gs 0 parameters.now)
        arguments_of args.now result }
{
    let mut place = 0;
    let mut rest = parameters;
    while let [first, after @ ..] = rest {
        if given_after(parameters, 0, args, place).is_none() && !may_be_omitted(first.omitted) {
            return false;
        }
        place += 1;
        rest = after;
    }
    true
}

/// The arguments of a call, bound to a signature that takes them; their objects are live. Those without
/// a name go to the parameters in order, those with a name to the parameter of that name.
///
/// `NotTaken` where an argument goes to no parameter, two go to one, one hasn't the form of its
/// parameter, or a parameter that must be given has none; else `NotListed` where one isn't among the
/// listed values of its parameter. A `None` counts as not given where that is the default. Takes no
/// memory.
pub fn bind<'a>(
    store: &Store,
    dict: &TextDict,
    parameters: &'a [Parameter],
    args: &'a [Named],
) -> Result<Bound<'a>, Unbound>
    requires { AreLive (tables store.now) args.now }
    ensures { IsBound (world store.now dict.now) parameters.now args.now result }
{
    if !all_fit(store, dict, parameters, args) {
        return Err(Unbound::NotTaken);
    }
    if !none_missing(parameters, args) {
        return Err(Unbound::NotTaken);
    }
    if !all_listed(dict, parameters, args) {
        return Err(Unbound::NotListed);
    }
    Ok(Bound { parameters, args })
}
