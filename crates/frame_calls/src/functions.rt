// The functions of `pd` by their names.
ghost use Rattle.std.specs.Prelude.{◌≡◌, is_some};
ghost use Rattle.std.specs.Option.{option_map};
ghost use Rattle.frame_labels.specs.method.cells.Cell.{IsLonger};
ghost use Rattle.frame_store.specs.tables.Settled.{IsSettled};
ghost use Rattle.meaning_call.specs.Signature as signature;
ghost use Rattle.frame_labels.specs.method.Functions as functions;
ghost use Rattle.frame_store.specs.Arguments.{arguments_of, AreLive};
ghost use Rattle.frame_store.specs.Objects.{tables};
ghost use Rattle.frame_store.specs.Shown.{Makes};
ghost use Rattle.frame_store.specs.World.{world, arguments_in, IsSettledWorld, AreKnownArguments, Forms};
ghost use Rattle.frame_make.specs.Names.{Names};
ghost use Rattle.frame_calls.specs.Calls.{name_for};

use cell_core::{Code, TextDict, TextId};
use frame_concat::concat;
use frame_labels::no_attribute;
use frame_make::{made_frame, made_series, read_frame};
use frame_signatures::function_named;
use frame_store::{Named, NamedList, OpFault, Store, Table, Value, placed};
use meaning_call::Function;
use std::alloc::Global;

/// Whether `pd` has a function of the name. Takes no memory.
pub fn function_exists(name: &str) -> bool
    ensures { result ≡ is_some (signature.function_named name.now) }
{
    function_named(name).is_some()
}

/// The text that names the file which a call of a function of `pd` reads: its first argument. The
/// arguments are bound to the function's signature as in a call of Python; all that they hold was
/// given a number by `dict`, and so was the name.
///
/// `WrongKind` where `pd` has no function of the name; `WrongKind` or `BadValue(Argument)` where the
/// arguments aren't bound; `WrongKind` where the first isn't a text. Takes no memory.
pub fn file_name(
    store: &Store,
    dict: &TextDict,
    function: &str,
    args: &NamedList,
) -> Result<TextId, Code>
    requires live { AreLive (tables store.now) args.now }
    requires given { IsSettled (arguments_of (tables store.now)) dict.now args.now }
    ensures { Names dict.now result (name_for (signature.function_named function.now)
        (arguments_in (world store.now dict.now) args.now)) }
{
    match function_named(function) {
        Some(function) => frame_make::file_name(store, dict, function, args),
        None => Err(Code::WrongKind),
    }
}

// What a function makes of these arguments.
#[tactic(auto, using(frame_store::proofs::Settling::longer_self))]
fn made_by(
    alloc: Global,
    store: &Store,
    dict: &mut TextDict,
    function: Function,
    args: &[Named],
    file: Option<&[u8]>,
) -> Result<Table, OpFault>
    requires settled { IsSettledWorld (world store.now dict.old) }
    requires known { AreKnownArguments (world store.now dict.old) args.now }
    ensures longer { IsLonger dict.old dict.new }
    ensures answer { Makes dict.new result
        (functions.made_by function (option_map (λ bytes. bytes.now) file.entry)
        (arguments_in (world store.now dict.old) args.now)) }
{
    match (function, file) {
        (Function::Series, _) => made_series(alloc, store, dict, args),
        (Function::DataFrame, _) => made_frame(alloc, store, dict, args),
        (Function::ReadCsv, Some(bytes)) => read_frame(alloc, store, dict, args, bytes),
        (Function::ReadCsv, None) => read_frame(alloc, store, dict, args, &[]),
        (Function::Concat, _) => concat(alloc, store, dict, args),
    }
}

/// What a function of `pd` makes of its arguments, and of the bytes of a file where it reads one: a new object.
///
/// It is answered as [`make`] answers it of the function's name, with the same refusals.
pub fn function_called(
    alloc: Global,
    store: &mut Store,
    dict: &mut TextDict,
    function: Function,
    args: &NamedList,
    file: Option<&[u8]>,
) -> Result<Value, OpFault>
    requires settled { IsSettledWorld (world store.old dict.old) }
    requires known { AreKnownArguments (world store.old dict.old) args.now }
    ensures { Forms result (functions.made_by function (option_map (λ bytes. bytes.now) file.entry)
        (arguments_in (world store.old dict.old) args.now))
        (world store.old dict.old) (world store.new dict.new) }
{
    let made = made_by(alloc, store, dict, function, args.as_slice(), file);
    placed(store, dict, made)
}

/// What the function of `pd` of a name makes of its arguments, and of the bytes of a file where it reads one: a new
/// object. The arguments are bound to the function's signature as in a call of Python; all that they hold was given a
/// number by `dict`. `Series`, `DataFrame` and `read_csv` are those of the crate `frame_make`, and `concat` is that of
/// `frame_concat`; no other function than `read_csv` looks at the bytes.
///
/// # Errors
///
/// `NoAttribute` where `pd` has no function of the name; else those of the function, which for `read_csv` without bytes
/// are those of an empty file. `NoMemory` may come in place of any answer. After a refusal all objects are as they were.
pub fn make(
    alloc: Global,
    store: &mut Store,
    dict: &mut TextDict,
    name: &str,
    args: &NamedList,
    file: Option<&[u8]>,
) -> Result<Value, OpFault>
    requires settled { IsSettledWorld (world store.old dict.old) }
    requires known { AreKnownArguments (world store.old dict.old) args.now }
    ensures { Forms result (functions.function_result (option_map (λ bytes. bytes.now) file.entry)
        name.now (arguments_in (world store.old dict.old) args.now))
        (world store.old dict.old) (world store.new dict.new) }
{
    match function_named(name) {
        Some(function) => function_called(alloc, store, dict, function, args, file),
        None => Err(no_attribute(alloc, name)),
    }
}
