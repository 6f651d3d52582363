// The name of the file that a call reads.
ghost use Rattle.std.specs.Prelude.{◌≡◌, Some};
ghost use Rattle.frame_store.specs.tables.Settled.{IsSettled};
ghost use Rattle.meaning_method.specs.Readers as readers;
ghost use Rattle.meaning_method.specs.Readers.{file_name_of};
ghost use Rattle.frame_store.specs.Objects.{tables};
ghost use Rattle.frame_store.specs.Arguments.{arguments_of, AreLive};
ghost use Rattle.frame_store.specs.World.{world, arguments_in};
ghost use Rattle.frame_make.specs.Names.{Names};

use cell_core::{Cell, Code, TextDict, TextId};
use frame_signatures::{arguments, bind, function_parameters};
use frame_store::{Named, NamedList, Store};
use meaning_call::Function;

// The name that the first argument of a call is.
fn name_of(
    store: &Store,
    dict: &TextDict,
    function: Function,
    args: &[Named],
) -> Result<TextId, Code>
    requires live { AreLive (tables store.now) args.now }
    requires given { IsSettled (arguments_of (tables store.now)) dict.now args.now }
    ensures { Names dict.now result
        (file_name_of function (arguments_in (world store.now dict.now) args.now)) }
{
    let bound = bind(store, dict, function_parameters(function), args)?;
    match bound.scalar_or_none(arguments::READ_CSV_NAME) {
        Some(Cell::Text(name)) => Ok(name),
        _ => Err(Code::WrongKind),
    }
}

/// Whether a function of `pd` reads a file. Takes no memory.
pub fn reads_file(function: Function) -> bool
    ensures { result ≡ readers.reads_file (Some function) }
{
    match function {
        Function::ReadCsv => true,
        Function::Series | Function::DataFrame | Function::Concat => false,
    }
}

/// The text that names the file which a call of a function of `pd` reads: its first argument. The
/// arguments are bound to the function's signature as in a call of Python; all that they hold was
/// given a number by `dict`, and so was the name.
///
/// `WrongKind` or `BadValue(Argument)` where the arguments aren't bound; `WrongKind` where the first
/// isn't a text. Takes no memory.
pub fn file_name(
    store: &Store,
    dict: &TextDict,
    function: Function,
    args: &NamedList,
) -> Result<TextId, Code>
    requires live { AreLive (tables store.now) args.now }
    requires given { IsSettled (arguments_of (tables store.now)) dict.now args.now }
    ensures { Names dict.now result
        (file_name_of function (arguments_in (world store.now dict.now) args.now)) }
{
    name_of(store, dict, function, args.as_slice())
}
