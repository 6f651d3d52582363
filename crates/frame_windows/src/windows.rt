// What `rolling` and `expanding` are told.
ghost use Rattle.std.specs.Prelude.{◌≡◌, List, unwrap_or, IfOk};
ghost use Rattle.std.specs.Option.{option_map};
ghost use Rattle.column_core.specs.cells.Text.{Text};
ghost use Rattle.column_core.specs.cells.Cell.{datum};
ghost use Rattle.meaning_call.specs.Binding.{whole_of};
ghost use Rattle.frame_labels.specs.method.Windows as meant;
ghost use Rattle.frame_methods.specs.frame_parts.Makes.{MakesBy};
ghost use Rattle.frame_store.specs.World.{world, arguments_in, AreKnownArguments};
ghost use Rattle.frame_windows.specs.Windows.{windows_seen, windows_meant, told_name, told_of, AreSome};

use cell_core::{Cell, Code, Reason, TextDict};
use frame_signatures::{arguments, bind, parameters};
use frame_store::{Named, OpFault, Store};
use meaning_call::{Method, OtherMethod};

// The window of a row: the last so many rows up to it, or all; and how many of its cells must be present.
#[derive(Clone, Copy)]
pub(crate) enum Windows {
    Rolling { rows: usize, least: usize },
    Expanding { least: usize },
}

/// The arguments of `rolling`, or those of `expanding`.
#[derive(Clone, Copy)]
pub enum WindowsTold<'a> {
    /// Those of `rolling`.
    Rolling(&'a [Named]),
    /// Those of `expanding`.
    Expanding(&'a [Named]),
}

// The name that the arguments are of.
pub(crate) fn name_of(told: WindowsTold<'_>) -> &'static str
    ensures { result.now ≡ told_name told.entry }
{
    match told {
        WindowsTold::Rolling(_) => "rolling",
        WindowsTold::Expanding(_) => "expanding",
    }
}

// Windows of so many rows, one at least, of which no more than all must be present.
fn rolling_of(rows: i64, least: i64) -> Result<Windows, OpFault>
    ensures answer { (texts : List Text) → MakesBy windows_seen texts result
        (meant.rolling_of rows least) }
    ensures some { IfOk result AreSome }
{
    if rows < 1 || least < 0 || least > rows {
        return Err(OpFault::Refused(Code::BadValue(Reason::Argument)));
    }
    Ok(Windows::Rolling {
        rows: rows as usize,
        least: least as usize,
    })
}

// Windows of all rows up to each.
fn expanding_of(least: i64) -> Result<Windows, OpFault>
    ensures answer { (texts : List Text) → MakesBy windows_seen texts result
        (meant.expanding_of least) }
    ensures some { IfOk result AreSome }
{
    if least < 0 {
        return Err(OpFault::Refused(Code::BadValue(Reason::Argument)));
    }
    Ok(Windows::Expanding {
        least: least as usize,
    })
}

// The whole number that an argument is, or another one where it isn't given.
fn whole_or(cell: Option<Cell>, other: i64) -> i64
    ensures { (texts : List Text) → result
        ≡ unwrap_or (whole_of (option_map (datum texts) cell)) other }
{
    match cell {
        Some(Cell::Int(number)) => number,
        _ => other,
    }
}

// What the arguments of `rolling` say.
fn rolling_windows(store: &Store, dict: &TextDict, args: &[Named]) -> Result<Windows, OpFault>
    requires { AreKnownArguments (world store.now dict.now) args.now }
    ensures answer { MakesBy windows_seen dict.now result
        (meant.rolling_windows (arguments_in (world store.now dict.now) args.now)) }
    ensures some { IfOk result AreSome }
{
    let parameters = parameters(Method::Other(OtherMethod::Rolling));
    let bound = bind(store, dict, parameters, args)?;
    let rows = bound.whole(arguments::ROLLING_WINDOW);
    rolling_of(
        rows,
        whole_or(bound.scalar_or_none(arguments::ROLLING_MIN_PERIODS), rows),
    )
}

// What the arguments of `expanding` say.
fn expanding_windows(store: &Store, dict: &TextDict, args: &[Named]) -> Result<Windows, OpFault>
    requires { AreKnownArguments (world store.now dict.now) args.now }
    ensures answer { MakesBy windows_seen dict.now result
        (meant.expanding_windows (arguments_in (world store.now dict.now) args.now)) }
    ensures some { IfOk result AreSome }
{
    let parameters = parameters(Method::Other(OtherMethod::Expanding));
    let bound = bind(store, dict, parameters, args)?;
    expanding_of(bound.whole(arguments::EXPANDING_MIN_PERIODS))
}

// What the arguments say.
pub(crate) fn windows_told(
    store: &Store,
    dict: &TextDict,
    told: WindowsTold<'_>,
) -> Result<Windows, OpFault>
    requires { AreKnownArguments (world store.now dict.now) (told_of told) }
    ensures answer { MakesBy windows_seen dict.now result
        (windows_meant (world store.now dict.now) told.entry) }
    ensures some { IfOk result AreSome }
{
    match told {
        WindowsTold::Rolling(args) => rolling_windows(store, dict, args),
        WindowsTold::Expanding(args) => expanding_windows(store, dict, args),
    }
}
