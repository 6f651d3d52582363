// What a constructor makes of its arguments.
ghost use Rattle.column_core.specs.cells.Cell.{IsLonger};
ghost use Rattle.meaning_call.specs.Functions.{series_call, frame_call};
ghost use Rattle.frame_store.specs.Shown.{Makes};
ghost use Rattle.frame_store.specs.World.{world, arguments_in, AreKnownArguments};

use crate::frames::frame_of;
use crate::series::series_of;
use cell_core::TextDict;
use frame_parts::name_of;
use frame_signatures::{arguments, bind, function_parameters};
use frame_store::{Named, OpFault, Store, Table};
use meaning_call::Function;
use std::alloc::Global;

/// What `pd.Series` makes of its arguments; `dict` gave numbers to all texts that they hold.
///
/// `pd.Series(values, index=None, name=None, dtype=None)`, as in the pandas API reference. Its kind is that of the
/// scalars that are present, `Int64` where none is, or the `dtype`; its labels are those of the index, or 0, 1 and so
/// on. An index is a list of scalars, or of tuples of two scalars or more, all as long as the first, which give as many
/// levels ("MultiIndex / advanced indexing" in the pandas user guide).
///
/// # Errors
///
/// In this order: `WrongKind` or `BadValue(Argument)` where the arguments aren't bound; `WrongKind` for scalars of
/// different kinds; `BadValue(Cast)` where one can't be cast to the `dtype`; `BadValue(Length)` for an index of another
/// length; `Limit`, also of labels of more than four levels. `NoMemory` may come in place of any answer.
pub fn made_series(
    alloc: Global,
    store: &Store,
    dict: &mut TextDict,
    args: &[Named],
) -> Result<Table, OpFault>
    requires { AreKnownArguments (world store.now dict.old) args.now }
    ensures longer { IsLonger dict.old dict.new }
    ensures answer { Makes dict.new result
        (series_call (arguments_in (world store.now dict.old) args.now)) }
{
    let parameters = function_parameters(Function::Series);
    let bound = bind(store, dict, parameters, args)?;
    let values = bound.list(arguments::SERIES_VALUES);
    let index = bound.list_or_none(arguments::SERIES_INDEX);
    let name = name_of(bound.scalar_or_none(arguments::SERIES_NAME));
    let kind = bound.kind_or_none(dict, arguments::SERIES_DTYPE);
    series_of(alloc, dict, values, index, name, kind)
}

/// What `pd.DataFrame` makes of its arguments; `dict` gave numbers to all texts that they hold.
///
/// `pd.DataFrame(columns, index=None)`, of a dict from labels to lists, as in "From dict of ndarrays / lists" of the
/// pandas user guide. A key that is given twice keeps its first place and its last value. Each column's kind is found
/// as that of a Series; without columns the rows are those of the index, and none where it isn't given.
///
/// # Errors
///
/// In this order: `WrongKind` or `BadValue(Argument)` where the arguments aren't bound; `WrongKind` for a value of the
/// dict that isn't a list of scalars, and for scalars of different kinds in one list; `BadValue(Length)` for a column
/// that isn't as long as the first, then for an index of another length; `Limit`, also of labels of more than four
/// levels. `NoMemory` may come in place of any answer.
pub fn made_frame(
    alloc: Global,
    store: &Store,
    dict: &TextDict,
    args: &[Named],
) -> Result<Table, OpFault>
    requires { AreKnownArguments (world store.now dict.now) args.now }
    ensures { Makes dict.now result
        (frame_call (arguments_in (world store.now dict.now) args.now)) }
{
    let parameters = function_parameters(Function::DataFrame);
    let bound = bind(store, dict, parameters, args)?;
    let columns = bound.dict(arguments::DATA_FRAME_COLUMNS);
    frame_of(
        alloc,
        dict,
        columns,
        bound.list_or_none(arguments::DATA_FRAME_INDEX),
    )
}
