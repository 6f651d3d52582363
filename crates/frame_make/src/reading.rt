// What `pd.read_csv` makes of a file.
ghost use Rattle.std.specs.Prelude.{◌≡◌};
ghost use Rattle.column_core.specs.cells.Cell.{IsLonger};
ghost use Rattle.meaning_method.specs.csv.CsvRead.{columns_of_file};
ghost use Rattle.csv_frames.specs.Views.{entries_seen};
ghost use Rattle.meaning_method.specs.Readers as readers;
ghost use Rattle.frame_store.specs.Objects.{tables};
ghost use Rattle.frame_store.specs.Arguments.{AreLive};
ghost use Rattle.frame_store.specs.Shown.{Makes};
ghost use Rattle.frame_store.specs.World.{world, arguments_in};
ghost use Rattle.frame_make.specs.Frames as meant;

use crate::file_frames::frame_of;
use crate::kinds::kinds_given;
use cell_core::{Code, Reason, TextDict};
use csv_frames::{CsvFault, NamedKinds, read_csv};
use frame_signatures::{arguments, bind, function_parameters};
use frame_store::{Named, OpFault, Store, Table};
use meaning_call::Function;
use std::alloc::Global;

// Why a file isn't read, as the refusal of a call.
fn refusal_of(fault: CsvFault) -> OpFault
    ensures { result ≡ meant.refusal_of fault }
{
    match fault {
        CsvFault::NotUtf8(place) => OpFault::Refused(Code::NotUtf8(place)),
        CsvFault::NoColumn => OpFault::Refused(Code::NoRecords),
        CsvFault::LongRow(number, expected, seen) => {
            OpFault::Refused(Code::LongRow(number, expected, seen))
        }
        CsvFault::NotCast => OpFault::Refused(Code::BadValue(Reason::Cast)),
        CsvFault::TooLarge => OpFault::Refused(Code::Limit),
        CsvFault::NoMemory => OpFault::NoMemory,
    }
}

// The frame of a file with these bytes.
pub(crate) fn frame_of_file(
    alloc: Global,
    dict: &mut TextDict,
    bytes: &[u8],
    kinds: &NamedKinds,
) -> Result<Table, OpFault>
    ensures longer { IsLonger dict.old dict.new }
    ensures answer { Makes dict.new result (readers.frame_or_fault
        (columns_of_file bytes.now (entries_seen dict.old kinds.now))) }
{
    match read_csv(alloc, dict, bytes, kinds) {
        Ok(read) => Ok(frame_of(alloc, read)?),
        Err(fault) => Err(refusal_of(fault)),
    }
}

/// What `pd.read_csv` makes of its arguments and of the bytes of the file. All that the arguments hold was given a
/// number by `dict`; each text of the file gets one.
///
/// `pd.read_csv(name, dtype_backend="numpy_nullable", dtype=None)` is the frame of the file's columns,
/// as [`csv_frames::read_csv`] reads them, and the labels of its rows are 0, 1 and so on. `dtype` is a
/// dict from labels to names of kinds; a label that no column has is passed over, and of one that
/// stands twice the last kind counts.
///
/// # Errors
///
/// In this order: `WrongKind` or `BadValue(Argument)` where the arguments aren't bound; `Limit` for more than 2^28
/// bytes; `NotUtf8` for bytes that aren't UTF-8 text; `NoRecords` where there is no record; `LongRow` for the first
/// record that is longer than the header; `BadValue(Cast)` where a field isn't of the kind that is named for its
/// column; `Limit` for a table beyond the limits. `NoMemory` may come in place of any answer.
pub fn read_frame(
    alloc: Global,
    store: &Store,
    dict: &mut TextDict,
    args: &[Named],
    bytes: &[u8],
) -> Result<Table, OpFault>
    requires { AreLive (tables store.now) args.now }
    ensures longer { IsLonger dict.old dict.new }
    ensures answer { Makes dict.new result
        (readers.read_result bytes.now (arguments_in (world store.now dict.old) args.now)) }
{
    let bound = bind(store, dict, function_parameters(Function::ReadCsv), args)?;
    let kinds = kinds_given(alloc, dict, bound.dict_or_none(arguments::READ_CSV_DTYPE))?;
    frame_of_file(alloc, dict, bytes, &kinds)
}
