// Files of JSON as frames.
ghost use Rattle.std.specs.Prelude.{◌≡◌, IfOk};
ghost use Rattle.column_core.specs.cells.Cell.{IsLonger};
ghost use Rattle.frame_store.specs.Shown.{Makes};
ghost use Rattle.meaning_json_calls.specs.JsonCalls.{read_json_result};
ghost use Rattle.frame_json.specs.Frames.{PartsFit};
ghost use Rattle.frame_json.specs.Frames as meant;

use cell_core::{Code, NoMemory, Reason, Shape, TextDict};
use frame_make::{blocks_of, headings_of};
use frame_store::{OpFault, Table};
use json_frames::{JsonFault, JsonTable, Orient, json_table};
use multi_index::Axis;
use std::alloc::Global;

// Why a file isn't read, as the refusal of a call.
fn refusal_of(fault: JsonFault) -> OpFault
    ensures { result ≡ meant.file_refusal fault }
{
    match fault {
        JsonFault::NotUtf8(place) => OpFault::Refused(Code::NotUtf8(place)),
        JsonFault::NotJson => OpFault::Refused(Code::BadValue(Reason::NotJson)),
        JsonFault::NotTable => OpFault::Refused(Code::BadValue(Reason::NotTable)),
        JsonFault::MixedKinds => OpFault::Refused(Code::WrongKind),
        JsonFault::TooLarge => OpFault::Refused(Code::Limit),
        JsonFault::NoMemory => OpFault::NoMemory,
    }
}

// The frame of the columns that were read, with their labels.
fn frame_of(alloc: Global, dict: &TextDict, read: JsonTable) -> Result<Table, NoMemory>
    requires { PartsFit read }
    ensures { IfOk result (λ made. made ≡ meant.frame_of read) }
{
    let axis = Axis::from_tuples(alloc, dict, &read.rows, 1)?;
    let headings = headings_of(alloc, &read.labels)?;
    let columns = blocks_of(alloc, read.columns)?;
    Ok(Table::new(Shape::Frame, axis, headings, columns))
}

/// What `pd.read_json` makes of the bytes of a file: the frame of its columns and labels, as
/// [`json_frames::json_table`] reads them. Neither its columns nor the level of its rows have a name. Each text of the
/// file gets a number from `dict`.
///
/// # Errors
///
/// In this order: `Limit` for more than 2^28 bytes; `NotUtf8` for bytes that aren't UTF-8 text; `BadValue(NotJson)` for
/// a text that isn't JSON; `BadValue(NotTable)` for a value that isn't of the orient's form; `WrongKind` where a column
/// has cells of two kinds; `Limit` for a table beyond the limits. `NoMemory` may come in place of any answer.
pub fn read_json(
    alloc: Global,
    dict: &mut TextDict,
    bytes: &[u8],
    orient: Orient,
) -> Result<Table, OpFault>
    ensures longer { IsLonger dict.old dict.new }
    ensures answer { Makes dict.new result (read_json_result orient bytes.now) }
{
    match json_table(alloc, dict, bytes, orient) {
        Ok(read) => Ok(frame_of(alloc, dict, read)?),
        Err(fault) => Err(refusal_of(fault)),
    }
}
