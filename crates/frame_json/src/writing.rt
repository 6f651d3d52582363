// Frames as JSON text.
ghost use Rattle.std.specs.Prelude.{◌≡◌, length, IfOk, IsSome};
ghost use Rattle.cell_core.specs.declared.grid.Shape.TheVariants.{Frame};
ghost use Rattle.column_core.specs.cells.Cell.{IsGiven, IsLonger};
ghost use Rattle.multi_index.specs.Axes.{HaveLevels};
ghost use Rattle.frame_store.specs.tables.Settled.{IsSettled};
ghost use Rattle.frame_store.specs.tables.Table.{table_value};
ghost use Rattle.frame_store.specs.tables.Valid.{IsWhole};
ghost use Rattle.frame_store.specs.Objects.{tables, table_at};
ghost use Rattle.frame_store.specs.World.{world, IsSettledWorld};
ghost use Rattle.frame_parts.specs.Makes.{MakesBy};
ghost use Rattle.meaning_json_calls.specs.JsonCalls.{to_json_result};
ghost use Rattle.frame_json.specs.Frames as meant;
ghost use Rattle.frame_json.specs.Frames.{cell_entry};

use cell_core::{Cell, Code, Reason, TextDict};
use frame_store::{ObjId, ObjRef, OpFault, Store};
use json_frames::{Orient, TextRefusal, json_text};
use std::alloc::Global;

// Why a frame has no text, as the refusal of a call.
fn refusal_of(refusal: TextRefusal) -> OpFault
    ensures { result ≡ meant.text_refusal refusal }
{
    match refusal {
        TextRefusal::Repeated(label) => OpFault::Refused(Code::BadValue(Reason::Repeated(label))),
        TextRefusal::ManyLevels => OpFault::Refused(Code::BadValue(Reason::Levels)),
        TextRefusal::NoMemory => OpFault::NoMemory,
    }
}

// The JSON text of a frame as a cell, or the refusal.
fn json_cell(
    alloc: Global,
    dict: &mut TextDict,
    on: &ObjRef<'_>,
    orient: Orient,
) -> Result<Cell, OpFault>
    requires frame { on.now.shape ≡ Frame }
    requires whole { IsWhole on.now }
    requires levels { HaveLevels (length on.now.level_names) on.now.labels }
    requires settled { IsSettled table_value dict.old on.now }
    ensures longer { IsLonger dict.old dict.new }
    ensures given { IfOk result (IsGiven dict.new) }
    ensures answer { MakesBy cell_entry dict.new result
        (to_json_result orient (table_value dict.old on.now)) }
{
    match json_text(alloc, dict, on, orient) {
        Ok(text) => Ok(Cell::Text(dict.intern(text.as_str())?)),
        Err(refusal) => Err(refusal_of(refusal)),
    }
}

/// What `to_json` answers for a frame: its JSON text, as [`json_frames::json_text`] writes it, which gets a number from
/// `dict`. All texts of the store's tables were given theirs.
///
/// # Errors
///
/// `BadValue(Repeated)` with `Records`, of the first label whose text is also that of a later column;
/// `BadValue(Levels)` with `Split`, where the rows' labels have more than one level. `NoMemory` may come in place of any
/// answer.
pub fn to_json(
    alloc: Global,
    store: &Store,
    dict: &mut TextDict,
    orient: Orient,
    on: ObjId,
) -> Result<Cell, OpFault>
    requires live { IsSome (tables store.now on.0) }
    requires frame { (table_at (tables store.now) on.0).shape ≡ Frame }
    requires settled { IsSettledWorld (world store.now dict.old) }
    ensures longer { IsLonger dict.old dict.new }
    ensures given { IfOk result (IsGiven dict.new) }
    ensures answer { MakesBy cell_entry dict.new result
        (to_json_result orient (table_value dict.old (table_at (tables store.now) on.0))) }
{
    let table = store.read(on);
    json_cell(alloc, dict, &table, orient)
}
