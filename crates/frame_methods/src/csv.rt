// Tables as CSV text.
ghost use Rattle.std.specs.Prelude.{◌≡◌, ◌<◌, length, false, IfOk, IsSome};
ghost use Rattle.column_core.specs.cells.Cell.{IsGiven, IsLonger, datum, text_cell};
ghost use Rattle.frame_store.specs.tables.Table.{table_value};
ghost use Rattle.frame_store.specs.tables.Valid.{IsWhole};
ghost use Rattle.frame_store.specs.tables.Settled.{IsSettled};
ghost use Rattle.multi_index.specs.Axes.{HaveLevels};
ghost use Rattle.frame_labels.specs.format.CsvWrite.{csv_text_of};
ghost use Rattle.frame_labels.specs.method.Methods.{csv_answer};
ghost use Rattle.frame_parts.specs.Makes.{MakesBy};
ghost use Rattle.frame_store.specs.Objects.{tables, table_at};
ghost use Rattle.frame_methods.specs.Made.{made_value};

use crate::made::Made;
use cell_core::{Cell, Code, Grid, NoMemory, Reason, TextDict};
use frame_format::csv_text;
use frame_store::{ObjId, ObjRef, OpFault, Store};
use std::alloc::Global;

// The CSV text of a table as a cell, with the labels of the rows or without them.
#[tactic(auto, using(crate::proofs::CsvLaws::csv_seen))]
fn csv_cell(
    alloc: Global,
    dict: &mut TextDict,
    on: &ObjRef<'_>,
    index: bool,
) -> Result<Cell, NoMemory>
    requires whole { IsWhole on.now }
    requires levels { HaveLevels (length on.now.level_names) on.now.labels }
    requires columns { index ≡ false → 0 < length on.now.columns }
    ensures longer { IsLonger dict.old dict.new }
    ensures given { IfOk result (IsGiven dict.new) }
    ensures text { IfOk result (λ c.
        datum dict.new c ≡ text_cell (csv_text_of index (table_value dict.old on.now))) }
{
    let text = csv_text(alloc, dict, on, index)?;
    Ok(Cell::Text(dict.intern(text.as_str())?))
}

// The table as CSV text; without the labels of the rows there must be a column.
#[tactic(auto, using(crate::proofs::Hints::to_csv))]
pub(crate) fn to_csv(
    alloc: Global,
    store: &Store,
    dict: &mut TextDict,
    index: bool,
    on: ObjId,
) -> Result<Made, OpFault>
    requires { IsSome (tables store.now on.0) }
    ensures longer { IsLonger dict.old dict.new }
    ensures settled { IfOk result (IsSettled made_value dict.new) }
    ensures answer { MakesBy made_value dict.new result
        (csv_answer index (table_value dict.old (table_at (tables store.now) on.0))) }
{
    let table = store.read(on);
    if !index && table.columns() == 0 {
        return Err(OpFault::Refused(Code::BadValue(Reason::NoColumns)));
    }
    Ok(Made::Scalar(csv_cell(alloc, dict, &table, index)?))
}
