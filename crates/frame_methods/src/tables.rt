// Tables whose columns are made one by one.
ghost use Rattle.std.specs.Prelude.{IsSome};
ghost use Rattle.column_core.specs.cells.Cell.{IsLonger};
ghost use Rattle.frame_store.specs.tables.Table.{table_value};
ghost use Rattle.frame_labels.specs.method.Methods as meant;
ghost use Rattle.frame_store.specs.Shown.{cells_value, Makes};
ghost use Rattle.frame_store.specs.Objects.{tables, table_at};
ghost use Rattle.frame_store.specs.World.{world, IsKnownTable, IsSettledWorld, Forms};
ghost use Rattle.frame_methods.specs.Columns.{EachGiven};

use crate::columns::{ColumnOp, each_column};
use cell_core::{Code, Grid, TextDict};
use frame_parts::{refusal_of, within_limits};
use frame_store::{ObjId, ObjRef, OpFault, Store, Table, Value, headings_of, placed, table_under};
use std::alloc::Global;

// The table with what is made of each column in its place, or the first fault.
pub(crate) fn columns_table<O: ColumnOp>(
    alloc: Global,
    dict: &mut TextDict,
    op: &O,
    on: &ObjRef<'_>,
) -> Result<Table, OpFault>
    requires own { EachGiven dict.old (O.held op.now) }
    requires known { IsKnownTable dict.old on.now }
    ensures longer { IsLonger dict.old dict.new }
    ensures answer { Makes dict.new result
        (meant.each_column (O.answer op.now (cells_value dict.old (O.held op.now)))
        (table_value dict.old on.now)) }
{
    let columns = match each_column(alloc, dict, op, on) {
        Ok(columns) => columns,
        Err(fault) => return Err(refusal_of(fault)),
    };
    if !within_limits(on.rows(), columns.len()) {
        return Err(OpFault::Refused(Code::Limit));
    }
    let headings = headings_of(alloc, on)?;
    Ok(table_under(alloc, on, headings, columns)?)
}

/// A new object: the table with what an operation makes of each column in its place.
///
/// The first column's refusal, and `Limit`. `NoMemory` may come in place of any answer.
pub fn columns_placed<O: ColumnOp>(
    alloc: Global,
    store: &mut Store,
    dict: &mut TextDict,
    op: &O,
    on: ObjId,
) -> Result<Value, OpFault>
    requires live { IsSome (tables store.old on.0) }
    requires own { EachGiven dict.old (O.held op.now) }
    requires settled { IsSettledWorld (world store.old dict.old) }
    ensures { Forms result (meant.each_column (O.answer op.now (cells_value dict.old (O.held op.now)))
        (table_value dict.old (table_at (tables store.old) on.0)))
        (world store.old dict.old) (world store.new dict.new) }
{
    let table = columns_table(alloc, dict, op, &store.read(on));
    placed(store, dict, table)
}
