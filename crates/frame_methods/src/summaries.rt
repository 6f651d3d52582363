// What is made of all cells of a column.
ghost use Rattle.std.specs.Prelude.{◌≡◌, List, length, true, IfOk};
ghost use Rattle.column_core.specs.cells.Text.{Text as OneText};
ghost use Rattle.column_core.specs.cells.Cell.{AreGiven, IsGiven, datum, holds};
ghost use Rattle.frame_store.specs.tables.Table.{table_value};
ghost use Rattle.frame_store.specs.tables.Settled.{IsSettled};
ghost use Rattle.frame_parts.specs.form.Finish.{try_all};
ghost use Rattle.frame_labels.specs.method.Methods as meant;
ghost use Rattle.frame_parts.specs.Makes.{column_seen, MakesBy};
ghost use Rattle.cell_core.specs.declared.grid.Shape.TheVariants.{Frame};
ghost use Rattle.frame_store.specs.Shown.{columns_value, Makes};
ghost use Rattle.frame_store.specs.World.{IsKnownTable};
ghost use Rattle.frame_methods.specs.Made.{made_value};
ghost use Rattle.frame_methods.specs.Summaries.{summary_value, counted_cell, column_cells};

use crate::made::Made;
use cell_core::{Cell, Code, Grid, Kind, Shape, TextDict};
use column_core::{ColRef, Column};
use frame_labels::columns_axis;
use frame_parts::{refusal_of, within_limits};
use frame_store::{ObjRef, OpFault, Table, series_table};
use meaning_call::SummaryMethod;
use nullable_array::{Reduction, distinct, reduce};
use std::alloc::Global;

// A reduction, or the number of different cells.
#[derive(Clone, Copy)]
pub(crate) enum Summary {
    Reduced(Reduction),
    Distinct,
}

// The summary that a method makes.
pub(crate) fn summary_of(method: SummaryMethod) -> Summary
    ensures { summary_value result ≡ meant.summary_of_method method }
{
    match method {
        SummaryMethod::Sum => Summary::Reduced(Reduction::Sum),
        SummaryMethod::Min => Summary::Reduced(Reduction::Min),
        SummaryMethod::Max => Summary::Reduced(Reduction::Max),
        SummaryMethod::Any => Summary::Reduced(Reduction::Any),
        SummaryMethod::All => Summary::Reduced(Reduction::All),
        SummaryMethod::Count => Summary::Reduced(Reduction::Count),
        SummaryMethod::Nunique => Summary::Distinct,
    }
}

// The kind of a summary of a column of the kind.
pub(crate) fn summary_kind(op: Summary, kind: Kind) -> Kind
    ensures { result ≡ meant.summary_kind (summary_value op) kind }
{
    match op {
        Summary::Reduced(Reduction::Sum) => Kind::Int64,
        Summary::Reduced(Reduction::Min) => kind,
        Summary::Reduced(Reduction::Max) => kind,
        Summary::Reduced(Reduction::Any) => Kind::Boolean,
        Summary::Reduced(Reduction::All) => Kind::Boolean,
        Summary::Reduced(Reduction::Count) => Kind::Int64,
        Summary::Distinct => Kind::Int64,
    }
}

// The number of different cells, which wraps at 64 bits.
fn count_cell(count: u64) -> Cell
    ensures { result ≡ counted_cell count }
{
    Cell::Int(count.cast_signed())
}

// The summary of a column.
pub(crate) fn summary_cell(
    alloc: Global,
    dict: &TextDict,
    op: Summary,
    a: ColRef<'_>,
) -> Result<Cell, OpFault>
    requires { AreGiven dict.now a.cells }
    ensures given { IfOk result (IsGiven dict.now) }
    ensures held { IfOk result (λ c. (texts : List OneText)
        → holds (meant.summary_kind (summary_value op) a.entry.kind) (datum texts c) ≡ true) }
    ensures answer { MakesBy datum dict.now result
        (meant.summary_cell (summary_value op) (column_seen dict.now a.entry)) }
{
    match op {
        Summary::Reduced(op) => match reduce(dict, op, a) {
            Ok(cell) => Ok(cell),
            Err(fault) => Err(refusal_of(fault)),
        },
        Summary::Distinct => {
            let _ = dict.len();
            Ok(count_cell(distinct(alloc, a)?))
        }
    }
}

// The summary of a column, which must be of the kind.
fn summary_as(
    alloc: Global,
    dict: &TextDict,
    op: Summary,
    kind: Kind,
    a: ColRef<'_>,
) -> Result<Cell, OpFault>
    requires { AreGiven dict.now a.cells }
    ensures given { IfOk result (IsGiven dict.now) }
    ensures held { IfOk result (λ c. (texts : List OneText) → holds kind (datum texts c) ≡ true) }
    ensures answer { MakesBy datum dict.now result
        (meant.summary_as (summary_value op) kind (column_seen dict.now a.entry)) }
{
    if summary_kind(op, a.kind()) != kind {
        return Err(OpFault::Refused(Code::WrongKind));
    }
    summary_cell(alloc, dict, op, a)
}

// The summaries of the columns, as a column.
pub(crate) fn summary_column(
    alloc: Global,
    dict: &TextDict,
    op: Summary,
    kind: Kind,
    on: &ObjRef<'_>,
) -> Result<Column, OpFault>
    requires settled { IsSettled table_value dict.now on.now }
    ensures kind { IfOk result (λ c. c.kind ≡ kind) }
    ensures given { IfOk result (λ c. AreGiven dict.now c.cells) }
    ensures rows { IfOk result (λ c. length c.cells ≡ length on.now.columns) }
    ensures answer { MakesBy column_cells dict.now result
        (try_all (meant.summary_as (summary_value op) kind)
        (columns_value dict.now on.now.columns)) }
{
    let mut made = Column::new(alloc, kind);
    for place in 0..on.columns() {
        made.push(summary_as(alloc, dict, op, kind, on.column(place))?)?;
    }
    Ok(made)
}

// The kind of the summaries of a frame's columns: that of the first one's.
fn kind_for(op: Summary, on: &ObjRef<'_>) -> Kind
    ensures { (texts : List OneText)
        → result ≡ meant.kind_for (summary_value op) (columns_value texts on.now.columns) }
{
    if on.columns() == 0 {
        return summary_kind(op, Kind::Int64);
    }
    summary_kind(op, on.kind(0))
}

// The Series of a frame's summaries, over the labels of its columns.
fn frame_summary(
    alloc: Global,
    dict: &TextDict,
    op: Summary,
    on: &ObjRef<'_>,
) -> Result<Table, OpFault>
    requires { IsKnownTable dict.now on.now }
    ensures { Makes dict.now result
        (meant.summary_of Frame (summary_value op) (table_value dict.now on.now)) }
{
    let kind = kind_for(op, on);
    let cells = summary_column(alloc, dict, op, kind, on)?;
    if !within_limits(on.columns(), 1) {
        return Err(OpFault::Refused(Code::Limit));
    }
    let axis = columns_axis(alloc, dict, on)?;
    Ok(series_table(alloc, axis, None, cells)?)
}

// The summary of a Series, or the summaries of a frame.
pub(crate) fn summarize(
    alloc: Global,
    dict: &TextDict,
    op: Summary,
    on: &ObjRef<'_>,
) -> Result<Made, OpFault>
    requires { IsKnownTable dict.now on.now }
    ensures settled { IfOk result (IsSettled made_value dict.now) }
    ensures answer { MakesBy made_value dict.now result
        (meant.summary (summary_value op) (table_value dict.now on.now)) }
{
    match on.shape() {
        Shape::Series => Ok(Made::Scalar(summary_cell(alloc, dict, op, on.column(0))?)),
        Shape::Frame => Ok(Made::Table(frame_summary(alloc, dict, op, on)?)),
    }
}
