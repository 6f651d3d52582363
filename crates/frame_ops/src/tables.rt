// The tables that an operator makes.
ghost use Rattle.std.specs.Prelude.{◌≡◌, List, Result, Ok, OnOk, false, length};
ghost use Rattle.cell_core.specs.declared.grid.Shape.TheVariants.{Series as one_column, Frame as columns};
ghost use Rattle.column_core.specs.cells.Text.{Text};
ghost use Rattle.column_core.specs.cells.Cell.{IsGiven, IsLonger, datum};
ghost use Rattle.column_core.specs.cells.Fault.{FaultValue, then_value};
ghost use Rattle.multi_index.specs.Axes.{HaveLevels};
ghost use Rattle.column_operators.specs.Tasks.{operator_of};
ghost use Rattle.frame_store.specs.tables.Table.{table_value};
ghost use Rattle.frame_store.specs.tables.Value as value;
ghost use Rattle.frame_store.specs.tables.Value.{Entry};
ghost use Rattle.frame_parts.specs.form.Finish.{with_columns};
ghost use Rattle.frame_parts.specs.form.Infix as meant;
ghost use Rattle.frame_parts.specs.form.Infix.{same_tuples, spread_series};
ghost use Rattle.frame_store.specs.Shown.{Makes, labels_value};
ghost use Rattle.frame_store.specs.World.{IsKnownTable};
ghost use Rattle.frame_parts.specs.Makes.{Passes};
ghost use Rattle.frame_ops.specs.Fitting.{unequal_after, MayWiden};
ghost use Rattle.frame_ops.specs.Joining.{joined_after, MayJoin};
ghost use Rattle.frame_ops.specs.Pairs.{columns_for, IsOpposite, IsGivenOther};
ghost use Rattle.frame_ops.specs.Namings.{named_by, IsNaming, IsSettledNaming};

use crate::columns::infix_columns;
use crate::fitting::frames_fit;
use crate::headings::{are_headings, expect_different, same_headings};
use crate::joining::joined_infix;
use crate::kinds::{columns_fit, compares, takes_each};
use crate::naming::{Naming, headings_by};
use crate::other::Other;
use crate::spreading::{labels_fit, spread_frame};
use crate::widening::{joined_labels, widened};
use cell_core::{Cell, Code, Grid, Reason, Shape, TextDict};
use column_operators::Operator;
use frame_parts::{common_name, same_rows, within_limits};
use frame_store::{ObjRef, OpFault, Table, table_under};
use std::alloc::Global;

// The table of what the operator makes of each column and what it meets.
fn table_met(
    alloc: Global,
    dict: &mut TextDict,
    op: Operator,
    on: &ObjRef<'_>,
    other: &Other<'_>,
    naming: Naming,
) -> Result<Table, OpFault>
    requires known { IsKnownTable dict.old on.now }
    requires opposite { IsOpposite on.now other.now }
    requires other { IsGivenOther dict.old other.now }
    requires naming { IsNaming on.now naming }
    requires name { IsSettledNaming dict.old naming }
    ensures longer { IsLonger dict.old dict.new }
    ensures makes { Makes dict.new result (then_value
        (columns_for (operator_of op) dict.old on.now other.now)
        (λ columns. Ok (value.table
        (with_columns (table_value dict.old (named_by on.now naming)) columns)))) }
{
    let blocks = infix_columns(alloc, dict, op, on, other)?;
    let headings = headings_by(alloc, on, naming)?;
    Ok(table_under(alloc, on, headings, blocks)?)
}

/// The operator on each column of a table and a scalar, which stands on the left where this is so.
pub(crate) fn scalar_infix(
    alloc: Global,
    dict: &mut TextDict,
    op: Operator,
    on: &ObjRef<'_>,
    cell: Cell,
    left: bool,
) -> Result<Table, OpFault>
    requires known { IsKnownTable dict.old on.now }
    requires cell { IsGiven dict.old cell }
    ensures longer { IsLonger dict.old dict.new }
    ensures makes { Makes dict.new result (meant.scalar_infix (operator_of op) left
        (table_value dict.old on.now) (datum dict.old cell)) }
{
    table_met(
        alloc,
        dict,
        op,
        on,
        &Other::Scalar(cell, left),
        Naming::Kept,
    )
}

// Tests what tables of other labels must have: columns that the operator takes, and as many levels. None are compared.
#[tactic(auto, using(crate::proofs::Hints::expect_joined))]
fn expect_joined(op: Operator, a: &ObjRef<'_>, b: &ObjRef<'_>) -> Result<(), OpFault>
    requires { length b.now.columns ≡ length a.now.columns }
    ensures fit { OnOk result (MayJoin (operator_of op) a.now b.now) }
    ensures passes { (texts : List Text) (rest : Result Entry FaultValue)
        → Passes texts result rest (joined_after (operator_of op)
        (table_value texts a.now) (table_value texts b.now) rest) }
{
    if !columns_fit(op, a, b) {
        return Err(OpFault::Refused(Code::WrongKind));
    }
    if a.levels() != b.levels() {
        return Err(OpFault::Refused(Code::BadValue(Reason::Levels)));
    }
    if compares(op) {
        return Err(OpFault::Refused(Code::BadValue(Reason::NotAligned)));
    }
    Ok(())
}

// Two tables whose columns meet in order and whose rows have other labels.
fn unequal_infix(
    alloc: Global,
    dict: &mut TextDict,
    op: Operator,
    a: &ObjRef<'_>,
    b: &ObjRef<'_>,
    naming: Naming,
) -> Result<Table, OpFault>
    requires known_a { IsKnownTable dict.old a.now }
    requires known_b { IsKnownTable dict.old b.now }
    requires columns { length b.now.columns ≡ length a.now.columns }
    requires unequal { same_tuples (labels_value dict.old a.now.labels)
        (labels_value dict.old b.now.labels) ≡ false }
    requires naming { IsNaming a.now naming }
    requires name { IsSettledNaming dict.old naming }
    ensures longer { IsLonger dict.old dict.new }
    ensures makes { Makes dict.new result (meant.rows_infix (operator_of op)
        (table_value dict.old a.now) (table_value dict.old b.now)
        (table_value dict.old (named_by a.now naming))) }
{
    expect_joined(op, a, b)?;
    joined_infix(alloc, dict, op, a, b, naming)
}

// Two tables whose columns meet in order.
fn rows_infix(
    alloc: Global,
    dict: &mut TextDict,
    op: Operator,
    a: &ObjRef<'_>,
    b: ObjRef<'_>,
    naming: Naming,
) -> Result<Table, OpFault>
    requires known_a { IsKnownTable dict.old a.now }
    requires known_b { IsKnownTable dict.old b }
    requires columns { length b.columns ≡ length a.now.columns }
    requires naming { IsNaming a.now naming }
    requires name { IsSettledNaming dict.old naming }
    ensures longer { IsLonger dict.old dict.new }
    ensures makes { Makes dict.new result (meant.rows_infix (operator_of op)
        (table_value dict.old a.now) (table_value dict.old b.entry)
        (table_value dict.old (named_by a.now naming))) }
{
    if !same_rows(dict, a.axis(), b.axis()) {
        return unequal_infix(alloc, dict, op, a, &b, naming);
    }
    table_met(alloc, dict, op, a, &Other::Beside(b), naming)
}

// Two Series. The name of both stays.
fn series_infix(
    alloc: Global,
    dict: &mut TextDict,
    op: Operator,
    a: &ObjRef<'_>,
    b: ObjRef<'_>,
) -> Result<Table, OpFault>
    requires known_a { IsKnownTable dict.old a.now }
    requires known_b { IsKnownTable dict.old b }
    requires series_a { a.now.shape ≡ one_column }
    requires series_b { b.shape ≡ one_column }
    ensures longer { IsLonger dict.old dict.new }
    ensures makes { Makes dict.new result (meant.series_infix (operator_of op)
        (table_value dict.old a.now) (table_value dict.old b.entry)) }
{
    let name = common_name(dict, a.heading(0), b.heading(0));
    rows_infix(alloc, dict, op, a, b, Naming::Name(name))
}

// Two frames whose columns meet in order. The name of the columns of both stays.
fn common_infix(
    alloc: Global,
    dict: &mut TextDict,
    op: Operator,
    a: &ObjRef<'_>,
    b: ObjRef<'_>,
) -> Result<Table, OpFault>
    requires known_a { IsKnownTable dict.old a.now }
    requires known_b { IsKnownTable dict.old b }
    requires frame { a.now.shape ≡ columns }
    requires columns { length b.columns ≡ length a.now.columns }
    ensures longer { IsLonger dict.old dict.new }
    ensures makes { Makes dict.new result (meant.common_infix (operator_of op)
        (table_value dict.old a.now) (table_value dict.old b.entry)) }
{
    let name = common_name(dict, a.columns_name(), b.columns_name());
    rows_infix(alloc, dict, op, a, b, Naming::ColumnsName(name))
}

// Tests what frames of other columns must have: columns that the operator takes, those of one label of one kind, as
// many levels, and no label of columns twice. None are compared.
#[tactic(auto, using(crate::proofs::Hints::expect_unequal))]
fn expect_unequal(
    alloc: Global,
    dict: &TextDict,
    op: Operator,
    a: &ObjRef<'_>,
    b: &ObjRef<'_>,
) -> Result<(), OpFault>
    requires known_a { IsKnownTable dict.now a.now }
    requires known_b { IsKnownTable dict.now b.now }
    ensures may { OnOk result (MayWiden (operator_of op)
        (table_value dict.now a.now) (table_value dict.now b.now)) }
    ensures passes { (rest : Result Entry FaultValue)
        → Passes dict.now result rest (unequal_after (operator_of op)
        (table_value dict.now a.now) (table_value dict.now b.now) rest) }
{
    // Equal texts have equal numbers: `TextDict::len` says so.
    let _ = dict.len();
    if !frames_fit(alloc, dict, op, a, b)? {
        return Err(OpFault::Refused(Code::WrongKind));
    }
    if a.levels() != b.levels() {
        return Err(OpFault::Refused(Code::BadValue(Reason::Levels)));
    }
    if compares(op) {
        return Err(OpFault::Refused(Code::BadValue(Reason::NotAligned)));
    }
    expect_different(alloc, a)?;
    expect_different(alloc, b)
}

// Two frames by the labels of columns that either has. `Limit` before a column is made, where the rows of either are
// too many: each is a row of the answer.
#[tactic(auto, using(crate::proofs::Hints::wide_infix))]
fn wide_infix(
    alloc: Global,
    dict: &mut TextDict,
    op: Operator,
    a: &ObjRef<'_>,
    b: &ObjRef<'_>,
) -> Result<Table, OpFault>
    requires known_a { IsKnownTable dict.old a.now }
    requires known_b { IsKnownTable dict.old b.now }
    requires frame_a { a.now.shape ≡ columns }
    requires frame_b { b.now.shape ≡ columns }
    requires may { MayWiden (operator_of op)
        (table_value dict.old a.now) (table_value dict.old b.now) }
    ensures longer { IsLonger dict.old dict.new }
    ensures makes { Makes dict.new result (meant.joined_frames (operator_of op)
        (table_value dict.old a.now) (table_value dict.old b.now)) }
{
    let joined = joined_labels(alloc, dict, a, b)?;
    if !within_limits(a.rows().max(b.rows()), joined.axis.len()) {
        return Err(OpFault::Refused(Code::Limit));
    }
    let left = widened(alloc, a, b, &joined.axis, &joined.left, &joined.right)?;
    let right = widened(alloc, b, a, &joined.axis, &joined.right, &joined.left)?;
    let on = left.read();
    common_infix(alloc, dict, op, &on, right.read())
}

// Two frames.
fn frame_infix(
    alloc: Global,
    dict: &mut TextDict,
    op: Operator,
    a: &ObjRef<'_>,
    b: ObjRef<'_>,
) -> Result<Table, OpFault>
    requires known_a { IsKnownTable dict.old a.now }
    requires known_b { IsKnownTable dict.old b }
    requires frame_a { a.now.shape ≡ columns }
    requires frame_b { b.shape ≡ columns }
    ensures longer { IsLonger dict.old dict.new }
    ensures makes { Makes dict.new result (meant.frame_infix (operator_of op)
        (table_value dict.old a.now) (table_value dict.old b.entry)) }
{
    if same_headings(dict, a, &b) {
        return common_infix(alloc, dict, op, a, b);
    }
    expect_unequal(alloc, dict, op, a, &b)?;
    wide_infix(alloc, dict, op, a, &b)
}

// A frame and a Series, by the labels of columns that either has.
fn joined_across(
    alloc: Global,
    dict: &mut TextDict,
    op: Operator,
    left: bool,
    frame: &ObjRef<'_>,
    series: &ObjRef<'_>,
) -> Result<Table, OpFault>
    requires known_frame { IsKnownTable dict.old frame.now }
    requires known_series { IsKnownTable dict.old series.now }
    requires frame { frame.now.shape ≡ columns }
    requires series { series.now.shape ≡ one_column }
    requires level { HaveLevels 1 series.now.labels }
    requires one { length series.now.level_names ≡ 1 }
    requires may { MayWiden (operator_of op) (table_value dict.old frame.now)
        (spread_series (table_value dict.old frame.now) (table_value dict.old series.now)) }
    ensures longer { IsLonger dict.old dict.new }
    ensures makes { Makes dict.new result (then_value (meant.spread_frame
        (table_value dict.old frame.now) (table_value dict.old series.now))
        (meant.joined_turned (operator_of op) left (table_value dict.old frame.now))) }
{
    let spread = spread_frame(alloc, dict, frame, series)?;
    let other = spread.read();
    if left {
        return wide_infix(alloc, dict, op, &other, frame);
    }
    wide_infix(alloc, dict, op, frame, &other)
}

// A frame and a Series whose labels aren't those of the frame's columns.
fn across_unequal(
    alloc: Global,
    dict: &mut TextDict,
    op: Operator,
    left: bool,
    frame: &ObjRef<'_>,
    series: &ObjRef<'_>,
) -> Result<Table, OpFault>
    requires known_frame { IsKnownTable dict.old frame.now }
    requires known_series { IsKnownTable dict.old series.now }
    requires frame { frame.now.shape ≡ columns }
    requires series { series.now.shape ≡ one_column }
    ensures longer { IsLonger dict.old dict.new }
    ensures makes { Makes dict.new result (meant.across_unequal (operator_of op) left
        (table_value dict.old frame.now) (table_value dict.old series.now)) }
{
    // Equal texts have equal numbers: `TextDict::len` says so.
    let _ = dict.len();
    if !takes_each(op, frame, series) {
        return Err(OpFault::Refused(Code::WrongKind));
    }
    if series.axis().levels() != 1 {
        return Err(OpFault::Refused(Code::BadValue(Reason::Levels)));
    }
    if !labels_fit(alloc, frame, series)? {
        return Err(OpFault::Refused(Code::WrongKind));
    }
    if compares(op) {
        return Err(OpFault::Refused(Code::BadValue(Reason::NotAligned)));
    }
    joined_across(alloc, dict, op, left, frame, series)
}

// A frame and a Series, which stands on the left where this is so.
fn across_infix(
    alloc: Global,
    dict: &mut TextDict,
    op: Operator,
    left: bool,
    frame: &ObjRef<'_>,
    series: ObjRef<'_>,
) -> Result<Table, OpFault>
    requires known_frame { IsKnownTable dict.old frame.now }
    requires known_series { IsKnownTable dict.old series }
    requires frame { frame.now.shape ≡ columns }
    requires series { series.shape ≡ one_column }
    ensures longer { IsLonger dict.old dict.new }
    ensures makes { Makes dict.new result (meant.across_infix (operator_of op) left
        (table_value dict.old frame.now) (table_value dict.old series.entry)) }
{
    if !are_headings(dict, &series, frame) {
        return across_unequal(alloc, dict, op, left, frame, &series);
    }
    table_met(
        alloc,
        dict,
        op,
        frame,
        &Other::Across(series, left),
        Naming::Kept,
    )
}

/// Two tables.
pub(crate) fn table_infix(
    alloc: Global,
    dict: &mut TextDict,
    op: Operator,
    a: ObjRef<'_>,
    b: ObjRef<'_>,
) -> Result<Table, OpFault>
    requires known_a { IsKnownTable dict.old a }
    requires known_b { IsKnownTable dict.old b }
    ensures longer { IsLonger dict.old dict.new }
    ensures makes { Makes dict.new result (meant.table_infix (operator_of op)
        a.entry.shape b.entry.shape (table_value dict.old a.entry) (table_value dict.old b.entry)) }
{
    match (a.shape(), b.shape()) {
        (Shape::Series, Shape::Series) => series_infix(alloc, dict, op, &a, b),
        (Shape::Frame, Shape::Frame) => frame_infix(alloc, dict, op, &a, b),
        (Shape::Series, Shape::Frame) => across_infix(alloc, dict, op, true, &b, a),
        (Shape::Frame, Shape::Series) => across_infix(alloc, dict, op, false, &a, b),
    }
}
