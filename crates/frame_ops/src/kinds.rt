// Whether an operator takes the kinds of its operands.
ghost use Rattle.std.specs.Prelude.{◌≡◌, ◌<◌, ◌≤◌, length, is_some, true, if◌then◌else◌};
ghost use Rattle.std.specs.List.{list_all};
ghost use Rattle.column_core.specs.cells.Text.{Text};
ghost use Rattle.column_core.specs.cells.Operator.{operator_kind};
ghost use Rattle.column_operators.specs.Tasks.{operator_of};
ghost use Rattle.label_align.specs.pick.Rows.{are_some};
ghost use Rattle.frame_store.specs.tables.Table.{column_at};
ghost use Rattle.frame_parts.specs.form.Finish as finish;
ghost use Rattle.frame_parts.specs.form.Infix as meant;
ghost use Rattle.frame_parts.specs.form.Infix.{compares};
ghost use Rattle.frame_ops.specs.declared.other.Other.TheVariants.{Beside};
ghost use Rattle.frame_ops.specs.Pairs.{kind_beside, met_at, all_met, kinds_meet, levels_fit, IsOpposite};

use crate::other::Other;
use cell_core::{Cell, Grid, Kind};
use column_operators::Operator;
use frame_store::ObjRef;

// Whether the operator takes two columns of a kind.
fn takes_kind(op: Operator, kind: Kind) -> bool
    ensures { result ≡ is_some (operator_kind (operator_of op) kind kind) }
{
    match op {
        Operator::Add => matches!(kind, Kind::Int64 | Kind::Text),
        Operator::Sub | Operator::Mul | Operator::FloorDiv | Operator::Mod => matches!(
            kind,
            Kind::Int64
        ),
        Operator::And | Operator::Or | Operator::Xor => matches!(kind, Kind::Boolean),
        Operator::Eq | Operator::Ne | Operator::Lt | Operator::Le | Operator::Gt | Operator::Ge =>
            true,
    }
}

// Whether it takes columns of these kinds, whichever is on the left: never of two.
fn takes(op: Operator, a: Kind, b: Kind) -> bool
    ensures straight { result ≡ is_some (operator_kind (operator_of op) a b) }
    ensures turned { result ≡ is_some (operator_kind (operator_of op) b a) }
{
    a == b && takes_kind(op, a)
}

// A scalar's kind, which is the column's where the scalar is missing.
fn kind_beside(kind: Kind, cell: Cell) -> Kind
    ensures { result ≡ kind_beside kind cell }
{
    match cell {
        Cell::Na => kind,
        Cell::Int(_) => Kind::Int64,
        Cell::Bool(_) => Kind::Boolean,
        Cell::Text(_) => Kind::Text,
    }
}

// Whether the operator takes the column at a place with what it meets there.
fn kinds_meet(op: Operator, on: &ObjRef<'_>, other: &Other<'_>, place: usize) -> bool
    requires place { place < length on.now.columns }
    requires opposite { IsOpposite on.now other.now }
    ensures { result ≡ kinds_meet (operator_of op) (met_at on.now other.now place) }
{
    let kind = on.kind(place);
    match other {
        Other::Scalar(cell, _) => takes(op, kind, kind_beside(kind, *cell)),
        Other::Beside(table) => takes(op, kind, table.kind(place)),
        Other::Across(series, _) => takes(op, kind, series.kind(0)),
    }
}

/// Whether the operator takes each column with what it meets.
pub(crate) fn all_meet(op: Operator, on: &ObjRef<'_>, other: &Other<'_>) -> bool
    requires { IsOpposite on.now other.now }
    ensures { result ≡ list_all (kinds_meet (operator_of op)) (all_met on.now other.now) }
{
    for place in 0..on.columns() {
        if !kinds_meet(op, on, other, place) {
            return false;
        }
    }
    true
}

/// Whether the operator takes each column of a table with the column at its place of another one.
pub(crate) fn columns_fit(op: Operator, a: &ObjRef<'_>, b: &ObjRef<'_>) -> bool
    requires { length b.now.columns ≡ length a.now.columns }
    ensures { result ≡ list_all (kinds_meet (operator_of op)) (all_met a.now (Beside b.now)) }
{
    for place in 0..a.columns() {
        if !takes(op, a.kind(place), b.kind(place)) {
            return false;
        }
    }
    true
}

/// Whether the operator takes columns of each column's kind on both sides.
pub(crate) fn columns_taken(op: Operator, frame: &ObjRef<'_>) -> bool
    ensures { result ≡ list_all (meant.takes_twice (operator_of op)) frame.now.columns }
{
    for place in 0..frame.columns() {
        if !takes_kind(op, frame.kind(place)) {
            return false;
        }
    }
    true
}

// Whether it takes columns of a Series' kind on both sides, or the Series has no row.
fn rows_taken(op: Operator, series: &ObjRef<'_>) -> bool
    requires { 1 ≤ length series.now.columns }
    ensures { result ≡ meant.takes_rows (operator_of op)
        series.now.labels (column_at series.now.columns 0) }
{
    if series.rows() == 0 {
        return true;
    }
    takes_kind(op, series.kind(0))
}

/// Whether the operator takes columns of each kind of a frame, and of a Series that has a row, on both sides.
pub(crate) fn takes_each(op: Operator, frame: &ObjRef<'_>, series: &ObjRef<'_>) -> bool
    requires { 1 ≤ length series.now.columns }
    ensures { result ≡ meant.takes_each (operator_of op) frame.now series.now }
{
    columns_taken(op, frame) && rows_taken(op, series)
}

/// Whether two kinds are one.
pub(crate) fn same_kind(a: Kind, b: Kind) -> bool
    ensures { result ≡ finish.same_kind a b }
{
    match a {
        Kind::Int64 => matches!(b, Kind::Int64),
        Kind::Boolean => matches!(b, Kind::Boolean),
        Kind::Text => matches!(b, Kind::Text),
    }
}

/// Whether a column of a kind may meet these rows of a Series of another: there are none, or the kinds are one.
pub(crate) fn fits_rows(own: Kind, kind: Kind, rows: &[usize]) -> bool
    ensures { result ≡ (if are_some rows.now then finish.same_kind own kind else true) }
{
    if rows.is_empty() {
        return true;
    }
    same_kind(own, kind)
}

/// Whether the operator compares.
pub(crate) fn compares(op: Operator) -> bool
    ensures { result ≡ compares (operator_of op) }
{
    matches!(
        op,
        Operator::Eq | Operator::Ne | Operator::Lt | Operator::Le | Operator::Gt | Operator::Ge
    )
}

/// Whether the rows of both sides have as many levels.
pub(crate) fn levels_fit(on: &ObjRef<'_>, other: &Other<'_>) -> bool
    ensures { result ≡ levels_fit on.now other.now }
{
    match other {
        Other::Scalar(_, _) => true,
        Other::Beside(table) => on.levels() == table.levels(),
        Other::Across(series, _) => series.levels() == 1,
    }
}
