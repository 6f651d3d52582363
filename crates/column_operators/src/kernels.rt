// Operators on columns.
ghost use Rattle.std.specs.Prelude.{◌≡◌, ◌≢◌, ◌<◌, ◌^◌, ℕ, pos, List, length, Option, Some, None, IfOk};
ghost use Rattle.std.proofs.Common.{refl};
ghost use Rattle.cell_core.specs.declared.cell.Kind.TheVariants.{Int64, Boolean, Text as string};
ghost use Rattle.column_core.specs.cells.Cell.{datum, AreGiven, IsGiven, IsLonger};
ghost use Rattle.column_core.specs.cells.Column.{column_of, zero_division};
ghost use Rattle.column_core.specs.cells.Operator.{binary_column, scalar_binary, scalar_kind, invert_column};
ghost use Rattle.column_core.specs.cells.Symbol.{add};
ghost use Rattle.column_core.specs.Columns.{column_value, column_with, number_cell, truth_cell, text_cell};
ghost use Rattle.column_core.specs.Views.{borrowed_column};
ghost use Rattle.column_core.specs.Rows.{try_rows, map_rows};
ghost use Rattle.nullable_array.specs.Answers.{Answers};
ghost use Rattle.column_operators.specs.Operations.{compared};
ghost use Rattle.column_operators.specs.Tasks.{operator_of, task_column, scalar_task, lane_column};

use crate::divisors::{Divisor, QuotientBy};
use crate::joins::Join;
use crate::operators::{
    Both, Compare, Difference, Either, Not, OneOf, Product, Quotient, Rest, Sum,
};
use crate::ops::{Operator, Relation, Task, relation_of, task_of};
use crate::pairs::Constant;
use crate::vectors::{VectorOp, VectorOrder, VectorSide, Vectored, by_vectors};
use cell_core::{Cell, TextDict, TextId};
use column_core::{
    Borrowed, ColRef, Column, Dense, Lane, Nothing, Plain, RowFault, RowOp, Same, Source, by_rows,
};
use nullable_array::{ArrayFault, ByNumber, ByText, ByTruth, PairOp, Side, by_sides, text_column};
use std::alloc::Global;

/// The operator on each two cells that stand side by side. The columns have one length.
///
/// `KindMismatch` comes exactly where the operator doesn't take the kinds, and `ZeroDivision` with the
/// first row with a zero divisor opposite a present dividend. `NoMemory` may come in place of any
/// answer; each number that the dictionary had given keeps its text then too.
pub fn binary(
    alloc: Global,
    dict: &mut TextDict,
    op: Operator,
    a: ColRef<'_>,
    b: ColRef<'_>,
) -> Result<Column, ArrayFault>
    requires same { length a.cells ≡ length b.cells }
    requires a { AreGiven dict.old a.cells }
    requires b { AreGiven dict.old b.cells }
    ensures keeps { IsLonger dict.old dict.new }
    ensures given { IfOk result (λ c. AreGiven dict.new c.cells) }
    ensures rows { IfOk result (λ c. length c.cells ≡ length a.entry.cells) }
    ensures answer { Answers dict.new result
        (binary_column (operator_of op) (column_value dict.old a.entry)
        (column_value dict.old b.entry)) }
{
    match op {
        Operator::Add => sums(alloc, dict, a, b),
        _ => pure_binary(alloc, dict, op, a, b),
    }
}

/// What [`binary`] answers for an operator that makes no text, as each but `+`: so the dictionary is
/// only read.
pub fn pure_binary(
    alloc: Global,
    dict: &TextDict,
    op: Operator,
    a: ColRef<'_>,
    b: ColRef<'_>,
) -> Result<Column, ArrayFault>
    requires same { length a.cells ≡ length b.cells }
    requires pure { op ≢ Operator.Add }
    ensures given { IfOk result (λ c. AreGiven dict.now c.cells) }
    ensures rows { IfOk result (λ c. length c.cells ≡ length a.entry.cells) }
    ensures answer { Answers dict.now result
        (binary_column (operator_of op) (column_value dict.now a.entry)
        (column_value dict.now b.entry)) }
{
    pure_on_columns(alloc, dict, task_of(op), a, b)
}

// What an operator but `+` does to two columns.
fn pure_on_columns(
    alloc: Global,
    dict: &TextDict,
    task: Task,
    a: ColRef<'_>,
    b: ColRef<'_>,
) -> Result<Column, ArrayFault>
    requires same { length a.cells ≡ length b.cells }
    requires pure { task ≢ Task.Sum }
    ensures given { IfOk result (λ c. AreGiven dict.now c.cells) }
    ensures answer { Answers dict.now result
        (task_column task (column_value dict.now a.entry) (column_value dict.now b.entry)) }
{
    match (&a.lanes, &b.lanes) {
        (Borrowed::Ints(x), Borrowed::Ints(y)) => on_lanes(alloc, task, x, y),
        (Borrowed::Truths(x), Borrowed::Truths(y)) => on_lanes(alloc, task, x, y),
        (Borrowed::Texts(x), Borrowed::Texts(y)) => on_texts(alloc, dict, task, x, y),
        _ => Err(ArrayFault::KindMismatch),
    }
}

// What `+` makes of two columns.
fn sums(
    alloc: Global,
    dict: &mut TextDict,
    a: ColRef<'_>,
    b: ColRef<'_>,
) -> Result<Column, ArrayFault>
    requires same { length a.cells ≡ length b.cells }
    requires a { AreGiven dict.old a.cells }
    requires b { AreGiven dict.old b.cells }
    ensures keeps { IsLonger dict.old dict.new }
    ensures given { IfOk result (λ c. AreGiven dict.new c.cells) }
    ensures answer { Answers dict.new result
        (binary_column add (column_value dict.old a.entry) (column_value dict.old b.entry)) }
{
    match (&a.lanes, &b.lanes) {
        (Borrowed::Ints(x), Borrowed::Ints(y)) => on_lanes(alloc, Task::Sum, x, y),
        (Borrowed::Texts(x), Borrowed::Texts(y)) => joined(alloc, dict, x, y),
        _ => Err(ArrayFault::KindMismatch),
    }
}

// What an operator does to two lanes.
fn on_lanes<T: Operand>(
    alloc: Global,
    task: Task,
    a: &Lane<'_, T>,
    b: &Lane<'_, T>,
) -> Result<Column, ArrayFault>
    requires { a.now.count ≡ b.now.count }
    ensures given { IfOk result (λ c. (texts : List (List ℕ)) → AreGiven texts c.cells) }
    ensures answer { (texts : List (List ℕ)) → Answers texts result (task_column task
        (column_value texts (lane_column T.kind T.cell a.now))
        (column_value texts (lane_column T.kind T.cell b.now))) }
{
    match (a.dense(), b.dense()) {
        (Some(x), Some(y)) => T::on_sides(alloc, task, x, y),
        _ => T::on_rows(alloc, task, a, b),
    }
}

/// The operator on each cell and a scalar, which stands on the left where `scalar_left` is true. A scalar NA
/// has the column's kind. The refusals are those of `binary`.
pub fn with_scalar(
    alloc: Global,
    dict: &mut TextDict,
    op: Operator,
    a: ColRef<'_>,
    scalar: Cell,
    scalar_left: bool,
) -> Result<Column, ArrayFault>
    requires a { AreGiven dict.old a.cells }
    requires scalar { IsGiven dict.old scalar }
    ensures keeps { IsLonger dict.old dict.new }
    ensures given { IfOk result (λ c. AreGiven dict.new c.cells) }
    ensures rows { IfOk result (λ c. length c.cells ≡ length a.entry.cells) }
    ensures answer { Answers dict.new result
        (scalar_binary (operator_of op) (column_value dict.old a.entry)
        (datum dict.old scalar) scalar_left) }
{
    match op {
        Operator::Add => sums_beside(alloc, dict, a, scalar, scalar_left),
        _ => pure_with_scalar(alloc, dict, op, a, scalar, scalar_left),
    }
}

/// What [`with_scalar`] answers for an operator that makes no text, as each but `+`: so the dictionary is
/// only read.
pub fn pure_with_scalar(
    alloc: Global,
    dict: &TextDict,
    op: Operator,
    a: ColRef<'_>,
    scalar: Cell,
    scalar_left: bool,
) -> Result<Column, ArrayFault>
    requires { op ≢ Operator.Add }
    ensures given { IfOk result (λ c. AreGiven dict.now c.cells) }
    ensures rows { IfOk result (λ c. length c.cells ≡ length a.entry.cells) }
    ensures answer { Answers dict.now result
        (scalar_binary (operator_of op) (column_value dict.now a.entry)
        (datum dict.now scalar) scalar_left) }
{
    pure_beside(alloc, dict, task_of(op), a, scalar, scalar_left)
}

// What an operator but `+` does to a column and a scalar.
fn pure_beside(
    alloc: Global,
    dict: &TextDict,
    task: Task,
    a: ColRef<'_>,
    scalar: Cell,
    left: bool,
) -> Result<Column, ArrayFault>
    requires { task ≢ Task.Sum }
    ensures given { IfOk result (λ c. AreGiven dict.now c.cells) }
    ensures answer { Answers dict.now result
        (scalar_task task (column_value dict.now a.entry) (datum dict.now scalar) left) }
{
    match (&a.lanes, scalar) {
        (Borrowed::Ints(x), Cell::Int(y)) => beside_lane(alloc, task, x, Some(y), left),
        (Borrowed::Ints(x), Cell::Na) => beside_lane(alloc, task, x, None, left),
        (Borrowed::Truths(x), Cell::Bool(y)) => beside_lane(alloc, task, x, Some(y), left),
        (Borrowed::Truths(x), Cell::Na) => beside_lane(alloc, task, x, None, left),
        (Borrowed::Texts(x), Cell::Text(y)) => texts_beside(alloc, dict, task, x, Some(y), left),
        (Borrowed::Texts(x), Cell::Na) => texts_beside(alloc, dict, task, x, None, left),
        _ => Err(ArrayFault::KindMismatch),
    }
}

// What `+` makes of a column and a scalar.
fn sums_beside(
    alloc: Global,
    dict: &mut TextDict,
    a: ColRef<'_>,
    scalar: Cell,
    left: bool,
) -> Result<Column, ArrayFault>
    requires a { AreGiven dict.old a.cells }
    requires scalar { IsGiven dict.old scalar }
    ensures keeps { IsLonger dict.old dict.new }
    ensures given { IfOk result (λ c. AreGiven dict.new c.cells) }
    ensures answer { Answers dict.new result
        (scalar_binary add (column_value dict.old a.entry) (datum dict.old scalar) left) }
{
    match (&a.lanes, scalar) {
        (Borrowed::Ints(x), Cell::Int(y)) => beside_lane(alloc, Task::Sum, x, Some(y), left),
        (Borrowed::Ints(x), Cell::Na) => beside_lane(alloc, Task::Sum, x, None, left),
        (Borrowed::Texts(x), Cell::Text(y)) => joined_beside(alloc, dict, x, Some(y), left),
        (Borrowed::Texts(x), Cell::Na) => joined_beside(alloc, dict, x, None, left),
        _ => Err(ArrayFault::KindMismatch),
    }
}

// What an operator does to a lane and a scalar.
fn beside_lane<T: Operand>(
    alloc: Global,
    task: Task,
    a: &Lane<'_, T>,
    scalar: Option<T>,
    left: bool,
) -> Result<Column, ArrayFault>
    ensures given { IfOk result (λ c. (texts : List (List ℕ)) → AreGiven texts c.cells) }
    ensures answer { (texts : List (List ℕ)) → Answers texts result
        (scalar_task task (column_value texts (lane_column T.kind T.cell a.now))
        (datum texts (T.cell scalar)) left) }
{
    match a.dense() {
        Some(side) => beside_side(alloc, task, side, scalar, left),
        None => beside_rows(alloc, task, a, scalar, left),
    }
}

fn beside_side<T: Operand, A: VectorSide<T>>(
    alloc: Global,
    task: Task,
    a: A,
    scalar: Option<T>,
    left: bool,
) -> Result<Column, ArrayFault>
    ensures given { IfOk result (λ c. (texts : List (List ℕ)) → AreGiven texts c.cells) }
    ensures answer { (texts : List (List ℕ)) → Answers texts result (scalar_task task
        (column_value texts (column_with T.kind T.cell (A.count_of a) (A.row_of a)))
        (datum texts (T.cell scalar)) left) }
{
    if left {
        let same = Constant {
            value: scalar,
            blank: T::blank(),
            count: a.count(),
        };
        T::on_sides(alloc, task, same, a)
    } else {
        T::on_side_before(alloc, task, a, scalar)
    }
}

// The quotients by one divisor, which isn't 0: so no row is refused.
fn quotients_by<A: Side<i64>>(alloc: Global, a: A, divisor: u64) -> Result<Column, ArrayFault>
    requires above { 0 < divisor }
    requires below { divisor < 2 ^ 63 }
    ensures given { IfOk result (λ c. (texts : List (List ℕ)) → AreGiven texts c.cells) }
    ensures answer { (texts : List (List ℕ)) → Answers texts result (task_column Task.Quotient
        (column_value texts (column_with Int64 number_cell (A.count_of a) (A.row_of a)))
        (column_value texts
        (column_with Int64 number_cell (A.count_of a) (λ _. Some (pos divisor))))) }
{
    let by = QuotientBy {
        divisor: Divisor::new(divisor),
    };
    let nothing = Nothing { count: a.count() };
    operate_sides(alloc, &by, a, nothing)
}

fn beside_rows<T: Operand, A: Source<T>>(
    alloc: Global,
    task: Task,
    a: &A,
    scalar: Option<T>,
    left: bool,
) -> Result<Column, ArrayFault>
    ensures given { IfOk result (λ c. (texts : List (List ℕ)) → AreGiven texts c.cells) }
    ensures answer { (texts : List (List ℕ)) → Answers texts result (scalar_task task
        (column_value texts (column_with T.kind T.cell (A.count_of a.now) (A.row_of a.now)))
        (datum texts (T.cell scalar)) left) }
{
    let same = Same {
        value: scalar,
        count: a.count(),
    };
    if left {
        T::on_rows(alloc, task, &same, a)
    } else {
        T::on_rows(alloc, task, a, &same)
    }
}

fn texts_beside(
    alloc: Global,
    dict: &TextDict,
    task: Task,
    a: &Lane<'_, TextId>,
    scalar: Option<TextId>,
    left: bool,
) -> Result<Column, ArrayFault>
    requires { task ≢ Task.Sum }
    ensures given { IfOk result (λ c. AreGiven dict.now c.cells) }
    ensures answer { Answers dict.now result
        (scalar_task task (column_value dict.now (borrowed_column (Borrowed.Texts a.now)))
        (datum dict.now (text_cell scalar)) left) }
{
    let same = Same {
        value: scalar,
        count: a.count,
    };
    if left {
        on_texts(alloc, dict, task, &same, a)
    } else {
        on_texts(alloc, dict, task, a, &same)
    }
}

// The texts of a column, each with a text before or behind it.
fn joined_beside(
    alloc: Global,
    dict: &mut TextDict,
    a: &Lane<'_, TextId>,
    scalar: Option<TextId>,
    left: bool,
) -> Result<Column, ArrayFault>
    requires a { AreGiven dict.old (borrowed_column (Borrowed.Texts a.now)).cells }
    requires scalar { IsGiven dict.old (text_cell scalar) }
    ensures keeps { IsLonger dict.old dict.new }
    ensures given { IfOk result (λ c. AreGiven dict.new c.cells) }
    ensures answer { Answers dict.new result
        (scalar_task Task.Sum (column_value dict.old (borrowed_column (Borrowed.Texts a.now)))
        (datum dict.old (text_cell scalar)) left) }
{
    let same = Same {
        value: scalar,
        count: a.count,
    };
    if left {
        joined(alloc, dict, &same, a)
    } else {
        joined(alloc, dict, a, &same)
    }
}

// The column that an operation makes of two others.
fn operate<X, Y, U: Plain, O: RowOp<X, Y, U>, A: Source<X>, B: Source<Y>>(
    alloc: Global,
    op: &O,
    a: &A,
    b: &B,
) -> Result<Column, ArrayFault>
    requires same { A.count_of a.now ≡ B.count_of b.now }
    requires takes { (k : ℕ) → k < A.count_of a.now →
        O.takes op.now (A.row_of a.now k) (B.row_of b.now k) }
    ensures given { IfOk result (λ c. (texts : List (List ℕ)) → AreGiven texts c.cells) }
    ensures answer { (texts : List (List ℕ)) → Answers texts result
        (column_of U.kind zero_division
        (map_rows (λ z. datum texts (U.cell z))
        (try_rows (A.count_of a.now)
        (λ k. O.row_of op.now (A.row_of a.now k) (B.row_of b.now k))))) }
{
    match by_rows(alloc, op, U::blank(), a, b) {
        Ok(rows) => Ok(U::column(rows)),
        Err(RowFault::Row(row)) => Err(ArrayFault::ZeroDivision(row)),
        Err(RowFault::Memory) => Err(ArrayFault::NoMemory),
    }
}

// The column that an operation makes of two sides, where it refuses no row.
#[inline(always)]
fn operate_sides<X: Copy, Y: Copy, U: Plain, O: PairOp<X, Y, U>, A: Side<X>, B: Side<Y>>(
    alloc: Global,
    op: &O,
    a: A,
    b: B,
) -> Result<Column, ArrayFault>
    requires { A.count_of a ≡ B.count_of b }
    ensures given { IfOk result (λ c. (texts : List (List ℕ)) → AreGiven texts c.cells) }
    ensures answer { (texts : List (List ℕ)) → Answers texts result
        (column_of U.kind zero_division
        (map_rows (λ z. datum texts (U.cell z))
        (try_rows (A.count_of a) (λ k. O.row_of op.now (A.row_of a k) (B.row_of b k))))) }
{
    let rows = by_sides(alloc, op, a, b)?;
    Ok(U::column(rows))
}

// The same of an operation that makes a strip of rows at a time.
#[inline(always)]
fn operate_vectors<
    X: Vectored,
    U: Plain + Vectored,
    O: VectorOp<X, U>,
    A: VectorSide<X>,
    B: VectorSide<X>,
>(alloc: Global, op: &O, a: &A, b: &B) -> Result<Column, ArrayFault>
    requires { A.count_of a.now ≡ B.count_of b.now }
    ensures given { IfOk result (λ c. (texts : List (List ℕ)) → AreGiven texts c.cells) }
    ensures answer { (texts : List (List ℕ)) → Answers texts result
        (column_of U.kind zero_division
        (map_rows (λ z. datum texts (U.cell z))
        (try_rows (A.count_of a.now)
        (λ k. O.row_of op.now (A.row_of a.now k) (B.row_of b.now k))))) }
{
    let rows = by_vectors(alloc, op, a, b)?;
    Ok(U::column(rows))
}

// Which values of two sides are in a relation. Each relation has a loop of its own, with one comparison in it.
fn compare_sides<T: Vectored, K: VectorOrder<T> + Drop, A: VectorSide<T>, B: VectorSide<T>>(
    alloc: Global,
    order: K,
    relation: Relation,
    a: A,
    b: B,
) -> Result<Column, ArrayFault>
    requires { A.count_of a ≡ B.count_of b }
    ensures given { IfOk result (λ c. (texts : List (List ℕ)) → AreGiven texts c.cells) }
    ensures answer { (texts : List (List ℕ)) →
        Answers texts result
        (compared texts relation (K.cmp order) (A.count_of a) (A.row_of a) (B.row_of b)) }
{
    match (relation.less, relation.equal, relation.greater) {
        (true, false, false) => compare_by(alloc, order, relation_of(true, false, false), a, b),
        (true, true, false) => compare_by(alloc, order, relation_of(true, true, false), a, b),
        (false, true, false) => compare_by(alloc, order, relation_of(false, true, false), a, b),
        (true, false, true) => compare_by(alloc, order, relation_of(true, false, true), a, b),
        (false, false, true) => compare_by(alloc, order, relation_of(false, false, true), a, b),
        (false, true, true) => compare_by(alloc, order, relation_of(false, true, true), a, b),
        _ => compare_by(alloc, order, relation, a, b),
    }
}

#[inline(always)]
fn compare_by<T: Vectored, K: VectorOrder<T> + Drop, A: VectorSide<T>, B: VectorSide<T>>(
    alloc: Global,
    order: K,
    relation: Relation,
    a: A,
    b: B,
) -> Result<Column, ArrayFault>
    requires { A.count_of a ≡ B.count_of b }
    ensures given { IfOk result (λ c. (texts : List (List ℕ)) → AreGiven texts c.cells) }
    ensures answer { (texts : List (List ℕ)) →
        Answers texts result
        (compared texts relation (K.cmp order) (A.count_of a) (A.row_of a) (B.row_of b)) }
{
    operate_vectors(alloc, &Compare { order, relation }, &a, &b)
}

/// A value on which operators work without a dictionary.
pub(crate) trait Operand: Plain + Vectored {
    /// What an operator does to two sides.
    fn on_sides<A: VectorSide<Self>, B: VectorSide<Self>>(
        alloc: Global,
        task: Task,
        a: A,
        b: B,
    ) -> Result<Column, ArrayFault>
        requires { A.count_of a ≡ B.count_of b }
        ensures given { IfOk result (λ c. (texts : List (List ℕ)) → AreGiven texts c.cells) }
        ensures answer { (texts : List (List ℕ)) → Answers texts result (task_column task
            (column_value texts (column_with Self.kind Self.cell (A.count_of a) (A.row_of a)))
            (column_value texts (column_with Self.kind Self.cell (B.count_of b) (B.row_of b)))) };

    /// What it does to a side before a value that is the same in each row.
    fn on_side_before<A: VectorSide<Self>>(
        alloc: Global,
        task: Task,
        a: A,
        value: Option<Self>,
    ) -> Result<Column, ArrayFault>
        ensures given { IfOk result (λ c. (texts : List (List ℕ)) → AreGiven texts c.cells) }
        ensures answer { (texts : List (List ℕ)) → Answers texts result (task_column task
            (column_value texts (column_with Self.kind Self.cell (A.count_of a) (A.row_of a)))
            (column_value texts (column_with Self.kind Self.cell (A.count_of a) (λ _. value)))) };

    /// What it does to rows of two columns.
    fn on_rows<A: Source<Self>, B: Source<Self>>(
        alloc: Global,
        task: Task,
        a: &A,
        b: &B,
    ) -> Result<Column, ArrayFault>
        requires { A.count_of a.now ≡ B.count_of b.now }
        ensures given { IfOk result (λ c. (texts : List (List ℕ)) → AreGiven texts c.cells) }
        ensures answer { (texts : List (List ℕ)) → Answers texts result (task_column task
            (column_value texts
            (column_with Self.kind Self.cell (A.count_of a.now) (A.row_of a.now)))
            (column_value texts
            (column_with Self.kind Self.cell (B.count_of b.now) (B.row_of b.now)))) };

    ghost kept: { (texts : List (List ℕ)) (x : Option Self) → scalar_kind Self.kind (datum texts (Self.cell x)) ≡ Self.kind };
}

impl Operand for i64 {
    fn on_sides<A: VectorSide<i64>, B: VectorSide<i64>>(
        alloc: Global,
        task: Task,
        a: A,
        b: B,
    ) -> Result<Column, ArrayFault> {
        match task {
            Task::Sum => operate_vectors(alloc, &Sum, &a, &b),
            Task::Difference => operate_vectors(alloc, &Difference, &a, &b),
            Task::Product => operate_vectors(alloc, &Product, &a, &b),
            Task::Compare(relation) => compare_sides(alloc, ByNumber, relation, a, b),
            _ => Self::on_rows(alloc, task, &a, &b),
        }
    }

    fn on_side_before<A: VectorSide<i64>>(
        alloc: Global,
        task: Task,
        a: A,
        value: Option<i64>,
    ) -> Result<Column, ArrayFault>
        ensures given { IfOk result (λ c. (texts : List (List ℕ)) → AreGiven texts c.cells) }
        ensures answer { (texts : List (List ℕ)) → Answers texts result (task_column task
            (column_value texts (column_with Int64 number_cell (A.count_of a) (A.row_of a)))
            (column_value texts (column_with Int64 number_cell (A.count_of a) (λ _. value)))) }
    {
        match (task, value) {
            (Task::Quotient, Some(divisor)) if 0 < divisor => quotients_by(
                alloc,
                a,
                divisor as u64,
            ),
            _ => {
                let same = Constant {
                    value,
                    blank: 0,
                    count: a.count(),
                };
                Self::on_sides(alloc, task, a, same)
            }
        }
    }

    fn on_rows<A: Source<i64>, B: Source<i64>>(
        alloc: Global,
        task: Task,
        a: &A,
        b: &B,
    ) -> Result<Column, ArrayFault> {
        match task {
            Task::Sum => operate(alloc, &Sum, a, b),
            Task::Difference => operate(alloc, &Difference, a, b),
            Task::Product => operate(alloc, &Product, a, b),
            Task::Quotient => operate(alloc, &Quotient, a, b),
            Task::Rest => operate(alloc, &Rest, a, b),
            Task::Compare(relation) => {
                let compare = Compare {
                    order: ByNumber,
                    relation,
                };
                operate(alloc, &compare, a, b)
            }
            Task::Both | Task::Either | Task::OneOf => Err(ArrayFault::KindMismatch),
        }
    }

    ghost kept = { λ _. elim [ None ↦ refl | Some z ↦ refl ] };
}

impl Operand for bool {
    fn on_sides<A: VectorSide<bool>, B: VectorSide<bool>>(
        alloc: Global,
        task: Task,
        a: A,
        b: B,
    ) -> Result<Column, ArrayFault> {
        match task {
            Task::Both => operate_vectors(alloc, &Both, &a, &b),
            Task::Either => operate_vectors(alloc, &Either, &a, &b),
            Task::OneOf => operate_vectors(alloc, &OneOf, &a, &b),
            Task::Compare(relation) => compare_sides(alloc, ByTruth, relation, a, b),
            _ => Self::on_rows(alloc, task, &a, &b),
        }
    }

    fn on_side_before<A: VectorSide<bool>>(
        alloc: Global,
        task: Task,
        a: A,
        value: Option<bool>,
    ) -> Result<Column, ArrayFault>
        ensures given { IfOk result (λ c. (texts : List (List ℕ)) → AreGiven texts c.cells) }
        ensures answer { (texts : List (List ℕ)) → Answers texts result (task_column task
            (column_value texts (column_with Boolean truth_cell (A.count_of a) (A.row_of a)))
            (column_value texts (column_with Boolean truth_cell (A.count_of a) (λ _. value)))) }
    {
        let same = Constant {
            value,
            blank: false,
            count: a.count(),
        };
        Self::on_sides(alloc, task, a, same)
    }

    fn on_rows<A: Source<bool>, B: Source<bool>>(
        alloc: Global,
        task: Task,
        a: &A,
        b: &B,
    ) -> Result<Column, ArrayFault> {
        match task {
            Task::Both => operate(alloc, &Both, a, b),
            Task::Either => operate(alloc, &Either, a, b),
            Task::OneOf => operate(alloc, &OneOf, a, b),
            Task::Compare(relation) => {
                let compare = Compare {
                    order: ByTruth,
                    relation,
                };
                operate(alloc, &compare, a, b)
            }
            _ => Err(ArrayFault::KindMismatch),
        }
    }

    ghost kept = { λ _. elim [ None ↦ refl | Some b ↦ refl ] };
}

/// The opposite of each truth value; NA stays. `KindMismatch` exactly where the kind isn't boolean;
/// `NoMemory` may come in place of any answer.
pub fn invert(alloc: Global, a: ColRef<'_>) -> Result<Column, ArrayFault>
    ensures { (texts : List (List ℕ)) →
        Answers texts result (invert_column (column_value texts a.entry)) }
{
    match &a.lanes {
        Borrowed::Truths(lane) => match lane.dense() {
            Some(side) => inverted(alloc, &side),
            None => inverted(alloc, lane),
        },
        _ => Err(ArrayFault::KindMismatch),
    }
}

fn inverted<A: Source<bool>>(alloc: Global, a: &A) -> Result<Column, ArrayFault>
    ensures { (texts : List (List ℕ)) →
        Answers texts result
        (invert_column
        (column_value texts (column_with Boolean truth_cell (A.count_of a.now) (A.row_of a.now)))) }
{
    operate(alloc, &Not, a, &Nothing { count: a.count() })
}

// The texts of two columns, each followed by the one beside it.
fn joined<A: Source<TextId>, B: Source<TextId>>(
    alloc: Global,
    dict: &mut TextDict,
    a: &A,
    b: &B,
) -> Result<Column, ArrayFault>
    requires same { A.count_of a.now ≡ B.count_of b.now }
    requires a { (k : ℕ) → k < A.count_of a.now → IsGiven dict.old (text_cell (A.row_of a.now k)) }
    requires b { (k : ℕ) → k < B.count_of b.now → IsGiven dict.old (text_cell (B.row_of b.now k)) }
    ensures keeps { IsLonger dict.old dict.new }
    ensures given { IfOk result (λ c. AreGiven dict.new c.cells) }
    ensures answer { Answers dict.new result (task_column Task.Sum
        (column_value dict.old (column_with string text_cell (A.count_of a.now) (A.row_of a.now)))
        (column_value dict.old (column_with string text_cell (B.count_of b.now) (B.row_of b.now)))) }
{
    Ok(text_column(alloc, dict, &Join, a, b)?)
}

// What an operator but `+` does to two columns of texts.
fn on_texts<A: Source<TextId>, B: Source<TextId>>(
    alloc: Global,
    dict: &TextDict,
    task: Task,
    a: &A,
    b: &B,
) -> Result<Column, ArrayFault>
    requires same { A.count_of a.now ≡ B.count_of b.now }
    requires pure { task ≢ Task.Sum }
    ensures given { IfOk result (λ c. AreGiven dict.now c.cells) }
    ensures answer { Answers dict.now result (task_column task
        (column_value dict.now (column_with string text_cell (A.count_of a.now) (A.row_of a.now)))
        (column_value dict.now (column_with string text_cell (B.count_of b.now) (B.row_of b.now)))) }
{
    match task {
        Task::Compare(relation) => compared_texts(alloc, dict, relation, a, b),
        _ => Err(ArrayFault::KindMismatch),
    }
}

fn compared_texts<A: Source<TextId>, B: Source<TextId>>(
    alloc: Global,
    dict: &TextDict,
    relation: Relation,
    a: &A,
    b: &B,
) -> Result<Column, ArrayFault>
    requires same { A.count_of a.now ≡ B.count_of b.now }
    ensures given { IfOk result (λ c. AreGiven dict.now c.cells) }
    ensures answer { Answers dict.now result (task_column (Task.Compare relation)
        (column_value dict.now (column_with string text_cell (A.count_of a.now) (A.row_of a.now)))
        (column_value dict.now (column_with string text_cell (B.count_of b.now) (B.row_of b.now)))) }
{
    let compare = Compare {
        order: ByText { dict },
        relation,
    };
    operate(alloc, &compare, a, b)
}
