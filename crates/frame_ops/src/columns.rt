// The columns that an operator makes.
ghost use Rattle.std.specs.Prelude.{◌≡◌, ◌<◌, All, length, true, IfOk};
ghost use Rattle.std.specs.List.{list_all};
ghost use Rattle.column_core.specs.cells.Cell.{AreGiven, IsLonger};
ghost use Rattle.nullable_array.specs.Answers.{Answers};
ghost use Rattle.column_operators.specs.Tasks.{operator_of};
ghost use Rattle.frame_parts.specs.form.Finish.{try_all};
ghost use Rattle.frame_parts.specs.form.Infix.{met};
ghost use Rattle.frame_store.specs.Parts.{IsSingle, block_column};
ghost use Rattle.frame_parts.specs.Makes.{MakesBy, block_value, blocks_value};
ghost use Rattle.frame_ops.specs.Pairs.{met_at, all_met, kinds_meet, meeting_value, meetings_value, column_meant, columns_for, AreColumnsFor, IsOpposite, IsGivenOther};

use crate::kinds::{all_meet, levels_fit};
use crate::other::Other;
use cell_core::{Code, Grid, Reason, TextDict};
use column_core::{Block, Column};
use column_operators::{Operator, binary, with_scalar};
use frame_parts::{block_of, within_limits};
use frame_store::{Blocks, ObjRef, OpFault};
use nullable_array::ArrayFault;
use std::alloc::Global;

// What the operator makes of the column at a place and what it meets there.
fn column_met(
    alloc: Global,
    dict: &mut TextDict,
    op: Operator,
    on: &ObjRef<'_>,
    other: &Other<'_>,
    place: usize,
) -> Result<Column, ArrayFault>
    requires place { place < length on.now.columns }
    requires opposite { IsOpposite on.now other.now }
    requires given { All (λ c. AreGiven dict.old c.cells) on.now.columns }
    requires other { IsGivenOther dict.old other.now }
    requires kinds { kinds_meet (operator_of op) (met_at on.now other.now place) ≡ true }
    ensures longer { IsLonger dict.old dict.new }
    ensures given { IfOk result (λ made. AreGiven dict.new made.cells) }
    ensures rows { IfOk result (λ made. length made.cells ≡ length on.now.labels) }
    ensures answer { Answers dict.new result (column_meant (operator_of op)
        (meeting_value dict.old (met_at on.now other.now place))) }
{
    let column = on.column(place);
    match other {
        Other::Scalar(cell, left) => with_scalar(alloc, dict, op, column, *cell, *left),
        Other::Beside(table) => binary(alloc, dict, op, column, table.column(place)),
        Other::Across(series, left) => {
            let cell = series.column(0).cell(place);
            with_scalar(alloc, dict, op, column, cell, *left)
        }
    }
}

// The block of that one column.
fn block_met(
    alloc: Global,
    dict: &mut TextDict,
    op: Operator,
    on: &ObjRef<'_>,
    other: &Other<'_>,
    place: usize,
) -> Result<Block, OpFault>
    requires place { place < length on.now.columns }
    requires opposite { IsOpposite on.now other.now }
    requires given { All (λ c. AreGiven dict.old c.cells) on.now.columns }
    requires other { IsGivenOther dict.old other.now }
    requires kinds { kinds_meet (operator_of op) (met_at on.now other.now place) ≡ true }
    ensures longer { IsLonger dict.old dict.new }
    ensures single { IfOk result IsSingle }
    ensures rows { IfOk result (λ made. length (block_column made).cells ≡ length on.now.labels) }
    ensures given { IfOk result (λ made. AreGiven dict.new (block_column made).cells) }
    ensures made { MakesBy block_value dict.new result
        (met (operator_of op) (meeting_value dict.old (met_at on.now other.now place))) }
{
    block_of(column_met(alloc, dict, op, on, other, place))
}

// What the operator makes of each column and what it meets.
fn columns_met(
    alloc: Global,
    dict: &mut TextDict,
    op: Operator,
    on: &ObjRef<'_>,
    other: &Other<'_>,
) -> Result<Blocks, OpFault>
    requires opposite { IsOpposite on.now other.now }
    requires given { All (λ c. AreGiven dict.old c.cells) on.now.columns }
    requires other { IsGivenOther dict.old other.now }
    requires kinds { list_all (kinds_meet (operator_of op)) (all_met on.now other.now) ≡ true }
    ensures longer { IsLonger dict.old dict.new }
    ensures columns { IfOk result (AreColumnsFor dict.new on.now) }
    ensures made { MakesBy blocks_value dict.new result (try_all (met (operator_of op))
        (meetings_value dict.old (all_met on.now other.now))) }
{
    let mut made = Blocks::new(alloc);
    for place in 0..on.columns() {
        let block = block_met(alloc, dict, op, on, other, place)?;
        made.push(block)?;
    }
    Ok(made)
}

/// What the operator makes of each column and what it meets.
///
/// `WrongKind` where it doesn't take the kinds of all, then `BadValue(Levels)` where the rows of the
/// two sides have levels of different numbers, then `Limit`, and last `ZeroDivide`. `NoMemory` may
/// come in place of any answer.
#[tactic(auto, using(crate::proofs::Hints::infix_columns))]
pub(crate) fn infix_columns(
    alloc: Global,
    dict: &mut TextDict,
    op: Operator,
    on: &ObjRef<'_>,
    other: &Other<'_>,
) -> Result<Blocks, OpFault>
    requires opposite { IsOpposite on.now other.now }
    requires given { All (λ c. AreGiven dict.old c.cells) on.now.columns }
    requires other { IsGivenOther dict.old other.now }
    ensures longer { IsLonger dict.old dict.new }
    ensures columns { IfOk result (AreColumnsFor dict.new on.now) }
    ensures made { MakesBy blocks_value dict.new result
        (columns_for (operator_of op) dict.old on.now other.now) }
{
    if !all_meet(op, on, other) {
        return Err(OpFault::Refused(Code::WrongKind));
    }
    if !levels_fit(on, other) {
        return Err(OpFault::Refused(Code::BadValue(Reason::Levels)));
    }
    if !within_limits(on.rows(), on.columns()) {
        return Err(OpFault::Refused(Code::Limit));
    }
    columns_met(alloc, dict, op, on, other)
}
