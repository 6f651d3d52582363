// The forms: an operator on one or two values of an expression.
ghost use Rattle.column_core.specs.cells.Cell.{IsLonger};
ghost use Rattle.column_operators.specs.Tasks.{operator_of};
ghost use Rattle.frame_parts.specs.form.Infix.{infix_result, sign_result};
ghost use Rattle.frame_store.specs.Arguments.{IsLive};
ghost use Rattle.frame_store.specs.Objects.{tables};
ghost use Rattle.frame_store.specs.Shown.{Makes};
ghost use Rattle.frame_store.specs.World.{world, entry_in, IsSettledWorld, IsKnownValue, Forms};

use crate::tables::{scalar_infix, table_infix};
use cell_core::{Cell, Code, TextDict};
use column_operators::Operator;
use frame_store::{OpFault, Store, Table, Value, placed};
use std::alloc::Global;

// The table that an operator makes of two values.
fn infix_made(
    alloc: Global,
    store: &Store,
    dict: &mut TextDict,
    op: Operator,
    a: Value,
    b: Value,
) -> Result<Table, OpFault>
    requires settled { IsSettledWorld (world store.now dict.old) }
    requires left { IsKnownValue (world store.now dict.old) a }
    requires right { IsKnownValue (world store.now dict.old) b }
    ensures longer { IsLonger dict.old dict.new }
    ensures makes { Makes dict.new result (infix_result (operator_of op)
        (entry_in (world store.now dict.old) a) (entry_in (world store.now dict.old) b)) }
{
    match (a, b) {
        (Value::Object(x), Value::Object(y)) => table_infix(
            alloc,
            dict,
            op,
            store.read(x),
            store.read(y),
        ),
        (Value::Object(x), Value::Scalar(c)) => scalar_infix(
            alloc,
            dict,
            op,
            &store.read(x),
            c,
            false,
        ),
        (Value::Scalar(c), Value::Object(y)) => scalar_infix(
            alloc,
            dict,
            op,
            &store.read(y),
            c,
            true,
        ),
        (Value::Scalar(_), Value::Scalar(_)) => Err(OpFault::Refused(Code::WrongKind)),
    }
}

// The table that a sign makes of a value: `-a` is 0 less each cell, and `~a` is `a ^ True`.
fn sign_made(
    alloc: Global,
    store: &Store,
    dict: &mut TextDict,
    negate: bool,
    a: Value,
) -> Result<Table, OpFault>
    requires settled { IsSettledWorld (world store.now dict.old) }
    requires live { IsLive (tables store.now) a }
    ensures longer { IsLonger dict.old dict.new }
    ensures makes { Makes dict.new result
        (sign_result negate (entry_in (world store.now dict.old) a)) }
{
    let Value::Object(id) = a else {
        return Err(OpFault::Refused(Code::WrongKind));
    };
    if negate {
        scalar_infix(
            alloc,
            dict,
            Operator::Sub,
            &store.read(id),
            Cell::Int(0),
            true,
        )
    } else {
        scalar_infix(
            alloc,
            dict,
            Operator::Xor,
            &store.read(id),
            Cell::Bool(true),
            false,
        )
    }
}

/// `a + b`, and the other operators.
///
/// A new object with what the operator makes of each two cells that meet. A scalar stands in each
/// row of each column. Two Series meet row by row, and two frames column by column and row by row.
/// Rows meet by position where the labels of both sides are equal, and else each row meets each row
/// of its label, or NA where the other side has none: the new table then has the labels of both sides
/// in order. So do columns, where one that a side lacks meets NA of its own kind. A Series stands in
/// each row of a frame, with its labels as those of columns. Otherwise the labels of the left
/// side stay, or of the frame, with the names of their levels. Of two Series the name stays where both
/// have it, of two frames that of the columns, and of levels that are joined each level's; a frame
/// beside a Series keeps its own, as does a table beside a scalar.
///
/// NA on either side gives NA, but for `&` and `|`: `False & NA` is False and `True | NA` is True
/// (Kleene's logic). An NA alone has the kind of the other side. Whole numbers wrap at 64 bits.
/// pandas user guide, "Nullable integer data type", "Working with missing data" and "Intro to data
/// structures" (data alignment).
///
/// # Errors
///
/// In this order: `WrongKind` of two scalars, and where the operator doesn't take the kinds of some
/// columns that meet or have one label, or twice the kind of one that a side lacks;
/// `BadValue(Levels)` where the rows of two Series or two frames have levels of different numbers, or
/// the Series beside a frame has several; `BadValue(NotAligned)` of a comparison where the labels of
/// rows or columns differ; `BadValue(Repeated)` where columns meet by their labels and one stands
/// twice: in the left frame, then in the right one, or in the Series, then in the frame beside it;
/// `Limit`; `ZeroDivide` by a divisor of 0 with a present dividend. `NoMemory` may come in place of any
/// answer. After a refusal all objects are as they were.
pub fn infix(
    alloc: Global,
    store: &mut Store,
    dict: &mut TextDict,
    op: Operator,
    a: Value,
    b: Value,
) -> Result<Value, OpFault>
    requires settled { IsSettledWorld (world store.old dict.old) }
    requires left { IsKnownValue (world store.old dict.old) a }
    requires right { IsKnownValue (world store.old dict.old) b }
    ensures { Forms result (infix_result (operator_of op)
        (entry_in (world store.old dict.old) a) (entry_in (world store.old dict.old) b))
        (world store.old dict.old) (world store.new dict.new) }
{
    let made = infix_made(alloc, store, dict, op, a, b);
    placed(store, dict, made)
}

/// `-a` where `negate` is true, else `~a`.
///
/// A new object with 0 less each whole number, or with the opposite of each truth value. NA stays.
/// pandas user guide, "Working with missing data".
///
/// # Errors
///
/// In this order: `WrongKind` of a scalar, of a column that isn't of whole numbers, or for `~` of
/// truth values; `Limit`. `NoMemory` may come in place of any answer. After a refusal all objects
/// are as they were.
pub fn invert_or_negate(
    alloc: Global,
    store: &mut Store,
    dict: &mut TextDict,
    negate: bool,
    a: Value,
) -> Result<Value, OpFault>
    requires settled { IsSettledWorld (world store.old dict.old) }
    requires live { IsLive (tables store.old) a }
    ensures { Forms result (sign_result negate (entry_in (world store.old dict.old) a))
        (world store.old dict.old) (world store.new dict.new) }
{
    let made = sign_made(alloc, store, dict, negate, a);
    placed(store, dict, made)
}
