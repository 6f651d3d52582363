// The loop over an operation on one value that refuses no row.
ghost use Rattle.std.specs.Prelude.{◌≡◌, Option, Some, None, IfOk};
ghost use Rattle.column_core.specs.Columns.{column_with};
ghost use Rattle.column_core.specs.Lanes.{lane_row};

use cell_core::NoMemory;
use column_core::{Column, Element, Lane, Nothing, RowOp, Source, by_rows};
use std::alloc::Global;

/// An operation on one value that refuses no row.
pub(crate) trait TotalOp<X, U>: RowOp<X, (), U> {
    ghost made: { Self → Option X → Option U };

    ghost total: { (s : Self) (x : Option X) → Self.row_of s x None ≡ Some (Self.made s x) };
}

/// The column of what is made of each value of a lane.
#[inline(always)]
pub(crate) fn map_lane<X: Copy, U: Element, O: TotalOp<X, U>>(
    alloc: Global,
    op: &O,
    a: &Lane<'_, X>,
) -> Result<Column, NoMemory>
    requires { (x : Option X) → O.takes op.now x None }
    ensures { IfOk result (λ c. c ≡ column_with U.kind U.cell a.now.count
        (λ k. O.made op.now
        (lane_row a.now.values.now a.now.present.now a.now.start a.now.stride a.now.back k))) }
{
    match a.dense() {
        Some(side) => map_rows(alloc, op, &side),
        None => map_rows(alloc, op, a),
    }
}

#[inline(always)]
fn map_rows<X, U: Element, O: TotalOp<X, U>, A: Source<X>>(
    alloc: Global,
    op: &O,
    a: &A,
) -> Result<Column, NoMemory>
    requires { (x : Option X) → O.takes op.now x None }
    ensures { IfOk result (λ c. c
        ≡ column_with U.kind U.cell (A.count_of a.now) (λ k. O.made op.now (A.row_of a.now k))) }
{
    match by_rows(alloc, op, U::blank(), a, &Nothing { count: a.count() }) {
        Ok(rows) => Ok(U::column(rows)),
        Err(_) => Err(NoMemory),
    }
}
