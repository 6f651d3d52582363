// Operators on cells that lie side by side, of which sixteen rows are taken at a time, beside the same on cells with a
// step, which are taken row by row.
ghost use Rattle.std.specs.Prelude.{◌≡◌, length};

use cell_core::{Cell, Kind, NoMemory, Rows, TextDict};
use column_core::{Borrowed, ColRef, Column};
use column_operators::{Operator, binary, pure_binary};
use nullable_array::ArrayFault;
use std::alloc::Global;

// Lengths with and without whole strips, and with every rest.
const LONGEST: usize = 70;

const NUMBERS: [i64; 7] = [i64::MIN, -3, 0, 2, i64::MAX, -1, 2];

const ON_NUMBERS: [Operator; 9] = [
    Operator::Add,
    Operator::Sub,
    Operator::Mul,
    Operator::Eq,
    Operator::Ne,
    Operator::Lt,
    Operator::Le,
    Operator::Gt,
    Operator::Ge,
];

const ON_TRUTHS: [Operator; 9] = [
    Operator::And,
    Operator::Or,
    Operator::Xor,
    Operator::Eq,
    Operator::Ne,
    Operator::Lt,
    Operator::Le,
    Operator::Gt,
    Operator::Ge,
];

// Every third cell is missing, from this one on. With the first one missing the cells change at each row, and else at
// every second one.
fn cell_at(kind: Kind, row: usize, missing: usize) -> Cell {
    if row % 3 == missing {
        return Cell::Na;
    }
    let turn = if missing == 0 { row } else { row / 2 };
    match kind {
        Kind::Boolean => Cell::Bool(turn % 2 == 0),
        _ => Cell::Int(NUMBERS[turn % 7]),
    }
}

// So many cells, each of them twice where that is wanted.
fn column(
    alloc: Global,
    kind: Kind,
    count: usize,
    missing: usize,
    twice: bool,
) -> Result<Column, NoMemory> {
    let mut made = Column::new(alloc, kind);
    for row in 0..count {
        let cell = cell_at(kind, row, missing);
        if made.as_ref().kind().holds(cell) {
            made.push(cell)?;
        }
        if twice && made.as_ref().kind().holds(cell) {
            made.push(cell)?;
        }
    }
    Ok(made)
}

// One cell of each two.
fn every_second(cells: ColRef<'_>) -> ColRef<'_> {
    cells.strided(Rows {
        start: 0,
        step: 2,
        count: cells.len() / 2,
    })
}

fn are_same(a: ColRef<'_>, b: ColRef<'_>) -> bool {
    if a.kind() != b.kind() || a.len() != b.len() {
        return false;
    }
    for row in 0..a.len() {
        if a.cell(row) != b.cell(row) {
            return false;
        }
    }
    true
}

fn sums(
    alloc: Global,
    dict: &mut TextDict,
    a: ColRef<'_>,
    b: ColRef<'_>,
) -> Result<Column, ArrayFault>
    requires { length a.cells ≡ length b.cells }
{
    match (&a.lanes, &b.lanes) {
        (Borrowed::Ints(_), Borrowed::Ints(_)) => binary(alloc, dict, Operator::Add, a, b),
        _ => Err(ArrayFault::KindMismatch),
    }
}

fn operated(
    alloc: Global,
    dict: &mut TextDict,
    op: Operator,
    a: ColRef<'_>,
    b: ColRef<'_>,
) -> Result<Column, ArrayFault>
    requires { length a.cells ≡ length b.cells }
{
    match op {
        Operator::Add => sums(alloc, dict, a, b),
        _ => pure_binary(alloc, dict, op, a, b),
    }
}

// Whether the operator answers the same on both pairs of columns.
fn answers_alike(
    alloc: Global,
    op: Operator,
    (a, b): (ColRef<'_>, ColRef<'_>),
    (x, y): (ColRef<'_>, ColRef<'_>),
) -> Result<bool, ArrayFault> {
    if a.len() != b.len() || x.len() != y.len() {
        return Ok(false);
    }
    let mut dict = TextDict::new(alloc);
    let by_strips = operated(alloc, &mut dict, op, a, b)?;
    let by_rows = operated(alloc, &mut dict, op, x, y)?;
    Ok(are_same(by_strips.as_ref(), by_rows.as_ref()))
}

// Whether each of the operators answers the same at this length.
fn all_alike(
    alloc: Global,
    kind: Kind,
    operators: &[Operator],
    count: usize,
) -> Result<bool, ArrayFault> {
    let a = column(alloc, kind, count, 2, false)?;
    let b = column(alloc, kind, count, 0, false)?;
    let x = column(alloc, kind, count, 2, true)?;
    let y = column(alloc, kind, count, 0, true)?;
    for op in operators {
        let dense = (a.as_ref(), b.as_ref());
        let stepped = (every_second(x.as_ref()), every_second(y.as_ref()));
        if !answers_alike(alloc, *op, dense, stepped)? {
            return Ok(false);
        }
    }
    Ok(a.as_ref().len() == count)
}

#[test]
fn strips_of_numbers_answer_as_rows(rt: HostRuntime) -> Result<(), ArrayFault> {
    for count in 0..LONGEST + 1 {
        assert!(rt; all_alike(rt.alloc(), Kind::Int64, &ON_NUMBERS, count)?);
    }
    Ok(())
}

#[test]
fn strips_of_truth_values_answer_as_rows(rt: HostRuntime) -> Result<(), ArrayFault> {
    for count in 0..LONGEST + 1 {
        assert!(rt; all_alike(rt.alloc(), Kind::Boolean, &ON_TRUTHS, count)?);
    }
    Ok(())
}
