// One number for the cells of an answer, by which answers are compared.
ghost use Rattle.std.specs.Prelude.{◌≡◌, ◌+ℤ◌, ◌*ℤ◌, length};
ghost use Rattle.std.specs.Int.{int_wrap, w64};
ghost use Rattle.column_bench.specs.Checks.{cell_number, check_more, check_below, answer_number};

use crate::work::Answer;
use cell_core::Cell;
use column_core::Column;

impl Answer {
    /// The number of the answer's cells.
    pub fn number(&self) -> i64
        ensures { result ≡ answer_number self.now }
    {
        match self {
            Answer::Whole(column) => check(column),
            Answer::One(cell) => number(*cell),
        }
    }
}

fn check(column: &Column) -> i64
    ensures { result ≡ check_below (length column.now.cells) column.now.cells }
{
    let cells = column.as_ref();
    let mut so_far = 0;
    for row in 0..cells.len() {
        so_far = more(so_far, row, cells.cell(row));
    }
    so_far
}

fn more(so_far: i64, row: usize, cell: Cell) -> i64
    ensures { result ≡ check_more so_far row cell }
{
    sum(so_far, product((row % 1000 + 1) as i64, number(cell)))
}

#[tactic(auto, using(std::proofs::lemmas::Int::wraps))]
fn sum(x: i64, y: i64) -> i64
    ensures { result ≡ int_wrap w64 (x +ℤ y) }
{
    x.wrapping_add(y)
}

#[tactic(auto, using(std::proofs::lemmas::Int::wraps))]
fn product(x: i64, y: i64) -> i64
    ensures { result ≡ int_wrap w64 (x *ℤ y) }
{
    x.wrapping_mul(y)
}

fn number(cell: Cell) -> i64
    ensures { result ≡ cell_number cell }
{
    match cell {
        Cell::Na => -3,
        Cell::Int(x) => x,
        Cell::Bool(true) => 1,
        Cell::Bool(false) | Cell::Text(_) => 0,
    }
}
