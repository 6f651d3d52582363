// The columns that are made, and the places of rows, each by the number of the row.
ghost use Rattle.std.specs.Prelude.{◌≡◌, ◌<◌, ℕ, List, true, IfOk};
ghost use Rattle.cell_core.specs.declared.cell.Cell.TheVariants.{Na};
ghost use Rattle.cell_core.specs.declared.cell.Kind.TheVariants.{Int64, Boolean};
ghost use Rattle.column_core.specs.cells.Cell.{datum, holds};
ghost use Rattle.column_core.specs.cells.Column.{tabulate};
ghost use Rattle.column_bench.specs.Data.{jump_of, other_jump_of, unless_missing, number_cell, divisor_cell, truth_cell, bit_cell, data_kind, data_cell, data_column, place_at};

use cell_core::{Cell, Gaps, Kind, NoMemory};
use column_core::Column;
use std::alloc::Global;

/// What a column is made of. One cell in eight is missing.
#[derive(Clone, Copy)]
pub enum Data {
    /// Whole numbers of both signs.
    Numbers,
    /// Whole numbers from 1 to 1,000.
    Divisors,
    /// Truth values.
    Truths,
    /// Truth values, others than those.
    OtherTruths,
    /// 0 and 1.
    Bits,
}

impl Data {
    fn kind(self) -> Kind
        ensures { result ≡ data_kind self }
    {
        match self {
            Data::Numbers | Data::Divisors | Data::Bits => Kind::Int64,
            Data::Truths | Data::OtherTruths => Kind::Boolean,
        }
    }

    fn cell(self, row: usize) -> Cell
        ensures cell { result ≡ data_cell self row }
        ensures held { (texts : List (List ℕ)) → holds (data_kind self) (datum texts result) ≡ true }
    {
        match self {
            Data::Numbers => number(jump(row)),
            Data::Divisors => divisor(other_jump(row)),
            Data::Truths => truth(jump(row)),
            Data::OtherTruths => truth(other_jump(row)),
            Data::Bits => bit(jump(row)),
        }
    }

    /// The column of so many rows.
    pub fn column(self, alloc: Global, count: usize) -> Result<Column, NoMemory>
        ensures { IfOk result (λ c. c ≡ data_column self count) }
    {
        let mut made = Column::new(alloc, self.kind());
        for row in 0..count {
            made.push(self.cell(row))?;
        }
        Ok(made)
    }
}

fn jump(row: usize) -> usize
    ensures value { result ≡ jump_of row }
    ensures below { result < 65536 }
{
    row % 65536 * 40503 % 65536
}

fn other_jump(row: usize) -> usize
    ensures value { result ≡ other_jump_of row }
    ensures below { result < 65536 }
{
    row % 65536 * 30011 % 65536
}

fn number(at: usize) -> Cell
    requires { at < 65536 }
    ensures cell { result ≡ unless_missing at Na (number_cell at) }
    ensures held { (texts : List (List ℕ)) → holds Int64 (datum texts result) ≡ true }
{
    if at < 8192 {
        Cell::Na
    } else {
        Cell::Int(at as i64 - 32768)
    }
}

fn divisor(at: usize) -> Cell
    ensures cell { result ≡ unless_missing at Na (divisor_cell at) }
    ensures held { (texts : List (List ℕ)) → holds Int64 (datum texts result) ≡ true }
{
    if at < 8192 {
        Cell::Na
    } else {
        Cell::Int((at % 1000 + 1) as i64)
    }
}

fn truth(at: usize) -> Cell
    ensures cell { result ≡ unless_missing at Na (truth_cell at) }
    ensures held { (texts : List (List ℕ)) → holds Boolean (datum texts result) ≡ true }
{
    if at < 8192 {
        Cell::Na
    } else {
        Cell::Bool(at % 4096 < 2048)
    }
}

fn bit(at: usize) -> Cell
    ensures cell { result ≡ unless_missing at Na (bit_cell at) }
    ensures held { (texts : List (List ℕ)) → holds Int64 (datum texts result) ≡ true }
{
    if at < 8192 {
        Cell::Na
    } else {
        Cell::Int((at / 64 % 2) as i64)
    }
}

/// The places of so many rows: an earlier row of each, or none.
pub fn places(alloc: Global, count: usize) -> Result<Gaps, NoMemory>
    ensures { IfOk result (λ p. p ≡ tabulate count place_at) }
{
    let mut made = Gaps::new(alloc);
    for row in 0..count {
        made.push(place(row))?;
    }
    Ok(made)
}

fn place(row: usize) -> Option<usize>
    ensures { result ≡ place_at row }
{
    if other_jump(row) < 8192 {
        None
    } else {
        Some(row.saturating_sub(jump(row)))
    }
}
