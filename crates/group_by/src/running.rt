// Sums within groups, row by row.
ghost use Rattle.std.specs.Prelude.{◌≡◌, ℕ, pos, true, List, length, map, slice_index_or, Some, All, IfOk};
ghost use Rattle.cell_core.specs.declared.cell.Cell.TheVariants.{Na as Missing, Int};
ghost use Rattle.cell_core.specs.declared.cell.Kind.TheVariants.{Int64};
ghost use Rattle.column_core.specs.cells.Cell.{datum, holds};
ghost use Rattle.column_core.specs.cells.Column.{tabulate};
ghost use Rattle.column_core.specs.cells.Cumulate.{unless_missing};
ghost use Rattle.column_core.specs.Moves.{IsPlaceOf};
ghost use Rattle.factorize.specs.group.Reductions.{of_group, running_cell, sum};
ghost use Rattle.group_by.specs.Gathered.{TakesIn};
ghost use Rattle.group_by.specs.Counted.{AreNumbers};

use crate::cells::is_na;
use crate::choices::Number;
use crate::gather::{Amount, added};
use cell_core::{Cell, Kind, NoMemory};
use column_core::{ColRef, Column};
use factorize::Groups;
use std::alloc::Global;

// Adds a cell to the sum of its group.
fn add_cell(sums: &mut [Cell], group: Option<usize>, cell: Cell)
    requires { IsPlaceOf (length sums.old) group }
    ensures takes { (texts : List (List ℕ)) → TakesIn sum texts group cell sums.old sums.new }
    ensures held { All (λ s. (texts : List (List ℕ)) → holds Int64 (datum texts s) ≡ true) sums.old
        → All (λ s. (texts : List (List ℕ)) → holds Int64 (datum texts s) ≡ true) sums.new }
{
    if let Some(group) = group {
        sums[group] = added(sums[group], Number.amount(cell));
    }
}

// The sum of a group; NA where the cell is missing or there is no group.
fn sum_of(sums: &[Cell], group: Option<usize>, cell: Cell) -> Cell
    requires below { IsPlaceOf (length sums.now) group }
    requires held { All (λ s. (texts : List (List ℕ))
        → holds Int64 (datum texts s) ≡ true) sums.now }
    ensures value { (texts : List (List ℕ)) → datum texts result ≡ of_group group
        (λ g. unless_missing (datum texts cell) (datum texts (slice_index_or sums.now g Missing))) }
    ensures held { (texts : List (List ℕ)) → holds Int64 (datum texts result) ≡ true }
{
    match group {
        Some(group) if !is_na(cell) => sums[group],
        _ => Cell::Na,
    }
}

// The sum of each row's group up to the row, where nothing is added yet.
#[tactic(auto, using(crate::proofs::NumberLaws::no_numbers))]
fn sum_rows(
    alloc: Global,
    sums: &mut [Cell],
    groups: &Groups,
    a: &ColRef<'_>,
) -> Result<Column, NoMemory>
    requires rows { length groups.now.codes ≡ length a.now.cells }
    requires size { length sums.old ≡ groups.now.count }
    requires zero { All (λ s. s ≡ Int (pos 0)) sums.old }
    ensures { IfOk result (λ c. AreNumbers c (λ texts. tabulate (length groups.now.codes)
        (running_cell groups.now.codes (map (datum texts) a.now.cells)))) }
{
    let mut column = Column::new(alloc, Kind::Int64);
    for row in 0..groups.rows() {
        let group = groups.code(row);
        let cell = a.cell(row);
        add_cell(sums, group, cell);
        column.push(sum_of(sums, group, cell))?;
    }
    Ok(column)
}

// The sum of each row's group up to the row; NA where the row's cell is missing or the row has no group.
#[tactic(auto, using(crate::proofs::Hints::places))]
pub(crate) fn running_sums(
    alloc: Global,
    groups: &Groups,
    a: &ColRef<'_>,
) -> Result<Column, NoMemory>
    requires { length groups.now.codes ≡ length a.now.cells }
    ensures { IfOk result (λ c. AreNumbers c (λ texts. tabulate (length groups.now.codes)
        (running_cell groups.now.codes (map (datum texts) a.now.cells)))) }
{
    let mut sums = vec![in alloc; Cell::Int(0); groups.count()]?;
    sum_rows(alloc, &mut sums, groups, a)
}
