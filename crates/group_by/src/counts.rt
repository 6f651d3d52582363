// Rows of groups, counted.
ghost use Rattle.std.specs.Prelude.{◌≡◌, ◌<◌, ◌+◌, ◌^◌, ℕ, true, List, length, map, slice_index_or, All, IfOk};
ghost use Rattle.cell_core.specs.declared.cell.Kind.TheVariants.{Int64};
ghost use Rattle.column_core.specs.cells.Cell.{datum, holds};
ghost use Rattle.column_core.specs.Moves.{IsPlaceOf};
ghost use Rattle.factorize.specs.group.Reductions.{count_cell, of_group, group_sizes, group_places};
ghost use Rattle.group_by.specs.Counted.{IsCounted, HaveCounted, AreNumbers};

use crate::cells::counted;
use cell_core::{Cell, Kind, NoMemory};
use column_core::Column;
use factorize::Groups;
use std::alloc::Global;

// Counts one more of a group, if there is one.
pub(crate) fn count_one(counts: &mut [usize], group: Option<usize>)
    requires below { IsPlaceOf (length counts.old) group }
    requires room { All (λ n. n + 1 < 2 ^ 64) counts.old }
    ensures { IsCounted group counts.old counts.new }
{
    if let Some(group) = group {
        counts[group] += 1;
    }
}

// These numbers as a column.
pub(crate) fn column_of_counts(alloc: Global, counts: &[usize]) -> Result<Column, NoMemory>
    ensures { IfOk result (λ c. AreNumbers c (λ texts. map count_cell counts.now)) }
{
    let mut column = Column::new(alloc, Kind::Int64);
    for count in counts {
        column.push(counted(*count))?;
    }
    Ok(column)
}

// Counts the rows of each group.
fn count_rows(counts: &mut [usize], groups: &Groups)
    requires size { length counts.old ≡ groups.now.count }
    requires zero { All (λ n. n ≡ 0) counts.old }
    ensures size { length counts.new ≡ groups.now.count }
    ensures counted { HaveCounted groups.now.codes groups.now.count counts.new }
{
    for row in 0..groups.rows() {
        count_one(counts, groups.code(row));
    }
}

// How many rows each group has.
#[tactic(auto, using(crate::proofs::Hints::places))]
pub(crate) fn sizes(alloc: Global, groups: &Groups) -> Result<Column, NoMemory>
    ensures { IfOk result (λ c. AreNumbers c (λ texts. (group_sizes groups.now).cells)) }
{
    let mut counts = vec![in alloc; 0usize; groups.count()]?;
    count_rows(&mut counts, groups);
    column_of_counts(alloc, &counts)
}

// How many rows of its group were counted; NA where there is no group.
fn place_of(counts: &[usize], group: Option<usize>) -> Cell
    requires { IsPlaceOf (length counts.now) group }
    ensures value { (texts : List (List ℕ)) → datum texts result
        ≡ of_group group (λ g. count_cell (slice_index_or counts.now g 0)) }
    ensures held { (texts : List (List ℕ)) → holds Int64 (datum texts result) ≡ true }
{
    match group {
        Some(group) => counted(counts[group]),
        None => Cell::Na,
    }
}

// The place of each row in its group, where no row is counted yet.
fn place_rows(alloc: Global, counts: &mut [usize], groups: &Groups) -> Result<Column, NoMemory>
    requires size { length counts.old ≡ groups.now.count }
    requires zero { All (λ n. n ≡ 0) counts.old }
    ensures { IfOk result (λ c. AreNumbers c (λ texts. (group_places groups.now).cells)) }
{
    let mut column = Column::new(alloc, Kind::Int64);
    for row in 0..groups.rows() {
        let group = groups.code(row);
        column.push(place_of(counts, group))?;
        count_one(counts, group);
    }
    Ok(column)
}

// The place of each row in its group, counted from 0; NA where it has none.
#[tactic(auto, using(crate::proofs::Hints::places))]
pub(crate) fn places(alloc: Global, groups: &Groups) -> Result<Column, NoMemory>
    ensures { IfOk result (λ c. AreNumbers c (λ texts. (group_places groups.now).cells)) }
{
    let mut counts = vec![in alloc; 0usize; groups.count()]?;
    place_rows(alloc, &mut counts, groups)
}
