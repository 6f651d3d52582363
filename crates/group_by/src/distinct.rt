// How many different cells each group has.
ghost use Rattle.std.specs.Prelude.{◌≡◌, length, map, Some, None, All, IfOk, OnOk, if◌then◌else◌};
ghost use Rattle.std.specs.List.{list_any};
ghost use Rattle.indexmap.specs.IndexSet.{insert_key};
ghost use Rattle.column_core.specs.cells.Cell.{datum, AreDistinct, AreGiven};
ghost use Rattle.factorize.specs.group.Reductions.{reduced_cells, nunique};
ghost use Rattle.group_by.specs.Counted.{AreNumbers};
ghost use Rattle.group_by.specs.Distincts.{same_member, noted, new_in, HaveDistinct};

use crate::cells::is_na;
use crate::counts::{column_of_counts, count_one};
use cell_core::{Cell, NoMemory, TextDict};
use column_core::{ColRef, Column};
use factorize::Groups;
use indexmap::IndexSet;
use std::alloc::Global;

// Notes a cell of a group, and answers the group in which it is a new one. A cell that is missing or has no group
// isn't noted.
#[tactic(auto, using(crate::proofs::Hints::note))]
fn note(
    seen: &mut IndexSet<(usize, Cell)>,
    group: Option<usize>,
    cell: Cell,
) -> Result<Option<usize>, NoMemory>
    ensures seen { OnOk result (seen.new.keys ≡ noted seen.old.keys group cell) }
    ensures new { IfOk result (λ new. new ≡ new_in seen.old.keys group cell) }
{
    match group {
        Some(group) if !is_na(cell) => note_member(seen, group, cell),
        _ => Ok(None),
    }
}

fn note_member(
    seen: &mut IndexSet<(usize, Cell)>,
    group: usize,
    cell: Cell,
) -> Result<Option<usize>, NoMemory>
    ensures seen { OnOk result
        (seen.new.keys ≡ insert_key same_member seen.old.keys (group, cell)) }
    ensures new { IfOk result (λ new. new
        ≡ (if list_any (same_member (group, cell)) seen.old.keys then None else Some group)) }
{
    let (_, new) = seen.insert_full((group, cell))?;
    Ok(if new { Some(group) } else { None })
}

// Counts the different cells of each group, where none is counted yet. The cells of all groups are told apart in one
// set.
#[tactic(auto, using(crate::proofs::DistinctLaws::new_below, std::proofs::lemmas::List::take_all))]
fn count_distinct(
    alloc: Global,
    dict: &TextDict,
    counts: &mut [usize],
    groups: &Groups,
    a: &ColRef<'_>,
) -> Result<(), NoMemory>
    requires rows { length groups.now.codes ≡ length a.now.cells }
    requires given { AreGiven dict.now a.now.cells }
    requires distinct { AreDistinct dict.now }
    requires size { length counts.old ≡ groups.now.count }
    requires zero { All (λ n. n ≡ 0) counts.old }
    ensures size { length counts.new ≡ groups.now.count }
    ensures counted { let cells = map (datum dict.now) a.now.cells in
        OnOk result (HaveDistinct groups.now.codes groups.now.count cells counts.new) }
{
    let mut seen = IndexSet::new(alloc);
    for row in 0..groups.rows() {
        let new = note(&mut seen, groups.code(row), a.cell(row))?;
        count_one(counts, new);
    }
    Ok(())
}

// How many different cells are present in each group: NA isn't counted.
#[tactic(auto, using(crate::proofs::Hints::places))]
pub(crate) fn distinct_counts(
    alloc: Global,
    dict: &TextDict,
    groups: &Groups,
    a: &ColRef<'_>,
) -> Result<Column, NoMemory>
    requires rows { length groups.now.codes ≡ length a.now.cells }
    requires given { AreGiven dict.now a.now.cells }
    ensures { IfOk result (λ c. AreNumbers c (λ texts.
        reduced_cells nunique groups.now (map (datum dict.now) a.now.cells))) }
{
    // Equal texts have equal numbers.
    let _ = dict.len();
    let mut counts = vec![in alloc; 0usize; groups.count()]?;
    count_distinct(alloc, dict, &mut counts, groups, a)?;
    column_of_counts(alloc, &counts)
}
