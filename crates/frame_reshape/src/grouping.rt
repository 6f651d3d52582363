// What a reduction makes of groups, without missing cells.
ghost use Rattle.std.specs.Prelude.{◌≡◌, ◌<◌, ◌≤◌, ◌++◌, ◌∷◌, [], if◌then◌else◌, length, map, All, Some, IfOk, OnOk};
ghost use Rattle.column_core.specs.cells.Cell.{datum, AreGiven};
ghost use Rattle.column_core.specs.cells.Reduce.{is_present};
ghost use Rattle.column_core.specs.Moves.{IsPlaceOf};
ghost use Rattle.frame_store.specs.tables.Table.{table_value};
ghost use Rattle.group_by.specs.Operations.{reduction_of};
ghost use Rattle.frame_labels.specs.method.Reshape as meant;
ghost use Rattle.frame_parts.specs.Makes.{MakesBy};
ghost use Rattle.frame_store.specs.Parts.{AreRowsOf};
ghost use Rattle.frame_store.specs.World.{IsKnownTable};
ghost use Rattle.frame_reshape.specs.Groups as words;
ghost use Rattle.frame_labels.specs.RowGroups.{AreGroupsOf};
ghost use Rattle.frame_reshape.specs.Pivots.{pivoted_value, IsPivoted};

use crate::told::Pivoted;
use cell_core::{Cell, Code, Gaps, NoMemory, Places, TextDict};
use column_core::{Column, take};
use factorize::KeyGroups;
use frame_labels::groups_by;
use frame_store::{ObjRef, OpFault};
use group_by::{GroupFault, GroupOp, group_reduce};
use std::alloc::Global;

// For each group that has an answer its first row, and the answer.
#[derive(Drop)]
pub(crate) struct GroupCells {
    pub(crate) rows: Places,
    pub(crate) cells: Column,
}

// Appends a group if its answer isn't missing.
#[tactic(auto, using(crate::proofs::GroupCells::present_cell))]
fn push_answered(groups: &mut Gaps, answer: Cell, group: usize) -> Result<(), NoMemory>
    ensures { OnOk result (groups.new
        ≡ groups.old ++ (if is_present (datum [] answer) then Some group ∷ [] else [])) }
{
    match answer {
        Cell::Na => Ok(()),
        _ => groups.push(Some(group)),
    }
}

// The groups whose answer isn't missing.
fn answered(alloc: Global, cells: &Column) -> Result<Gaps, NoMemory>
    ensures groups { IfOk result (λ groups. groups ≡ map Some (words.answered cells.now.cells)) }
    ensures below { IfOk result (All (IsPlaceOf (length cells.now.cells))) }
{
    let column = cells.as_ref();
    let mut groups = Gaps::new(alloc);
    for group in 0..column.len() {
        push_answered(&mut groups, column.cell(group), group)?;
    }
    Ok(groups)
}

// Appends the first row of a group, if there is one.
#[tactic(auto, using(std::proofs::lemmas::Option::get_or_from_slice_get))]
fn push_first(rows: &mut Places, firsts: &Places, group: Option<usize>) -> Result<(), NoMemory>
    requires { IsPlaceOf (length firsts.now) group }
    ensures { OnOk result (rows.new
        ≡ rows.old ++ words.rows_of_groups firsts.now (group ∷ [])) }
{
    match group {
        Some(group) => rows.push(*firsts.at(group)),
        None => Ok(()),
    }
}

// The first rows of these groups.
fn first_rows(alloc: Global, firsts: &Places, groups: &Gaps) -> Result<Places, NoMemory>
    requires { All (IsPlaceOf (length firsts.now)) groups.now }
    ensures { IfOk result (λ rows. rows ≡ words.rows_of_groups firsts.now groups.now) }
{
    let mut rows = Places::new(alloc);
    for k in 0..groups.len() {
        push_first(&mut rows, firsts, *groups.at(k))?;
    }
    Ok(rows)
}

// The groups of rows with the same labels, in the order of the labels; a row that misses one is in none.
fn groups_of(
    alloc: Global,
    dict: &TextDict,
    on: &ObjRef<'_>,
    told: &Pivoted,
) -> Result<KeyGroups, NoMemory>
    requires known { IsKnownTable dict.now on.now }
    requires told { IsPivoted on.now told.now }
    ensures { let places = meant.label_places (pivoted_value told.now) in
        IfOk result (AreGroupsOf dict.now on.now (meant.groups_by places)) }
{
    groups_by(alloc, dict, on, &told.all(alloc)?, true, true)
}

// What the reduction makes of each group of rows with the same labels, in the order of the labels.
pub(crate) fn cells_of_groups(
    alloc: Global,
    dict: &TextDict,
    on: &ObjRef<'_>,
    told: &Pivoted,
    op: GroupOp,
) -> Result<GroupCells, OpFault>
    requires known { IsKnownTable dict.now on.now }
    requires told { IsPivoted on.now told.now }
    ensures answer { let t = table_value dict.now on.now in
        MakesBy (words.group_series on.now told.now) dict.now result
        (meant.answered_groups t (pivoted_value told.now) (reduction_of op)) }
    ensures rows { IfOk result (λ g. AreRowsOf on.now g.rows) }
    ensures count { IfOk result (λ g. length g.cells.cells ≡ length g.rows) }
    ensures given { IfOk result (λ g. AreGiven dict.now g.cells.cells) }
{
    let found = groups_of(alloc, dict, on, told)?;
    let values = on.column(told.values);
    let reduced = match group_reduce(alloc, dict, &found.groups, values, op) {
        Ok(reduced) => reduced,
        Err(GroupFault::KindMismatch) => return Err(OpFault::Refused(Code::WrongKind)),
        Err(GroupFault::NoMemory) => return Err(OpFault::NoMemory),
    };
    let groups = answered(alloc, &reduced)?;
    let rows = first_rows(alloc, &found.firsts, &groups)?;
    let cells = take(alloc, reduced.as_ref(), &groups)?;
    Ok(GroupCells { rows, cells })
}
