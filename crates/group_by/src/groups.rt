// The calls on codes.
ghost use Rattle.std.specs.Prelude.{◌≡◌, ℕ, List, length, IfOk};
ghost use Rattle.column_core.specs.cells.Cell.{AreGiven};
ghost use Rattle.column_core.specs.Columns.{column_value};
ghost use Rattle.factorize.specs.group.Reductions.{reduce_groups, transform_groups, cumsum_groups, group_sizes, group_places};
ghost use Rattle.group_by.specs.Operations.{reduction_of};
ghost use Rattle.group_by.specs.Answers.{Answers};

use crate::counts::{places, sizes};
use crate::ops::{GroupFault, GroupOp};
use crate::reduce::{reduced, takes};
use crate::running::running_sums;
use cell_core::{Kind, NoMemory, TextDict};
use column_core::{ColRef, Column, take};
use factorize::RowGroups;
use std::alloc::Global;

/// What a reduction makes of the cells of each group, one cell a group: of the present cells alone, so that a sum, a
/// count and a number of different cells are 0 where there is none, and the others NA ("Group by:
/// split-apply-combine" in the pandas user guide, "Aggregation").
///
/// # Errors
///
/// `KindMismatch` exactly where the cells are texts and their sum is asked for. `NoMemory` may come in place of any
/// answer.
pub fn group_reduce<C: RowGroups>(
    alloc: Global,
    dict: &TextDict,
    codes: &C,
    a: ColRef<'_>,
    op: GroupOp,
) -> Result<Column, GroupFault>
    requires rows { length (C.groups_of codes.now).codes ≡ length a.cells }
    requires given { AreGiven dict.now a.cells }
    ensures given { IfOk result (λ c. AreGiven dict.now c.cells) }
    ensures answer { Answers dict.now result
        (reduce_groups (reduction_of op) (C.groups_of codes.now) (column_value dict.now a.entry)) }
{
    if !takes(op, a.kind()) {
        return Err(GroupFault::KindMismatch);
    }
    Ok(reduced(alloc, dict, op, codes.groups(), &a)?)
}

/// At each row what a reduction makes of the cells of its group; NA where the row has no group
/// ("Group by: split-apply-combine" in the pandas user guide, "Transformation").
///
/// # Errors
///
/// `KindMismatch` exactly where the cells are texts and their sum is asked for. `NoMemory` may come in place of any
/// answer.
#[tactic(auto, using(crate::proofs::Hints::group_transform))]
pub fn group_transform<C: RowGroups>(
    alloc: Global,
    dict: &TextDict,
    codes: &C,
    a: ColRef<'_>,
    op: GroupOp,
) -> Result<Column, GroupFault>
    requires rows { length (C.groups_of codes.now).codes ≡ length a.cells }
    requires given { AreGiven dict.now a.cells }
    ensures given { IfOk result (λ c. AreGiven dict.now c.cells) }
    ensures answer { let cells = column_value dict.now a.entry in
        Answers dict.now result (transform_groups (reduction_of op) (C.groups_of codes.now) cells) }
{
    if !takes(op, a.kind()) {
        return Err(GroupFault::KindMismatch);
    }
    let cells = reduced(alloc, dict, op, codes.groups(), &a)?;
    Ok(take(alloc, cells.as_ref(), codes.groups().codes())?)
}

/// At each row the sum of the present cells of its group up to the row; NA where the row's cell is missing or the
/// row has no group. A sum wraps, and takes True as 1.
///
/// # Errors
///
/// `KindMismatch` exactly where the cells are texts. `NoMemory` may come in place of any answer.
pub fn group_cumsum<C: RowGroups>(
    alloc: Global,
    codes: &C,
    a: ColRef<'_>,
) -> Result<Column, GroupFault>
    requires { length (C.groups_of codes.now).codes ≡ length a.cells }
    ensures given { IfOk result (λ c. (texts : List (List ℕ)) → AreGiven texts c.cells) }
    ensures answer { (texts : List (List ℕ)) → Answers texts result
        (cumsum_groups (C.groups_of codes.now) (column_value texts a.entry)) }
{
    if a.kind() == Kind::Text {
        return Err(GroupFault::KindMismatch);
    }
    Ok(running_sums(alloc, codes.groups(), &a)?)
}

/// How many rows each group has. `NoMemory` is the only refusal.
pub fn group_size<C: RowGroups>(alloc: Global, codes: &C) -> Result<Column, NoMemory>
    ensures given { IfOk result (λ c. (texts : List (List ℕ)) → AreGiven texts c.cells) }
    ensures answer { (texts : List (List ℕ)) → IfOk result (λ c.
        column_value texts c ≡ group_sizes (C.groups_of codes.now)) }
{
    sizes(alloc, codes.groups())
}

/// The place of each row in its group, counted from 0; NA where the row has no group. `NoMemory` is the only refusal.
pub fn group_cumcount<C: RowGroups>(alloc: Global, codes: &C) -> Result<Column, NoMemory>
    ensures given { IfOk result (λ c. (texts : List (List ℕ)) → AreGiven texts c.cells) }
    ensures answer { (texts : List (List ℕ)) → IfOk result (λ c.
        column_value texts c ≡ group_places (C.groups_of codes.now)) }
{
    places(alloc, codes.groups())
}
