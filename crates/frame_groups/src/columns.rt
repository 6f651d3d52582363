// Columns that are made by groups, one by one.
ghost use Rattle.std.specs.Prelude.{◌≡◌, ◌≢◌, ◌++◌, true, length, map, IfOk};
ghost use Rattle.column_core.specs.cells.Cell.{AreGiven};
ghost use Rattle.frame_store.specs.tables.Table.{table_value, column_value as seen_column};
ghost use Rattle.frame_store.specs.Parts.{table_column};
ghost use Rattle.frame_store.specs.World.{IsKnownTable};
ghost use Rattle.frame_parts.specs.Makes.{blocks_value};
ghost use Rattle.frame_groups.specs.Columns.{takes, column_made, made_at, rows_made, AreTaken, AreBlocks};

use cell_core::{NoMemory, Places, TextDict};
use column_core::{ColRef, Column};
use factorize::Groups;
use frame_store::{Blocks, ObjRef};
use group_by::{GroupFault, GroupOp, group_cumsum, group_reduce, group_transform};
use std::alloc::Global;

// What is made of a column by groups: a cell for each group, or one for each row.
#[derive(Clone, Copy)]
pub(crate) enum ColumnCall {
    Reduced(GroupOp),
    Transformed(GroupOp),
    Cumsum,
}

// What was made of a kind that is taken.
fn taken(made: Result<Column, GroupFault>) -> Result<Column, NoMemory>
    requires { made ≢ Err GroupFault.KindMismatch }
    ensures { IfOk result (λ column. made ≡ Ok column) }
{
    match made {
        Ok(column) => Ok(column),
        Err(GroupFault::NoMemory) => Err(NoMemory),
        Err(GroupFault::KindMismatch) => unreachable!(),
    }
}

// What a call makes of a column of a kind that it takes.
fn made_column(
    alloc: Global,
    dict: &TextDict,
    groups: &Groups,
    a: ColRef<'_>,
    call: ColumnCall,
) -> Result<Column, NoMemory>
    requires rows { length groups.now.codes ≡ length a.cells }
    requires given { AreGiven dict.now a.cells }
    requires taken { takes call a.kind ≡ true }
    ensures given { IfOk result (λ c. AreGiven dict.now c.cells) }
    ensures rows { IfOk result (λ c. length c.cells ≡ rows_made call groups.now) }
    ensures column { IfOk result (λ c. seen_column dict.now (table_column c)
        ≡ column_made call groups.now (seen_column dict.now (table_column a.entry))) }
{
    match call {
        ColumnCall::Reduced(op) => taken(group_reduce(alloc, dict, groups, a, op)),
        ColumnCall::Transformed(op) => taken(group_transform(alloc, dict, groups, a, op)),
        ColumnCall::Cumsum => taken(group_cumsum(alloc, groups, a)),
    }
}

// These blocks, and one for what a call makes of each of these columns, whose kinds it takes.
#[tactic(auto, using(std::proofs::lemmas::Option::get_or_from_slice_get))]
pub(crate) fn more_columns(
    alloc: Global,
    dict: &TextDict,
    on: &ObjRef<'_>,
    groups: &Groups,
    call: ColumnCall,
    places: &Places,
    blocks: Blocks,
) -> Result<Blocks, NoMemory>
    requires known { IsKnownTable dict.now on.now }
    requires rows { length groups.now.codes ≡ length on.now.labels }
    requires taken { AreTaken call on.now places.now }
    requires blocks { AreBlocks dict.now (rows_made call groups.now) blocks }
    ensures blocks { IfOk result (AreBlocks dict.now (rows_made call groups.now)) }
    ensures columns { let t = table_value dict.now on.now in
        IfOk result (λ made. blocks_value dict.now made
        ≡ blocks_value dict.now blocks ++ map (made_at call groups.now t) places.now) }
{
    let mut made = blocks;
    for k in 0..places.len() {
        let column = made_column(alloc, dict, groups, on.column(*places.at(k)), call)?;
        made.push(column.into_block())?;
    }
    Ok(made)
}
