// Tables that have the rows of the frame, with what is made by the group of each row.
ghost use Rattle.std.specs.Prelude.{◌≡◌};
ghost use Rattle.cell_core.specs.declared.grid.Shape.TheVariants.{Frame};
ghost use Rattle.frame_store.specs.tables.Table.{table_value};
ghost use Rattle.frame_labels.specs.method.Groups as meant;
ghost use Rattle.frame_store.specs.Shown.{Makes};
ghost use Rattle.frame_store.specs.World.{IsKnownTable};
ghost use Rattle.frame_groups.specs.Columns.{row_call_of, IsByRow};
ghost use Rattle.frame_groups.specs.Grouped.{grouping_seen, values_seen, HasKeys, AreValues};

use crate::checks::{new_headings, new_table};
use crate::columns::{ColumnCall, more_columns};
use crate::grouping::Grouping;
use crate::keys::groups_of;
use crate::kinds::all_taken;
use crate::values::Values;
use cell_core::{Code, Grid, TextDict};
use frame_select::headings_at;
use frame_store::{Blocks, ObjRef, OpFault, Table};
use group_by::group_cumcount;
use std::alloc::Global;

// The rows as they are, with what a call makes of columns.
#[tactic(auto, using(crate::proofs::Hints::along_rows))]
pub(crate) fn along_rows(
    alloc: Global,
    dict: &TextDict,
    on: &ObjRef<'_>,
    grouping: &Grouping,
    values: &Values,
    call: ColumnCall,
) -> Result<Table, OpFault>
    requires known { IsKnownTable dict.now on.now }
    requires shape { on.now.shape ≡ Frame }
    requires keys { HasKeys on.now grouping.now }
    requires values { AreValues on.now values.now }
    requires call { IsByRow call }
    ensures { let t = table_value dict.now on.now in
        let g = grouping_seen dict.now grouping.now in
        let v = values_seen dict.now values.now in
        Makes dict.now result (meant.group_answer t g v (row_call_of call)) }
{
    if !all_taken(call, on, &values.places) {
        return Err(OpFault::Refused(Code::WrongKind));
    }
    let found = groups_of(alloc, dict, on, grouping)?;
    let labels = headings_at(alloc, on, &values.places)?;
    let single = values.single;
    let name = on.columns_name();
    let headings = new_headings(alloc, name, labels.as_slice(), single, on.rows())?;
    let blocks = Blocks::new(alloc);
    let made = more_columns(alloc, dict, on, &found.groups, call, &values.places, blocks)?;
    let axis = on.axis().copy(alloc)?;
    Ok(new_table(single, axis, headings, made))
}

// The rows as they are, each with its place in its group.
pub(crate) fn counts(
    alloc: Global,
    dict: &TextDict,
    on: &ObjRef<'_>,
    grouping: &Grouping,
) -> Result<Table, OpFault>
    requires known { IsKnownTable dict.now on.now }
    requires shape { on.now.shape ≡ Frame }
    requires keys { HasKeys on.now grouping.now }
    ensures { let t = table_value dict.now on.now in
        let g = grouping_seen dict.now grouping.now in
        (named : meant.Values) → Makes dict.now result (meant.group_answer t g named meant.cumcount) }
{
    let found = groups_of(alloc, dict, on, grouping)?;
    let headings = new_headings(alloc, None, &[None], true, on.rows())?;
    let column = group_cumcount(alloc, &found.groups)?;
    let mut blocks = Blocks::new(alloc);
    blocks.push(column.into_block())?;
    let axis = on.axis().copy(alloc)?;
    Ok(new_table(true, axis, headings, blocks))
}
