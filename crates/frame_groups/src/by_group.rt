// Tables that have a row for each group: their keys are the labels of the rows, or columns.
ghost use Rattle.std.specs.Prelude.{◌≡◌, ◌≤◌, ◌^◌, ◌&&◌, length, map, None, IfOk, IfErr};
ghost use Rattle.cell_core.specs.declared.grid.Shape.TheVariants.{Frame};
ghost use Rattle.frame_store.specs.tables.Settled.{IsSettled};
ghost use Rattle.frame_store.specs.tables.Table.{table_value, heading_value};
ghost use Rattle.frame_labels.specs.method.Groups as meant;
ghost use Rattle.frame_parts.specs.Makes.{blocks_value};
ghost use Rattle.frame_store.specs.Parts.{AreRowsOf};
ghost use Rattle.frame_store.specs.Shown.{labels_value, headings_value, Makes};
ghost use Rattle.frame_store.specs.World.{IsKnownTable};
ghost use Rattle.frame_select.specs.Headings.{NamesRepeated, shared_heading};
ghost use Rattle.frame_labels.specs.Levels.{row_labels};
ghost use Rattle.group_by.specs.Operations.{reduction_of};
ghost use Rattle.frame_groups.specs.Columns.{AreBlocks};
ghost use Rattle.frame_groups.specs.Grouped.{grouping_seen, values_seen, HasKeys, AreValues};
ghost use Rattle.frame_groups.specs.Tables.{IsAxis, group_labels, group_names, key_headings, group_headings, shared_key, NamesShared, group_keys};

use crate::checks::{new_headings, new_table};
use crate::columns::{ColumnCall, more_columns};
use crate::grouping::Grouping;
use crate::keys::{groups_of, key_axis};
use crate::kinds::all_taken;
use crate::values::Values;
use cell_core::{Code, Grid, Label, NoMemory, Places, TextDict};
use factorize::Groups;
use frame_select::{expect_unshared, headings_at};
use frame_store::{Blocks, ObjRef, OpFault, Table};
use group_by::{GroupOp, group_size};
use multi_index::Axis;
use std::alloc::Global;

// The headings of the keys, where they are columns. One that another column has too is refused.
fn key_headings(
    alloc: Global,
    on: &ObjRef<'_>,
    grouping: &Grouping,
    own: &[Option<Label>],
) -> Result<Vec<Option<Label>>, OpFault>
    requires { HasKeys on.now grouping.now }
    ensures made { IfOk result (λ made. made.items ≡ key_headings on.now grouping.now) }
    ensures unshared { IfOk result (λ made.
        shared_heading (key_headings on.now grouping.now) own.now ≡ None) }
    ensures refused { IfErr result (λ fault.
        NamesRepeated fault (shared_heading (key_headings on.now grouping.now) own.now)) }
{
    if grouping.as_index {
        return Ok(Vec::new(alloc));
    }
    let labels = headings_at(alloc, on, &grouping.keys)?;
    expect_unshared(alloc, labels.as_slice(), own)?;
    Ok(labels)
}

// The headings of the keys, where they are columns, and these.
#[tactic(auto, using(crate::proofs::Hints::headings_beside))]
fn headings_beside(
    alloc: Global,
    dict: &TextDict,
    on: &ObjRef<'_>,
    grouping: &Grouping,
    own: &[Option<Label>],
) -> Result<Vec<Option<Label>>, OpFault>
    requires known { IsKnownTable dict.now on.now }
    requires keys { HasKeys on.now grouping.now }
    requires own { IsSettled headings_value dict.now own.now }
    ensures made { IfOk result (λ made.
        made.items ≡ group_headings on.now grouping.now own.now) }
    ensures unshared { IfOk result (λ made.
        shared_key dict.now on.now grouping.now own.now ≡ None) }
    ensures refused { IfErr result (λ fault.
        NamesShared dict.now fault (shared_key dict.now on.now grouping.now own.now)) }
{
    // Equal texts have equal numbers: `TextDict::len` says so.
    let _ = dict.len();
    let mut labels = key_headings(alloc, on, grouping, own)?;
    labels.extend_from_slice(own)?;
    Ok(labels)
}

// The axis of groups of which these are the first rows: their keys, or numbers.
#[tactic(auto, using(crate::proofs::Hints::group_axis))]
fn group_axis(
    alloc: Global,
    dict: &TextDict,
    on: &ObjRef<'_>,
    grouping: &Grouping,
    firsts: &Places,
) -> Result<Axis, NoMemory>
    requires known { IsKnownTable dict.now on.now }
    requires keys { HasKeys on.now grouping.now }
    requires firsts { AreRowsOf on.now firsts.now }
    requires few { length firsts.now ≤ 2 ^ 26 }
    requires labels { let t = table_value dict.now on.now in
        labels_value dict.now (map (row_labels on.now grouping.now.keys) firsts.now)
        ≡ meant.keys_of t (grouping_seen dict.now grouping.now) }
    ensures { let t = table_value dict.now on.now in
        let g = grouping_seen dict.now grouping.now in
        IfOk result (IsAxis dict.now (group_labels t g) (group_names t g)) }
{
    if grouping.as_index {
        key_axis(alloc, dict, on, &grouping.keys, firsts)
    } else {
        Axis::range(alloc, firsts.len())
    }
}

// The columns of the keys, where they are columns.
#[tactic(auto, using(crate::proofs::KeyLaws::codes_counted))]
fn key_blocks(
    alloc: Global,
    dict: &TextDict,
    on: &ObjRef<'_>,
    grouping: &Grouping,
    groups: &Groups,
) -> Result<Blocks, NoMemory>
    requires known { IsKnownTable dict.now on.now }
    requires keys { HasKeys on.now grouping.now }
    requires groups { let t = table_value dict.now on.now in
        groups.now ≡ meant.groups_of t (grouping_seen dict.now grouping.now) }
    ensures blocks { IfOk result (AreBlocks dict.now groups.now.count) }
    ensures columns { let t = table_value dict.now on.now in
        IfOk result (λ made. blocks_value dict.now made
        ≡ group_keys t (grouping_seen dict.now grouping.now)) }
{
    let blocks = Blocks::new(alloc);
    if grouping.as_index {
        return Ok(blocks);
    }
    // The rows of a group have one key.
    let first = ColumnCall::Reduced(GroupOp::First);
    more_columns(alloc, dict, on, groups, first, &grouping.keys, blocks)
}

// Whether one column is answered as a Series.
fn is_single(grouping: &Grouping, values: &Values) -> bool
    ensures { result ≡ values.now.single && grouping.now.as_index }
{
    values.single && grouping.as_index
}

// A row for each group, with what a reduction makes of columns.
#[tactic(auto, using(crate::proofs::Hints::reduced))]
pub(crate) fn reduced(
    alloc: Global,
    dict: &TextDict,
    on: &ObjRef<'_>,
    grouping: &Grouping,
    values: &Values,
    op: GroupOp,
) -> Result<Table, OpFault>
    requires known { IsKnownTable dict.now on.now }
    requires shape { on.now.shape ≡ Frame }
    requires keys { HasKeys on.now grouping.now }
    requires values { AreValues on.now values.now }
    ensures { let t = table_value dict.now on.now in
        let g = grouping_seen dict.now grouping.now in
        let v = values_seen dict.now values.now in
        Makes dict.now result (meant.group_answer t g v (meant.reduced (reduction_of op))) }
{
    let call = ColumnCall::Reduced(op);
    if !all_taken(call, on, &values.places) {
        return Err(OpFault::Refused(Code::WrongKind));
    }
    let found = groups_of(alloc, dict, on, grouping)?;
    let own = headings_at(alloc, on, &values.places)?;
    let labels = headings_beside(alloc, dict, on, grouping, own.as_slice())?;
    let single = is_single(grouping, values);
    let name = on.columns_name();
    let count = found.groups.count();
    let headings = new_headings(alloc, name, labels.as_slice(), single, count)?;
    let keys = key_blocks(alloc, dict, on, grouping, &found.groups)?;
    let blocks = more_columns(alloc, dict, on, &found.groups, call, &values.places, keys)?;
    let axis = group_axis(alloc, dict, on, grouping, &found.firsts)?;
    Ok(new_table(single, axis, headings, blocks))
}

// A row for each group, with the number of its rows under this heading.
#[tactic(auto, using(crate::proofs::Hints::sizes))]
pub(crate) fn sizes(
    alloc: Global,
    dict: &TextDict,
    on: &ObjRef<'_>,
    grouping: &Grouping,
    heading: Option<Label>,
) -> Result<Table, OpFault>
    requires known { IsKnownTable dict.now on.now }
    requires shape { on.now.shape ≡ Frame }
    requires keys { HasKeys on.now grouping.now }
    requires heading { heading_value dict.now heading ≡ meant.size_heading grouping.now.as_index }
    requires given { IsSettled heading_value dict.now heading }
    ensures { let t = table_value dict.now on.now in
        let g = grouping_seen dict.now grouping.now in
        (named : meant.Values) → Makes dict.now result (meant.group_answer t g named meant.size) }
{
    let found = groups_of(alloc, dict, on, grouping)?;
    let labels = headings_beside(alloc, dict, on, grouping, &[heading])?;
    let single = grouping.as_index;
    let name = on.columns_name();
    let count = found.groups.count();
    let headings = new_headings(alloc, name, labels.as_slice(), single, count)?;
    let mut blocks = key_blocks(alloc, dict, on, grouping, &found.groups)?;
    let column = group_size(alloc, &found.groups)?;
    blocks.push(column.into_block())?;
    let axis = group_axis(alloc, dict, on, grouping, &found.firsts)?;
    Ok(new_table(single, axis, headings, blocks))
}
