// Tables whose rows are joined by their labels.
ghost use Rattle.std.specs.Prelude.{◌≡◌, ◌≤◌, ◌^◌, length, true, All, IfOk};
ghost use Rattle.std.specs.List.{list_all};
ghost use Rattle.column_core.specs.cells.Cell.{IsLonger};
ghost use Rattle.column_core.specs.cells.Fault.{then_value};
ghost use Rattle.column_core.specs.Moves.{IsPlaceOf};
ghost use Rattle.column_operators.specs.Tasks.{operator_of};
ghost use Rattle.frame_store.specs.tables.Settled.{IsSettled};
ghost use Rattle.frame_store.specs.tables.Table.{table_value};
ghost use Rattle.frame_store.specs.tables.Valid.{IsWhole};
ghost use Rattle.frame_parts.specs.form.Infix as meant;
ghost use Rattle.frame_parts.specs.form.Infix.{common_names};
ghost use Rattle.frame_store.specs.Parts.{axis_of};
ghost use Rattle.frame_store.specs.Shown.{Makes, labels_value, headings_value};
ghost use Rattle.frame_store.specs.World.{IsKnownTable};
ghost use Rattle.frame_parts.specs.Makes.{MakesBy, AreColumns, blocks_value};
ghost use Rattle.frame_ops.specs.declared.other.Other.TheVariants.{Beside};
ghost use Rattle.frame_ops.specs.Joining.{joined_value, joined_within, side_on, IsJoined};
ghost use Rattle.frame_ops.specs.Namings.{named_by, IsNaming, IsSettledNaming};
ghost use Rattle.frame_ops.specs.Pairs.{all_met, kinds_meet, columns_meant};

use crate::columns::infix_columns;
use crate::naming::{Naming, headings_by};
use crate::other::Other;
use cell_core::{Code, Gaps, Grid, NoMemory, TextDict};
use column_operators::Operator;
use frame_parts::{align_refusal, columns_on, common_name, rows_within, within_limits};
use frame_store::{Blocks, ObjRef, OpFault, Table, headings_of};
use label_align::{Joined, outer_within};
use multi_index::Axis;
use std::alloc::Global;

/// The rows of two axes by the labels that either has. `Limit` where they are more than these, before one is made.
#[tactic(auto, using(crate::proofs::JoinLaws::rows_meant, crate::proofs::JoinLaws::rows_refused))]
pub(crate) fn joined_rows(
    alloc: Global,
    dict: &TextDict,
    a: &Axis,
    b: &Axis,
    most: usize,
) -> Result<Joined, OpFault>
    requires few { most ≤ 2 ^ 26 }
    requires levels { length a.now.names ≡ length b.now.names }
    requires given_a { IsSettled labels_value dict.now a.now.tuples }
    requires given_b { IsSettled labels_value dict.now b.now.tuples }
    ensures rows { MakesBy joined_value dict.now result (joined_within most
        (labels_value dict.now a.now.tuples) (labels_value dict.now b.now.tuples)) }
    ensures given { IfOk result (λ rows. IsSettled labels_value dict.now rows.axis.tuples) }
    ensures inside { IfOk result (IsJoined a.now b.now) }
    ensures names { IfOk result (λ rows. length rows.axis.names ≡ length a.now.names) }
{
    // Equal texts have equal numbers: `TextDict::len` says so. Each row has a label for each level: `Axis::levels`
    // does.
    let _ = (dict.len(), a.levels(), b.levels());
    match outer_within(alloc, dict, a, b, most) {
        Ok(rows) => Ok(rows),
        Err(fault) => Err(align_refusal(fault)),
    }
}

// Names the levels of joined rows: a level's name stays where both sides have it.
#[tactic(auto, using(crate::proofs::JoinLaws::all_named))]
fn name_levels(dict: &TextDict, a: &Axis, b: &Axis, axis: &mut Axis)
    requires levels { length a.now.names ≡ length b.now.names }
    requires count { length axis.old.names ≡ length a.now.names }
    requires given_a { IsSettled headings_value dict.now a.now.names }
    requires given_b { IsSettled headings_value dict.now b.now.names }
    ensures tuples { axis.new.tuples ≡ axis.old.tuples }
    ensures names { headings_value dict.now axis.new.names ≡ common_names
        (headings_value dict.now a.now.names) (headings_value dict.now b.now.names) }
    ensures given { IsSettled headings_value dict.now axis.new.names }
{
    for level in 0..a.levels() {
        axis.set_name(level, common_name(dict, a.name(level), b.name(level)));
    }
}

// A side on joined rows, which are numbered.
#[tactic(auto, using(crate::proofs::JoinLaws::side_is_whole))]
fn side_on(alloc: Global, on: &ObjRef<'_>, rows: &Gaps) -> Result<Table, NoMemory>
    requires whole { IsWhole on.now }
    requires few { length rows.now ≤ 2 ^ 26 }
    requires rows { All (IsPlaceOf (length on.now.labels)) rows.now }
    ensures { IfOk result (λ made. made ≡ side_on on.now rows.now) }
{
    let axis = Axis::range(alloc, rows.len())?;
    let headings = headings_of(alloc, on)?;
    let blocks = columns_on(alloc, on, rows)?;
    Ok(Table::new(on.shape(), axis, headings, blocks))
}

// What the operator makes of the columns of two tables on the joined rows. `Limit` before a row is made, then
// `ZeroDivide`.
#[tactic(auto, using(crate::proofs::Hints::joined_columns))]
fn joined_columns(
    alloc: Global,
    dict: &mut TextDict,
    op: Operator,
    a: &ObjRef<'_>,
    b: &ObjRef<'_>,
    rows: &Joined,
) -> Result<Blocks, OpFault>
    requires known_a { IsKnownTable dict.old a.now }
    requires known_b { IsKnownTable dict.old b.now }
    requires columns { length b.now.columns ≡ length a.now.columns }
    requires kinds { list_all (kinds_meet (operator_of op)) (all_met a.now (Beside b.now)) ≡ true }
    requires inside { IsJoined (axis_of a.now) (axis_of b.now) rows.now }
    ensures longer { IsLonger dict.old dict.new }
    ensures columns { IfOk result (AreColumns dict.new
        (length rows.now.axis.tuples) (length a.now.columns)) }
    ensures made { MakesBy blocks_value dict.new result
        (columns_meant (operator_of op) (length rows.now.axis.tuples) true (meant.joined_columns
        (table_value dict.old a.now) (table_value dict.old b.now) (joined_value dict.old rows.now))) }
{
    if !within_limits(rows.axis.len(), a.columns()) {
        return Err(OpFault::Refused(Code::Limit));
    }
    let left = side_on(alloc, a, &rows.left)?;
    let right = side_on(alloc, b, &rows.right)?;
    let on = left.read();
    let other = Other::Beside(right.read());
    infix_columns(alloc, dict, op, &on, &other)
}

/// Two tables whose columns meet in order, and whose rows are joined: each row meets each row of its label, or none.
///
/// `Limit` before a row is joined, then `ZeroDivide`. `NoMemory` may come in place of any answer.
#[tactic(auto, using(crate::proofs::Hints::joined_infix))]
pub(crate) fn joined_infix(
    alloc: Global,
    dict: &mut TextDict,
    op: Operator,
    a: &ObjRef<'_>,
    b: &ObjRef<'_>,
    naming: Naming,
) -> Result<Table, OpFault>
    requires known_a { IsKnownTable dict.old a.now }
    requires known_b { IsKnownTable dict.old b.now }
    requires columns { length b.now.columns ≡ length a.now.columns }
    requires levels { length a.now.level_names ≡ length b.now.level_names }
    requires kinds { list_all (kinds_meet (operator_of op)) (all_met a.now (Beside b.now)) ≡ true }
    requires naming { IsNaming a.now naming }
    requires name { IsSettledNaming dict.old naming }
    ensures longer { IsLonger dict.old dict.new }
    ensures makes { Makes dict.new result (then_value
        (meant.joined_rows (table_value dict.old a.now).labels (table_value dict.old b.now).labels)
        (meant.joined_infix (operator_of op) (table_value dict.old a.now)
        (table_value dict.old b.now) (table_value dict.old (named_by a.now naming)))) }
{
    let most = rows_within(a.columns());
    let mut rows = joined_rows(alloc, dict, a.axis(), b.axis(), most)?;
    name_levels(dict, a.axis(), b.axis(), &mut rows.axis);
    let blocks = joined_columns(alloc, dict, op, a, b, &rows)?;
    let headings = headings_by(alloc, a, naming)?;
    Ok(Table::new(a.shape(), rows.axis, headings, blocks))
}
