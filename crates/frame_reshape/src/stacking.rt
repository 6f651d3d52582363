// `stack`: the columns of a frame as a level of the labels of its rows.
ghost use Rattle.std.specs.Prelude.{◌≡◌, ◌<◌, ◌≤◌, ◌++◌, [], None, length, slice_index_or, IfOk, OnOk};
ghost use Rattle.cell_core.specs.declared.grid.Shape.TheVariants.{Frame};
ghost use Rattle.frame_store.specs.tables.Table.{table_value};
ghost use Rattle.frame_store.specs.tables.Valid.{IsWhole};
ghost use Rattle.frame_labels.specs.method.Reshape as meant;
ghost use Rattle.frame_store.specs.Parts.{labelled};
ghost use Rattle.frame_store.specs.Shown.{Makes};
ghost use Rattle.frame_store.specs.World.{IsKnownTable};
ghost use Rattle.frame_labels.specs.Labels.{column_tuple};
ghost use Rattle.frame_reshape.specs.Stacks as words;

use crate::checks::{are_of_one_kind, refusal_of, rows_within_limits};
use cell_core::{Code, Grid, Label, NoMemory, TextDict, Tuple, Tuples};
use frame_labels::{column_label, columns_at};
use frame_select::places_below;
use frame_store::{ObjRef, OpFault, Table, series_table};
use multi_index::Axis;
use reshape::stack_block;
use std::alloc::Global;

// The labels of a row, and then that of a column.
#[tactic(auto, using(crate::proofs::StackLaws::stacked_tuple))]
fn stacked_tuple(alloc: Global, on: &ObjRef<'_>, row: usize, column: usize) -> Tuple
    requires row { row < length on.now.labels }
    requires column { column < length on.now.columns }
    requires few { length on.now.level_names ≤ 3 }
    ensures { result ≡ slice_index_or on.now.labels row []
        ++ column_tuple (slice_index_or on.now.headings column None) }
{
    let mut labels = [Label::Na; 4];
    let axis = on.axis();
    let levels = axis.levels();
    for level in 0..levels {
        labels[level] = axis.label(row, level);
    }
    labels[levels] = column_label(on.heading(column));
    Tuple::of(alloc, &labels[..levels + 1])
}

// Appends the labels of a row, with those of each column.
#[tactic(auto, using(crate::proofs::StackLaws::push_row))]
fn push_row(alloc: Global, tuples: &mut Tuples, on: &ObjRef<'_>, row: usize) -> Result<(), NoMemory>
    requires whole { IsWhole on.now }
    requires row { row < length on.now.labels }
    requires few { length on.now.level_names ≤ 3 }
    ensures { OnOk result (tuples.new ≡ tuples.old
        ++ words.row_with_columns on.now (slice_index_or on.now.labels row [])) }
{
    for column in 0..on.columns() {
        tuples.push(stacked_tuple(alloc, on, row, column))?;
    }
    Ok(())
}

// The labels of each row, with those of each column.
#[tactic(auto, using(crate::proofs::StackLaws::stacked_rows))]
fn stacked_tuples(alloc: Global, on: &ObjRef<'_>) -> Result<Tuples, NoMemory>
    requires whole { IsWhole on.now }
    requires few { length on.now.level_names ≤ 3 }
    ensures { IfOk result (λ tuples. tuples ≡ words.stacked_tuples on.now) }
{
    let mut tuples = Tuples::new(alloc);
    for row in 0..on.rows() {
        push_row(alloc, &mut tuples, on, row)?;
    }
    Ok(tuples)
}

// The axis of these labels: the levels of the rows, and one more, which has the columns' name.
#[tactic(auto, using(crate::proofs::StackLaws::named_levels))]
fn stacked_axis(alloc: Global, dict: &TextDict, on: &ObjRef<'_>) -> Result<Axis, NoMemory>
    requires whole { IsWhole on.now }
    requires few { length on.now.level_names ≤ 3 }
    ensures { IfOk result (λ axis. labelled axis ≡ words.stacked_axis on.now) }
{
    let tuples = stacked_tuples(alloc, on)?;
    let levels = on.axis().levels();
    let mut axis = Axis::from_tuples(alloc, dict, &tuples, levels + 1)?;
    for level in 0..levels {
        axis.set_name(level, on.level_name(level));
    }
    axis.set_name(levels, on.columns_name());
    Ok(axis)
}

// The cells of a frame, row by row, as a Series under the labels of the rows and of the columns.
pub(crate) fn stack(alloc: Global, dict: &TextDict, on: &ObjRef<'_>) -> Result<Table, OpFault>
    requires known { IsKnownTable dict.now on.now }
    requires shape { on.now.shape ≡ Frame }
    ensures { Makes dict.now result (meant.stack_result (table_value dict.now on.now)) }
{
    let places = places_below(alloc, on.columns())?;
    if !are_of_one_kind(on, &places) {
        return Err(OpFault::Refused(Code::WrongKind));
    }
    if on.levels() > 3 {
        return Err(OpFault::Refused(Code::Limit));
    }
    match rows_within_limits(on.rows(), on.columns(), 1) {
        Some(_) => {}
        None => return Err(OpFault::Refused(Code::Limit)),
    }
    let columns = columns_at(alloc, on, &places)?;
    let cells = match stack_block(alloc, &columns) {
        Ok(cells) => cells,
        Err(fault) => return Err(refusal_of(fault)),
    };
    let axis = stacked_axis(alloc, dict, on)?;
    Ok(series_table(alloc, axis, None, cells)?)
}
