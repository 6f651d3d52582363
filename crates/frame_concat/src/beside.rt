// Series and frames side by side.
ghost use Rattle.std.specs.Prelude.{◌≡◌, ◌<◌, ◌^◌, ◌++◌, true, false, List, length, map, All, IfOk};
ghost use Rattle.std.specs.List.{flat_map};
ghost use Rattle.cell_core.specs.declared.cell.Cell.TheVariants.{Na};
ghost use Rattle.column_core.specs.Moves.{IsPlaceOf};
ghost use Rattle.column_core.specs.cells.Cell.{LabelValue};
ghost use Rattle.frame_store.specs.tables.Settled.{IsSettled};
ghost use Rattle.frame_parts.specs.form.Finish.{limited};
ghost use Rattle.frame_parts.specs.form.Infix.{on_rows};
ghost use Rattle.row_keys.specs.Keys.{same_tuple};
ghost use Rattle.merge_concat.specs.Axes.{tuples_of_each};
ghost use Rattle.frame_store.specs.Parts.{axis_of, columns_of, IsSingle};
ghost use Rattle.frame_store.specs.Shown.{labels_value, Makes};
ghost use Rattle.frame_store.specs.World.{IsKnownTable};
ghost use Rattle.frame_parts.specs.Makes.{blocks_value};
ghost use Rattle.meaning_method.specs.join.Concat.{are_equal};
ghost use Rattle.meaning_method.specs.Concat as meant;
ghost use Rattle.frame_concat.specs.Parts.{parts_value, have_same_levels, AreKnownParts};
ghost use Rattle.frame_concat.specs.Asked.{asked_value};
ghost use Rattle.frame_concat.specs.Axes.{HasLevelsOf, IsAlike};
ghost use Rattle.frame_concat.specs.Beside.{IsAxisFor, AreBlocks, met_beside};

use crate::asked::Asked;
use crate::axes::{axes_of, named};
use crate::headings::headings_beside;
use crate::names::{have_same_levels, name_of_all};
use crate::parts::{Naming, Part};
use cell_core::{Code, Gaps, Grid, NoMemory, Reason, Shape, TextDict};
use column_core::take;
use frame_parts::{rows_of_labels, within_limits};
use frame_select::heading_list;
use frame_store::{Blocks, ObjRef, OpFault, Table};
use merge_concat::{MergeFault, concat_columns, have_same_labels};
use multi_index::Axis;
use std::alloc::Global;

// A part's row for each label, which it has once at most where the labels aren't its own.
fn rows_met(alloc: Global, dict: &TextDict, part: &Part<'_>, axis: &Axis) -> Result<Gaps, NoMemory>
    requires known { IsKnownTable dict.now part.now }
    requires axis { IsAxisFor dict.now axis.now part.now }
    ensures rows { IfOk result (λ rows. rows ≡ meant.rows_met
        (labels_value dict.now part.now.labels) (labels_value dict.now axis.now.tuples)) }
    ensures count { IfOk result (λ rows. length rows ≡ length axis.now.tuples) }
    ensures below { IfOk result (All (IsPlaceOf (length part.now.labels))) }
{
    // Each row has a label for each level: `Axis::levels` does.
    let _ = (part.table().axis().levels(), axis.levels());
    match rows_of_labels(alloc, dict, part.table().axis(), axis) {
        Ok(rows) => Ok(rows),
        Err(OpFault::NoMemory) => Err(NoMemory),
        Err(OpFault::Refused(_)) => unreachable!(),
    }
}

// Behind these blocks the columns of a part at some of its rows.
fn with_columns(
    alloc: Global,
    on: &ObjRef<'_>,
    rows: &Gaps,
    blocks: Blocks,
) -> Result<Blocks, NoMemory>
    requires below { All (IsPlaceOf (length on.now.labels)) rows.now }
    requires single { All IsSingle blocks }
    ensures single { IfOk result (All IsSingle) }
    ensures columns { IfOk result (λ made. columns_of made
        ≡ columns_of blocks ++ on_rows Na rows.now on.now.columns) }
{
    let mut made = blocks;
    for place in 0..on.columns() {
        let column = take(alloc, on.column(place), rows)?;
        made.push(column.into_block())?;
    }
    Ok(made)
}

// The columns of all parts on the rows of an axis.
fn columns_beside(
    alloc: Global,
    dict: &TextDict,
    parts: &[Part<'_>],
    axis: &Axis,
) -> Result<Blocks, NoMemory>
    requires known { AreKnownParts dict.now parts.now }
    requires axis { All (IsAxisFor dict.now axis.now) parts.now }
    ensures blocks { IfOk result (AreBlocks dict.now (length axis.now.tuples)) }
    ensures columns { IfOk result (λ made. blocks_value dict.now made
        ≡ flat_map (meant.columns_beside (labels_value dict.now axis.now.tuples))
        (parts_value dict.now parts.now)) }
{
    let mut made = Blocks::new(alloc);
    for part in parts {
        let rows = rows_met(alloc, dict, part, axis)?;
        made = with_columns(alloc, part.table(), &rows, made)?;
    }
    Ok(made)
}

// The frame of the columns of all parts, on the rows of an axis.
#[tactic(auto, using(crate::proofs::Hints::on_axis))]
fn on_axis(
    alloc: Global,
    dict: &TextDict,
    parts: &[Part<'_>],
    renumbered: bool,
    axis: Axis,
) -> Result<Table, OpFault>
    requires some { 0 < length parts.now }
    requires known { AreKnownParts dict.now parts.now }
    requires given { IsSettled labels_value dict.now axis.tuples }
    requires axis { All (IsAxisFor dict.now axis) parts.now }
    requires levels { HasLevelsOf parts.now axis.names }
    ensures { Makes dict.now result (limited (meant.table_beside
        (parts_value dict.now parts.now) renumbered (labels_value dict.now axis.tuples))) }
{
    let list = headings_beside(alloc, parts, renumbered)?;
    let columns_name = name_of_all(dict, parts, Naming::Columns);
    let headings = heading_list(alloc, columns_name, &list)?;
    if !within_limits(axis.len(), list.len()) {
        return Err(OpFault::Refused(Code::Limit));
    }
    let blocks = columns_beside(alloc, dict, parts, &axis)?;
    let levels = axis.levels();
    let axis = named(dict, axis, parts, levels);
    Ok(Table::new(Shape::Frame, axis, headings, blocks))
}

// Rows that meet by labels, each of which stands once in each part.
#[tactic(auto, using(crate::proofs::Hints::met))]
fn met(
    alloc: Global,
    dict: &TextDict,
    parts: &[Part<'_>],
    asked: &Asked,
    axes: &[&Axis],
) -> Result<Table, OpFault>
    requires some { 0 < length parts.now }
    requires known { AreKnownParts dict.now parts.now }
    requires levels { have_same_levels parts.now ≡ true }
    requires axes { map (λ axis. axis.now) axes.now ≡ map axis_of parts.now }
    requires alike { All IsAlike axes.now }
    requires apart { are_equal same_tuple (tuples_of_each axes.now) ≡ false }
    ensures { Makes dict.now result (met_beside
        (parts_value dict.now parts.now) (asked_value dict.now asked.now)) }
{
    // Equal texts have equal numbers: `TextDict::len` says so.
    let _ = dict.len();
    match concat_columns(alloc, dict, axes, asked.inner) {
        Ok(labels) => {
            let levels = parts[0].table().axis().levels();
            let axis = Axis::from_tuples(alloc, dict, &labels, levels)?;
            on_axis(alloc, dict, parts, asked.renumbered, axis)
        }
        Err(MergeFault::DuplicateLabels(label)) => {
            Err(OpFault::Refused(Code::RepeatedLabel(label)))
        }
        Err(MergeFault::TooLarge) => Err(OpFault::Refused(Code::Limit)),
        Err(MergeFault::NoMemory) => Err(OpFault::NoMemory),
        Err(MergeFault::MixedKinds) | Err(MergeFault::NotOneToOne(_, _)) => unreachable!(),
    }
}

// Side by side: equal labels of rows stay, and else rows meet by their labels.
#[tactic(auto, using(crate::proofs::Hints::beside))]
pub(crate) fn beside(
    alloc: Global,
    dict: &TextDict,
    parts: &[Part<'_>],
    asked: &Asked,
) -> Result<Table, OpFault>
    requires some { 0 < length parts.now }
    requires known { AreKnownParts dict.now parts.now }
    ensures { Makes dict.now result (meant.beside
        (parts_value dict.now parts.now) (asked_value dict.now asked.now)) }
{
    // Equal texts have equal numbers: `TextDict::len` says so.
    let _ = dict.len();
    let axes = axes_of(alloc, parts)?;
    if have_same_labels(&axes) {
        let axis = parts[0].table().axis().copy(alloc)?;
        return on_axis(alloc, dict, parts, asked.renumbered, axis);
    }
    if !have_same_levels(parts) {
        return Err(OpFault::Refused(Code::BadValue(Reason::Levels)));
    }
    met(alloc, dict, parts, asked, &axes)
}
