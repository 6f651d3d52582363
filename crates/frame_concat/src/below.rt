// Series or frames one below the other.
ghost use Rattle.std.specs.Prelude.{◌≡◌, ◌<◌, ◌≤◌, ◌^◌, true, None, length, All, IfOk};
ghost use Rattle.cell_core.specs.declared.grid.Shape.TheVariants.{Series, Frame};
ghost use Rattle.frame_store.specs.tables.Settled.{IsSettled};
ghost use Rattle.frame_store.specs.tables.Valid.{AreHeadings};
ghost use Rattle.frame_parts.specs.form.Finish.{same_heading as same_label};
ghost use Rattle.meaning_method.specs.join.Concat.{united, are_equal, first_axis};
ghost use Rattle.frame_store.specs.Shown.{headings_value, Makes};
ghost use Rattle.meaning_method.specs.Concat as meant;
ghost use Rattle.frame_concat.specs.Parts.{parts_value, same_heading, headings_of_each, have_same_levels, AreOf, AreKnownParts};
ghost use Rattle.frame_concat.specs.Columns.{rows_in};
ghost use Rattle.frame_concat.specs.Asked.{asked_value, AreKeysFor};
ghost use Rattle.frame_concat.specs.Axes.{axis_seen, IsRoom};
ghost use Rattle.frame_concat.specs.Below.{table_made, IsSoughtIn};

use crate::asked::Asked;
use crate::axes::{axes_of, levels_for, named, rows_in};
use crate::columns::{all_kinds_meet, columns_in_order, columns_under, stacked_columns};
use crate::headings::united_headings;
use crate::names::{
    are_frames, are_series, have_same_headings, have_same_levels, name_of_all, repeated_in_any,
};
use crate::parts::{Naming, Part, Sought};
use cell_core::{Code, Grid, Label, NoMemory, Reason, Shape, TextDict, Tuple};
use frame_parts::within_limits;
use frame_select::heading_list;
use frame_store::{OpFault, Table};
use merge_concat::axis_below;
use multi_index::Axis;
use std::alloc::Global;

// The axis of the rows of all parts, which are so many.
#[tactic(auto, using(crate::proofs::Hints::axis_of_all))]
fn axis_of_all(
    alloc: Global,
    dict: &TextDict,
    parts: &[Part<'_>],
    asked: &Asked,
    rows: usize,
) -> Result<Axis, NoMemory>
    requires some { 0 < length parts.now }
    requires known { AreKnownParts dict.now parts.now }
    requires levels { have_same_levels parts.now ≡ true }
    requires rows { rows ≡ rows_in parts.now }
    requires few { rows ≤ 2 ^ 26 }
    requires room { IsRoom parts.now asked.now }
    requires keys { IsSettled asked_value dict.now asked.now }
    requires fit { AreKeysFor (length parts.now) asked.now }
    ensures axis { IfOk result (λ axis. axis_seen dict.now axis
        ≡ (let c = asked_value dict.now asked.now in
        meant.rows_below c.renumbered c.keys (parts_value dict.now parts.now))) }
    ensures given { IfOk result (λ axis. IsSettled axis_seen dict.now axis) }
    ensures count { IfOk result (λ axis. length axis.tuples ≡ rows) }
{
    if asked.renumbered {
        return Axis::range(alloc, rows);
    }
    let axes = axes_of(alloc, parts)?;
    let keys = match &asked.keys {
        Some(keys) => Some(keys.as_slice()),
        None => None,
    };
    let axis = axis_below(alloc, dict, &axes, keys)?;
    Ok(named(dict, axis, parts, parts[0].table().levels()))
}

// The table of all rows, under these headings: for each a column that is made of the columns sought in the parts.
fn table_below(
    alloc: Global,
    dict: &TextDict,
    parts: &[Part<'_>],
    asked: &Asked,
    shape: Shape,
    headings: &[Option<Label>],
    columns: &[Sought],
) -> Result<Table, OpFault>
    requires some { 0 < length parts.now }
    requires known { AreKnownParts dict.now parts.now }
    requires shape { AreOf shape parts.now }
    requires levels { have_same_levels parts.now ≡ true }
    requires keys { IsSettled asked_value dict.now asked.now }
    requires fit { AreKeysFor (length parts.now) asked.now }
    requires headings { AreHeadings shape None headings.now }
    requires given { IsSettled headings_value dict.now headings.now }
    requires each { length columns.now ≡ length headings.now }
    requires columns { All (IsSoughtIn dict.now parts.now) columns.now }
    ensures { Makes dict.now result (table_made dict.now shape (parts_value dict.now parts.now)
        (asked_value dict.now asked.now) columns.now (headings_value dict.now headings.now)) }
{
    // Equal texts have equal numbers: `TextDict::len` says so.
    let _ = dict.len();
    if !all_kinds_meet(parts, columns) {
        return Err(OpFault::Refused(Code::WrongKind));
    }
    let Some(rows) = rows_in(parts) else {
        return Err(OpFault::Refused(Code::Limit));
    };
    if levels_for(&parts[0], asked) > 4 {
        return Err(OpFault::Refused(Code::Limit));
    }
    if !within_limits(rows, headings.len()) {
        return Err(OpFault::Refused(Code::Limit));
    }
    let axis = axis_of_all(alloc, dict, parts, asked, rows)?;
    let blocks = stacked_columns(alloc, parts, columns, rows)?;
    let columns_name = name_of_all(dict, parts, Naming::Columns);
    let headings = heading_list(alloc, columns_name, headings)?;
    Ok(Table::new(shape, axis, headings, blocks))
}

// Series one below the other, under a name that all have.
#[tactic(auto, using(crate::proofs::PartLaws::levels_as))]
fn series_below(
    alloc: Global,
    dict: &TextDict,
    parts: &[Part<'_>],
    asked: &Asked,
) -> Result<Table, OpFault>
    requires some { 0 < length parts.now }
    requires known { AreKnownParts dict.now parts.now }
    requires shape { AreOf Series parts.now }
    requires keys { IsSettled asked_value dict.now asked.now }
    requires fit { AreKeysFor (length parts.now) asked.now }
    ensures { let ts = parts_value dict.now parts.now in
        let c = asked_value dict.now asked.now in
        Makes dict.now result (meant.same_levels ts (meant.series_below ts c)) }
{
    if !have_same_levels(parts) {
        return Err(OpFault::Refused(Code::BadValue(Reason::Levels)));
    }
    let name = name_of_all(dict, parts, Naming::Series);
    let only = Sought::At(0);
    table_below(alloc, dict, parts, asked, Shape::Series, &[name], &[only])
}

// Frames of equal headings one below the other: columns meet by position.
#[tactic(auto, using(crate::proofs::Hints::frames_in_order))]
fn frames_in_order(
    alloc: Global,
    dict: &TextDict,
    parts: &[Part<'_>],
    asked: &Asked,
) -> Result<Table, OpFault>
    requires some { 0 < length parts.now }
    requires known { AreKnownParts dict.now parts.now }
    requires shape { AreOf Frame parts.now }
    requires levels { have_same_levels parts.now ≡ true }
    requires keys { IsSettled asked_value dict.now asked.now }
    requires fit { AreKeysFor (length parts.now) asked.now }
    requires equal { are_equal same_heading (headings_of_each parts.now) ≡ true }
    ensures { let ts = parts_value dict.now parts.now in
        let c = asked_value dict.now asked.now in
        Makes dict.now result (meant.frames_in_order ts c (first_axis (headings_of_each ts))) }
{
    let headings = parts[0].headings();
    let columns = columns_in_order(alloc, headings.len())?;
    table_below(alloc, dict, parts, asked, Shape::Frame, headings, &columns)
}

// Frames of other headings one below the other: a column for each label that a part has, or that all have.
#[tactic(auto, using(crate::proofs::Hints::frames_by_label))]
fn frames_by_label(
    alloc: Global,
    dict: &TextDict,
    parts: &[Part<'_>],
    asked: &Asked,
) -> Result<Table, OpFault>
    requires some { 0 < length parts.now }
    requires known { AreKnownParts dict.now parts.now }
    requires shape { AreOf Frame parts.now }
    requires levels { have_same_levels parts.now ≡ true }
    requires keys { IsSettled asked_value dict.now asked.now }
    requires fit { AreKeysFor (length parts.now) asked.now }
    ensures { let ts = parts_value dict.now parts.now in
        let c = asked_value dict.now asked.now in
        let headings = united same_label c.inner (headings_of_each ts) in
        Makes dict.now result (meant.frames_by_label ts c headings) }
{
    // Equal texts have equal numbers: `TextDict::len` says so.
    let _ = dict.len();
    let headings = united_headings(alloc, parts, asked.inner)?;
    let columns = columns_under(alloc, &headings)?;
    table_below(alloc, dict, parts, asked, Shape::Frame, &headings, &columns)
}

// Frames one below the other, by position or by labels. No part repeats a label where headings differ.
#[tactic(auto, using(crate::proofs::Hints::frames_below))]
fn frames_below(
    alloc: Global,
    dict: &TextDict,
    parts: &[Part<'_>],
    asked: &Asked,
) -> Result<Table, OpFault>
    requires some { 0 < length parts.now }
    requires known { AreKnownParts dict.now parts.now }
    requires shape { AreOf Frame parts.now }
    requires keys { IsSettled asked_value dict.now asked.now }
    requires fit { AreKeysFor (length parts.now) asked.now }
    ensures { let ts = parts_value dict.now parts.now in
        let c = asked_value dict.now asked.now in
        Makes dict.now result (meant.same_levels ts (meant.frames_below ts c)) }
{
    // Equal texts have equal numbers: `TextDict::len` says so.
    let _ = dict.len();
    if !have_same_levels(parts) {
        return Err(OpFault::Refused(Code::BadValue(Reason::Levels)));
    }
    if have_same_headings(parts) {
        return frames_in_order(alloc, dict, parts, asked);
    }
    match repeated_in_any(parts) {
        Some(label) => {
            let label = Tuple::of(alloc, &[label]);
            Err(OpFault::Refused(Code::RepeatedLabel(label)))
        }
        None => frames_by_label(alloc, dict, parts, asked),
    }
}

// Series alone or frames alone, one below the other.
#[tactic(auto, using(crate::proofs::Hints::below))]
pub(crate) fn below(
    alloc: Global,
    dict: &TextDict,
    parts: &[Part<'_>],
    asked: &Asked,
) -> Result<Table, OpFault>
    requires some { 0 < length parts.now }
    requires known { AreKnownParts dict.now parts.now }
    requires keys { IsSettled asked_value dict.now asked.now }
    requires fit { AreKeysFor (length parts.now) asked.now }
    ensures { Makes dict.now result (meant.below
        (parts_value dict.now parts.now) (asked_value dict.now asked.now)) }
{
    if are_series(parts) {
        return series_below(alloc, dict, parts, asked);
    }
    if are_frames(parts) {
        return frames_below(alloc, dict, parts, asked);
    }
    Err(OpFault::Refused(Code::WrongKind))
}
