// Levels of the rows as the first columns of a frame, whose rows get the labels 0, 1 and so on.
ghost use Rattle.std.specs.Prelude.{◌≡◌, ◌<◌, ◌≤◌, ◌++◌, ◌+◌, ◌*◌, ℕ, List, length, map, unwrap_or, Some, IfOk, OnOk, codes, decimal, All, IsSome};
ghost use Rattle.std.specs.List.{list_any};
ghost use Rattle.column_core.specs.cells.Text.{Text as OneText};
ghost use Rattle.column_core.specs.cells.Cell.{IsLonger, label_datum};
ghost use Rattle.frame_store.specs.tables.Settled.{IsSettled};
ghost use Rattle.frame_store.specs.tables.Table.{heading_value, table_value};
ghost use Rattle.frame_parts.specs.form.Finish.{same_heading as same_as};
ghost use Rattle.frame_parts.specs.Makes.{blocks_value, AreColumns};
ghost use Rattle.frame_store.specs.Derivations.{Extends, IsWithin};
ghost use Rattle.frame_store.specs.Shown.{headings_value};
ghost use Rattle.frame_store.specs.World.{IsKnownTable};
ghost use Rattle.meaning_method.specs.Levels as meant;
ghost use Rattle.meaning_method.specs.Methods.{as_frame};
ghost use Rattle.frame_labels.specs.Resets.{frame_headings, reset_headings, reset_result};

use crate::column_labels::column_label;
use crate::level_columns::level_columns;
use cell_core::{Code, Grid, Label, NoMemory, Shape, TextDict};
use frame_parts::{same_heading, within_limits};
use frame_select::{expect_unshared, heading_list};
use frame_store::{Blocks, Extension, ObjRef, OpFault};
use multi_index::Axis;
use std::alloc::Global;

// The label of the column of a level without a name, by the level's number.
fn numbered_label(level: usize) -> &'static str
    requires { level < 4 }
    ensures { result.now ≡ codes "level_" ++ decimal level }
{
    match level {
        0 => "level_0",
        1 => "level_1",
        2 => "level_2",
        _ => "level_3",
    }
}

// Whether a column of the frame has the label.
fn has_label(dict: &TextDict, on: &ObjRef<'_>, label: Label) -> bool
    requires known { IsKnownTable dict.now on.now }
    requires label { IsSettled label_datum dict.now label }
    ensures { result ≡ list_any (same_as (heading_value dict.now (Some label)))
        (headings_value dict.now (frame_headings on.now)) }
{
    for place in 0..on.columns() {
        let other = column_label(on.heading(place));
        if same_heading(dict, Some(label), Some(other)) {
            return true;
        }
    }
    false
}

// The label `index`, where the one level may have it as the label of its column.
fn index_label(dict: &mut TextDict, on: &ObjRef<'_>) -> Result<Option<Label>, NoMemory>
    requires { IsKnownTable dict.old on.now }
    ensures longer { IsLonger dict.old dict.new }
    ensures given { IfOk result (IsSettled heading_value dict.new) }
    ensures label { IfOk result (λ found. (level : ℕ)
        → meant.nameless_label (as_frame (table_value dict.old on.now)) level
        ≡ unwrap_or (heading_value dict.new found) (meant.numbered_label level)) }
{
    if on.levels() != 1 {
        return Ok(None);
    }
    let index = Label::Text(dict.intern("index")?);
    if has_label(dict, on, index) {
        return Ok(None);
    }
    Ok(Some(index))
}

// The label of the column of a level without a name.
fn nameless_label(dict: &mut TextDict, on: &ObjRef<'_>, level: usize) -> Result<Label, NoMemory>
    requires known { IsKnownTable dict.old on.now }
    requires level { level < 4 }
    ensures longer { IsLonger dict.old dict.new }
    ensures given { IfOk result (IsSettled label_datum dict.new) }
    ensures label { IfOk result (λ label. label_datum dict.new label
        ≡ meant.nameless_label (as_frame (table_value dict.old on.now)) level) }
{
    match index_label(dict, on)? {
        Some(index) => Ok(index),
        None => Ok(Label::Text(dict.intern(numbered_label(level))?)),
    }
}

// The label of the column of a level: its name, or a text that stands for one.
#[tactic(auto, using(std::proofs::Common::slice_get, crate::proofs::ResetLaws::level_named))]
fn level_label(dict: &mut TextDict, on: &ObjRef<'_>, level: usize) -> Result<Label, NoMemory>
    requires known { IsKnownTable dict.old on.now }
    requires level { level < length on.now.level_names }
    requires few { length on.now.level_names ≤ 4 }
    ensures longer { IsLonger dict.old dict.new }
    ensures given { IfOk result (IsSettled label_datum dict.new) }
    ensures label { IfOk result (λ label. label_datum dict.new label
        ≡ meant.level_label (as_frame (table_value dict.old on.now)) level) }
{
    match on.axis().name(level) {
        Some(name) => Ok(name),
        None => nameless_label(dict, on, level),
    }
}

// The labels of the columns of all levels.
#[tactic(auto, using(crate::proofs::ResetLaws::all_levels))]
fn level_labels(
    alloc: Global,
    dict: &mut TextDict,
    on: &ObjRef<'_>,
) -> Result<Vec<Option<Label>>, NoMemory>
    requires { IsKnownTable dict.old on.now }
    ensures longer { IsLonger dict.old dict.new }
    ensures given { IfOk result (λ made. IsSettled headings_value dict.new made.items) }
    ensures labels { IfOk result (λ made. headings_value dict.new made.items
        ≡ map (λ l. Some l) (meant.level_labels (as_frame (table_value dict.old on.now)))) }
{
    let mut labels = Vec::new(alloc);
    for level in 0..on.axis().levels() {
        labels.push(Some(level_label(dict, on, level)?))?;
    }
    Ok(labels)
}

// Appends the labels of the columns of a frame.
fn push_headings(labels: &mut Vec<Option<Label>>, on: &ObjRef<'_>) -> Result<(), NoMemory>
    requires { length on.now.headings ≡ length on.now.columns }
    ensures { OnOk result (labels.new.items ≡ labels.old.items ++ frame_headings on.now) }
{
    for place in 0..on.columns() {
        labels.push(Some(column_label(on.heading(place))))?;
    }
    Ok(())
}

// The labels of the columns of the levels, and then those of the columns.
#[tactic(auto, using(crate::proofs::ResetLaws::labels_meant))]
fn reset_labels(
    alloc: Global,
    dict: &mut TextDict,
    on: &ObjRef<'_>,
) -> Result<Vec<Option<Label>>, NoMemory>
    requires { IsKnownTable dict.old on.now }
    ensures longer { IsLonger dict.old dict.new }
    ensures given { IfOk result (λ made. IsSettled headings_value dict.new made.items) }
    ensures labels { IfOk result (λ made. headings_value dict.new made.items
        ≡ reset_headings (as_frame (table_value dict.old on.now))) }
{
    let mut labels = level_labels(alloc, dict, on)?;
    push_headings(&mut labels, on)?;
    Ok(labels)
}

// These columns before those of the table, under these labels: no other column may have that of a new one. The rows have
// the labels 0, 1 and so on.
#[tactic(auto, using(crate::proofs::Hints::reset_frame))]
fn reset_frame(
    alloc: Global,
    dict: &TextDict,
    on: &ObjRef<'_>,
    first: Blocks,
    labels: &[Option<Label>],
) -> Result<Extension, OpFault>
    requires known { IsKnownTable dict.now on.now }
    requires given { IsSettled headings_value dict.now labels.now }
    requires some { All IsSome labels.now }
    requires columns { AreColumns dict.now (length on.now.labels) (length first) first }
    requires count { length first + length on.now.columns ≡ length labels.now }
    ensures answer { Extends dict.now on.now result
        (reset_result (table_value dict.now on.now)
        (headings_value dict.now labels.now) (blocks_value dict.now first)) }
    ensures first { IfOk result (λ made. made.first ≡ first) }
{
    // Equal texts have equal numbers: `TextDict::len` says so.
    let _ = dict.len();
    let (new, own) = labels.split_at(first.len());
    expect_unshared(alloc, new, own)?;
    if !within_limits(on.rows(), labels.len()) {
        return Err(OpFault::Refused(Code::Limit));
    }
    let headings = heading_list(alloc, on.columns_name(), labels)?;
    let axis = Axis::range(alloc, on.rows())?;
    Ok(Extension {
        shape: Shape::Frame,
        axis,
        headings,
        first,
    })
}

/// The levels of the rows as columns before those of the table, in a frame whose rows have the labels
/// 0, 1 and so on. Each level has as many cells as there are rows. The dictionary gives numbers to the
/// headings of levels without a name.
///
/// `WrongKind` where a level has labels of several kinds, `BadValue(Repeated)` of the heading of a level that another
/// column has too, `Limit`. `NoMemory` may come in place of any answer.
#[tactic(auto, using(crate::proofs::Hints::reset_levels))]
pub fn reset_levels(
    alloc: Global,
    dict: &mut TextDict,
    on: &ObjRef<'_>,
) -> Result<Extension, OpFault>
    requires { IsKnownTable dict.old on.now }
    ensures longer { IsLonger dict.old dict.new }
    ensures answer { Extends dict.new on.now result
        (meant.levels_reset (as_frame (table_value dict.old on.now))) }
    ensures within { IfOk result
        (IsWithin (length on.now.labels * length on.now.level_names)) }
{
    let first = level_columns(alloc, on.axis())?;
    let labels = reset_labels(alloc, dict, on)?;
    reset_frame(alloc, dict, on, first, labels.as_slice())
}
