// The widths of levels and columns, and the levels side by side.
ghost use Rattle.std.specs.Prelude.{◌≡◌, ◌<◌, ◌++◌, ◌+◌, ◌-◌, true, length, map, slice_index, OnOk, IfOk, string_bytes};
ghost use Rattle.meaning_format.specs.Print.{labels_width, column_width, level_width, level_title, level_text, side_by_side, places, repeats, has_names};

use crate::fields::{push_gap, push_left};
use crate::source::Source;
use crate::texts::Style;
use cell_core::{Grid, NoMemory, Words};
use std::alloc::Global;
use unicode_width::UnicodeWidthStr;

/// The width of the labels of a level.
#[tactic(auto, using(crate::proofs::FieldLaws::widest_more), unfolding(meaning_format::specs::Print::labels_width))]
pub(crate) fn width_of_labels<G: Grid>(
    text: &mut String,
    source: &Source<'_, G>,
    level: usize,
) -> Result<usize, NoMemory>
    requires { level < length source.now.level_names }
    ensures { IfOk result (λ width. width ≡ labels_width source.now level) }
{
    let mut most = 0;
    for row in 0..source.rows() {
        source.write_label(text, Style::Printed, row, level)?;
        most = most.max(text.as_str().width());
    }
    Ok(most)
}

/// The width of the cells of a column.
#[tactic(auto, using(crate::proofs::FieldLaws::widest_more), unfolding(meaning_format::specs::Print::column_width))]
pub(crate) fn width_of_cells<G: Grid>(
    text: &mut String,
    source: &Source<'_, G>,
    column: usize,
) -> Result<usize, NoMemory>
    requires { column < length source.now.columns }
    ensures { IfOk result (λ width. width ≡ column_width source.now column) }
{
    let mut most = 0;
    for row in 0..source.rows() {
        source.write_cell(text, Style::Printed, row, column)?;
        most = most.max(text.as_str().width());
    }
    Ok(most)
}

/// The width of a level: of its labels and of its name.
pub(crate) fn width_of_level<G: Grid>(
    text: &mut String,
    source: &Source<'_, G>,
    level: usize,
) -> Result<usize, NoMemory>
    requires { level < length source.now.level_names }
    ensures { IfOk result (λ width. width ≡ level_width source.now level) }
{
    let labels = width_of_labels(text, source, level)?;
    source.write_level_name(text, Style::Printed, level)?;
    Ok(labels.max(text.as_str().width()))
}

/// The width of each level.
#[tactic(auto, using(crate::proofs::FieldLaws::map_more))]
pub(crate) fn widths_of_levels<G: Grid>(
    alloc: Global,
    text: &mut String,
    source: &Source<'_, G>,
) -> Result<Vec<usize>, NoMemory>
    ensures { IfOk result (λ widths. widths.items
        ≡ map (level_width source.now) (places (length source.now.level_names))) }
{
    let mut widths = Vec::new(alloc);
    for level in 0..source.levels() {
        widths.push(width_of_level(text, source, level)?)?;
    }
    Ok(widths)
}

/// Whether any level has a name.
pub(crate) fn has_level_names<G: Grid>(source: &Source<'_, G>) -> bool
    ensures { result ≡ has_names source.now.level_names }
{
    for level in 0..source.levels() {
        if source.has_level_name(level) {
            return true;
        }
    }
    false
}

/// Appends the names of the levels side by side.
#[tactic(auto, using(crate::proofs::Hints::push_all_headings))]
pub(crate) fn push_names<G: Grid>(
    out: &mut Words,
    text: &mut String,
    source: &Source<'_, G>,
    gap: &str,
    widths: &[usize],
) -> Result<(), NoMemory>
    requires { length widths.now ≡ length source.now.level_names }
    ensures { OnOk result (out.new
        ≡ out.old ++ side_by_side gap.now (length source.now.level_names) (slice_index widths.now)
        (level_title source.now)) }
{
    for level in 0..widths.len() {
        push_gap(out, gap, level)?;
        source.write_level_name(text, Style::Printed, level)?;
        push_left(out, widths[level], text.as_str())?;
    }
    Ok(())
}

/// Appends the labels of a row side by side.
pub(crate) fn push_labels<G: Grid>(
    out: &mut Words,
    text: &mut String,
    source: &Source<'_, G>,
    gap: &str,
    widths: &[usize],
    row: usize,
) -> Result<(), NoMemory>
    requires levels { length widths.now ≡ length source.now.level_names }
    requires row { row < length source.now.labels }
    ensures { OnOk result (out.new
        ≡ out.old ++ side_by_side gap.now (length source.now.level_names) (slice_index widths.now)
        (level_text source.now row)) }
{
    let mut repeated = true;
    for level in 0..widths.len() {
        push_gap(out, gap, level)?;
        repeated = repeated && source.same_above(row, level);
        show_unless_repeated(text, source, row, level, repeated)?;
        push_left(out, widths[level], text.as_str())?;
    }
    Ok(())
}

// The label of a row at a level as it is printed below the row above: blank where it repeats, but
// for the last level's.
fn show_unless_repeated<G: Grid>(
    text: &mut String,
    source: &Source<'_, G>,
    row: usize,
    level: usize,
    repeated: bool,
) -> Result<(), NoMemory>
    requires row { row < length source.now.labels }
    requires level { level < length source.now.level_names }
    requires repeated { repeated ≡ repeats source.now row (level + 1) }
    ensures { OnOk result (string_bytes text.new ≡ level_text source.now row level) }
{
    if repeated && level < source.levels() - 1 {
        text.clear();
        return Ok(());
    }
    source.write_label(text, Style::Printed, row, level)
}
