// The printed text of a frame.
ghost use Rattle.std.specs.Prelude.{◌≡◌, ◌<◌, ◌++◌, ◌+◌, ◌-◌, length, map, sum, codes, slice_index, OnOk, IfOk};
ghost use Rattle.std.specs.List.{flat_map};
ghost use Rattle.cell_core.specs.declared.grid.Shape.TheVariants.{Frame};
ghost use Rattle.meaning_format.specs.Told.{told, cell_at, heading_at};
ghost use Rattle.meaning_format.specs.Print.{titled_width, header_line, names_below, names_line, frame_line, filled_text, frame_text_of, shown_name, shown_cell, spaces, places};
ghost use Rattle.frame_format.specs.Layouts.{IsFrameLayout, set_columns};

use crate::empty::push_empty;
use crate::fields::{push_left, push_right, push_spaces};
use crate::measuring::{
    has_level_names, push_labels, push_names, width_of_cells, widths_of_levels,
};
use crate::source::Source;
use crate::texts::Style;
use cell_core::{Grid, NoMemory, TextDict, Words};
use std::alloc::Global;
use unicode_width::UnicodeWidthStr;

/// The widths of a frame: of each level, of the levels side by side with the columns' name above
/// them, what the levels lack of it, and of each column with its label.
#[derive(Drop)]
struct FrameLayout {
    levels: Vec<usize>,
    index: usize,
    filling: usize,
    columns: Vec<usize>,
}

/// The printed text of a frame, without a line feed at its end.
///
/// The first line has the columns' labels, and the columns' name if there is one. A line of the
/// levels' names follows where any level has one, and then a line for each row: its labels, set to
/// the left, and its cells, set to the right. A frame without a row or a column is three lines.
/// In the manner of pandas (user guide, "Intro to data structures"); the layout is this project's own.
pub fn frame_text<G: Grid>(alloc: Global, dict: &TextDict, grid: &G) -> Result<Words, NoMemory>
    requires { (G.table grid.now).shape ≡ Frame }
    ensures { IfOk result (λ words. words ≡ frame_text_of (told dict.now (G.table grid.now))) }
{
    let source = Source::new(dict, grid);
    let mut out = Words::new(alloc);
    let mut text = String::new(alloc);
    if source.rows() == 0 || source.columns() == 0 {
        push_empty(&mut out, &mut text, &source)?;
    } else {
        push_filled(alloc, &mut out, &mut text, &source)?;
    }
    Ok(out)
}

fn push_filled<G: Grid>(
    alloc: Global,
    out: &mut Words,
    text: &mut String,
    source: &Source<'_, G>,
) -> Result<(), NoMemory>
    ensures { OnOk result (out.new ≡ out.old ++ filled_text source.now) }
{
    let layout = frame_layout(alloc, text, source)?;
    push_header(out, text, source, &layout)?;
    push_names_below(out, text, source, &layout)?;
    push_frame_lines(out, text, source, &layout)
}

// The sum of the widths and of the spaces between them; a sum beyond 64 bits would be a line that no
// memory holds.
fn width_side_by_side(widths: &[usize]) -> Result<usize, NoMemory>
    ensures { IfOk result (λ width. width ≡ sum widths.now + (length widths.now - 1)) }
{
    let mut total = widths.len().saturating_sub(1);
    for width in widths {
        total = total.checked_add(*width).ok_or(NoMemory)?;
    }
    Ok(total)
}

fn width_of_column<G: Grid>(
    text: &mut String,
    source: &Source<'_, G>,
    column: usize,
) -> Result<usize, NoMemory>
    requires { column < length source.now.columns }
    ensures { IfOk result (λ width. width ≡ titled_width source.now column) }
{
    let cells = width_of_cells(text, source, column)?;
    source.write_heading(text, Style::Printed, column)?;
    Ok(cells.max(text.as_str().width()))
}

#[tactic(auto, using(crate::proofs::FieldLaws::map_more))]
fn widths_of_columns<G: Grid>(
    alloc: Global,
    text: &mut String,
    source: &Source<'_, G>,
) -> Result<Vec<usize>, NoMemory>
    ensures { IfOk result (λ widths. widths.items
        ≡ map (titled_width source.now) (places (length source.now.columns))) }
{
    let mut widths = Vec::new(alloc);
    for column in 0..source.columns() {
        widths.push(width_of_column(text, source, column)?)?;
    }
    Ok(widths)
}

fn frame_layout<G: Grid>(
    alloc: Global,
    text: &mut String,
    source: &Source<'_, G>,
) -> Result<FrameLayout, NoMemory>
    ensures { IfOk result (λ layout. IsFrameLayout source.now layout) }
{
    let levels = widths_of_levels(alloc, text, source)?;
    let side_by_side = width_side_by_side(levels.as_slice())?;
    source.write_columns_name(text)?;
    let index = side_by_side.max(text.as_str().width());
    let columns = widths_of_columns(alloc, text, source)?;
    Ok(FrameLayout {
        levels,
        index,
        filling: index - side_by_side,
        columns,
    })
}

#[tactic(auto, using(crate::proofs::FieldLaws::length_measured))]
fn push_header<G: Grid>(
    out: &mut Words,
    text: &mut String,
    source: &Source<'_, G>,
    layout: &FrameLayout,
) -> Result<(), NoMemory>
    requires { IsFrameLayout source.now layout.now }
    ensures { OnOk result (out.new ≡ out.old ++ header_line source.now) }
{
    source.write_columns_name(text)?;
    push_left(out, layout.index, text.as_str())?;
    push_headings(out, text, source, layout.columns.as_slice())
}

fn push_headings<G: Grid>(
    out: &mut Words,
    text: &mut String,
    source: &Source<'_, G>,
    widths: &[usize],
) -> Result<(), NoMemory>
    requires { length widths.now ≡ length source.now.columns }
    ensures { OnOk result (out.new
        ≡ out.old ++ set_columns (length source.now.columns) (slice_index widths.now)
        (λ column. shown_name (heading_at source.now column))) }
{
    for column in 0..widths.len() {
        source.write_heading(text, Style::Printed, column)?;
        push_spaces(out, 2)?;
        push_right(out, widths[column], text.as_str())?;
    }
    Ok(())
}

// Appends the line of names where any level has one.
fn push_names_below<G: Grid>(
    out: &mut Words,
    text: &mut String,
    source: &Source<'_, G>,
    layout: &FrameLayout,
) -> Result<(), NoMemory>
    requires { IsFrameLayout source.now layout.now }
    ensures { OnOk result (out.new ≡ out.old ++ names_below source.now) }
{
    if !has_level_names(source) {
        return Ok(());
    }
    out.push_str("\n")?;
    push_names_line(out, text, source, layout)
}

#[tactic(auto, using(crate::proofs::FieldLaws::length_measured))]
fn push_names_line<G: Grid>(
    out: &mut Words,
    text: &mut String,
    source: &Source<'_, G>,
    layout: &FrameLayout,
) -> Result<(), NoMemory>
    requires { IsFrameLayout source.now layout.now }
    ensures { OnOk result (out.new ≡ out.old ++ names_line source.now) }
{
    push_names(out, text, source, " ", layout.levels.as_slice())?;
    push_spaces(out, layout.filling)?;
    push_blanks(out, layout.columns.as_slice())
}

fn push_blanks(out: &mut Words, widths: &[usize]) -> Result<(), NoMemory>
    ensures { OnOk result (out.new
        ≡ out.old ++ set_columns (length widths.now) (slice_index widths.now)
        (λ column. codes "")) }
{
    for column in 0..widths.len() {
        push_spaces(out, 2)?;
        push_right(out, widths[column], "")?;
    }
    Ok(())
}

fn push_frame_lines<G: Grid>(
    out: &mut Words,
    text: &mut String,
    source: &Source<'_, G>,
    layout: &FrameLayout,
) -> Result<(), NoMemory>
    requires { IsFrameLayout source.now layout.now }
    ensures { OnOk result (out.new
        ≡ out.old ++ flat_map (λ row. codes "\n" ++ frame_line source.now row)
        (places (length source.now.labels))) }
{
    for row in 0..source.rows() {
        out.push_str("\n")?;
        push_frame_line(out, text, source, layout, row)?;
    }
    Ok(())
}

#[tactic(auto, using(crate::proofs::FieldLaws::length_measured))]
fn push_frame_line<G: Grid>(
    out: &mut Words,
    text: &mut String,
    source: &Source<'_, G>,
    layout: &FrameLayout,
    row: usize,
) -> Result<(), NoMemory>
    requires layout { IsFrameLayout source.now layout.now }
    requires row { row < length source.now.labels }
    ensures { OnOk result (out.new ≡ out.old ++ frame_line source.now row) }
{
    push_labels(out, text, source, " ", layout.levels.as_slice(), row)?;
    push_spaces(out, layout.filling)?;
    push_cells(out, text, source, layout.columns.as_slice(), row)
}

fn push_cells<G: Grid>(
    out: &mut Words,
    text: &mut String,
    source: &Source<'_, G>,
    widths: &[usize],
    row: usize,
) -> Result<(), NoMemory>
    requires columns { length widths.now ≡ length source.now.columns }
    requires row { row < length source.now.labels }
    ensures { OnOk result (out.new
        ≡ out.old ++ set_columns (length source.now.columns) (slice_index widths.now)
        (λ column. shown_cell (cell_at source.now row column))) }
{
    for column in 0..widths.len() {
        source.write_cell(text, Style::Printed, row, column)?;
        push_spaces(out, 2)?;
        push_right(out, widths[column], text.as_str())?;
    }
    Ok(())
}
