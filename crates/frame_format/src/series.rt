// The printed text of a Series.
ghost use Rattle.std.specs.Prelude.{◌≡◌, ◌<◌, ◌++◌, length, map, codes, OnOk, IfOk};
ghost use Rattle.std.specs.List.{flat_map};
ghost use Rattle.cell_core.specs.declared.grid.Shape.TheVariants.{Series};
ghost use Rattle.meaning_format.specs.Told.{told, heading_at};
ghost use Rattle.meaning_format.specs.Print.{series_width, series_names, series_line, names_above, name_part, last_line, series_text_of, places};
ghost use Rattle.frame_format.specs.Layouts.{IsSeriesLayout};

use crate::fields::{push_right, push_spaces};
use crate::measuring::{
    has_level_names, push_labels, push_names, width_of_cells, width_of_labels, widths_of_levels,
};
use crate::source::Source;
use crate::texts::{Style, word_of_kind};
use cell_core::{Grid, NoMemory, TextDict, Words};
use std::alloc::Global;

/// The widths of a Series: of each level, and of the values.
#[derive(Drop)]
struct SeriesLayout {
    levels: Vec<usize>,
    values: usize,
}

/// The printed text of a Series, without a line feed at its end.
///
/// Each row is a line: its labels, four spaces, and the value, set to the right. The last line has
/// the name and the kind. A Series without a row is one line.
/// In the manner of pandas (user guide, "Essential basic functionality"); the layout is this project's own.
#[tactic(auto, using(crate::proofs::ToldLaws::one_column))]
pub fn series_text<G: Grid>(alloc: Global, dict: &TextDict, grid: &G) -> Result<Words, NoMemory>
    requires shape { (G.table grid.now).shape ≡ Series }
    requires column { (G.table grid.now).columns ≡ 1 }
    ensures { IfOk result (λ words. words ≡ series_text_of (told dict.now (G.table grid.now))) }
{
    let source = Source::new(dict, grid);
    let mut out = Words::new(alloc);
    let mut text = String::new(alloc);
    if source.rows() == 0 {
        out.push_str("Series([], ")?;
        push_last_line(&mut out, &mut text, &source)?;
        out.push_str(")")?;
        return Ok(out);
    }
    let layout = series_layout(alloc, &mut text, &source)?;
    push_names_above(&mut out, &mut text, &source, &layout)?;
    push_series_lines(&mut out, &mut text, &source, &layout)?;
    push_last_line(&mut out, &mut text, &source)?;
    Ok(out)
}

// A single level needs no room for its name, which has a line of its own.
fn widths_beside_values<G: Grid>(
    alloc: Global,
    text: &mut String,
    source: &Source<'_, G>,
) -> Result<Vec<usize>, NoMemory>
    ensures { IfOk result (λ widths. widths.items
        ≡ map (series_width source.now) (places (length source.now.level_names))) }
{
    if source.levels() == 1 {
        let mut widths = Vec::new(alloc);
        widths.push(width_of_labels(text, source, 0)?)?;
        return Ok(widths);
    }
    widths_of_levels(alloc, text, source)
}

fn series_layout<G: Grid>(
    alloc: Global,
    text: &mut String,
    source: &Source<'_, G>,
) -> Result<SeriesLayout, NoMemory>
    requires { length source.now.columns ≡ 1 }
    ensures { IfOk result (λ layout. IsSeriesLayout source.now layout) }
{
    let levels = widths_beside_values(alloc, text, source)?;
    let values = width_of_cells(text, source, 0)?;
    Ok(SeriesLayout { levels, values })
}

// Appends the line of names where any level has one.
fn push_names_above<G: Grid>(
    out: &mut Words,
    text: &mut String,
    source: &Source<'_, G>,
    layout: &SeriesLayout,
) -> Result<(), NoMemory>
    requires { IsSeriesLayout source.now layout.now }
    ensures { OnOk result (out.new ≡ out.old ++ names_above source.now) }
{
    if !has_level_names(source) {
        return Ok(());
    }
    push_series_names(out, text, source, layout)?;
    out.push_str("\n")
}

#[tactic(auto, using(crate::proofs::Hints::push_series_names))]
fn push_series_names<G: Grid>(
    out: &mut Words,
    text: &mut String,
    source: &Source<'_, G>,
    layout: &SeriesLayout,
) -> Result<(), NoMemory>
    requires { IsSeriesLayout source.now layout.now }
    ensures { OnOk result (out.new ≡ out.old ++ series_names source.now) }
{
    if source.levels() == 1 {
        source.write_level_name(text, Style::Printed, 0)?;
        return out.push_str(text.as_str());
    }
    push_names(out, text, source, "  ", layout.levels.as_slice())
}

fn push_series_lines<G: Grid>(
    out: &mut Words,
    text: &mut String,
    source: &Source<'_, G>,
    layout: &SeriesLayout,
) -> Result<(), NoMemory>
    requires column { length source.now.columns ≡ 1 }
    requires layout { IsSeriesLayout source.now layout.now }
    ensures { OnOk result (out.new
        ≡ out.old ++ flat_map (λ row. series_line source.now row ++ codes "\n")
        (places (length source.now.labels))) }
{
    for row in 0..source.rows() {
        push_series_line(out, text, source, layout, row)?;
        out.push_str("\n")?;
    }
    Ok(())
}

#[tactic(auto, using(crate::proofs::FieldLaws::length_measured))]
fn push_series_line<G: Grid>(
    out: &mut Words,
    text: &mut String,
    source: &Source<'_, G>,
    layout: &SeriesLayout,
    row: usize,
) -> Result<(), NoMemory>
    requires column { length source.now.columns ≡ 1 }
    requires layout { IsSeriesLayout source.now layout.now }
    requires row { row < length source.now.labels }
    ensures { OnOk result (out.new ≡ out.old ++ series_line source.now row) }
{
    push_labels(out, text, source, "  ", layout.levels.as_slice(), row)?;
    push_spaces(out, 4)?;
    source.write_cell(text, Style::Printed, row, 0)?;
    push_right(out, layout.values, text.as_str())
}

// Appends the name, if there is one, and the kind.
fn push_last_line<G: Grid>(
    out: &mut Words,
    text: &mut String,
    source: &Source<'_, G>,
) -> Result<(), NoMemory>
    requires { length source.now.columns ≡ 1 }
    ensures { OnOk result (out.new ≡ out.old ++ last_line source.now) }
{
    push_name(out, text, source)?;
    out.push_str("dtype: ")?;
    out.push_str(word_of_kind(source.kind(0)))
}

fn push_name<G: Grid>(
    out: &mut Words,
    text: &mut String,
    source: &Source<'_, G>,
) -> Result<(), NoMemory>
    requires { length source.now.columns ≡ 1 }
    ensures { OnOk result (out.new ≡ out.old ++ name_part (heading_at source.now 0)) }
{
    if !source.has_heading(0) {
        return Ok(());
    }
    source.write_heading(text, Style::Printed, 0)?;
    out.push_str("Name: ")?;
    out.push_str(text.as_str())?;
    out.push_str(", ")
}
