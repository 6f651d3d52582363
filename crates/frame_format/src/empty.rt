// The printed text of a frame without a row or without a column.
ghost use Rattle.std.specs.Prelude.{◌≡◌, ◌<◌, ◌++◌, length, codes, OnOk};
ghost use Rattle.std.specs.List.{join_by};
ghost use Rattle.meaning_format.specs.Told.{label_at, heading_at};
ghost use Rattle.meaning_format.specs.Print.{shown_name, shown_label, whole_label, empty_text, places};

use crate::fields::push_gap;
use crate::source::Source;
use crate::texts::Style;
use cell_core::{Grid, NoMemory, Words};

/// Appends the three lines.
pub(crate) fn push_empty<G: Grid>(
    out: &mut Words,
    text: &mut String,
    source: &Source<'_, G>,
) -> Result<(), NoMemory>
    ensures { OnOk result (out.new ≡ out.old ++ empty_text source.now) }
{
    out.push_str("Empty DataFrame\nColumns: [")?;
    push_all_headings(out, text, source)?;
    out.push_str("]\nIndex: [")?;
    push_all_labels(out, text, source)?;
    out.push_str("]")
}

#[tactic(auto, using(crate::proofs::Hints::push_all_headings))]
fn push_all_headings<G: Grid>(
    out: &mut Words,
    text: &mut String,
    source: &Source<'_, G>,
) -> Result<(), NoMemory>
    ensures { OnOk result (out.new
        ≡ out.old ++ join_by (λ column. shown_name (heading_at source.now column)) (codes ", ")
        (places (length source.now.columns))) }
{
    for column in 0..source.columns() {
        push_gap(out, ", ", column)?;
        source.write_heading(text, Style::Printed, column)?;
        out.push_str(text.as_str())?;
    }
    Ok(())
}

#[tactic(auto, using(crate::proofs::Hints::push_all_headings))]
fn push_all_labels<G: Grid>(
    out: &mut Words,
    text: &mut String,
    source: &Source<'_, G>,
) -> Result<(), NoMemory>
    ensures { OnOk result (out.new
        ≡ out.old ++ join_by (whole_label source.now) (codes ", ")
        (places (length source.now.labels))) }
{
    for row in 0..source.rows() {
        push_gap(out, ", ", row)?;
        push_whole_label(out, text, source, row)?;
    }
    Ok(())
}

// Appends the labels of a row: a single one as it is, several in parentheses.
fn push_whole_label<G: Grid>(
    out: &mut Words,
    text: &mut String,
    source: &Source<'_, G>,
    row: usize,
) -> Result<(), NoMemory>
    requires { row < length source.now.labels }
    ensures { OnOk result (out.new ≡ out.old ++ whole_label source.now row) }
{
    if source.levels() == 1 {
        source.write_label(text, Style::Printed, row, 0)?;
        return out.push_str(text.as_str());
    }
    out.push_str("(")?;
    push_each_level(out, text, source, row)?;
    out.push_str(")")
}

#[tactic(auto, using(crate::proofs::Hints::push_all_headings))]
fn push_each_level<G: Grid>(
    out: &mut Words,
    text: &mut String,
    source: &Source<'_, G>,
    row: usize,
) -> Result<(), NoMemory>
    requires { row < length source.now.labels }
    ensures { OnOk result (out.new
        ≡ out.old ++ join_by (λ level. shown_label (label_at source.now row level)) (codes ", ")
        (places (length source.now.level_names))) }
{
    for level in 0..source.levels() {
        push_gap(out, ", ", level)?;
        source.write_label(text, Style::Printed, row, level)?;
        out.push_str(text.as_str())?;
    }
    Ok(())
}
