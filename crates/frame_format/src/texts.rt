// What labels and cells are as text: in a printed table, and in a record.
ghost use Rattle.std.specs.Prelude.{◌≡◌, ◌++◌, OnOk, encode_utf8, string_bytes};
ghost use Rattle.std.specs.Fmt.{signed_decimal};
ghost use Rattle.std.specs.Ordering.{is_eq};
ghost use Rattle.cell_core.specs.Values.{datum, label_datum, label_cmp};
ghost use Rattle.meaning_format.specs.tables.Table.{heading_value};
ghost use Rattle.meaning_format.specs.cells.Cell.{na_cell, text_cell};
ghost use Rattle.meaning_format.specs.Print.{shown_text, shown_truth, kind_word};
ghost use Rattle.frame_format.specs.Styles.{cell_text, label_text, name_text, heading_text};

use cell_core::{Cell, Kind, Label, NoMemory, TextDict};
use itoa::Buffer;

/// Where labels and cells are written.
#[derive(Clone, Copy)]
pub(crate) enum Style {
    /// In a printed table.
    Printed,
    /// In a record, each as a field.
    Record,
}

/// The text of a cell, in the place of what stood there.
pub(crate) fn write_cell(
    text: &mut String,
    dict: &TextDict,
    style: Style,
    cell: Cell,
) -> Result<(), NoMemory>
    ensures { OnOk result (string_bytes text.new ≡ cell_text style (datum dict.now cell)) }
{
    text.clear();
    match cell {
        Cell::Na => put(text, missing_word(style)),
        Cell::Int(number) => put_number(text, number),
        Cell::Bool(truth) => put(text, truth_word(truth)),
        Cell::Text(id) => put_text(text, style, dict.text(id)),
    }
}

/// The text of a label, in the place of what stood there.
pub(crate) fn write_label(
    text: &mut String,
    dict: &TextDict,
    style: Style,
    label: Label,
) -> Result<(), NoMemory>
    ensures { OnOk result (string_bytes text.new ≡ label_text style (label_datum dict.now label)) }
{
    text.clear();
    match label {
        Label::Na => put(text, missing_word(style)),
        Label::Int(number) => put_number(text, number),
        Label::Bool(truth) => put(text, truth_word(truth)),
        Label::Text(id) => put_text(text, style, dict.text(id)),
    }
}

/// The text of a name, in the place of what stood there; nothing for a missing one.
pub(crate) fn write_name(
    text: &mut String,
    dict: &TextDict,
    style: Style,
    name: Option<Label>,
) -> Result<(), NoMemory>
    ensures { OnOk result (string_bytes text.new ≡ name_text style (heading_value dict.now name)) }
{
    match name {
        Some(label) => write_label(text, dict, style, label),
        None => {
            text.clear();
            Ok(())
        }
    }
}

/// The text of the heading of a column, in the place of what stood there.
pub(crate) fn write_heading(
    text: &mut String,
    dict: &TextDict,
    style: Style,
    heading: Option<Label>,
) -> Result<(), NoMemory>
    ensures { OnOk result (string_bytes text.new
        ≡ heading_text style (heading_value dict.now heading)) }
{
    match (style, heading) {
        (Style::Record, None) => {
            text.clear();
            put(text, "0")
        }
        _ => write_name(text, dict, style, heading),
    }
}

/// The name of a kind.
pub(crate) fn word_of_kind(kind: Kind) -> &'static str
    ensures { result.now ≡ kind_word kind }
{
    match kind {
        Kind::Int64 => "Int64",
        Kind::Boolean => "boolean",
        Kind::Text => "string",
    }
}

/// Whether two labels are equal. Equal numbers of texts are equal texts, which need not be compared.
#[tactic(auto, using(crate::proofs::Hints::same_label))]
pub(crate) fn same_label(dict: &TextDict, a: Label, b: Label) -> bool
    ensures { result ≡ is_eq (label_cmp (label_datum dict.now a) (label_datum dict.now b)) }
{
    a == b || dict.compare(a, b).is_eq()
}

fn truth_word(truth: bool) -> &'static str
    ensures { result.now ≡ shown_truth truth }
{
    if truth { "True" } else { "False" }
}

fn put(text: &mut String, piece: &str) -> Result<(), NoMemory>
    ensures { OnOk result (string_bytes text.new ≡ string_bytes text.old ++ piece.now) }
{
    text.push_str(piece)?;
    Ok(())
}

fn put_number(text: &mut String, number: i64) -> Result<(), NoMemory>
    ensures { OnOk result (string_bytes text.new ≡ string_bytes text.old ++ signed_decimal number) }
{
    let mut digits = Buffer::new();
    put(text, digits.format(number))
}

fn missing_word(style: Style) -> &'static str
    ensures { result.now ≡ cell_text style na_cell }
{
    match style {
        Style::Printed => "<NA>",
        Style::Record => "",
    }
}

// Appends a text.
fn put_text(text: &mut String, style: Style, piece: &str) -> Result<(), NoMemory>
    ensures { OnOk result (string_bytes text.new
        ≡ string_bytes text.old ++ cell_text style (text_cell piece.now)) }
{
    match style {
        Style::Printed => put_escaped(text, piece),
        Style::Record => put(text, piece),
    }
}

// Appends a text with the escapes of printed tables.
fn put_escaped(text: &mut String, piece: &str) -> Result<(), NoMemory>
    ensures { OnOk result (string_bytes text.new ≡ string_bytes text.old ++ shown_text piece.now) }
{
    for character in piece.chars() {
        put_character(text, character)?;
    }
    Ok(())
}

#[tactic(auto, using(crate::proofs::Hints::put_character))]
fn put_character(text: &mut String, character: char) -> Result<(), NoMemory>
    ensures { OnOk result (string_bytes text.new
        ≡ string_bytes text.old ++ shown_text (encode_utf8 character)) }
{
    match character {
        '\t' => text.push_str("\\t")?,
        '\n' => text.push_str("\\n")?,
        '\r' => text.push_str("\\r")?,
        _ => text.push(character)?,
    }
    Ok(())
}
