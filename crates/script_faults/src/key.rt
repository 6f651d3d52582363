// Keys as the lines of errors write them.
ghost use Rattle.std.specs.Prelude.{drop, encode_utf8, map};
ghost use Rattle.cell_core.specs.Values.{label_datum};
ghost use Rattle.meaning_script.specs.cells.Cell.{text as text_label};
ghost use Rattle.meaning_script.specs.cells.FaultText.{key_text, label_text, more_labels, quoted_bytes};
ghost use Rattle.script_faults.specs.Lines.{Appends};

use cell_core::{Label, TextDict, Tuple};
use itoa::{Buffer, Integer};
use std::alloc::AllocError;

/// Appends a key: one label as it is, several in parentheses. Where memory is refused, a part of it may stand there.
pub(crate) fn push_key(line: &mut String, texts: &TextDict, key: &Tuple) -> Result<(), AllocError>
    ensures { Appends result line.old line.new (key_text (map (label_datum texts.now) key.now)) }
{
    if key.len() == 1 {
        return push_label(line, texts, key.at(0));
    }
    line.push_str("(")?;
    push_label(line, texts, key.at(0))?;
    push_more_labels(line, texts, key)?;
    line.push_str(")")
}

/// Appends a number in decimal; nothing where memory is refused.
pub(crate) fn push_number<N: Integer>(line: &mut String, number: N) -> Result<(), AllocError>
    ensures { Appends result line.old line.new (N.text number) }
{
    let mut digits = Buffer::new();
    line.push_str(digits.format(number))
}

// Appends the labels after the first, each behind a comma.
fn push_more_labels(line: &mut String, texts: &TextDict, key: &Tuple) -> Result<(), AllocError>
    ensures { Appends result line.old line.new
        (more_labels (map (label_datum texts.now) (drop 1 key.now))) }
{
    for level in 1..key.len() {
        line.push_str(", ")?;
        push_label(line, texts, key.at(level))?;
    }
    Ok(())
}

fn push_label(line: &mut String, texts: &TextDict, label: Label) -> Result<(), AllocError>
    ensures { Appends result line.old line.new (label_text (label_datum texts.now label)) }
{
    match label {
        Label::Bool(true) => line.push_str("True"),
        Label::Bool(false) => line.push_str("False"),
        Label::Int(number) => push_number(line, number),
        Label::Text(id) => push_quoted(line, texts.text(id)),
        Label::Na => line.push_str("<NA>"),
    }
}

// Appends a text in quotes, with its escapes.
fn push_quoted(line: &mut String, text: &str) -> Result<(), AllocError>
    ensures { Appends result line.old line.new (label_text (text_label text.now)) }
{
    line.push_str("'")?;
    push_escaped(line, text)?;
    line.push_str("'")
}

fn push_escaped(line: &mut String, text: &str) -> Result<(), AllocError>
    ensures { Appends result line.old line.new (quoted_bytes text.now) }
{
    for character in text.chars() {
        push_character(line, character)?;
    }
    Ok(())
}

fn push_character(line: &mut String, character: char) -> Result<(), AllocError>
    ensures { Appends result line.old line.new (quoted_bytes (encode_utf8 character)) }
{
    match character {
        '\\' => line.push_str("\\\\"),
        '\'' => line.push_str("\\'"),
        '\n' => line.push_str("\\n"),
        '\t' => line.push_str("\\t"),
        _ => line.push(character),
    }
}
