// The lines of errors.
ghost use Rattle.std.specs.Prelude.{◌≡◌, ◌++◌, IfOk, decimal, map, string_bytes, true};
ghost use Rattle.cell_core.specs.Values.{label_datum};
ghost use Rattle.meaning_script.specs.Run.{line_about, not_found_line, stats_line, syntax_line, warning_line};
ghost use Rattle.meaning_script.specs.cells.Fault.{bad_merge, bad_value, length_of, long_row, out_of_range, unsorted};
ghost use Rattle.meaning_script.specs.cells.FaultOf.{fault_of, reason_of, side_of};
ghost use Rattle.meaning_script.specs.cells.FaultText.{fault_text, key_text, reason_text, side_text};
ghost use Rattle.script_faults.specs.Lines.{Appends};

use crate::key::{push_key, push_number};
use cell_core::{Code, Fault, Reason, Side, TextDict, Tuple};
use std::alloc::{AllocError, Global};

/// The line that the error sink gets for a refused statement: `line N: CLASS: DETAIL`.
pub fn line_of_fault(alloc: Global, texts: &TextDict, fault: &Fault) -> Result<String, AllocError>
    ensures { IfOk result (λ text. string_bytes text
        ≡ line_about fault.now.line (fault_text (fault_of texts.now fault.now.code))) }
{
    let line = fault.line;
    let mut text = format!(in alloc; "line {line}: ")?;
    push_fault(&mut text, texts, &fault.code)?;
    text.push_str("\n")?;
    Ok(text)
}

/// The line for a script that isn't there.
pub fn line_of_absence(alloc: Global, path: &str) -> Result<String, AllocError>
    ensures { IfOk result (λ text. string_bytes text ≡ not_found_line path.now) }
{
    format!(in alloc; "script not found: {path}\n")
}

/// The line for a text that is no script.
pub fn line_of_syntax(alloc: Global, line: u64) -> Result<String, AllocError>
    ensures { IfOk result (λ text. string_bytes text ≡ syntax_line line) }
{
    format!(in alloc; "line {line}: SyntaxError\n")
}

/// The line that warns of a setting of an object without a name.
pub fn line_of_warning(alloc: Global, line: u64) -> Result<String, AllocError>
    ensures { IfOk result (λ text. string_bytes text ≡ warning_line line true) }
{
    format!(in alloc; "line {line}: warning: ChainedAssignmentError\n")
}

/// The last line of a run with `--stats`: the peak and the charge. Want of memory is the only refusal.
pub fn line_of_stats(alloc: Global, peak: u64, charge: u64) -> Result<String, AllocError>
    ensures { IfOk result (λ text. string_bytes text ≡ stats_line peak charge) }
{
    format!(in alloc; "peak {peak} charge {charge}\n")
}

// Appends a cause: its class word, and what the line says of it. Where memory is refused, a part of it may stand there.
fn push_fault(line: &mut String, texts: &TextDict, code: &Code) -> Result<(), AllocError>
    ensures { Appends result line.old line.new (fault_text (fault_of texts.now code.now)) }
{
    match code {
        Code::NoName(name) => push_words(line, "NameError: ", name.as_str()),
        Code::NoAttribute(name) => push_words(line, "AttributeError: ", name.as_str()),
        Code::WrongKind => line.push_str("TypeError"),
        Code::NoKey(key) => push_keyed(line, "KeyError: ", texts, key),
        Code::OutOfRange(position, rows) => push_position(line, *position, *rows),
        Code::NoMaskLabel(label) => push_keyed(line, "IndexingError: ", texts, label),
        Code::BadValue(reason) => push_bad_value(line, texts, reason),
        Code::ZeroDivide => line.push_str("ZeroDivisionError"),
        Code::BadMerge(side, key) => push_bad_merge(line, *side, texts, key),
        Code::NoCommon => line.push_str("MergeError: no common columns"),
        Code::RepeatedLabel(label) => push_keyed(line, "InvalidIndexError: ", texts, label),
        Code::LongRow(number, expected, seen) => push_long_row(line, *number, *expected, *seen),
        Code::NotUtf8(place) => push_counted(line, "UnicodeDecodeError: byte ", *place),
        Code::NoRecords => line.push_str("EmptyDataError"),
        Code::NoFile(name) => push_words(line, "FileNotFoundError: ", name.as_str()),
        Code::Limit => line.push_str("LimitError"),
        Code::BadQuery => line.push_str("QueryError"),
    }
}

fn push_bad_value(line: &mut String, texts: &TextDict, reason: &Reason) -> Result<(), AllocError>
    ensures { Appends result line.old line.new
        (fault_text (bad_value (reason_of texts.now reason.now))) }
{
    line.push_str("ValueError: ")?;
    push_reason(line, texts, reason)
}

fn push_reason(line: &mut String, texts: &TextDict, reason: &Reason) -> Result<(), AllocError>
    ensures { Appends result line.old line.new (reason_text (reason_of texts.now reason.now)) }
{
    match reason {
        Reason::Repeated(key) => push_keyed(line, "duplicate labels ", texts, key),
        Reason::Length(expected, given) => push_length(line, *expected, *given),
        Reason::Entry(key) => push_keyed(line, "duplicate entry ", texts, key),
        Reason::NotAligned => line.push_str("not aligned"),
        Reason::KeyKinds => line.push_str("key kinds"),
        Reason::Levels => line.push_str("levels"),
        Reason::Argument => line.push_str("argument"),
        Reason::Cast => line.push_str("cast"),
        Reason::NoColumns => line.push_str("no columns"),
        Reason::Unsorted(side, row) => push_unsorted(line, *side, *row),
        Reason::NotJson => line.push_str("not json"),
        Reason::NotTable => line.push_str("not a table"),
    }
}

fn push_words(line: &mut String, before: &str, words: &str) -> Result<(), AllocError>
    ensures { Appends result line.old line.new (before.now ++ words.now) }
{
    line.push_str(before)?;
    line.push_str(words)
}

fn push_keyed(
    line: &mut String,
    before: &str,
    texts: &TextDict,
    key: &Tuple,
) -> Result<(), AllocError>
    ensures { Appends result line.old line.new
        (before.now ++ key_text (map (label_datum texts.now) key.now)) }
{
    line.push_str(before)?;
    push_key(line, texts, key)
}

fn push_counted(line: &mut String, before: &str, count: u64) -> Result<(), AllocError>
    ensures { Appends result line.old line.new (before.now ++ decimal count) }
{
    line.push_str(before)?;
    push_number(line, count)
}

fn push_length(line: &mut String, expected: u64, given: u64) -> Result<(), AllocError>
    ensures { Appends result line.old line.new (reason_text (length_of expected given)) }
{
    push_counted(line, "length ", expected)?;
    push_counted(line, ", got ", given)
}

fn push_position(line: &mut String, position: i64, rows: u64) -> Result<(), AllocError>
    ensures { Appends result line.old line.new (fault_text (out_of_range position rows)) }
{
    line.push_str("IndexError: position ")?;
    push_number(line, position)?;
    push_counted(line, ", length ", rows)
}

fn push_bad_merge(
    line: &mut String,
    side: Side,
    texts: &TextDict,
    key: &Tuple,
) -> Result<(), AllocError>
    ensures { Appends result line.old line.new
        (fault_text (bad_merge (side_of side) (map (label_datum texts.now) key.now))) }
{
    push_words(line, "MergeError: ", side_word(side))?;
    push_keyed(line, " keys repeat ", texts, key)
}

fn push_unsorted(line: &mut String, side: Side, row: u64) -> Result<(), AllocError>
    ensures { Appends result line.old line.new (reason_text (unsorted (side_of side) row)) }
{
    line.push_str(side_word(side))?;
    push_counted(line, " keys not sorted at row ", row)
}

fn side_word(side: Side) -> &'static str
    ensures { result.now ≡ side_text (side_of side) }
{
    match side {
        Side::Left => "left",
        Side::Right => "right",
    }
}

fn push_long_row(line: &mut String, number: u64, expected: u64, seen: u64) -> Result<(), AllocError>
    ensures { Appends result line.old line.new (fault_text (long_row number expected seen)) }
{
    push_counted(line, "ParserError: record ", number)?;
    push_counted(line, ", expected ", expected)?;
    push_counted(line, ", saw ", seen)
}
