// The CSV text of a table.
ghost use Rattle.std.specs.Prelude.{◌≡◌, ◌<◌, ◌++◌, [], false, List, ℕ, length, map, OnOk, IfOk, if◌then◌else◌};
ghost use Rattle.cell_core.specs.Values.{na_cell};
ghost use Rattle.csv.specs.Records.{fields_of};
ghost use Rattle.meaning_format.specs.tables.Table.{row_of};
ghost use Rattle.meaning_format.specs.Told.{told};
ghost use Rattle.meaning_format.specs.CsvWrite.{cell_field, label_field, name_field, heading_field, header_fields, row_fields, record_text, csv_text_of};
ghost use Rattle.frame_format.specs.Written.{HasWritten, IsFilled};

use crate::source::Source;
use crate::texts::Style;
use cell_core::{Grid, NoMemory, TextDict, Words};
use csv::{ByteRecord, Writer, WriterBuilder};
use std::alloc::Global;

/// The CSV text of a table: a header record, and a record for each row, each with a line feed at its end.
///
/// With `index` each record begins with the names of the levels or the labels of the row. A missing
/// cell, label or name is an empty field, and the column of a Series without a name is called `0`.
/// A field is in quotes where it holds a comma, a quote, a line feed or a carriage return, or where
/// it is empty and alone in its record (RFC 4180, section 2; pandas user guide, "IO tools").
pub fn csv_text<G: Grid>(
    alloc: Global,
    dict: &TextDict,
    grid: &G,
    index: bool,
) -> Result<Words, NoMemory>
    requires { index ≡ false → 0 < (G.table grid.now).columns }
    ensures { IfOk result (λ words. words ≡ csv_text_of index (told dict.now (G.table grid.now))) }
{
    let source = Source::new(dict, grid);
    let mut writer = WriterBuilder::new().from_writer(Vec::new(alloc));
    let mut record = ByteRecord::new(alloc);
    let mut text = String::new(alloc);
    fill_header(&mut record, &mut text, &source, index)?;
    write_record(&mut writer, &record)?;
    for row in 0..source.rows() {
        fill_row(&mut record, &mut text, &source, index, row)?;
        write_record(&mut writer, &record)?;
    }
    words_of(alloc, writer)
}

// Writes a record; memory is all that can be wanting, since a vector takes every byte and all
// records of a table have one length.
#[tactic(auto, using(crate::proofs::RecordLaws::record_more))]
fn write_record(writer: &mut Writer<Vec<u8>>, record: &ByteRecord) -> Result<(), NoMemory>
    requires { IsFilled record.now }
    ensures { OnOk result ((bytes : List ℕ) → HasWritten writer.old bytes →
        HasWritten writer.new (bytes ++ record_text (fields_of record.now))) }
{
    let Ok(()) = writer.write_byte_record(record) else {
        return Err(NoMemory);
    };
    Ok(())
}

// What was written: records of texts are a text.
fn words_of(alloc: Global, writer: Writer<Vec<u8>>) -> Result<Words, NoMemory>
    requires { (bytes : List ℕ) × HasWritten writer bytes }
    ensures { IfOk result (λ words. (bytes : List ℕ) → HasWritten writer bytes → words ≡ bytes) }
{
    let Ok(bytes) = writer.into_inner() else {
        return Err(NoMemory);
    };
    match str::from_utf8(bytes.as_slice()) {
        Ok(text) => Words::from_text(alloc, text),
        Err(_) => unreachable!(),
    }
}

// The record of the names of the levels, if they are wanted, and of the headings.
#[tactic(auto, using(crate::proofs::RecordLaws::cleared))]
fn fill_header<G: Grid>(
    record: &mut ByteRecord,
    text: &mut String,
    source: &Source<'_, G>,
    index: bool,
) -> Result<(), NoMemory>
    ensures fields { OnOk result (fields_of record.new ≡ header_fields index source.now) }
    ensures filled { OnOk result (IsFilled record.new) }
{
    record.clear();
    put_index_names(record, text, source, index)?;
    put_headings(record, text, source)
}

fn put_index_names<G: Grid>(
    record: &mut ByteRecord,
    text: &mut String,
    source: &Source<'_, G>,
    index: bool,
) -> Result<(), NoMemory>
    requires { IsFilled record.old }
    ensures fields { OnOk result (fields_of record.new
        ≡ fields_of record.old ++ (if index then map name_field source.now.level_names else [])) }
    ensures filled { OnOk result (IsFilled record.new) }
{
    if !index {
        return Ok(());
    }
    put_level_names(record, text, source)
}

fn put_level_names<G: Grid>(
    record: &mut ByteRecord,
    text: &mut String,
    source: &Source<'_, G>,
) -> Result<(), NoMemory>
    requires { IsFilled record.old }
    ensures fields { OnOk result (fields_of record.new
        ≡ fields_of record.old ++ map name_field source.now.level_names) }
    ensures filled { OnOk result (IsFilled record.new) }
{
    for level in 0..source.levels() {
        source.write_level_name(text, Style::Record, level)?;
        record.push_field(text.as_str().as_bytes())?;
    }
    Ok(())
}

fn put_headings<G: Grid>(
    record: &mut ByteRecord,
    text: &mut String,
    source: &Source<'_, G>,
) -> Result<(), NoMemory>
    requires { IsFilled record.old }
    ensures fields { OnOk result (fields_of record.new
        ≡ fields_of record.old ++ map heading_field source.now.headings) }
    ensures filled { OnOk result (IsFilled record.new) }
{
    for column in 0..source.columns() {
        source.write_heading(text, Style::Record, column)?;
        record.push_field(text.as_str().as_bytes())?;
    }
    Ok(())
}

// The record of the labels of a row, if they are wanted, and of its cells.
#[tactic(auto, using(crate::proofs::RecordLaws::cleared))]
fn fill_row<G: Grid>(
    record: &mut ByteRecord,
    text: &mut String,
    source: &Source<'_, G>,
    index: bool,
    row: usize,
) -> Result<(), NoMemory>
    requires { row < length source.now.labels }
    ensures fields { OnOk result (fields_of record.new
        ≡ row_fields index (row_of na_cell source.now row)) }
    ensures filled { OnOk result (IsFilled record.new) }
{
    record.clear();
    put_index_labels(record, text, source, index, row)?;
    put_cells(record, text, source, row)
}

fn put_index_labels<G: Grid>(
    record: &mut ByteRecord,
    text: &mut String,
    source: &Source<'_, G>,
    index: bool,
    row: usize,
) -> Result<(), NoMemory>
    requires row { row < length source.now.labels }
    requires filled { IsFilled record.old }
    ensures fields { OnOk result (fields_of record.new
        ≡ fields_of record.old
        ++ (if index then map label_field (row_of na_cell source.now row).labels else [])) }
    ensures filled { OnOk result (IsFilled record.new) }
{
    if !index {
        return Ok(());
    }
    put_labels(record, text, source, row)
}

fn put_labels<G: Grid>(
    record: &mut ByteRecord,
    text: &mut String,
    source: &Source<'_, G>,
    row: usize,
) -> Result<(), NoMemory>
    requires row { row < length source.now.labels }
    requires filled { IsFilled record.old }
    ensures fields { OnOk result (fields_of record.new
        ≡ fields_of record.old ++ map label_field (row_of na_cell source.now row).labels) }
    ensures filled { OnOk result (IsFilled record.new) }
{
    for level in 0..source.levels() {
        source.write_label(text, Style::Record, row, level)?;
        record.push_field(text.as_str().as_bytes())?;
    }
    Ok(())
}

fn put_cells<G: Grid>(
    record: &mut ByteRecord,
    text: &mut String,
    source: &Source<'_, G>,
    row: usize,
) -> Result<(), NoMemory>
    requires row { row < length source.now.labels }
    requires filled { IsFilled record.old }
    ensures fields { OnOk result (fields_of record.new
        ≡ fields_of record.old ++ map cell_field (row_of na_cell source.now row).cells) }
    ensures filled { OnOk result (IsFilled record.new) }
{
    for column in 0..source.columns() {
        source.write_cell(text, Style::Record, row, column)?;
        record.push_field(text.as_str().as_bytes())?;
    }
    Ok(())
}
