// The JSON text of a frame.
ghost use Rattle.std.specs.Prelude.{◌≡◌, ◌<◌, ◌++◌, ◌∷◌, [], length, map, OnOk, IfOk, IfErr};
ghost use Rattle.json.specs.Tree.{json_tokens};
ghost use Rattle.cell_core.specs.declared.grid.Shape.TheVariants.{Frame};
ghost use Rattle.meaning_json.specs.cells.Cell.{na_cell};
ghost use Rattle.meaning_json.specs.tables.Table.{row_of};
ghost use Rattle.meaning_json.specs.format.Told.{told};
ghost use Rattle.meaning_json.specs.declared.Orient.TheVariants as orient;
ghost use Rattle.meaning_json.specs.JsonWrite as meant;
ghost use Rattle.json_frames.specs.Labels.{texts_seen};
ghost use Rattle.json_frames.specs.Answers.{WritesAs, NamesGiven};

use crate::labels::{first_repeated, heading_of};
use crate::output::Output;
use crate::source::Source;
use cell_core::{Grid, NoMemory, TextDict, Tuple, Words};
use meaning_json::Orient;
use std::alloc::Global;

/// Why a frame has no JSON text.
#[derive(Drop)]
pub enum TextRefusal {
    /// The text of this label, a tuple of its own, is also that of a later column.
    Repeated(Tuple),
    /// The rows' labels have more than one level.
    ManyLevels,
    /// Memory was refused.
    NoMemory,
}

impl From<NoMemory> for TextRefusal {
    ghost use Rattle.std.specs.Prelude.{◌≡◌};
    ghost use Rattle.json_frames.specs.declared.writing.TextRefusal.TheVariants.{NoMemory as WantOfMemory};

    ghost from_gives = { λ _ refusal. refusal ≡ WantOfMemory };

    fn from(_: NoMemory) -> TextRefusal {
        TextRefusal::NoMemory
    }
}

/// The JSON text of a frame, without a space. A missing cell or label is `null`.
///
/// With `Records` it is an array with an object for each row. Its keys are the labels of the columns as they print by
/// themselves, in the order of the columns. `Repeated` gives the first label whose text is also that of a later column.
/// The labels of the rows are no part of the text.
///
/// With `Split` it is an object of `columns` and `index`, the labels of the columns and of the rows, and `data`, an array
/// of cells for each row. `ManyLevels` comes where the rows' labels have more than one level.
///
/// `NoMemory` may come in place of any answer. The text is written row by row, with no tree of the table.
pub fn json_text<G: Grid>(
    alloc: Global,
    dict: &TextDict,
    grid: &G,
    orient: Orient,
) -> Result<Words, TextRefusal>
    requires { (G.table grid.now).shape ≡ Frame }
    ensures answer { WritesAs dict.now result
        (meant.json_text_of orient (told dict.now (G.table grid.now))) }
    ensures named { IfErr result (NamesGiven dict.now (G.table grid.now)) }
{
    match orient {
        Orient::Records => records_text(alloc, dict, grid),
        Orient::Split => split_text(alloc, dict, grid),
    }
}

fn records_text<G: Grid>(alloc: Global, dict: &TextDict, grid: &G) -> Result<Words, TextRefusal>
    ensures answer { WritesAs dict.now result
        (meant.json_text_of orient.Records (told dict.now (G.table grid.now))) }
    ensures named { IfErr result (NamesGiven dict.now (G.table grid.now)) }
{
    let source = Source::new(dict, grid);
    let keys = keys_of(alloc, &source)?;
    match first_repeated(alloc, keys.as_slice())? {
        Some(place) => {
            let label = Tuple::of(alloc, &[heading_of(grid, place)]);
            Err(TextRefusal::Repeated(label))
        }
        None => Ok(text_of_records(alloc, &source, keys.as_slice())?),
    }
}

// The text of the records, under these keys.
fn text_of_records<G: Grid>(
    alloc: Global,
    source: &Source<'_, G>,
    keys: &[String],
) -> Result<Words, NoMemory>
    requires { texts_seen keys.now ≡ map meant.key_text (meant.column_labels source.now) }
    ensures { IfOk result (λ words. words ≡ meant.value_text (meant.records_json source.now)) }
{
    let mut out = Output::new(alloc);
    put_records(&mut out, source, keys)?;
    out.into_words(alloc)
}

fn split_text<G: Grid>(alloc: Global, dict: &TextDict, grid: &G) -> Result<Words, TextRefusal>
    ensures answer { WritesAs dict.now result
        (meant.json_text_of orient.Split (told dict.now (G.table grid.now))) }
    ensures named { IfErr result (NamesGiven dict.now (G.table grid.now)) }
{
    let source = Source::new(dict, grid);
    if source.levels() != 1 {
        return Err(TextRefusal::ManyLevels);
    }
    let mut out = Output::new(alloc);
    put_split(&mut out, &source)?;
    Ok(out.into_words(alloc)?)
}

// The texts of the labels of the columns.
fn keys_of<G: Grid>(alloc: Global, source: &Source<'_, G>) -> Result<Vec<String>, NoMemory>
    ensures { IfOk result (λ keys. texts_seen keys.items
        ≡ map meant.key_text (meant.column_labels source.now)) }
{
    let mut keys = Vec::new(alloc);
    for column in 0..source.columns() {
        keys.push(source.key(alloc, column)?)?;
    }
    Ok(keys)
}

// The array of the records of all rows, under these keys.
fn put_records<G: Grid>(
    out: &mut Output,
    source: &Source<'_, G>,
    keys: &[String],
) -> Result<(), NoMemory>
    requires { texts_seen keys.now ≡ map meant.key_text (meant.column_labels source.now) }
    ensures { OnOk result (out.new ≡ out.old ++ json_tokens (meant.records_json source.now)) }
{
    out.begin_array()?;
    for row in 0..source.rows() {
        put_record(out, source, keys, row)?;
    }
    out.end_array()
}

// The object of the cells of a row.
fn put_record<G: Grid>(
    out: &mut Output,
    source: &Source<'_, G>,
    keys: &[String],
    row: usize,
) -> Result<(), NoMemory>
    requires keys { texts_seen keys.now ≡ map meant.key_text (meant.column_labels source.now) }
    requires row { row < length source.now.labels }
    ensures { OnOk result (out.new ≡ out.old
        ++ json_tokens (meant.record_json (meant.column_labels source.now) (row_of na_cell source.now row))) }
{
    out.begin_object()?;
    for column in 0..source.columns() {
        out.key(keys[column].as_str())?;
        source.put_cell(out, row, column)?;
    }
    out.end_object()
}

// The object of labels and cells.
fn put_split<G: Grid>(out: &mut Output, source: &Source<'_, G>) -> Result<(), NoMemory>
    requires { length source.now.level_names ≡ 1 }
    ensures { OnOk result (out.new ≡ out.old ++ json_tokens (meant.split_json source.now)) }
{
    out.begin_object()?;
    out.key("columns")?;
    put_headings(out, source)?;
    out.key("index")?;
    put_row_labels(out, source)?;
    out.key("data")?;
    put_rows(out, source)?;
    out.end_object()
}

// The array of the labels of the columns.
fn put_headings<G: Grid>(out: &mut Output, source: &Source<'_, G>) -> Result<(), NoMemory>
    ensures { OnOk result (out.new
        ≡ out.old ++ json_tokens (meant.labels_json (meant.column_labels source.now))) }
{
    out.begin_array()?;
    for column in 0..source.columns() {
        source.put_heading(out, column)?;
    }
    out.end_array()
}

// The array of the labels of the rows.
fn put_row_labels<G: Grid>(out: &mut Output, source: &Source<'_, G>) -> Result<(), NoMemory>
    requires { length source.now.level_names ≡ 1 }
    ensures { OnOk result (out.new
        ≡ out.old ++ json_tokens (meant.labels_json (meant.row_labels source.now))) }
{
    out.begin_array()?;
    for row in 0..source.rows() {
        source.put_label(out, row)?;
    }
    out.end_array()
}

// The array of the cells of all rows.
fn put_rows<G: Grid>(out: &mut Output, source: &Source<'_, G>) -> Result<(), NoMemory>
    ensures { OnOk result (out.new ≡ out.old ++ json_tokens (meant.rows_json source.now)) }
{
    out.begin_array()?;
    for row in 0..source.rows() {
        put_row(out, source, row)?;
    }
    out.end_array()
}

// The array of the cells of a row.
fn put_row<G: Grid>(out: &mut Output, source: &Source<'_, G>, row: usize) -> Result<(), NoMemory>
    requires { row < length source.now.labels }
    ensures { OnOk result (out.new
        ≡ out.old ++ json_tokens (meant.cells_json (row_of na_cell source.now row))) }
{
    out.begin_array()?;
    for column in 0..source.columns() {
        source.put_cell(out, row, column)?;
    }
    out.end_array()
}
