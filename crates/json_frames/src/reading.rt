// Reading a file.
ghost use Rattle.std.specs.Prelude.{◌≡◌, Some, None, IfOk, IfErr, IfSome, length};
ghost use Rattle.serde_json.specs.Read.{read};
ghost use Rattle.serde_json.specs.View.{view};
ghost use Rattle.meaning_json.specs.cells.Cell.{IsLonger};
ghost use Rattle.meaning_json.specs.tables.Settled.{IsSettled};
ghost use Rattle.meaning_json.specs.tables.Valid.{within_limits};
ghost use Rattle.meaning_json.specs.declared.Orient.TheVariants as orient;
ghost use Rattle.meaning_json.specs.JsonRead as meant;
ghost use Rattle.json_frames.specs.declared.reading.JsonFault.TheVariants.{NoMemory as WantOfMemory};
ghost use Rattle.json_frames.specs.Kinds.{OfRows, KindsAt};
ghost use Rattle.json_frames.specs.Views.{values_seen, parts_seen, json_seen, refusal_of, ReadsAs, ReadAnswers};

use crate::columns::{columns_at, columns_under, default_rows, key_labels, kinds_at, labels_of};
use crate::kinds::{Kinds, kinds_of};
use crate::split::{SplitParts, has_three_members, is_split, parts_of, values_of};
use crate::values::are_records;
use cell_core::{Kind, NoMemory, TextDict, Tuples};
use csv_frames::Columns;
use meaning_json::Orient;
use serde_json::Value;
use std::alloc::Global;

const MOST_BYTES: usize = 1 << 28;

const MOST_ROWS: usize = 1 << 26;

const MOST_COLUMNS: usize = 1 << 16;

const MOST_CELLS: usize = 1 << 26;

/// The columns of a JSON file.
#[derive(Drop)]
pub struct JsonTable {
    /// The label of each column, a tuple of its own.
    pub labels: Tuples,
    /// The label of each row, a tuple of its own.
    pub rows: Tuples,
    /// The columns, with a cell for each row.
    pub columns: Columns,
}

/// Why a JSON file isn't read.
#[derive(Clone, Copy, Debug, PartialEq, Eq, Drop)]
pub enum JsonFault {
    /// The bytes aren't UTF-8: the place of the first byte that isn't part of a text.
    NotUtf8(u64),
    /// The text isn't JSON, or its arrays and objects nest deeper than 127.
    NotJson,
    /// The value isn't a table in the orient's form.
    NotTable,
    /// A column has cells of two kinds.
    MixedKinds,
    /// The file has more than 2^28 bytes, or its table is beyond the limits of tables.
    TooLarge,
    /// Memory was refused.
    NoMemory,
}

impl From<NoMemory> for JsonFault {
    ghost from_gives = { λ _ fault. fault ≡ WantOfMemory };

    fn from(_: NoMemory) -> JsonFault {
        JsonFault::NoMemory
    }
}

// Whether a table may have so many rows and columns.
fn is_within_limits(rows: usize, columns: usize) -> bool
    ensures { result ≡ within_limits rows columns }
{
    rows <= MOST_ROWS && columns <= MOST_COLUMNS && rows * columns <= MOST_CELLS
}

// The columns of records under keys of these kinds, if they are within the limits.
#[tactic(auto, using(crate::proofs::Hints::keyed_table))]
fn keyed_table(
    alloc: Global,
    dict: &mut TextDict,
    rows: &[Value],
    kinds: &Kinds,
) -> Result<JsonTable, JsonFault>
    requires { OfRows kinds.now (values_seen rows.now) }
    ensures longer { IsLonger dict.old dict.new }
    ensures settled { IfOk result (IsSettled json_seen dict.new) }
    ensures answer { ReadsAs dict.new result (meant.records_table (values_seen rows.now)) }
{
    if !is_within_limits(rows.len(), kinds.len()) {
        return Err(JsonFault::TooLarge);
    }
    let columns = columns_under(alloc, dict, rows, kinds)?;
    let labels = key_labels(alloc, dict, kinds)?;
    let rows = default_rows(alloc, rows.len())?;
    Ok(JsonTable {
        labels,
        rows,
        columns,
    })
}

// The columns of records.
#[tactic(auto, using(crate::proofs::KeyLaws::mixed_there))]
fn records_table(alloc: Global, dict: &mut TextDict, rows: &[Value]) -> Result<JsonTable, JsonFault>
    ensures longer { IsLonger dict.old dict.new }
    ensures settled { IfOk result (IsSettled json_seen dict.new) }
    ensures answer { ReadsAs dict.new result (meant.records_table (values_seen rows.now)) }
{
    match kinds_of(alloc, rows)? {
        Some(kinds) => keyed_table(alloc, dict, rows, &kinds),
        None => Err(JsonFault::MixedKinds),
    }
}

// The columns of an array of records.
fn read_records(alloc: Global, dict: &mut TextDict, value: &Value) -> Result<JsonTable, JsonFault>
    ensures longer { IsLonger dict.old dict.new }
    ensures settled { IfOk result (IsSettled json_seen dict.new) }
    ensures answer { ReadsAs dict.new result (meant.table_in orient.Records (view value.now)) }
{
    let Some(rows) = values_of(value) else {
        return Err(JsonFault::NotTable);
    };
    if !are_records(rows) {
        return Err(JsonFault::NotTable);
    }
    records_table(alloc, dict, rows)
}

// The columns of the arrays of labels and rows, which have these kinds, if they are within the limits.
fn labelled_table(
    alloc: Global,
    dict: &mut TextDict,
    parts: SplitParts<'_>,
    kinds: &[Kind],
) -> Result<JsonTable, JsonFault>
    requires { KindsAt kinds.now (values_seen parts.rows.now) (length parts.columns.now) }
    ensures longer { IsLonger dict.old dict.new }
    ensures settled { IfOk result (IsSettled json_seen dict.new) }
    ensures answer { ReadsAs dict.new result (meant.split_table (parts_seen parts.entry)) }
{
    if !is_within_limits(parts.index.len(), parts.columns.len()) {
        return Err(JsonFault::TooLarge);
    }
    let columns = columns_at(alloc, dict, parts.rows, kinds)?;
    let labels = labels_of(alloc, dict, parts.columns)?;
    let rows = labels_of(alloc, dict, parts.index)?;
    Ok(JsonTable {
        labels,
        rows,
        columns,
    })
}

// The columns of the arrays of labels and rows.
fn split_table(
    alloc: Global,
    dict: &mut TextDict,
    parts: SplitParts<'_>,
) -> Result<JsonTable, JsonFault>
    ensures longer { IsLonger dict.old dict.new }
    ensures settled { IfOk result (IsSettled json_seen dict.new) }
    ensures answer { ReadsAs dict.new result (meant.split_table (parts_seen parts.entry)) }
{
    match kinds_at(alloc, parts.rows, parts.columns.len())? {
        Some(kinds) => labelled_table(alloc, dict, parts, kinds.as_slice()),
        None => Err(JsonFault::MixedKinds),
    }
}

// The columns of an object of labels and rows.
fn read_split(alloc: Global, dict: &mut TextDict, value: &Value) -> Result<JsonTable, JsonFault>
    ensures longer { IsLonger dict.old dict.new }
    ensures settled { IfOk result (IsSettled json_seen dict.new) }
    ensures answer { ReadsAs dict.new result (meant.table_in orient.Split (view value.now)) }
{
    if !has_three_members(value) {
        return Err(JsonFault::NotTable);
    }
    let Some(parts) = parts_of(value) else {
        return Err(JsonFault::NotTable);
    };
    if !is_split(parts) {
        return Err(JsonFault::NotTable);
    }
    split_table(alloc, dict, parts)
}

// The value that a text is.
fn value_of(alloc: Global, text: &str) -> Result<Value, JsonFault>
    ensures value { IfOk result (λ value. read text.now ≡ Some (view value)) }
    ensures fault { IfErr result (λ fault. IfSome (refusal_of fault)
        (λ refusal. (refusal ≡ meant.not_json) × (read text.now ≡ None))) }
{
    match Value::from_str(alloc, text) {
        Ok(value) => Ok(value),
        Err(error) => {
            if error.is_memory() {
                Err(JsonFault::NoMemory)
            } else {
                Err(JsonFault::NotJson)
            }
        }
    }
}

// The columns of a text.
fn table_of_text(
    alloc: Global,
    dict: &mut TextDict,
    text: &str,
    orient: Orient,
) -> Result<JsonTable, JsonFault>
    ensures longer { IsLonger dict.old dict.new }
    ensures settled { IfOk result (IsSettled json_seen dict.new) }
    ensures answer { ReadsAs dict.new result (meant.table_if_read orient (read text.now)) }
{
    let value = value_of(alloc, text)?;
    match orient {
        Orient::Records => read_records(alloc, dict, &value),
        Orient::Split => read_split(alloc, dict, &value),
    }
}

/// The columns of a file of JSON. A text, also a label, gets its number from `dict`.
///
/// A cell is `null`, a truth value, a whole number of 64 bits or a text. A column's cells that aren't missing are all of
/// one kind, which is the column's; one with no such cell is `Int64`. Of equal keys of an object the last counts.
///
/// With `Records` the file is an array of objects of cells. The columns are all their keys in the order of texts; the
/// cell under a key that an object hasn't is missing. The rows are labelled 0, 1 and so on.
///
/// With `Split` it is an object of exactly `columns` and `index`, the labels of the columns and of the rows, each an
/// array of cells, and `data`, which has for each row an array with a cell for each column. Labels may be equal.
///
/// In this order: `TooLarge` for more than 2^28 bytes; `NotUtf8` with the place of the first byte, from 0, that isn't
/// part of UTF-8 text; `NotJson` for a text that isn't JSON, nests deeper than 127, or has a number beyond a float's
/// range; `NotTable` for a value that isn't of the orient's form; `MixedKinds` where a column has cells of two kinds;
/// `TooLarge` for more than 2^26 rows, 2^16 columns or 2^26 cells. `NoMemory` may come in place of any answer. After any
/// other refusal `dict` is as it was. The memory taken is in proportion to the file and the table.
#[tactic(auto, using(crate::proofs::Hints::json_table))]
pub fn json_table(
    alloc: Global,
    dict: &mut TextDict,
    bytes: &[u8],
    orient: Orient,
) -> Result<JsonTable, JsonFault>
    ensures longer { IsLonger dict.old dict.new }
    ensures settled { IfOk result (IsSettled json_seen dict.new) }
    ensures answer { ReadAnswers dict.old dict.new result (meant.table_of_file orient bytes.now) }
{
    if MOST_BYTES < bytes.len() {
        return Err(JsonFault::TooLarge);
    }
    let text = match str::from_utf8(bytes) {
        Ok(text) => text,
        Err(error) => return Err(JsonFault::NotUtf8(error.valid_up_to() as u64)),
    };
    let texts = dict.len();
    let table = table_of_text(alloc, dict, text, orient);
    if table.is_err() {
        dict.truncate(texts);
    }
    table
}
