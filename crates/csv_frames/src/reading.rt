// Reading a file.
ghost use Rattle.std.specs.Prelude.{◌≡◌, ◌∷◌, ◌≤◌, ◌^◌, true, length, None, IfOk, IfErr};
ghost use Rattle.std.specs.List.{IsDistinct};
ghost use Rattle.csv.specs.Records.{fields_of};
ghost use Rattle.column_core.specs.cells.Text.{same_text};
ghost use Rattle.column_core.specs.cells.Cell.{IsLonger};
ghost use Rattle.meaning_csv.specs.tables.Settled.{IsSettled};
ghost use Rattle.meaning_csv.specs.tables.Valid as valid;
ghost use Rattle.meaning_csv.specs.CsvRead as meant;
ghost use Rattle.csv_frames.specs.Rows.{file_records, file_rows};
ghost use Rattle.csv_frames.specs.Growing.{AreGrown};
ghost use Rattle.csv_frames.specs.Views.{texts_seen, entries_seen, columns_seen, csv_seen, refusal_of, PartsFit, ReadsAs, ReadAnswers};

use crate::columns::{columns_of, has_mixed, kinds_found, tuples_of};
use crate::growth::{Growth, MOST_COLUMNS, growth_of, is_within_limits};
use crate::kinds::kinds_of_labels;
use crate::labels::labels_of;
use crate::records::{next_record, reader_of};
use crate::table::{Columns, CsvFault, CsvTable, NamedKinds};
use cell_core::{Kind, TextDict};
use csv::StringRecord;
use std::alloc::Global;

const MOST_BYTES: usize = 1 << 28;

// The columns of a file's records. Where the cells of one weren't kept, the records are read once more, with the kind
// of each column named.
#[tactic(auto, using(crate::proofs::Hints::columns_read))]
fn columns_read(
    alloc: Global,
    dict: &mut TextDict,
    bytes: &[u8],
    kinds: &[Option<Kind>],
    growth: Growth,
) -> Result<Columns, CsvFault>
    requires small { length bytes.now ≤ 2 ^ 28 }
    requires short { meant.first_long (length kinds.now) 2 (file_rows bytes.now) ≡ None }
    requires within { valid.within_limits (length (file_rows bytes.now)) (length kinds.now) ≡ true }
    requires rows { growth.rows ≡ length (file_rows bytes.now) }
    requires grown { AreGrown dict.old kinds.now (file_rows bytes.now) growth.columns.items }
    ensures longer { IsLonger dict.old dict.new }
    ensures settled { IfOk result (IsSettled columns_seen dict.new) }
    ensures read { IfOk result (λ columns. columns_seen dict.new columns
        ≡ meant.columns_from 0 kinds.now (file_rows bytes.now)) }
    ensures fault { IfErr result (λ fault. refusal_of fault ≡ None) }
{
    let rows = growth.rows;
    if !has_mixed(growth.columns.as_slice()) {
        return Ok(columns_of(alloc, rows, growth.columns)?);
    }
    let found = kinds_found(alloc, growth.columns)?;
    let again = growth_of(alloc, dict, bytes, kinds.len(), found.as_slice())?;
    Ok(columns_of(alloc, rows, again.columns)?)
}

// The columns of a file's records, with these labels.
#[tactic(auto, using(crate::proofs::Hints::labelled_columns))]
fn labelled_columns(
    alloc: Global,
    dict: &mut TextDict,
    bytes: &[u8],
    labels: &[String],
    kinds: &[Option<Kind>],
    growth: Growth,
) -> Result<CsvTable, CsvFault>
    requires small { length bytes.now ≤ 2 ^ 28 }
    requires alike { length labels.now ≡ length kinds.now }
    requires different { IsDistinct same_text (texts_seen labels.now) }
    requires short { meant.first_long (length kinds.now) 2 (file_rows bytes.now) ≡ None }
    requires within { valid.within_limits (length (file_rows bytes.now)) (length kinds.now) ≡ true }
    requires rows { growth.rows ≡ length (file_rows bytes.now) }
    requires grown { AreGrown dict.old kinds.now (file_rows bytes.now) growth.columns.items }
    ensures parts { IfOk result PartsFit }
    ensures longer { IsLonger dict.old dict.new }
    ensures settled { IfOk result (IsSettled csv_seen dict.new) }
    ensures read { IfOk result (λ table. csv_seen dict.new table
        ≡ meant.labelled_columns (texts_seen labels.now) kinds.now (file_rows bytes.now)) }
    ensures fault { IfErr result (λ fault. refusal_of fault ≡ None) }
{
    let rows = growth.rows;
    let columns = columns_read(alloc, dict, bytes, kinds, growth)?;
    let labels = tuples_of(alloc, dict, labels)?;
    Ok(CsvTable {
        rows,
        labels,
        columns,
    })
}

// The columns of a file's records, with these labels, if no record is too long, the fields are of the named kinds and
// the columns within the limits.
fn columns_of_rows(
    alloc: Global,
    dict: &mut TextDict,
    bytes: &[u8],
    labels: &[String],
    kinds: &[Option<Kind>],
) -> Result<CsvTable, CsvFault>
    requires small { length bytes.now ≤ 2 ^ 28 }
    requires alike { length labels.now ≡ length kinds.now }
    requires different { IsDistinct same_text (texts_seen labels.now) }
    ensures longer { IsLonger dict.old dict.new }
    ensures settled { IfOk result (IsSettled csv_seen dict.new) }
    ensures parts { IfOk result PartsFit }
    ensures answer { ReadsAs dict.new result
        (meant.unless_refused (meant.first_long (length kinds.now) 2 (file_rows bytes.now))
        (meant.columns_of_rows (texts_seen labels.now) kinds.now (file_rows bytes.now))) }
{
    let growth = growth_of(alloc, dict, bytes, kinds.len(), kinds)?;
    if !growth.fits {
        return Err(CsvFault::NotCast);
    }
    if !is_within_limits(growth.rows, kinds.len()) {
        return Err(CsvFault::TooLarge);
    }
    labelled_columns(alloc, dict, bytes, labels, kinds, growth)
}

// The columns under a header.
#[tactic(auto, using(crate::proofs::Hints::columns_under))]
fn columns_under(
    alloc: Global,
    dict: &mut TextDict,
    bytes: &[u8],
    header: &StringRecord,
    kinds: &NamedKinds,
) -> Result<CsvTable, CsvFault>
    requires small { length bytes.now ≤ 2 ^ 28 }
    requires header { file_records bytes.now ≡ fields_of header.now ∷ file_rows bytes.now }
    ensures longer { IsLonger dict.old dict.new }
    ensures settled { IfOk result (IsSettled csv_seen dict.new) }
    ensures parts { IfOk result PartsFit }
    ensures answer { ReadsAs dict.new result
        (meant.columns_of_records (entries_seen dict.old kinds.now) (file_records bytes.now)) }
{
    // Without named kinds no label is asked for one, so none is made for a table that is too wide.
    if kinds.len() == 0 && MOST_COLUMNS < header.len() {
        growth_of(alloc, dict, bytes, header.len(), &[])?;
        return Err(CsvFault::TooLarge);
    }
    let labels = labels_of(alloc, header)?;
    let kinds = kinds_of_labels(alloc, dict, kinds, labels.as_slice())?;
    columns_of_rows(alloc, dict, bytes, labels.as_slice(), kinds.as_slice())
}

// The columns of a text.
fn columns_of_text(
    alloc: Global,
    dict: &mut TextDict,
    bytes: &[u8],
    kinds: &NamedKinds,
) -> Result<CsvTable, CsvFault>
    requires { length bytes.now ≤ 2 ^ 28 }
    ensures longer { IsLonger dict.old dict.new }
    ensures settled { IfOk result (IsSettled csv_seen dict.new) }
    ensures parts { IfOk result PartsFit }
    ensures answer { ReadsAs dict.new result
        (meant.columns_of_records (entries_seen dict.old kinds.now) (file_records bytes.now)) }
{
    let mut reader = reader_of(alloc, bytes);
    let mut header = StringRecord::new(alloc);
    if !next_record(&mut reader, &mut header)? {
        return Err(CsvFault::NoColumn);
    }
    columns_under(alloc, dict, bytes, &header, kinds)
}

/// The columns of a file of comma-separated values, whose first record is the header. A text, also a label, gets its
/// number from `dict`.
///
/// The records are those of RFC 4180, but of any length; a line ends at CR, LF or both, a line without a byte is none,
/// and one byte order mark at the front is dropped. An empty label is `Unnamed: ` with its place from 0; a label that
/// stood before gets a dot and the least number from 1 that makes it differ from all others. A record that is shorter
/// than the header has missing cells at its end.
///
/// A field is missing where it is empty or one of the words that `na_values` of `pandas.read_csv` has by default. A
/// column whose other fields are all whole numbers of 64 bits is `Int64`, one of `True`, `TRUE`, `true`, `False`,
/// `FALSE` and `false` is `boolean`, and any other is `string`. `kinds` names another kind for the column of a label;
/// a label that no column has is passed over.
///
/// In this order: `TooLarge` for more than 2^28 bytes; `NotUtf8` with the place of the first byte, from 0, that isn't
/// part of UTF-8 text; `NoColumn` where there is no record; `LongRow` for the first record that is longer than the
/// header, with its number (the header is record 1), the header's length and its own; `NotCast` where a field isn't of
/// the kind that is named for its column; `TooLarge` for more than 2^26 records after the header, 2^16 columns or 2^26
/// cells. `NoMemory` may come in place of any answer. After any other refusal `dict` is as it was.
#[tactic(auto, using(crate::proofs::Hints::read_csv))]
pub fn read_csv(
    alloc: Global,
    dict: &mut TextDict,
    bytes: &[u8],
    kinds: &NamedKinds,
) -> Result<CsvTable, CsvFault>
    ensures longer { IsLonger dict.old dict.new }
    ensures settled { IfOk result (IsSettled csv_seen dict.new) }
    ensures parts { IfOk result PartsFit }
    ensures answer { ReadAnswers dict.old dict.new result
        (meant.columns_of_file bytes.now (entries_seen dict.old kinds.now)) }
{
    if MOST_BYTES < bytes.len() {
        return Err(CsvFault::TooLarge);
    }
    if let Err(error) = str::from_utf8(bytes) {
        return Err(CsvFault::NotUtf8(error.valid_up_to() as u64));
    }
    let texts = dict.len();
    let table = columns_of_text(alloc, dict, bytes, kinds);
    if table.is_err() {
        dict.truncate(texts);
    }
    table
}
