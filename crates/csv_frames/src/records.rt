// The records of a file, one after the other.
ghost use Rattle.std.specs.Prelude.{◌≡◌, IfOk};
ghost use Rattle.csv.specs.Records.{fields_of};
ghost use Rattle.meaning_csv.specs.CsvRead as meant;
ghost use Rattle.csv_frames.specs.Rows.{Reads, IsNext, file_records, rows_left};

use cell_core::NoMemory;
use csv::{Reader, ReaderBuilder, StringRecord};
use std::alloc::Global;

/// A reader of every record of a text, the header among them. A byte order mark at the front is dropped.
pub(crate) fn reader_of(alloc: Global, text: &[u8]) -> Reader<&[u8]>
    ensures reads { Reads result }
    ensures records { rows_left result ≡ file_records text.now }
{
    ReaderBuilder::new()
        .has_headers(false)
        .flexible(true)
        .from_reader(alloc, text)
}

/// Reads the next record into `row`, and says whether there was one.
#[tactic(auto, using(crate::proofs::RecordLaws::read_next))]
pub(crate) fn next_record(
    reader: &mut Reader<&[u8]>,
    row: &mut StringRecord,
) -> Result<bool, NoMemory>
    requires { Reads reader.old }
    ensures { IfOk result (λ found. IsNext reader.old found (fields_of row.new) reader.new) }
{
    let Ok(found) = reader.read_record(row) else {
        // Bytes in memory can be read, records may have any length, and the fields of a text are texts.
        return Err(NoMemory);
    };
    Ok(found)
}

/// The field of a record in a column; the empty text where the record is too short.
pub(crate) fn field_in(row: &StringRecord, place: usize) -> &str
    ensures { result.now ≡ meant.field_in place (fields_of row.now) }
{
    match row.get(place) {
        Some(field) => field,
        None => "",
    }
}
