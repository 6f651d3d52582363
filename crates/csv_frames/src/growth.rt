// The columns of records that are read one after the other.
ghost use Rattle.std.specs.Prelude.{◌≡◌, ◌<◌, ◌≤◌, ◌+◌, ◌^◌, ◌&&◌, ◌++◌, ◌∷◌, [], List, ℕ, None, Some, length, map, IfOk, IfErr, IfSome, OnOk};
ghost use Rattle.csv.specs.Records.{fields_of};
ghost use Rattle.column_core.specs.cells.Cell.{IsLonger};
ghost use Rattle.meaning_csv.specs.tables.Valid as valid;
ghost use Rattle.meaning_csv.specs.CsvRead as meant;
ghost use Rattle.csv_frames.specs.Rows.{file_rows};
ghost use Rattle.csv_frames.specs.Growing.{without_fields, AreGrown, GrownTo};
ghost use Rattle.csv_frames.specs.Views.{refusal_of};

use crate::fields::is_of_kind;
use crate::growing::Growing;
use crate::records::{field_in, next_record, reader_of};
use crate::table::CsvFault;
use cell_core::{Kind, NoMemory, TextDict};
use csv::StringRecord;
use std::alloc::Global;

const MOST_ROWS: usize = 1 << 26;

/// The most columns that a table has.
pub(crate) const MOST_COLUMNS: usize = 1 << 16;

const MOST_CELLS: usize = 1 << 26;

/// Whether a table may have so many rows and columns.
pub(crate) fn is_within_limits(rows: usize, columns: usize) -> bool
    ensures { result ≡ valid.within_limits rows columns }
{
    rows <= MOST_ROWS && columns <= MOST_COLUMNS && rows * columns <= MOST_CELLS
}

// Whether the field at a place isn't of the kind that is named for its column.
fn is_misfit(named: Option<Kind>, row: &StringRecord, place: usize) -> bool
    ensures { result ≡ meant.is_misfit named (meant.field_in place (fields_of row.now)) }
{
    match named {
        Some(kind) => !is_of_kind(kind, field_in(row, place)),
        None => false,
    }
}

// Whether a record has such a field.
#[tactic(auto, using(crate::proofs::MisfitLaws::misfit_done))]
fn has_misfit(kinds: &[Option<Kind>], row: &StringRecord) -> bool
    ensures { result ≡ meant.has_misfit kinds.now (fields_of row.now) }
{
    for place in 0..kinds.len().min(row.len()) {
        if is_misfit(kinds[place], row, place) {
            return true;
        }
    }
    false
}

fn new_columns(alloc: Global, kinds: &[Option<Kind>]) -> Result<Vec<Growing>, NoMemory>
    ensures { IfOk result (λ columns. columns.items ≡ map without_fields kinds.now) }
{
    let mut columns = Vec::new(alloc);
    for place in 0..kinds.len() {
        columns.push(Growing::new(alloc, kinds[place]))?;
    }
    Ok(columns)
}

// Appends a record to the columns of so many records, and says whether a field isn't of the kind that is named for its
// column.
fn push_fields(
    alloc: Global,
    dict: &mut TextDict,
    kinds: &[Option<Kind>],
    columns: &mut [Growing],
    rows: usize,
    row: &StringRecord,
) -> Result<bool, NoMemory>
    requires { length columns.old ≡ length kinds.now }
    ensures longer { IsLonger dict.old dict.new }
    ensures misfit { IfOk result (λ misfit. (before : List (List (List ℕ))) →
        length before ≡ rows → AreGrown dict.old kinds.now before columns.old →
        misfit ≡ meant.has_misfit kinds.now (fields_of row.now)) }
    ensures grown { OnOk result ((before : List (List (List ℕ))) → length before ≡ rows →
        AreGrown dict.old kinds.now before columns.old →
        AreGrown dict.new kinds.now (before ++ fields_of row.now ∷ []) columns.new) }
{
    let mut misfit = false;
    for place in 0..kinds.len() {
        let field = field_in(row, place);
        misfit |= columns[place].push(alloc, dict, kinds[place], rows, field)?;
    }
    Ok(misfit)
}

/// The records so far.
#[derive(Drop)]
pub(crate) struct Growth {
    /// How many there are.
    pub(crate) rows: usize,
    /// Whether each field is of the kind that is named for its column.
    pub(crate) fits: bool,
    /// A column for each kind, as long as the table is within the limits.
    pub(crate) columns: Vec<Growing>,
}

impl Growth {
    // No record.
    fn new(alloc: Global, kinds: &[Option<Kind>]) -> Result<Growth, NoMemory>
        ensures { IfOk result (λ growth. (texts : List (List ℕ)) →
            GrownTo texts kinds.now [] growth) }
    {
        let columns = if is_within_limits(0, kinds.len()) {
            new_columns(alloc, kinds)?
        } else {
            Vec::new(alloc)
        };
        Ok(Growth {
            rows: 0,
            fits: true,
            columns,
        })
    }

    fn push(
        &mut self,
        alloc: Global,
        dict: &mut TextDict,
        kinds: &[Option<Kind>],
        row: &StringRecord,
    ) -> Result<(), NoMemory>
        requires few { self.old.rows < 2 ^ 32 }
        requires grown { (before : List (List (List ℕ)))
            × GrownTo dict.old kinds.now before self.old }
        ensures longer { IsLonger dict.old dict.new }
        ensures grown { OnOk result ((before : List (List (List ℕ))) →
            GrownTo dict.old kinds.now before self.old →
            GrownTo dict.new kinds.now (before ++ fields_of row.now ∷ []) self.new) }
    {
        let rows = self.rows;
        self.rows += 1;
        if !is_within_limits(self.rows, kinds.len()) {
            self.fits &= !has_misfit(kinds, row);
            return Ok(());
        }
        let columns = self.columns.as_mut_slice();
        self.fits &= !push_fields(alloc, dict, kinds, columns, rows, row)?;
        Ok(())
    }
}

/// The columns of a file's records after the header, of these kinds where they are named; or else the first record that
/// is longer than the header.
#[tactic(auto, using(crate::proofs::RecordLaws::few_before))]
pub(crate) fn growth_of(
    alloc: Global,
    dict: &mut TextDict,
    bytes: &[u8],
    width: usize,
    kinds: &[Option<Kind>],
) -> Result<Growth, CsvFault>
    requires { length bytes.now ≤ 2 ^ 28 }
    ensures longer { IsLonger dict.old dict.new }
    ensures grown { IfOk result (GrownTo dict.new kinds.now (file_rows bytes.now)) }
    ensures short { OnOk result (meant.first_long width 2 (file_rows bytes.now) ≡ None) }
    ensures long { IfErr result (λ fault. IfSome (refusal_of fault)
        (λ refusal. meant.first_long width 2 (file_rows bytes.now) ≡ Some refusal)) }
{
    let mut reader = reader_of(alloc, bytes);
    let mut row = StringRecord::new(alloc);
    let mut growth = Growth::new(alloc, kinds)?;
    if !next_record(&mut reader, &mut row)? {
        return Ok(growth);
    }
    'reading: loop {
        if !next_record(&mut reader, &mut row)? {
            return Ok(growth);
        }
        if width < row.len() {
            return Err(CsvFault::LongRow(growth.rows as u64 + 2, width as u64, row.len() as u64));
        }
        growth.push(alloc, dict, kinds, &row)?;
    }
}
