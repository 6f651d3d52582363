// Columns that grow field by field.
ghost use Rattle.std.specs.Prelude.{◌≡◌, ◌++◌, ◌∷◌, [], List, ℕ, false, length, IfOk, OnOk};
ghost use Rattle.column_core.specs.cells.Cell.{Int64, Boolean, string, datum, IsLonger};
ghost use Rattle.meaning_csv.specs.tables.Settled.{IsSettled};
ghost use Rattle.column_core.specs.Columns.{text_cell};
ghost use Rattle.column_core.specs.Views.{kept_column};
ghost use Rattle.meaning_csv.specs.CsvRead as meant;
ghost use Rattle.csv_frames.specs.Growing.{Grown, IsGrownBy, IsFirst, IsPut, IsTextPut, number_in, truth_in, without_fields, is_mixed, kind_so_far, column_so_far};

use crate::fields::{is_missing, kind_of_field};
use cell_core::{Cell, Kind, NoMemory, TextDict, TextId};
use column_core::{Column, Kept, Owned};
use nullable_array::{number_of_text, truth_of_text};
use std::alloc::Global;

/// The column of the fields so far.
#[derive(Drop)]
pub(crate) enum Growing {
    /// All fields are missing, and no kind is named.
    Missing,
    /// The cells of the fields.
    Cells(Column),
    /// The fields are texts, which wasn't seen before numbers or truth values were among the cells.
    Mixed,
}

// Appends the number that a field is, missing where it is none, and says whether the field can be a cell of its kind.
fn push_number(rows: &mut Owned<i64>, field: &str) -> Result<bool, NoMemory>
    ensures fits { IfOk result (λ fits. fits ≡ meant.is_of_kind Int64 field.now) }
    ensures pushed { OnOk result (IsPut (number_in field.now) rows.old rows.new) }
{
    if is_missing(field) {
        rows.push(0, None)?;
        return Ok(true);
    }
    let number = number_of_text(field);
    rows.push(0, number)?;
    Ok(number.is_some())
}

// Appends the truth value that a field is, missing where it is none, and says whether the field can be a cell of its
// kind.
fn push_truth(rows: &mut Owned<bool>, field: &str) -> Result<bool, NoMemory>
    ensures fits { IfOk result (λ fits. fits ≡ meant.is_of_kind Boolean field.now) }
    ensures pushed { OnOk result (IsPut (truth_in field.now) rows.old rows.new) }
{
    if is_missing(field) {
        rows.push(false, None)?;
        return Ok(true);
    }
    let truth = truth_of_text(field);
    rows.push(false, truth)?;
    Ok(truth.is_some())
}

// The number of the text that a field is, if it isn't missing.
fn text_of_field(dict: &mut TextDict, field: &str) -> Result<Option<TextId>, NoMemory>
    ensures longer { IsLonger dict.old dict.new }
    ensures settled { IfOk result (λ text. IsSettled datum dict.new (text_cell text)) }
    ensures value { IfOk result (λ text. datum dict.new (text_cell text)
        ≡ meant.cell_of_field string field.now) }
{
    if is_missing(field) {
        return Ok(None);
    }
    Ok(Some(dict.intern(field)?))
}

// Appends the text that a field is. Each field can be one.
fn push_text(dict: &mut TextDict, rows: &mut Owned<TextId>, field: &str) -> Result<bool, NoMemory>
    ensures longer { IsLonger dict.old dict.new }
    ensures fits { IfOk result (λ fits. fits ≡ meant.is_of_kind string field.now) }
    ensures pushed { OnOk result (IsTextPut dict.new field.now rows.old rows.new) }
{
    let text = text_of_field(dict, field)?;
    rows.push(TextId(0), text)?;
    Ok(true)
}

// Appends a field to what is kept, missing where it can't be a cell of its kind, and says whether it can.
fn push_kept(dict: &mut TextDict, lanes: &mut Kept, field: &str) -> Result<bool, NoMemory>
    ensures longer { IsLonger dict.old dict.new }
    ensures fits { IfOk result (λ fits. fits
        ≡ meant.is_of_kind (kept_column lanes.old).kind field.now) }
    ensures grown { OnOk result (IsGrownBy dict.old dict.new field.now (kept_column lanes.old)
        (kept_column lanes.new)) }
{
    match lanes {
        Kept::Ints(rows) => push_number(rows, field),
        Kept::Truths(rows) => push_truth(rows, field),
        Kept::Texts(rows) => push_text(dict, rows, field),
    }
}

// Appends a field to a column, missing where it can't be a cell of its kind, and says whether it can.
fn push_field(dict: &mut TextDict, column: &mut Column, field: &str) -> Result<bool, NoMemory>
    ensures longer { IsLonger dict.old dict.new }
    ensures fits { IfOk result (λ fits. fits ≡ meant.is_of_kind column.old.kind field.now) }
    ensures grown { OnOk result (IsGrownBy dict.old dict.new field.now column.old column.new) }
{
    push_kept(dict, &mut column.lanes, field)
}

// The column of so many missing cells and then this field, which isn't missing.
fn first_value(
    alloc: Global,
    dict: &mut TextDict,
    rows: usize,
    field: &str,
) -> Result<Column, NoMemory>
    ensures longer { IsLonger dict.old dict.new }
    ensures first { IfOk result (IsFirst dict.new rows field.now) }
{
    let mut column = Column::repeat(alloc, kind_of_field(field), Cell::Na, rows)?;
    push_field(dict, &mut column, field)?;
    Ok(column)
}

impl Growing {
    /// The column without a field, of the kind that is named for it, if one is.
    pub(crate) fn new(alloc: Global, named: Option<Kind>) -> Growing
        ensures { result ≡ without_fields named }
    {
        match named {
            Some(kind) => Growing::Cells(Column::new(alloc, kind)),
            None => Growing::Missing,
        }
    }

    /// Appends a field to so many fields, and says whether it isn't of the kind that is named for the column.
    #[tactic(auto, using(crate::proofs::GrowingLaws::mixed_grown))]
    pub(crate) fn push(
        &mut self,
        alloc: Global,
        dict: &mut TextDict,
        named: Option<Kind>,
        rows: usize,
        field: &str,
    ) -> Result<bool, NoMemory>
        ensures longer { IsLonger dict.old dict.new }
        ensures misfit { IfOk result (λ misfit. (fields : List (List ℕ)) →
            Grown dict.old named fields self.old → misfit ≡ meant.is_misfit named field.now) }
        ensures grown { OnOk result ((fields : List (List ℕ)) → length fields ≡ rows →
            Grown dict.old named fields self.old →
            Grown dict.new named (fields ++ field.now ∷ []) self.new) }
    {
        match self {
            Growing::Missing => {
                if !is_missing(field) {
                    *self = Growing::Cells(first_value(alloc, dict, rows, field)?);
                }
                Ok(false)
            }
            Growing::Cells(column) => {
                let fits = push_field(dict, column, field)?;
                if !fits && named.is_none() {
                    *self = Growing::Mixed;
                    return Ok(false);
                }
                Ok(!fits)
            }
            Growing::Mixed => Ok(false),
        }
    }

    /// Whether the cells aren't kept.
    pub(crate) fn is_mixed(&self) -> bool
        ensures { result ≡ is_mixed self.now }
    {
        match self {
            Growing::Mixed => true,
            _ => false,
        }
    }

    /// The kind of the column.
    pub(crate) fn kind(&self) -> Kind
        ensures { result ≡ kind_so_far self.now }
    {
        match self {
            Growing::Missing => Kind::Int64,
            Growing::Cells(column) => column.as_ref().kind(),
            Growing::Mixed => Kind::Text,
        }
    }

    /// The column of so many fields, whose cells were kept.
    pub(crate) fn into_column(self, alloc: Global, rows: usize) -> Result<Column, NoMemory>
        requires { is_mixed self ≡ false }
        ensures { IfOk result (λ column. column ≡ column_so_far rows self) }
    {
        match self {
            Growing::Missing => Column::repeat(alloc, Kind::Int64, Cell::Na, rows),
            Growing::Cells(column) => Ok(column),
            Growing::Mixed => unreachable!(),
        }
    }
}
