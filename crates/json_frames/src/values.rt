// JSON values as cells.
ghost use Rattle.std.specs.Prelude.{◌≡◌, List, ℕ, Some, OnOk, IfOk, option_map};
ghost use Rattle.std.specs.List.{list_all};
ghost use Rattle.serde_json.specs.View.{view, members_view};
ghost use Rattle.meaning_json.specs.cells.Cell.{Kind as CellKind, datum, holds, IsLonger};
ghost use Rattle.meaning_json.specs.tables.Settled.{IsSettled};
ghost use Rattle.meaning_json.specs.JsonRead as meant;
ghost use Rattle.json_frames.specs.Views.{values_seen, found_in};

use cell_core::{Cell, Kind, NoMemory, TextDict};
use serde_json::{Map, Value};

/// Where a row has a cell.
#[derive(Clone, Copy)]
pub(crate) enum Field<'a> {
    /// In an object, under a key.
    Key(&'a str),
    /// In an array, at a place.
    Place(usize),
}

/// The value of a row there.
pub(crate) fn find<'v>(row: &'v Value, field: Field<'_>) -> Option<&'v Value>
    ensures { option_map (λ v. view v.now) result ≡ found_in field.entry (view row.now) }
{
    match field {
        Field::Key(key) => row.get(key),
        Field::Place(place) => row.get(place),
    }
}

/// Whether a value is a cell.
#[tactic(auto, using(crate::proofs::ValueLaws::cell_tested))]
pub(crate) fn is_cell(value: &Value) -> bool
    ensures { result ≡ meant.is_cell (view value.now) }
{
    value.is_null() || value.is_boolean() || value.is_i64() || value.is_string()
}

/// The kind of the cell that a value is, if it is one that isn't missing.
#[tactic(auto, using(crate::proofs::ValueLaws::kind_tested))]
pub(crate) fn kind_of(value: &Value) -> Option<Kind>
    ensures { result ≡ meant.cell_kind (meant.cell_found (Some (view value.now))) }
{
    if value.is_boolean() {
        Some(Kind::Boolean)
    } else if value.is_i64() {
        Some(Kind::Int64)
    } else if value.is_string() {
        Some(Kind::Text)
    } else {
        None
    }
}

/// The cell that a value is; a missing one where there is no value, or one that is no cell.
#[tactic(auto, using(crate::proofs::Hints::cell_of))]
pub(crate) fn cell_of(dict: &mut TextDict, value: Option<&Value>) -> Result<Cell, NoMemory>
    ensures longer { IsLonger dict.old dict.new }
    ensures settled { IfOk result (IsSettled datum dict.new) }
    ensures value { IfOk result (λ cell. datum dict.new cell
        ≡ meant.cell_found (option_map (λ v. view v.now) value.entry)) }
    ensures held { IfOk result (λ cell. (kind : CellKind) (texts : List (List ℕ)) →
        holds kind (datum texts cell)
        ≡ meant.is_of kind (meant.cell_kind (meant.cell_found (option_map (λ v. view v.now) value.entry)))) }
{
    match value {
        Some(value) => cell_of_value(dict, value),
        None => Ok(Cell::Na),
    }
}

#[tactic(auto, using(crate::proofs::Hints::cell_of))]
fn cell_of_value(dict: &mut TextDict, value: &Value) -> Result<Cell, NoMemory>
    ensures longer { IsLonger dict.old dict.new }
    ensures settled { IfOk result (IsSettled datum dict.new) }
    ensures value { IfOk result (λ cell. datum dict.new cell
        ≡ meant.cell_found (Some (view value.now))) }
    ensures held { IfOk result (λ cell. (kind : CellKind) (texts : List (List ℕ)) →
        holds kind (datum texts cell)
        ≡ meant.is_of kind (meant.cell_kind (meant.cell_found (Some (view value.now))))) }
{
    match value.as_bool() {
        Some(truth) => return Ok(Cell::Bool(truth)),
        None => {}
    }
    match value.as_i64() {
        Some(number) => return Ok(Cell::Int(number)),
        None => {}
    }
    match value.as_str() {
        Some(text) => Ok(Cell::Text(dict.intern(text)?)),
        None => Ok(Cell::Na),
    }
}

/// Whether all members are cells.
pub(crate) fn are_cells(members: &Map<String, Value>) -> bool
    ensures { result ≡ list_all (λ m. meant.is_cell m.1)
        (meant.members_in (members_view members.now.entries)) }
{
    for (_, value) in members.iter() {
        if !is_cell(value) {
            return false;
        }
    }
    true
}

/// Whether a value is an object of cells.
#[tactic(auto, using(crate::proofs::ValueLaws::object_record, crate::proofs::ValueLaws::other_record))]
pub(crate) fn is_record(row: &Value) -> bool
    ensures { result ≡ meant.is_record (view row.now) }
{
    match row.as_object() {
        Some(members) => are_cells(members),
        None => false,
    }
}

/// Whether all values are objects of cells.
pub(crate) fn are_records(rows: &[Value]) -> bool
    ensures { result ≡ list_all meant.is_record (values_seen rows.now) }
{
    let mut rest = rows;
    while let [row, more @ ..] = rest {
        if !is_record(row) {
            return false;
        }
        rest = more;
    }
    true
}

/// Whether all values are cells.
pub(crate) fn all_cells(values: &[Value]) -> bool
    ensures { result ≡ list_all meant.is_cell (values_seen values.now) }
{
    let mut rest = values;
    while let [value, more @ ..] = rest {
        if !is_cell(value) {
            return false;
        }
        rest = more;
    }
    true
}
