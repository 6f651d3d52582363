// The columns and the labels of rows.
ghost use Rattle.std.specs.Prelude.{◌≡◌, ◌≤◌, ◌^◌, true, false, List, ℕ, Some, OnOk, IfOk, MatchOption, length, map, option_map, unwrap_or};
ghost use Rattle.std.specs.List.{list_all, list_any, range_with_len};
ghost use Rattle.serde_json.specs.View.{view};
ghost use Rattle.meaning_json.specs.cells.Cell.{IsLonger, text, Int64};
ghost use Rattle.meaning_json.specs.tables.Settled.{IsSettled};
ghost use Rattle.meaning_json.specs.form.Finish.{default_labels};
ghost use Rattle.meaning_json.specs.JsonRead as meant;
ghost use Rattle.csv_frames.specs.Views.{column_seen, columns_seen, tuples_seen};
ghost use Rattle.json_frames.specs.Views.{values_seen, cells_in};
ghost use Rattle.json_frames.specs.Kinds.{clash, keys_seen, OfRows, KindsAt};

use crate::kinds::{Kinds, differs, known};
use crate::values::{Field, cell_of, find, kind_of};
use cell_core::{Kind, Label, NoMemory, TextDict, Tuple, Tuples};
use column_core::Column;
use csv_frames::Columns;
use serde_json::Value;
use std::alloc::Global;

fn kind_found(value: Option<&Value>) -> Option<Kind>
    ensures { result ≡ meant.cell_kind (meant.cell_found (option_map (λ v. view v.now) value.entry)) }
{
    match value {
        Some(value) => kind_of(value),
        None => None,
    }
}

fn differ(known: Option<Kind>, kind: Option<Kind>) -> bool
    ensures { result ≡ clash known kind }
{
    match known {
        Some(known) => differs(known, kind),
        None => false,
    }
}

fn first_kind(known: Option<Kind>, kind: Option<Kind>) -> Option<Kind>
    ensures { result ≡ meant.first_kind known kind }
{
    match known {
        Some(known) => Some(known),
        None => kind,
    }
}

/// The kind of the cells that the rows have there; none where they are of two kinds.
pub(crate) fn kind_there(rows: &[Value], field: Field<'_>) -> Option<Kind>
    ensures { MatchOption result
        (meant.has_two_kinds (cells_in field.entry (values_seen rows.now)) ≡ true)
        (λ kind. (meant.has_two_kinds (cells_in field.entry (values_seen rows.now)) ≡ false)
        × (kind ≡ meant.kind_of_cells (cells_in field.entry (values_seen rows.now)))) }
{
    let mut known = None;
    let mut rest = rows;
    while let [row, more @ ..] = rest {
        let kind = kind_found(find(row, field));
        if differ(known, kind) {
            return None;
        }
        known = first_kind(known, kind);
        rest = more;
    }
    Some(kind_or_whole(known))
}

// The kind, or that of whole numbers.
fn kind_or_whole(kind: Option<Kind>) -> Kind
    ensures { result ≡ unwrap_or kind Int64 }
{
    match kind {
        Some(kind) => kind,
        None => Kind::Int64,
    }
}

/// The column of the cells that the rows have there, which are missing or of this kind.
pub(crate) fn column_there(
    alloc: Global,
    dict: &mut TextDict,
    rows: &[Value],
    field: Field<'_>,
    kind: Kind,
) -> Result<Column, NoMemory>
    requires { list_all (λ c. meant.is_of kind (meant.cell_kind c)) (cells_in field (values_seen rows.now)) ≡ true }
    ensures longer { IsLonger dict.old dict.new }
    ensures settled { IfOk result (IsSettled column_seen dict.new) }
    ensures column { IfOk result (λ column. column_seen dict.new column
        ≡ record { kind = kind; cells = cells_in field.entry (values_seen rows.now) }) }
{
    let mut column = Column::new(alloc, kind);
    let mut rest = rows;
    while let [row, more @ ..] = rest {
        let cell = cell_of(dict, find(row, field))?;
        column.push(cell)?;
        rest = more;
    }
    Ok(column)
}

/// The labels that values are, each a tuple of its own.
pub(crate) fn labels_of(
    alloc: Global,
    dict: &mut TextDict,
    values: &[Value],
) -> Result<Tuples, NoMemory>
    ensures longer { IsLonger dict.old dict.new }
    ensures settled { IfOk result (IsSettled tuples_seen dict.new) }
    ensures labels { IfOk result (λ tuples. tuples_seen dict.new tuples
        ≡ meant.tuples (map meant.label_in (values_seen values.now))) }
{
    let mut tuples = Tuples::new(alloc);
    let mut rest = values;
    while let [value, more @ ..] = rest {
        let cell = cell_of(dict, Some(value))?;
        tuples.push(Tuple::of(alloc, &[Label::from(cell)]))?;
        rest = more;
    }
    Ok(tuples)
}

/// The labels 0, 1 and so on, each a tuple of its own.
pub(crate) fn default_rows(alloc: Global, count: usize) -> Result<Tuples, NoMemory>
    requires { count ≤ 2 ^ 26 }
    ensures { IfOk result (λ tuples. (texts : List (List ℕ)) →
        tuples_seen texts tuples ≡ default_labels count) }
{
    let mut tuples = Tuples::new(alloc);
    for row in 0..count {
        tuples.push(Tuple::of(alloc, &[Label::Int(row as i64)]))?;
    }
    Ok(tuples)
}

/// The columns of the cells under the keys.
pub(crate) fn columns_under(
    alloc: Global,
    dict: &mut TextDict,
    rows: &[Value],
    kinds: &Kinds,
) -> Result<Columns, NoMemory>
    requires { OfRows kinds.now (values_seen rows.now) }
    ensures longer { IsLonger dict.old dict.new }
    ensures settled { IfOk result (IsSettled columns_seen dict.new) }
    ensures columns { IfOk result (λ columns. columns_seen dict.new columns
        ≡ map meant.column_of_cells (map (meant.cells_under (values_seen rows.now)) (keys_seen kinds.now))) }
{
    let mut columns = Columns::new(alloc);
    for key in kinds.keys() {
        let kind = kind_or_whole(known(kinds, key.as_str()));
        columns.push(column_there(alloc, dict, rows, Field::Key(key.as_str()), kind)?)?;
    }
    Ok(columns)
}

/// The keys as labels, each a tuple of its own.
pub(crate) fn key_labels(
    alloc: Global,
    dict: &mut TextDict,
    kinds: &Kinds,
) -> Result<Tuples, NoMemory>
    ensures longer { IsLonger dict.old dict.new }
    ensures settled { IfOk result (IsSettled tuples_seen dict.new) }
    ensures labels { IfOk result (λ tuples. tuples_seen dict.new tuples
        ≡ meant.tuples (map text (keys_seen kinds.now))) }
{
    let mut tuples = Tuples::new(alloc);
    for key in kinds.keys() {
        let label = dict.intern(key.as_str())?;
        tuples.push(Tuple::of(alloc, &[Label::Text(label)]))?;
    }
    Ok(tuples)
}

/// The kind of each of so many columns; none where a column has cells of two kinds.
pub(crate) fn kinds_at(
    alloc: Global,
    rows: &[Value],
    width: usize,
) -> Result<Option<Vec<Kind>>, NoMemory>
    ensures { IfOk result (λ found. MatchOption found
        (list_any meant.has_two_kinds (map (meant.cells_at (values_seen rows.now)) (range_with_len 0 width)) ≡ true)
        (λ kinds. KindsAt kinds.items (values_seen rows.now) width)) }
{
    let mut kinds = Vec::new(alloc);
    for place in 0..width {
        match kind_there(rows, Field::Place(place)) {
            Some(kind) => kinds.push(kind)?,
            None => return Ok(None),
        }
    }
    Ok(Some(kinds))
}

/// The columns of the cells at these many places.
pub(crate) fn columns_at(
    alloc: Global,
    dict: &mut TextDict,
    rows: &[Value],
    kinds: &[Kind],
) -> Result<Columns, NoMemory>
    requires { KindsAt kinds.now (values_seen rows.now) (length kinds.now) }
    ensures longer { IsLonger dict.old dict.new }
    ensures settled { IfOk result (IsSettled columns_seen dict.new) }
    ensures columns { IfOk result (λ columns. columns_seen dict.new columns
        ≡ map meant.column_of_cells (map (meant.cells_at (values_seen rows.now)) (range_with_len 0 (length kinds.now)))) }
{
    let mut columns = Columns::new(alloc);
    for place in 0..kinds.len() {
        columns.push(column_there(alloc, dict, rows, Field::Place(place), kinds[place])?)?;
    }
    Ok(columns)
}
