// The arrays of labels and rows.
ghost use Rattle.std.specs.Prelude.{◌≡◌, ◌==◌, option_map};
ghost use Rattle.std.specs.List.{list_all};
ghost use Rattle.serde_json.specs.View.{view};
ghost use Rattle.meaning_json.specs.JsonRead as meant;
ghost use Rattle.json_frames.specs.Views.{values_seen, parts_seen};

use crate::values::all_cells;
use serde_json::Value;

/// The arrays of a table in the form of labels and rows.
#[derive(Clone, Copy)]
pub(crate) struct SplitParts<'v> {
    /// The labels of the columns.
    pub columns: &'v [Value],
    /// The labels of the rows.
    pub index: &'v [Value],
    /// The rows, each an array of cells.
    pub rows: &'v [Value],
}

/// The values of an array; none where a value is no array.
#[tactic(auto, using(crate::proofs::ReadingLaws::array_values))]
pub(crate) fn values_of(value: &Value) -> Option<&[Value]>
    ensures { option_map (λ vs. values_seen vs.now) result ≡ meant.array_in (view value.now) }
{
    match value.as_array() {
        Some(values) => Some(values.as_slice()),
        None => None,
    }
}

// The values of the array under a key.
fn array_under<'v>(value: &'v Value, key: &str) -> Option<&'v [Value]>
    ensures { option_map (λ vs. values_seen vs.now) result
        ≡ meant.array_under key.now (view value.now) }
{
    match value.get(key) {
        Some(found) => values_of(found),
        None => None,
    }
}

/// The arrays under the three keys; none where one isn't there.
pub(crate) fn parts_of(value: &Value) -> Option<SplitParts<'_>>
    ensures { option_map parts_seen result ≡ meant.split_parts (view value.now) }
{
    let columns = array_under(value, "columns")?;
    let index = array_under(value, "index")?;
    let rows = array_under(value, "data")?;
    Some(SplitParts {
        columns,
        index,
        rows,
    })
}

/// Whether a value is an object with three members.
#[tactic(auto, using(crate::proofs::Hints::has_three_members))]
pub(crate) fn has_three_members(value: &Value) -> bool
    ensures { result ≡ (meant.member_count (view value.now) == 3) }
{
    match value.as_object() {
        Some(members) => members.len() == 3,
        None => false,
    }
}

// Whether a value is an array of so many cells.
fn is_row(width: usize, row: &Value) -> bool
    ensures { result ≡ meant.is_row width (view row.now) }
{
    match values_of(row) {
        Some(cells) => cells.len() == width && all_cells(cells),
        None => false,
    }
}

// Whether all values are arrays of so many cells.
fn are_rows(width: usize, rows: &[Value]) -> bool
    ensures { result ≡ list_all (meant.is_row width) (values_seen rows.now) }
{
    let mut rest = rows;
    while let [row, more @ ..] = rest {
        if !is_row(width, row) {
            return false;
        }
        rest = more;
    }
    true
}

/// Whether the labels are cells, and there is a row for each label of a row, which has a cell for each column.
pub(crate) fn is_split(parts: SplitParts<'_>) -> bool
    ensures { result ≡ meant.is_split (parts_seen parts.entry) }
{
    all_cells(parts.columns)
        && all_cells(parts.index)
        && parts.rows.len() == parts.index.len()
        && are_rows(parts.columns.len(), parts.rows)
}
