// What rows are sorted by.
ghost use Rattle.std.specs.Prelude.{◌≡◌, ◌<◌, length, IfOk};
ghost use Rattle.std.specs.List.{range_with_len};
ghost use Rattle.sorting.specs.Sorting.{in_order};
ghost use Rattle.frame_methods.specs.Sorts as sorts;

use cell_core::{Label, NoMemory, Places, TextDict};
use column_core::ColRef;
use multi_index::Axis;
use sorting::{LabelKeys, rows_by_labels};
use std::alloc::Global;

// The keys of rows, one after the other: their cells in columns, or their labels.
#[derive(Drop)]
pub(crate) enum SortKeys<'a> {
    Cells(Vec<ColRef<'a>>),
    Labels(&'a Axis),
}

// The cell of a row as a label, and NA behind the last row.
fn cell_key(column: &ColRef<'_>, row: usize) -> Label
    ensures { result ≡ sorts.cell_at column.now row }
{
    if row < column.len() {
        Label::from(column.cell(row))
    } else {
        Label::Na
    }
}

// The label of a row at a level, and NA behind the last row.
fn label_key(axis: &Axis, row: usize, level: usize) -> Label
    requires { level < length axis.now.names }
    ensures { result ≡ sorts.tuple_at axis.now row level }
{
    if row < axis.len() {
        axis.label(row, level)
    } else {
        Label::Na
    }
}

impl LabelKeys for SortKeys<'_> {
    ghost keys = { sorts.count_of };

    ghost label_at = { sorts.label_at };

    fn count(&self) -> usize {
        match self {
            SortKeys::Cells(columns) => columns.len(),
            SortKeys::Labels(axis) => axis.levels(),
        }
    }

    fn at(&self, row: usize, key: usize) -> Label {
        match self {
            SortKeys::Cells(columns) => cell_key(&columns[key], row),
            SortKeys::Labels(axis) => label_key(axis, row, key),
        }
    }
}

// So many rows in the order of their keys. Rows that tie stay as they stood.
pub(crate) fn rows_by_keys(
    alloc: Global,
    dict: &TextDict,
    keys: &SortKeys<'_>,
    ascending: bool,
    rows: usize,
) -> Result<Places, NoMemory>
    ensures { let before = sorts.stands_before ascending (sorts.keys_of dict.now keys.now) in
        IfOk result (λ made. made ≡ in_order before (range_with_len 0 rows)) }
{
    rows_by_labels(alloc, dict, keys, ascending, rows)
}
