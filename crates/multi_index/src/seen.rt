// The different labels of an index that are present, by first sight, told without a list of them.
ghost use Rattle.std.specs.Prelude.{◌≡◌, ◌<◌, length, slice_get, Some, IfOk};
ghost use Rattle.multi_index.specs.Levels.{IsKnown, IsCodeOf, seen_labels};
ghost use Rattle.multi_index.specs.Kept.{is_new};

use cell_core::{Label, NoMemory};
use index_core::Index;
use std::alloc::Global;

// Whether the label of a row is present, and no row before it has that label.
fn is_new(rows: &Index, row: usize) -> bool
    requires { row < length rows.now }
    ensures { result ≡ is_new rows.now row }
{
    let label = rows.label(row);
    if label == Label::Na {
        return false;
    }
    for before in 0..row {
        if rows.label(before) == label {
            return false;
        }
    }
    true
}

// How many labels there are.
pub(crate) fn seen_count(rows: &Index) -> usize
    ensures { result ≡ length (seen_labels rows.now) }
{
    let mut count = 0usize;
    for row in 0..rows.len() {
        if is_new(rows, row) {
            count += 1;
        }
    }
    count
}

// The label at a place among them.
pub(crate) fn seen_label(rows: &Index, code: usize) -> Label
    requires { code < length (seen_labels rows.now) }
    ensures { slice_get (seen_labels rows.now) code ≡ Some result }
{
    let mut count = 0usize;
    for row in 0..rows.len() {
        if is_new(rows, row) {
            if count == code {
                return rows.label(row);
            }
            count += 1;
        }
    }
    unreachable!()
}

// The place of a label that is one of them, and none of the missing label.
pub(crate) fn seen_code(rows: &Index, label: Label) -> Option<usize>
    requires { IsKnown (seen_labels rows.now) label }
    ensures { IsCodeOf (seen_labels rows.now) label result }
{
    let mut count = 0usize;
    for row in 0..rows.len() {
        if is_new(rows, row) {
            if rows.label(row) == label {
                return Some(count);
            }
            count += 1;
        }
    }
    None
}

// The labels of an index as a list.
pub(crate) fn labels_by_row(alloc: Global, rows: &Index) -> Result<Vec<Label>, NoMemory>
    ensures { IfOk result (λ labels. labels.items ≡ rows.now) }
{
    let mut labels = Vec::with_capacity(alloc, rows.len())?;
    for row in 0..rows.len() {
        labels.push(rows.label(row))?;
    }
    Ok(labels)
}
