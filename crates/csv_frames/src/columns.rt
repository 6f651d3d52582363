// The columns of records.
ghost use Rattle.std.specs.Prelude.{◌≡◌, ◌≤◌, ◌^◌, false, map, Some, IfOk};
ghost use Rattle.std.specs.List.{list_any};
ghost use Rattle.column_core.specs.cells.Cell.{IsLonger};
ghost use Rattle.meaning_csv.specs.tables.Settled.{IsSettled};
ghost use Rattle.csv_frames.specs.Growing.{is_mixed, kind_so_far, column_so_far};
ghost use Rattle.csv_frames.specs.Views.{texts_seen, label_tuples, tuples_seen};

use crate::growing::Growing;
use crate::table::Columns;
use cell_core::{Kind, Label, NoMemory, TextDict, Tuple, Tuples};
use std::alloc::Global;

/// Whether the cells of a column weren't kept.
pub(crate) fn has_mixed(columns: &[Growing]) -> bool
    ensures { result ≡ list_any is_mixed columns.now }
{
    for place in 0..columns.len() {
        if columns[place].is_mixed() {
            return true;
        }
    }
    false
}

/// The kinds of the columns, each named.
pub(crate) fn kinds_found(
    alloc: Global,
    columns: Vec<Growing>,
) -> Result<Vec<Option<Kind>>, NoMemory>
    ensures { IfOk result (λ kinds. kinds.items ≡ map (λ g. Some (kind_so_far g)) columns.items) }
{
    let mut kinds = Vec::new(alloc);
    for column in columns {
        kinds.push(Some(column.kind()))?;
    }
    Ok(kinds)
}

/// The columns of so many records.
pub(crate) fn columns_of(
    alloc: Global,
    rows: usize,
    columns: Vec<Growing>,
) -> Result<Columns, NoMemory>
    requires { list_any is_mixed columns.items ≡ false }
    ensures { IfOk result (λ made. made ≡ map (column_so_far rows) columns.items) }
{
    let mut made = Columns::new(alloc);
    for column in columns {
        made.push(column.into_column(alloc, rows)?)?;
    }
    Ok(made)
}

/// The labels, each as a tuple of its own.
pub(crate) fn tuples_of(
    alloc: Global,
    dict: &mut TextDict,
    labels: &[String],
) -> Result<Tuples, NoMemory>
    ensures longer { IsLonger dict.old dict.new }
    ensures settled { IfOk result (IsSettled tuples_seen dict.new) }
    ensures labels { IfOk result (λ tuples. tuples_seen dict.new tuples
        ≡ label_tuples (texts_seen labels.now)) }
{
    let mut tuples = Tuples::new(alloc);
    let mut rest = labels;
    while let [label, more @ ..] = rest {
        let text = dict.intern(label.as_str())?;
        tuples.push(Tuple::of(alloc, &[Label::Text(text)]))?;
        rest = more;
    }
    Ok(tuples)
}
