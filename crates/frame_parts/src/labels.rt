// Labels, and their equality by their numbers.
ghost use Rattle.std.specs.Prelude.{◌≡◌, List};
ghost use Rattle.std.specs.Option.{option_map};
ghost use Rattle.column_core.specs.cells.Text.{Text as OneText};
ghost use Rattle.column_core.specs.cells.Cell.{datum, label_datum};
ghost use Rattle.column_core.specs.cells.Operator.{cell_label};
ghost use Rattle.frame_store.specs.tables.Settled.{IsSettled};
ghost use Rattle.frame_store.specs.tables.Table.{heading_value};
ghost use Rattle.frame_store.specs.Shown.{labels_value};
ghost use Rattle.meaning_form.specs.Given as meant;
ghost use Rattle.meaning_form.specs.Infix.{common_name, same_tuples};
ghost use Rattle.meaning_form.specs.Finish as finish;

use cell_core::{Cell, Label, TextDict};
use multi_index::Axis;

/// The label that a scalar is, if there is one. Takes no memory.
pub fn name_of(cell: Option<Cell>) -> Option<Label>
    ensures { (texts : List OneText)
        → heading_value texts result ≡ option_map cell_label (option_map (datum texts) cell) }
{
    match cell {
        Some(cell) => Some(Label::from(cell)),
        None => None,
    }
}

/// Whether two labels are equal. Texts are compared by their numbers. Takes no memory.
pub fn same_label(dict: &TextDict, a: Label, b: Label) -> bool
    requires a { IsSettled label_datum dict.now a }
    requires b { IsSettled label_datum dict.now b }
    ensures { result ≡ meant.same_label (label_datum dict.now a) (label_datum dict.now b) }
{
    // Equal texts have equal numbers: `TextDict::len` says so.
    let _ = dict.len();
    a == b
}

/// Whether two columns have one label, or two Series one name; also where both have none. Takes no memory.
pub fn same_heading(dict: &TextDict, a: Option<Label>, b: Option<Label>) -> bool
    requires a { IsSettled heading_value dict.now a }
    requires b { IsSettled heading_value dict.now b }
    ensures { result ≡ finish.same_heading (heading_value dict.now a) (heading_value dict.now b) }
{
    match (a, b) {
        (Some(x), Some(y)) => same_label(dict, x, y),
        (None, None) => true,
        _ => false,
    }
}

/// Whether two axes have the same tuples at the same rows, whatever the names of the levels are.
/// Texts are compared by their numbers, and two ranges by their lengths alone. Takes no memory.
pub fn same_rows(dict: &TextDict, a: &Axis, b: &Axis) -> bool
    requires a { IsSettled labels_value dict.now a.now.tuples }
    requires b { IsSettled labels_value dict.now b.now.tuples }
    ensures { result ≡ same_tuples
        (labels_value dict.now a.now.tuples) (labels_value dict.now b.now.tuples) }
{
    // Equal texts have equal numbers: `TextDict::len` says so.
    let _ = dict.len();
    a.same_labels(b)
}

/// The label that both have, if they have one. Takes no memory.
pub fn common_name(dict: &TextDict, a: Option<Label>, b: Option<Label>) -> Option<Label>
    requires a { IsSettled heading_value dict.now a }
    requires b { IsSettled heading_value dict.now b }
    ensures name { heading_value dict.now result
        ≡ common_name (heading_value dict.now a) (heading_value dict.now b) }
    ensures settled { IsSettled heading_value dict.now result }
{
    if same_heading(dict, a, b) { a } else { None }
}
