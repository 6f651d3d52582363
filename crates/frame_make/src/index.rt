// The labels of an index, row by row.
ghost use Rattle.std.specs.Prelude.{◌≡◌, ◌≤◌, ◌++◌, [], List, map, All, length, IfOk, OnOk};
ghost use Rattle.column_core.specs.cells.Text.{Text as OneText};
ghost use Rattle.column_core.specs.cells.Operator.{cell_label};
ghost use Rattle.frame_store.specs.tables.Table.{tuple_value};
ghost use Rattle.frame_parts.specs.form.Make as make;
ghost use Rattle.multi_index.specs.Axes.{HaveLevels};
ghost use Rattle.frame_store.specs.Arguments.{item_of};
ghost use Rattle.frame_store.specs.Objects.{Tables};
ghost use Rattle.frame_store.specs.Shown.{labels_value};
ghost use Rattle.frame_signatures.specs.Scalars.{scalars};
ghost use Rattle.frame_make.specs.Index.{label_in, rows_labels};

use cell_core::{Cell, Label, NoMemory, Tuple, Tuples};
use frame_store::Item;
use std::alloc::Global;

// Appends the label that a scalar is, where there is a scalar.
fn push_label(labels: &mut Vec<Label>, cell: Option<Cell>) -> Result<(), NoMemory>
    ensures { OnOk result (labels.new.items ≡ labels.old.items ++ label_in cell) }
{
    match cell {
        None => Ok(()),
        Some(cell) => {
            labels.push(Label::from(cell))?;
            Ok(())
        }
    }
}

// Appends the labels that the scalars of a list are.
fn push_labels(labels: &mut Vec<Label>, parts: &[Item]) -> Result<(), NoMemory>
    ensures { OnOk result ((texts : List OneText) → tuple_value texts labels.new.items
        ≡ tuple_value texts labels.old.items ++ map cell_label (scalars texts parts.now)) }
{
    let mut rest = parts;
    while let [first, after @ ..] = rest {
        push_label(labels, first.scalar())?;
        rest = after;
    }
    Ok(())
}

// Puts the labels of a row in place of those of another one.
fn put_labels(labels: &mut Vec<Label>, row: &Item) -> Result<(), NoMemory>
    ensures { OnOk result ((live : Tables) (texts : List OneText)
        → tuple_value texts labels.new.items ≡ make.row_labels (item_of live texts row.now)) }
{
    labels.clear();
    match row.tuple() {
        Some(parts) => push_labels(labels, parts),
        None => push_label(labels, row.scalar()),
    }
}

// How many levels the labels have: as many as the first row has labels, and one where there is no row.
pub(crate) fn level_count(alloc: Global, index: &[Item]) -> Result<usize, NoMemory>
    ensures { IfOk result (λ count. (texts : List OneText)
        → count ≡ make.level_count (rows_labels texts index.now)) }
{
    let [first, ..] = index else {
        return Ok(1);
    };
    let mut labels = Vec::new(alloc);
    put_labels(&mut labels, first)?;
    Ok(labels.len())
}

// The labels of each row as a tuple.
pub(crate) fn row_tuples(alloc: Global, index: &[Item], levels: usize) -> Result<Tuples, NoMemory>
    requires some { 1 ≤ levels }
    requires few { levels ≤ 4 }
    requires alike { All (λ labels. length labels ≡ levels) (rows_labels [] index.now) }
    ensures levels { IfOk result (HaveLevels levels) }
    ensures labels { IfOk result (λ tuples. (texts : List OneText)
        → labels_value texts tuples ≡ rows_labels texts index.now) }
{
    let mut labels = Vec::new(alloc);
    let mut tuples = Tuples::new(alloc);
    for row in index {
        put_labels(&mut labels, row)?;
        tuples.push(Tuple::of(alloc, labels.as_slice()))?;
    }
    Ok(tuples)
}
