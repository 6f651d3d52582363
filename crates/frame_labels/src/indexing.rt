// Columns as the labels of the rows.
ghost use Rattle.std.specs.Prelude.{◌≡◌, ◌<◌, ◌≤◌, length, map, IfOk};
ghost use Rattle.std.specs.List.{range_with_len};
ghost use Rattle.cell_core.specs.declared.grid.Shape.TheVariants.{Frame};
ghost use Rattle.frame_store.specs.tables.Table.{table_value};
ghost use Rattle.frame_store.specs.tables.Valid.{IsWhole};
ghost use Rattle.meaning_method.specs.Levels as meant;
ghost use Rattle.multi_index.specs.Axes.{nameless_axis};
ghost use Rattle.cell_core.specs.Values.{label_of};
ghost use Rattle.frame_store.specs.Parts.{labelled, AreColumnsOf};
ghost use Rattle.frame_store.specs.Derivations.{Derives};
ghost use Rattle.frame_store.specs.World.{IsKnownTable};
ghost use Rattle.frame_select.specs.Selected.{headings_at};
ghost use Rattle.frame_labels.specs.Levels.{row_labels};

use crate::named_columns::places_besides;
use crate::under::named_axis;
use cell_core::{Code, Grid, Label, NoMemory, Places, Shape, TextDict, Tuple, Tuples};
use column_core::ColRef;
use frame_parts::within_limits;
use frame_select::{heading_list, headings_at};
use frame_store::{Derivation, ObjRef, OpFault};
use multi_index::Axis;
use std::alloc::Global;

/// The cells of a row in these columns, of which there are one to four, as a tuple of labels.
pub fn row_tuple(alloc: Global, on: &ObjRef<'_>, places: &Places, row: usize) -> Tuple
    requires row { row < length on.now.labels }
    requires places { AreColumnsOf on.now places.now }
    requires some { 1 ≤ length places.now }
    requires few { length places.now ≤ 4 }
    ensures { result ≡ row_labels on.now places.now row }
{
    let mut labels = [Label::Na; 4];
    let levels = places.len();
    for level in 0..levels {
        labels[level] = Label::from(on.cell(row, *places.at(level)));
    }
    Tuple::of(alloc, &labels[..levels])
}

// The tuples of all rows.
fn row_tuples(alloc: Global, on: &ObjRef<'_>, places: &Places) -> Result<Tuples, NoMemory>
    requires places { AreColumnsOf on.now places.now }
    requires some { 1 ≤ length places.now }
    requires few { length places.now ≤ 4 }
    ensures { IfOk result (λ tuples. tuples
        ≡ map (row_labels on.now places.now) (range_with_len 0 (length on.now.labels))) }
{
    let mut tuples = Tuples::new(alloc);
    for row in 0..on.rows() {
        tuples.push(row_tuple(alloc, on, places, row))?;
    }
    Ok(tuples)
}

// The cells of a column as labels.
fn cell_labels(alloc: Global, column: &ColRef<'_>) -> Result<Vec<Label>, NoMemory>
    ensures { IfOk result (λ labels. labels.items ≡ map label_of column.now.cells) }
{
    let mut labels = Vec::with_capacity(alloc, column.len())?;
    for row in 0..column.len() {
        labels.push(Label::from(column.cell(row)))?;
    }
    Ok(labels)
}

// The axis of the cells in these columns, without names. Of one column no tuple is made.
#[tactic(auto, using(crate::proofs::Hints::cells_axis))]
fn cells_axis(
    alloc: Global,
    dict: &TextDict,
    on: &ObjRef<'_>,
    places: &Places,
) -> Result<Axis, NoMemory>
    requires places { AreColumnsOf on.now places.now }
    requires some { 1 ≤ length places.now }
    requires few { length places.now ≤ 4 }
    ensures { IfOk result (λ axis. labelled axis ≡ nameless_axis
        (map (row_labels on.now places.now) (range_with_len 0 (length on.now.labels)))
        (length places.now)) }
{
    if places.len() == 1 {
        let labels = cell_labels(alloc, &on.column(*places.at(0)))?;
        return Axis::from_labels(alloc, dict, labels);
    }
    let tuples = row_tuples(alloc, on, places)?;
    Axis::from_tuples(alloc, dict, &tuples, places.len())
}

// The axis of the cells in these columns, whose levels have the names of the columns.
fn column_axis(
    alloc: Global,
    dict: &TextDict,
    on: &ObjRef<'_>,
    places: &Places,
) -> Result<Axis, NoMemory>
    requires whole { IsWhole on.now }
    requires places { AreColumnsOf on.now places.now }
    requires some { 1 ≤ length places.now }
    requires few { length places.now ≤ 4 }
    ensures { IfOk result (λ axis. labelled axis ≡ record {
      tuples = map (row_labels on.now places.now) (range_with_len 0 (length on.now.labels));
      names = headings_at on.now places.now;
    }) }
{
    let axis = cells_axis(alloc, dict, on, places)?;
    let names = headings_at(alloc, on, places)?;
    Ok(named_axis(axis, names.as_slice()))
}

/// A frame without these columns, whose cells are the labels of its rows.
///
/// `Limit`, also where the columns are none or more than four. `NoMemory` may come in place of any answer.
pub fn set_index(
    alloc: Global,
    dict: &TextDict,
    on: &ObjRef<'_>,
    places: &Places,
) -> Result<Derivation, OpFault>
    requires known { IsKnownTable dict.now on.now }
    requires shape { on.now.shape ≡ Frame }
    requires places { AreColumnsOf on.now places.now }
    ensures { Derives dict.now on.now result
        (meant.index_set (table_value dict.now on.now) places.now) }
{
    let levels = places.len();
    let kept = places_besides(alloc, on.columns(), places)?;
    if levels == 0 || levels > 4 || !within_limits(on.rows(), kept.len()) {
        return Err(OpFault::Refused(Code::Limit));
    }
    let axis = column_axis(alloc, dict, on, places)?;
    let labels = headings_at(alloc, on, &kept)?;
    let headings = heading_list(alloc, on.columns_name(), labels.as_slice())?;
    Ok(Derivation {
        shape: Shape::Frame,
        axis,
        headings,
        columns: kept,
    })
}
