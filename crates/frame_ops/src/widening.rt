// Frames under joined labels of columns.
ghost use Rattle.std.specs.Prelude.{◌≡◌, ◌∷◌, [], length, map, All, IfOk};
ghost use Rattle.cell_core.specs.declared.cell.Cell.TheVariants.{Na};
ghost use Rattle.cell_core.specs.declared.grid.Shape.TheVariants.{Frame as columns};
ghost use Rattle.column_core.specs.Moves.{IsPlaceOf};
ghost use Rattle.multi_index.specs.Axes.{HaveLevels};
ghost use Rattle.frame_store.specs.tables.Settled.{IsSettled};
ghost use Rattle.frame_store.specs.tables.Table.{table_value};
ghost use Rattle.frame_store.specs.tables.Valid.{IsWhole};
ghost use Rattle.frame_parts.specs.form.Finish.{column_labels};
ghost use Rattle.frame_parts.specs.form.Infix as meant;
ghost use Rattle.frame_parts.specs.form.Infix.{columns_or_missing, column_or_missing};
ghost use Rattle.frame_store.specs.Parts.{labelled, columns_of, table_column, IsSingle};
ghost use Rattle.frame_store.specs.Shown.{labels_value};
ghost use Rattle.frame_store.specs.World.{IsKnownTable};
ghost use Rattle.frame_parts.specs.Makes.{MakesBy};
ghost use Rattle.frame_ops.specs.Joining.{joined_value, AreSideRows};
ghost use Rattle.frame_ops.specs.Widening.{heading_tuple, labels_axis, headings_of_keys, widened};

use crate::joining::joined_rows;
use cell_core::{Cell, Gaps, Grid, Kind, Label, NoMemory, TextDict, Tuple, Tuples};
use column_core::Column;
use frame_store::{Blocks, Headings, ObjRef, OpFault, Table};
use label_align::Joined;
use multi_index::Axis;
use std::alloc::Global;

// As many rows as a table may have.
const MOST_ROWS: usize = 67108864;

// The label of a column: 0 where it has none, as only a Series can.
fn label_or_zero(heading: Option<Label>) -> Label
    ensures { heading_tuple heading ≡ result ∷ [] }
{
    match heading {
        Some(label) => label,
        None => Label::Int(0),
    }
}

/// The labels of the columns, each as a tuple of its own. `NoMemory` is the only refusal.
pub(crate) fn heading_tuples(alloc: Global, on: &ObjRef<'_>) -> Result<Tuples, NoMemory>
    requires { length on.now.headings ≡ length on.now.columns }
    ensures { IfOk result (λ tuples. tuples ≡ map heading_tuple on.now.headings) }
{
    let mut tuples = Tuples::new(alloc);
    for place in 0..on.columns() {
        tuples.push(Tuple::of(alloc, &[label_or_zero(on.heading(place))]))?;
    }
    Ok(tuples)
}

// The labels of the columns as an axis.
#[tactic(auto, using(crate::proofs::WideLaws::tuples_alike))]
fn labels_axis(alloc: Global, dict: &TextDict, on: &ObjRef<'_>) -> Result<Axis, NoMemory>
    requires { length on.now.headings ≡ length on.now.columns }
    ensures { IfOk result (λ axis. labelled axis ≡ labels_axis on.now) }
{
    let tuples = heading_tuples(alloc, on)?;
    Axis::from_tuples(alloc, dict, &tuples, 1)
}

/// The columns of two frames by the labels that either has. `Limit` where they are too many.
#[tactic(auto, using(crate::proofs::WideLaws::labels_given, crate::proofs::WideLaws::labels_seen))]
pub(crate) fn joined_labels(
    alloc: Global,
    dict: &TextDict,
    a: &ObjRef<'_>,
    b: &ObjRef<'_>,
) -> Result<Joined, OpFault>
    requires known_a { IsKnownTable dict.now a.now }
    requires known_b { IsKnownTable dict.now b.now }
    requires frame_a { a.now.shape ≡ columns }
    requires frame_b { b.now.shape ≡ columns }
    ensures columns { MakesBy joined_value dict.now result (meant.joined_rows
        (column_labels (table_value dict.now a.now)) (column_labels (table_value dict.now b.now))) }
    ensures given { IfOk result (λ joined. IsSettled labels_value dict.now joined.axis.tuples) }
    ensures keys { IfOk result (λ joined. HaveLevels 1 joined.axis.tuples) }
    ensures level { IfOk result (λ joined. length joined.axis.names ≡ 1) }
    ensures left { IfOk result (λ joined.
        AreSideRows (length joined.axis.tuples) (labels_axis a.now) joined.left) }
    ensures right { IfOk result (λ joined.
        AreSideRows (length joined.axis.tuples) (labels_axis b.now) joined.right) }
{
    let left = labels_axis(alloc, dict, a)?;
    let right = labels_axis(alloc, dict, b)?;
    joined_rows(alloc, dict, &left, &right, MOST_ROWS)
}

// The headings of joined labels.
fn headings_of_keys(alloc: Global, name: Option<Label>, keys: &Axis) -> Result<Headings, NoMemory>
    requires { length keys.now.names ≡ 1 }
    ensures { IfOk result (λ headings. headings ≡ headings_of_keys name keys.now.tuples) }
{
    let mut headings = Headings::new(alloc, name);
    for place in 0..keys.len() {
        headings.push(Some(keys.label(place, 0)))?;
    }
    Ok(headings)
}

// The column at a place of a side; where the side has none, missing cells of the kind that stands opposite.
fn column_or_missing(
    alloc: Global,
    own: &ObjRef<'_>,
    other: &ObjRef<'_>,
    place: Option<usize>,
    opposite: Option<usize>,
) -> Result<Column, NoMemory>
    requires place { IsPlaceOf (length own.now.columns) place }
    requires opposite { IsPlaceOf (length other.now.columns) opposite }
    ensures { IfOk result (λ made. table_column made ≡ column_or_missing Na
        (length own.now.labels) own.now.columns other.now.columns place opposite) }
{
    match (place, opposite) {
        (Some(place), _) => own.column(place).to_column(alloc),
        (None, Some(opposite)) => {
            Column::repeat(alloc, other.kind(opposite), Cell::Na, own.rows())
        }
        (None, None) => Column::repeat(alloc, Kind::Int64, Cell::Na, own.rows()),
    }
}

// The columns at these places of a side, where those of the other stand opposite.
#[tactic(auto, using(crate::proofs::WideLaws::wide_step, frame_parts::proofs::GapLaws::single_on))]
fn columns_or_missing(
    alloc: Global,
    own: &ObjRef<'_>,
    other: &ObjRef<'_>,
    places: &Gaps,
    opposites: &Gaps,
) -> Result<Blocks, NoMemory>
    requires places { All (IsPlaceOf (length own.now.columns)) places.now }
    requires opposites { All (IsPlaceOf (length other.now.columns)) opposites.now }
    requires many { length opposites.now ≡ length places.now }
    ensures single { IfOk result (All IsSingle) }
    ensures columns { IfOk result (λ made. columns_of made ≡ columns_or_missing Na
        (length own.now.labels) own.now.columns other.now.columns places.now opposites.now) }
{
    let mut made = Blocks::new(alloc);
    for k in 0..places.len() {
        let column = column_or_missing(alloc, own, other, *places.at(k), *opposites.at(k))?;
        made.push(column.into_block())?;
    }
    Ok(made)
}

/// A frame under joined labels of columns, which it has at these places, and the other side at those.
/// `NoMemory` is the only refusal.
pub(crate) fn widened(
    alloc: Global,
    own: &ObjRef<'_>,
    other: &ObjRef<'_>,
    keys: &Axis,
    places: &Gaps,
    opposites: &Gaps,
) -> Result<Table, NoMemory>
    requires whole { IsWhole own.now }
    requires frame { own.now.shape ≡ columns }
    requires keys { HaveLevels 1 keys.now.tuples }
    requires level { length keys.now.names ≡ 1 }
    requires places { AreSideRows (length keys.now.tuples) (labels_axis own.now) places.now }
    requires opposites { AreSideRows (length keys.now.tuples)
        (labels_axis other.now) opposites.now }
    requires other { IsWhole other.now }
    ensures { IfOk result (λ made. made
        ≡ widened own.now other.now keys.now.tuples places.now opposites.now) }
{
    let headings = headings_of_keys(alloc, own.columns_name(), keys)?;
    let blocks = columns_or_missing(alloc, own, other, places, opposites)?;
    let axis = own.axis().copy(alloc)?;
    Ok(Table::new(own.shape(), axis, headings, blocks))
}
