// The columns that an argument names.
ghost use Rattle.std.specs.Prelude.{◌≡◌, ◌<◌, ◌∷◌, [], List, map, filter, not, nat_eq, All, IfOk};
ghost use Rattle.std.specs.List.{list_any, range_with_len};
ghost use Rattle.column_core.specs.cells.Cell.{datum};
ghost use Rattle.column_core.specs.cells.Operator.{cell_label};
ghost use Rattle.frame_store.specs.tables.Settled.{IsSettled};
ghost use Rattle.frame_store.specs.tables.Table.{table_value};
ghost use Rattle.frame_parts.specs.form.Select as select;
ghost use Rattle.meaning_method.specs.Rows as meant;
ghost use Rattle.frame_store.specs.Arguments.{object_value, IsLiveObject};
ghost use Rattle.frame_store.specs.Objects.{tables, table_at};
ghost use Rattle.frame_store.specs.World.{world, IsSettledWorld, IsKnownTable};
ghost use Rattle.frame_signatures.specs.Scalars.{scalars};
ghost use Rattle.frame_labels.specs.Named.{stands_in, first_in, NamesColumnsAt, NamesColumns, FindsPlaces, AreMarks};

use cell_core::{Cell, Grid, Label, NoMemory, Places, TextDict};
use frame_select::{argument_column, argument_columns, places_below};
use frame_signatures::{Bound, scalars_of};
use frame_store::{Item, ObjId, ObjRef, OpFault, Store};
use std::alloc::Global;

// The place of the first argument.
const FIRST: usize = 0;

// The column that a scalar is the label of.
fn place_of(alloc: Global, dict: &TextDict, on: &ObjRef<'_>, cell: Cell) -> Result<Places, OpFault>
    requires known { IsKnownTable dict.now on.now }
    requires cell { IsSettled datum dict.now cell }
    ensures { FindsPlaces dict.now on.now result
        (select.argument_columns (table_value dict.now on.now)
        (cell_label (datum dict.now cell) ∷ [])) }
{
    let place = argument_column(alloc, dict, on, Label::from(cell))?;
    let mut places = Places::new(alloc);
    places.push(place)?;
    Ok(places)
}

// The columns that the scalars of a list are the labels of.
fn places_of(
    alloc: Global,
    dict: &TextDict,
    on: &ObjRef<'_>,
    items: &[Item],
) -> Result<Places, OpFault>
    requires known { IsKnownTable dict.now on.now }
    requires items { IsSettled scalars dict.now items.now }
    ensures { FindsPlaces dict.now on.now result
        (select.argument_columns (table_value dict.now on.now)
        (map cell_label (scalars dict.now items.now))) }
{
    let cells = scalars_of(alloc, items)?;
    argument_columns(alloc, dict, on, &cells)
}

/// The columns that the argument at a place names: a label, or the labels of a list; none where it is `None`.
///
/// `NoKey` of the first label that no column has, then `BadValue(Repeated)` of the first one that several columns have.
/// `NoMemory` may come in place of any answer.
pub fn told_places(
    alloc: Global,
    store: &Store,
    dict: &TextDict,
    bound: &Bound<'_>,
    place: usize,
    on: ObjId,
) -> Result<Places, OpFault>
    requires live { IsLiveObject (tables store.now) on }
    requires settled { IsSettledWorld (world store.now dict.now) }
    requires names { NamesColumnsAt (world store.now dict.now) bound.now place }
    ensures { FindsPlaces dict.now (table_at (tables store.now) on.0) result
        (select.argument_columns (object_value (tables store.now) dict.now on)
        (meant.labels_in (stands_in (world store.now dict.now) bound.now place))) }
{
    let source = store.read(on);
    match bound.scalar_or_none(place) {
        Some(cell) => place_of(alloc, dict, &source, cell),
        None => match bound.list_or_none(place) {
            Some(items) => places_of(alloc, dict, &source, items),
            None => Ok(Places::new(alloc)),
        },
    }
}

/// The columns that the first argument names: a label, or the labels of a list.
///
/// `NoKey` of the first label that no column has, then `BadValue(Repeated)` of the first one that several columns have.
/// `NoMemory` may come in place of any answer.
pub fn named_places(
    alloc: Global,
    store: &Store,
    dict: &TextDict,
    bound: &Bound<'_>,
    on: ObjId,
) -> Result<Places, OpFault>
    requires live { IsLiveObject (tables store.now) on }
    requires settled { IsSettledWorld (world store.now dict.now) }
    requires names { NamesColumns (world store.now dict.now) bound.now }
    ensures { FindsPlaces dict.now (table_at (tables store.now) on.0) result
        (select.argument_columns (object_value (tables store.now) dict.now on)
        (meant.labels_in (first_in (world store.now dict.now) bound.now))) }
{
    told_places(alloc, store, dict, bound, FIRST, on)
}

/// The columns that the first argument names, or all where it is `None`.
///
/// `NoKey` of the first label that no column has, then `BadValue(Repeated)` of the first one that several columns have.
/// `NoMemory` may come in place of any answer.
#[tactic(auto, using(crate::proofs::Hints::subset_places))]
pub fn subset_places(
    alloc: Global,
    store: &Store,
    dict: &TextDict,
    bound: &Bound<'_>,
    on: ObjId,
) -> Result<Places, OpFault>
    requires live { IsLiveObject (tables store.now) on }
    requires settled { IsSettledWorld (world store.now dict.now) }
    requires names { NamesColumns (world store.now dict.now) bound.now }
    ensures { FindsPlaces dict.now (table_at (tables store.now) on.0) result
        (meant.subset_places (object_value (tables store.now) dict.now on)
        (first_in (world store.now dict.now) bound.now)) }
{
    if bound.is_none(FIRST) {
        return Ok(places_below(alloc, store.read(on).columns())?);
    }
    named_places(alloc, store, dict, bound, on)
}

// Whether each number below a count is among these places.
fn marked(alloc: Global, count: usize, places: &Places) -> Result<Vec<bool>, NoMemory>
    requires { All (λ place. place < count) places.now }
    ensures { IfOk result (λ marks. AreMarks marks.items count places.now) }
{
    let mut marks = vec![in alloc; false; count]?;
    for k in 0..places.len() {
        marks[*places.at(k)] = true;
    }
    Ok(marks)
}

/// The numbers below a count that aren't among these places. `NoMemory` is the only refusal.
pub fn places_besides(alloc: Global, count: usize, places: &Places) -> Result<Places, NoMemory>
    requires { All (λ place. place < count) places.now }
    ensures { IfOk result (λ others. others
        ≡ filter (λ place. not (list_any (nat_eq place) places.now)) (range_with_len 0 count)) }
{
    let marks = marked(alloc, count, places)?;
    let mut others = Places::new(alloc);
    for place in 0..count {
        if !marks[place] {
            others.push(place)?;
        }
    }
    Ok(others)
}
