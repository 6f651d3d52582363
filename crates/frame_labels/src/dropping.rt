// A frame without the columns of labels.
ghost use Rattle.std.specs.Prelude.{◌≡◌, ◌∷◌, [], List, map, filter, not, length, Option, IfOk};
ghost use Rattle.std.specs.List.{list_any, range_with_len};
ghost use Rattle.cell_core.specs.Values.{label_of};
ghost use Rattle.cell_core.specs.declared.cell.Label.{Label as OneLabel};
ghost use Rattle.cell_core.specs.declared.grid.Shape.TheVariants.{Frame};
ghost use Rattle.column_core.specs.cells.Cell.{datum};
ghost use Rattle.column_core.specs.cells.Operator.{cell_label};
ghost use Rattle.frame_store.specs.tables.Cost.{free};
ghost use Rattle.frame_store.specs.tables.Settled.{IsSettled};
ghost use Rattle.frame_store.specs.tables.Table.{table_value};
ghost use Rattle.frame_store.specs.Arguments.{object_value, shape_at, IsLiveObject};
ghost use Rattle.frame_store.specs.Objects.{tables, table_at};
ghost use Rattle.frame_store.specs.Shown.{cells_value};
ghost use Rattle.frame_store.specs.World.{world, IsSettledWorld, IsKnownTable, FormsFor};
ghost use Rattle.frame_select.specs.Headings.{same_heading};
ghost use Rattle.frame_select.specs.Selected.{heading_of};
ghost use Rattle.frame_signatures.specs.Scalars.{scalars};
ghost use Rattle.meaning_method.specs.Rows as meant;
ghost use Rattle.frame_labels.specs.Named.{first_in, NamesColumns, FindsPlaces, columns_kept, some_label};

use crate::named_columns::places_besides;
use cell_core::{Cell, Cells, Grid, Label, NoMemory, Places, TextDict};
use frame_select::{columns_of, label_columns, named_columns};
use frame_signatures::{Bound, scalars_of};
use frame_store::{Item, ObjId, ObjRef, OpFault, Store, Value};
use indexmap::IndexSet;
use std::alloc::Global;

// The place of the argument.
const COLUMNS: usize = 0;

// The labels that cells are, each once.
fn label_set(alloc: Global, cells: &Cells) -> Result<IndexSet<Option<Label>>, NoMemory>
    ensures { IfOk result (λ set. (h : Option OneLabel) → list_any (same_heading h) set.keys
        ≡ list_any (same_heading h) (map some_label cells.now)) }
{
    let mut labels = IndexSet::new(alloc);
    for k in 0..cells.len() {
        labels.insert(Some(Label::from(*cells.at(k))))?;
    }
    Ok(labels)
}

// The columns that have none of these labels.
fn columns_besides(
    alloc: Global,
    on: &ObjRef<'_>,
    labels: &IndexSet<Option<Label>>,
) -> Result<Places, NoMemory>
    requires { length on.now.headings ≡ length on.now.columns }
    ensures { IfOk result (λ kept. kept ≡ filter (λ place. not
        (list_any (same_heading (heading_of on.now place)) labels.now.keys))
        (range_with_len 0 (length on.now.columns))) }
{
    let mut kept = Places::new(alloc);
    for place in 0..on.columns() {
        if !labels.contains(&on.heading(place)) {
            kept.push(place)?;
        }
    }
    Ok(kept)
}

// The columns that have none of these labels, each of which some column has.
fn kept_by_labels(
    alloc: Global,
    dict: &TextDict,
    on: &ObjRef<'_>,
    cells: &Cells,
) -> Result<Places, OpFault>
    requires known { IsKnownTable dict.now on.now }
    requires shape { on.now.shape ≡ Frame }
    requires cells { IsSettled cells_value dict.now cells.now }
    ensures { FindsPlaces dict.now on.now result (columns_kept (table_value dict.now on.now)
        (map cell_label (cells_value dict.now cells.now))) }
{
    // Equal texts have equal numbers: `TextDict::len` says so.
    let _ = dict.len();
    // Each label is there, or this is a refusal.
    named_columns(alloc, dict, on, cells)?;
    let labels = label_set(alloc, cells)?;
    Ok(columns_besides(alloc, on, &labels)?)
}

// The columns that don't have the label that a scalar is.
fn kept_by_label(
    alloc: Global,
    dict: &TextDict,
    on: &ObjRef<'_>,
    cell: Cell,
) -> Result<Places, OpFault>
    requires known { IsKnownTable dict.now on.now }
    requires shape { on.now.shape ≡ Frame }
    requires cell { IsSettled datum dict.now cell }
    ensures { FindsPlaces dict.now on.now result (columns_kept (table_value dict.now on.now)
        (cell_label (datum dict.now cell) ∷ [])) }
{
    let dropped = label_columns(alloc, dict, on, Label::from(cell))?;
    Ok(places_besides(alloc, on.columns(), &dropped.places)?)
}

// The columns that have none of the labels that the scalars of a list are.
fn kept_by_list(
    alloc: Global,
    dict: &TextDict,
    on: &ObjRef<'_>,
    items: &[Item],
) -> Result<Places, OpFault>
    requires known { IsKnownTable dict.now on.now }
    requires shape { on.now.shape ≡ Frame }
    requires items { IsSettled scalars dict.now items.now }
    ensures { FindsPlaces dict.now on.now result (columns_kept (table_value dict.now on.now)
        (map cell_label (scalars dict.now items.now))) }
{
    let cells = scalars_of(alloc, items)?;
    kept_by_labels(alloc, dict, on, &cells)
}

// The columns that stay: all but those of a label, or of the labels of a list.
fn kept_columns(
    alloc: Global,
    store: &Store,
    dict: &TextDict,
    bound: &Bound<'_>,
    on: ObjId,
) -> Result<Places, OpFault>
    requires live { IsLiveObject (tables store.now) on }
    requires shape { shape_at (tables store.now) on ≡ Frame }
    requires settled { IsSettledWorld (world store.now dict.now) }
    requires names { NamesColumns (world store.now dict.now) bound.now }
    ensures { FindsPlaces dict.now (table_at (tables store.now) on.0) result
        (columns_kept (object_value (tables store.now) dict.now on)
        (meant.labels_in (first_in (world store.now dict.now) bound.now))) }
{
    let source = store.read(on);
    match bound.scalar_or_none(COLUMNS) {
        Some(cell) => kept_by_label(alloc, dict, &source, cell),
        None => match bound.list_or_none(COLUMNS) {
            Some(items) => kept_by_list(alloc, dict, &source, items),
            None => kept_by_list(alloc, dict, &source, &[]),
        },
    }
}

/// A new object: the frame without all columns of a label, or of the labels of a list, that is the first argument. It
/// shares the cells of the columns that stay.
///
/// # Errors
///
/// `NoKey` of the first label that no column has, then `Limit`. `NoMemory` may come in place of any answer. After a
/// refusal all objects are as they were.
pub fn drop_columns(
    alloc: Global,
    store: &mut Store,
    dict: &TextDict,
    bound: &Bound<'_>,
    on: ObjId,
) -> Result<Value, OpFault>
    requires live { IsLiveObject (tables store.old) on }
    requires shape { shape_at (tables store.old) on ≡ Frame }
    requires settled { IsSettledWorld (world store.old dict.now) }
    requires names { NamesColumns (world store.old dict.now) bound.now }
    ensures { FormsFor free result (meant.drop_result (object_value (tables store.old) dict.now on)
        (first_in (world store.old dict.now) bound.now))
        (world store.old dict.now) (world store.new dict.now) }
{
    let kept = kept_columns(alloc, store, dict, bound, on)?;
    columns_of(alloc, store, dict, on, kept)
}
