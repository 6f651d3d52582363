// Selections: a plan of a table that is read, which one call of the store carries out.
ghost use Rattle.std.specs.Prelude.{◌≡◌, ◌<◌, ◌^◌, ◌∷◌, [], true, false, List, length, slice_index_or, None, All, IfOk, OnErr};
ghost use Rattle.cell_core.specs.Grids.{AreRowsBelow, place_from, IsPlace};
ghost use Rattle.cell_core.specs.declared.grid.Shape.TheVariants.{Frame};
ghost use Rattle.column_core.specs.cells.Text.{Text as OneText};
ghost use Rattle.frame_store.specs.tables.Cost.{free};
ghost use Rattle.frame_store.specs.tables.Table.{table_value, tuple_value, heading_value};
ghost use Rattle.frame_parts.specs.form.Finish.{limited};
ghost use Rattle.frame_parts.specs.form.Select.{columns_frame};
ghost use Rattle.meaning_charge.specs.Charge.{select_charge};
ghost use Rattle.meaning_charge.specs.select.Select as meant;
ghost use Rattle.indexers.specs.pick.Rows.{rows_of};
ghost use Rattle.multi_index.specs.Axes.{taken_axis};
ghost use Rattle.frame_parts.specs.Makes.{MakesBy};
ghost use Rattle.frame_store.specs.Objects.{tables, table_at, IsFree, Becomes, Stays, KeepBlocks, Raises};
ghost use Rattle.frame_store.specs.Stores.{charged};
ghost use Rattle.frame_store.specs.Arguments.{object_value, shape_at, IsLiveObject};
ghost use Rattle.frame_store.specs.Shown.{Makes};
ghost use Rattle.frame_store.specs.World.{world, entry_in, subscript_in, IsKnownValue, IsKnownSubscript, IsKnownTable, IsSettledWorld, FormsFor};
ghost use Rattle.frame_select.specs.Plans.{taken_table, cells_made, has_single_column, is_shared, reach_of_plan, cut_by, share_cells, unless_shared, IsPlanFor, CanTake};
ghost use Rattle.frame_select.specs.Selected.{IsKnownSecond, second_in, as_it_is, way_of};
ghost use Rattle.frame_select.specs.Chosen.{AreSettledHeadings};
ghost use Rattle.frame_select.specs.Across.{HaveKind, cells_across};

use crate::headings::heading_list;
use crate::labels::headings_at;
use crate::new_objects::places_below;
use crate::planning::{Extent, Plan, Taken, plan_for, whole_columns};
use crate::reaching::columns_axis;
use crate::taking::{chosen_table, table_under};
use cell_core::{Code, Grid, Kind, Label, NoMemory, Places, Rows, Shape, TextDict};
use column_core::Column;
use frame_parts::{within_limits, wrong_kind};
use frame_store::{
    Blocks, Headings, ObjId, ObjRef, OpFault, Selector, Store, Subscript, Table, Value,
    headings_of, placed,
};
use multi_index::Axis;
use std::alloc::Global;

// The kind of these columns, which must be of one: whole numbers where there is none.
fn kind_across(on: &ObjRef<'_>, columns: &Places) -> Result<Kind, OpFault>
    requires { All (λ place. place < length on.now.columns) columns.now }
    ensures kind { (texts : List OneText) → MakesBy as_it_is texts result
        (meant.one_kind (columns_frame (table_value texts on.now) columns.now).columns) }
    ensures each { IfOk result (λ kind. HaveKind kind on.now columns.now) }
{
    let mut kind = Kind::Int64;
    for k in 0..columns.len() {
        let next = on.kind(*columns.at(k));
        if k > 0 && next != kind {
            return Err(wrong_kind());
        }
        kind = next;
    }
    Ok(kind)
}

// The cells of a row in these columns.
fn row_cells(
    alloc: Global,
    on: &ObjRef<'_>,
    kind: Kind,
    row: usize,
    columns: &Places,
) -> Result<Column, NoMemory>
    requires row { row < length on.now.labels }
    requires columns { All (λ place. place < length on.now.columns) columns.now }
    requires kinds { HaveKind kind on.now columns.now }
    ensures { IfOk result (λ made. made ≡ cells_across kind row on.now columns.now) }
{
    let mut cells = Column::new(alloc, kind);
    for place in columns.as_slice() {
        cells.push(on.column(*place).cell(row))?;
    }
    Ok(cells)
}

// The label of a row as a name. A row of several levels has none.
fn row_name(on: &ObjRef<'_>, row: usize) -> Option<Label>
    requires { row < length on.now.labels }
    ensures { (texts : List OneText) → heading_value texts result
        ≡ meant.row_name (tuple_value texts (slice_index_or on.now.labels row [])) }
{
    let axis = on.axis();
    if axis.levels() == 1 {
        Some(axis.label(row, 0))
    } else {
        None
    }
}

// A row as a Series over the labels of these columns.
fn row_series(
    alloc: Global,
    dict: &TextDict,
    on: &ObjRef<'_>,
    row: usize,
    columns: &Places,
) -> Result<Table, OpFault>
    requires known { IsKnownTable dict.now on.now }
    requires shape { on.now.shape ≡ Frame }
    requires row { row < length on.now.labels }
    requires columns { All (λ place. place < length on.now.columns) columns.now }
    ensures { Makes dict.now result (meant.row_result
        (meant.cut (table_value dict.now on.now) (row ∷ []) columns.now)) }
{
    let name = row_name(on, row);
    let kind = kind_across(on, columns)?;
    if !within_limits(columns.len(), 1) {
        return Err(OpFault::Refused(Code::Limit));
    }
    let cells = row_cells(alloc, on, kind, row, columns)?;
    let axis = columns_axis(alloc, dict, on, columns)?;
    let mut headings = Headings::new(alloc, None);
    headings.push(name)?;
    let mut blocks = Blocks::new(alloc);
    blocks.push(cells.into_block())?;
    Ok(Table::new(Shape::Series, axis, headings, blocks))
}

// The place of a row of a slice.
fn place_of(rows: Rows, row: usize) -> usize
    requires place { IsPlace rows.start rows.step row }
    requires fits { place_from rows.start rows.step row < 2 ^ 64 }
    ensures { result ≡ place_from rows.start rows.step row }
{
    let distance = row * rows.step.unsigned_abs() as usize;
    if rows.step >= 0 {
        rows.start + distance
    } else {
        rows.start - distance
    }
}

// The axis of a slice of rows.
#[tactic(auto, using(crate::proofs::Hints::sliced_axis))]
fn sliced_axis(alloc: Global, axis: &Axis, rows: Rows) -> Result<Axis, NoMemory>
    requires { AreRowsBelow rows (length axis.now.tuples) }
    ensures { IfOk result (λ made. made ≡ taken_axis axis.now (rows_of rows)) }
{
    let count = axis.len();
    if rows.start == 0 && rows.step == 1 && rows.count == count {
        return axis.copy(alloc);
    }
    let mut places = Places::new(alloc);
    for row in 0..rows.count {
        places.push(place_of(rows, row))?;
    }
    axis.take(alloc, &places)
}

// A new object with these rows and columns of another one.
#[tactic(auto, using(crate::proofs::Hints::count))]
fn make_taken(
    alloc: Global,
    store: &mut Store,
    on: ObjId,
    shape: Shape,
    rows: &Taken,
    columns: &Places,
    headings: Headings,
) -> Result<ObjId, NoMemory>
    requires live { IsLiveObject (tables store.old) on }
    requires taken { CanTake shape headings rows.now columns.now
        (table_at (tables store.old) on.0) }
    ensures fresh { IfOk result (IsFree store.old) }
    ensures ok { IfOk result (λ id. Becomes store.old store.new id (taken_table shape headings
        rows.now columns.now (table_at (tables store.old) on.0))) }
    ensures err { OnErr result (Stays store.old store.new) }
    ensures held { Raises (charged (cells_made rows.now (taken_table shape headings
        rows.now columns.now (table_at (tables store.old) on.0))) result) store.old store.new }
    ensures blocks { KeepBlocks None store.old store.new }
{
    match rows {
        Taken::Slice(rows) => {
            let axis = sliced_axis(alloc, store.axis(on), *rows)?;
            store.derive(on, shape, *rows, columns, axis, headings)
        }
        Taken::Listed(rows) => {
            let source = store.read(on);
            let table = chosen_table(alloc, &source, shape, rows, columns, headings)?;
            store.insert(table)
        }
        Taken::Under(rows, levels) => {
            let source = store.read(on);
            let table = table_under(alloc, &source, shape, rows, *levels, columns, headings)?;
            store.insert(table)
        }
    }
}

/// A new object with these rows and columns of another one, unless it would be beyond the limits. Rows at equal distances
/// are shared.
pub(crate) fn cut_within(
    alloc: Global,
    store: &mut Store,
    on: ObjId,
    shape: Shape,
    rows: &Taken,
    columns: &Places,
    headings: Headings,
) -> Result<Value, OpFault>
    requires live { IsLiveObject (tables store.old) on }
    requires taken { CanTake shape headings rows.now columns.now
        (table_at (tables store.old) on.0) }
    ensures { (texts : List OneText) → IsSettledWorld (world store.old texts)
        → AreSettledHeadings texts headings
        → FormsFor (unless_shared (share_cells rows.now)) result (limited (table_value texts
        (taken_table shape headings rows.now columns.now (table_at (tables store.old) on.0))))
        (world store.old texts) (world store.new texts) }
{
    if !within_limits(rows.count(), columns.len()) {
        return Err(OpFault::Refused(Code::Limit));
    }
    let id = make_taken(alloc, store, on, shape, rows, columns, headings)?;
    Ok(Value::Object(id))
}

// The rows of a single column, as a Series with the column's label as its name.
fn take_column(alloc: Global, store: &mut Store, on: ObjId, plan: &Plan) -> Result<Value, OpFault>
    requires live { IsLiveObject (tables store.old) on }
    requires plan { IsPlanFor (table_at (tables store.old) on.0) plan.now }
    requires single { has_single_column plan.now.extent ≡ true }
    ensures { (texts : List OneText) → IsSettledWorld (world store.old texts)
        → FormsFor (unless_shared (share_cells plan.now.rows)) result
        (limited (meant.as_series (cut_by plan.now (object_value (tables store.old) texts on))))
        (world store.old texts) (world store.new texts) }
{
    let source = store.read(on);
    let mut headings = Headings::new(alloc, None);
    headings.push(source.heading(*plan.columns.at(0)))?;
    cut_within(
        alloc,
        store,
        on,
        Shape::Series,
        &plan.rows,
        &plan.columns,
        headings,
    )
}

// Rows and columns of a frame, as a frame.
#[tactic(auto, using(crate::proofs::Hints::take_frame))]
fn take_frame(
    alloc: Global,
    store: &mut Store,
    dict: &TextDict,
    on: ObjId,
    plan: &Plan,
) -> Result<Value, OpFault>
    requires live { IsLiveObject (tables store.old) on }
    requires settled { IsSettledWorld (world store.old dict.now) }
    requires plan { IsPlanFor (table_at (tables store.old) on.0) plan.now }
    requires several { has_single_column plan.now.extent ≡ false }
    ensures { FormsFor (unless_shared (share_cells plan.now.rows)) result
        (limited (cut_by plan.now (object_value (tables store.old) dict.now on)))
        (world store.old dict.now) (world store.new dict.now) }
{
    let source = store.read(on);
    let labels = headings_at(alloc, &source, &plan.columns)?;
    let headings = heading_list(alloc, source.columns_name(), &labels)?;
    cut_within(
        alloc,
        store,
        on,
        Shape::Frame,
        &plan.rows,
        &plan.columns,
        headings,
    )
}

/// A new frame of all rows of these columns of another one, in their order, for `drop`. It shares their cells.
///
/// # Errors
///
/// `Limit` where the frame would be beyond the limits. `NoMemory` may come in place of any answer.
/// After a refusal all objects are as they were.
pub fn columns_of(
    alloc: Global,
    store: &mut Store,
    dict: &TextDict,
    on: ObjId,
    columns: Places,
) -> Result<Value, OpFault>
    requires live { IsLiveObject (tables store.old) on }
    requires settled { IsSettledWorld (world store.old dict.now) }
    requires frame { shape_at (tables store.old) on ≡ Frame }
    requires columns { All (λ place. place < length (table_at (tables store.old) on.0).columns)
        columns }
    ensures { FormsFor free result
        (limited (columns_frame (object_value (tables store.old) dict.now on) columns))
        (world store.old dict.now) (world store.new dict.now) }
{
    let plan = whole_columns(&store.read(on), columns, Extent::Frame);
    take_frame(alloc, store, dict, on, &plan)
}

/// A new object with these rows of another one, of all its columns, for `head` and `tail`. It shares their cells.
///
/// # Errors
///
/// `Limit` where it would be beyond the limits. `NoMemory` may come in place of any answer. After a
/// refusal all objects are as they were.
pub fn sliced(alloc: Global, store: &mut Store, on: ObjId, rows: Rows) -> Result<Value, OpFault>
    requires live { IsLiveObject (tables store.old) on }
    requires rows { AreRowsBelow rows (length (table_at (tables store.old) on.0).labels) }
    ensures { (texts : List OneText) → IsSettledWorld (world store.old texts) → FormsFor free result
        (limited (meant.rows_taken (object_value (tables store.old) texts on) (rows_of rows)))
        (world store.old texts) (world store.new texts) }
{
    let source = store.read(on);
    let headings = headings_of(alloc, &source)?;
    let columns = places_below(alloc, source.columns())?;
    let shape = source.shape();
    let rows = Taken::Slice(rows);
    cut_within(alloc, store, on, shape, &rows, &columns, headings)
}

// The answer of a plan.
#[tactic(auto, using(crate::proofs::PickedLaws::read_is, crate::proofs::CarryLaws::row_inside))]
fn carry_out(
    alloc: Global,
    store: &mut Store,
    dict: &TextDict,
    on: ObjId,
    plan: Plan,
) -> Result<Value, OpFault>
    requires live { IsLiveObject (tables store.old) on }
    requires settled { IsSettledWorld (world store.old dict.now) }
    requires plan { IsPlanFor (table_at (tables store.old) on.0) plan }
    ensures { FormsFor (unless_shared (is_shared plan)) result
        (meant.picked_result (object_value (tables store.old) dict.now on) (reach_of_plan plan))
        (world store.old dict.now) (world store.new dict.now) }
{
    match plan.extent {
        Extent::Cell => {
            let cell = store.read(on).cell(plan.rows.first(), *plan.columns.at(0));
            Ok(Value::Scalar(cell))
        }
        Extent::Row => {
            let row = plan.rows.first();
            let series = row_series(alloc, dict, &store.read(on), row, &plan.columns);
            placed(store, dict, series)
        }
        Extent::Column => take_column(alloc, store, on, &plan),
        Extent::Frame => take_frame(alloc, store, dict, on, &plan),
    }
}

/// A selection: `v[..]`, `v.loc[..]`, `v.iloc[..]`, `v.at[..]` or `v.iat[..]`, as in the pandas
/// user guide, "Indexing and selecting data" and "MultiIndex / advanced indexing".
///
/// Brackets on a frame take a column by its label, columns by a list of labels, or the rows of a
/// mask; those of a Series are `loc`. `loc` takes labels, `iloc` positions, on a frame with a key
/// for the rows and one for the columns, which may be left out; `at` and `iat` take one label or
/// position for each. On several levels a row's labels are a tuple, which two keys of a Series in
/// `loc` and `at` are too; one of fewer labels gives the rows that begin with it, without its levels.
/// A single row and column give a scalar, a single column or row a Series, all else a Series of a
/// Series and a frame of a frame. The answer is a new object; no other object changes.
///
/// # Errors
///
/// `WrongKind` of a scalar that is subscripted, of a key of another form, and of a list of truth
/// values alone in brackets. The row key before the column key: `NoKey` of a label that isn't there,
/// or, where the labels aren't in order, of the bound of a slice that isn't there or stands twice, or
/// of any on several levels; `OutOfRange` of a position; `NoMaskLabel` of a row whose label stands
/// not just once in a mask of other labels; `BadValue(Argument)` of a step of 0;
/// `BadValue(Repeated)` of a label of `at` that stands more than once. Then `WrongKind` of a row of
/// several kinds, `Limit`. `NoMemory` may come in place of any answer. After a refusal all objects are as they were.
pub fn select(
    alloc: Global,
    store: &mut Store,
    dict: &mut TextDict,
    on: Value,
    by: Selector,
    first: &Subscript,
    second: Option<&Subscript>,
) -> Result<Value, OpFault>
    requires on { IsKnownValue (world store.old dict.old) on }
    requires settled { IsSettledWorld (world store.old dict.old) }
    requires first { IsKnownSubscript (world store.old dict.old) first.now }
    requires second { IsKnownSecond (world store.old dict.old) second }
    ensures { FormsFor (select_charge (entry_in (world store.old dict.old) on) (way_of by)
        (subscript_in (world store.old dict.old) first.now)) result
        (meant.select_result (entry_in (world store.old dict.old) on) (way_of by)
        (subscript_in (world store.old dict.old) first.now)
        (second_in (world store.old dict.old) second.entry))
        (world store.old dict.old) (world store.new dict.new) }
{
    let Value::Object(id) = on else {
        return Err(wrong_kind());
    };
    let plan = plan_for(alloc, store, dict, &store.read(id), by, first, second)?;
    carry_out(alloc, store, dict, id, plan)
}
