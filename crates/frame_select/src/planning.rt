// Plans of selections: what they take from a table that is read.
ghost use Rattle.std.specs.Prelude.{◌≡◌, ◌<◌, ◌∷◌, [], List, length, Some, Result, Ok, IfOk};
ghost use Rattle.std.specs.Option.{is_some};
ghost use Rattle.cell_core.specs.declared.grid.Shape.TheVariants.{Frame};
ghost use Rattle.column_core.specs.cells.Text.{Text as OneText};
ghost use Rattle.frame_store.specs.tables.Settled.{IsSettled};
ghost use Rattle.frame_store.specs.tables.Table.{NumberedTable, table_value};
ghost use Rattle.frame_store.specs.tables.Value.{one, key_given};
ghost use Rattle.meaning_charge.specs.select.Keys.{reach_by, reach_of, all_rows_of};
ghost use Rattle.meaning_charge.specs.select.Select as meant;
ghost use Rattle.frame_store.specs.Objects.{Tables, tables};
ghost use Rattle.frame_store.specs.Arguments.{object_value, items_of, subscript_of, IsLiveObject};
ghost use Rattle.frame_store.specs.World.{world, entry_in, subscript_in, IsKnownValue, IsKnownSubscript, IsKnownTable, IsSettledWorld};
ghost use Rattle.indexers.specs.Picks.{pick_of};
ghost use Rattle.indexers.specs.pick.Keys.{Pick};
ghost use Rattle.column_core.specs.cells.Fault.{FaultValue};
ghost use Rattle.frame_store.specs.tables.Valid.{IsWhole};
ghost use Rattle.frame_select.specs.Plans.{rows_in, TakesPicked, TakesAll, has_single_row, has_single_column, is_shared, is_sliced, share_cells, reach_of_plan, IsPlanFor, IsPlanOf, PlansBy};
ghost use Rattle.frame_select.specs.Reaches.{accessor_of, picked_reach, PicksBelow, ReachesWithin, CanSelect};
ghost use Rattle.frame_select.specs.Selected.{IsKnownSecond, second_in, each_truth, way_of};

use crate::labels::label_columns;
use crate::reaching::{Reach, all_columns, loc_columns, mask_rows, reach_by};
use cell_core::{Cell, Code, Grid, Label, Places, Rows, Shape, TextDict};
use frame_parts::wrong_kind;
use frame_store::{Argument, Item, ObjId, ObjRef, OpFault, Selector, Store, Subscript, Value};
use indexers::Picked;
use std::alloc::Global;

/// The rows of a plan.
#[derive(Drop)]
pub(crate) enum Taken {
    /// Rows at equal distances.
    Slice(Rows),
    /// Any rows.
    Listed(Places),
    /// The rows under leading labels, and of how many levels these are, which the answer loses.
    Under(Places, usize),
}

/// How far a selection reaches.
#[derive(Clone, Copy)]
pub(crate) enum Extent {
    /// The one cell.
    Cell,
    /// The rows of one column, as a Series.
    Column,
    /// The cells of one row, as a Series over the labels of the columns.
    Row,
    /// A frame.
    Frame,
}

/// What a selection takes from a table.
#[derive(Drop)]
pub(crate) struct Plan {
    /// The rows.
    pub rows: Taken,
    /// The places of the columns.
    pub columns: Places,
    /// How they are answered.
    pub extent: Extent,
}

impl Taken {
    /// How many rows there are.
    #[tactic(auto, using(crate::proofs::Hints::count))]
    pub(crate) fn count(&self) -> usize
        ensures { result ≡ length (rows_in self.now) }
    {
        match self {
            Taken::Slice(rows) => rows.count,
            Taken::Listed(places) => places.len(),
            Taken::Under(places, _) => places.len(),
        }
    }

    /// The one row.
    pub(crate) fn first(&self) -> usize
        requires { length (rows_in self.now) ≡ 1 }
        ensures { rows_in self.now ≡ result ∷ [] }
    {
        match self {
            Taken::Slice(rows) => rows.start,
            Taken::Listed(places) => *places.at(0),
            Taken::Under(places, _) => *places.at(0),
        }
    }
}

fn extent_of(single_row: bool, single_column: bool) -> Extent
    ensures row { has_single_row result ≡ single_row }
    ensures column { has_single_column result ≡ single_column }
{
    match (single_row, single_column) {
        (true, true) => Extent::Cell,
        (false, true) => Extent::Column,
        (true, false) => Extent::Row,
        (false, false) => Extent::Frame,
    }
}

// The rows that were picked. A slice needs no list.
fn rows_taken(rows: Picked) -> Taken
    ensures taken { (t : NumberedTable) → PicksBelow (length t.labels) rows
        → rows.dropped < length t.level_names → TakesPicked t rows result }
    ensures shared { share_cells result ≡ is_some rows.span }
{
    match rows.span {
        Some(span) => Taken::Slice(span),
        None if rows.dropped > 0 => Taken::Under(rows.places, rows.dropped),
        None => Taken::Listed(rows.places),
    }
}

// What is taken where keys reach these rows and columns.
fn plan_of(rows: Picked, columns: Picked) -> Plan
    ensures plan { (texts : List OneText) (t : NumberedTable)
        → ReachesWithin t (record { rows = Some rows; columns = columns })
        → meant.picked_result (table_value texts t) (reach_of_plan result)
        ≡ meant.picked_result (table_value texts t) (picked_reach rows columns) }
    ensures shared { is_shared result ≡ is_sliced (pick_of rows) }
    ensures whole { (t : NumberedTable)
        → ReachesWithin t (record { rows = Some rows; columns = columns }) → IsPlanFor t result }
{
    let extent = extent_of(rows.single, columns.single);
    Plan {
        rows: rows_taken(rows),
        columns: columns.places,
        extent,
    }
}

/// All rows of a table.
pub(crate) fn all_rows(on: &ObjRef<'_>) -> Taken
    ensures { TakesAll on.now result }
{
    Taken::Slice(Rows {
        start: 0,
        step: 1,
        count: on.rows(),
    })
}

/// All rows of these columns.
pub(crate) fn whole_columns(on: &ObjRef<'_>, columns: Places, extent: Extent) -> Plan
    ensures rows { TakesAll on.now result.rows }
    ensures columns { result.columns ≡ columns }
    ensures extent { result.extent ≡ extent }
{
    Plan {
        rows: all_rows(on),
        columns,
        extent,
    }
}

// All rows of the columns that were picked.
#[tactic(auto, using(crate::proofs::BracketLaws::columns_planned))]
fn column_plan(on: &ObjRef<'_>, columns: Picked) -> Plan
    requires whole { IsWhole on.now }
    requires shape { on.now.shape ≡ Frame }
    requires columns { PicksBelow (length on.now.columns) columns }
    ensures plan { (texts : List OneText) (picked : Result Pick FaultValue)
        → picked ≡ Ok (pick_of columns)
        → IsPlanOf texts on.now result (reach_of (Ok (all_rows_of (table_value texts on.now))) picked) }
    ensures whole { IsPlanFor on.now result }
{
    let extent = extent_of(false, columns.single);
    whole_columns(on, columns.places, extent)
}

// The rows that a mask keeps of all columns.
fn mask_plan(
    alloc: Global,
    store: &Store,
    dict: &TextDict,
    on: &ObjRef<'_>,
    mask: ObjId,
) -> Result<Plan, OpFault>
    requires table { CanSelect dict.now on.now }
    requires settled { IsSettledWorld (world store.now dict.now) }
    requires shape { on.now.shape ≡ Frame }
    requires mask { IsLiveObject (tables store.now) mask }
    ensures plan { PlansBy dict.now on.now result (meant.mask_reach (table_value dict.now on.now)
        (object_value (tables store.now) dict.now mask)) }
    ensures whole { IfOk result (IsPlanFor on.now) }
{
    let rows = mask_rows(alloc, store, dict, on, mask)?;
    let columns = all_columns(alloc, on)?;
    Ok(plan_of(rows, columns))
}

// What a value in brackets takes from a frame: the column of a label, or the rows of a mask.
fn value_plan(
    alloc: Global,
    store: &Store,
    dict: &TextDict,
    on: &ObjRef<'_>,
    value: Value,
) -> Result<Plan, OpFault>
    requires table { CanSelect dict.now on.now }
    requires settled { IsSettledWorld (world store.now dict.now) }
    requires shape { on.now.shape ≡ Frame }
    requires value { IsKnownValue (world store.now dict.now) value }
    ensures plan { PlansBy dict.now on.now result (meant.frame_reach (table_value dict.now on.now)
        (key_given (one (entry_in (world store.now dict.now) value)))) }
    ensures whole { IfOk result (IsPlanFor on.now) }
{
    match value {
        Value::Scalar(cell) => {
            let columns = label_columns(alloc, dict, on, Label::from(cell))?;
            Ok(column_plan(on, columns))
        }
        Value::Object(mask) => mask_plan(alloc, store, dict, on, mask),
    }
}

// What brackets take from a frame: a column, a list of columns, or the rows of a mask.
fn frame_plan(
    alloc: Global,
    store: &Store,
    dict: &TextDict,
    on: &ObjRef<'_>,
    key: &Subscript,
) -> Result<Plan, OpFault>
    requires table { CanSelect dict.now on.now }
    requires settled { IsSettledWorld (world store.now dict.now) }
    requires shape { on.now.shape ≡ Frame }
    requires key { IsKnownSubscript (world store.now dict.now) key.now }
    ensures plan { PlansBy dict.now on.now result (meant.frame_reach (table_value dict.now on.now)
        (subscript_in (world store.now dict.now) key.now)) }
    ensures whole { IfOk result (IsPlanFor on.now) }
{
    match key {
        Subscript::Key(Argument::One(value)) => value_plan(alloc, store, dict, on, *value),
        Subscript::Key(Argument::Many(_)) => {
            let columns = loc_columns(alloc, dict, on, key)?;
            Ok(column_plan(on, columns))
        }
        _ => Err(wrong_kind()),
    }
}

// Whether each part is a truth value.
fn are_truths(items: &[Item]) -> bool
    ensures { (live : Tables) (texts : List OneText)
        → result ≡ each_truth (items_of live texts items.now) }
{
    for item in items {
        if !matches!(item.scalar(), Some(Cell::Bool(_))) {
            return false;
        }
    }
    true
}

// Whether the key is a list of truth values alone, and not empty.
#[tactic(auto, using(crate::proofs::TruthLaws::truth_list_is))]
fn is_truth_list(key: &Subscript) -> bool
    ensures { (live : Tables) (texts : List OneText)
        → result ≡ meant.is_truth_list (subscript_of live texts key.now) }
{
    match key {
        Subscript::Key(Argument::Many(items)) => items.len() > 0 && are_truths(items.as_slice()),
        _ => false,
    }
}

// What an accessor takes.
#[tactic(auto, using(crate::proofs::Hints::access_plan))]
fn access_plan(
    alloc: Global,
    store: &Store,
    dict: &TextDict,
    on: &ObjRef<'_>,
    by: Selector,
    first: &Subscript,
    second: Option<&Subscript>,
) -> Result<Plan, OpFault>
    requires table { CanSelect dict.now on.now }
    requires settled { IsSettledWorld (world store.now dict.now) }
    requires first { IsKnownSubscript (world store.now dict.now) first.now }
    requires second { IsKnownSecond (world store.now dict.now) second }
    ensures plan { PlansBy dict.now on.now result (reach_by on.now.shape (accessor_of by)
        (table_value dict.now on.now) (subscript_in (world store.now dict.now) first.now)
        (second_in (world store.now dict.now) second.entry)) }
    ensures whole { IfOk result (IsPlanFor on.now) }
{
    let Reach { rows, columns } = reach_by(alloc, store, dict, on, by, first, second)?;
    match rows {
        Some(rows) => Ok(plan_of(rows, columns)),
        None => Err(OpFault::Refused(Code::Limit)),
    }
}

// What brackets take. Those of a Series are `loc`, but for lists of truth values.
fn plain_plan(
    alloc: Global,
    store: &Store,
    dict: &TextDict,
    on: &ObjRef<'_>,
    first: &Subscript,
    second: Option<&Subscript>,
) -> Result<Plan, OpFault>
    requires table { CanSelect dict.now on.now }
    requires settled { IsSettledWorld (world store.now dict.now) }
    requires first { IsKnownSubscript (world store.now dict.now) first.now }
    requires second { IsKnownSecond (world store.now dict.now) second }
    ensures plan { PlansBy dict.now on.now result (meant.way_reach meant.plain
        (table_value dict.now on.now) (subscript_in (world store.now dict.now) first.now)
        (second_in (world store.now dict.now) second.entry)) }
    ensures whole { IfOk result (IsPlanFor on.now) }
{
    if is_truth_list(first) {
        return Err(wrong_kind());
    }
    match (on.shape(), second) {
        (Shape::Series, _) => access_plan(alloc, store, dict, on, Selector::Loc, first, second),
        (Shape::Frame, None) => frame_plan(alloc, store, dict, on, first),
        (Shape::Frame, Some(_)) => Err(wrong_kind()),
    }
}

/// What a selection takes from a table, or its first refusal.
pub(crate) fn plan_for(
    alloc: Global,
    store: &Store,
    dict: &TextDict,
    on: &ObjRef<'_>,
    by: Selector,
    first: &Subscript,
    second: Option<&Subscript>,
) -> Result<Plan, OpFault>
    requires table { CanSelect dict.now on.now }
    requires settled { IsSettledWorld (world store.now dict.now) }
    requires first { IsKnownSubscript (world store.now dict.now) first.now }
    requires second { IsKnownSecond (world store.now dict.now) second }
    ensures plan { PlansBy dict.now on.now result (meant.way_reach (way_of by)
        (table_value dict.now on.now) (subscript_in (world store.now dict.now) first.now)
        (second_in (world store.now dict.now) second.entry)) }
    ensures whole { IfOk result (IsPlanFor on.now) }
{
    match by {
        Selector::Plain => plain_plan(alloc, store, dict, on, first, second),
        _ => access_plan(alloc, store, dict, on, by, first, second),
    }
}
