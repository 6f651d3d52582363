// The rows and columns that keys reach.
ghost use Rattle.std.specs.Prelude.{◌≡◌, ◌<◌, ◌≤◌, List, length, All, Result, IfOk, IfSome, Some, None, not};
ghost use Rattle.std.specs.List.{range_with_len};
ghost use Rattle.std.specs.Option.{option_map, is_some};
ghost use Rattle.cell_core.specs.declared.grid.Shape.TheVariants.{Series, Frame};
ghost use Rattle.column_core.specs.cells.Symbol.{at};
ghost use Rattle.column_core.specs.cells.Text.{Text as OneText};
ghost use Rattle.frame_store.specs.tables.Table.{table_value};
ghost use Rattle.frame_store.specs.tables.Valid.{IsWhole};
ghost use Rattle.meaning_charge.specs.select.Keys as meant;
ghost use Rattle.frame_parts.specs.Makes.{MakesBy};
ghost use Rattle.frame_store.specs.Objects.{Tables, tables};
ghost use Rattle.frame_store.specs.Parts.{labelled};
ghost use Rattle.frame_store.specs.Arguments.{object_value, subscript_of, IsLiveObject, IsLiveSubscript};
ghost use Rattle.frame_store.specs.tables.Settled.{IsSettled};
ghost use Rattle.frame_store.specs.World.{world, subscript_in, IsKnownSubscript, IsSettledWorld};
ghost use Rattle.multi_index.specs.Axes.{HaveLevels};
ghost use Rattle.indexers.specs.Keys.{FitsLevels};
ghost use Rattle.indexers.specs.declared.keys.LocKey.TheVariants.{Many};
ghost use Rattle.indexers.specs.pick.Keys.{each_key};
ghost use Rattle.frame_select.specs.Reaches.{label_key_value, tuples_value, accessor_of, pick_value, refusal_of, found_result, columns_axis, object_key, FindsBy, PicksBelow, ReachesBy, ReachesWithin, CanSelect, is_series, is_row};
ghost use Rattle.frame_select.specs.Selected.{IsKnownSecond, second_in};

use crate::keys::{joined_key, label_key, position_key, whole_key};
use crate::new_objects::places_below;
use cell_core::{Code, Grid, Kind, NoMemory, Places, Reason, Rows, Shape, TextDict, Tuple, Tuples};
use frame_parts::wrong_kind;
use frame_store::{Argument, ObjId, ObjRef, OpFault, Selector, Store, Subscript};
use indexers::{KeyFault, LocKey, Picked, iloc_places, listed_places, loc_places, mask_places};
use multi_index::Axis;
use std::alloc::Global;

// As many rows as a table may have.
const MOST_ROWS: usize = 67108864;

/// Rows and columns of a table that are picked together.
#[derive(Drop)]
pub(crate) struct Reach {
    /// The rows, which aren't listed where a list of labels meets more than a table may have.
    pub rows: Option<Picked>,
    /// The columns.
    pub columns: Picked,
}

// Why a key picks nothing, as the refusal of a form.
fn refusal(fault: KeyFault) -> OpFault
    ensures { result ≡ refusal_of fault }
{
    match fault {
        KeyFault::NotThere(key) => OpFault::Refused(Code::NoKey(key)),
        KeyFault::BoundNotUnique(key) => OpFault::Refused(Code::NoKey(key)),
        KeyFault::OutOfRange(position, count) => {
            OpFault::Refused(Code::OutOfRange(position, count as u64))
        }
        KeyFault::NoMaskLabel(key) => OpFault::Refused(Code::NoMaskLabel(key)),
        KeyFault::StepZero => OpFault::Refused(Code::BadValue(Reason::Argument)),
        KeyFault::NoMemory => OpFault::NoMemory,
    }
}

// What was picked, or the refusal of a form.
fn found<T>(picked: Result<T, KeyFault>) -> Result<T, OpFault>
    ensures { result ≡ found_result picked }
{
    match picked {
        Ok(picked) => Ok(picked),
        Err(fault) => Err(refusal(fault)),
    }
}

// The rows of an axis that a key by label picks.
#[tactic(auto, using(crate::proofs::SeenKeys::labels_found))]
fn labelled(alloc: Global, dict: &TextDict, axis: &Axis, key: &LocKey) -> Result<Picked, OpFault>
    requires some { 1 ≤ length axis.now.names }
    requires fits { FitsLevels (length axis.now.names) key.now }
    requires given { IsSettled tuples_value dict.now axis.now.tuples }
    ensures rows { IsSettled label_key_value dict.now key.now → MakesBy pick_value dict.now result
        (meant.found_labels (length axis.now.names) (tuples_value dict.now axis.now.tuples)
        (label_key_value dict.now key.now)) }
    ensures within { IfOk result (PicksBelow (length axis.now.tuples)) }
    ensures left { IfOk result (λ picked. picked.dropped < length axis.now.names) }
{
    // Equal texts have equal numbers: `TextDict::len` says so.
    let _ = dict.len();
    found(loc_places(alloc, dict, axis, key))
}

// The rows of an axis that a list of labels picks. None where they are more than a table may have.
fn listed_rows(
    alloc: Global,
    dict: &TextDict,
    axis: &Axis,
    labels: &Tuples,
) -> Result<Option<Picked>, OpFault>
    requires some { 1 ≤ length axis.now.names }
    requires fits { HaveLevels (length axis.now.names) labels.now }
    requires given { IsSettled tuples_value dict.now axis.now.tuples }
    ensures rows { IsSettled label_key_value dict.now (Many labels.now) → FindsBy dict.now result
        (meant.found_labels (length axis.now.names) (tuples_value dict.now axis.now.tuples)
        (each_key (tuples_value dict.now labels.now))) }
    ensures within { IfOk result (λ found. IfSome found (PicksBelow (length axis.now.tuples))) }
    ensures left { IfOk result (λ found. IfSome found
        (λ picked. picked.dropped < length axis.now.names)) }
{
    // Equal texts have equal numbers: `TextDict::len` says so.
    let _ = dict.len();
    match listed_places(alloc, axis, labels, MOST_ROWS) {
        Ok(Some(places)) => Ok(Some(Picked::listed(places))),
        Ok(None) => Ok(None),
        Err(fault) => Err(refusal(fault)),
    }
}

// The rows of an axis that a key by label picks. None where those of a list are more than a table may have.
fn labelled_within(
    alloc: Global,
    dict: &TextDict,
    axis: &Axis,
    key: &LocKey,
) -> Result<Option<Picked>, OpFault>
    requires some { 1 ≤ length axis.now.names }
    requires fits { FitsLevels (length axis.now.names) key.now }
    requires given { IsSettled tuples_value dict.now axis.now.tuples }
    ensures rows { IsSettled label_key_value dict.now key.now → FindsBy dict.now result
        (meant.found_labels (length axis.now.names) (tuples_value dict.now axis.now.tuples)
        (label_key_value dict.now key.now)) }
    ensures within { IfOk result (λ found. IfSome found (PicksBelow (length axis.now.tuples))) }
    ensures left { IfOk result (λ found. IfSome found
        (λ picked. picked.dropped < length axis.now.names)) }
{
    match key {
        LocKey::Many(labels) => listed_rows(alloc, dict, axis, labels),
        _ => Ok(Some(labelled(alloc, dict, axis, key)?)),
    }
}

// The object that a key is.
pub(crate) fn object_of(key: &Subscript) -> Option<ObjId>
    ensures table { (live : Tables) (texts : List OneText)
        → option_map (object_value live texts) result
        ≡ object_key (subscript_of live texts key.now) }
    ensures live { (live : Tables) → IsLiveSubscript live key.now
        → IfSome result (IsLiveObject live) }
{
    match key {
        Subscript::Key(argument) => argument.object(),
        Subscript::Span(_, _, _) => None,
    }
}

// The rows that a mask keeps.
pub(crate) fn mask_rows(
    alloc: Global,
    store: &Store,
    dict: &TextDict,
    on: &ObjRef<'_>,
    mask: ObjId,
) -> Result<Picked, OpFault>
    requires table { CanSelect dict.now on.now }
    requires settled { IsSettledWorld (world store.now dict.now) }
    requires mask { IsLiveObject (tables store.now) mask }
    ensures rows { MakesBy pick_value dict.now result (meant.mask_pick
        (table_value dict.now on.now) (object_value (tables store.now) dict.now mask)) }
    ensures within { IfOk result (PicksBelow (length on.now.labels)) }
    ensures left { IfOk result (λ picked. picked.dropped < length on.now.level_names) }
{
    // Equal texts have equal numbers: `TextDict::len` says so. Each axis has a level: so says `Axis::levels`.
    let _ = dict.len();
    let _ = on.axis().levels();
    let mask = store.read(mask);
    if mask.shape() == Shape::Frame || mask.kind(0) != Kind::Boolean {
        return Err(wrong_kind());
    }
    let places = found(mask_places(alloc, on.axis(), mask.axis(), mask.column(0)))?;
    Ok(Picked::listed(places))
}

// The rows of a key of `loc`.
fn loc_rows(
    alloc: Global,
    store: &Store,
    dict: &TextDict,
    on: &ObjRef<'_>,
    key: &Subscript,
) -> Result<Picked, OpFault>
    requires table { CanSelect dict.now on.now }
    requires settled { IsSettledWorld (world store.now dict.now) }
    requires key { IsKnownSubscript (world store.now dict.now) key.now }
    ensures rows { MakesBy pick_value dict.now result (meant.loc_rows
        (table_value dict.now on.now) (subscript_in (world store.now dict.now) key.now)) }
    ensures within { IfOk result (PicksBelow (length on.now.labels)) }
    ensures left { IfOk result (λ picked. picked.dropped < length on.now.level_names) }
{
    let axis = on.axis();
    let levels = axis.levels();
    if let Some(mask) = object_of(key) {
        return mask_rows(alloc, store, dict, on, mask);
    }
    let key = label_key(alloc, levels, key)?;
    labelled(alloc, dict, axis, &key)
}

// The row of a key of `at`, which must stand once.
fn at_rows(
    alloc: Global,
    dict: &TextDict,
    on: &ObjRef<'_>,
    key: &Subscript,
) -> Result<Picked, OpFault>
    requires table { CanSelect dict.now on.now }
    ensures rows { (live : Tables) → IsSettled (subscript_of live) dict.now key.now
        → MakesBy pick_value dict.now result
        (meant.at_rows (table_value dict.now on.now) (subscript_of live dict.now key.now)) }
    ensures within { IfOk result (PicksBelow (length on.now.labels)) }
    ensures left { IfOk result (λ picked. picked.dropped < length on.now.level_names) }
{
    let axis = on.axis();
    let label = whole_key(alloc, axis.levels(), key)?;
    let rows = labelled(alloc, dict, axis, &LocKey::One(label.copy()))?;
    if rows.single {
        Ok(rows)
    } else {
        Err(OpFault::Refused(Code::BadValue(Reason::Repeated(label))))
    }
}

// What a key by position picks among so many.
#[tactic(auto, using(crate::proofs::SeenKeys::places_found))]
fn places_among(alloc: Global, count: usize, key: &Subscript) -> Result<Picked, OpFault>
    ensures places { (live : Tables) (texts : List OneText) → MakesBy pick_value texts result
        (meant.place_pick count (subscript_of live texts key.now)) }
    ensures within { IfOk result (PicksBelow count) }
    ensures left { IfOk result (λ picked. picked.dropped ≡ 0) }
{
    let key = position_key(alloc, key)?;
    found(iloc_places(alloc, count, &key))
}

// What a key of `iat` picks among so many.
fn place_among(alloc: Global, count: usize, key: &Subscript) -> Result<Picked, OpFault>
    ensures places { (live : Tables) (texts : List OneText) → MakesBy pick_value texts result
        (meant.iat_pick count (subscript_of live texts key.now)) }
    ensures within { IfOk result (PicksBelow count) }
    ensures left { IfOk result (λ picked. picked.dropped ≡ 0) }
{
    let _ = whole_key(alloc, 1, key)?;
    places_among(alloc, count, key)
}

/// The rows that a key picks, by an accessor. Brackets alone are `loc`.
///
/// # Errors
///
/// `WrongKind` of a key of a form that the accessor doesn't take, tested first; then those of what it names: `NoKey` of
/// a label that isn't there and of an end of a slice that can't be placed, `OutOfRange` of a position, `NoMaskLabel` of a
/// row whose label a mask of other labels lacks or has twice, `BadValue(Argument)` of a step of 0, `BadValue(Repeated)` of
/// a label of `at` that stands several times. `NoMemory` may come in place of any answer.
pub fn rows_by(
    alloc: Global,
    store: &Store,
    dict: &TextDict,
    on: &ObjRef<'_>,
    by: Selector,
    key: &Subscript,
) -> Result<Picked, OpFault>
    requires table { CanSelect dict.now on.now }
    requires settled { IsSettledWorld (world store.now dict.now) }
    requires key { IsKnownSubscript (world store.now dict.now) key.now }
    ensures rows { MakesBy pick_value dict.now result (meant.rows_by (accessor_of by)
        (table_value dict.now on.now) (subscript_in (world store.now dict.now) key.now)) }
    ensures within { IfOk result (PicksBelow (length on.now.labels)) }
    ensures left { IfOk result (λ picked. picked.dropped < length on.now.level_names) }
{
    // Each axis has a level: `Axis::levels` says so.
    let _ = on.axis().levels();
    match by {
        Selector::Plain => loc_rows(alloc, store, dict, on, key),
        Selector::Loc => loc_rows(alloc, store, dict, on, key),
        Selector::Iloc => places_among(alloc, on.rows(), key),
        Selector::At => at_rows(alloc, dict, on, key),
        Selector::Iat => place_among(alloc, on.rows(), key),
    }
}

// The rows of a key of `loc`, for a selection. None where a list meets more than a table may have.
fn loc_rows_within(
    alloc: Global,
    store: &Store,
    dict: &TextDict,
    on: &ObjRef<'_>,
    key: &Subscript,
) -> Result<Option<Picked>, OpFault>
    requires table { CanSelect dict.now on.now }
    requires settled { IsSettledWorld (world store.now dict.now) }
    requires key { IsKnownSubscript (world store.now dict.now) key.now }
    ensures rows { FindsBy dict.now result (meant.loc_rows
        (table_value dict.now on.now) (subscript_in (world store.now dict.now) key.now)) }
    ensures within { IfOk result (λ found. IfSome found (PicksBelow (length on.now.labels))) }
    ensures left { IfOk result (λ found. IfSome found
        (λ picked. picked.dropped < length on.now.level_names)) }
{
    let axis = on.axis();
    let levels = axis.levels();
    if let Some(mask) = object_of(key) {
        return Ok(Some(mask_rows(alloc, store, dict, on, mask)?));
    }
    let key = label_key(alloc, levels, key)?;
    labelled_within(alloc, dict, axis, &key)
}

/// The rows that a key picks for a selection, as [`rows_by`] picks them. None where a list of labels meets more rows
/// than a table may have: they are counted before they are listed.
pub(crate) fn rows_within(
    alloc: Global,
    store: &Store,
    dict: &TextDict,
    on: &ObjRef<'_>,
    by: Selector,
    key: &Subscript,
) -> Result<Option<Picked>, OpFault>
    requires table { CanSelect dict.now on.now }
    requires settled { IsSettledWorld (world store.now dict.now) }
    requires key { IsKnownSubscript (world store.now dict.now) key.now }
    ensures rows { FindsBy dict.now result (meant.rows_by (accessor_of by)
        (table_value dict.now on.now) (subscript_in (world store.now dict.now) key.now)) }
    ensures within { IfOk result (λ found. IfSome found (PicksBelow (length on.now.labels))) }
    ensures left { IfOk result (λ found. IfSome found
        (λ picked. picked.dropped < length on.now.level_names)) }
{
    match by {
        Selector::Plain => loc_rows_within(alloc, store, dict, on, key),
        Selector::Loc => loc_rows_within(alloc, store, dict, on, key),
        _ => Ok(Some(rows_by(alloc, store, dict, on, by, key)?)),
    }
}

/// The labels of the columns at these places as an axis, whose level has the columns' name.
pub(crate) fn columns_axis(
    alloc: Global,
    dict: &TextDict,
    on: &ObjRef<'_>,
    places: &Places,
) -> Result<Axis, NoMemory>
    requires whole { IsWhole on.now }
    requires shape { on.now.shape ≡ Frame }
    requires places { All (λ place. place < length on.now.columns) places.now }
    ensures { IfOk result (λ axis. labelled axis ≡ columns_axis on.now places.now) }
{
    let mut labels = Tuples::new(alloc);
    for place in places.as_slice() {
        // A frame's columns have labels.
        if let Some(label) = on.heading(*place) {
            labels.push(Tuple::of(alloc, &[label]))?;
        }
    }
    let mut axis = Axis::from_tuples(alloc, dict, &labels, 1)?;
    axis.set_name(0, on.columns_name());
    Ok(axis)
}

// Whether a key is a tuple.
fn is_tuple(key: &Subscript) -> bool
    ensures { (live : Tables) (texts : List OneText)
        → result ≡ is_row (subscript_of live texts key.now) }
{
    matches!(key, Subscript::Key(Argument::Row(_)))
}

// The columns of a key of `loc`. No tuple and no mask names columns.
#[tactic(auto, using(crate::proofs::SeenKeys::range_below))]
pub(crate) fn loc_columns(
    alloc: Global,
    dict: &TextDict,
    on: &ObjRef<'_>,
    key: &Subscript,
) -> Result<Picked, OpFault>
    requires table { CanSelect dict.now on.now }
    requires shape { on.now.shape ≡ Frame }
    ensures columns { (live : Tables) → IsSettled (subscript_of live) dict.now key.now
        → MakesBy pick_value dict.now result
        (meant.loc_columns (table_value dict.now on.now) (subscript_of live dict.now key.now)) }
    ensures within { IfOk result (PicksBelow (length on.now.columns)) }
{
    if is_tuple(key) {
        return Err(wrong_kind());
    }
    let key = label_key(alloc, 1, key)?;
    let axis = columns_axis(alloc, dict, on, &places_below(alloc, on.columns())?)?;
    labelled(alloc, dict, &axis, &key)
}

// The column of a key of `at`, whose label must stand once.
fn at_columns(
    alloc: Global,
    dict: &TextDict,
    on: &ObjRef<'_>,
    key: &Subscript,
) -> Result<Picked, OpFault>
    requires table { CanSelect dict.now on.now }
    requires shape { on.now.shape ≡ Frame }
    ensures columns { (live : Tables) → IsSettled (subscript_of live) dict.now key.now
        → MakesBy pick_value dict.now result
        (meant.columns_by at (table_value dict.now on.now) (subscript_of live dict.now key.now)) }
    ensures within { IfOk result (PicksBelow (length on.now.columns)) }
{
    let label = whole_key(alloc, 1, key)?;
    let columns = loc_columns(alloc, dict, on, key)?;
    if columns.single {
        Ok(columns)
    } else {
        Err(OpFault::Refused(Code::BadValue(Reason::Repeated(label))))
    }
}

/// The columns that a key picks, by an accessor. Brackets alone are `loc`.
///
/// # Errors
///
/// `WrongKind` of a key of a form that the accessor doesn't take, a tuple and a mask among them, tested first; then
/// `NoKey` of a label that isn't there, `BadValue(Repeated)` of a label of `at` that several columns have, `OutOfRange` of a
/// position, `BadValue(Argument)` of a step of 0. `NoMemory` may come in place of any answer.
pub fn columns_by(
    alloc: Global,
    dict: &TextDict,
    on: &ObjRef<'_>,
    by: Selector,
    key: &Subscript,
) -> Result<Picked, OpFault>
    requires table { CanSelect dict.now on.now }
    requires shape { on.now.shape ≡ Frame }
    ensures columns { (live : Tables) → IsSettled (subscript_of live) dict.now key.now
        → MakesBy pick_value dict.now result (meant.columns_by (accessor_of by)
        (table_value dict.now on.now) (subscript_of live dict.now key.now)) }
    ensures within { IfOk result (PicksBelow (length on.now.columns)) }
{
    match by {
        Selector::Plain => loc_columns(alloc, dict, on, key),
        Selector::Loc => loc_columns(alloc, dict, on, key),
        Selector::Iloc => places_among(alloc, on.columns(), key),
        Selector::At => at_columns(alloc, dict, on, key),
        Selector::Iat => place_among(alloc, on.columns(), key),
    }
}

/// All columns of a table: those of a frame as a slice, and the one of a Series as a single one. `NoMemory` is the only
/// refusal.
#[tactic(auto, using(crate::proofs::SeenKeys::range_below, indexers::proofs::SpanLaws::all_listed))]
pub fn all_columns(alloc: Global, on: &ObjRef<'_>) -> Result<Picked, NoMemory>
    requires { IsWhole on.now }
    ensures places { IfOk result (λ picked. picked.places
        ≡ range_with_len 0 (length on.now.columns)) }
    ensures single { IfOk result (λ picked. picked.single ≡ is_series on.now.shape) }
    ensures sliced { IfOk result (λ picked. (picked.dropped ≡ 0)
        × (is_some picked.span ≡ not picked.single)) }
    ensures within { IfOk result (PicksBelow (length on.now.columns)) }
{
    let count = on.columns();
    let places = places_below(alloc, count)?;
    match on.shape() {
        Shape::Series => Ok(Picked {
            places,
            single: true,
            dropped: 0,
            span: None,
        }),
        Shape::Frame => Ok(Picked {
            places,
            single: false,
            dropped: 0,
            span: Some(Rows {
                start: 0,
                step: 1,
                count,
            }),
        }),
    }
}

/// Whether the key of the columns may be left out: in `loc` and `iloc`, where the key of the rows
/// is no tuple.
pub fn may_stand_alone(by: Selector, key: &Subscript) -> bool
    ensures { (live : Tables) (texts : List OneText) → result
        ≡ meant.may_stand_alone (accessor_of by) (subscript_of live texts key.now) }
{
    match by {
        Selector::At => false,
        Selector::Iat => false,
        _ => !matches!(key, Subscript::Key(Argument::Row(_))),
    }
}

// The rows that two keys of a Series pick as one tuple.
fn rows_by_two(
    alloc: Global,
    store: &Store,
    dict: &TextDict,
    on: &ObjRef<'_>,
    by: Selector,
    first: &Subscript,
    second: &Subscript,
) -> Result<Picked, OpFault>
    requires table { CanSelect dict.now on.now }
    requires settled { IsSettledWorld (world store.now dict.now) }
    requires first { IsKnownSubscript (world store.now dict.now) first.now }
    requires second { IsKnownSubscript (world store.now dict.now) second.now }
    ensures rows { MakesBy pick_value dict.now result (meant.rows_by_two (accessor_of by)
        (table_value dict.now on.now) (subscript_in (world store.now dict.now) first.now)
        (subscript_in (world store.now dict.now) second.now)) }
    ensures within { IfOk result (PicksBelow (length on.now.labels)) }
    ensures left { IfOk result (λ picked. picked.dropped < length on.now.level_names) }
{
    let key = joined_key(alloc, by, on.levels(), first, second)?;
    rows_by(alloc, store, dict, on, by, &key)
}

/// What the keys of an accessor reach: one key on a Series, or two that are one tuple, and one or two on a frame.
#[tactic(auto, using(crate::proofs::Hints::reach_by))]
pub(crate) fn reach_by(
    alloc: Global,
    store: &Store,
    dict: &TextDict,
    on: &ObjRef<'_>,
    by: Selector,
    first: &Subscript,
    second: Option<&Subscript>,
) -> Result<Reach, OpFault>
    requires table { CanSelect dict.now on.now }
    requires settled { IsSettledWorld (world store.now dict.now) }
    requires first { IsKnownSubscript (world store.now dict.now) first.now }
    requires second { IsKnownSecond (world store.now dict.now) second }
    ensures reach { ReachesBy dict.now result (meant.reach_by on.now.shape
        (accessor_of by) (table_value dict.now on.now)
        (subscript_in (world store.now dict.now) first.now)
        (second_in (world store.now dict.now) second.entry)) }
    ensures within { IfOk result (ReachesWithin on.now) }
{
    match (on.shape(), second) {
        (Shape::Series, None) => {
            let rows = rows_within(alloc, store, dict, on, by, first)?;
            let columns = all_columns(alloc, on)?;
            Ok(Reach { rows, columns })
        }
        (Shape::Series, Some(second)) => {
            let rows = Some(rows_by_two(alloc, store, dict, on, by, first, second)?);
            let columns = all_columns(alloc, on)?;
            Ok(Reach { rows, columns })
        }
        (Shape::Frame, None) if may_stand_alone(by, first) => {
            let rows = rows_within(alloc, store, dict, on, by, first)?;
            let columns = all_columns(alloc, on)?;
            Ok(Reach { rows, columns })
        }
        (Shape::Frame, None) => Err(wrong_kind()),
        (Shape::Frame, Some(second)) => {
            let rows = rows_within(alloc, store, dict, on, by, first)?;
            let columns = columns_by(alloc, dict, on, by, second)?;
            Ok(Reach { rows, columns })
        }
    }
}
