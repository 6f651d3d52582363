// What methods of objects answer, by what they make.
ghost use Rattle.std.specs.Prelude.{◌≡◌, true, List, IsSome, Result, IfOk};
ghost use Rattle.column_core.specs.cells.Text.{Text as OneText};
ghost use Rattle.column_core.specs.cells.Cell.{IsLonger};
ghost use Rattle.column_core.specs.cells.Fault.{FaultValue};
ghost use Rattle.frame_store.specs.tables.Settled.{IsSettled};
ghost use Rattle.frame_store.specs.tables.Value.{Entry};
ghost use Rattle.meaning_call.specs.declared.Method.TheVariants.{Columns, Summary, Rows, Levels, Labels, Table as Whole};
ghost use Rattle.meaning_call.specs.Signature.{fits_shape};
ghost use Rattle.frame_parts.specs.Makes.{MakesBy};
ghost use Rattle.frame_store.specs.Arguments.{object_value, shape_at};
ghost use Rattle.frame_store.specs.Objects.{tables};
ghost use Rattle.frame_store.specs.Shown.{Makes};
ghost use Rattle.frame_store.specs.World.{world, IsSettledWorld, AreKnownArguments, Forms};
ghost use Rattle.frame_methods.specs.Calls.{answer_in, IsCall, FormsBound, FormsCall};
ghost use Rattle.frame_methods.specs.Made.{made_value};

use crate::binding::bound_call;
use crate::column_ops::columns_answer;
use crate::csv::to_csv;
use crate::duplicates::duplicated;
use crate::made::Made;
use crate::renaming::{rename_frame, rename_series, to_frame};
use crate::rows::{dropna, head, tail};
use crate::sorts::{sort_index, sort_values};
use crate::summaries::{summarize, summary_of};
use cell_core::{Grid, TextDict};
use frame_labels::{
    drop_columns, drop_level, level_names, named_places, reindex, rename_axis, renumber,
    reset_levels, set_index, subset_places, swap_levels, xs,
};
use frame_parts::name_of;
use frame_select::{copied, places_below};
use frame_signatures::{Bound, arguments};
use frame_store::{Named, ObjId, OpFault, Store, Table, Value, derived, derived_behind, placed};
use meaning_call::{
    ColumnMethod, LabelMethod, LevelMethod, Method, RowMethod, SummaryMethod, TableMethod,
};
use std::alloc::Global;

// The answer for what a method made: a scalar, or a new object.
fn answer_made(
    store: &mut Store,
    dict: &TextDict,
    made: Result<Made, OpFault>,
) -> Result<Value, OpFault>
    requires { IfOk made (IsSettled made_value dict.now) }
    ensures { (earlier : List OneText) (meant : Result Entry FaultValue) → IsLonger earlier dict.now
        → IsSettledWorld (world store.old earlier) → MakesBy made_value dict.now made meant
        → Forms result meant (world store.old earlier) (world store.new dict.now) }
{
    match made? {
        Made::Scalar(cell) => Ok(Value::Scalar(cell)),
        Made::Table(table) => placed(store, dict, Ok(table)),
    }
}

// The table that a method makes of rows.
#[tactic(auto, using(frame_select::proofs::PickedLaws::places_inside))]
fn rows_made(
    alloc: Global,
    store: &Store,
    dict: &TextDict,
    method: RowMethod,
    bound: &Bound<'_>,
    on: ObjId,
) -> Result<Table, OpFault>
    requires live { IsSome (tables store.now on.0) }
    requires settled { IsSettledWorld (world store.now dict.now) }
    requires call { IsCall (world store.now dict.now) (Rows method) bound.now
        (shape_at (tables store.now) on) }
    ensures { Makes dict.now result (answer_in (world store.now dict.now) (Rows method)
        bound.now (object_value (tables store.now) dict.now on)) }
{
    let source = store.read(on);
    match method {
        RowMethod::Dropna => dropna(alloc, &source),
        RowMethod::DuplicatedSeries => {
            let places = places_below(alloc, source.columns())?;
            duplicated(alloc, dict, &source, &places)
        }
        RowMethod::DuplicatedFrame => {
            let places = subset_places(alloc, store, dict, bound, on)?;
            duplicated(alloc, dict, &source, &places)
        }
        RowMethod::SortValuesSeries => {
            let places = places_below(alloc, source.columns())?;
            sort_values(
                alloc,
                dict,
                &source,
                &places,
                bound.truth(arguments::SORT_ASCENDING),
            )
        }
        RowMethod::SortValuesFrame => {
            let ascending = bound.truth(arguments::SORT_FRAME_ASCENDING);
            let places = named_places(alloc, store, dict, bound, on)?;
            sort_values(alloc, dict, &source, &places, ascending)
        }
        RowMethod::SortIndex => {
            sort_index(alloc, dict, &source, bound.truth(arguments::SORT_ASCENDING))
        },
    }
}

// The answer of a method of the levels of the rows.
#[tactic(auto, using(frame_store::proofs::Settling::longer_self))]
fn levels_answer(
    alloc: Global,
    store: &mut Store,
    dict: &mut TextDict,
    method: LevelMethod,
    bound: &Bound<'_>,
    on: ObjId,
) -> Result<Value, OpFault>
    requires live { IsSome (tables store.old on.0) }
    requires settled { IsSettledWorld (world store.old dict.old) }
    requires call { IsCall (world store.old dict.old) (Levels method) bound.now
        (shape_at (tables store.old) on) }
    ensures { FormsBound (Levels method) on bound.now result
        (world store.old dict.old) (world store.new dict.new) }
{
    let source = store.read(on);
    match method {
        LevelMethod::RenameAxis => {
            let names = level_names(alloc, bound)?;
            let made = rename_axis(alloc, &source, names.as_slice());
            derived(store, dict, on, made)
        }
        LevelMethod::SetIndex => {
            let places = named_places(alloc, store, dict, bound, on)?;
            let made = set_index(alloc, dict, &source, &places);
            derived(store, dict, on, made)
        }
        LevelMethod::ResetIndex => {
            if bound.truth(arguments::RESET_INDEX_DROP) {
                let made = renumber(alloc, &source);
                derived(store, dict, on, made)
            } else {
                let made = reset_levels(alloc, dict, &source);
                derived_behind(store, dict, on, made)
            }
        }
        LevelMethod::Droplevel => {
            let level = bound.scalar_or_none(arguments::DROPLEVEL_LEVEL);
            let made = drop_level(alloc, dict, &source, level);
            derived(store, dict, on, made)
        }
        LevelMethod::Swaplevel => {
            let first = bound.scalar_or_none(arguments::SWAPLEVEL_I);
            let second = bound.scalar_or_none(arguments::SWAPLEVEL_J);
            let made = swap_levels(alloc, dict, &source, first, second);
            derived(store, dict, on, made)
        }
    }
}

// The table that a method makes of the rows, or of the columns, that labels name.
#[tactic(auto, using(crate::proofs::ShapeLaws::reindex_of_frame))]
fn labels_made(
    alloc: Global,
    store: &Store,
    dict: &TextDict,
    method: LabelMethod,
    bound: &Bound<'_>,
    on: ObjId,
) -> Result<Table, OpFault>
    requires live { IsSome (tables store.now on.0) }
    requires settled { IsSettledWorld (world store.now dict.now) }
    requires call { IsCall (world store.now dict.now) (Labels method) bound.now
        (shape_at (tables store.now) on) }
    ensures { Makes dict.now result (answer_in (world store.now dict.now) (Labels method)
        bound.now (object_value (tables store.now) dict.now on)) }
{
    match method {
        LabelMethod::ReindexSeries => {
            let rows = bound.list_or_none(arguments::REINDEX_SERIES_INDEX);
            reindex(alloc, store, dict, rows, None, on)
        }
        LabelMethod::ReindexFrame => {
            let rows = bound.list_or_none(arguments::REINDEX_FRAME_INDEX);
            let columns = bound.list_or_none(arguments::REINDEX_FRAME_COLUMNS);
            reindex(alloc, store, dict, rows, columns, on)
        }
        LabelMethod::Xs => {
            let key = bound.scalar(arguments::XS_KEY);
            let level = bound.scalar_or_none(arguments::XS_LEVEL);
            xs(alloc, dict, &store.read(on), key, level)
        }
    }
}

// The answer of a method of the whole table.
#[tactic(auto, using(crate::proofs::Hints::table_answer))]
fn table_answer(
    alloc: Global,
    store: &mut Store,
    dict: &mut TextDict,
    method: TableMethod,
    bound: &Bound<'_>,
    on: ObjId,
) -> Result<Value, OpFault>
    requires live { IsSome (tables store.old on.0) }
    requires settled { IsSettledWorld (world store.old dict.old) }
    requires call { IsCall (world store.old dict.old) (Whole method) bound.now
        (shape_at (tables store.old) on) }
    ensures { FormsBound (Whole method) on bound.now result
        (world store.old dict.old) (world store.new dict.new) }
{
    match method {
        TableMethod::Copy => copied(alloc, store, dict, on),
        TableMethod::Head => head(alloc, store, on, bound.whole(arguments::HEAD_N)),
        TableMethod::Tail => tail(alloc, store, on, bound.whole(arguments::HEAD_N)),
        TableMethod::RenameSeries => {
            let name = name_of(bound.scalar_or_none(arguments::RENAME_SERIES_NAME));
            rename_series(alloc, store, dict, name, on)
        }
        TableMethod::RenameFrame => {
            let pairs = bound.dict(arguments::RENAME_FRAME_COLUMNS);
            rename_frame(alloc, store, dict, pairs, on)
        }
        TableMethod::ToFrame => to_frame(alloc, store, dict, on),
        TableMethod::DropColumns => drop_columns(alloc, store, dict, bound, on),
        TableMethod::ToCsv => {
            let text = to_csv(alloc, store, dict, bound.truth(arguments::TO_CSV_INDEX), on);
            answer_made(store, dict, text)
        }
    }
}

/// What a method that makes new columns answers, with these arguments: a new object.
///
/// # Errors
///
/// In this order: `WrongKind` of arguments that are unknown, missing, too many, given twice or of a form that the
/// method doesn't take; `BadValue(Argument)` of a value that isn't listed; the first column's refusal; `Limit`.
/// `NoMemory` may come in place of any answer. After a refusal all objects are as they were.
pub fn column_method(
    alloc: Global,
    store: &mut Store,
    dict: &mut TextDict,
    on: ObjId,
    method: ColumnMethod,
    args: &[Named],
) -> Result<Value, OpFault>
    requires live { IsSome (tables store.old on.0) }
    requires shape { fits_shape (Columns method) (shape_at (tables store.old) on) ≡ true }
    requires settled { IsSettledWorld (world store.old dict.old) }
    requires arguments { AreKnownArguments (world store.old dict.old) args.now }
    ensures { FormsCall (Columns method) on args.now result
        (world store.old dict.old) (world store.new dict.new) }
{
    let bound = bound_call(store, dict, Method::Columns(method), on, args)?;
    columns_answer(alloc, store, dict, method, &bound, on)
}

/// What a method that makes one cell of each column answers, with these arguments: a scalar for a Series, and a
/// new object for a frame.
///
/// # Errors
///
/// Those of the arguments, as of [`column_method`]; the method's own; `Limit`. `NoMemory` may come in place of any
/// answer. After a refusal all objects are as they were.
pub fn summary_method(
    alloc: Global,
    store: &mut Store,
    dict: &mut TextDict,
    on: ObjId,
    method: SummaryMethod,
    args: &[Named],
) -> Result<Value, OpFault>
    requires live { IsSome (tables store.old on.0) }
    requires shape { fits_shape (Summary method) (shape_at (tables store.old) on) ≡ true }
    requires settled { IsSettledWorld (world store.old dict.old) }
    requires arguments { AreKnownArguments (world store.old dict.old) args.now }
    ensures { FormsCall (Summary method) on args.now result
        (world store.old dict.old) (world store.new dict.new) }
{
    let _bound = bound_call(store, dict, Method::Summary(method), on, args)?;
    let made = summarize(alloc, dict, summary_of(method), &store.read(on));
    answer_made(store, dict, made)
}

/// What a method that takes rows, tells them apart or puts them in order answers, with these arguments: a new object.
///
/// # Errors
///
/// Those of the arguments, as of [`column_method`]; the method's own; `Limit`. `NoMemory` may come in place of any
/// answer. After a refusal all objects are as they were.
pub fn row_method(
    alloc: Global,
    store: &mut Store,
    dict: &mut TextDict,
    on: ObjId,
    method: RowMethod,
    args: &[Named],
) -> Result<Value, OpFault>
    requires live { IsSome (tables store.old on.0) }
    requires shape { fits_shape (Rows method) (shape_at (tables store.old) on) ≡ true }
    requires settled { IsSettledWorld (world store.old dict.old) }
    requires arguments { AreKnownArguments (world store.old dict.old) args.now }
    ensures { FormsCall (Rows method) on args.now result
        (world store.old dict.old) (world store.new dict.new) }
{
    let bound = bound_call(store, dict, Method::Rows(method), on, args)?;
    let table = rows_made(alloc, store, dict, method, &bound, on);
    placed(store, dict, table)
}

/// What a method of the levels of the rows answers, with these arguments: a new object, which shares the cells of
/// the object; the labels that `reset_index` puts before them are cells of its own.
///
/// # Errors
///
/// Those of the arguments, as of [`column_method`]; the method's own; `Limit`. `NoMemory` may come in place of any
/// answer. After a refusal all objects are as they were.
pub fn level_method(
    alloc: Global,
    store: &mut Store,
    dict: &mut TextDict,
    on: ObjId,
    method: LevelMethod,
    args: &[Named],
) -> Result<Value, OpFault>
    requires live { IsSome (tables store.old on.0) }
    requires shape { fits_shape (Levels method) (shape_at (tables store.old) on) ≡ true }
    requires settled { IsSettledWorld (world store.old dict.old) }
    requires arguments { AreKnownArguments (world store.old dict.old) args.now }
    ensures { FormsCall (Levels method) on args.now result
        (world store.old dict.old) (world store.new dict.new) }
{
    let bound = bound_call(store, dict, Method::Levels(method), on, args)?;
    levels_answer(alloc, store, dict, method, &bound, on)
}

/// What a method of the rows, or of the columns, that labels name answers, with these arguments: a new object.
///
/// # Errors
///
/// Those of the arguments, as of [`column_method`]; the method's own; `Limit`. `NoMemory` may come in place of any
/// answer. After a refusal all objects are as they were.
pub fn label_method(
    alloc: Global,
    store: &mut Store,
    dict: &mut TextDict,
    on: ObjId,
    method: LabelMethod,
    args: &[Named],
) -> Result<Value, OpFault>
    requires live { IsSome (tables store.old on.0) }
    requires shape { fits_shape (Labels method) (shape_at (tables store.old) on) ≡ true }
    requires settled { IsSettledWorld (world store.old dict.old) }
    requires arguments { AreKnownArguments (world store.old dict.old) args.now }
    ensures { FormsCall (Labels method) on args.now result
        (world store.old dict.old) (world store.new dict.new) }
{
    let bound = bound_call(store, dict, Method::Labels(method), on, args)?;
    let table = labels_made(alloc, store, dict, method, &bound, on);
    placed(store, dict, table)
}

/// What a method of the whole table answers, with these arguments: a new object, which shares the cells of the
/// object, or for `to_csv` a text, to which the dictionary gives a number.
///
/// # Errors
///
/// Those of the arguments, as of [`column_method`]; the method's own; `Limit`. `NoMemory` may come in place of any
/// answer. After a refusal all objects are as they were.
pub fn table_method(
    alloc: Global,
    store: &mut Store,
    dict: &mut TextDict,
    on: ObjId,
    method: TableMethod,
    args: &[Named],
) -> Result<Value, OpFault>
    requires live { IsSome (tables store.old on.0) }
    requires shape { fits_shape (Whole method) (shape_at (tables store.old) on) ≡ true }
    requires settled { IsSettledWorld (world store.old dict.old) }
    requires arguments { AreKnownArguments (world store.old dict.old) args.now }
    ensures { FormsCall (Whole method) on args.now result
        (world store.old dict.old) (world store.new dict.new) }
{
    let bound = bound_call(store, dict, Method::Table(method), on, args)?;
    table_answer(alloc, store, dict, method, &bound, on)
}
