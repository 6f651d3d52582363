// Calls behind `groupby` on objects.
ghost use Rattle.std.specs.Prelude.{◌≡◌, Some, IfOk, IfSome};
ghost use Rattle.std.specs.Option.{option_map};
ghost use Rattle.cell_core.specs.declared.grid.Shape.TheVariants.{Frame};
ghost use Rattle.column_core.specs.cells.Cell.{IsLonger};
ghost use Rattle.frame_store.specs.tables.Settled.{IsSettled};
ghost use Rattle.frame_store.specs.tables.Table.{heading_value};
ghost use Rattle.frame_labels.specs.method.Groups as meant;
ghost use Rattle.frame_store.specs.Arguments.{object_value, shape_at, IsLive, IsLiveObject};
ghost use Rattle.frame_store.specs.Objects.{tables, table_at};
ghost use Rattle.frame_store.specs.World.{world, entry_in, argument_in, arguments_in, IsSettledWorld, IsKnownArgument, AreKnownArguments, Forms};
ghost use Rattle.frame_groups.specs.Calls.{call_of};
ghost use Rattle.frame_groups.specs.Grouped.{grouping_seen, values_seen, HasKeys, AreValues};

use crate::by_group::{reduced, sizes};
use crate::by_row::{along_rows, counts};
use crate::calls::{GroupCall, group_call};
use crate::columns::ColumnCall;
use crate::grouping::{Grouping, grouping_of};
use crate::values::{Values, values_of};
use cell_core::{Grid, Label, NoMemory, Shape, TextDict};
use frame_labels::no_attribute;
use frame_store::{Argument, Named, ObjId, OpFault, Store, Value, placed};
use std::alloc::Global;

// The heading of sizes: none where they are a Series.
fn size_heading(dict: &mut TextDict, as_index: bool) -> Result<Option<Label>, NoMemory>
    ensures longer { IsLonger dict.old dict.new }
    ensures heading { IfOk result (λ h. heading_value dict.new h ≡ meant.size_heading as_index) }
    ensures given { IfOk result (IsSettled heading_value dict.new) }
{
    if as_index {
        return Ok(None);
    }
    Ok(Some(Label::Text(dict.intern("size")?)))
}

// An object with the sizes of groups.
fn sizes_placed(
    alloc: Global,
    store: &mut Store,
    dict: &mut TextDict,
    grouping: &Grouping,
    on: ObjId,
) -> Result<Value, OpFault>
    requires live { IsLiveObject (tables store.old) on }
    requires shape { shape_at (tables store.old) on ≡ Frame }
    requires settled { IsSettledWorld (world store.old dict.old) }
    requires keys { HasKeys (table_at (tables store.old) on.0) grouping.now }
    ensures { let t = object_value (tables store.old) dict.old on in
        let g = grouping_seen dict.old grouping.now in
        (named : meant.Values) → Forms result (meant.group_answer t g named meant.size)
        (world store.old dict.old) (world store.new dict.new) }
{
    let heading = size_heading(dict, grouping.as_index)?;
    let table = sizes(alloc, dict, &store.read(on), grouping, heading);
    placed(store, dict, table)
}

// An object with what is made of groups.
fn answer(
    alloc: Global,
    store: &mut Store,
    dict: &mut TextDict,
    grouping: &Grouping,
    values: &Values,
    call: GroupCall,
    on: ObjId,
) -> Result<Value, OpFault>
    requires live { IsLiveObject (tables store.old) on }
    requires shape { shape_at (tables store.old) on ≡ Frame }
    requires settled { IsSettledWorld (world store.old dict.old) }
    requires keys { HasKeys (table_at (tables store.old) on.0) grouping.now }
    requires values { AreValues (table_at (tables store.old) on.0) values.now }
    ensures { let t = object_value (tables store.old) dict.old on in
        let g = grouping_seen dict.old grouping.now in
        let v = values_seen dict.old values.now in
        Forms result (meant.group_answer t g v (call_of call))
        (world store.old dict.old) (world store.new dict.new) }
{
    match call {
        GroupCall::Reduced(op) => {
            let table = reduced(alloc, dict, &store.read(on), grouping, values, op);
            placed(store, dict, table)
        }
        GroupCall::Size => sizes_placed(alloc, store, dict, grouping, on),
        GroupCall::Transformed(op) => {
            let made = ColumnCall::Transformed(op);
            let table = along_rows(alloc, dict, &store.read(on), grouping, values, made);
            placed(store, dict, table)
        }
        GroupCall::Cumsum => {
            let made = ColumnCall::Cumsum;
            let table = along_rows(alloc, dict, &store.read(on), grouping, values, made);
            placed(store, dict, table)
        }
        GroupCall::Cumcount => {
            let table = counts(alloc, dict, &store.read(on), grouping);
            placed(store, dict, table)
        }
    }
}

/// A call behind `groupby`: its arguments, what stands in brackets behind them, the last name and its arguments.
#[derive(Clone, Copy)]
pub struct GroupedCall<'a> {
    /// The arguments of `groupby`.
    pub by: &'a [Named],
    /// What stands in brackets, if they are there.
    pub brackets: Option<&'a Argument>,
    /// The last name.
    pub name: &'a str,
    /// The arguments of the last call.
    pub args: &'a [Named],
}

// A call behind `groupby` of a frame.
fn on_frame(
    alloc: Global,
    store: &mut Store,
    dict: &mut TextDict,
    on: ObjId,
    call: GroupedCall<'_>,
) -> Result<Value, OpFault>
    requires live { IsLiveObject (tables store.old) on }
    requires shape { shape_at (tables store.old) on ≡ Frame }
    requires settled { IsSettledWorld (world store.old dict.old) }
    requires by { AreKnownArguments (world store.old dict.old) call.by.now }
    requires brackets { IfSome call.brackets
        (λ a. IsKnownArgument (world store.old dict.old) a.now) }
    requires arguments { AreKnownArguments (world store.old dict.old) call.args.now }
    ensures { let w = world store.old dict.old in
        let given = option_map (λ a. argument_in w a.now) call.entry.brackets in
        Forms result (meant.grouped_frame (object_value (tables store.old) dict.old on)
        (arguments_in w call.entry.by.now) given call.entry.name.now
        (arguments_in w call.entry.args.now)) w (world store.new dict.new) }
{
    let grouping = grouping_of(alloc, store, dict, call.by, on)?;
    let values = values_of(alloc, store, dict, &grouping.keys, call.brackets, on)?;
    let last = group_call(alloc, store, dict, call.name, call.args)?;
    answer(alloc, store, dict, &grouping, &values, last, on)
}

/// A method behind `groupby` of a frame: `f.groupby(by, ..)[..].name(..)`.
///
/// The answer is a new object whose table is that of its own rows; no other object changes. `sum`, `min`, `max`,
/// `count`, `nunique`, `first` and `last` reduce each group, `size` counts its rows; `cumsum`, `cumcount` and
/// `transform` keep the rows of the frame ("Group by: split-apply-combine" in the pandas user guide).
///
/// # Errors
///
/// In this order: `NoAttribute` where the value has no `groupby`, as a scalar and a Series; `WrongKind` of arguments of
/// `groupby` that are unknown, missing, too many, given twice or of another form; `NoKey` of a label in `by` that no
/// column has, then `BadValue(Repeated)` of one that several columns have; `Limit` of more than four keys that are to
/// be labels; `WrongKind` of brackets of another form than a label or a list of labels, and `NoKey` and
/// `BadValue(Repeated)` of a label in them, as of one in `by`; `NoAttribute` of another last name; `WrongKind` of its
/// arguments, and `BadValue(Argument)` where `transform` is told another name than one of the reductions; `WrongKind`
/// of a column whose kind the call doesn't take; `BadValue(Repeated)` of the label of a key that is a column, where
/// another column of the answer has it too; `Limit`. `NoMemory` may come in place of any answer. After a refusal all
/// objects are as they were.
pub fn method(
    alloc: Global,
    store: &mut Store,
    dict: &mut TextDict,
    on: Value,
    call: GroupedCall<'_>,
) -> Result<Value, OpFault>
    requires live { IsLive (tables store.old) on }
    requires settled { IsSettledWorld (world store.old dict.old) }
    requires by { AreKnownArguments (world store.old dict.old) call.by.now }
    requires brackets { IfSome call.brackets
        (λ a. IsKnownArgument (world store.old dict.old) a.now) }
    requires arguments { AreKnownArguments (world store.old dict.old) call.args.now }
    ensures { let w = world store.old dict.old in
        let given = option_map (λ a. argument_in w a.now) call.entry.brackets in
        Forms result (meant.grouped_result (entry_in w on) (arguments_in w call.entry.by.now) given
        call.entry.name.now (arguments_in w call.entry.args.now)) w (world store.new dict.new) }
{
    let Value::Object(id) = on else {
        return Err(no_attribute(alloc, "groupby"));
    };
    match store.read(id).shape() {
        Shape::Series => Err(no_attribute(alloc, "groupby")),
        Shape::Frame => on_frame(alloc, store, dict, id, call),
    }
}
