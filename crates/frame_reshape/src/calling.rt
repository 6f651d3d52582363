// Calls of methods of another shape on objects.
ghost use Rattle.std.specs.Prelude.{◌≡◌, true, Some};
ghost use Rattle.std.specs.List.{list_any};
ghost use Rattle.column_core.specs.cells.Text.{same_text};
ghost use Rattle.column_core.specs.cells.Cell.{IsLonger};
ghost use Rattle.meaning_call.specs.Binding.{aggregation_names};
ghost use Rattle.group_by.specs.Operations.{reduction_of};
ghost use Rattle.frame_labels.specs.method.Groups as groups;
ghost use Rattle.frame_labels.specs.method.Reshape as meant;
ghost use Rattle.frame_store.specs.Shown.{Makes};
ghost use Rattle.frame_signatures.specs.Bound.{given_in};
ghost use Rattle.frame_reshape.specs.Calls.{IsReshapeCall};
ghost use Rattle.meaning_call.specs.Signature.{fits_shape};
ghost use Rattle.meaning_call.specs.declared.Method.TheVariants.{Reshape};
ghost use Rattle.frame_labels.specs.method.Calls.{reshape_call};
ghost use Rattle.frame_store.specs.Arguments.{object_value, shape_at, IsLiveObject};
ghost use Rattle.frame_store.specs.Objects.{tables};
ghost use Rattle.frame_store.specs.World.{world, arguments_in, IsSettledWorld, AreKnownArguments, Forms};

use crate::melting::{melt, melted_in};
use crate::pivoting::{pivot, pivot_table};
use crate::stacking::stack;
use crate::told::pivoted_in;
use crate::unstacking::unstack;
use cell_core::TextDict;
use frame_signatures::{Bound, arguments, bind, parameters};
use frame_store::{Named, ObjId, OpFault, Store, Table, Value, placed};
use group_by::GroupOp;
use meaning_call::{Method, ReshapeMethod};
use std::alloc::Global;

// What `aggfunc` says; one of the six names is given.
fn reduction_named(name: &str) -> GroupOp
    requires { list_any (same_text name.now) aggregation_names ≡ true }
    ensures { Some (reduction_of result) ≡ groups.reduction_named name.now }
{
    match name {
        "sum" => GroupOp::Sum,
        "min" => GroupOp::Min,
        "max" => GroupOp::Max,
        "count" => GroupOp::Count,
        "first" => GroupOp::First,
        _ => GroupOp::Last,
    }
}

// The table that a method makes of its bound arguments.
fn reshaped(
    alloc: Global,
    store: &Store,
    dict: &mut TextDict,
    method: ReshapeMethod,
    bound: &Bound<'_>,
    on: ObjId,
) -> Result<Table, OpFault>
    requires live { IsLiveObject (tables store.now) on }
    requires shape { fits_shape (Reshape method) (shape_at (tables store.now) on) ≡ true }
    requires settled { IsSettledWorld (world store.now dict.old) }
    requires call { IsReshapeCall (world store.now dict.old) method bound.now }
    ensures longer { IsLonger dict.old dict.new }
    ensures answer { let w = world store.now dict.old in Makes dict.new result
        (meant.reshaped method (given_in w bound.now) (object_value w.tables dict.old on)) }
{
    let source = store.read(on);
    match method {
        ReshapeMethod::Stack => stack(alloc, dict, &source),
        ReshapeMethod::Unstack => {
            let level = bound.scalar_or_none(arguments::UNSTACK_LEVEL);
            unstack(alloc, dict, &source, level)
        }
        ReshapeMethod::Pivot => {
            let columns = arguments::PIVOT_COLUMNS;
            let values = arguments::PIVOT_VALUES;
            let told = pivoted_in(alloc, store, dict, bound, columns, values, on)?;
            pivot(alloc, dict, &source, &told)
        }
        ReshapeMethod::PivotTable => {
            let columns = arguments::PIVOT_TABLE_COLUMNS;
            let values = arguments::PIVOT_TABLE_VALUES;
            let told = pivoted_in(alloc, store, dict, bound, columns, values, on)?;
            let op = reduction_named(bound.text(dict, arguments::PIVOT_TABLE_AGGFUNC));
            pivot_table(alloc, dict, &source, &told, op)
        }
        ReshapeMethod::Melt => {
            let melted = melted_in(alloc, store, dict, bound, on)?;
            melt(alloc, dict, &source, &melted)
        }
    }
}

/// A method of another shape of an object, with these arguments.
///
/// The answer is a new object; no other object changes ("Reshaping and pivot tables" in the pandas user guide). `stack` of
/// a frame gives a Series with the cells of each row, column after column, under the labels of the row and of the column.
/// `unstack(level=-1)` of a Series gives a frame with a row for each tuple of its other levels' labels and a column for each
/// label of the level, both in order; a cell is NA where no row has the labels. `pivot(columns, index, values)` of a frame
/// is the same of the cells in `values` under those in `index` and `columns`. `pivot_table(values, index, columns, aggfunc)`
/// is the same of what `aggfunc` makes of the groups by `index` and `columns`, without missing keys and missing answers.
/// `melt(id_vars=None, value_vars=None)` of a frame gives a frame with a row for each value column and each row: the cells
/// in `id_vars`, the label of the column, and its cell.
///
/// # Errors
///
/// First `WrongKind` of arguments that are unknown, missing, too many, given twice or of another form, and
/// `BadValue(Argument)` of an `aggfunc` that isn't listed. Then, in this order:
///
/// - of `stack`: `WrongKind` of columns of different kinds; `Limit`, also of a frame with four levels.
/// - of `unstack`: `BadValue(Levels)` of one level; the refusals of a level that isn't there; `BadValue(Entry)` of the first
///   labels that two rows have, that of the level last; `Limit`.
/// - of `pivot`: `NoKey` of the first label that no column has, then `BadValue(Repeated)` of one that several columns have,
///   of `index`, `columns` and `values` in turn; `Limit` of more labels than three in `index`; `BadValue(Entry)`; `Limit`.
/// - of `pivot_table`: the refusals of labels as of `pivot`; `WrongKind` of a sum of texts; `Limit`, as of `pivot`.
/// - of `melt`: the refusals of labels as of `pivot`, of `id_vars` and `value_vars` in turn; `WrongKind` of value columns of
///   different kinds, or whose labels are; `Limit`.
///
/// `NoMemory` may come in place of any answer. After a refusal all objects are as they were.
pub fn method(
    alloc: Global,
    store: &mut Store,
    dict: &mut TextDict,
    on: ObjId,
    method: ReshapeMethod,
    args: &[Named],
) -> Result<Value, OpFault>
    requires live { IsLiveObject (tables store.old) on }
    requires shape { fits_shape (Reshape method) (shape_at (tables store.old) on) ≡ true }
    requires settled { IsSettledWorld (world store.old dict.old) }
    requires arguments { AreKnownArguments (world store.old dict.old) args.now }
    ensures { let w = world store.old dict.old in
        Forms result (reshape_call method (object_value w.tables w.texts on)
        (arguments_in w args.now)) w (world store.new dict.new) }
{
    let bound = bind(store, dict, parameters(Method::Reshape(method)), args)?;
    let table = reshaped(alloc, store, dict, method, &bound, on);
    placed(store, dict, table)
}
