// `merge` of a frame.
ghost use Rattle.std.specs.Prelude.{◌≡◌};
ghost use Rattle.cell_core.specs.declared.grid.Shape.TheVariants.{Frame};
ghost use Rattle.frame_labels.specs.method.Calls as meant;
ghost use Rattle.frame_store.specs.Arguments.{object_value, shape_at, IsLiveObject};
ghost use Rattle.frame_store.specs.Objects.{tables};
ghost use Rattle.frame_store.specs.World.{world, arguments_in, IsSettledWorld, AreKnownArguments, Forms};

use crate::merging::merged;
use cell_core::TextDict;
use frame_signatures::{bind, parameters};
use frame_store::{Named, ObjId, OpFault, Store, Value, placed};
use meaning_call::{Method, OtherMethod};
use std::alloc::Global;

/// `merge` of a frame, with these arguments.
///
/// `left.merge(right, how="inner", on=None, validate=None)` answers a new frame of the rows of both frames whose cells
/// in the key columns are equal, NA with NA ("Merge, join, concatenate and compare" in the pandas user guide). The keys
/// are the columns that `on` names, or all whose labels both frames have. `inner` and `left` go through the left rows
/// in order, each with its right rows in order, and `left` keeps a row without any; `right` is `left` with the sides
/// exchanged; `outer` goes through all keys in order. The columns are those of the left, and then those of the right
/// that are no keys; a label that both have, neither of them a key, gets `_x` on the left and `_y` on the right, behind
/// its text. A cell is NA where the row doesn't come from the column's side, and that of a key comes from the side that
/// has the row. The rows are numbered. No object that was there changes.
///
/// # Errors
///
/// In this order: `WrongKind` of arguments that are unknown, missing, too many, given twice or of another
/// form; `BadValue(Argument)` of a `how` or a `validate` that isn't listed; `NoKey` of a label in `on` that no column
/// of the left has, and then of one that no column of the right has; `NoCommon` where there is no `on` and no common
/// label; `BadValue(Repeated)` of a label of a key that several columns have, the left first; `BadValue(KeyKinds)` of
/// keys of different kinds; `Limit` of more than four keys; `BadMerge` of the first key that stands twice on a side on
/// which `validate` lets each stand once, the left first; `Limit`. `NoMemory` may come in place of any answer. After a
/// refusal all objects are as they were.
pub fn merge(
    alloc: Global,
    store: &mut Store,
    dict: &mut TextDict,
    on: ObjId,
    args: &[Named],
) -> Result<Value, OpFault>
    requires live { IsLiveObject (tables store.old) on }
    requires shape { shape_at (tables store.old) on ≡ Frame }
    requires settled { IsSettledWorld (world store.old dict.old) }
    requires arguments { AreKnownArguments (world store.old dict.old) args.now }
    ensures { let w = world store.old dict.old in
        Forms result (meant.merge_call (object_value w.tables w.texts on)
        (arguments_in w args.now)) w (world store.new dict.new) }
{
    let parameters = parameters(Method::Other(OtherMethod::Merge));
    let bound = bind(store, dict, parameters, args)?;
    let table = merged(alloc, store, dict, &bound, on);
    placed(store, dict, table)
}
