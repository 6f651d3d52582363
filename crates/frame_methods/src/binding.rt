// The arguments of a call, bound to the signature of its method.
ghost use Rattle.std.specs.Prelude.{◌≡◌, true, IsSome};
ghost use Rattle.frame_store.specs.tables.Table.{table_value};
ghost use Rattle.meaning_call.specs.Signature.{fits_shape};
ghost use Rattle.frame_store.specs.Arguments.{shape_at};
ghost use Rattle.frame_store.specs.Objects.{tables, table_at};
ghost use Rattle.frame_store.specs.World.{world, arguments_in, AreKnownArguments};
ghost use Rattle.frame_methods.specs.Calls.{Binds};

use cell_core::TextDict;
use frame_signatures::{Bound, bind, parameters};
use frame_store::{Named, ObjId, OpFault, Store};
use meaning_call::Method;

// The arguments as those of a method that the object's shape has, if it takes them.
pub(crate) fn bound_call<'a>(
    store: &Store,
    dict: &TextDict,
    method: Method,
    on: ObjId,
    args: &'a [Named],
) -> Result<Bound<'a>, OpFault>
    requires live { IsSome (tables store.now on.0) }
    requires shape { fits_shape method (shape_at (tables store.now) on) ≡ true }
    requires arguments { AreKnownArguments (world store.now dict.now) args.now }
    ensures { let w = world store.now dict.now in
        Binds w method (arguments_in w args.now) result
        (table_value dict.now (table_at (tables store.now) on.0)) }
{
    Ok(bind(store, dict, parameters(method), args)?)
}
