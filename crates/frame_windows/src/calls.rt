// The last call: what is made of the cells of a window.
ghost use Rattle.std.specs.Prelude.{◌≡◌};
ghost use Rattle.std.specs.Option.{option_map};
ghost use Rattle.frame_labels.specs.method.Groups.{without_arguments};
ghost use Rattle.frame_labels.specs.method.Windows as meant;
ghost use Rattle.frame_methods.specs.frame_parts.Makes.{MakesBy};
ghost use Rattle.frame_methods.specs.nullable_array.Folds.{cumulation_of};
ghost use Rattle.frame_store.specs.World.{world, arguments_in, AreKnownArguments};
ghost use Rattle.frame_windows.specs.Windows.{call_seen};

use cell_core::TextDict;
use frame_labels::without_arguments;
use frame_store::{Named, OpFault, Store};
use rolling::Cumulation;
use std::alloc::Global;

// What a name means behind windows.
fn call_named(name: &str) -> Option<Cumulation>
    ensures { option_map cumulation_of result ≡ meant.window_call name.now }
{
    match name {
        "sum" => Some(Cumulation::Sum),
        "min" => Some(Cumulation::Min),
        "max" => Some(Cumulation::Max),
        _ => None,
    }
}

// The last call, of this name and with these arguments, of which it takes none.
pub(crate) fn window_call(
    alloc: Global,
    store: &Store,
    dict: &TextDict,
    name: &str,
    args: &[Named],
) -> Result<Cumulation, OpFault>
    requires { AreKnownArguments (world store.now dict.now) args.now }
    ensures { let gs = arguments_in (world store.now dict.now) args.now in
        MakesBy call_seen dict.now result
        (without_arguments (meant.window_call name.now) name.now gs) }
{
    without_arguments(alloc, store, dict, call_named(name), name, args)
}
