// What an axis answers for labels, with its fault as the fault of a key.
ghost use Rattle.std.specs.Prelude.{◌≡◌, ◌≢◌, length, IfSome, IfOk};
ghost use Rattle.std.specs.Option.{option_copied};
ghost use Rattle.cell_core.specs.Grids.{AreRowsBelow};
ghost use Rattle.multi_index.specs.declared.fault.AxisFault.TheVariants.{TooManyLevels};
ghost use Rattle.multi_index.specs.Axes.{AreLeading};
ghost use Rattle.multi_index.specs.Picks.{leading_rows, leading_slice};
ghost use Rattle.index_core.specs.pick.Rows.{rows_of};
ghost use Rattle.indexers.specs.Picks.{PicksBy, as_it_is, IsSameFault};

use crate::keys::KeyFault;
use cell_core::{Places, Rows, TextDict, Tuple};
use multi_index::{Axis, AxisFault};
use std::alloc::Global;

// Why a key picks no rows, where an axis says why.
fn key_fault(fault: AxisFault) -> KeyFault
    requires { fault ≢ TooManyLevels }
    ensures { IsSameFault fault result }
{
    match fault {
        AxisFault::NotThere(key) => KeyFault::NotThere(key),
        AxisFault::BoundNotUnique(key) => KeyFault::BoundNotUnique(key),
        AxisFault::TooManyLevels => unreachable!(),
        AxisFault::NoMemory => KeyFault::NoMemory,
    }
}

// The rows of leading labels.
pub(crate) fn leading_places(alloc: Global, axis: &Axis, labels: &Tuple) -> Result<Places, KeyFault>
    requires { AreLeading (length axis.now.names) labels.now }
    ensures { PicksBy as_it_is result (leading_rows axis.now labels.now) }
{
    match axis.places(alloc, labels) {
        Ok(places) => Ok(places),
        Err(fault) => Err(key_fault(fault)),
    }
}

// The rows of a slice by leading labels.
pub(crate) fn leading_span(
    dict: &TextDict,
    axis: &Axis,
    from: Option<&Tuple>,
    to: Option<&Tuple>,
) -> Result<Rows, KeyFault>
    requires from { IfSome from (λ bound. AreLeading (length axis.now.names) bound.now) }
    requires to { IfSome to (λ bound. AreLeading (length axis.now.names) bound.now) }
    ensures rows { PicksBy rows_of result (leading_slice dict.now axis.now
        (option_copied from.entry) (option_copied to.entry)) }
    ensures below { IfOk result (λ rows. AreRowsBelow rows (length axis.now.tuples)) }
{
    match axis.slice_places(dict, from, to) {
        Ok(rows) => Ok(rows),
        Err(fault) => Err(key_fault(fault)),
    }
}
