// The kinds of columns that a call takes.
ghost use Rattle.std.specs.Prelude.{◌≡◌};
ghost use Rattle.std.specs.List.{list_all};
ghost use Rattle.frame_store.specs.Parts.{AreColumnsOf};
ghost use Rattle.frame_groups.specs.Columns.{takes, takes_at};

use crate::columns::ColumnCall;
use cell_core::{Grid, Kind, Places};
use frame_store::ObjRef;
use group_by::GroupOp;

// Whether a call takes a kind: texts have no sum.
fn takes(call: ColumnCall, kind: Kind) -> bool
    ensures { result ≡ takes call kind }
{
    match kind {
        Kind::Text => match call {
            ColumnCall::Reduced(op) | ColumnCall::Transformed(op) => !matches!(op, GroupOp::Sum),
            ColumnCall::Cumsum => false,
        },
        Kind::Int64 | Kind::Boolean => true,
    }
}

// Whether a call takes each of these columns.
pub(crate) fn all_taken(call: ColumnCall, on: &ObjRef<'_>, places: &Places) -> bool
    requires { AreColumnsOf on.now places.now }
    ensures { result ≡ list_all (takes_at call on.now) places.now }
{
    for k in 0..places.len() {
        if !takes(call, on.kind(*places.at(k))) {
            return false;
        }
    }
    true
}
