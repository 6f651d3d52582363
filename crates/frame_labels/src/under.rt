// Other names of the levels, and all of a table under another axis.
ghost use Rattle.std.specs.Prelude.{◌≡◌, length, IfOk};
ghost use Rattle.frame_store.specs.tables.Change.{with_labels};
ghost use Rattle.frame_store.specs.tables.Valid.{IsWhole};
ghost use Rattle.frame_store.specs.Derivations.{derived_table, CanDerive};

use cell_core::{Grid, Label, NoMemory};
use frame_select::places_below;
use frame_store::{Derivation, ObjRef, headings_of};
use multi_index::Axis;
use std::alloc::Global;

/// The axis with these names of its levels. Takes no memory.
pub fn named_axis(axis: Axis, names: &[Option<Label>]) -> Axis
    requires { length names.now ≡ length axis.names }
    ensures { result ≡ record { tuples = axis.tuples; names = names.now } }
{
    let mut named = axis;
    for level in 0..names.len() {
        named.set_name(level, names[level]);
    }
    named
}

// All of the table under another axis, with a tuple for each row.
#[tactic(auto, using(crate::proofs::Hints::under_axis))]
pub(crate) fn under_axis(alloc: Global, on: &ObjRef<'_>, axis: Axis) -> Result<Derivation, NoMemory>
    requires whole { IsWhole on.now }
    requires rows { length axis.tuples ≡ length on.now.labels }
    ensures fits { IfOk result (CanDerive on.now) }
    ensures table { IfOk result (λ made. derived_table on.now made
        ≡ with_labels on.now axis.tuples axis.names) }
{
    let columns = places_below(alloc, on.columns())?;
    let headings = headings_of(alloc, on)?;
    Ok(Derivation {
        shape: on.shape(),
        axis,
        headings,
        columns,
    })
}
