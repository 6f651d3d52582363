// The headings of a table that an operator makes.
ghost use Rattle.std.specs.Prelude.{◌≡◌, IfOk};
ghost use Rattle.frame_store.specs.tables.Valid.{IsWhole};
ghost use Rattle.frame_ops.specs.Namings.{headings_by};

use cell_core::{Grid, Label, NoMemory};
use frame_store::{Headings, ObjRef, headings_named, headings_of};
use std::alloc::Global;

/// What the headings of a new table are.
#[derive(Clone, Copy)]
pub(crate) enum Naming {
    /// Those of the table whose columns are operated on.
    Kept,
    /// The name of a Series.
    Name(Option<Label>),
    /// Those of the frame whose columns are operated on, with another name of the columns.
    ColumnsName(Option<Label>),
}

/// The headings of the new table. `NoMemory` is the only refusal.
pub(crate) fn headings_by(
    alloc: Global,
    on: &ObjRef<'_>,
    naming: Naming,
) -> Result<Headings, NoMemory>
    requires { IsWhole on.now }
    ensures { IfOk result (λ made. made ≡ headings_by on.now naming) }
{
    match naming {
        Naming::Kept => headings_of(alloc, on),
        Naming::Name(name) => {
            let mut headings = Headings::new(alloc, on.columns_name());
            headings.push(name)?;
            Ok(headings)
        }
        Naming::ColumnsName(name) => headings_named(alloc, on, name),
    }
}
