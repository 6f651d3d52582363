// Why no rows are picked.
ghost use Rattle.std.specs.Prelude.{◌≡◌};
ghost use Rattle.index_core.specs.declared.fault.IndexFault.TheVariants.{NoMemory as WantOfMemory};

use cell_core::{Label, NoMemory};

/// Why a label or a slice picks no rows.
#[derive(Clone, Copy, Debug, PartialEq, Eq)]
pub enum IndexFault {
    /// The label isn't there.
    NotThere(Label),
    /// The bound stands more than once, and the labels aren't sorted.
    BoundNotUnique(Label),
    /// Memory was refused.
    NoMemory,
}

impl From<NoMemory> for IndexFault {
    ghost from_gives = { λ _ fault. fault ≡ WantOfMemory };

    fn from(_: NoMemory) -> IndexFault {
        IndexFault::NoMemory
    }
}
