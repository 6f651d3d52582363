// Why rows aren't joined, and columns or labels aren't put together.
ghost use Rattle.std.specs.Prelude.{◌≡◌};
ghost use Rattle.merge_concat.specs.declared.fault.MergeFault.TheVariants.{NoMemory as WantOfMemory};

use cell_core::{NoMemory, Side, Tuple};

/// Why rows of two sides aren't joined, or columns and labels not put together.
#[derive(Drop)]
pub enum MergeFault {
    /// A key stands more than once on this side, where each may stand once.
    NotOneToOne(Side, Tuple),
    /// A label stands more than once on an axis where each may stand once.
    DuplicateLabels(Tuple),
    /// Two columns are of different kinds.
    MixedKinds,
    /// There are more rows or cells than a table may have rows, 2^26.
    TooLarge,
    /// Memory was refused.
    NoMemory,
}

impl From<NoMemory> for MergeFault {
    ghost from_gives = { λ _ fault. fault ≡ WantOfMemory };

    fn from(_: NoMemory) -> MergeFault {
        MergeFault::NoMemory
    }
}
