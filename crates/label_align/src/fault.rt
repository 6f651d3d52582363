// Why rows don't meet.
ghost use Rattle.std.specs.Prelude.{◌≡◌};
ghost use Rattle.label_align.specs.declared.fault.AlignFault.TheVariants.{NoMemory as WantOfMemory};

use cell_core::{NoMemory, Tuple};

/// Why rows of two sides don't meet.
#[derive(Drop)]
pub enum AlignFault {
    /// A tuple stands more than once where each may stand once.
    DuplicateLabels(Tuple),
    /// There are more rows than a table may have, 2^26.
    TooLarge,
    /// Memory was refused.
    NoMemory,
}

impl From<NoMemory> for AlignFault {
    ghost from_gives = { λ _ fault. fault ≡ WantOfMemory };

    fn from(_: NoMemory) -> AlignFault {
        AlignFault::NoMemory
    }
}
