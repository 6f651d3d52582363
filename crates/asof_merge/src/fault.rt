// Why no rows are matched.
ghost use Rattle.std.specs.Prelude.{◌≡◌};
ghost use Rattle.asof_merge.specs.declared.fault.AsofFault.TheVariants.{NoMemory as WantOfMemory};

use cell_core::{NoMemory, Side};

/// Why no rows are matched.
#[derive(Drop)]
pub enum AsofFault {
    /// The key of this row of this side is missing, or less than the one before it.
    Unsorted(Side, usize),
    /// Memory was refused.
    NoMemory,
}

impl From<NoMemory> for AsofFault {
    ghost from_gives = { λ _ fault. fault ≡ WantOfMemory };

    fn from(_: NoMemory) -> AsofFault {
        AsofFault::NoMemory
    }
}
