// Why no rows are picked, or no level is added.
ghost use Rattle.std.specs.Prelude.{◌≡◌};
ghost use Rattle.multi_index.specs.declared.fault.AxisFault.TheVariants.{NoMemory as WantOfMemory};

use cell_core::{NoMemory, Tuple};

/// Why leading labels or a slice pick no rows, or a level isn't added.
#[derive(Drop)]
pub enum AxisFault {
    /// No row has these leading labels, or they bound a slice on several levels that aren't in order.
    NotThere(Tuple),
    /// The bound stands more than once, and the rows aren't in order.
    BoundNotUnique(Tuple),
    /// There are four levels.
    TooManyLevels,
    /// Memory was refused.
    NoMemory,
}

impl From<NoMemory> for AxisFault {
    ghost from_gives = { λ _ fault. fault ≡ WantOfMemory };

    fn from(_: NoMemory) -> AxisFault {
        AxisFault::NoMemory
    }
}
