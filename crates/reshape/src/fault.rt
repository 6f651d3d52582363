// Why labels don't become columns, and columns not one column.
ghost use Rattle.std.specs.Prelude.{◌≡◌};
ghost use Rattle.reshape.specs.declared.fault.ReshapeFault.TheVariants.{NoMemory as WantOfMemory};
ghost use Rattle.reshape.specs.Answers.{fault_of};

use cell_core::{NoMemory, Tuple};
use merge_concat::MergeFault;

/// Why labels don't become columns, or columns not one column.
#[derive(Drop)]
pub enum ReshapeFault {
    /// More rows than one have these labels.
    Duplicates(Tuple),
    /// Two columns are of different kinds.
    MixedKinds,
    /// There are more rows, columns or cells than a table may have.
    TooLarge,
    /// Memory was refused.
    NoMemory,
}

impl From<NoMemory> for ReshapeFault {
    ghost from_gives = { λ _ fault. fault ≡ WantOfMemory };

    fn from(_: NoMemory) -> ReshapeFault {
        ReshapeFault::NoMemory
    }
}

impl From<MergeFault> for ReshapeFault {
    ghost from_gives = { λ other fault. fault ≡ fault_of other };

    fn from(fault: MergeFault) -> ReshapeFault {
        match fault {
            MergeFault::NotOneToOne(_, key) => ReshapeFault::Duplicates(key),
            MergeFault::DuplicateLabels(label) => ReshapeFault::Duplicates(label),
            MergeFault::MixedKinds => ReshapeFault::MixedKinds,
            MergeFault::TooLarge => ReshapeFault::TooLarge,
            MergeFault::NoMemory => ReshapeFault::NoMemory,
        }
    }
}
