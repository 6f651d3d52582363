// Why forms are refused.
ghost use Rattle.std.specs.Prelude.{◌≡◌};
ghost use Rattle.frame_store.specs.declared.fault.OpFault.TheVariants.{NoMemory as OutOfMemory};

use cell_core::{Code, NoMemory};
use std::alloc::{AllocError, AllocFailed};

/// Why a form gives nothing: the fault of the script, or want of memory.
#[derive(Drop)]
pub enum OpFault {
    /// The form is refused for this cause.
    Refused(Code),
    /// Memory was refused.
    NoMemory,
}

impl From<NoMemory> for OpFault {
    ghost from_gives = { λ _ fault. fault ≡ OutOfMemory };

    fn from(_: NoMemory) -> Self {
        OpFault::NoMemory
    }
}

impl From<AllocError> for OpFault {
    ghost from_gives = { λ _ fault. fault ≡ OutOfMemory };

    fn from(_: AllocError) -> Self {
        OpFault::NoMemory
    }
}

impl<T: Drop> From<AllocFailed<T>> for OpFault {
    ghost from_gives = { λ _ fault. fault ≡ OutOfMemory };

    fn from(_: AllocFailed<T>) -> Self {
        OpFault::NoMemory
    }
}
