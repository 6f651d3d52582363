// Why a text gave no mask.
ghost use Rattle.std.specs.Prelude.{◌≡◌};
ghost use Rattle.frame_query.specs.declared.fault.QueryFault.TheVariants as fault;

use cell_core::NoMemory;
use std::alloc::{AllocError, AllocFailed};

/// Why a text gave no mask.
#[derive(Clone, Copy, Debug, PartialEq, Eq)]
pub enum QueryFault {
    /// The text is no query, or its mask would be deeper than a form of a script may be.
    NotQuery,
    /// Memory was refused.
    NoMemory,
}

impl From<NoMemory> for QueryFault {
    ghost from_gives = { λ _ e. e ≡ fault.NoMemory };

    fn from(_: NoMemory) -> QueryFault {
        QueryFault::NoMemory
    }
}

impl From<AllocError> for QueryFault {
    ghost from_gives = { λ _ e. e ≡ fault.NoMemory };

    fn from(_: AllocError) -> QueryFault {
        QueryFault::NoMemory
    }
}

impl<T: Drop> From<AllocFailed<T>> for QueryFault {
    ghost from_gives = { λ _ e. e ≡ fault.NoMemory };

    fn from(_: AllocFailed<T>) -> QueryFault {
        QueryFault::NoMemory
    }
}
