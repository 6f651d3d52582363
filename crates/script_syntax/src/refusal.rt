// Why tokens were not parsed.
ghost use Rattle.std.specs.Prelude.{◌≡◌};
ghost use Rattle.script_syntax.specs.declared.refusal.Refusal.TheVariants as refusal;

use cell_core::NoMemory;
use std::alloc::{AllocError, AllocFailed};

/// Why no statement was read.
#[derive(Clone, Copy, Debug, PartialEq, Eq)]
pub enum Refusal {
    /// The tokens are no statement of the language.
    Syntax,
    /// Memory was refused.
    NoMemory,
}

impl From<NoMemory> for Refusal {
    ghost from_gives = { λ _ e. e ≡ refusal.NoMemory };

    fn from(_: NoMemory) -> Refusal {
        Refusal::NoMemory
    }
}

impl From<AllocError> for Refusal {
    ghost from_gives = { λ _ e. e ≡ refusal.NoMemory };

    fn from(_: AllocError) -> Refusal {
        Refusal::NoMemory
    }
}

impl<T: Drop> From<AllocFailed<T>> for Refusal {
    ghost from_gives = { λ _ e. e ≡ refusal.NoMemory };

    fn from(_: AllocFailed<T>) -> Refusal {
        Refusal::NoMemory
    }
}
