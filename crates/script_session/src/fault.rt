// What a statement answers.
use cell_core::{Code, NoMemory, Words};
use script_state::EvalFault;

/// What a statement printed.
#[derive(Drop)]
pub struct Outcome {
    /// The text that it printed, which may be empty.
    pub printed: Words,
    /// Whether it set a place of an object that no name stands for.
    pub warned: bool,
}

/// Why a statement was not done.
#[derive(Drop)]
pub enum StepFault {
    /// The statement is refused.
    Refused {
        /// The cause.
        code: Code,
        /// Whether it was to set a place of an object that no name stands for.
        warned: bool,
    },
    /// A file could not be read.
    Input,
    /// Memory was refused.
    NoMemory,
}

impl From<NoMemory> for StepFault {
    ghost use Rattle.std.specs.Prelude.{◌≡◌};
    ghost use Rattle.script_session.specs.declared.fault.StepFault.TheVariants.{NoMemory as OutOfMemory};

    ghost from_gives = { λ _ fault. fault ≡ OutOfMemory };

    fn from(_: NoMemory) -> Self {
        StepFault::NoMemory
    }
}

impl From<EvalFault> for StepFault {
    ghost use Rattle.std.specs.Prelude.{◌≡◌};
    ghost use Rattle.script_session.specs.Faults.{step_fault};

    ghost from_gives = { λ f fault. fault ≡ step_fault f };

    fn from(fault: EvalFault) -> Self {
        match fault {
            EvalFault::Refused(code) => StepFault::Refused {
                code,
                warned: false,
            },
            EvalFault::Input => StepFault::Input,
            EvalFault::NoMemory => StepFault::NoMemory,
        }
    }
}
