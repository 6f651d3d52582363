// Why an expression has no value.
ghost use Rattle.std.specs.Prelude.{◌≡◌};
ghost use Rattle.script_state.specs.Faults.{evaluated};

use cell_core::{Code, NoMemory};
use frame_store::{OpFault, Value};

/// Why an expression has no value.
#[derive(Drop)]
pub enum EvalFault {
    /// It is refused, by this cause.
    Refused(Code),
    /// A file could not be read.
    Input,
    /// Memory was refused.
    NoMemory,
}

impl From<NoMemory> for EvalFault {
    ghost use Rattle.std.specs.Prelude.{◌≡◌};
    ghost use Rattle.script_state.specs.declared.fault.EvalFault.TheVariants.{NoMemory as OutOfMemory};

    ghost from_gives = { λ _ fault. fault ≡ OutOfMemory };

    fn from(_: NoMemory) -> Self {
        EvalFault::NoMemory
    }
}

impl From<OpFault> for EvalFault {
    ghost use Rattle.std.specs.Prelude.{◌≡◌};
    ghost use Rattle.script_state.specs.Faults.{eval_fault};

    ghost from_gives = { λ f fault. fault ≡ eval_fault f };

    fn from(fault: OpFault) -> Self {
        match fault {
            OpFault::Refused(code) => EvalFault::Refused(code),
            OpFault::NoMemory => EvalFault::NoMemory,
        }
    }
}

/// What a form answers, as an evaluation answers it.
pub fn evaluated(made: Result<Value, OpFault>) -> Result<Value, EvalFault>
    ensures { result ≡ evaluated made }
{
    Ok(made?)
}
