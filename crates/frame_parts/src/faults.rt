// What a kernel or a join answers, as a part of a form.
ghost use Rattle.std.specs.Prelude.{◌≡◌};
ghost use Rattle.cell_core.specs.declared.code.Code.TheVariants as code;
ghost use Rattle.frame_store.specs.declared.fault.OpFault.TheVariants.{Refused};
ghost use Rattle.frame_parts.specs.Faults.{refusal_of, align_refusal, column_result, block_result};

use cell_core::{Code, Reason};
use column_core::{Block, Column};
use frame_store::OpFault;
use label_align::AlignFault;
use nullable_array::ArrayFault;

/// The refusal of a form or a kind that isn't taken. Takes no memory.
pub fn wrong_kind() -> OpFault
    ensures { result ≡ Refused code.WrongKind }
{
    OpFault::Refused(Code::WrongKind)
}

/// A kernel's refusal as that of a form: `WrongKind`, `ZeroDivide`, `BadValue(Cast)` or `NoMemory`.
pub fn refusal_of(fault: ArrayFault) -> OpFault
    ensures { result ≡ refusal_of fault }
{
    match fault {
        ArrayFault::KindMismatch => OpFault::Refused(Code::WrongKind),
        ArrayFault::ZeroDivision(_) => OpFault::Refused(Code::ZeroDivide),
        ArrayFault::NotCast(_) => OpFault::Refused(Code::BadValue(Reason::Cast)),
        ArrayFault::NoMemory => OpFault::NoMemory,
    }
}

/// Why labels aren't joined, as the refusal of a form: `BadValue(Repeated)`, `Limit` or `NoMemory`. Takes no memory.
pub fn align_refusal(fault: AlignFault) -> OpFault
    ensures { result ≡ align_refusal fault }
{
    match fault {
        AlignFault::DuplicateLabels(tuple) => {
            OpFault::Refused(Code::BadValue(Reason::Repeated(tuple)))
        }
        AlignFault::TooLarge => OpFault::Refused(Code::Limit),
        AlignFault::NoMemory => OpFault::NoMemory,
    }
}

/// The column that a kernel made, or its refusal as that of a form. Takes no memory.
pub fn column_of(made: Result<Column, ArrayFault>) -> Result<Column, OpFault>
    ensures { result ≡ column_result made }
{
    match made {
        Ok(column) => Ok(column),
        Err(fault) => Err(refusal_of(fault)),
    }
}

/// The column that a kernel made as a block, or its refusal. Takes no memory.
pub fn block_of(made: Result<Column, ArrayFault>) -> Result<Block, OpFault>
    ensures { result ≡ block_result made }
{
    match made {
        Ok(column) => Ok(column.into_block()),
        Err(fault) => Err(refusal_of(fault)),
    }
}
