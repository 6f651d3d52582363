// What a method of texts is told.
ghost use Rattle.std.specs.Prelude.{◌≡◌, List};
ghost use Rattle.std.specs.Option.{option_map};
ghost use Rattle.frame_store.specs.cells.Text.{Text};
ghost use Rattle.frame_labels.specs.method.StrCalls as meant;
ghost use Rattle.frame_labels.specs.method.text.TextMethod.{takes as is_taken};
ghost use Rattle.meaning_call.specs.Signature.{str_parameters};
ghost use Rattle.frame_signatures.specs.Bound.{given_in};
ghost use Rattle.frame_store.specs.World.{World};
ghost use Rattle.frame_late.specs.Told.{IsKnownOp, IsTold};
ghost use Rattle.text_methods.specs.Answers.{method_of};

use crate::columns::OnTexts;
use cell_core::{Code, Reason};
use frame_signatures::{Bound, arguments};
use frame_store::OpFault;
use meaning_call::StrMethod;
use text_methods::TextOp;

// The greatest width of `zfill`.
const MOST_PLACES: i64 = 65_536;

// The method with its bound arguments; `None` where one of them has another form, as none has that is bound.
fn op_told(method: StrMethod, bound: &Bound<'_>) -> Option<TextOp>
    requires { bound.now.parameters.now ≡ str_parameters method }
    ensures told { (w : World) → option_map (method_of w.texts) result
        ≡ meant.told method (given_in w bound.now) }
    ensures known { (w : World) → IsKnownOp w bound.now result }
{
    match method {
        StrMethod::Len => Some(TextOp::Len),
        StrMethod::Strip => Some(TextOp::Strip),
        StrMethod::Startswith => {
            let pattern = bound.text_id_or_none(arguments::STR_PAT)?;
            Some(TextOp::Starts(pattern))
        }
        StrMethod::Endswith => {
            let pattern = bound.text_id_or_none(arguments::STR_PAT)?;
            Some(TextOp::Ends(pattern))
        }
        StrMethod::Contains => {
            let pattern = bound.text_id_or_none(arguments::STR_PAT)?;
            Some(TextOp::Contains(pattern))
        }
        StrMethod::Slice => {
            let start = bound.whole_or_none(arguments::STR_SLICE_START);
            let stop = bound.whole_or_none(arguments::STR_SLICE_STOP);
            let step = bound.whole_or_none(arguments::STR_SLICE_STEP);
            Some(TextOp::Slice(start, stop, step))
        }
        StrMethod::Zfill => {
            let width = bound.whole_or_none(arguments::STR_ZFILL_WIDTH)?;
            Some(TextOp::Fill(width))
        }
    }
}

// Whether the step isn't 0 and the width isn't too great.
fn takes(op: TextOp) -> bool
    ensures { (texts : List Text) → result ≡ is_taken (method_of texts op) }
{
    match op {
        TextOp::Slice(_, _, step) => step.unwrap_or(1) != 0,
        TextOp::Fill(width) => width <= MOST_PLACES,
        _ => true,
    }
}

// The operation on each column, or the refusal of its arguments.
pub(crate) fn told(method: StrMethod, bound: &Bound<'_>) -> Result<OnTexts, OpFault>
    requires { bound.now.parameters.now ≡ str_parameters method }
    ensures { (w : World) → IsTold w method bound.now result }
{
    let Some(op) = op_told(method, bound) else {
        return Err(OpFault::Refused(Code::WrongKind));
    };
    if !takes(op) {
        return Err(OpFault::Refused(Code::BadValue(Reason::Argument)));
    }
    Ok(OnTexts { op })
}
