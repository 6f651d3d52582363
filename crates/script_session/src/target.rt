// The last step of a target.
ghost use Rattle.script_state.specs.script.Expression.{target_of};
ghost use Rattle.script_tree.specs.View.{step_of};
ghost use Rattle.script_session.specs.Parts.{IsTarget, target_seen};
ghost use Rattle.script_state.specs.Evaluates.{moment, Evaluates};

use crate::evaluating::{given, subscripts};
use crate::words::selector_of;
use cell_core::Code;
use frame_store::{Selector, Subscript};
use outside_io::Files;
use script_state::{EvalFault, FileNames, Work};
use script_tree::Step;

/// The last step of a target: what stands before its brackets, and the keys in them. It is refused as the keys are
/// by [`evaluate`](crate::evaluate); a call, which can't be set, is a `TypeError`.
pub fn last_step<F: Files>(
    work: &mut Work,
    files: &mut F,
    names: &FileNames,
    step: &Step,
) -> Result<(Selector, Subscript, Option<Subscript>), EvalFault>
    ensures { let at = moment F.seen in
        Evaluates names.now IsTarget target_seen (λ fs s. target_of fs s (step_of step.now))
        (at work.old files.old) (at work.new files.new) result }
{
    match step {
        Step::Item(arg) => {
            let key = given(work, files, names, None, arg)?;
            Ok((Selector::Plain, Subscript::Key(key), None))
        }
        Step::Access(by, first, second) => {
            let (first, second) = subscripts(work, files, names, None, first, second)?;
            Ok((selector_of(*by), first, second))
        }
        Step::Method(_, _)
        | Step::Text(_, _)
        | Step::Group(_, _, _, _)
        | Step::Rolling(_, _, _)
        | Step::Expanding(_, _, _) => Err(EvalFault::Refused(Code::WrongKind)),
    }
}
