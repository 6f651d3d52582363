// Statements. What they make is noted.
ghost use Rattle.std.specs.Prelude.{◌≡◌, List, [], Some, OnOk};
ghost use Rattle.script_state.specs.language.Tree as tree;
ghost use Rattle.outside_io.specs.Files.{FilesValue};
ghost use Rattle.script_state.specs.script.Expression.{named_by};
ghost use Rattle.script_state.specs.script.Statement.{is_chained};
ghost use Rattle.script_tree.specs.View.{expr_of, step_of, arg_of, action_of};
ghost use Rattle.script_state.specs.Evaluates.{moment, moment_of};
ghost use Rattle.script_state.specs.Work.{state_in};
ghost use Rattle.script_state.specs.declared.file_names.FileName.{FileName};
ghost use Rattle.script_session.specs.Faults.{Executes, marked_fault};
ghost use Rattle.script_session.specs.Apart.{IsSetApart, ChangesOneObject};

use crate::evaluating::{evaluate, given};
use crate::fault::{Outcome, StepFault};
use crate::target::last_step;
use cell_core::Words;
use frame_store::OpFault;
use outside_io::Files;
use script_state::{FileNames, Work};
use script_tree::{Action, Arg, Expr, Step};
use std::alloc::Global;

// Does the statement.
pub(crate) fn perform<F: Files>(
    work: &mut Work,
    files: &mut F,
    names: &FileNames,
    action: &Action,
) -> Result<Outcome, StepFault>
    ensures executes { let at = moment F.seen in
        Executes names.now (action_of action.now)
        (at work.old files.old) (at work.new files.new) result }
    ensures apart { OnOk result (ChangesOneObject (action_of action.now)
        (state_in work.old) (state_in work.new)) }
{
    match action {
        Action::Import => Ok(quiet(work.alloc(), false)),
        Action::Bind(name, expr) => bind(work, files, names, name, expr),
        Action::Put(target, step, arg) => put(work, files, names, target, step, arg),
        Action::DropName(name) => drop_name(work, name),
        Action::DropColumn(name, key) => drop_column(work, files, names, name, key),
        Action::Print(expr, end) => print(work, files, names, expr, end),
    }
}

// `name = expr`
fn bind<F: Files>(
    work: &mut Work,
    files: &mut F,
    names: &FileNames,
    name: &Words,
    expr: &Expr,
) -> Result<Outcome, StepFault>
    ensures { let at = moment F.seen in
        Executes names.now (tree.bind name.now (expr_of expr.now))
        (at work.old files.old) (at work.new files.new) result }
{
    let value = evaluate(work, files, names, None, expr)?;
    work.set_name(name.as_str(), value)?;
    Ok(quiet(work.alloc(), false))
}

// `target.step = arg`
fn put<F: Files>(
    work: &mut Work,
    files: &mut F,
    names: &FileNames,
    target: &Expr,
    step: &Step,
    arg: &Arg,
) -> Result<Outcome, StepFault>
    ensures executes { let at = moment F.seen in
        Executes names.now (tree.put (expr_of target.now) (step_of step.now) (arg_of arg.now))
        (at work.old files.old) (at work.new files.new) result }
    ensures apart { OnOk result (IsSetApart (named_by (expr_of target.now))
        (state_in work.old) (state_in work.new)) }
{
    let value = given(work, files, names, None, arg)?;
    let on = evaluate(work, files, names, None, target)?;
    let (by, first, second) = last_step(work, files, names, step)?;
    let warned = is_chained(target);
    match work.assign(on, by, &first, &second, &value) {
        Ok(()) => Ok(quiet(work.alloc(), warned)),
        Err(fault) => Err(marked(fault, warned)),
    }
}

// `del name`
fn drop_name(work: &mut Work, name: &Words) -> Result<Outcome, StepFault>
    ensures { (paths : List FileName) (seen : FilesValue) →
        Executes paths (tree.drop_name name.now)
        (moment_of work.old seen) (moment_of work.new seen) result }
{
    work.named(name)?;
    work.forget(name.as_str());
    Ok(quiet(work.alloc(), false))
}

// `del name[key]`
fn drop_column<F: Files>(
    work: &mut Work,
    files: &mut F,
    names: &FileNames,
    name: &Words,
    key: &Expr,
) -> Result<Outcome, StepFault>
    ensures executes { let at = moment F.seen in
        Executes names.now (tree.drop_column name.now (expr_of key.now))
        (at work.old files.old) (at work.new files.new) result }
    ensures apart { OnOk result (IsSetApart (Some name.now)
        (state_in work.old) (state_in work.new)) }
{
    let on = work.named(name)?;
    let label = evaluate(work, files, names, None, key)?;
    match work.remove(on, label) {
        Ok(()) => Ok(quiet(work.alloc(), false)),
        Err(fault) => Err(marked(fault, false)),
    }
}

// `print(expr, end=end)`
fn print<F: Files>(
    work: &mut Work,
    files: &mut F,
    names: &FileNames,
    expr: &Expr,
    end: &Words,
) -> Result<Outcome, StepFault>
    ensures { let at = moment F.seen in
        Executes names.now (tree.print (expr_of expr.now) end.now)
        (at work.old files.old) (at work.new files.new) result }
{
    let value = evaluate(work, files, names, None, expr)?;
    let end = end.as_str();
    let printed = work.printed(value, end)?;
    Ok(Outcome {
        printed,
        warned: false,
    })
}

// The fault of a setting, with the mark of one on an object without a name.
fn marked(fault: OpFault, warned: bool) -> StepFault
    ensures { result ≡ marked_fault warned fault }
{
    match fault {
        OpFault::Refused(code) => StepFault::Refused { code, warned },
        OpFault::NoMemory => StepFault::NoMemory,
    }
}

// Whether the object of a target is no name, in parentheses or not.
fn is_chained(target: &Expr) -> bool
    ensures { result ≡ is_chained (named_by (expr_of target.now)) }
{
    match target {
        Expr::Name(_) => false,
        Expr::Paren(inner) => is_chained(inner),
        Expr::Literal(_) | Expr::Unary(_, _) | Expr::Infix(_, _, _) => true,
        Expr::After(_, _) | Expr::Len(_) | Expr::Make(_, _) => true,
    }
}

// Nothing printed.
fn quiet(alloc: Global, warned: bool) -> Outcome
    ensures printed { result.printed ≡ [] }
    ensures warned { result.warned ≡ warned }
{
    Outcome {
        printed: Words::new(alloc),
        warned,
    }
}
