// One statement of a run.
ghost use Rattle.std.specs.Prelude.{◌≡◌, ◌⊎◌, ◌&&◌, ◌≤◌, IfErr, IfOk, IfSome, OnErr, OnOk, false, not};
ghost use Rattle.outside_io.specs.Count.{HasRisen};
ghost use Rattle.outside_io.specs.Files.{Serves};
ghost use Rattle.outside_io.specs.Sink.{appended, AppendsPart};
ghost use Rattle.script_session.specs.cells.FaultOf.{fault_of};
ghost use Rattle.script_session.specs.cells.FaultText.{fault_text};
ghost use Rattle.script_session.specs.script.Run.{line_about, warning_line};
ghost use Rattle.script_session.specs.script.Statement.{statement_result};
ghost use Rattle.script_tree.specs.View.{action_of};
ghost use Rattle.script_session.specs.script_state.Reads.{files_in, paths_of};
ghost use Rattle.script_session.specs.Session.{state_of, IsWithinCharge};
ghost use Rattle.script_run.specs.Errors.{IsOfStatement, Reports, StatementsLeave};
ghost use Rattle.script_run.specs.Ends.{outside, IsCutShort};
ghost use Rattle.script_run.specs.Steps.{tally_of, was_refused, GoesOn, Stops};

use crate::ending::say_unread;
use crate::status::Status;
use cell_core::{Fault, TextDict};
use outside_io::{Files, Sink, write_piece};
use script_faults::{line_of_fault, line_of_warning};
use script_session::{FileNames, Session, StepFault};
use script_tree::Statement;
use std::alloc::Global;

/// What became of a statement after which a run may go on.
#[derive(Clone, Copy, Debug, PartialEq, Eq)]
pub enum Advanced {
    /// It was done.
    Done,
    /// It was refused, and the line of its fault was written.
    Refused,
}

impl Advanced {
    /// Whether the statement was refused.
    pub fn is_refused(self) -> bool
        ensures { result ≡ was_refused self }
    {
        match self {
            Advanced::Done => false,
            Advanced::Refused => true,
        }
    }

    /// Whether the run ends at the statement: it was refused, and the run isn't to keep going.
    pub fn ends_run(self, keep_going: bool) -> bool
        ensures { result ≡ was_refused self && not keep_going }
    {
        self.is_refused() & !keep_going
    }
}

/// Does the statement and writes its warning and what it prints, or the line of its fault after the warning. `Err` says
/// how the run ends: by `Input` where a file can't be read, by `Output` where a sink failed, or by `Memory`.
#[tactic(auto, using(crate::proofs::Hints::advance))]
pub fn advance<F: Files, O: Sink, E: Sink>(
    alloc: Global,
    session: &mut Session,
    files: &mut F,
    names: &FileNames,
    statement: &Statement,
    out: &mut O,
    err: &mut E,
) -> Result<Advanced, Status>
    ensures on { let at = outside F.seen O.seen E.seen in
        IfOk result (λ advanced. IfSome (F.seen files.old).contents (λ held. GoesOn
        (statement_result (files_in names.now held) (state_of session.old)
        (action_of statement.now.action))
        statement.now.line (was_refused advanced)
        (state_of session.old) (state_of session.new) (tally_of session.old) (tally_of session.new)
        (at files.old out.old err.old) (at files.new out.new err.new))) }
    ensures stops { let at = outside F.seen O.seen E.seen in
        IfErr result (λ status. IfSome (F.seen files.old).contents (λ held. Stops
        (statement_result (files_in names.now held) (state_of session.old)
        (action_of statement.now.action))
        statement.now.line (state_of session.old) status
        (at files.old out.old err.old) (at files.new out.new err.new))) }

    ensures within { IsWithinCharge session.old → IsWithinCharge session.new }
    ensures ends { IfErr result IsCutShort }
    ensures input { IfErr result (λ status. status ≡ Status.Input →
        HasRisen (F.seen files.old).faults (F.seen files.new).faults) }
    ensures output { IfErr result (λ status. status ≡ Status.Output →
        HasRisen (O.seen out.old).faults (O.seen out.new).faults
        ⊎ HasRisen (E.seen err.old).faults (E.seen err.new).faults) }

    // What it writes on the errors, whatever the files tell.
    ensures lines { IfOk result (λ advanced. Reports (paths_of names.now)
        (F.seen files.old).absences (F.seen files.new).absences
        (IsOfStatement (was_refused advanced))
        (E.seen err.old).written (E.seen err.new).written) }
    ensures errors { IfErr result (λ status. StatementsLeave false (paths_of names.now)
        (F.seen files.old).absences (F.seen files.new).absences status
        (E.seen err.old).written (E.seen err.new).written) }

    ensures serves { Serves (F.seen files.old) (F.seen files.new) }
    ensures out_faults { (O.seen out.old).faults ≤ (O.seen out.new).faults }
    ensures err_faults { (E.seen err.old).faults ≤ (E.seen err.new).faults }
{
    match session.step(files, names, statement) {
        Ok(outcome) => {
            warn(alloc, statement.line, outcome.warned, err)?;
            show(outcome.printed.as_str(), out)?;
            Ok(Advanced::Done)
        }
        Err(StepFault::Refused { code, warned }) => {
            warn(alloc, statement.line, warned, err)?;
            let fault = Fault {
                line: statement.line,
                code,
            };
            show_fault(alloc, session.texts(), &fault, err)?;
            Ok(Advanced::Refused)
        }
        Err(StepFault::Input) => {
            say_unread(err);
            Err(Status::Input)
        }
        Err(StepFault::NoMemory) => Err(Status::Memory),
    }
}

// Writes what a statement prints.
fn show<O: Sink>(printed: &str, out: &mut O) -> Result<(), Status>
    ensures shown { OnOk result (
        (O.seen out.new).written ≡ appended (O.seen out.old).written printed.now) }
    ensures part { IfErr result (λ status. (status ≡ Status.Output)
        × AppendsPart (O.seen out.old).written (O.seen out.new).written printed.now
        × HasRisen (O.seen out.old).faults (O.seen out.new).faults) }
    ensures faults { (O.seen out.old).faults ≤ (O.seen out.new).faults }
{
    match write_piece(out, printed.as_bytes()) {
        Ok(()) => Ok(()),
        Err(_) => Err(Status::Output),
    }
}

// Writes the warning of a statement that sets an object without a name.
fn warn<E: Sink>(alloc: Global, line: u64, warned: bool, err: &mut E) -> Result<(), Status>
    ensures shown { OnOk result (
        (E.seen err.new).written ≡ appended (E.seen err.old).written (warning_line line warned)) }
    ensures part { OnErr result (
        AppendsPart (E.seen err.old).written (E.seen err.new).written (warning_line line warned)) }
    ensures status { IfErr result (λ status. (status ≡ Status.Output) ⊎ (status ≡ Status.Memory)) }
    ensures unbegun { IfErr result (λ status. status ≡ Status.Memory →
        (E.seen err.new).written ≡ (E.seen err.old).written) }
    ensures output { IfErr result (λ status. status ≡ Status.Output →
        HasRisen (E.seen err.old).faults (E.seen err.new).faults) }
    ensures faults { (E.seen err.old).faults ≤ (E.seen err.new).faults }
{
    if !warned {
        return Ok(());
    }
    let Ok(text) = line_of_warning(alloc, line) else {
        return Err(Status::Memory);
    };
    show(text.as_str(), err)
}

// Writes the line of a fault.
fn show_fault<E: Sink>(
    alloc: Global,
    texts: &TextDict,
    fault: &Fault,
    err: &mut E,
) -> Result<(), Status>
    ensures shown { OnOk result ((E.seen err.new).written ≡ appended (E.seen err.old).written
        (line_about fault.now.line (fault_text (fault_of texts.now fault.now.code)))) }
    ensures part { OnErr result (AppendsPart (E.seen err.old).written (E.seen err.new).written
        (line_about fault.now.line (fault_text (fault_of texts.now fault.now.code)))) }
    ensures status { IfErr result (λ status. (status ≡ Status.Output) ⊎ (status ≡ Status.Memory)) }
    ensures unbegun { IfErr result (λ status. status ≡ Status.Memory →
        (E.seen err.new).written ≡ (E.seen err.old).written) }
    ensures output { IfErr result (λ status. status ≡ Status.Output →
        HasRisen (E.seen err.old).faults (E.seen err.new).faults) }
    ensures faults { (E.seen err.old).faults ≤ (E.seen err.new).faults }
{
    let Ok(text) = line_of_fault(alloc, texts, fault) else {
        return Err(Status::Memory);
    };
    show(text.as_str(), err)
}
