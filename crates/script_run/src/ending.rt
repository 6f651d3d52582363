// The last line of a run.
ghost use Rattle.std.specs.Prelude.{◌≡◌, ◌≢◌, ◌≤◌, codes};
ghost use Rattle.outside_io.specs.Count.{HasRisen};
ghost use Rattle.outside_io.specs.Sink.{appended, AppendsFront};
ghost use Rattle.script_run.specs.Ends.{EndsWith};

use crate::status::Status;
use outside_io::{Sink, write_piece};

/// Writes the line with which a run ends, and answers its status: the given one, or `Output` where the sink failed.
/// That one is not to be given.
pub fn end_with<S: Sink>(sink: &mut S, status: Status, line: &str) -> Status
    requires { status ≢ Status.Output }
    ensures { EndsWith line.now status result (S.seen sink.old) (S.seen sink.new) }
{
    match write_piece(sink, line.as_bytes()) {
        Ok(()) => status,
        Err(_) => Status::Output,
    }
}

/// Writes that a file could not be read, as far as the sink takes it. The run has ended by then, so a sink that
/// fails changes nothing.
pub fn say_unread<E: Sink>(err: &mut E)
    ensures front { AppendsFront
        (E.seen err.old).written (E.seen err.new).written (codes "input failed\n") }
    ensures whole { ¬ (HasRisen (E.seen err.old).faults (E.seen err.new).faults) →
        (E.seen err.new).written ≡ appended (E.seen err.old).written (codes "input failed\n") }
    ensures faults { (E.seen err.old).faults ≤ (E.seen err.new).faults }
{
    match write_piece(err, b"input failed\n") {
        Ok(()) => {}
        Err(_) => {}
    }
}
