// Runs that keep going, over files and sinks that fail.
use crate::harness::{AMPLE, BOTH_AMPLE, Left, NEVER, Rooms, words_leave};
use script_run::Status;
use std::alloc::Global;

// A script with a fault before, between and behind its reads.
const SCRIPT: &[u8] =
    b"print(1)\nprint(x)\na = pd.read_csv('t')\nprint(len(a))\na.copy().iloc[0] = None\nb = pd.read_csv('u')\nprint(len(b))\nprint(c)\n";

const OUTPUT: &[u8] = b"1\n2\n3\n";

const FIRST: &[u8] = b"line 2: NameError: x\n";

const BOTH: &[u8] =
    b"line 2: NameError: x\nline 5: warning: ChainedAssignmentError\nline 5: TypeError\n";

const ERRORS: &[u8] =
    b"line 2: NameError: x\nline 5: warning: ChainedAssignmentError\nline 5: TypeError\nline 8: NameError: c\n";

// Whether the script leaves this where a call of the files fails, and the sinks have this room.
fn goes(
    alloc: Global,
    call: u64,
    rooms: Rooms,
    status: Status,
    output: &[u8],
    errors: &[u8],
) -> bool {
    let left = Left {
        status,
        output,
        errors,
    };
    let words = ["pdscript", "--keep-going", "s", "t=t", "u=u"];
    words_leave(alloc, &words, SCRIPT, call, rooms, left)
}

// What stands on the two streams before the call of the files that fails: the fetch, the read of the bytes or the read
// that finds the end, of the script, of `t` or of `u`.
fn streams_before(call: u64) -> (&'static [u8], &'static [u8]) {
    match call {
        0..=2 => (b"", b"input failed\n"),
        3..=5 => (b"1\n", b"line 2: NameError: x\ninput failed\n"),
        _ => (
            b"1\n2\n",
            b"line 2: NameError: x\nline 5: warning: ChainedAssignmentError\nline 5: TypeError\ninput failed\n",
        ),
    }
}

// The output that stands before a line of errors of which so many bytes fit.
fn output_before(room: usize) -> &'static [u8] {
    if room < FIRST.len() {
        b"1\n"
    } else if room < BOTH.len() {
        b"1\n2\n"
    } else {
        OUTPUT
    }
}

// The errors that stand before a print of which so many bytes of all output fit.
fn errors_before(room: usize) -> &'static [u8] {
    if room < 2 {
        b""
    } else if room < 4 {
        FIRST
    } else {
        BOTH
    }
}

#[test]
fn all_faults_are_told(rt: HostRuntime) {
    assert!(rt; goes(rt.alloc(), NEVER, BOTH_AMPLE, Status::Fault, OUTPUT, ERRORS));
}

#[test]
fn a_failing_call_ends_the_run_after_the_faults_before_it(rt: HostRuntime) {
    for call in 0..9 {
        let (output, errors) = streams_before(call);
        assert!(rt;
            goes(rt.alloc(), call, BOTH_AMPLE, Status::Input, output, errors),
            "at {call}"
        );
    }
}

#[test]
fn a_full_error_stream_ends_the_run_at_its_line(rt: HostRuntime) {
    for room in 0..ERRORS.len() {
        let (output, errors) = (output_before(room), &ERRORS[..room]);
        let rooms = Rooms {
            output: AMPLE,
            errors: room,
        };
        assert!(rt;
            goes(rt.alloc(), NEVER, rooms, Status::Output, output, errors),
            "at {room}"
        );
    }
}

#[test]
fn a_full_output_leaves_the_faults_before_its_text(rt: HostRuntime) {
    for room in 0..OUTPUT.len() {
        let (output, errors) = (&OUTPUT[..room], errors_before(room));
        let rooms = Rooms {
            output: room,
            errors: AMPLE,
        };
        assert!(rt;
            goes(rt.alloc(), NEVER, rooms, Status::Output, output, errors),
            "at {room}"
        );
    }
}
