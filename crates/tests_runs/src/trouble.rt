// Files and sinks that fail.
use crate::harness::{AMPLE, BOTH_AMPLE, Left, NEVER, Rooms, leaves, script_leaves};
use outside_io::MemFiles;
use script_run::Status;
use std::alloc::Global;

// A script that prints two lines and then faults.
const PRINTS: &[u8] =
    b"s = pd.Series([10, -20])\nprint(s.iloc[0])\nprint(s.iloc[1])\nprint(t.iloc[0])\n";

const PRINTED: &[u8] = b"10\n-20\n";

const FAULT: &[u8] = b"line 4: NameError: t\n";

// A script that prints before it reads, between two files and after them.
const READS: &[u8] =
    b"print(1)\na = pd.read_csv('t')\nprint(len(a))\na.copy()['x'] = 2\nb = pd.read_csv('u')\nprint(len(b))\nprint(c)\n";

const OUTPUT: &[u8] = b"1\n2\n3\n";

const ERRORS: &[u8] = b"line 4: warning: ChainedAssignmentError\nline 7: NameError: c\n";

const WARNING: &[u8] = b"line 4: warning: ChainedAssignmentError\n";

// A script that writes on the errors before it prints.
const WARNS: &[u8] = b"a = pd.Series([1])\na.copy().iloc[0] = 2\nprint(a.iloc[0])\nprint(b)\n";

// Whether the script leaves this where a call of the files fails.
fn fails_at(
    alloc: Global,
    script: &[u8],
    call: u64,
    status: Status,
    output: &[u8],
    errors: &[u8],
) -> bool {
    let left = Left {
        status,
        output,
        errors,
    };
    script_leaves(alloc, script, call, BOTH_AMPLE, left)
}

// Whether the script leaves this, and ends with a full sink, where the sinks have this room.
fn fills(alloc: Global, script: &[u8], rooms: Rooms, output: &[u8], errors: &[u8]) -> bool {
    let left = Left {
        status: Status::Output,
        output,
        errors,
    };
    script_leaves(alloc, script, NEVER, rooms, left)
}

// Ample room for the output, and this for the errors.
fn room_for_errors(errors: usize) -> Rooms {
    Rooms {
        output: AMPLE,
        errors,
    }
}

// Ample room for the errors, and this for the output.
fn room_for_output(output: usize) -> Rooms {
    Rooms {
        output,
        errors: AMPLE,
    }
}

// What stands on the two streams before the call of the files that fails: the fetch, the read of the bytes or the read
// that finds the end, of the script, of `t` or of `u`.
fn streams_before(call: u64) -> (&'static [u8], &'static [u8]) {
    match call {
        0..=2 => (b"", b"input failed\n"),
        3..=5 => (b"1\n", b"input failed\n"),
        _ => (
            b"1\n2\n",
            b"line 4: warning: ChainedAssignmentError\ninput failed\n",
        ),
    }
}

#[test]
fn a_failing_call_ends_the_run_after_what_stands_before_it(rt: HostRuntime) {
    for call in 0..9 {
        let (output, errors) = streams_before(call);
        assert!(rt;
            fails_at(rt.alloc(), READS, call, Status::Input, output, errors),
            "at {call}"
        );
    }
}

#[test]
fn a_call_that_is_not_made_fails_nothing(rt: HostRuntime) {
    assert!(rt; fails_at(rt.alloc(), READS, 9, Status::Fault, OUTPUT, ERRORS));
    assert!(rt; fails_at(rt.alloc(), PRINTS, 3, Status::Fault, PRINTED, FAULT));
}

#[test]
fn a_script_that_can_not_be_read_is_not_begun(rt: HostRuntime) {
    for call in 0..3 {
        let errors = b"input failed\n";
        assert!(rt;
            fails_at(rt.alloc(), PRINTS, call, Status::Input, b"", errors),
            "at {call}"
        );
    }
}

// The calls 0 to 2 of the files are those for the script, and no other is made.
#[test]
fn a_file_is_fetched_when_its_call_is_reached(rt: HostRuntime) {
    assert!(rt; fails_at(rt.alloc(), b"print(5)\n", 3, Status::Done, b"5\n", b""));
    let script = b"print(pd.read_csv('t', dtype={'a': 'x'}))\n";
    let errors = b"line 1: ValueError: argument\n";
    assert!(rt; fails_at(rt.alloc(), script, 3, Status::Fault, b"", errors));
}

#[test]
fn input_failed_is_written_as_far_as_it_fits(rt: HostRuntime) {
    let line = b"input failed\n";
    for room in 0..line.len() {
        let left = Left {
            status: Status::Input,
            output: b"1\n",
            errors: &line[..room],
        };
        assert!(rt;
            script_leaves(rt.alloc(), READS, 3, room_for_errors(room), left),
            "at {room}"
        );
    }
}

// The output that stands before a line of errors of which so many bytes fit.
fn output_before(room: usize) -> &'static [u8] {
    if room < WARNING.len() {
        b"1\n2\n"
    } else {
        OUTPUT
    }
}

#[test]
fn a_full_error_stream_leaves_the_output_before_its_line(rt: HostRuntime) {
    for room in 0..ERRORS.len() {
        let (output, errors) = (output_before(room), &ERRORS[..room]);
        let rooms = room_for_errors(room);
        assert!(rt;
            fills(rt.alloc(), READS, rooms, output, errors),
            "at {room}"
        );
    }
}

#[test]
fn a_full_error_stream_leaves_all_output_before_a_fault(rt: HostRuntime) {
    for room in 0..FAULT.len() {
        let rooms = room_for_errors(room);
        assert!(rt;
            fills(rt.alloc(), PRINTS, rooms, PRINTED, &FAULT[..room]),
            "at {room}"
        );
    }
}

// The errors that stand before a print of which so many bytes of all output fit.
fn errors_before(room: usize) -> &'static [u8] {
    if room < 4 { b"" } else { WARNING }
}

#[test]
fn a_full_output_leaves_the_errors_before_its_text(rt: HostRuntime) {
    for room in 0..OUTPUT.len() {
        let (output, errors) = (&OUTPUT[..room], errors_before(room));
        let rooms = room_for_output(room);
        assert!(rt;
            fills(rt.alloc(), READS, rooms, output, errors),
            "at {room}"
        );
    }
}

#[test]
fn a_full_output_ends_the_run_at_once(rt: HostRuntime) {
    for room in 0..PRINTED.len() {
        let rooms = room_for_output(room);
        assert!(rt;
            fills(rt.alloc(), PRINTS, rooms, &PRINTED[..room], b""),
            "at {room}"
        );
    }
}

// A warning and a fault's line are written byte by byte, up to the full stream. The value is printed behind the warning.
#[test]
fn a_full_error_stream_ends_at_a_warning_too(rt: HostRuntime) {
    let errors = b"line 2: warning: ChainedAssignmentError\nline 4: NameError: b\n";
    for room in [0, 1, 39, 40, 41, 59] {
        let output: &[u8] = if room < 40 { b"" } else { b"1\n" };
        let rooms = room_for_errors(room);
        assert!(rt;
            fills(rt.alloc(), WARNS, rooms, output, &errors[..room]),
            "at {room}"
        );
    }
}

// With ample memory a run is never refused for want of it.
#[test]
fn run_always_want_of_memory(rt: HostRuntime) {
    assert!(rt; fails_at(rt.alloc(), PRINTS, NEVER, Status::Fault, PRINTED, FAULT));
}

// Not even the program's name is there.
#[test]
fn no_word_is_no_run(rt: HostRuntime) {
    let mut files = MemFiles::new(rt.alloc());
    let left = Left {
        status: Status::Usage,
        output: b"",
        errors: b"usage: pdscript [--stats] [--keep-going] [--demo N | SCRIPT] [NAME=PATH ..]\n",
    };
    assert!(rt; leaves(rt.alloc(), &[], &mut files, BOTH_AMPLE, left) == Ok(true));
}
