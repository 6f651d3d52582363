// Each front of a file, as a run reads it.
use crate::harness::{BOTH_AMPLE, Left, leaves};
use cell_core::NoMemory;
use outside_io::MemFiles;
use script_run::Status;
use std::alloc::Global;

// A byte order mark, a label twice, missing cells and a record that is too short.
const TABLE: &[u8] = b"\xef\xbb\xbfid,a,a,note\n1,NA,true,\"x, y\"\n2,5\n";

// What a run leaves that reads only so many bytes of the table.
fn left_by_front(length: usize) -> Left<'static> {
    let (status, errors): (Status, &'static [u8]) = match length {
        0 | 3 => (Status::Fault, b"line 1: EmptyDataError\n"),
        1 | 2 => (Status::Fault, b"line 1: UnicodeDecodeError: byte 0\n"),
        _ => (Status::Done, b""),
    };
    Left {
        status,
        output: b"",
        errors,
    }
}

fn is_read_or_refused(alloc: Global, front: &[u8]) -> Result<bool, NoMemory> {
    let mut files = MemFiles::new(alloc);
    files.hold("s", b"a = pd.read_csv('t')\n")?;
    files.hold("t", front)?;
    let words = ["pdscript", "s", "t=t"];
    leaves(
        alloc,
        &words,
        &mut files,
        BOTH_AMPLE,
        left_by_front(front.len()),
    )
}

#[test]
fn each_front_of_a_file_is_read_or_refused(rt: HostRuntime) {
    for length in 0..TABLE.len() {
        assert!(rt;
            is_read_or_refused(rt.alloc(), &TABLE[..length]) == Ok(true),
            "at {length}"
        );
    }
}
