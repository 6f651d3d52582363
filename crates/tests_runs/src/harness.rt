// Runs over sinks in memory.
use cell_core::NoMemory;
use outside_io::{Files, MemFiles, MemSink};
use script_run::{Status, run};
use std::alloc::{AllocError, Global};

/// Room enough for all that these runs print.
pub const AMPLE: usize = 4096;

/// The number of a call of the files that is never made.
pub const NEVER: u64 = 99;

/// The room of the two sinks of a run.
#[derive(Clone, Copy)]
pub struct Rooms {
    /// That of the output.
    pub output: usize,
    /// That of the errors.
    pub errors: usize,
}

/// Ample room in both sinks.
pub const BOTH_AMPLE: Rooms = Rooms {
    output: AMPLE,
    errors: AMPLE,
};

/// What a run leaves.
#[derive(Clone, Copy)]
pub struct Left<'a> {
    /// How it ended.
    pub status: Status,
    /// What it printed.
    pub output: &'a [u8],
    /// What it wrote on the errors.
    pub errors: &'a [u8],
}

// The words as `run` takes them.
fn words_of(alloc: Global, words: &[&str]) -> Result<Vec<String>, AllocError> {
    let mut all = Vec::new(alloc);
    for word in words {
        all.push(String::from_str(alloc, *word)?)?;
    }
    Ok(all)
}

/// Whether the words leave this, over these files and sinks of this room.
pub fn leaves<F: Files>(
    alloc: Global,
    words: &[&str],
    files: &mut F,
    rooms: Rooms,
    left: Left<'_>,
) -> Result<bool, NoMemory> {
    let mut output = MemSink::with_room(alloc, rooms.output)?;
    let mut errors = MemSink::with_room(alloc, rooms.errors)?;
    leaves_on(alloc, words, files, &mut output, &mut errors, left)
}

/// Whether the words leave this, over these files, on these empty sinks.
pub fn leaves_on<F: Files>(
    alloc: Global,
    words: &[&str],
    files: &mut F,
    output: &mut MemSink,
    errors: &mut MemSink,
    left: Left<'_>,
) -> Result<bool, NoMemory> {
    let words = words_of(alloc, words)?;
    let status = run(alloc, &words, files, output, errors);
    Ok(status == left.status && output.written() == left.output && errors.written() == left.errors)
}

fn hold_files(files: &mut MemFiles, script: &[u8], call: u64) -> Result<(), NoMemory> {
    files.hold("s", script)?;
    files.hold("t", b"a\n1\n2\n")?;
    files.hold("u", b"b\n1\n2\n3\n")?;
    files.fail_at(call)
}

/// Whether the script `s` leaves this with these words. It may have a file of two rows by the path `t` and one of three by
/// `u`, and the call of the files with this number fails.
pub fn words_leave(
    alloc: Global,
    words: &[&str],
    script: &[u8],
    call: u64,
    rooms: Rooms,
    left: Left<'_>,
) -> bool {
    let mut files = MemFiles::new(alloc);
    if hold_files(&mut files, script, call).is_err() {
        return false;
    }
    leaves(alloc, words, &mut files, rooms, left) == Ok(true)
}

/// The same with the two files by the names `t` and `u`, and no flag.
pub fn script_leaves(
    alloc: Global,
    script: &[u8],
    call: u64,
    rooms: Rooms,
    left: Left<'_>,
) -> bool {
    let words = ["pdscript", "s", "t=t", "u=u"];
    words_leave(alloc, &words, script, call, rooms, left)
}
