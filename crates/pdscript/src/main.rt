//! `pdscript SCRIPT NAME=PATH ..` runs a script over files of tables and prints what it prints.
//!
//! The program hands the words of its command line, the files of the machine and its two standard
//! streams to `script_run::run`, and ends with the number of the status that this answers. Before
//! that call it ends with 7 where a word isn't UTF-8 text, and with 6 where memory is refused.
#![tactic(auto)]

use outside_io::{RealFiles, RealSink};
use script_run::run;
use std::alloc::Global;
use std::env;
use std::io::{Error, ErrorKind};
use std::process::ExitCode;

const MEMORY: u8 = 6;

const WORD_NOT_TEXT: u8 = 7;

// The largest block whose end glibc's allocator takes for a measure: it keeps twice as much of what is freed.
const MEASURE: usize = (32 << 20) - 8192;

fn main(rt: HostRuntime) -> ExitCode {
    keep_freed_memory(rt.alloc());
    let words = match env::args(&rt) {
        Ok(words) => words,
        Err(error) => return ExitCode::from(number_of(&error)),
    };
    let Ok(words) = words.collect(rt.alloc()) else {
        return ExitCode::from(MEMORY);
    };
    let Ok(copy) = rt.clone() else {
        return ExitCode::from(MEMORY);
    };
    let mut files = RealFiles::over(copy);
    let mut out = RealSink::over(rt.stdout());
    let mut err = RealSink::over(rt.stderr());
    let status = run(rt.alloc(), &words, &mut files, &mut out, &mut err);
    ExitCode::from(status.number())
}

// Has the memory of a column that ends kept for the next one. The allocator would give it back to the system, which
// blanks each page anew, and that takes longer than an operator. The block isn't touched, so it takes no time.
fn keep_freed_memory(alloc: Global) {
    let _ = Vec::<u8>::with_capacity(alloc, MEASURE);
}

// The exit status where the words could not be had.
fn number_of(error: &Error) -> u8 {
    match error.kind() {
        ErrorKind::InvalidData => WORD_NOT_TEXT,
        _ => MEMORY,
    }
}
