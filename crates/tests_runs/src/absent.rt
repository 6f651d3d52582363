// Files that aren't there, and an error stream whose first put fails.
use crate::harness::{AMPLE, BOTH_AMPLE, Left, leaves, leaves_on};
use cell_core::NoMemory;
use outside_io::{MemFiles, MemSink};
use script_run::Status;
use std::alloc::Global;

// A script that warns before it prints.
const WARNS: &[u8] = b"df = pd.DataFrame({\"a\": [1, 2]}, index=[\"x\", \"y\"])\n\
    df[\"a\"][\"x\"] = 7\n\
    print(df)\n";

// Whether nothing is left of a run that warns where the first put on the errors fails.
fn ends_at_its_warning(alloc: Global) -> Result<bool, NoMemory> {
    let mut files = MemFiles::new(alloc);
    files.hold("s", WARNS)?;
    let mut output = MemSink::with_room(alloc, AMPLE)?;
    let mut errors = MemSink::with_room(alloc, AMPLE)?;
    errors.fail_at(0)?;
    let left = Left {
        status: Status::Output,
        output: b"",
        errors: b"",
    };
    leaves_on(
        alloc,
        &["pdscript", "s"],
        &mut files,
        &mut output,
        &mut errors,
        left,
    )
}

// Whether a given name without a file is refused.
fn names_no_file(alloc: Global) -> Result<bool, NoMemory> {
    let mut files = MemFiles::new(alloc);
    files.hold("s", b"print(pd.read_csv(\"nope\"))\n")?;
    let left = Left {
        status: Status::Fault,
        output: b"",
        errors: b"line 1: FileNotFoundError: nope\n",
    };
    leaves(
        alloc,
        &["pdscript", "s", "nope=absent"],
        &mut files,
        BOTH_AMPLE,
        left,
    )
}

#[test]
fn a_run_ends_at_the_warning_that_can_not_be_written(rt: HostRuntime) {
    assert!(rt; ends_at_its_warning(rt.alloc()) == Ok(true));
}

#[test]
fn a_script_that_is_not_there_is_not_run(rt: HostRuntime) {
    let mut files = MemFiles::new(rt.alloc());
    let left = Left {
        status: Status::Usage,
        output: b"",
        errors: b"script not found: s\n",
    };
    assert!(rt; leaves(rt.alloc(), &["pdscript", "s"], &mut files, BOTH_AMPLE, left) == Ok(true));
}

#[test]
fn a_given_name_without_a_file_is_refused(rt: HostRuntime) {
    assert!(rt; names_no_file(rt.alloc()) == Ok(true));
}
