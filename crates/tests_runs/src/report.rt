// A report of two files: each call of the files and each put on the output fails in turn, the output has no room for it, and
// all calls give and take a few bytes.
use crate::harness::{AMPLE, BOTH_AMPLE, Left, NEVER, Rooms, leaves, leaves_on};
use cell_core::NoMemory;
use outside_io::{MemFiles, MemSink};
use script_run::Status;
use std::alloc::Global;

const REPORT: &[u8] = b"import pandas as pd\n\
    o = pd.read_csv(\"orders\", dtype_backend=\"numpy_nullable\")\n\
    print(len(o))\n\
    c = pd.read_csv(\"customers\")\n\
    o[\"total\"] = o[\"qty\"] * o[\"price\"]\n\
    j = o.merge(c, how=\"left\", on=\"customer\")\n\
    print(j.groupby(\"city\")[\"total\"].sum())\n\
    print(j.pivot_table(index=\"city\", columns=\"item\", values=\"total\", aggfunc=\"sum\"))\n";

const ORDERS: &[u8] = b"id,customer,item,qty,price\n\
    1,C1,pen,2,150\n\
    2,C2,pad,1,400\n\
    3,C1,pad,,400\n\
    4,C3,pen,5,150\n\
    5,C2,pen,4,150\n";

const CUSTOMERS: &[u8] = b"customer,city\nC1,Oslo\nC2,Rome\nC3,Oslo\n";

const PRINTED: &[u8] = b"5\n\
    city\n\
    Oslo    1050\n\
    Rome    1000\n\
    Name: total, dtype: Int64\n\
    item  pad   pen\n\
    city           \n\
    Oslo    0  1050\n\
    Rome  400   600\n";

// What is printed before the last text.
const GROUPED: &[u8] = b"5\n\
    city\n\
    Oslo    1050\n\
    Rome    1000\n\
    Name: total, dtype: Int64\n";

const WORDS: [&str; 4] = ["pdscript", "s", "orders=o", "customers=c"];

const WHOLE: Left<'static> = Left {
    status: Status::Done,
    output: PRINTED,
    errors: b"",
};

fn report_files(alloc: Global) -> Result<MemFiles, NoMemory> {
    let mut files = MemFiles::new(alloc);
    files.hold("s", REPORT)?;
    files.hold("o", ORDERS)?;
    files.hold("c", CUSTOMERS)?;
    Ok(files)
}

// Whether the report leaves this where a call of the files fails. A fetch is a call, and so is each read up to the end:
// of the script, then of the orders, then of the customers.
fn report_leaves(alloc: Global, call: u64, rooms: Rooms, left: Left<'_>) -> Result<bool, NoMemory> {
    let mut files = report_files(alloc)?;
    files.fail_at(call)?;
    leaves(alloc, &WORDS, &mut files, rooms, left)
}

// Whether the report leaves this where a put on the output fails. Later puts would work again.
fn report_leaves_at_put(alloc: Global, put: u64, left: Left<'_>) -> Result<bool, NoMemory> {
    let mut files = report_files(alloc)?;
    let mut output = MemSink::with_room(alloc, AMPLE)?;
    let mut errors = MemSink::with_room(alloc, AMPLE)?;
    output.fail_at(put)?;
    leaves_on(alloc, &WORDS, &mut files, &mut output, &mut errors, left)
}

// Whether the report is printed whole where a read gives, and a put takes, at most so many bytes and one more.
fn is_printed_by_pieces(alloc: Global, most: u8) -> Result<bool, NoMemory> {
    let most = most as usize + 1;
    let mut files = report_files(alloc)?;
    let mut output = MemSink::with_room(alloc, AMPLE)?;
    let mut errors = MemSink::with_room(alloc, AMPLE)?;
    files.limit_read(most);
    output.limit_put(most);
    errors.limit_put(most);
    leaves_on(alloc, &WORDS, &mut files, &mut output, &mut errors, WHOLE)
}

// Whether the output is so many bytes of the report where the put of the next one fails.
fn ends_at_byte(alloc: Global, byte: usize) -> Result<bool, NoMemory> {
    let mut files = report_files(alloc)?;
    let mut output = MemSink::with_room(alloc, AMPLE)?;
    let mut errors = MemSink::with_room(alloc, AMPLE)?;
    output.limit_put(1);
    output.fail_at(byte as u64)?;
    let left = Left {
        status: Status::Output,
        output: PRINTED.get(..byte).unwrap_or_default(),
        errors: b"",
    };
    leaves_on(alloc, &WORDS, &mut files, &mut output, &mut errors, left)
}

// What the report leaves where this call of the files fails: the fetch, the read of the bytes or the read that finds the
// end, of the script, of the orders or of the customers.
fn left_by_call(call: u64) -> Left<'static> {
    let output: &'static [u8] = match call {
        0..=5 => b"",
        6..=8 => b"5\n",
        _ => return WHOLE,
    };
    Left {
        status: Status::Input,
        output,
        errors: b"input failed\n",
    }
}

// What the report leaves where this put on the output fails, of three.
fn left_by_put(put: u64) -> Left<'static> {
    let output: &'static [u8] = match put {
        0 => b"",
        1 => b"5\n",
        2 => GROUPED,
        _ => return WHOLE,
    };
    Left {
        status: Status::Output,
        output,
        errors: b"",
    }
}

#[test]
fn a_report_is_printed_whole(rt: HostRuntime) {
    assert!(rt; report_leaves(rt.alloc(), NEVER, BOTH_AMPLE, WHOLE) == Ok(true));
}

#[test]
fn a_report_is_printed_by_pieces(rt: HostRuntime) {
    for most in [0, 1, 6] {
        assert!(rt;
            is_printed_by_pieces(rt.alloc(), most) == Ok(true),
            "at {most}"
        );
    }
}

#[test]
fn a_report_ends_before_the_call_of_the_files_that_fails(rt: HostRuntime) {
    for call in 0..10 {
        assert!(rt;
            report_leaves(rt.alloc(), call, BOTH_AMPLE, left_by_call(call)) == Ok(true),
            "at {call}"
        );
    }
}

#[test]
fn a_report_ends_before_the_text_whose_put_fails(rt: HostRuntime) {
    for put in 0..4 {
        assert!(rt;
            report_leaves_at_put(rt.alloc(), put, left_by_put(put)) == Ok(true),
            "at {put}"
        );
    }
}

#[test]
fn a_report_ends_before_the_byte_whose_put_fails(rt: HostRuntime) {
    for byte in 0..PRINTED.len() {
        assert!(rt; ends_at_byte(rt.alloc(), byte) == Ok(true), "at {byte}");
    }
}

#[test]
fn a_report_ends_where_the_output_is_full(rt: HostRuntime) {
    let rooms = Rooms {
        output: 10,
        ..BOTH_AMPLE
    };
    let left = Left {
        status: Status::Output,
        output: b"5\ncity\nOsl",
        errors: b"",
    };
    assert!(rt; report_leaves(rt.alloc(), NEVER, rooms, left) == Ok(true));
}
