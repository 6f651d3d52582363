// Files and sinks in memory and of the machine, at each call that fails.
use cell_core::NoMemory;
use outside_io::{
    Fetch, Files, Got, MemFiles, MemSink, Put, ReadFault, RealFiles, RealSink, Sink, WriteFault,
    read_whole, write_piece,
};
use std::alloc::Global;
use std::fs;
use std::io::{self, ErrorKind, Write};

type Found<'a> = Result<&'a [u8], ReadFault>;

const FAILS: Found<'static> = Err(ReadFault::Failed);

// Whether a read of the whole file, of at most so many bytes, finds this.
fn reads<F: Files>(alloc: Global, files: &mut F, path: &str, limit: u8, want: Found<'_>) -> bool {
    match (read_whole(alloc, files, path, limit as usize), want) {
        (Ok(whole), Ok(bytes)) => whole.as_slice() == bytes,
        (Err(fault), Err(wanted)) => fault == wanted,
        _ => false,
    }
}

fn hold_files(files: &mut MemFiles) -> Result<(), NoMemory> {
    files.hold("empty", b"")?;
    files.hold("orders", b"id")?;
    files.hold("orders", b"id,price\n")
}

#[test]
fn reads_up_to_the_limit(rt: HostRuntime) {
    let mut files = MemFiles::new(rt.alloc());
    assert!(rt; hold_files(&mut files).is_ok());
    for (path, limit, want) in [
        ("orders", 9, Ok(b"id,price\n".as_slice())),
        ("orders", 8, Err(ReadFault::TooLong)),
        ("orders", 0, Err(ReadFault::TooLong)),
        ("empty", 0, Ok(b"".as_slice())),
        ("order", 9, Err(ReadFault::Absent)),
    ] {
        assert!(rt;
            reads(rt.alloc(), &mut files, path, limit, want),
            "at {path} and {limit}"
        );
    }
}

// Whether two reads of a file of two bytes find these, where a call fails.
fn read_twice(
    alloc: Global,
    failing: u64,
    first: Found<'_>,
    second: Found<'_>,
) -> Result<bool, NoMemory> {
    let mut files = MemFiles::new(alloc);
    files.hold("orders", b"id")?;
    files.fail_at(failing)?;
    Ok(
        reads(alloc, &mut files, "orders", 9, first)
            && reads(alloc, &mut files, "orders", 9, second),
    )
}

// A file of two bytes is read by a fetch, a read that gives both and one at its end.
#[test]
fn fails_at_each_call(rt: HostRuntime) {
    let id = Ok(b"id".as_slice());
    for call in 0..3 {
        assert!(rt;
            read_twice(rt.alloc(), call, FAILS, id) == Ok(true),
            "at {call}"
        );
    }
    assert!(rt; read_twice(rt.alloc(), 3, id, FAILS) == Ok(true));
}

// Whether the file that was fetched is read on after it was replaced.
fn reads_on(alloc: Global, files: &mut MemFiles) -> Result<bool, NoMemory> {
    files.hold("orders", b"id")?;
    let fetched = files.fetch("orders");
    files.hold("orders", b"name")?;
    let mut piece = [0u8; 8];
    let read = files.read(&mut piece);
    let ended = files.read(&mut [0u8; 8]);
    Ok(
        fetched == Fetch::Fetched
            && read == Got::Bytes(2)
            && &piece[..2] == b"id".as_slice()
            && ended == Got::End
            && reads(alloc, files, "orders", 9, Ok(b"name".as_slice())),
    )
}

#[test]
fn reads_on_what_was_replaced(rt: HostRuntime) {
    let mut files = MemFiles::new(rt.alloc());
    assert!(rt; reads_on(rt.alloc(), &mut files) == Ok(true));
}

fn writes_five_bytes(sink: &mut MemSink) -> bool {
    write_piece(sink, b"id\n") == Ok(())
        && write_piece(sink, b"") == Ok(())
        && write_piece(sink, b"price\n") == Err(WriteFault::Failed)
        && sink.put(b"x") == Put::Failed
        && sink.written() == b"id\npr".as_slice()
}

#[test]
fn writes_what_fits(rt: HostRuntime) -> Result<(), NoMemory> {
    let mut sink = MemSink::with_room(rt.alloc(), 5)?;
    assert!(rt; writes_five_bytes(&mut sink));
    Ok(())
}

// Whether two reads of at most two bytes, and the whole of the next file, find these.
fn reads_two_at_a_time(alloc: Global) -> Result<bool, NoMemory> {
    let mut files = MemFiles::new(alloc);
    hold_files(&mut files)?;
    files.limit_read(2);
    let fetched = files.fetch("orders");
    let mut piece = [0u8; 8];
    let first = files.read(&mut piece);
    let second = files.read(&mut piece[..1]);
    Ok(
        fetched == Fetch::Fetched
            && first == Got::Bytes(2)
            && second == Got::Bytes(1)
            && reads(alloc, &mut files, "orders", 9, Ok(b"id,price\n".as_slice())),
    )
}

#[test]
fn gives_no_more_than_the_limit(rt: HostRuntime) {
    assert!(rt; reads_two_at_a_time(rt.alloc()) == Ok(true));
}

fn writes_around_the_second_put(sink: &mut MemSink) -> bool {
    sink.put(b"id,") == Put::Took(2)
        && sink.put(b",") == Put::Failed
        && sink.put(b",p") == Put::Took(2)
        && write_piece(sink, b"rice\n") == Ok(())
        && sink.written() == b"id,price\n".as_slice()
}

// A put takes two bytes at most, and the second one fails.
#[test]
fn takes_no_more_than_the_limit(rt: HostRuntime) -> Result<(), NoMemory> {
    let mut sink = MemSink::with_room(rt.alloc(), 16)?;
    sink.limit_put(2);
    sink.fail_at(1)?;
    assert!(rt; writes_around_the_second_put(&mut sink));
    Ok(())
}

const PATH: &str = "outside_io_test.txt";

#[test]
fn reads_files_of_the_machine(rt: HostRuntime) -> Result<(), io::Error> {
    fs::write(&rt, PATH, "id,price\n")?;
    let mut files = RealFiles::over(rt.clone()?);
    let whole = Ok(b"id,price\n".as_slice());
    assert!(rt; reads(rt.alloc(), &mut files, PATH, 9, whole));
    assert!(rt; reads(rt.alloc(), &mut files, PATH, 8, Err(ReadFault::TooLong)));
    fs::remove_file(&rt, PATH)?;
    assert!(rt; reads(rt.alloc(), &mut files, PATH, 9, Err(ReadFault::Absent)));
    assert!(rt; reads(rt.alloc(), &mut files, ".", 9, FAILS));
    Ok(())
}

// A stream that takes `most` bytes at a time.
#[derive(Drop)]
struct Stream {
    most: usize,
    flushes: bool,
}

impl Write for Stream {
    fn write(&mut self, piece: &[u8]) -> io::Result<usize> {
        Ok(piece.len().min(self.most))
    }

    fn flush(&mut self) -> io::Result<()> {
        if self.flushes {
            Ok(())
        } else {
            Err(io::Error::from(ErrorKind::Other))
        }
    }
}

// What a piece that is written to such a stream ends with.
fn written(most: usize, flushes: bool) -> Result<(), WriteFault> {
    let mut sink = RealSink::over(Stream { most, flushes });
    write_piece(&mut sink, b"id\n")
}

#[test]
fn writes_to_a_stream_that_fails(rt: HostRuntime) {
    let fails = Err(WriteFault::Failed);
    assert!(rt; written(1, true) == Ok(()));
    assert!(rt; written(0, true) == fails);
    assert!(rt; written(1, false) == fails);
}

#[test]
fn writes_to_a_stream(rt: HostRuntime) -> Result<(), WriteFault> {
    let mut bytes = Vec::new(rt.alloc());
    let mut sink = RealSink::over(&mut bytes);
    write_piece(&mut sink, b"id\n")?;
    write_piece(&mut sink, b"7\n")?;
    drop(sink);
    assert!(rt; bytes.as_slice() == b"id\n7\n".as_slice());
    Ok(())
}
