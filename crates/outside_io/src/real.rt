// The files and streams of the machine. They tell no bytes.
ghost use Rattle.std.specs.Prelude.{◌≡◌, None};
ghost use Rattle.outside_io.specs.Real.{files_value, stream_faults, source_faults, source_absences, source_fetches, source_taken};

use crate::files::{Fetch, Files, Got};
use crate::sink::{Put, Sink};
use std::fs::File;
use std::io::{ErrorKind, Read, Write};
use std::rt;

/// A stream of the machine that is written to. A put that takes nothing of its piece, and one after
/// which the stream can't be flushed, is a fault.
#[derive(Drop)]
pub struct RealSink<W: Write + Drop> {
    writer: W,
    faults: u64,
}

impl<W: Write + Drop> RealSink<W> {
    /// A sink over the stream, which it keeps. No put has failed.
    pub fn over(writer: W) -> RealSink<W>
        ensures { stream_faults result ≡ 0 }
    {
        RealSink { writer, faults: 0 }
    }
}

impl<W: Write + Drop> Sink for RealSink<W> {
    ghost seen = { λ s. record { written = None; faults = stream_faults s } };

    /// Writes a front of the piece and flushes the stream.
    fn put(&mut self, piece: &[u8]) -> Put {
        if let Ok(count) = self.writer.write(piece)
            && count > 0
            && self.writer.flush().is_ok()
        {
            return Put::Took(count);
        }
        self.faults = self.faults.saturating_add(1);
        Put::Failed
    }
}

/// The files that a runtime opens.
#[derive(Drop)]
pub struct RealFiles<R: rt::Files + Drop> {
    rt: R,
    file: Option<R::File>,
    faults: u64,
    absences: u64,
    fetches: u64,
    taken: u64,
}

impl<R: rt::Files + Drop> RealFiles<R> {
    /// The files of the runtime, which is kept. All counts are 0.
    pub fn over(rt: R) -> RealFiles<R>
        ensures faults { source_faults result ≡ 0 }
        ensures absences { source_absences result ≡ 0 }
        ensures fetches { source_fetches result ≡ 0 }
        ensures taken { source_taken result ≡ 0 }
    {
        RealFiles {
            rt,
            file: None,
            faults: 0,
            absences: 0,
            fetches: 0,
            taken: 0,
        }
    }
}

impl<R: rt::Files + Drop> Files for RealFiles<R> {
    ghost seen = { files_value };

    ghost tells = { λ _ told. Prim.cc };

    /// Opens the file under the path. `Absent` is an opening that finds no file, and `Failed` every
    /// other one that is refused.
    fn fetch(&mut self, path: &str) -> Fetch {
        self.file = None;
        self.taken = 0;
        self.fetches = self.fetches.saturating_add(1);
        match File::open(&self.rt, path) {
            Ok(file) => {
                self.file = Some(file);
                Fetch::Fetched
            }
            Err(error) if error.kind() == ErrorKind::NotFound => {
                self.absences = self.absences.saturating_add(1);
                Fetch::Absent
            }
            Err(_) => {
                self.faults = self.faults.saturating_add(1);
                Fetch::Failed
            }
        }
    }

    /// Reads on in the opened file. With no file it is the end.
    fn read(&mut self, piece: &mut [u8]) -> Got {
        let Some(file) = &mut self.file else {
            return Got::End;
        };
        match file.read(piece) {
            Ok(0) => Got::End,
            Ok(count) => {
                self.taken = self.taken.saturating_add(count as u64);
                Got::Bytes(count)
            }
            Err(_) => {
                self.faults = self.faults.saturating_add(1);
                Got::Failed
            }
        }
    }
}
