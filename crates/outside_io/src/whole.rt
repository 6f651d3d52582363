// A file read to its end.
ghost use Rattle.std.specs.Prelude.{◌≡◌, ◌≢◌, ◌<◌, ◌≤◌, ◌^◌, ◌+◌, ◌↔◌, length, IfOk, IfSome, IsErrOf};
ghost use Rattle.outside_io.specs.Count.{HasRisen, raised};
ghost use Rattle.outside_io.specs.Files.{Serves};
ghost use Rattle.outside_io.specs.Whole.{IsWholeFile, IsLonger, IsAbsent};

use crate::files::{Fetch, Files, Got};
use std::alloc::{AllocError, Global};
use std::marker::Model;

// How many bytes a read asks for at most.
const PIECE: usize = 65536;

/// The bytes of a whole file.
#[derive(Drop)]
pub struct Bytes {
    bytes: Vec<u8>,
}

impl Model for Bytes {
    ghost use Rattle.std.specs.Prelude.{List, ℕ};

    ghost Value = { List ℕ };

    ghost view = { λ b. b.bytes.items };
}

impl Bytes {
    /// The bytes. Takes no memory.
    pub fn as_slice(&self) -> &[u8]
        ensures { result.now ≡ self.now }
    {
        &self.bytes
    }
}

/// Why a file wasn't read to its end.
#[derive(Clone, Copy, Debug, PartialEq, Eq)]
pub enum ReadFault {
    /// There is no file under the path.
    Absent,
    /// The file is longer than the limit.
    TooLong,
    /// A call of the source failed.
    Failed,
    /// Memory was refused.
    NoMemory,
}

impl From<AllocError> for ReadFault {
    ghost use Rattle.std.specs.Prelude.{◌≡◌};
    ghost use Rattle.outside_io.specs.declared.whole.ReadFault.TheVariants.{NoMemory};

    ghost from_gives = { λ _ e. e ≡ NoMemory };

    fn from(_: AllocError) -> Self {
        ReadFault::NoMemory
    }
}

/// Fetches the file under the path, once, and reads it to its end. A file of more than `limit` bytes
/// is `TooLong`, and `limit` + 1 bytes of it are taken; of any other file no more than it has.
/// `Absent` and `Failed` come from the calls of the source. After `NoMemory` an unknown part of the
/// file was read.
pub fn read_whole<F: Files>(
    alloc: Global,
    files: &mut F,
    path: &str,
    limit: usize,
) -> Result<Bytes, ReadFault>
    requires { limit < 2 ^ 32 }

    ensures told { IfOk result (λ bytes. IsWholeFile (F.seen files.old).contents path.now bytes) }
    ensures taken_all { IfOk result (λ bytes. length bytes ≡ (F.seen files.new).taken) }
    ensures within { IfOk result (λ bytes. length bytes ≤ limit) }

    ensures too_long { IsErrOf result ReadFault.TooLong ↔ (limit < (F.seen files.new).taken) }
    ensures told_longer { IsErrOf result ReadFault.TooLong →
        IsLonger (F.seen files.old).contents path.now limit }
    ensures absent { IsErrOf result ReadFault.Absent →
        HasRisen (F.seen files.old).absences (F.seen files.new).absences }
    ensures told_absent { IsErrOf result ReadFault.Absent →
        IsAbsent (F.seen files.old).contents path.now }
    ensures failed { IsErrOf result ReadFault.Failed →
        HasRisen (F.seen files.old).faults (F.seen files.new).faults }

    ensures taken { (F.seen files.new).taken ≤ limit + 1 }
    ensures fetches { (F.seen files.new).fetches ≡ raised (F.seen files.old).fetches 1 }
    ensures serves { Serves (F.seen files.old) (F.seen files.new) }
{
    match files.fetch(path) {
        Fetch::Fetched => {}
        Fetch::Absent => return Err(ReadFault::Absent),
        Fetch::Failed => return Err(ReadFault::Failed),
    }
    let mut piece = vec![in alloc; 0u8; PIECE]?;
    read_rest(alloc, files, &mut piece, limit)
}

// Reads the fetched file to its end, in pieces of at most the length of `piece`.
fn read_rest<F: Files>(
    alloc: Global,
    files: &mut F,
    piece: &mut [u8],
    limit: usize,
) -> Result<Bytes, ReadFault>
    requires limit { limit < 2 ^ 32 }
    requires piece { 0 < length piece.old }
    requires fetched { (F.seen files.old).taken ≡ 0 }

    ensures told { IfOk result (λ bytes. IfSome (F.seen files.old).rest (λ rest. rest ≡ bytes)) }
    ensures taken_all { IfOk result (λ bytes. length bytes ≡ (F.seen files.new).taken) }
    ensures within { IfOk result (λ bytes. length bytes ≤ limit) }

    ensures too_long { IsErrOf result ReadFault.TooLong ↔ (limit < (F.seen files.new).taken) }
    ensures told_longer { IsErrOf result ReadFault.TooLong →
        IfSome (F.seen files.old).rest (λ rest. limit < length rest) }
    ensures never_absent { result ≢ Err ReadFault.Absent }
    ensures failed { IsErrOf result ReadFault.Failed →
        HasRisen (F.seen files.old).faults (F.seen files.new).faults }

    ensures taken { (F.seen files.new).taken ≤ limit + 1 }
    ensures fetches { (F.seen files.new).fetches ≡ (F.seen files.old).fetches }
    ensures serves { Serves (F.seen files.old) (F.seen files.new) }
{
    let mut bytes = Vec::new(alloc);
    'reading: loop {
        let want = (limit + 1 - bytes.len()).min(piece.len());
        match files.read(&mut piece[..want]) {
            Got::End => return Ok(Bytes { bytes }),
            Got::Failed => return Err(ReadFault::Failed),
            Got::Bytes(n) => {
                if bytes.len() + n > limit {
                    return Err(ReadFault::TooLong);
                }
                bytes.extend_from_slice(&piece[..n])?;
            }
        }
    }
}
