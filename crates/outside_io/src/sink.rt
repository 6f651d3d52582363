// Where bytes go.
ghost use Rattle.std.specs.Prelude.{◌≡◌, ◌<◌, ◌≤◌, [], length, IsOk, IsErr, OnOk, OnErr};
ghost use Rattle.outside_io.specs.Count.{HasRisen};
ghost use Rattle.outside_io.specs.Sink.{SinkValue, IsWithin, appended, taken_of, AppendsPart};

/// What a sink did with a piece.
#[derive(Clone, Copy, Debug, PartialEq, Eq)]
pub enum Put {
    /// It took so many bytes from the front of the piece.
    Took(usize),
    /// The call failed, and nothing was taken.
    Failed,
}

/// A destination of bytes. Its count stops at 2^64 - 1.
pub trait Sink {
    /// What is seen of the sink: the bytes that were written, where it tells them, and how many
    /// calls have failed.
    ghost seen: { Self → SinkValue };

    /// Appends a front of the piece, which isn't empty.
    fn put(&mut self, piece: &[u8]) -> Put
        requires { 0 < length piece.now }

        ensures within { IsWithin result (length piece.now) }
        ensures written { (seen self.new).written ≡
            appended (seen self.old).written (taken_of result piece.now) }

        ensures faults { (seen self.old).faults ≤ (seen self.new).faults }
        ensures failed { result ≡ Put.Failed →
            HasRisen (seen self.old).faults (seen self.new).faults };
}

/// Why a piece wasn't written to its end.
#[derive(Clone, Copy, Debug, PartialEq, Eq)]
pub enum WriteFault {
    /// A call of the sink failed.
    Failed,
}

/// Writes the whole piece, or fails after a front of it that leaves at least one byte, where a call of
/// the sink failed. An empty piece is written without a call. Takes no memory.
pub fn write_piece<S: Sink>(sink: &mut S, piece: &[u8]) -> Result<(), WriteFault>
    ensures ok { OnOk result (
        (S.seen sink.new).written ≡ appended (S.seen sink.old).written piece.now) }
    ensures err { OnErr result (
        AppendsPart (S.seen sink.old).written (S.seen sink.new).written piece.now) }
    ensures empty { piece.now ≡ [] → IsOk result }

    ensures faults { (S.seen sink.old).faults ≤ (S.seen sink.new).faults }
    ensures failed { IsErr result → HasRisen (S.seen sink.old).faults (S.seen sink.new).faults }
{
    let mut done = 0;
    while done < piece.len() {
        match sink.put(&piece[done..]) {
            Put::Took(n) => done += n,
            Put::Failed => return Err(WriteFault::Failed),
        }
    }
    Ok(())
}
