// Where files come from, one at a time.
ghost use Rattle.std.specs.Prelude.{◌≡◌, ◌<◌, length, IsSome, IfSome};
ghost use Rattle.outside_io.specs.Count.{HasRisen, raised};
ghost use Rattle.outside_io.specs.Files.{FilesValue, Serves, IsGotWithin, taken_after, Fetches, Reads};

/// What a fetch found.
#[derive(Clone, Copy, Debug, PartialEq, Eq)]
pub enum Fetch {
    /// The file is there, and is read from its first byte on.
    Fetched,
    /// There is no file under the path.
    Absent,
    /// The call failed.
    Failed,
}

/// What a read gave.
#[derive(Clone, Copy, Debug, PartialEq, Eq)]
pub enum Got {
    /// So many bytes stand at the front of the piece.
    Bytes(usize),
    /// The file has no more bytes.
    End,
    /// The call failed.
    Failed,
}

/// A source of files, which gives the bytes of one file at a time. Its counts stop at 2^64 - 1.
pub trait Files {
    /// What is seen of the source: its contents and what is left of the fetched file, where they
    /// are told, and its counts.
    ghost seen: { Self → FilesValue };

    /// Goes to the first byte of the file under the path, and leaves the file that was read before.
    fn fetch(&mut self, path: &str) -> Fetch
        ensures rest { IfSome (seen self.old).contents (λ held.
            Fetches held path.now result (seen self.new).rest) }

        ensures serves { Serves (seen self.old) (seen self.new) }
        ensures fetches { (seen self.new).fetches ≡ raised (seen self.old).fetches 1 }
        ensures taken { (seen self.new).taken ≡ 0 }

        ensures failed { result ≡ Fetch.Failed →
            HasRisen (seen self.old).faults (seen self.new).faults }
        ensures absent { result ≡ Fetch.Absent →
            HasRisen (seen self.old).absences (seen self.new).absences };

    /// Puts the next bytes of the fetched file at the front of the piece, which isn't empty.
    fn read(&mut self, piece: &mut [u8]) -> Got
        requires { 0 < length piece.old }

        ensures within { IsGotWithin result (length piece.old) }
        ensures bytes { IfSome (seen self.old).rest (λ before.
            Reads before result piece.new (seen self.new).rest) }

        ensures serves { Serves (seen self.old) (seen self.new) }
        ensures fetches { (seen self.new).fetches ≡ (seen self.old).fetches }
        ensures taken { (seen self.new).taken ≡ taken_after result (seen self.old).taken }

        ensures failed { result ≡ Got.Failed →
            HasRisen (seen self.old).faults (seen self.new).faults };

    /// Where the contents are told, the rest is told too.
    ghost tells: { (files : Self) → IsSome (seen files).contents → IsSome (seen files).rest };
}
