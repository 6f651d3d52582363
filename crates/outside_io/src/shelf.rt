// Held files, and the one of them that is read.
ghost use Rattle.std.specs.Prelude.{◌≡◌, ◌<◌, ◌≤◌, ◌+◌, ◌++◌, ◌∷◌, [], length, take, drop, position, Some, None, IsTrue, IsFalse, OnOk, OnErr};
ghost use Rattle.std.specs.FinMap.{empty, get, insert};
ghost use Rattle.outside_io.specs.Shelf.{is_under, bytes_at, reading_bytes, least_held, with_bytes, kept_reading};

use cell_core::{NoMemory, Words};
use std::alloc::Global;
use std::marker::Model;
use std::mem;

/// A file by its path.
#[derive(Drop)]
pub(crate) struct HeldFile {
    pub(crate) path: Words,
    pub(crate) bytes: Vec<u8>,
}

/// Which file is read. Other bytes under its path leave it as it was.
#[derive(Drop)]
pub(crate) enum Reading {
    /// No file, or one that was read and left.
    Nothing,
    /// The held file at this place.
    Held(usize),
    /// What a held file was before its path was given other bytes.
    Replaced(Vec<u8>),
}

/// Held files, and how far one of them was read.
#[derive(Drop)]
pub(crate) struct Shelf {
    files: Vec<HeldFile>,
    reading: Reading,
    at: usize,
}

impl Model for Shelf {
    ghost use Rattle.std.specs.Prelude.{◌≤◌, drop, length};
    ghost use Rattle.outside_io.specs.Shelf.{Shelved, shelved_code, map_of, reading_bytes, least_held};

    ghost Value = { Shelved };

    ghost coded = { shelved_code };

    ghost view = { λ s. record { contents = map_of s.files.items; rest = drop s.at (reading_bytes s.files.items s.reading) } };

    ghost invariant = { λ s. (least_held s.reading ≤ length s.files.items) × (s.at ≤ length (reading_bytes s.files.items s.reading)) };
}

impl Shelf {
    /// A shelf without files, of which none is read. Takes no memory.
    pub(crate) fn new(alloc: Global) -> Shelf
        ensures { result ≡ record { contents = empty; rest = [] } }
    {
        Shelf {
            files: Vec::new(alloc),
            reading: Reading::Nothing,
            at: 0,
        }
    }

    /// Reads no file any more.
    pub(crate) fn leave(&mut self)
        ensures { self.new ≡ record self.old { rest = [] } }
    {
        self.reading = Reading::Nothing;
        self.at = 0;
    }

    /// Goes to the first byte of the file under a path, and says whether there is one.
    pub(crate) fn fetch(&mut self, path: &str) -> bool
        ensures contents { self.new.contents ≡ self.old.contents }
        ensures held { IsTrue result → get self.old.contents path.now ≡ Some self.new.rest }
        ensures absent { IsFalse result →
            (get self.old.contents path.now ≡ None) × (self.new.rest ≡ []) }
    {
        self.at = 0;
        match locate(&self.files, path) {
            Some(place) => {
                self.reading = Reading::Held(place);
                true
            }
            None => {
                self.reading = Reading::Nothing;
                false
            }
        }
    }

    /// Puts the next bytes of the file that is read at the front of the piece, as many as fit, and
    /// counts them.
    pub(crate) fn read(&mut self, piece: &mut [u8]) -> usize
        ensures contents { self.new.contents ≡ self.old.contents }
        ensures within { result ≤ length piece.old }
        ensures count { result ≤ length self.old.rest }
        ensures none { result ≡ 0 → 0 < length piece.old → self.old.rest ≡ [] }
        ensures bytes { take result piece.new ≡ take result self.old.rest }
        ensures rest { self.new.rest ≡ drop result self.old.rest }
    {
        let count = copy_front(bytes_of(&self.files, &self.reading), self.at, piece);
        self.at += count;
        count
    }

    /// Holds these bytes under the path. The file that is read stays as it is.
    pub(crate) fn hold(&mut self, alloc: Global, path: &str, bytes: &[u8]) -> Result<(), NoMemory>
        ensures ok { OnOk result (self.new
            ≡ record self.old { contents = insert self.old.contents path.now bytes.now }) }
        ensures err { OnErr result (self.new ≡ self.old) }
    {
        let bytes = bytes.to_vec(alloc)?;
        match locate(&self.files, path) {
            Some(place) => {
                let replaced = replace_bytes(&mut self.files, place, bytes);
                keep_reading(&mut self.reading, place, replaced);
                Ok(())
            }
            None => push_file(alloc, &mut self.files, path, bytes),
        }
    }
}

// The place of the first file under a path.
fn locate(files: &[HeldFile], path: &str) -> Option<usize>
    ensures { result ≡ position (is_under path.now) files.now }
{
    files.iter().position(|file| file.path.as_str() == path)
}

// All bytes of the file that is read.
fn bytes_of<'a>(files: &'a [HeldFile], reading: &'a Reading) -> &'a [u8]
    requires { least_held reading.now ≤ length files.now }
    ensures { result.now ≡ reading_bytes files.now reading.now }
{
    match reading {
        Reading::Nothing => &[],
        Reading::Held(place) => &files[*place].bytes,
        Reading::Replaced(bytes) => bytes,
    }
}

// Copies bytes from an offset on to the front of the piece, as many as fit, and counts them.
fn copy_front(bytes: &[u8], at: usize, piece: &mut [u8]) -> usize
    requires { at ≤ length bytes.now }
    ensures within { result ≤ length piece.old }
    ensures count { at + result ≤ length bytes.now }
    ensures none { result ≡ 0 → 0 < length piece.old → drop at bytes.now ≡ [] }
    ensures bytes { take result piece.new ≡ take result (drop at bytes.now) }
{
    let rest = &bytes[at..];
    let n = rest.len().min(piece.len());
    piece[..n].copy_from_slice(&rest[..n]);
    n
}

// Gives the file at a place other bytes, and gives back those that it had.
fn replace_bytes(files: &mut Vec<HeldFile>, place: usize, bytes: Vec<u8>) -> Vec<u8>
    requires { place < length files.old.items }
    ensures old { result.items ≡ bytes_at files.old.items place }
    ensures new { files.new.items ≡ with_bytes files.old.items place bytes }
{
    mem::replace(&mut files[place].bytes, bytes)
}

// One more file, the last.
fn push_file(
    alloc: Global,
    files: &mut Vec<HeldFile>,
    path: &str,
    bytes: Vec<u8>,
) -> Result<(), NoMemory>
    ensures ok { OnOk result (files.new.items
        ≡ files.old.items ++ record { path = path.now; bytes = bytes } ∷ []) }
    ensures err { OnErr result (files.new.items ≡ files.old.items) }
{
    let path = Words::from_text(alloc, path)?;
    files.push(HeldFile { path, bytes })?;
    Ok(())
}

// Keeps what the file at a place was, if it is the one that is read.
fn keep_reading(reading: &mut Reading, place: usize, replaced: Vec<u8>)
    ensures { reading.new ≡ kept_reading reading.old place (Reading.Replaced replaced) }
{
    if let Reading::Held(held) = reading
        && *held == place
    {
        *reading = Reading::Replaced(replaced);
    }
}
