// Files in memory.
ghost use Rattle.std.specs.Prelude.{◌≡◌, ◌≤◌, ◌<◌, ◌↔◌, ◌++◌, ◌∷◌, [], length, Some, None, OnOk, OnErr};
ghost use Rattle.std.specs.FinMap.{empty, insert};
ghost use Rattle.outside_io.specs.Count.{HasRisen, raised};
ghost use Rattle.outside_io.specs.Files.{Fetches, Reads, IsGotWithin, taken_after};
ghost use Rattle.outside_io.specs.Memory.{IsNamed, call_after, limited, faults_after_fetch, absences_after_fetch, faults_after_read};

use crate::calls::{Calls, limited};
use crate::files::{Fetch, Files, Got};
use crate::shelf::Shelf;
use cell_core::NoMemory;
use std::alloc::Global;
use std::marker::Model;

/// Files in memory, whose calls fail where it is said beforehand, and give no more than it is said.
/// They keep the allocator that they were made with.
#[derive(Drop)]
pub struct MemFiles {
    alloc: Global,
    shelf: Shelf,
    calls: Calls,
    most: Option<usize>,
    faults: u64,
    absences: u64,
    fetches: u64,
    taken: u64,
}

impl Model for MemFiles {
    ghost use Rattle.outside_io.specs.Memory.{FilesInMemory, files_code, IsLimit};

    ghost Value = { FilesInMemory };

    ghost coded = { files_code };

    ghost view = { λ s. record {
      contents = s.shelf.contents;
      rest = s.shelf.rest;
      faults = s.faults;
      absences = s.absences;
      fetches = s.fetches;
      taken = s.taken;
      next_call = s.calls.next;
      failing = s.calls.failing.items;
      most = s.most;
    } };

    ghost invariant = { λ s. IsLimit s.most };
}

impl MemFiles {
    /// No files. No call is to fail, and no read is limited. Takes no memory.
    pub fn new(alloc: Global) -> MemFiles
        ensures contents { result.contents ≡ empty }
        ensures rest { result.rest ≡ [] }
        ensures faults { result.faults ≡ 0 }
        ensures absences { result.absences ≡ 0 }
        ensures fetches { result.fetches ≡ 0 }
        ensures taken { result.taken ≡ 0 }
        ensures next_call { result.next_call ≡ Some 0 }
        ensures failing { result.failing ≡ [] }
        ensures most { result.most ≡ None }
    {
        MemFiles {
            alloc,
            shelf: Shelf::new(alloc),
            calls: Calls::new(alloc),
            most: None,
            faults: 0,
            absences: 0,
            fetches: 0,
            taken: 0,
        }
    }

    /// Holds these bytes under the path, in place of what it held. A file that was fetched before is
    /// read on as it was. `NoMemory` leaves all as it was.
    pub fn hold(&mut self, path: &str, bytes: &[u8]) -> Result<(), NoMemory>
        ensures ok { OnOk result (self.new
            ≡ record self.old { contents = insert self.old.contents path.now bytes.now }) }
        ensures err { OnErr result (self.new ≡ self.old) }
    {
        self.shelf.hold(self.alloc, path, bytes)
    }

    /// Names a call that is to fail, by its number, counted from 0 over `fetch` and `read`.
    /// `NoMemory` leaves all as it was.
    pub fn fail_at(&mut self, call: u64) -> Result<(), NoMemory>
        ensures ok { OnOk result (self.new
            ≡ record self.old { failing = self.old.failing ++ call ∷ [] }) }
        ensures err { OnErr result (self.new ≡ self.old) }
    {
        self.calls.fail_at(call)
    }

    /// Makes each later `read` give at most so many bytes. Takes no memory.
    pub fn limit_read(&mut self, most: usize)
        requires { 0 < most }
        ensures { self.new ≡ record self.old { most = Some most } }
    {
        self.most = Some(most);
    }
}

impl Files for MemFiles {
    ghost use Rattle.std.specs.Prelude.{Some};

    ghost seen = { λ s. record {
      contents = Some s.contents;
      rest = Some s.rest;
      faults = s.faults;
      absences = s.absences;
      fetches = s.fetches;
      taken = s.taken;
    } };

    ghost tells = { λ _ told. Prim.cc };

    /// Fails exactly where the call was named. Takes no memory.
    fn fetch(&mut self, path: &str) -> Fetch
        ensures named { (result ≡ Fetch.Failed) ↔ IsNamed self.old.next_call self.old.failing }
        ensures next_call { self.new.next_call ≡ call_after self.old.next_call }
        ensures failing { self.new.failing ≡ self.old.failing }
        ensures most { self.new.most ≡ self.old.most }

        ensures contents { self.new.contents ≡ self.old.contents }
        ensures rest { Fetches self.old.contents path.now result (Some self.new.rest) }

        ensures counted { self.new.faults ≡ faults_after_fetch result self.old.faults }
        ensures faults { self.old.faults ≤ self.new.faults }
        ensures failed { result ≡ Fetch.Failed → HasRisen self.old.faults self.new.faults }
        ensures missed { self.new.absences ≡ absences_after_fetch result self.old.absences }
        ensures absences { self.old.absences ≤ self.new.absences }
        ensures absent { result ≡ Fetch.Absent → HasRisen self.old.absences self.new.absences }
        ensures fetches { self.new.fetches ≡ raised self.old.fetches 1 }
        ensures taken { self.new.taken ≡ 0 }
    {
        self.shelf.leave();
        self.taken = 0;
        self.fetches = self.fetches.saturating_add(1);
        if self.calls.fails() {
            self.faults = self.faults.saturating_add(1);
            return Fetch::Failed;
        }
        if !self.shelf.fetch(path) {
            self.absences = self.absences.saturating_add(1);
            return Fetch::Absent;
        }
        Fetch::Fetched
    }

    /// Fails exactly where the call was named, and gives no more than the limit. Takes no memory.
    fn read(&mut self, piece: &mut [u8]) -> Got
        requires { 0 < length piece.old }

        ensures named { (result ≡ Got.Failed) ↔ IsNamed self.old.next_call self.old.failing }
        ensures next_call { self.new.next_call ≡ call_after self.old.next_call }
        ensures failing { self.new.failing ≡ self.old.failing }
        ensures most { self.new.most ≡ self.old.most }

        ensures limited { IsGotWithin result (limited self.old.most (length piece.old)) }
        ensures within { IsGotWithin result (length piece.old) }
        ensures bytes { Reads self.old.rest result piece.new (Some self.new.rest) }
        ensures contents { self.new.contents ≡ self.old.contents }

        ensures counted { self.new.faults ≡ faults_after_read result self.old.faults }
        ensures faults { self.old.faults ≤ self.new.faults }
        ensures failed { result ≡ Got.Failed → HasRisen self.old.faults self.new.faults }
        ensures absences { self.new.absences ≡ self.old.absences }
        ensures fetches { self.new.fetches ≡ self.old.fetches }
        ensures taken { self.new.taken ≡ taken_after result self.old.taken }
    {
        if self.calls.fails() {
            self.faults = self.faults.saturating_add(1);
            return Got::Failed;
        }
        let want = limited(piece.len(), self.most);
        let count = self.shelf.read(&mut piece[..want]);
        if count == 0 {
            return Got::End;
        }
        self.taken = self.taken.saturating_add(count as u64);
        Got::Bytes(count)
    }
}
