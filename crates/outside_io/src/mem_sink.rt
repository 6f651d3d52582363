// A sink in memory.
ghost use Rattle.std.specs.Prelude.{◌≡◌, ◌<◌, ◌≤◌, ◌+◌, ◌++◌, ◌∷◌, [], length, Some, None, IfOk, OnOk, OnErr};
ghost use Rattle.outside_io.specs.Count.{HasRisen};
ghost use Rattle.outside_io.specs.Sink.{IsWithin, taken_of};
ghost use Rattle.outside_io.specs.Memory.{IsNamed, call_after, limited, put_within, faults_after_put};

use crate::calls::{Calls, limited};
use crate::sink::{Put, Sink};
use cell_core::NoMemory;
use std::alloc::Global;
use std::marker::Model;

/// A sink that takes so many bytes and keeps them. Its puts fail where it is said beforehand, and take no
/// more than it is said.
#[derive(Drop)]
pub struct MemSink {
    bytes: Vec<u8>,
    room: usize,
    calls: Calls,
    most: Option<usize>,
    faults: u64,
}

impl Model for MemSink {
    ghost use Rattle.std.specs.Prelude.{◌+◌, ◌≤◌, vec_len, vec_capacity};
    ghost use Rattle.outside_io.specs.Memory.{SinkInMemory, IsLimit};

    ghost Value = { SinkInMemory };

    ghost view = { λ s. record {
      written = s.bytes.items;
      room = s.room;
      faults = s.faults;
      next_call = s.calls.next;
      failing = s.calls.failing.items;
      most = s.most;
    } };

    ghost invariant = { λ s. (vec_len s.bytes + s.room ≤ vec_capacity s.bytes) × IsLimit s.most };
}

impl MemSink {
    /// An empty sink with room for so many bytes, which are reserved here. No put is to fail, and none is
    /// limited.
    pub fn with_room(alloc: Global, room: usize) -> Result<MemSink, NoMemory>
        ensures { IfOk result (λ sink. sink ≡ record {
          written = [];
          room = room;
          faults = 0;
          next_call = Some 0;
          failing = [];
          most = None;
        }) }
    {
        Ok(MemSink {
            bytes: Vec::with_capacity(alloc, room)?,
            room,
            calls: Calls::new(alloc),
            most: None,
            faults: 0,
        })
    }

    /// Names a put that is to fail, by its number, counted from 0. `NoMemory` leaves all as it was.
    pub fn fail_at(&mut self, call: u64) -> Result<(), NoMemory>
        ensures ok { OnOk result (self.new
            ≡ record self.old { failing = self.old.failing ++ call ∷ [] }) }
        ensures err { OnErr result (self.new ≡ self.old) }
    {
        self.calls.fail_at(call)
    }

    /// Makes each later `put` take at most so many bytes. Takes no memory.
    pub fn limit_put(&mut self, most: usize)
        requires { 0 < most }
        ensures { self.new ≡ record self.old { most = Some most } }
    {
        self.most = Some(most);
    }

    /// The bytes that it took. Takes no memory.
    pub fn written(&self) -> &[u8]
        ensures { result.now ≡ self.now.written }
    {
        &self.bytes
    }
}

impl Sink for MemSink {
    ghost use Rattle.std.specs.Prelude.{Some};

    ghost seen = { λ s. record { written = Some s.written; faults = s.faults } };

    /// Takes what fits of the piece within the limit. Fails exactly where the put was named or no byte fits.
    /// Takes no memory.
    fn put(&mut self, piece: &[u8]) -> Put
        requires { 0 < length piece.now }

        ensures within { IsWithin result (length piece.now) }
        ensures named { IsNamed self.old.next_call self.old.failing → result ≡ Put.Failed }
        ensures fits { ¬ IsNamed self.old.next_call self.old.failing →
            result ≡ put_within self.old.room (limited self.old.most (length piece.now)) }
        ensures next_call { self.new.next_call ≡ call_after self.old.next_call }
        ensures failing { self.new.failing ≡ self.old.failing }
        ensures most { self.new.most ≡ self.old.most }

        ensures written { self.new.written ≡ self.old.written ++ taken_of result piece.now }
        ensures room { self.new.room + length (taken_of result piece.now) ≡ self.old.room }

        ensures counted { self.new.faults ≡ faults_after_put result self.old.faults }
        ensures faults { self.old.faults ≤ self.new.faults }
        ensures failed { result ≡ Put.Failed → HasRisen self.old.faults self.new.faults }
    {
        let n = limited(piece.len(), self.most).min(self.room);
        if self.calls.fails() || n == 0 {
            self.faults = self.faults.saturating_add(1);
            return Put::Failed;
        }
        self.bytes.extend_from_slice(&piece[..n]).unwrap();
        self.room -= n;
        Put::Took(n)
    }
}
