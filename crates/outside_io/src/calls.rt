// Which calls are to fail, and how much one gives or takes.
ghost use Rattle.std.specs.Prelude.{◌≡◌, ◌↔◌, ◌++◌, ◌∷◌, [], Some, IsTrue, OnOk, OnErr};
ghost use Rattle.outside_io.specs.Memory.{IsNamed, call_after, limited};

use cell_core::NoMemory;
use std::alloc::Global;

/// The number of the next call, counted from 0, and the calls that are to fail. A call from 2^64 on
/// has no number.
#[derive(Drop)]
pub(crate) struct Calls {
    pub(crate) next: Option<u64>,
    pub(crate) failing: Vec<u64>,
}

impl Calls {
    /// Calls of which none is to fail; the next one is the first. Takes no memory.
    pub(crate) fn new(alloc: Global) -> Calls
        ensures next { result.next ≡ Some 0 }
        ensures failing { result.failing.items ≡ [] }
    {
        Calls {
            next: Some(0),
            failing: Vec::new(alloc),
        }
    }

    /// Names a call that is to fail. `NoMemory` leaves all as it was.
    pub(crate) fn fail_at(&mut self, call: u64) -> Result<(), NoMemory>
        ensures ok { OnOk result (self.new.failing.items ≡ self.old.failing.items ++ call ∷ []) }
        ensures err { OnErr result (self.new.failing.items ≡ self.old.failing.items) }
        ensures next { self.new.next ≡ self.old.next }
    {
        self.failing.push(call)?;
        Ok(())
    }

    /// Counts a call, and says whether it is to fail.
    pub(crate) fn fails(&mut self) -> bool
        ensures named { IsTrue result ↔ IsNamed self.old.next self.old.failing.items }
        ensures next { self.new.next ≡ call_after self.old.next }
        ensures failing { self.new.failing ≡ self.old.failing }
    {
        let Some(call) = self.next else {
            return false;
        };
        self.next = call.checked_add(1);
        self.failing.contains(&call)
    }
}

/// So many bytes, or as many as a limit lets through.
pub(crate) fn limited(length: usize, most: Option<usize>) -> usize
    ensures { result ≡ limited most length }
{
    match most {
        Some(most) => length.min(most),
        None => length,
    }
}
