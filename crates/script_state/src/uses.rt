// How many names stand for each object.
ghost use Rattle.std.specs.Prelude.{◌≡◌, ◌<◌, OnOk, Some, IsSome, if◌then◌else◌, nat_eq};
ghost use Rattle.indexmap.specs.IndexMap.{get};
ghost use Rattle.frame_store.specs.declared.object.ObjId.{ObjId as Id};
ghost use Rattle.script_state.specs.Uses.{same_id, count_at, with_one, with_left, HasRoom, HasRoomFor, CanTake};

use cell_core::NoMemory;
use frame_store::{ObjId, Value};
use indexmap::IndexMap;
use std::alloc::Global;

// How many names stand for each object. An object that isn't among them has none.
#[derive(Drop)]
pub(crate) struct Uses {
    pub(crate) counts: IndexMap<ObjId, usize>,
}

impl Uses {
    pub(crate) fn new(alloc: Global) -> Uses
        ensures { (id : Id) → count_at result id ≡ 0 }
    {
        Uses {
            counts: IndexMap::new(alloc),
        }
    }

    // How many names stand for the object.
    pub(crate) fn count(&self, id: ObjId) -> usize
        ensures { result ≡ count_at self.now id }
    {
        match self.counts.get(&id) {
            Some(count) => *count,
            None => 0,
        }
    }

    // Makes room for one name more of a value. `NoMemory` also where a count can't rise.
    pub(crate) fn make_room(&mut self, value: Value) -> Result<(), NoMemory>
        ensures same { (id : Id) → count_at self.new id ≡ count_at self.old id }
        ensures room { OnOk result (HasRoom self.new value) }
    {
        match value {
            Value::Object(id) => self.make_room_for(id),
            Value::Scalar(_) => Ok(()),
        }
    }

    // One name more stands for the value.
    pub(crate) fn add(&mut self, value: Value)
        requires { HasRoom self.old value }
        ensures { (id : Id) → count_at self.new id ≡ with_one value id.0 (count_at self.old id) }
    {
        if let Value::Object(id) = value {
            let count = self.count(id) + 1;
            self.put(id, count);
        }
    }

    // One name less stands for the value that a name has left.
    pub(crate) fn take(&mut self, left: Option<Value>)
        requires { CanTake left (count_at self.old) }
        ensures { (id : Id) → with_left left id.0 (count_at self.new id) ≡ count_at self.old id }
    {
        if let Some(Value::Object(id)) = left {
            let count = self.count(id) - 1;
            self.put(id, count);
        }
    }

    fn make_room_for(&mut self, id: ObjId) -> Result<(), NoMemory>
        ensures same { (other : Id) → count_at self.new other ≡ count_at self.old other }
        ensures room { OnOk result (HasRoomFor self.new id) }
    {
        let count = self.count(id);
        if count == usize::MAX {
            return Err(NoMemory);
        }
        self.counts.insert(id, count)?;
        Ok(())
    }

    // The count of an object that has one. Takes no memory.
    fn put(&mut self, id: ObjId, count: usize)
        requires { IsSome (get same_id self.old.counts id) }
        ensures { (other : Id) → get same_id self.new.counts other
            ≡ (if nat_eq id.0 other.0 then Some count else get same_id self.old.counts other) }
    {
        let _ = self.counts.insert(id, count);
    }
}
