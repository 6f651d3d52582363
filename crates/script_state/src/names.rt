// Names and their values.
ghost use Rattle.std.specs.Prelude.{◌≡◌, IfOk, OnOk, OnErr};
ghost use Rattle.std.specs.String.{string_eq};
ghost use Rattle.indexmap.specs.IndexMap.{IsUnique};
ghost use Rattle.std.proofs.lemmas.Map.Keys.{IsDistinct-prop};
ghost use Rattle.indexmap.specs.IndexMap.{keys};
ghost use Rattle.script_state.specs.Bindings.{bindings_of, bound, unbound, value_at, is_named};
ghost use Rattle.script_state.specs.Uses.{AreCounted};

use crate::uses::Uses;
use cell_core::NoMemory;
use frame_store::{ObjId, Value};
use indexmap::IndexMap;
use std::alloc::Global;

// Names with their values, and beside them how many names stand for each object.
#[derive(Drop)]
pub(crate) struct Names {
    pub(crate) values: IndexMap<String, Value>,
    pub(crate) uses: Uses,
    ghost unique: { IsUnique string_eq values } by { IsDistinct-prop string_eq (keys values) },
    ghost counted: { AreCounted (bindings_of values.entries) uses },
}

impl Names {
    ghost use Rattle.std.specs.Prelude.{[]};

    pub(crate) fn new(alloc: Global) -> Names
        ensures { bindings_of result.values.entries ≡ [] }
    {
        Names {
            values: IndexMap::new(alloc),
            uses: Uses::new(alloc),
        }
    }

    // Whether a name stands for the object.
    #[tactic(auto, using(crate::proofs::UseLaws::named_uses))]
    pub(crate) fn has(&self, id: ObjId) -> bool
        ensures { result ≡ is_named (bindings_of self.now.values.entries) id.0 }
    {
        self.uses.count(id) > 0
    }

    // The name gets the value, in its own place or last. Answers the value that it had.
    pub(crate) fn bind(
        &mut self,
        alloc: Global,
        name: &str,
        value: Value,
    ) -> Result<Option<Value>, NoMemory>
        ensures bound { OnOk result (bindings_of self.new.values.entries
            ≡ bound (bindings_of self.old.values.entries) name.now value) }
        ensures left { IfOk result
            (λ left. left ≡ value_at (bindings_of self.old.values.entries) name.now) }
        ensures same { OnErr result (self.new.values.entries ≡ self.old.values.entries) }
    {
        self.uses.make_room(value)?;
        let left = bind(alloc, &mut self.values, name, value)?;
        self.uses.add(value);
        self.uses.take(left);
        Ok(left)
    }

    // The name is taken out. Answers the value that it had. Takes no memory.
    #[tactic(auto, using(crate::proofs::UseLaws::takes_unbound))]
    pub(crate) fn unbind(&mut self, name: &str) -> Option<Value>
        ensures unbound { bindings_of self.new.values.entries
            ≡ unbound (bindings_of self.old.values.entries) name.now }
        ensures left { result ≡ value_at (bindings_of self.old.values.entries) name.now }
    {
        let left = unbind(&mut self.values, name);
        self.uses.take(left);
        left
    }
}

// The value of a name.
#[tactic(auto, using(crate::proofs::Hints::find))]
pub(crate) fn find(names: &IndexMap<String, Value>, name: &str) -> Option<Value>
    ensures { result ≡ value_at (bindings_of names.now.entries) name.now }
{
    names.get(name).copied()
}

// The name gets the value, in its own place or last. Answers the value that it had.
#[tactic(auto, using(crate::proofs::Bindings::bound_entries, crate::proofs::Bindings::left_entry))]
fn bind(
    alloc: Global,
    names: &mut IndexMap<String, Value>,
    name: &str,
    value: Value,
) -> Result<Option<Value>, NoMemory>
    ensures bound { OnOk result (bindings_of names.new.entries
        ≡ bound (bindings_of names.old.entries) name.now value) }
    ensures left { IfOk result
        (λ left. left ≡ value_at (bindings_of names.old.entries) name.now) }
    ensures unique { OnOk result (IsUnique string_eq names.new) }
    ensures same { OnErr result (names.new.entries ≡ names.old.entries) }
{
    let key = String::from_str(alloc, name)?;
    let left = names.insert(key, value)?;
    Ok(left)
}

// The name is taken out. Answers the value that it had. Takes no memory.
fn unbind(names: &mut IndexMap<String, Value>, name: &str) -> Option<Value>
    ensures unbound { bindings_of names.new.entries
        ≡ unbound (bindings_of names.old.entries) name.now }
    ensures left { result ≡ value_at (bindings_of names.old.entries) name.now }
    ensures unique { IsUnique string_eq names.new }
{
    names.shift_remove(name)
}
