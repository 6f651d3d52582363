// The work of one statement.
ghost use Rattle.std.specs.Prelude.{◌≡◌, ◌<◌, ◌≤◌, min, vec_len, vec_capacity};
ghost use Rattle.meaning_laws.specs.tables.Settled.{IsSettled};
ghost use Rattle.meaning_laws.specs.Validity.{AreValid};
ghost use Rattle.frame_store.specs.Objects.{tables};
ghost use Rattle.outside_io.specs.Count.{last_count};
ghost use Rattle.frame_store.specs.Shown.{shown};
ghost use Rattle.script_state.specs.Bindings.{bindings_of, noted_old, AreLive, AreGiven, AreNoted};

use crate::names::Names;
use crate::sweeping::{release, sweep};
use cell_core::{NoMemory, TextDict};
use frame_store::{ObjId, Store, Value};
use std::alloc::Global;

/// Names, objects and texts, the objects that the statement at work has made, and the charge of the forms.
#[derive(Drop)]
pub struct Work {
    pub(crate) alloc: Global,
    pub(crate) dict: TextDict,
    pub(crate) names: Names,
    pub(crate) store: Store,
    pub(crate) temps: Vec<ObjId>,
    pub(crate) charge: u64,
    ghost settled: { IsSettled shown dict (tables store) },
    ghost valid: { AreValid (shown dict (tables store)) },
    ghost live: { AreLive (bindings_of names.values.entries) (tables store) },
    ghost given: { AreGiven (bindings_of names.values.entries) dict },
    ghost noted: { AreNoted (bindings_of names.values.entries) temps.items (tables store) },
}

impl Work {
    ghost use Rattle.std.specs.Prelude.{[], None, OnOk, OnErr, is_some};
    ghost use Rattle.meaning_laws.specs.script.State.{most_rows, without_name};
    ghost use Rattle.frame_store.specs.World.{IsKnownValue};
    ghost use Rattle.frame_store.specs.Objects.{CountsOnce, KeepBlocks};
    ghost use Rattle.script_state.specs.Bindings.{bound, value_at, AreNamed, KeepNamed};
    ghost use Rattle.script_state.specs.Reads.{Costs};
    ghost use Rattle.script_state.specs.Work.{names_in, tab_of, tables_in, world_of, state_in};

    /// No names and no objects. Takes no memory.
    pub fn new(alloc: Global) -> Work
        ensures names { names_in result ≡ [] }
        ensures objects { tables_in result ≡ (λ _. None) }
        ensures tab { tab_of result ≡ record { charge = 0; held = 0 } }
    {
        Work {
            alloc,
            dict: TextDict::new(alloc),
            names: Names::new(alloc),
            store: Store::new(alloc),
            temps: Vec::new(alloc),
            charge: 0,
        }
    }

    /// Where memory is taken from.
    pub fn alloc(&self) -> Global {
        self.alloc
    }

    /// The texts by number.
    pub fn texts(&self) -> &TextDict
        ensures { result.now ≡ (world_of self.now).texts }
    {
        &self.dict
    }

    /// How many cells the forms that were done cost. The sum stops at its last number.
    pub fn charge(&self) -> u64
        ensures { result ≡ self.now.charge }
    {
        self.charge
    }

    /// Sets the charge, as where a statement isn't done.
    pub fn set_charge(&mut self, charge: u64)
        ensures { self.new ≡ record self.old { charge = charge } }
    {
        self.charge = charge;
    }

    /// How many cells the blocks of all objects have, up to the last number: at least the rows of each table with a
    /// column that a name stands for.
    pub fn held(&self) -> u64
        ensures held { result ≡ min (tab_of self.now).held last_count }
        ensures once { CountsOnce (tables_in self.now) (world_of self.now).holding }
        ensures least { most_rows (state_in self.now) ≤ result }
    {
        self.store.held()
    }

    /// The name gets the value. The object that it stood for is noted, so that `sweep` ends it where no other
    /// name stands for it. Want of memory leaves the names as they were.
    pub fn set_name(&mut self, name: &str, value: Value) -> Result<(), NoMemory>
        requires { IsKnownValue (world_of self.old) value }
        ensures ok { OnOk result (names_in self.new ≡ bound (names_in self.old) name.now value) }
        ensures err { OnErr result (names_in self.new ≡ names_in self.old) }
        ensures world { world_of self.new ≡ world_of self.old }
        ensures tab { tab_of self.new ≡ tab_of self.old }
    {
        self.temps.reserve(1)?;
        let left = self.names.bind(self.alloc, name, value)?;
        note_left(&mut self.temps, left);
        Ok(())
    }

    /// Takes a name out, with its object if no other name stands for it. Answers whether it was there.
    /// Takes no memory.
    pub fn forget(&mut self, name: &str) -> bool
        ensures there { result ≡ is_some (value_at (names_in self.old) name.now) }
        ensures texts { (world_of self.new).texts ≡ (world_of self.old).texts }
        ensures state { state_in self.new ≡ without_name (state_in self.old) name.now }
        ensures named { AreNamed (names_in self.old) (tables_in self.old)
            → AreNamed (names_in self.new) (tables_in self.new) }
        ensures tab { Costs 0 (tab_of self.old) (tab_of self.new) }
    {
        let left = self.names.unbind(name);
        release(&self.names, &mut self.store, left);
        left.is_some()
    }

    /// Ends what no name stands for.
    pub fn sweep(&mut self)
        ensures names { names_in self.new ≡ names_in self.old }
        ensures texts { (world_of self.new).texts ≡ (world_of self.old).texts }
        ensures named { AreNamed (names_in self.new) (tables_in self.new) }
        ensures kept { KeepNamed (names_in self.new) (tables_in self.old) (tables_in self.new) }
        ensures blocks { KeepBlocks None self.old.store self.new.store }
        ensures tab { Costs 0 (tab_of self.old) (tab_of self.new) }
    {
        sweep(&self.names, &mut self.temps, &mut self.store);
    }
}

// The object that a name stood for is noted.
fn note_left(temps: &mut Vec<ObjId>, left: Option<Value>)
    requires { vec_len temps.old < vec_capacity temps.old }
    ensures { temps.new.items ≡ noted_old temps.old.items left }
{
    if let Some(Value::Object(id)) = left {
        temps.push_reserved(id);
    }
}
