// The end of objects without names.
ghost use Rattle.std.specs.Prelude.{None};
ghost use Rattle.frame_store.specs.Objects.{tables, with_object, KeepBlocks, Raises, Turns};
ghost use Rattle.script_state.specs.Bindings.{bindings_of, released, AreNoted, AreNamed, KeepNamed};

use crate::names::Names;
use frame_store::{ObjId, Store, Value};

// Ends each noted object that no name stands for.
pub(crate) fn sweep(names: &Names, temps: &mut Vec<ObjId>, store: &mut Store)
    requires { AreNoted (bindings_of names.now.values.entries) temps.old.items (tables store.old) }
    ensures named { AreNamed (bindings_of names.now.values.entries) (tables store.new) }
    ensures kept { KeepNamed (bindings_of names.now.values.entries)
        (tables store.old) (tables store.new) }
    ensures held { Raises 0 store.old store.new }
    ensures blocks { KeepBlocks None store.old store.new }
{
    while let Some(id) = temps.pop() {
        if !names.has(id) {
            end(store, id);
        }
    }
}

// The object that a name has left ends if no other name stands for it.
pub(crate) fn release(names: &Names, store: &mut Store, left: Option<Value>)
    ensures tables { Turns store.old store.new
        (λ live. released (bindings_of names.now.values.entries) live left) }
    ensures held { Raises 0 store.old store.new }
{
    if let Some(Value::Object(id)) = left {
        if !names.has(id) {
            end(store, id);
        }
    }
}

// An object ends, if it is live.
fn end(store: &mut Store, id: ObjId)
    ensures tables { Turns store.old store.new (λ live. with_object live id.0 None) }
    ensures held { Raises 0 store.old store.new }
    ensures blocks { KeepBlocks None store.old store.new }
{
    if store.contains(id) {
        store.drop_object(id);
    }
}
