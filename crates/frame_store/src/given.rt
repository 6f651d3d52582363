// What an argument and a part of one are.
ghost use Rattle.std.specs.Prelude.{◌≡◌, IfSome};
ghost use Rattle.meaning_tables.specs.Value.{scalar_in, object_in, tuple_in, list_in, dict_in};
ghost use Rattle.frame_store.specs.Arguments.{object_value, IsLiveObject, item_of, argument_of, IsLiveItem, IsLiveArgument};
ghost use Rattle.frame_store.specs.Readers.{AgreesSeen, IsLiveWith, cell_seen, lent_items, lent_pairs, AreLiveLentItems, AreLiveLentPairs};

use crate::arguments::{Argument, Item, Value};
use crate::object::ObjId;
use cell_core::{Cell, Label};

impl Item {
    /// The scalar that the part is; `None` where it is something else. Takes no memory.
    pub fn scalar(&self) -> Option<Cell>
        ensures { AgreesSeen scalar_in item_of self.now cell_seen result }
    {
        match self {
            Item::One(Value::Scalar(cell)) => Some(*cell),
            Item::One(Value::Object(_)) => None,
            Item::Row(_) => None,
        }
    }

    /// The object that the part is; `None` where it is something else. Takes no memory.
    pub fn object(&self) -> Option<ObjId>
        ensures table { AgreesSeen object_in item_of self.now object_value result }
        ensures live { IsLiveWith IsLiveItem self.now IsLiveObject result }
    {
        match self {
            Item::One(Value::Object(id)) => Some(*id),
            Item::One(Value::Scalar(_)) => None,
            Item::Row(_) => None,
        }
    }

    /// The parts of the tuple that the part is; `None` where it is something else. Takes no memory.
    pub fn tuple(&self) -> Option<&[Item]>
        ensures parts { AgreesSeen tuple_in item_of self.now lent_items result }
        ensures live { IsLiveWith IsLiveItem self.now AreLiveLentItems result }
    {
        match self {
            Item::Row(items) => Some(items.as_slice()),
            Item::One(_) => None,
        }
    }
}

impl Argument {
    /// The scalar that the argument is; `None` where it is something else. Takes no memory.
    pub fn scalar(&self) -> Option<Cell>
        ensures { AgreesSeen scalar_in argument_of self.now cell_seen result }
    {
        match self {
            Argument::One(Value::Scalar(cell)) => Some(*cell),
            Argument::One(Value::Object(_)) => None,
            Argument::Nothing => None,
            Argument::Row(_) => None,
            Argument::Many(_) => None,
            Argument::Table(_) => None,
        }
    }

    /// The object that the argument is; `None` where it is something else. Takes no memory.
    pub fn object(&self) -> Option<ObjId>
        ensures table { AgreesSeen object_in argument_of self.now object_value result }
        ensures live { IsLiveWith IsLiveArgument self.now IsLiveObject result }
        ensures same { IfSome result (λ id. self.now ≡ Argument.One (Value.Object id)) }
    {
        match self {
            Argument::One(Value::Object(id)) => Some(*id),
            Argument::One(Value::Scalar(_)) => None,
            Argument::Nothing => None,
            Argument::Row(_) => None,
            Argument::Many(_) => None,
            Argument::Table(_) => None,
        }
    }

    /// The parts of the tuple that the argument is; `None` where it is something else. Takes no memory.
    pub fn tuple(&self) -> Option<&[Item]>
        ensures parts { AgreesSeen tuple_in argument_of self.now lent_items result }
        ensures live { IsLiveWith IsLiveArgument self.now AreLiveLentItems result }
    {
        match self {
            Argument::Row(items) => Some(items.as_slice()),
            Argument::One(_) => None,
            Argument::Nothing => None,
            Argument::Many(_) => None,
            Argument::Table(_) => None,
        }
    }

    /// The parts of the list that the argument is; `None` where it is something else. Takes no memory.
    pub fn list(&self) -> Option<&[Item]>
        ensures parts { AgreesSeen list_in argument_of self.now lent_items result }
        ensures live { IsLiveWith IsLiveArgument self.now AreLiveLentItems result }
    {
        match self {
            Argument::Many(items) => Some(items.as_slice()),
            Argument::One(_) => None,
            Argument::Nothing => None,
            Argument::Row(_) => None,
            Argument::Table(_) => None,
        }
    }

    /// The pairs of the dict that the argument is, in their order, also where a key stands twice;
    /// `None` where it is something else. Takes no memory.
    pub fn dict(&self) -> Option<&[(Label, Argument)]>
        ensures pairs { AgreesSeen dict_in argument_of self.now lent_pairs result }
        ensures live { IsLiveWith IsLiveArgument self.now AreLiveLentPairs result }
    {
        match self {
            Argument::Table(entries) => Some(entries.as_slice()),
            Argument::One(_) => None,
            Argument::Nothing => None,
            Argument::Row(_) => None,
            Argument::Many(_) => None,
        }
    }
}
