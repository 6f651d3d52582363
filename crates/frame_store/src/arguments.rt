// Values, and the arguments and subscripts of forms.
ghost use Rattle.std.specs.Prelude.{◌≡◌, ◌<◌, [], ◌∷◌, ◌++◌, length, slice_get, Some, OnOk, OnErr};
ghost use Rattle.frame_store.specs.Lists.{TakesLast};

use crate::object::ObjId;
use cell_core::{Cell, Label, ListOf, NoMemory, Words};
use std::alloc::Global;

/// What an expression gives: an object of the store, or a scalar.
#[derive(Clone, Copy, Debug, PartialEq, Eq)]
pub enum Value {
    /// A Series or a frame.
    Object(ObjId),
    /// One cell.
    Scalar(Cell),
}

/// An evaluated argument, subscript or value of a setting.
#[cycle(argument)]
#[derive(Drop)]
pub enum Argument {
    /// `None`.
    Nothing,
    /// A scalar or an object.
    One(Value),
    /// A tuple, of any length.
    Row(Items),
    /// A list.
    Many(Items),
    /// A dict.
    Table(Entries),
}

/// A part of a tuple or a list.
#[cycle(item)]
#[derive(Drop)]
pub enum Item {
    /// A scalar or an object.
    One(Value),
    /// A tuple.
    Row(Items),
}

/// The parts of a tuple or a list. It keeps the allocator that it was made with.
#[cycle(item)]
#[derive(Drop)]
pub struct Items {
    pub(crate) items: Vec<Item>,
}

/// The pairs of a dict. It keeps the allocator that it was made with.
#[cycle(argument)]
#[derive(Drop)]
pub struct Entries {
    pub(crate) pairs: Vec<(Label, Argument)>,
}

/// An argument of a call, with its name if it has one.
#[derive(Drop)]
pub struct Named {
    /// Its name, if it has one.
    pub name: Option<Words>,
    /// What is given.
    pub value: Argument,
}

/// The arguments of a call.
pub type NamedList = ListOf<Named>;

/// A subscript: a key, or the two ends and the step of a slice, `Nothing` where one is left out.
#[derive(Drop)]
pub enum Subscript {
    /// A key.
    Key(Argument),
    /// A slice: its start, its end and its step.
    Span(Argument, Argument, Argument),
}

/// What stands before the subscripts: brackets alone, or an accessor.
#[derive(Clone, Copy, Debug, PartialEq, Eq)]
pub enum Selector {
    /// Brackets alone: `v[..]`.
    Plain,
    /// `v.loc[..]`: by labels.
    Loc,
    /// `v.iloc[..]`: by positions.
    Iloc,
    /// `v.at[..]`: one cell, by its labels.
    At,
    /// `v.iat[..]`: one cell, by its positions.
    Iat,
}

impl Items {
    /// The empty list. Takes no memory.
    pub fn new(alloc: Global) -> Items
        ensures { result.items.items ≡ [] }
    {
        Items {
            items: Vec::new(alloc),
        }
    }

    /// How many parts there are. Takes no memory.
    pub fn len(&self) -> usize
        ensures { result ≡ length self.now.items.items }
    {
        self.items.len()
    }

    /// The part at a place, counted from 0. Takes no memory.
    pub fn at(&self, i: usize) -> &Item
        requires { i < length self.now.items.items }
        ensures { slice_get self.now.items.items i ≡ Some result.now }
    {
        &self.items[i]
    }

    /// The parts in order. Takes no memory.
    pub fn as_slice(&self) -> &[Item]
        ensures { result.now ≡ self.now.items.items }
    {
        self.items.as_slice()
    }

    /// Appends a part. `NoMemory` leaves the list as it was.
    pub fn push(&mut self, item: Item) -> Result<(), NoMemory>
        ensures ok { OnOk result (self.new.items.items ≡ self.old.items.items ++ item ∷ []) }
        ensures err { OnErr result (self.new.items.items ≡ self.old.items.items) }
    {
        self.items.push(item)?;
        Ok(())
    }

    /// Takes the last part out; `None` exactly where the list is empty. Takes no memory.
    pub fn pop(&mut self) -> Option<Item>
        ensures { TakesLast self.old.items.items self.new.items.items result }
    {
        self.items.pop()
    }
}

impl Entries {
    /// The dict without pairs. Takes no memory.
    pub fn new(alloc: Global) -> Entries
        ensures { result.pairs.items ≡ [] }
    {
        Entries {
            pairs: Vec::new(alloc),
        }
    }

    /// How many pairs there are. Takes no memory.
    pub fn len(&self) -> usize
        ensures { result ≡ length self.now.pairs.items }
    {
        self.pairs.len()
    }

    /// The pair at a place, counted from 0. Takes no memory.
    pub fn at(&self, i: usize) -> &(Label, Argument)
        requires { i < length self.now.pairs.items }
        ensures { slice_get self.now.pairs.items i ≡ Some result.now }
    {
        &self.pairs[i]
    }

    /// The pairs in order. Takes no memory.
    pub fn as_slice(&self) -> &[(Label, Argument)]
        ensures { result.now ≡ self.now.pairs.items }
    {
        self.pairs.as_slice()
    }

    /// Appends a pair. `NoMemory` leaves the dict as it was.
    pub fn push(&mut self, item: (Label, Argument)) -> Result<(), NoMemory>
        ensures ok { OnOk result (self.new.pairs.items ≡ self.old.pairs.items ++ item ∷ []) }
        ensures err { OnErr result (self.new.pairs.items ≡ self.old.pairs.items) }
    {
        self.pairs.push(item)?;
        Ok(())
    }

    /// Takes the last pair out; `None` exactly where there is none. Takes no memory.
    pub fn pop(&mut self) -> Option<(Label, Argument)>
        ensures { TakesLast self.old.pairs.items self.new.pairs.items result }
    {
        self.pairs.pop()
    }
}
