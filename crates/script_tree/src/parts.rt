// Lists of parts of a tree.
ghost use Rattle.std.specs.Prelude.{◌≡◌, ◌<◌, [], ◌∷◌, ◌++◌, length, slice_get, Some, OnOk, OnErr, MatchOption};
ghost use Rattle.script_tree.specs.View.{named_of, pair_of};

use crate::literal::Literal;
use crate::tree::Arg;
use cell_core::{NoMemory, Words};
use std::alloc::Global;

/// Arguments in their order, each with its name where one is given.
#[derive(Drop)]
#[cycle(tree)]
pub struct Args {
    items: Vec<(Option<Words>, Arg)>,
}

impl Args {
    ghost use Rattle.script_tree.specs.View.{named_parts_of};

    /// No arguments. Takes no memory.
    pub fn new(alloc: Global) -> Args
        ensures { named_parts_of result ≡ [] }
    {
        Args {
            items: Vec::new(alloc),
        }
    }

    /// How many arguments there are.
    pub fn len(&self) -> usize
        ensures { result ≡ length (named_parts_of self.now) }
    {
        self.items.len()
    }

    /// The argument at a place, counted from 0, with its name.
    pub fn at(&self, i: usize) -> &(Option<Words>, Arg)
        requires { i < length (named_parts_of self.now) }
        ensures { slice_get (named_parts_of self.now) i ≡ Some (named_of result.now) }
    {
        &self.items[i]
    }

    /// Appends an argument. `NoMemory` leaves the arguments as they were.
    pub fn push(&mut self, name: Option<Words>, arg: Arg) -> Result<(), NoMemory>
        ensures ok { OnOk result (named_parts_of self.new
            ≡ named_parts_of self.old ++ named_of (name, arg) ∷ []) }
        ensures err { OnErr result (named_parts_of self.new ≡ named_parts_of self.old) }
    {
        self.items.push((name, arg))?;
        Ok(())
    }

    /// Takes the last argument out; `None` exactly where there are none.
    pub fn pop(&mut self) -> Option<(Option<Words>, Arg)>
        ensures { MatchOption result
            ((named_parts_of self.old ≡ []) × (named_parts_of self.new ≡ []))
            (λ last. named_parts_of self.old ≡ named_parts_of self.new ++ named_of last ∷ []) }
    {
        self.items.pop()
    }
}

/// The parts of a list or of a tuple, in their order.
#[derive(Drop)]
#[cycle(tree)]
pub struct ArgList {
    items: Vec<Arg>,
}

impl ArgList {
    ghost use Rattle.script_tree.specs.View.{part_of, parts_of};

    /// No parts. Takes no memory.
    pub fn new(alloc: Global) -> ArgList
        ensures { parts_of result ≡ [] }
    {
        ArgList {
            items: Vec::new(alloc),
        }
    }

    /// How many parts there are.
    pub fn len(&self) -> usize
        ensures { result ≡ length (parts_of self.now) }
    {
        self.items.len()
    }

    /// The part at a place, counted from 0.
    pub fn at(&self, i: usize) -> &Arg
        requires { i < length (parts_of self.now) }
        ensures { slice_get (parts_of self.now) i ≡ Some (part_of result.now) }
    {
        &self.items[i]
    }

    /// Appends a part. `NoMemory` leaves the list as it was.
    pub fn push(&mut self, arg: Arg) -> Result<(), NoMemory>
        ensures ok { OnOk result (parts_of self.new ≡ parts_of self.old ++ part_of arg ∷ []) }
        ensures err { OnErr result (parts_of self.new ≡ parts_of self.old) }
    {
        self.items.push(arg)?;
        Ok(())
    }

    /// Takes the last part out; `None` exactly where there are none.
    pub fn pop(&mut self) -> Option<Arg>
        ensures { MatchOption result ((parts_of self.old ≡ []) × (parts_of self.new ≡ []))
            (λ last. parts_of self.old ≡ parts_of self.new ++ part_of last ∷ []) }
    {
        self.items.pop()
    }
}

/// The entries of a dictionary, in their order.
#[derive(Drop)]
#[cycle(tree)]
pub struct ArgPairs {
    items: Vec<(Literal, Arg)>,
}

impl ArgPairs {
    ghost use Rattle.script_tree.specs.View.{pair_parts_of};

    /// No entries. Takes no memory.
    pub fn new(alloc: Global) -> ArgPairs
        ensures { pair_parts_of result ≡ [] }
    {
        ArgPairs {
            items: Vec::new(alloc),
        }
    }

    /// How many entries there are.
    pub fn len(&self) -> usize
        ensures { result ≡ length (pair_parts_of self.now) }
    {
        self.items.len()
    }

    /// The entry at a place, counted from 0.
    pub fn at(&self, i: usize) -> &(Literal, Arg)
        requires { i < length (pair_parts_of self.now) }
        ensures { slice_get (pair_parts_of self.now) i ≡ Some (pair_of result.now) }
    {
        &self.items[i]
    }

    /// Appends an entry. `NoMemory` leaves the entries as they were.
    pub fn push(&mut self, key: Literal, arg: Arg) -> Result<(), NoMemory>
        ensures ok { OnOk result (pair_parts_of self.new
            ≡ pair_parts_of self.old ++ pair_of (key, arg) ∷ []) }
        ensures err { OnErr result (pair_parts_of self.new ≡ pair_parts_of self.old) }
    {
        self.items.push((key, arg))?;
        Ok(())
    }

    /// Takes the last entry out; `None` exactly where there are none.
    pub fn pop(&mut self) -> Option<(Literal, Arg)>
        ensures { MatchOption result ((pair_parts_of self.old ≡ []) × (pair_parts_of self.new ≡ []))
            (λ last. pair_parts_of self.old ≡ pair_parts_of self.new ++ pair_of last ∷ []) }
    {
        self.items.pop()
    }
}
