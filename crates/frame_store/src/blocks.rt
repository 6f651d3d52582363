// Lists of blocks.
ghost use Rattle.std.specs.Prelude.{◌≡◌, ◌<◌, [], ◌∷◌, ◌++◌, length, slice_get, Some, OnOk, OnErr};
ghost use Rattle.frame_store.specs.Lists.{TakesLast};

use cell_core::NoMemory;
use column_core::Block;
use std::alloc::Global;
use std::marker::Model;

/// Blocks. It keeps the allocator that it was made with.
#[derive(Drop)]
pub struct Blocks {
    pub(crate) items: Vec<Block>,
}

impl Model for Blocks {
    ghost use Rattle.std.specs.Prelude.{List};
    ghost use Rattle.column_core.specs.Blocks.{CellBlock};

    ghost Value = { List CellBlock };

    ghost view = { λ b. b.items.items };
}

impl Blocks {
    /// The empty list. Takes no memory.
    pub fn new(alloc: Global) -> Blocks
        ensures { result ≡ [] }
    {
        Blocks {
            items: Vec::new(alloc),
        }
    }

    /// How many blocks there are. Takes no memory.
    pub fn len(&self) -> usize
        ensures { result ≡ length self.now }
    {
        self.items.len()
    }

    /// The block at a place, counted from 0. Takes no memory.
    pub fn at(&self, i: usize) -> &Block
        requires { i < length self.now }
        ensures { slice_get self.now i ≡ Some result.now }
    {
        &self.items[i]
    }

    /// Appends a block. `NoMemory` leaves the list as it was.
    pub fn push(&mut self, item: Block) -> Result<(), NoMemory>
        ensures ok { OnOk result (self.new ≡ self.old ++ item ∷ []) }
        ensures err { OnErr result (self.new ≡ self.old) }
    {
        self.items.push(item)?;
        Ok(())
    }

    /// Takes the last block out; `None` exactly where the list is empty. Takes no memory.
    pub fn pop(&mut self) -> Option<Block>
        ensures { TakesLast self.old self.new result }
    {
        self.items.pop()
    }
}
