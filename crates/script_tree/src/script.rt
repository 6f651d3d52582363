// A script that was read.
ghost use Rattle.std.specs.Prelude.{◌≡◌, ◌<◌, [], ◌∷◌, ◌++◌, length, slice_get, Some, OnOk, OnErr};
ghost use Rattle.script_tree.specs.View.{statement_of};

use crate::tree::Statement;
use cell_core::NoMemory;
use std::alloc::Global;

/// The statements of a script, in their order.
#[derive(Drop)]
pub struct Script {
    statements: Vec<Statement>,
}

impl Script {
    ghost use Rattle.script_tree.specs.ScriptView.{statements_of};

    /// How many statements there are.
    pub fn len(&self) -> usize
        ensures { result ≡ length (statements_of self.now) }
    {
        self.statements.len()
    }

    /// The statement at a place, counted from 0.
    pub fn statement(&self, i: usize) -> &Statement
        requires { i < length (statements_of self.now) }
        ensures { slice_get (statements_of self.now) i ≡ Some (statement_of result.now) }
    {
        &self.statements[i]
    }

    /// No statements. Takes no memory.
    pub fn new(alloc: Global) -> Script
        ensures { statements_of result ≡ [] }
    {
        Script {
            statements: Vec::new(alloc),
        }
    }

    /// Appends a statement. `NoMemory` leaves the script as it was.
    pub fn push(&mut self, statement: Statement) -> Result<(), NoMemory>
        ensures ok { OnOk result (statements_of self.new
            ≡ statements_of self.old ++ statement_of statement ∷ []) }
        ensures err { OnErr result (statements_of self.new ≡ statements_of self.old) }
    {
        self.statements.push(statement)?;
        Ok(())
    }
}
