// Sessions.
ghost use Rattle.std.specs.Prelude.{◌≡◌, ◌≤◌, None, max, OnOk, OnErr, is_some, if◌then◌else◌};
ghost use Rattle.script_state.specs.cells.Cell.{IsLonger};
ghost use Rattle.script_state.specs.cells.Text.{Contents};
ghost use Rattle.script_state.specs.script.State.{most_rows, no_names, without_name};
ghost use Rattle.script_state.specs.script.Statement.{statement_result};
ghost use Rattle.script_tree.specs.View.{action_of};
ghost use Rattle.script_state.specs.laws.Validity.{AreValid};
ghost use Rattle.script_state.specs.Bindings.{AreNamed};
ghost use Rattle.script_state.specs.Work.{names_in, tables_in};
ghost use Rattle.script_session.specs.Apart.{ChangesOneObject};

use crate::fault::{Outcome, StepFault};
use crate::statements::perform;
use cell_core::TextDict;
use outside_io::Files;
use script_state::{FileNames, Work};
use script_tree::Statement;
use std::alloc::Global;

/// Names, each with the scalar, the Series or the frame that it stands for.
///
/// Two names bound to one object are one object, and what is set by one name is seen by the other. An object ends when
/// no name stands for it. A statement that is refused leaves names, objects and their numbers as they were.
#[derive(Drop)]
pub struct Session {
    work: Work,
    peak: u64,
    ghost swept: { AreNamed (names_in work) (tables_in work) },
}

impl Session {
    ghost use Rattle.std.specs.Prelude.{ℕ};
    ghost use Rattle.script_session.specs.Session.{charge_of, held_in, live_of, meter_in, peak_of, state_of, texts_of, IsWithinCharge, LieStill, LiveAreNamed};
    ghost use Rattle.outside_io.specs.Files.{Serves};
    ghost use Rattle.script_state.specs.Reads.{files_in};
    ghost use Rattle.script_session.specs.Faults.{Performs};

    /// A session without names. Takes no memory.
    pub fn new(alloc: Global) -> Session
        ensures state { state_of result ≡ no_names }
        ensures objects { (id : ℕ) → live_of result id ≡ None }
        ensures live { LiveAreNamed result }
        ensures valid { AreValid (live_of result) }
        ensures charge { charge_of result ≡ 0 }
        ensures peak { peak_of result ≡ 0 }
        ensures within { IsWithinCharge result }
    {
        Session {
            work: Work::new(alloc),
            peak: 0,
        }
    }

    /// Does one statement, and answers what it printed and whether it set a place of an object without a name.
    ///
    /// A setting through a name changes the object of that name alone, and a setting of an object without a name
    /// changes no name's value. `pd.read_csv("NAME")` fetches the file of the path that the name stands for, once each
    /// time that it is reached.
    ///
    /// The refusals are the first fault of the statement, with the mark of such a setting; [`StepFault::Input`], only
    /// where a call of `files` failed; and want of memory. After each of them names, tables and the charge are as they
    /// were, each object lies on the blocks on which it lay, and no more is held. A file isn't there (`NoFile`) only where
    /// its name isn't among `names`, or a fetch of this call found none. A statement that is done adds its charge to that of
    /// the session, and raises what is held by its charge at most; so the peak is at most the charge of the session.
    /// It is at least the rows of each table with a column that a name stands for.
    ///
    /// Where `files` tells its contents, the meaning is that of these contents, with as many fetches; a call that ends by
    /// `Input` or want of memory makes no more. Where it doesn't tell them, all of this holds as long as nothing is fetched,
    /// whatever the contents are.
    pub fn step<F: Files>(
        &mut self,
        files: &mut F,
        names: &FileNames,
        statement: &Statement,
    ) -> Result<Outcome, StepFault>
        ensures answers { (held : Contents) →
            Performs (state_of self.new) (texts_of self.new) (files_in names.now held)
            (meter_in self.old (F.seen files.old)) (meter_in self.new (F.seen files.new))
            (statement_result (files_in names.now held) (state_of self.old)
            (action_of statement.now.action))
            result }
        ensures serves { Serves (F.seen files.old) (F.seen files.new) }
        ensures same { OnErr result (state_of self.new ≡ state_of self.old) }
        ensures objects { OnErr result (live_of self.new ≡ live_of self.old) }
        ensures blocks { OnErr result (LieStill self.old self.new) }
        ensures held { OnErr result (held_in self.new ≤ held_in self.old) }
        ensures charge { OnErr result (charge_of self.new ≡ charge_of self.old) }
        ensures peak { peak_of self.new ≡ max (peak_of self.old) (held_in self.new) }
        ensures rows { most_rows (state_of self.new) ≤ held_in self.new }
        ensures within { IsWithinCharge self.old → IsWithinCharge self.new }
        ensures longer { IsLonger (texts_of self.old) (texts_of self.new) }
        ensures live { LiveAreNamed self.new }
        ensures valid { AreValid (live_of self.new) }
        ensures apart { OnOk result (ChangesOneObject (action_of statement.now.action)
            (state_of self.old) (state_of self.new)) }
    {
        // What is held counts each block once, before and after.
        let _held = self.work.held();
        let charge = self.work.charge();
        let result = perform(&mut self.work, files, names, &statement.action);
        let left = charge_left(result.is_ok(), charge, self.work.charge());
        self.work.set_charge(left);
        self.work.sweep();
        self.peak = self.peak.max(self.work.held());
        result
    }

    /// Takes a name out, and its object where no other name stands for it. Answers whether the name was there.
    /// Takes no memory.
    pub fn forget(&mut self, name: &str) -> bool
        ensures there { result ≡ is_some ((state_of self.old).value name.now) }
        ensures state { state_of self.new ≡ without_name (state_of self.old) name.now }
        ensures texts { texts_of self.new ≡ texts_of self.old }
        ensures charge { charge_of self.new ≡ charge_of self.old }
        ensures peak { peak_of self.new ≡ peak_of self.old }
        ensures within { IsWithinCharge self.old → IsWithinCharge self.new }
        ensures live { LiveAreNamed self.new }
        ensures valid { AreValid (live_of self.new) }
    {
        self.work.forget(name)
    }

    /// The greatest number of cells that the blocks of all objects had after a statement so far. Takes no memory.
    pub fn peak(&self) -> u64
        ensures { result ≡ peak_of self.now }
    {
        self.peak
    }

    /// What the statements that were done cost, in cells: for each expression and setting in them the cells of blocks that it
    /// may make. The sum stops at its last number. Takes no memory.
    pub fn charge(&self) -> u64
        ensures { result ≡ charge_of self.now }
    {
        self.work.charge()
    }

    /// The texts by number, which the labels of a fault's details name.
    pub fn texts(&self) -> &TextDict
        ensures { result.now ≡ texts_of self.now }
    {
        self.work.texts()
    }
}

// The charge that a statement leaves, which adds to it only where it was done.
fn charge_left(done: bool, before: u64, after: u64) -> u64
    ensures { result ≡ (if done then after else before) }
{
    if done { after } else { before }
}
