// Calls of the functions of `pd`, and the files that they read.
ghost use Rattle.std.specs.Prelude.{◌≡◌, ℕ, List, Some};
ghost use Rattle.meaning_laws.specs.cells.Text.{Text, Contents};
ghost use Rattle.meaning_laws.specs.charge.Charge.{answer_charge};
ghost use Rattle.meaning_laws.specs.tables.Value.{Entry};
ghost use Rattle.meaning_laws.specs.call.declared.Function.TheVariants.{ReadCsv};
ghost use Rattle.meaning_laws.specs.call.Signature.{function_named};
ghost use Rattle.meaning_laws.specs.method.Readers.{file_name_of, read_result};
ghost use Rattle.meaning_laws.specs.script.Reading.{Reads, at_once, costing, then_read, of_file};
ghost use Rattle.meaning_laws.specs.script.Expression.{made};
ghost use Rattle.frame_store.specs.World.{AreKnownArguments, entry_in, arguments_in};
ghost use Rattle.outside_io.specs.Files.{Serves};
ghost use Rattle.script_state.specs.Reads.{files_in, metered, ReachesBytes, RefusesLong, Tab};
ghost use Rattle.script_state.specs.Faults.{IsNoFile};

use crate::fault::{EvalFault, evaluated};
use crate::file_names::FileNames;
use crate::work::Work;
use cell_core::{Code, Words};
use frame_make::{file_name, reads_file};
use frame_store::{NamedList, Value};
use meaning_call::Function;
use outside_io::{Bytes, Files, ReadFault, read_whole};
use std::alloc::Global;

// A longer file is beyond the limits of tables.
const MOST_BYTES: usize = 1 << 28;

impl Work {
    ghost use Rattle.std.specs.Prelude.{None};
    ghost use Rattle.script_state.specs.Evaluates.{moment, IsValue, Evaluates};
    ghost use Rattle.script_state.specs.Work.{tab_of, world_of};

    /// What a function of `pd` gives. One that reads a file is asked for its name first, and the file is
    /// fetched then, once. The refusals are those of the function, in its order; a file that isn't there is a
    /// `FileNotFoundError` that gives its name, and one that can't be read [`EvalFault::Input`].
    pub fn call<F: Files>(
        &mut self,
        files: &mut F,
        names: &FileNames,
        function: Function,
        args: &NamedList,
    ) -> Result<Value, EvalFault>
        requires { AreKnownArguments (world_of self.old) args.now }
        ensures { let at = moment F.seen in
            (name : Text) → function_named name ≡ Some function →
            Evaluates names.now (IsValue None) entry_in
            (λ fs s. made fs name (arguments_in (world_of self.old) args.now))
            (at self.old files.old) (at self.new files.new) result }
    {
        if !reads_file(function) {
            return evaluated(self.make(function, args, None));
        }
        let bytes = self.file_of(files, names, args)?;
        evaluated(self.make(function, args, Some(bytes.as_slice())))
    }

    // The bytes of the file that the arguments name.
    fn file_of<F: Files>(
        &self,
        files: &mut F,
        names: &FileNames,
        args: &NamedList,
    ) -> Result<Bytes, EvalFault>
        requires { AreKnownArguments (world_of self.now) args.now }
        ensures reads { let given = arguments_in (world_of self.now) args.now in
            (held : Contents) →
            let read = (λ (bytes : List ℕ). costing answer_charge (read_result bytes given)) in
            ReachesBytes read (world_of self.now).texts
            (files_in names.now held) (metered (tab_of self.now) (F.seen files.old))
            (metered (tab_of self.now) (F.seen files.new))
            (then_read (at_once (file_name_of ReadCsv given)) (λ name.
            of_file (files_in names.now held) name read))
            result }
        ensures serves { Serves (F.seen files.old) (F.seen files.new) }
    {
        match file_name(&self.store, &self.dict, Function::ReadCsv, args) {
            Ok(name) => file_named(self.alloc, files, names, self.dict.text(name)),
            Err(code) => Err(EvalFault::Refused(code)),
        }
    }
}

// The bytes of the file of a name.
#[tactic(auto, using(crate::proofs::Hints::file_named))]
fn file_named<F: Files>(
    alloc: Global,
    files: &mut F,
    names: &FileNames,
    name: &str,
) -> Result<Bytes, EvalFault>
    ensures reads { (texts : List Text) (held : Contents) (go : List ℕ → Reads Entry) (tab : Tab) →
        RefusesLong go →
        ReachesBytes go texts (files_in names.now held)
        (metered tab (F.seen files.old)) (metered tab (F.seen files.new))
        (of_file (files_in names.now held) name.now go) result }
    ensures serves { Serves (F.seen files.old) (F.seen files.new) }
{
    let Some(path) = names.path(name) else {
        return Err(no_file(alloc, name));
    };
    match read_whole(alloc, files, path, MOST_BYTES) {
        Ok(bytes) => Ok(bytes),
        Err(ReadFault::Absent) => Err(no_file(alloc, name)),
        Err(ReadFault::TooLong) => Err(EvalFault::Refused(Code::Limit)),
        Err(ReadFault::Failed) => Err(EvalFault::Input),
        Err(ReadFault::NoMemory) => Err(EvalFault::NoMemory),
    }
}

// The fault of a name without a file.
fn no_file(alloc: Global, name: &str) -> EvalFault
    ensures { IsNoFile result name.now }
{
    match Words::from_text(alloc, name) {
        Ok(name) => EvalFault::Refused(Code::NoFile(name)),
        Err(_) => EvalFault::NoMemory,
    }
}
