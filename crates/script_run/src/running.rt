// A run, from the words to the bytes written.
ghost use Rattle.std.specs.Prelude.{◌≡◌, ◌≢◌, [], ◌∷◌, IfOk, IfSome, map, string_bytes};
ghost use Rattle.outside_io.specs.Count.{HasRisen};
ghost use Rattle.outside_io.specs.Files.{FilesValue};
ghost use Rattle.outside_io.specs.Sink.{appended};
ghost use Rattle.meaning_run.specs.Asked.{asked, IfFixed, IfScript};
ghost use Rattle.meaning_run.specs.Result.{IsDemoResult, IsFixedResult, IsPathResult, IsRunResult, Stated};
ghost use Rattle.meaning_run.specs.words.Demonstration.{orders_name};
ghost use Rattle.script_session.specs.script.State.{no_names};
ghost use Rattle.script_session.specs.script.Run.{not_found_line, stats_line, statements_result, syntax_line, too_large_line, usage_line, IsScriptResult};
ghost use Rattle.script_tree.specs.ScriptView.{statements_of};
ghost use Rattle.script_session.specs.Session.{charge_of, peak_of};
ghost use Rattle.script_session.specs.script_state.Reads.{files_in, paths_of};
ghost use Rattle.script_session.specs.script_state.laws.Paid.{HasPeak};
ghost use Rattle.script_run.specs.Errors.{RunLeaves};
ghost use Rattle.script_words.specs.CommandLine.{flags_of};
ghost use Rattle.script_run.specs.Ends.{outside, Ends, EndsByMeaning, EndsWith, HasCause, Is};

use crate::advancing::advance;
use crate::ending::{end_with, say_unread};
use crate::status::Status;
use crate::words::{Asked, asked_in};
use cell_core::{NoMemory, Words};
use outside_io::{Files, ReadFault, Sink, read_whole};
use script_demo::{DemoFiles, demo_script, orders_name};
use script_faults::{line_of_absence, line_of_stats, line_of_syntax};
use script_session::{FileNames, Session};
use script_syntax::{ParseFault, Script, parse};
use script_words::Flags;
use std::alloc::Global;

const MOST_BYTES: usize = 1 << 20;

/// Runs what the words of a command line ask for, of which the first is the program's name: prints what the
/// statements of a script print on `out`, and the line of its first fault on `err`, or with `--keep-going` those of all
/// faults.
///
/// The words are read from left to right, and the first that asks for help or is wrong decides:
///
/// - `--help`, and a word that begins with `-h`, asks for help: the usage line on `out`, with `Done`.
/// - `--stats` is a flag, which stands once. With it a script and the demonstration end with one line more on `err`, where
///   the status is `Done`: `peak P charge C`. P is the greatest number of cells that the blocks of all objects had after a
///   statement, and C what the expressions and settings of the statements cost in cells. P is at most C, and at least the
///   rows of each table with a column that a name stood for after a statement.
/// - `--keep-going` is a flag, which stands once. With it a statement that is refused doesn't end the run: its line is
///   written, names and tables stay as they were, and the next statement follows. At the end the status is `Fault`
///   where a statement was refused.
/// - `--demo N` or `--demo=N` asks for the demonstration with N orders: a script and a file that are the program's own.
///   It stands once, has a value, and no plain word stands beside it. N is one to six digits, from 1 to 100,000.
/// - Behind `--` each word is plain.
/// - Any other word that begins with `-` and isn't `-` alone is wrong, also as a value of its own.
///
/// The other words are plain: the path of the script, which isn't empty, and then words `NAME=PATH`, by which the
/// script may read the file under PATH as NAME. Such a word is cut at its first `=`, neither part is empty, and no
/// name stands twice. Wrong words get the usage line on `err`, with `Usage`.
///
/// The script is fetched once, before its first statement. A statement fetches the file of a name each
/// time that it reads it, and no file is fetched before. Without a script `files` isn't called.
///
/// The status is `Done` after the last statement, where none was refused, and after help. It is `Fault` at the first
/// statement that is refused, or with `--keep-going` after the last statement, where one was refused. It is `Usage` where
/// the words are wrong, or the files don't hold the script, and `Syntax` where its bytes are no script. `Input` comes only
/// where a count of failed reads rose, `Output` only where a count of failed writes did; these and `Memory` end a run that
/// keeps going too.
///
/// Where the files tell what they hold, the run has one result ([`one_result`](crate::one_result)), in which the number P of
/// `--stats` alone is left open within these bounds. With
/// `Done`, `Fault`, `Usage` and `Syntax` its status is that of the result and all of it was written; with
/// the others a front of it was. After a failed read that is all that the statements before it print, and
/// then the line `input failed`, unless a write failed too. Where only a write on `err` failed, what the
/// statements before that line print was written. Help, wrong words and the demonstration have one result
/// whatever the files tell.
///
/// Whatever the files tell, `err` gets by the end, where the words ask for a script:
///
/// - `Done`: lines that warn of settings, or none, and with `--stats` its line; and nothing else;
/// - `Memory`: lines that warn of settings, with `--keep-going` also those of faults, or none, and nothing else;
/// - `Fault`: lines that warn, and then the line of a fault; with `--keep-going` lines that warn and lines of faults, at
///   least one. Only where a count of absences rose may one say that the file of a given name isn't there;
/// - `Usage`: the line that the script isn't there; and a count of absences rose;
/// - `Syntax`: the line that the script is too large, or that of a syntax error;
/// - `Input`: lines as with `Memory`, and then a front of the line `input failed`.
///
/// Of `Output` this says nothing. Where `err` doesn't tell what it took, as the error stream of a machine, nothing
/// is said of its bytes.
#[tactic(auto, using(crate::proofs::Hints::run))]
pub fn run<F: Files, O: Sink, E: Sink>(
    alloc: Global,
    words: &Vec<String>,
    files: &mut F,
    out: &mut O,
    err: &mut E,
) -> Status
    // In told contents the status, the bytes and the fetches are those of the meaning.
    ensures told { let at = outside F.seen O.seen E.seen in
        IfSome (F.seen files.old).contents (λ held.
        Ends (IsRunResult (map string_bytes words.now.items) held) result
        (at files.old out.old err.old) (at files.new out.new err.new)) }

    // Without a read or a write that failed there is no other ending.
    ensures complete { let at = outside F.seen O.seen E.seen in
        IfSome (F.seen files.old).contents (λ held.
        ¬ (HasRisen (F.seen files.old).faults (F.seen files.new).faults) →
        ¬ (HasRisen (O.seen out.old).faults (O.seen out.new).faults) →
        ¬ (HasRisen (E.seen err.old).faults (E.seen err.new).faults) →
        EndsByMeaning (IsRunResult (map string_bytes words.now.items) held) result
        (at files.old out.old err.old) (at files.new out.new err.new)) }

    // Words that ask for no script have one meaning, whatever the files tell, and leave the files as they were.
    ensures words { let at = outside F.seen O.seen E.seen in
        IfFixed (asked (map string_bytes words.now.items)) (λ fixed.
        Ends (IsFixedResult fixed) result
        (at files.old out.old err.old) (at files.new out.new err.new)) }
    ensures uncalled { IfFixed (asked (map string_bytes words.now.items)) (λ _.
        F.seen files.new ≡ F.seen files.old) }

    // What a script leaves on the errors, whatever the files tell.
    ensures errors { IfScript (asked (map string_bytes words.now.items)) (λ run.
        RunLeaves run.flags run.paths (F.seen files.old).absences (F.seen files.new).absences
        result (E.seen err.old).written (E.seen err.new).written) }

    // The causes of the other answers.
    ensures usage { IfScript (asked (map string_bytes words.now.items)) (λ run.
        result ≡ Status.Usage → HasRisen (F.seen files.old).absences (F.seen files.new).absences
        × ((E.seen err.new).written ≡
        appended (E.seen err.old).written (not_found_line run.script))) }
    ensures cause { let at = outside F.seen O.seen E.seen in
        HasCause result (at files.old out.old err.old) (at files.new out.new err.new) }
{
    let Ok(asks) = asked_in(alloc, words) else {
        return Status::Memory;
    };
    match asks {
        Asked::Help => end_usage(out, Status::Done),
        Asked::Wrong => end_usage(err, Status::Usage),
        Asked::Demo(flags, orders) => run_demo(alloc, flags, orders, out, err),
        Asked::Script(flags, path, names) => {
            run_file(alloc, flags, path, &names, files, out, err)
        }
    }
}

// Ends a run by the usage line.
fn end_usage<S: Sink>(sink: &mut S, status: Status) -> Status
    requires { status ≢ Status.Output }
    ensures { EndsWith usage_line status result (S.seen sink.old) (S.seen sink.new) }
{
    end_with(
        sink,
        status,
        "usage: pdscript [--stats] [--keep-going] [--demo N | SCRIPT] [NAME=PATH ..]\n",
    )
}

// Runs the demonstration with so many orders. Its file is its own, so any other files are left alone.
fn run_demo<O: Sink, E: Sink>(
    alloc: Global,
    flags: Flags,
    orders: u32,
    out: &mut O,
    err: &mut E,
) -> Status
    ensures told { (files : FilesValue) → let at = outside (λ (f : FilesValue). f) O.seen E.seen in
        Ends (Stated flags.stats (IsDemoResult flags.keep_going orders)) result
        (at files out.old err.old) (at files out.new err.new) }
    ensures cause { (files : FilesValue) → let at = outside (λ (f : FilesValue). f) O.seen E.seen in
        HasCause result (at files out.old err.old) (at files out.new err.new) }
{
    let Ok(mut files) = DemoFiles::with_orders(alloc, orders) else {
        return Status::Memory;
    };
    let Ok(names) = demo_names(alloc) else {
        return Status::Memory;
    };
    let script = demo_script().as_bytes();
    run_bytes(alloc, flags, script, &names, &mut files, out, err)
}

// The name of the demonstration's file, with its path.
fn demo_names(alloc: Global) -> Result<FileNames, NoMemory>
    ensures { IfOk result (λ names. paths_of names ≡ (orders_name, orders_name) ∷ []) }
{
    let mut names = FileNames::new(alloc);
    let name = Words::from_text(alloc, orders_name())?;
    let path = Words::from_text(alloc, orders_name())?;
    names.push(name, path)?;
    Ok(names)
}

// Runs the script that the path holds.
#[tactic(auto, using(crate::proofs::Hints::run_file))]
fn run_file<F: Files, O: Sink, E: Sink>(
    alloc: Global,
    flags: Flags,
    path: &str,
    names: &FileNames,
    files: &mut F,
    out: &mut O,
    err: &mut E,
) -> Status
    ensures told { let at = outside F.seen O.seen E.seen in
        IfSome (F.seen files.old).contents (λ held.
        Ends (Stated flags.stats
        (IsPathResult flags.keep_going path.now (paths_of names.now) held)) result
        (at files.old out.old err.old) (at files.new out.new err.new)) }

    ensures errors { RunLeaves (flags_of flags) (paths_of names.now)
        (F.seen files.old).absences (F.seen files.new).absences
        result (E.seen err.old).written (E.seen err.new).written }
    ensures usage { result ≡ Status.Usage →
        HasRisen (F.seen files.old).absences (F.seen files.new).absences
        × ((E.seen err.new).written ≡ appended (E.seen err.old).written (not_found_line path.now)) }
    ensures cause { let at = outside F.seen O.seen E.seen in
        HasCause result (at files.old out.old err.old) (at files.new out.new err.new) }
{
    match read_whole(alloc, files, path, MOST_BYTES) {
        Ok(bytes) => run_bytes(alloc, flags, bytes.as_slice(), names, files, out, err),
        Err(ReadFault::Absent) => end_absent(alloc, path, err),
        Err(ReadFault::TooLong) => end_too_large(err),
        Err(ReadFault::Failed) => {
            say_unread(err);
            Status::Input
        }
        Err(ReadFault::NoMemory) => Status::Memory,
    }
}

// Ends a run whose script isn't there.
fn end_absent<E: Sink>(alloc: Global, path: &str, err: &mut E) -> Status
    ensures { EndsWith (not_found_line path.now) Status.Usage result
        (E.seen err.old) (E.seen err.new) }
{
    match line_of_absence(alloc, path) {
        Ok(line) => end_with(err, Status::Usage, line.as_str()),
        Err(_) => Status::Memory,
    }
}

// Ends a run whose script has too many bytes.
fn end_too_large<E: Sink>(err: &mut E) -> Status
    ensures { EndsWith too_large_line Status.Syntax result (E.seen err.old) (E.seen err.new) }
{
    end_with(err, Status::Syntax, "script too large\n")
}

// Ends a run whose bytes are no script, by the line of its first piece that isn't right.
fn end_syntax<E: Sink>(alloc: Global, line: u64, err: &mut E) -> Status
    ensures { EndsWith (syntax_line line) Status.Syntax result (E.seen err.old) (E.seen err.new) }
{
    match line_of_syntax(alloc, line) {
        Ok(text) => end_with(err, Status::Syntax, text.as_str()),
        Err(_) => Status::Memory,
    }
}

// Runs the script that the bytes are.
#[tactic(auto, using(crate::proofs::Hints::run_bytes))]
fn run_bytes<F: Files, O: Sink, E: Sink>(
    alloc: Global,
    flags: Flags,
    bytes: &[u8],
    names: &FileNames,
    files: &mut F,
    out: &mut O,
    err: &mut E,
) -> Status
    ensures told { let at = outside F.seen O.seen E.seen in
        IfSome (F.seen files.old).contents (λ held.
        Ends (Stated flags.stats
        (IsScriptResult flags.keep_going (files_in names.now held) bytes.now)) result
        (at files.old out.old err.old) (at files.new out.new err.new)) }

    ensures errors { RunLeaves (flags_of flags) (paths_of names.now)
        (F.seen files.old).absences (F.seen files.new).absences
        result (E.seen err.old).written (E.seen err.new).written }
    ensures usage { result ≢ Status.Usage }
    ensures cause { let at = outside F.seen O.seen E.seen in
        HasCause result (at files.old out.old err.old) (at files.new out.new err.new) }
{
    match parse(alloc, bytes) {
        Ok(script) => run_script(alloc, flags, &script, names, files, out, err),
        Err(ParseFault::SyntaxAt(line)) => end_syntax(alloc, line, err),
        Err(ParseFault::TooLarge) => end_too_large(err),
        Err(ParseFault::NoMemory) => Status::Memory,
    }
}

// Does the statements in order, up to the first fault, or to the last one where the run keeps going.
#[tactic(auto, using(crate::proofs::Hints::run_script))]
fn run_script<F: Files, O: Sink, E: Sink>(
    alloc: Global,
    flags: Flags,
    script: &Script,
    names: &FileNames,
    files: &mut F,
    out: &mut O,
    err: &mut E,
) -> Status
    ensures told { let at = outside F.seen O.seen E.seen in
        IfSome (F.seen files.old).contents (λ held.
        let whole = statements_result flags.keep_going (files_in names.now held) no_names
        (statements_of script.now) in
        HasPeak whole → Ends (Stated flags.stats (Is whole)) result
        (at files.old out.old err.old) (at files.new out.new err.new)) }

    ensures errors { RunLeaves (flags_of flags) (paths_of names.now)
        (F.seen files.old).absences (F.seen files.new).absences
        result (E.seen err.old).written (E.seen err.new).written }
    ensures usage { result ≢ Status.Usage }
    ensures cause { let at = outside F.seen O.seen E.seen in
        HasCause result (at files.old out.old err.old) (at files.new out.new err.new) }
{
    let mut session = Session::new(alloc);
    let mut faulted = false;
    for i in 0..script.len() {
        let statement = script.statement(i);
        match advance(alloc, &mut session, files, names, statement, out, err) {
            Ok(advanced) => {
                if advanced.ends_run(flags.keep_going) {
                    return Status::Fault;
                }
                faulted |= advanced.is_refused();
            }
            Err(status) => return status,
        }
    }
    if faulted {
        return Status::Fault;
    }
    if flags.stats {
        return end_stats(alloc, &session, err);
    }
    Status::Done
}

// Ends a run by the line of `--stats`.
fn end_stats<E: Sink>(alloc: Global, session: &Session, err: &mut E) -> Status
    ensures { EndsWith (stats_line (peak_of session.now) (charge_of session.now)) Status.Done result
        (E.seen err.old) (E.seen err.new) }
{
    match line_of_stats(alloc, session.peak(), session.charge()) {
        Ok(line) => end_with(err, Status::Done, line.as_str()),
        Err(_) => Status::Memory,
    }
}
