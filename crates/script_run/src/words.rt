// What the words of the command line ask for.
ghost use Rattle.std.specs.Prelude.{◌≡◌, [], ◌∷◌, ◌++◌, true, false, None, Some, IfOk, IsErrOf, MatchOption, OnOk, map, option_map, string_bytes};
ghost use Rattle.script_session.specs.script_state.Reads.{paths_of};
ghost use Rattle.meaning_run.specs.Asked.{asked, is_named_path, may_follow, names_after, of_plain, of_words, pair_in};
ghost use Rattle.script_words.specs.CommandLine.{flags_of};
ghost use Rattle.script_run.specs.Words.{asked_of};

use cell_core::{NoMemory, Words};
use script_demo::demo_size;
use script_session::FileNames;
use script_words::{Flags, WordsRead, read_words};
use std::alloc::Global;

/// What the words of a command line ask for.
#[derive(Drop)]
pub(crate) enum Asked<'a> {
    /// The usage line.
    Help,
    /// Nothing, since they are wrong.
    Wrong,
    /// The demonstration with so many orders.
    Demo(Flags, u32),
    /// The script under a path, for which files have names.
    Script(Flags, &'a str, FileNames),
}

/// Why words give no names of files.
#[derive(Clone, Copy, Debug, PartialEq, Eq)]
pub(crate) enum NamesFault {
    /// One of them is no name with a path, or its name stands twice.
    Wrong,
    /// Memory was refused.
    NoMemory,
}

impl From<NoMemory> for NamesFault {
    ghost use Rattle.std.specs.Prelude.{◌≡◌};
    ghost use Rattle.script_run.specs.declared.words.NamesFault.TheVariants.{NoMemory as OutOfMemory};

    ghost from_gives = { λ _ fault. fault ≡ OutOfMemory };

    fn from(_: NoMemory) -> Self {
        NamesFault::NoMemory
    }
}

/// What the words ask for, of which the first is the program's name.
pub(crate) fn asked_in(alloc: Global, words: &[String]) -> Result<Asked<'_>, NoMemory>
    ensures { IfOk result (λ asks. asked_of asks ≡ asked (map string_bytes words.now)) }
{
    match read_words(alloc, words)? {
        WordsRead::Help => Ok(Asked::Help),
        WordsRead::Wrong => Ok(Asked::Wrong),
        WordsRead::Words { flags, demo, plain } => asked_by(alloc, flags, demo, &plain),
    }
}

// What the value of `--demo` and the plain words ask for.
fn asked_by<'a>(
    alloc: Global,
    flags: Flags,
    demo: Option<&str>,
    plain: &[&'a str],
) -> Result<Asked<'a>, NoMemory>
    ensures { IfOk result (λ asks. asked_of asks ≡
        of_words (flags_of flags) (option_map (λ value. value.now) demo.entry) (map (λ word. word.now) plain.now)) }
{
    match demo {
        Some(value) => Ok(demo_asked(flags, value, plain)),
        None => script_asked(alloc, flags, plain),
    }
}

// The demonstration, beside which no plain word stands.
fn demo_asked<'a>(flags: Flags, value: &str, plain: &[&'a str]) -> Asked<'a>
    ensures { asked_of result ≡ of_words (flags_of flags) (Some value.now) (map (λ word. word.now) plain.now) }
{
    if !plain.is_empty() {
        return Asked::Wrong;
    }
    match demo_size(value) {
        Some(orders) => Asked::Demo(flags, orders),
        None => Asked::Wrong,
    }
}

// The script under the first word, with the names in the others.
fn script_asked<'a>(alloc: Global, flags: Flags, plain: &[&'a str]) -> Result<Asked<'a>, NoMemory>
    ensures { IfOk result (λ asks. asked_of asks ≡ of_plain (flags_of flags) (map (λ word. word.now) plain.now)) }
{
    let [path, more @ ..] = plain else {
        return Ok(Asked::Wrong);
    };
    if path.is_empty() {
        return Ok(Asked::Wrong);
    }
    match names_in(alloc, more) {
        Ok(names) => Ok(Asked::Script(flags, *path, names)),
        Err(NamesFault::Wrong) => Ok(Asked::Wrong),
        Err(NamesFault::NoMemory) => Err(NoMemory),
    }
}

// The names that the words give, each with its path.
fn names_in(alloc: Global, words: &[&str]) -> Result<FileNames, NamesFault>
    ensures names { IfOk result
        (λ names. names_after [] (map (λ word. word.now) words.now) ≡ Some (paths_of names)) }
    ensures wrong { IsErrOf result NamesFault.Wrong
        → names_after [] (map (λ word. word.now) words.now) ≡ None }
{
    let mut names = FileNames::new(alloc);
    for word in words {
        push_name(alloc, &mut names, *word)?;
    }
    Ok(names)
}

// Puts the name and the path in a word after the others.
fn push_name(alloc: Global, names: &mut FileNames, word: &str) -> Result<(), NamesFault>
    ensures fits { OnOk result (may_follow (paths_of names.old) word.now ≡ true) }
    ensures names { OnOk result (paths_of names.new ≡ paths_of names.old ++ pair_in word.now ∷ []) }
    ensures wrong { IsErrOf result NamesFault.Wrong
        → may_follow (paths_of names.old) word.now ≡ false }
{
    let Some((name, path)) = pair_in(word) else {
        return Err(NamesFault::Wrong);
    };
    if names.path(name).is_some() {
        return Err(NamesFault::Wrong);
    }
    let name = Words::from_text(alloc, name)?;
    let path = Words::from_text(alloc, path)?;
    names.push(name, path)?;
    Ok(())
}

// The name and the path in a word, cut at its first `=`, where neither is empty.
fn pair_in(word: &str) -> Option<(&str, &str)>
    ensures { MatchOption result (is_named_path word.now ≡ false) (λ pair.
        (is_named_path word.now ≡ true) × (pair_in word.now ≡ (pair.0.now, pair.1.now))) }
{
    let (name, path) = word.split_once('=')?;
    if name.is_empty() || path.is_empty() {
        return None;
    }
    Some((name, path))
}
