// What the words are, by what `clap` finds in them.
ghost use Rattle.std.specs.Prelude.{◌≡◌, IfOk, map, string_bytes};
ghost use Rattle.meaning_words.specs.Words.{words_read};
ghost use Rattle.clap.specs.Words.{found_of, rows_of};
ghost use Rattle.script_words.specs.CommandLine.{plain_of, words_of};

use crate::command::command;
use cell_core::NoMemory;
use clap::ArgMatches;
use clap::error::ErrorKind;
use std::alloc::{AllocError, Global};

/// Which flags are given.
#[derive(Clone, Copy, Debug, PartialEq, Eq)]
pub struct Flags {
    /// `--stats`, by which a run without a fault ends with a line on what it cost.
    pub stats: bool,
    /// `--keep-going`, by which a run goes on after a statement that is refused.
    pub keep_going: bool,
}

/// What the words of a command line are.
#[derive(Drop)]
pub enum WordsRead<'a> {
    /// They ask for help: by `--help`, or by a word that begins with `-h`.
    Help,
    /// They are wrong: an option that there isn't, a flag or `--demo` for a second time, or a `--demo` with no value.
    Wrong,
    /// The flags, the value of `--demo`, where it is given, and the plain words in order.
    Words {
        flags: Flags,
        demo: Option<&'a str>,
        plain: Vec<&'a str>,
    },
}

/// Reads the words of a command line, of which the first is the program's name. From left to right, the first word that
/// asks for help or is wrong decides. After `--` each word is a plain word.
///
/// # Errors
///
/// [`NoMemory`] where memory is refused.
pub fn read_words<'a>(alloc: Global, words: &'a [String]) -> Result<WordsRead<'a>, NoMemory>
    ensures { IfOk result (λ r. words_of r ≡ words_read (map string_bytes words.now)) }
{
    match command(alloc)?.try_get_matches_from(words) {
        Ok(matches) => Ok(WordsRead::Words {
            flags: Flags {
                stats: matches.get_flag("stats"),
                keep_going: matches.get_flag("keep-going"),
            },
            demo: matches.get_str("demo"),
            plain: plain_words(alloc, &matches)?,
        }),
        Err(error) => match error.kind() {
            ErrorKind::DisplayHelp => Ok(WordsRead::Help),
            ErrorKind::OutOfMemory => Err(NoMemory),
            _ => Ok(WordsRead::Wrong),
        },
    }
}

// The plain words that `clap` found.
fn plain_words<'a>(alloc: Global, matches: &ArgMatches<'a>) -> Result<Vec<&'a str>, AllocError>
    ensures { IfOk result (λ v. map (λ s. s.now) v.items ≡ plain_of (rows_of (found_of matches.now))) }
{
    match matches.get_strs("plain") {
        Some(words) => Vec::from_slice(alloc, words),
        None => Ok(Vec::new(alloc)),
    }
}
