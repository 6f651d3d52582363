// The command line, as `clap` is told of it.
ghost use Rattle.std.specs.Prelude.{◌≡◌, IfOk, false};
ghost use Rattle.clap.specs.Words.{app_of, rule_of};
ghost use Rattle.script_words.specs.CommandLine.{command_line, rule_named, with_flags, with_options};

use clap::{Arg, ArgAction, Command};
use std::alloc::{AllocError, Global};

// The flags `--stats` and `--keep-going`, an option `--demo` with a value, and any number of plain words; `clap` adds the
// flag for help.
pub(crate) fn command<'a>(alloc: Global) -> Result<Command<'a>, AllocError>
    ensures { IfOk result (λ c. app_of c ≡ command_line) }
{
    let plain = Arg::new(alloc, "plain").action(ArgAction::Append);
    options(alloc)?.arg(plain)
}

// The options alone.
fn options<'a>(alloc: Global) -> Result<Command<'a>, AllocError>
    ensures { IfOk result (λ c. app_of c ≡ with_options) }
{
    let demo = Arg::new(alloc, "demo").long("demo").action(ArgAction::Set);
    flags(alloc)?.arg(demo)
}

// The flags alone.
fn flags<'a>(alloc: Global) -> Result<Command<'a>, AllocError>
    ensures { IfOk result (λ c. app_of c ≡ with_flags) }
{
    Command::new(alloc, "pdscript")
        .arg(flag(alloc, "stats"))?
        .arg(flag(alloc, "keep-going"))
}

// A flag, which its name stands for.
fn flag<'a>(alloc: Global, name: &'a str) -> Arg<'a>
    ensures rule { rule_of result ≡ rule_named name.entry.now }
    ensures local { result.global ≡ false }
{
    Arg::new(alloc, name).long(name).action(ArgAction::SetTrue)
}
