//! The words of a command line.
//!
//! [`read_words`] reads them by `clap`: whether they ask for help, are wrong, or give [`Flags`], the value of `--demo` and
//! plain words.
//! Only the kind of `clap`'s errors is used, and none of its texts.
//!
//! ```text
//! match read_words(alloc, words)? {
//!     WordsRead::Words { flags, demo, plain } => assert_eq!(rt; plain.len(), 1),     // pdscript sales.pds
//!     WordsRead::Help => ..,                                                  // pdscript sales.pds --help
//!     WordsRead::Wrong => ..,                                                 // pdscript --demo
//! }
//! ```
#![tactic(auto)]

mod command;
mod reading;

pub use reading::{Flags, WordsRead, read_words};
