//! Runs: what the words of a command line ask for is done and printed.
//!
//! [`run`] finds what they ask for (`words`): help, the demonstration, or a script by its path, with files that it may read,
//! each as `NAME=PATH`. It does the statements of the script in order with a [`Session`], and writes what they print on one
//! sink, warnings and faults on another.
//!
//! A run goes statement by statement: `advance` does one in the session, writes what it prints on the one sink and its
//! warning or its fault on the other (`advancing`, `ending`), and says whether it was done or refused, or with which
//! [`Status`] the run ends. The first fault ends a run, unless it is to keep going.
//!
//! ```text
//! let mut files = MemFiles::new(alloc);
//! files.hold("report.py", b"print(1)\n")?;
//! let status = run(alloc, &words, &mut files, &mut out, &mut err);
//! assert!(rt; status == Status::Done);
//! ```
#![tactic(auto)]

mod advancing;
mod ending;
mod laws;
mod running;
mod status;
mod words;

pub use laws::one_result;
pub use running::run;
pub use script_session::{FileName, FileNames, Outcome, Session, StepFault};
pub use status::Status;
