//! The lines of errors: the texts of faults and warnings, of a script that isn't there and of one that isn't right, and the
//! line of `--stats`.
//!
//! ```text
//! let line = line_of_fault(alloc, session.texts(), &fault)?;
//! assert!(rt; line.as_str() == "line 3: KeyError: 'price'\n");
//! ```
#![tactic(auto)]

mod key;
mod text;

pub use text::{line_of_absence, line_of_fault, line_of_stats, line_of_syntax, line_of_warning};
