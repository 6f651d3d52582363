//! Sessions: what the statements of a script do.
//!
//! A [`Session`] keeps names, each with the scalar, the Series or the frame that it stands for. Two names
//! bound to one object are one object, `copy()` makes an object of its own, and an object ends when no
//! name stands for it. Each statement does what its meaning says: expressions are evaluated in order, the
//! first fault refuses the statement, and a statement that is refused leaves names, objects and their
//! numbers as they were. A file is fetched when the call that reads it is reached.
//!
//! The parts of an expression or an argument are evaluated from left to right (`evaluating`), and a fault of a part is
//! that of the whole. Names stay as they are, and so do the objects that were there; what is made is noted by
//! [`Work`](script_state::Work).
//!
//! ```text
//! let mut session = Session::new(alloc);
//! // `statement` is the tree of `print(len(pd.Series([1, 2])))`
//! let outcome = session.step(&mut files, &names, &statement)?;
//! assert_eq!(rt; outcome.printed.as_str(), "2\n");
//! assert!(rt; session.forget("a") == false);
//! ```
#![tactic(auto)]

mod evaluating;
mod fault;
mod link;
mod masks;
mod session;
mod statements;
mod target;
mod words;

pub use fault::{Outcome, StepFault};
pub use script_state::{FileName, FileNames};
pub use session::Session;
