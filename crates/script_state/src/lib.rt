//! The work of one statement: names, objects and texts, and what the forms make of values.
//!
//! A [`Work`] keeps names, each with the scalar, the Series or the frame that it stands for. A form makes new
//! values of those that are there, and each object that it makes is noted, until [`Work::sweep`] ends those that no
//! name stands for. What each form costs is added to the charge (`charges`). A call that reads a file fetches it by the
//! path of its name among [`FileNames`].
//!
//! ```text
//! let mut work = Work::new(alloc);
//! let two = work.literal(&Literal::Int(2))?;
//! work.set_name("a", two)?;
//! assert!(rt; work.forget("a"));
//! ```
#![tactic(auto)]

mod charges;
mod fault;
mod file_names;
mod files;
mod forms;
mod literal;
mod names;
mod printing;
mod sweeping;
mod uses;
mod work;

pub use fault::{EvalFault, evaluated};
pub use file_names::{FileName, FileNames};
pub use forms::{expect_function, expect_str_method, no_attribute};
pub use frame_calls::Between;
pub use work::Work;
