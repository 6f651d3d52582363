//! What is made of groups of rows.
//!
//! [`group_reduce`] has one cell for each group, [`group_transform`] gives each row the cell of its group, and
//! [`group_cumsum`] sums within groups row by row; [`group_size`] and [`group_cumcount`] count rows. Each is one pass
//! over the rows. What is answered is defined in `meaning_group`.
//!
//! ```text
//! let codes = factorize(alloc, &dict, &keys, true, true)?;
//! let sums = group_reduce(alloc, &dict, &codes, cells, GroupOp::Sum)?;
//! ```
#![tactic(auto)]

mod cells;
mod choices;
mod counts;
mod distinct;
mod gather;
mod groups;
mod ops;
mod reduce;
mod running;

pub use groups::{group_cumcount, group_cumsum, group_reduce, group_size, group_transform};
pub use ops::{GroupFault, GroupOp};
