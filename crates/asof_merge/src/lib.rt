//! As-of merges: for each row of a table the nearest row of another one, by their keys.
//!
//! [`asof_rows`] takes the values of columns as keys, and rows with labels at each level as groups ([`ByLevels`] makes cells of
//! columns such rows); [`asof_rows_ungrouped`] takes keys alone. [`asof_pairs`] does the same for cells and tuples of labels.
//! What is answered is defined in `meaning_asof`.
//!
//! ```text
//! let rows = asof_pairs(alloc, &times, &others, &groups, &other_groups, Direction::Backward, Some(60))?;
//! let first = rows.at(0);
//! ```
#![tactic(auto)]

mod fault;
mod keys;
mod levels;
mod pairs;
mod walk;

pub use fault::AsofFault;
pub use levels::ByLevels;
pub use meaning_asof::Direction;
pub use pairs::{asof_pairs, asof_rows, asof_rows_ungrouped};
