//! The groups of rows by their keys.
//!
//! [`factorize`] numbers tuples of labels, and [`group_by_keys`] the rows of any [`KeyLevels`], as the cells of some
//! columns ([`KeyColumns`]), without a tuple a row. [`number_keys`] does so where each row has a key. [`Groups`] has the
//! group of each row, by number; whatever has groups of rows is a [`RowGroups`]. What is answered is defined in `meaning_group`.
//!
//! ```text
//! let codes = factorize(alloc, &dict, &keys, true, true)?;
//! let first = codes.code(0);
//! let groups = group_by_keys(alloc, &dict, &KeyColumns::of(&columns, rows), true, true)?;
//! ```
#![tactic(auto)]

mod codes;
mod factor;
mod groups;
mod levels;
mod numbers;
mod order;
mod places;

pub use codes::{Codes, factorize};
pub use factor::{KeyGroups, group_by_keys};
pub use groups::{Groups, RowGroups};
pub use levels::{KeyColumns, KeyLevels, KeyTuples};
pub use numbers::{KeyNumbers, number_keys};
