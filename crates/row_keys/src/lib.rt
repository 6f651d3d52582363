//! Keys of rows and the rows of each key.
//!
//! [`factorize`] numbers keys by first sight. [`label_codes`] and [`pair_codes`] do so for labels and for pairs of
//! a label and a number, by whole numbers that stand for them where that can be, and else by their hash.
//! [`numbered`] does so for the tuples of labels of two sides, level by level, without a tuple a row.
//! [`rows_by_code`] has the rows of each number, so that whoever joins or groups rows after that compares numbers
//! alone. [`find_partners`] has for each row of one side the rows of another with the same tuple.
//!
//! ```text
//! let numbers = numbered(alloc, &left, &right, left.levels())?;
//! let rows = rows_by_code(alloc, numbers.firsts.len(), &numbers.codes)?;
//! let of_the_first = rows.rows(0);
//! ```
#![tactic(auto)]

mod buckets;
mod codes;
mod factor;
mod levels;
mod numbers;
mod partners;
mod rows;
mod runs;
mod sides;
mod values;

pub use buckets::{Buckets, rows_by_code};
pub use codes::{label_codes, pair_codes};
pub use factor::{Factors, factorize};
pub use levels::{numbered, tuples_at};
pub use numbers::Numbers;
pub use partners::{Partners, find_partners};
pub use rows::{Column, KeyRows, Level};
pub use sides::LevelRows;
