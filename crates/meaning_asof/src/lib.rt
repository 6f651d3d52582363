//! Which row of another table stands nearest to each row by its key: definitions, in `specs/`, which the contracts of
//! as-of merges cite, and the word in which the side is told.
//!
//! The rules are those of the pandas user guide, "Merge, join, concatenate and compare" ("merge_asof"). A definition is the
//! same for groups whose texts are numbers of a dictionary and for groups whose texts are texts: it takes the test of groups.
//!
//! ```text
//! first_unsorted    the first row whose key is missing or less than the one before it
//! candidates        the rows that a row may meet
//! asof_rows         the nearest candidate of each row
//! asof_merged       the same, unless a side isn't sorted
//! ```
#![tactic(auto)]

/// On which side of its own key a row looks for another one.
#[derive(Clone, Copy, PartialEq, Eq)]
pub enum Direction {
    /// Back: the last row whose key isn't above its own.
    Backward,
    /// Forward: the first row whose key isn't below its own.
    Forward,
}
