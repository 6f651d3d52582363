//! Which rows of two sides have equal keys, and what stands one after the other: definitions, in `specs/`, which the
//! contracts of joins and concatenations cite, and the words in which a join is asked for.
//!
//! The rules are those of the pandas user guide, "Merge, join, concatenate and compare". A definition is the same for
//! keys whose texts are numbers of a dictionary and for keys whose texts are texts: it takes the test and the order of
//! keys.
//!
//! ```text
//! key_pairs       the rows of two sides that have equal keys
//! repeated_key    a key that stands twice on a side where each may stand once
//! column_below    columns of one kind, one below the other
//! united          what stands in any of some lists, or in all of them
//! ```
#![tactic(auto)]

/// Of which sides a join keeps the rows without an equal key on the other side.
#[derive(Clone, Copy, PartialEq, Eq)]
pub enum How {
    /// Of none.
    Inner,
    /// Of the left side.
    Left,
    /// Of the right side.
    Right,
    /// Of both sides. All keys are in order then.
    Outer,
}

/// The sides of a join on which no key may stand twice.
#[derive(Clone, Copy)]
pub struct Validate {
    /// No key stands twice on the left side.
    pub left: bool,
    /// No key stands twice on the right side.
    pub right: bool,
}
