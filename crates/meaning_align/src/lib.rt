//! How rows of two axes meet by their labels: definitions, in `specs/`, which the contracts of
//! joins cite, and their laws.
//!
//! The rules are those of the pandas user guide, "Merge, join, concatenate and compare" (the outer join) and "Aligning
//! objects with each other with align", and of `reindex` in "Reindexing and altering labels". A definition is the same
//! for labels whose texts are numbers of a dictionary and for labels whose texts are texts: it takes the test and the
//! order of keys.
//!
//! ```text
//! outer             the keys of two sides in order, with each pair of their rows
//! reindexed         the row of each target, or a gap
//! first_repeated    the first key that stands on more than one row
//! ```
#![tactic(auto)]
