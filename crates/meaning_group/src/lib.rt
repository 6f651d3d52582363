//! Groups of rows: definitions, in `specs/`, which the contracts of groups cite, and their laws.
//!
//! The rules are those of the pandas user guide, "Group by: split-apply-combine". The keys of groups are defined
//! for any keys, so that they are the same for labels whose texts are numbers of a dictionary and for labels whose
//! texts are texts. What is made of groups is defined over the numbers of the groups alone.
//!
//! ```text
//! group_keys        the key of each group
//! group_codes       the group of each row
//! reduce_groups     one cell for each group
//! ```
#![tactic(auto)]
