//! What files of tables mean: definitions alone, in `specs/`, which the contracts of readers and writers cite.
//!
//! ```text
//! CsvRead     what a file of comma-separated values reads as: columns with their labels, or why there are none
//! ```
#![tactic(auto)]
