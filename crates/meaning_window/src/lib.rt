//! Windows over the rows of a column: definitions, in `specs/`, which the contracts of windows cite, and their laws.
//!
//! The rules are those of the pandas user guide, "Windowing operations".
//!
//! ```text
//! window_rows      the rows of the window that ends in a row
//! rolled           one answer for each row: of its window
//! expanded         one answer for each row: of all rows up to it
//! ```
#![tactic(auto)]
