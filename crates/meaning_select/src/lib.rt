//! What is selected from a table by keys, and what a setting or a removal makes of it: definitions alone, in `specs/`.
//!
//! ```text
//! Keys      the forms of keys, and the rows and columns that they pick
//! Select    select_result: a scalar, a Series or a frame of what is picked
//! Set       assign_result, removal_result: the table with other cells, columns and rows
//! ```
//!
//! The rules are those of pandas, "Indexing and selecting data", for keys whose form says whether they
//! can name several rows.
#![tactic(auto)]
