//! Labels that become columns, and columns whose cells become rows: definitions, in `specs/`, which the contracts of
//! reshaping cite.
//!
//! The rules are those of the pandas user guide, "Reshaping and pivot tables". A definition is the same for labels whose
//! texts are numbers of a dictionary and for labels whose texts are texts: it takes the test and the order of keys.
//!
//! ```text
//! unstacked    the row of each key and label, if there is one
//! stacked      the cells of columns, row after row
//! melted       the cells of columns, column after column
//! ```
#![tactic(auto)]
