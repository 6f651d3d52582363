//! What tables are as JSON and what JSON files read as: definitions, in `specs/`, which the contracts of readers and
//! writers cite.
//!
//! ```text
//! JsonWrite   a frame as JSON text, or why there is none
//! JsonRead    what a file of JSON reads as: columns and rows with their labels, or why there are none
//! ```
#![tactic(auto)]

/// How a table stands in JSON, as the `orient` of pandas names it.
#[derive(Clone, Copy, Debug, PartialEq, Eq)]
pub enum Orient {
    /// An array with an object for each row, which has each cell under the label of its column.
    Records,
    /// An object of the labels of the columns, those of the rows, and the rows of cells.
    Split,
}
