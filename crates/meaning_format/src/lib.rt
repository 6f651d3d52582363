//! What a table is as text: definitions alone, in `specs/`, which the contracts of the formats cite.
//!
//! ```text
//! told                the table that a grid tells
//! frame_text_of       the printed text of a frame
//! series_text_of      the printed text of a Series
//! csv_text_of         the CSV text of a table
//! ```
#![tactic(auto)]
