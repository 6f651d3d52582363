//! Reads a file of comma-separated values as columns of nullable cells.
//!
//! The file is UTF-8 text in the format of RFC 4180, with records of any length and lines that end at CR, LF or
//! both. Its first record is the header. Whole numbers, truth values and missing cells are told from the fields, as
//! in "CSV & text files" of the pandas user guide; a kind may be named for a column instead.
//!
//! ```text
//! let mut dict = TextDict::new(alloc);
//! let table = read_csv(alloc, &mut dict, b"id,name\n1,ann\n2,\n", &NamedKinds::new(alloc))?;
//! let ids = table.columns.at(0).as_ref();
//! ```
#![tactic(auto)]

mod columns;
mod fields;
mod growing;
mod growth;
mod kinds;
mod labels;
mod laws;
mod reading;
mod records;
mod table;

pub use laws::labels_are_numbered;
pub use reading::read_csv;
pub use table::{Columns, CsvFault, CsvTable, NamedKind, NamedKinds};
