//! Frames as JSON text, and files of JSON as columns.
//!
//! JSON is that of RFC 8259 as the crate `serde_json` reads and writes it. A frame stands in it as an array with an
//! object for each row, or as an object of labels and rows ([`Orient`]; pandas user guide, "IO tools", "JSON"). What a
//! text is, and what it reads as, stands in the definitions of `meaning_json`.
//!
//! ```text
//! let text = json_text(alloc, &dict, &orders, Orient::Records)?;   // [{"id":1,"total":300},{"id":2,"total":null}]
//! let table = json_table(alloc, &mut dict, text.as_str().as_bytes(), Orient::Records)?;
//! ```
#![tactic(auto)]

mod columns;
mod kinds;
mod labels;
mod laws;
mod output;
mod reading;
mod source;
mod split;
mod values;
mod writing;

pub use laws::{records_read_back, split_reads_back};
pub use meaning_json::Orient;
pub use reading::{JsonFault, JsonTable, json_table};
pub use writing::{TextRefusal, json_text};
