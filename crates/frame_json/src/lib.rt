//! JSON of tables of a store: what `to_json` writes of a frame, and what `pd.read_json` makes of a file.
//!
//! [`to_json`] gives the text a number and answers it as a cell (`writing`). [`read_json`] reads the bytes of a file and
//! makes a table that isn't an object yet (`reading`). The text and the columns are those of the crate `json_frames`. The
//! contracts say that the answer is the one that is meant, or its first fault; the definitions are `specs/JsonCalls.antt`
//! of the crate `meaning_json_calls`, and `specs/JsonWrite.antt` and `specs/JsonRead.antt` of `meaning_json`.
//!
//! ```text
//! let text = to_json(alloc, &store, &mut dict, Orient::Records, orders)?;   // [{"id":1},{"id":null}]
//! let table = read_json(alloc, &mut dict, b"[{\"id\":1},{\"id\":null}]", Orient::Records)?;
//! ```
#![tactic(auto)]

mod reading;
mod writing;

pub use json_frames::Orient;
pub use reading::read_json;
pub use writing::to_json;
