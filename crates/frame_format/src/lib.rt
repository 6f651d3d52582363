//! The printed text and the CSV text of a table.
//!
//! A table is whatever tells its parts by row and column ([`Grid`](cell_core::Grid)), and a
//! dictionary has its texts. Widths are measured first, so that each line is written once, into one
//! text. What each text is stands in the definitions of `meaning_format`, and the only refusal is
//! want of memory.
//!
//! ```text
//! let printed = frame_text(alloc, &dict, &orders)?;       //    id  total
//!                                                         // 0   1    300
//!                                                         // 1   2    400
//! let written = csv_text(alloc, &dict, &orders, false)?;  // id,total
//!                                                         // 1,300
//!                                                         // 2,400
//! ```
#![tactic(auto)]

mod empty;
mod fields;
mod frame;
mod measuring;
mod reading_back;
mod records;
mod series;
mod source;
mod texts;

pub use frame::frame_text;
pub use reading_back::reads_back;
pub use records::csv_text;
pub use series::series_text;
