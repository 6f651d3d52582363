//! What the forms on objects have in common: the limits of new tables, the kinds of cells and the columns of them, equality of labels,
//! the rows that labels take with the columns on them, and what a kernel answers as a part of a form.
//!
//! ```text
//! if !within_limits(on.rows(), on.columns()) {
//!     return Err(OpFault::Refused(Code::Limit));
//! }
//! let column = column_of(cast(alloc, dict, column, kind))?;
//! ```
#![tactic(auto)]

mod cells;
mod faults;
mod gaps;
mod kinds;
mod labels;
mod limits;

pub use cells::{CellList, list_column, list_kind};
pub use faults::{align_refusal, block_of, column_of, refusal_of, wrong_kind};
pub use gaps::{columns_on, rows_of_labels};
pub use kinds::present_kind;
pub use labels::{common_name, name_of, same_heading, same_label, same_rows};
pub use limits::{rows_within, within_limits};
