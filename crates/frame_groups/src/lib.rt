//! What stands behind `groupby` of a frame: reductions, sizes, and cells for each row.
//!
//! [`method`] calls a method behind `groupby`, with the arguments of `groupby` and its brackets, and answers a new
//! object. What it answers is its definition on whole tables (`meaning_method/specs/Groups.antt`).
//!
//! The arguments of `groupby` are bound and its keys found (`grouping`), then the columns that the brackets name
//! (`values`), then the last call with its arguments (`calls`). All kinds are tested (`kinds`), and the headings and
//! the limits (`checks`), before a cell is made. The groups are found once, by the cells of the key columns (`keys`),
//! and each column is made by one pass over the rows (`columns`); the table has a row for each group (`by_group`), or
//! the rows of the frame (`by_row`).
//!
//! ```text
//! // `f.groupby("city")["total"].sum()`
//! let call = GroupedCall { by: by.as_slice(), brackets: Some(&brackets), name: "sum", args: &[] };
//! let sums = method(alloc, &mut store, &mut dict, frame, call)?;
//! ```
#![tactic(auto)]

mod by_group;
mod by_row;
mod calling;
mod calls;
mod checks;
mod columns;
mod grouping;
mod keys;
mod kinds;
mod values;

pub use calling::{GroupedCall, method};
