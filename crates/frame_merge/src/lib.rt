//! What `merge` of a frame answers: the rows of two frames that have equal keys, as a frame.
//!
//! [`merge`] answers it by its definition on whole tables (`meaning_method/specs/Merge.antt`).
//!
//! The arguments are bound and read (`arguments`), and the key columns of both frames are found and tested (`keys`).
//! The rows are joined by `merge_concat`, by the cells of the key columns (`rows`). A label that columns of both frames
//! have, neither of them a key, gets a suffix (`suffixes`, `headings`). The limits are tested before a cell is taken; then
//! the columns are made one by one (`columns`), and the table of them (`merging`).
//!
//! ```text
//! // `left.merge(right, on="city")`
//! args.push(Named { name: None, value: Argument::One(Value::Object(right)) })?;
//! args.push(Named { name: Some(on), value: Argument::One(Value::Scalar(Cell::Text(city))) })?;
//! let joined = merge(alloc, &mut store, &mut dict, left, args.as_slice())?;
//! ```
#![tactic(auto)]

mod arguments;
mod calling;
mod columns;
mod headings;
mod keys;
mod merging;
mod places;
mod rows;
mod suffixes;

pub use calling::merge;
pub use keys::{MergeKeys, are_same_kinds, keys_named};
pub use merging::frame_of_pairs;
