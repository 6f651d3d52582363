//! Selections from Series and frames.
//!
//! [`select`] answers what stands in brackets or behind an accessor: a new object, or a cell. It
//! makes a plan of the table that it reads, and one call of the store carries the plan out: rows at
//! equal distances are derived, others are taken. [`rows_by`] and [`columns_by`] say what keys
//! pick, for settings too. The other public functions make new objects that have all rows of
//! another one, or tables of some rows; methods are built on them.
//!
//! Labels are compared by their numbers. In brackets one column is looked up by a walk, which takes
//! no memory, and a list of them by a map of all columns, made once. Rows have labels of one to four levels.
//!
//! The definitions are in the crates `meaning_select` and `meaning_charge`.
//!
//! ```text
//! // `f["price"]`: `price` is a key, the text
//! let series = select(alloc, &mut store, &mut dict, frame, Selector::Plain, &price, None)?;
//! ```
#![tactic(auto)]

mod headings;
mod keys;
mod labels;
mod new_objects;
mod planning;
mod reaching;
mod selecting;
mod subscripts;
mod taking;

pub use headings::{expect_unshared, heading_list, repeated_label};
pub use keys::{joined_key, listed_keys};
pub use labels::{
    Named, argument_column, argument_columns, headings_at, label_columns, named_columns,
    place_of_label, places_of_label,
};
pub use new_objects::{as_frame, copied, places_below, renamed};
pub use reaching::{all_columns, columns_by, may_stand_alone, rows_by};
pub use selecting::{columns_of, select, sliced};
pub use subscripts::scalars_alone;
pub use taking::{chosen_blocks, chosen_table};
