//! The methods of Series and frames, by what they make.
//!
//! One function answers each family of methods: [`column_method`] new columns, [`summary_method`] one cell of each,
//! [`row_method`] rows, [`level_method`] levels, [`label_method`] what labels name, [`table_method`] the whole table. It
//! takes the arguments of a script and answers a scalar or a new object. What a method answers for its arguments is its
//! definition on whole tables (`meaning_method/specs/Methods.antt`); the refusals that all methods share come from the
//! table of signatures (the crate `frame_signatures`), to which a call's arguments are bound first (`binding`). Which
//! method a name means is told above, in `frame_calls`.
//!
//! A method that makes new cells makes them column by column (`columns`), each by an operation of its
//! own (`column_ops`); one that gives an object's rows again under other headings does so by
//! `Store::derive`; one that makes one cell of a column does so by a reduction (`summaries`). Rows are
//! picked (`rows`), told apart (`duplicates`) or put in order by their keys (`sorts`, `sort_keys`) as
//! numbers, of which one table is made. The text of a whole table, which `to_csv` answers, is made by
//! `frame_format` (`csv`).
//!
//! What the methods of levels and labels make, and the columns that an argument names, is in the
//! crate `frame_labels` below. A call of another crate that makes each column by itself is an operation, too: a
//! [`ColumnOp`], of which [`columns_placed`] makes an object.
//!
//! ```text
//! let mut args = NamedList::new(alloc);
//! args.push(Named { name: None, value: Argument::One(Value::Scalar(Cell::Int(0))) })?;
//! let filled = column_method(alloc, &mut store, &mut dict, on, ColumnMethod::Fillna, args.as_slice())?;
//! ```
#![tactic(auto)]

mod binding;
mod calling;
mod column_ops;
mod columns;
mod csv;
mod duplicates;
mod listed;
mod made;
mod relabelling;
mod renaming;
mod rows;
mod sort_keys;
mod sorts;
mod summaries;
mod tables;

pub use calling::{
    column_method, label_method, level_method, row_method, summary_method, table_method,
};
pub use columns::{ColumnOp, MadeColumn};
pub use tables::columns_placed;
