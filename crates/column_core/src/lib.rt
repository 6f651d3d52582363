//! Columns of nullable cells: how they are kept, borrowed with a step, moved and made row by row.
//!
//! A [`Column`] holds cells of one kind, a [`Block`] several columns of one kind and length, and a
//! [`ColRef`] borrows cells of either with a step and copies none. Contracts see a column as its
//! kind and its cells, and a text cell through the texts of the dictionary. Below the cells lie
//! values with a flag each, a [`Lane`] where they are borrowed and an [`Owned`] where they are kept;
//! kernels make new columns of them with [`by_rows`], the one loop over an operation of a row.
//!
//! ```text
//! let mut price = Column::new(alloc, Kind::Int64);
//! price.push(Cell::Int(7))?;
//! price.push(Cell::Na)?;
//! let later = shift(alloc, price.as_ref(), 1)?;
//! ```
#![tactic(auto)]

mod blocks;
mod columns;
mod lanes;
mod moves;
mod rows;
mod sources;
mod strides;

pub use blocks::Block;
pub use columns::{
    Borrowed, ColRef, Column, Element, Kept, Plain, cell_of_number, cell_of_text, cell_of_truth,
    number_in, text_in, truth_in,
};
pub use lanes::{Lane, Owned};
pub use moves::{copied, copied_lane, shift, take};
pub use rows::{RowFault, RowOp, Source, by_rows};
pub use sources::{Dense, Nothing, Same};
