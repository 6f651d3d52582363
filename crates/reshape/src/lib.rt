//! Labels that become columns, and columns whose cells become rows.
//!
//! [`unstack_rows`] spreads rows by their keys and a label each, as the cells of some columns
//! ([`factorize::KeyColumns`]), and [`unstack_places`] tuples of labels: it answers for each key and label the row that
//! has both. [`stack_block`] puts the cells of columns into one column, row after row, and [`melt_block`] column after
//! column. What is answered is defined in `meaning_shapes`.
//!
//! ```text
//! let spread = unstack_places(alloc, &dict, &rest, &labels)?;
//! let first = spread.places.at(0);
//! let column = stack_block(alloc, &[first.as_ref(), second.as_ref()])?;
//! ```
#![tactic(auto)]

mod blocks;
mod entries;
mod fault;
mod lanes;
mod laws;
mod limits;
mod slots;
mod unstack;

pub use blocks::{melt_block, stack_block};
pub use fault::ReshapeFault;
pub use laws::stacks_back;
pub use unstack::{Spread, unstack_places, unstack_rows};
