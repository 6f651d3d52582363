//! Casts, reductions and cumulations of columns of nullable cells.
//!
//! A [`Column`] and a [`ColRef`] are those of `column_core`; each call here makes a new column, a cell or a
//! number of the cells that it is given, and its answer is a definition on these cells. Below them lie two loops for
//! operations of other crates too: [`by_sides`] for a [`PairOp`] on values and flags that lie side by side, and
//! [`text_column`] for a [`TextOp`] that writes a text for each row.
//!
//! ```text
//! let mut price = Column::new(alloc, Kind::Int64);
//! price.push(Cell::Int(7))?;
//! price.push(Cell::Na)?;
//! let so_far = cumulate(alloc, Cumulation::Sum, price.as_ref())?;
//! let total = reduce(&dict, Reduction::Sum, price.as_ref())?;
//! ```
#![tactic(auto)]

mod casts;
mod cumulations;
mod distinct_cells;
mod extremes;
mod folds;
mod ops;
mod orders;
mod pairs;
mod reductions;
mod texts;

pub use casts::{cast, number_of_text, truth_of_text};
pub use column_core::{Block, ColRef, Column, shift, take};
pub use cumulations::cumulate;
pub use distinct_cells::distinct;
pub use ops::{ArrayFault, Cumulation, Reduction};
pub use orders::{ByNumber, ByText, ByTruth, Order};
pub use pairs::{PairOp, Side, by_sides};
pub use reductions::reduce;
pub use texts::{TextOp, text_column};
