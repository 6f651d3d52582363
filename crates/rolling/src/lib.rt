//! Windows over whole numbers, and what runs up to each row: sums, least and greatest values.
//!
//! A [`Window`] answers for the last cells pushed, and keeps running numbers, so that a push takes the same short
//! time on average, however large the window is. An [`Expanding`] answers for all cells pushed. [`roll`] and
//! [`expand`] make a column of the answers for each row of a column.
//!
//! ```text
//! let mut window = Window::with_size(alloc, 3, 2, Cumulation::Min)?;
//! let first = window.push(Cell::Int(4));
//! let second = window.push(Cell::Int(2));
//! ```
#![tactic(auto)]

mod candidates;
mod columns;
mod expanding;
mod running;
mod window;

pub use columns::{expand, roll};
pub use expanding::Expanding;
pub use nullable_array::Cumulation;
pub use window::Window;
