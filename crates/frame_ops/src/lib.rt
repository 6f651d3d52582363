//! Operators on scalars, Series and frames.
//!
//! [`infix`] is `a + b` and the other operators on two operands, [`invert_or_negate`] is `-a` and `~a`.
//! Two Series meet row by row, and two frames column by column and row by row: by position where their
//! labels are equal, and else by their labels; a Series stands in each row of a frame, its labels as
//! those of columns; a scalar stands in each row of each column.
//! NA on a side gives NA, but for `&` and `|`, which follow Kleene's logic.
//!
//! ```text
//! let twice = infix(alloc, &mut store, &mut dict, Operator::Mul, price, Value::Scalar(Cell::Int(2)))?;
//! let total = infix(alloc, &mut store, &mut dict, Operator::Add, twice, tax)?;
//! let opposite = invert_or_negate(alloc, &mut store, &mut dict, true, total)?;
//! ```
#![tactic(auto)]

mod columns;
mod fitting;
mod forms;
mod headings;
mod joining;
mod kinds;
mod naming;
mod other;
mod spreading;
mod tables;
mod widening;

pub use forms::{infix, invert_or_negate};
