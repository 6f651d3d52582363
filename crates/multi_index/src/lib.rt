//! The axis of a table: the labels of its rows on one to four levels, and the names of the levels.
//!
//! An [`Axis`] has a tuple of labels for each row. Contracts see it as the list of the tuples and
//! the list of the names. Rows are taken by their places, with each level's name kept; levels are dropped and
//! exchanged with their names. Leading labels and slices between them pick rows.
//!
//! What an axis keeps are its [`Levels`]: the labels of each level, which differ and of which none is missing, and for each
//! row the code of its label. Rows that are taken keep the labels of each level, those that no row has any more as well.
//! One level has its labels by row, as an [`index_core::Index`], which answers for a label or a slice.
//!
//! ```text
//! let mut rows = Axis::from_tuples(alloc, &dict, &tuples, 2)?;
//! rows.set_name(0, Some(Label::Text(city)));
//! let taken = rows.take(alloc, &places)?;
//! let first = taken.label(0, 1);
//! let ones = Axis::range(alloc, 9)?.places(alloc, &Tuple::of(alloc, &[Label::Int(1)]))?;
//! let cities = rows.drop_level(alloc, 1)?;
//! let code = taken.by_level().code(0, 0);
//! ```
#![tactic(auto)]

mod axis;
mod fault;
mod labels;
mod level;
mod levels;
mod listed;
mod names;
mod seen;
mod single;

pub use axis::Axis;
pub use fault::AxisFault;
pub use levels::Levels;
