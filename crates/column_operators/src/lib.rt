//! The operators on columns of nullable cells, marks of cells, and a cell in place of missing ones.
//!
//! [`binary`] has a column on either side, [`with_scalar`] one cell beside each cell of a column, and [`invert`]
//! turns truth values; [`isna`], [`notna`] and [`isin`] mark cells, and [`fillna`] puts one in the place of each
//! missing one (`missing` and `membership`, over the loop of `maps`). Each makes a new column of the cells that it is
//! given, and its answer is a definition on these cells. `+` alone makes texts, which it adds to the dictionary: for the
//! other operators [`pure_binary`] and [`pure_with_scalar`] only read it.
//! An operator is what it does (`Task`) on the values of a row (`operators`); where these lie side by side with their
//! flags, flags and values are made each by itself (`pairs`), for sixteen rows at a time by vectors (`vectors`), and
//! quotients by one divisor by its inverse (`divisors`).
//!
//! ```text
//! let mut price = Column::new(alloc, Kind::Int64);
//! price.push(Cell::Int(7))?;
//! price.push(Cell::Na)?;
//! let twice = with_scalar(alloc, &mut dict, Operator::Mul, price.as_ref(), Cell::Int(2), false)?;
//! ```
#![tactic(auto)]

mod divisors;
mod floor;
mod joins;
mod kernels;
mod maps;
mod membership;
mod missing;
mod operators;
mod ops;
mod pairs;
mod vectors;

pub use kernels::{binary, invert, pure_binary, pure_with_scalar, with_scalar};
pub use membership::isin;
pub use missing::{fillna, isna, notna};
pub use ops::Operator;
