//! Methods of texts on columns: how long each text is, what is left of it without white space, whether it begins with,
//! ends with or holds another one, its slices, and zeros in front of it.
//!
//! A text is its list of code points, and white space is Unicode's property White_Space. Each different text of a
//! column is worked on once, however many rows have it.
//!
//! ```text
//! let code = dict.intern("-7")?;
//! let mut codes = Column::new(alloc, Kind::Text);
//! codes.push(Cell::Text(code))?;
//! let wide = text_method(alloc, &mut dict, codes.as_ref(), TextOp::Fill(4))?;
//! ```
#![tactic(auto)]

mod answers;
mod methods;
mod ops;
mod points;
mod slices;
mod works;

pub use methods::text_method;
pub use ops::{TextFault, TextOp};
