//! Rows of two axes that meet by their labels.
//!
//! [`outer`] joins two axes: all tuples of both sides in order, with each pair of their rows, and [`outer_within`] where
//! these are so many at most. [`reindex`]
//! finds the row of each target tuple. Where both axes have the same tuples
//! ([`multi_index::Axis::same_labels`], a test without memory) rows meet by position, and a caller joins
//! nothing. What is answered is defined in `meaning_align`.
//!
//! ```text
//! let joined = outer(alloc, &dict, &a, &b)?;
//! let rows = reindex(alloc, &a, &target)?;
//! ```
#![tactic(auto)]

mod axes;
mod both;
mod fault;
mod joined;
mod joins;
mod runs;
mod targets;

pub use fault::AlignFault;
pub use joined::Joined;
pub use joins::{outer, outer_within};
pub use targets::reindex;
