//! One level of the labels of rows or columns.
//!
//! An [`Index`] is a list of labels, and contracts see it as that list. A range of whole numbers,
//! which is what the rows of a new table have, keeps its length alone, and answers for a label or a slice
//! without a search. [`LabelRows`] has the rows of each label of a list, for those who ask for many labels.
//!
//! ```text
//! let rows = Index::range(alloc, 3)?;
//! let keys = Index::from_labels(alloc, &[Label::Int(7), Label::Na])?;
//! let last = keys.label(keys.len() - 1);
//! let missing = keys.places(alloc, Label::Na)?;
//! let from_seven = keys.slice_places(&dict, Some(Label::Int(7)), None)?;
//! ```
#![tactic(auto)]

mod fault;
mod found;
mod index;
mod listed;
mod ranges;

pub use fault::IndexFault;
pub use found::LabelRows;
pub use index::Index;
pub use ranges::run_of;
