//! `pd.concat` of objects: Series and frames one below the other, or side by side.
//!
//! [`concat`] makes a table of the arguments of a call, or gives the first fault of what is meant; the definition is
//! `specs/Concat.antt` of the crate `meaning_method`.
//!
//! The objects are read as parts whose headings are found by a hash (`parts`, `gathering`). One below the other
//! (`below`) the columns of a heading must have one kind (`columns`), and the labels of the rows follow each other
//! (`axes`); side by side (`beside`) each part's columns stand on the rows of the labels that the parts have. The
//! kernels are those of `merge_concat`.
//!
//! ```text
//! // `pd.concat([f, g], axis=1)`: `args` has a list of two objects, and the whole number 1 under the name `axis`
//! let table = concat(alloc, &store, &dict, args.as_slice())?;
//! ```
#![tactic(auto)]

mod asked;
mod axes;
mod below;
mod beside;
mod calling;
mod columns;
mod gathering;
mod headings;
mod names;
mod parts;

pub use calling::concat;
