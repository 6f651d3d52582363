//! Which rows a key picks: definitions alone, in `specs/`, which the contracts of axes and keys cite.
//!
//! The rules are those of the pandas user guide, "Indexing and selecting data" ("Selection by label", "Slicing with
//! labels", "Selection by position", "Boolean indexing"), and, for positions, of Python's slices. A definition is
//! the same for labels whose texts are numbers of a dictionary and for labels whose texts are texts: it takes the
//! test and the order of labels.
//!
//! ```text
//! rows_of_key       the rows that carry a label, in order
//! rows_of_keys      those of each label of a list, one after the other
//! label_slice       the rows of a slice by labels on one level
//! slice_on          those on so many levels
//! position_slice    the rows of a slice by positions
//! masked_rows       the rows whose mask cell is True
//! picked_by_label   what a key of `loc` picks
//! picked_by_place   what a key of `iloc` picks
//! ```
#![tactic(auto)]
