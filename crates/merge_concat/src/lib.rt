//! The rows of two sides that have equal keys, and what stands one below the other or side by side.
//!
//! [`join_rows`] joins the rows of two sides by their keys, as the cells of some columns ([`factorize::KeyColumns`]), and
//! [`join_pairs`] tuples of labels. [`concat_rows`] and [`concat_parts`] put columns one below the other, where a part may
//! lack the column; [`axis_below`] puts labels of rows so, with a label for each part if there are such.
//! [`concat_columns`] has the labels of axes that are put side by side. [`first_repeated_row`] finds a key that stands twice
//! by the numbers of keys, and [`key_of_row`] makes it a tuple. [`Laid`] has the values of a column of a kind, and
//! [`with_room`] room for such values, for those who put columns together in another order. What is answered is defined in
//! `meaning_join`.
//!
//! ```text
//! let once = Validate { left: true, right: false };
//! let pairs = join_pairs(alloc, &dict, &left, &right, How::Inner, once)?;
//! let first = pairs.left.at(0);
//! let column = concat_rows(alloc, &[first.as_ref(), second.as_ref()])?;
//! let labels = concat_columns(alloc, &[&left, &right], false)?;
//! ```
#![tactic(auto)]

mod axes;
mod below;
mod beside;
mod fault;
mod growing;
mod joins;
mod lanes;
mod numbers;
mod pairs;
mod parts;
mod repeats;
mod sides;

pub use axes::axis_below;
pub use below::{common_kind, concat_parts, concat_rows};
pub use beside::{concat_columns, have_same_labels};
pub use fault::MergeFault;
pub use growing::with_room;
pub use joins::{join_pairs, join_rows};
pub use lanes::Laid;
pub use pairs::Pairs;
pub use parts::Part;
pub use repeats::{first_repeated_row, key_of_row};
