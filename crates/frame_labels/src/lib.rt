//! The methods of Series and frames that are about labels: levels of the rows, the rows and columns
//! that labels name, and columns as labels.
//!
//! Each function here says what one method makes, or what several of them share. `frame_methods`
//! calls them by the names of the methods and has the store make the objects: of a table, or, where the
//! columns stay as they are, of a plan of the object (`frame_store`'s `Derivation`; `reset_index` has new
//! columns before them, an `Extension`). `drop_columns` makes its object itself. What is answered is defined
//! on whole tables (`meaning_method/specs/Levels.antt`, `Reindex.antt`, `Section.antt` and `Rows.antt`).
//!
//! Levels get names (`axis_names`) or are made of columns (`indexing`), go or change places
//! (`levels`), and become columns again (`level_columns`, `resetting`). Rows and columns are picked
//! by a list of labels (`reindexing`), rows by their label on one level (`cross_section`), and
//! columns by what an argument names (`named_columns`): such a label is one column. Labels that select columns are all columns
//! that have them: `dropping` is a frame without these. `under` plans the table under another axis,
//! and `column_labels` makes an axis of the labels of columns.
//!
//! [`columns_at`] gives the columns whose cells are the keys of rows, by their places, for `factorize::KeyColumns`
//! (`key_columns`). The keys that these have are the labels that the cells of the rows are, which `proofs/KeyLaws.antt`
//! says for [`groups_by`], `merge` and `pivot`. [`groups_by`] gives the groups of rows with equal keys, and [`key_tuples`]
//! the keys of rows as labels, for `groupby` and for `pivot_table` (`row_groups`).
//!
//! Calls behind `groupby` (`frame_groups`) and joins of frames (`frame_merge`) take some parts from
//! here, and so they do the fault of a name that no method has, and what the last name of a chain means
//! (`attributes`).
//!
//! ```text
//! // `f.set_index("city")`, of a frame that is read of the store, with its arguments bound
//! let places = named_places(alloc, &store, &dict, &bound, on)?;
//! let made = set_index(alloc, &dict, &store.read(on), &places);
//! let frame = derived(&mut store, &dict, on, made)?;
//! ```
#![tactic(auto)]

mod attributes;
mod axis_names;
mod column_labels;
mod cross_section;
mod dropping;
mod indexing;
mod key_columns;
mod level_columns;
mod levels;
mod named_columns;
mod reindexing;
mod resetting;
mod row_groups;
mod under;

pub use attributes::{no_attribute, without_arguments};
pub use axis_names::{level_names, rename_axis, renumber};
pub use column_labels::{column_label, columns_axis};
pub use cross_section::xs;
pub use dropping::drop_columns;
pub use indexing::{row_tuple, set_index};
pub use key_columns::columns_at;
pub use level_columns::cell_of;
pub use levels::{drop_level, level_of, swap_levels};
pub use named_columns::{named_places, places_besides, subset_places, told_places};
pub use reindexing::reindex;
pub use resetting::reset_levels;
pub use row_groups::{groups_by, key_tuples};
pub use under::named_axis;
