//! What an as-of merge of two frames answers: each row of one frame with the nearest row of the other, as a frame.
//!
//! [`asof_merged`] answers it by its definition on whole tables (`meaning_nearest/specs/AsofMerge.antt`).
//!
//! The key columns of both frames are found, each label by itself, and tested (`keys`). The nearest row of each row is found
//! by `asof_merge`, by the numbers in the first key columns and the cells in the others (`rows`). The frame of the rows that
//! meet is made by `frame_merge` (`merging`).
//!
//! ```text
//! let asof = Asof { on: time, by: cities, tolerance: Some(60), direction: Direction::Backward };
//! let merged = asof_merged(alloc, &store, &mut dict, left, right, &asof);
//! let merged = placed(&mut store, &mut dict, merged)?;
//! ```
#![tactic(auto)]

mod asked;
mod keys;
mod merging;
mod rows;

pub use asked::Asof;
pub use asof_merge::Direction;
pub use merging::asof_merged;
