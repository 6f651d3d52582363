//! What an as-of merge of frames answers: each row of one frame with the nearest row of another one, as a frame.
//! Definitions alone, in `specs/`.
//!
//! The rules are those of the pandas user guide, "Merge, join, concatenate and compare" ("merge_asof").
//!
//! ```text
//! asof_keys     the columns of both frames whose cells are the keys, and those that say which rows may meet
//! asof_frame    the left rows with their nearest right rows, as a frame
//! asof_result   that frame, or why there is none
//! ```
#![tactic(auto)]
