//! What stands behind `rolling` and `expanding` of a Series or a frame: sums, least and greatest cells of windows.
//!
//! [`method`] calls a method behind `rolling` or `expanding`, with the arguments of that name, and answers a new object.
//! What it answers is its definition on whole tables (`meaning_method/specs/Windows.antt`).
//!
//! The arguments of `rolling` or `expanding` are bound and read (`windows`), then the last call (`calls`). Each column is
//! made by itself, by the kernels of `rolling` (`columns`); the table of the columns is made by `frame_methods`.
//!
//! ```text
//! // `s.rolling(3, min_periods=1).max()`
//! let told = WindowsTold::Rolling(windows.as_slice());
//! let greatest = method(alloc, &mut store, &mut dict, on, told, "max", &[])?;
//! ```
#![tactic(auto)]

mod calling;
mod calls;
mod columns;
mod windows;

pub use calling::method;
pub use windows::WindowsTold;
