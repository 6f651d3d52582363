//! Calls by name: which method or function a name means, and to which crate the call goes.
//!
//! [`method_of`] tells the method that a value has under a name, and [`method_called`] calls it. [`method`] does both,
//! and calls what stands behind `str`, `groupby`, `rolling` and `expanding`; [`method_behind`] does so of a name that is
//! borrowed, behind the last three (`methods`, [`Between`]). A function of `pd` that a name means
//! is called by [`function_called`], and [`make`] finds it first (`functions`). So who calls what he has tested looks a
//! name up once. [`exists`], [`function_exists`] and [`file_name`] ask of a name alone.
//!
//! One match sends each method to the crate of its family: `frame_methods`, `frame_reshape` or `frame_merge`, and what
//! stands behind other names to `frame_late`, `frame_groups` and `frame_windows`; another sends each function of `pd` to
//! `frame_make` or `frame_concat`. Those bind the arguments and answer. What a call answers is its definition on whole
//! tables (`meaning_method/specs/Calls.antt`, `Functions.antt`).
//!
//! ```text
//! // `s.fillna(0)`: `args` has one argument, the whole number 0
//! let filled = method(alloc, &mut store, &mut dict, on, &Chain::Plain(fillna), &args)?;
//! // the same, with a look at the name before the arguments are there
//! let found = method_of(&store, on, "fillna");
//! ```
#![tactic(auto)]

mod between;
mod chain;
mod functions;
mod methods;

pub use between::Between;
pub use chain::Chain;
pub use frame_signatures::function_named;
pub use functions::{file_name, function_called, function_exists, make};
pub use methods::{exists, is_query, method, method_behind, method_called, method_of};
