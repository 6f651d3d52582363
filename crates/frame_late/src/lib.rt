//! Late forms on objects: the methods of the texts of a Series, which stand behind `str`.
//!
//! [`method`] calls a method of texts by its name, with the arguments of the call, and answers a new object. What it
//! answers is its definition on whole tables (`meaning_method/specs/StrCalls.antt`). [`has_texts`] and [`text_exists`] test
//! the value and the name before the arguments are there.
//!
//! The arguments are bound and read as an operation of `text_methods` (`told`), which is made of the column by itself
//! (`columns`); the table of the column is made by `frame_methods`.
//!
//! ```text
//! // `s.str.strip()`
//! if has_texts(&store, on) && text_exists("strip") {
//!     let stripped = method(alloc, &mut store, &mut dict, on, "strip", &[])?;
//! }
//! ```
#![tactic(auto)]

mod calling;
mod columns;
mod told;

pub use calling::{has_texts, method, text_exists};
