//! Queries, read to the masks that they stand for.
//!
//! A query, as `price > 3 and name in ["a", "b"]`, is read as its tokens (the crate `query_tokens`) and these as one
//! expression of the script language, in which the empty name is the frame's. The reader goes down at most 32 forms,
//! and reads no token twice.
//!
//! ```text
//! let mask = parse_query(alloc, "price > @least")?;
//! assert!(rt; matches!(parse_query(alloc, "price >"), Err(QueryFault::NotQuery)));
//! ```
#![tactic(auto)]

mod constants;
mod fault;
mod form;
mod front;
mod grammar;
mod laws;
mod query;

pub use fault::QueryFault;
pub use laws::reads_query;
pub use query::parse_query;
