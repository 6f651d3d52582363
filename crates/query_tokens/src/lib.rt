//! The lower half of the reader of queries: a text, as its tokens.
//!
//! The tokens of a query are those of a script, `@`, and names between backquotes, with blanks, line ends and
//! comments before, between and behind them.
//!
//! ```text
//! let tokens = query_tokens(alloc, "price > @least")?; // `price`, `>`, `@` and `least`
//! ```
#![tactic(auto)]

mod lexing;
mod name;
mod token;

pub use lexing::query_tokens;
pub use token::QueryToken;
