//! The lower half of the parser of scripts: the pieces of a text, and the tokens of a piece.
//!
//! A script is cut into pieces, each of which holds one statement or none: a piece ends with the
//! first line feed at which no more brackets were opened than closed. A piece that is not blank is
//! read as tokens, the longest ones, with blanks, line ends and comments between them.
//!
//! ```text
//! let (piece, after) = bytes.split_at(piece_len(bytes));
//! if !is_blank(piece) {
//!     let tokens = tokens(alloc, text)?; // `text` is the piece, found to be UTF-8
//! }
//! line += line_ends(piece) as u64;
//! ```
#![tactic(auto)]

mod blank;
mod lexing;
mod piece;
mod sign;
mod text;
mod token;
mod word;

pub use blank::{is_blank, skip};
pub use lexing::{token_at, tokens};
pub use piece::{line_ends, piece_len};
pub use token::{Binary, Mark, Token};
