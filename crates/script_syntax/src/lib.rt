//! The script language: its parser. The trees of statements are in the crate `script_tree`.
//!
//! [`parse`] cuts a text into pieces, reads each that isn't blank as tokens (the crate `script_tokens`)
//! and these as one statement. A statement is a tree: a [`Action`] over expressions ([`Expr`]) with their
//! steps ([`Step`]) and arguments ([`Arg`]). The reader goes down at most 32 forms, and reads no token
//! twice.
//!
//! ```text
//! let script = parse(alloc, b"x = pd.Series([1, 2])\nprint(len(x))\n")?;
//! assert_eq!(rt; script.len(), 2);
//! assert_eq!(rt; script.statement(1).line, 2);
//! assert!(rt; matches!(script.statement(1).action, Action::Print(..)));
//! assert!(rt; matches!(parse(alloc, b"x = (1\n"), Err(ParseFault::SyntaxAt(1))));
//! ```
#![tactic(auto)]

mod arguments;
mod expressions;
mod forms;
mod front;
mod grammar;
mod laws;
mod node;
mod part_list;
mod pieces;
mod refusal;
mod steps;
mod value;

pub use laws::{cut_law, one_reading};
pub use pieces::{ParseFault, parse};
pub use refusal::Refusal;
pub use script_tokens::Binary;
pub use script_tree::{
    Accessor, Action, Arg, ArgList, ArgPairs, Args, Expr, Literal, Script, Statement, Step, Sub,
    Unary, access_of, expanding_of, group_of, list_of, make_of, method_of, rolling_of, span_of,
    table_of, text_method_of, tuple_of,
};
