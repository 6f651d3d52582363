//! The trees of the script language, as the parser makes them and a session reads them.
//!
//! A [`Script`] is a list of statements. A [`Statement`] has its line and a [`Action`] over expressions ([`Expr`]),
//! with their steps ([`Step`]), subscripts ([`Sub`]) and arguments ([`Arg`]). Trees that hold lists are made of
//! their parts by functions ([`list_of`] and the others), whose contracts say which tree it is.
//!
//! ```text
//! // x.copy()
//! let name = Expr::Name(Words::copy_of(alloc, b"x")?);
//! let copy = method_of(Words::copy_of(alloc, b"copy")?, Args::new(alloc));
//! let tree = Expr::After(Box::new(alloc, name)?, Box::new(alloc, copy)?);
//! ```
#![tactic(auto)]

mod build;
mod literal;
mod parts;
mod script;
mod tree;

pub use build::{
    access_of, expanding_of, group_of, list_of, make_of, method_of, rolling_of, span_of, table_of,
    text_method_of, tuple_of,
};
pub use literal::{Accessor, Literal, Unary};
pub use parts::{ArgList, ArgPairs, Args};
pub use script::Script;
pub use tree::{Action, Arg, Expr, Statement, Step, Sub};
