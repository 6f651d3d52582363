//! How the arguments of a call are bound to a signature.
//!
//! One table has the parameters of each method of a Series or a frame and of each function of `pd`:
//! their names, the form that each takes, what stands where an argument isn't given, and the values
//! that are listed. [`bind`] says whether a signature takes the arguments of a call, by Python's rules
//! for positional and keyword arguments, and makes every refusal that all calls share. It gives the
//! [`Bound`] arguments; what stands at a place of the signature is then read by a function for each
//! form, as [`Bound::whole`], and places have names ([`arguments`]). Nothing here changes anything, and
//! [`scalars_of`] alone takes memory.
//!
//! The signatures are those of the pandas API reference, as far as this library has them; their
//! definition is `specs/Signature.antt` of the crate `meaning_call`, and that of binding is
//! `specs/Binding.antt` there. [`binds_by_place`] says by what rule that definition binds.
//!
//! ```text
//! // `s.head(n=3)`: `args` has one argument, the whole number 3 under the name `n`
//! let method = method_named(Shape::Series, "head");
//! assert!(rt; method == Some(Method::Table(TableMethod::Head)));
//! let signature = parameters(Method::Table(TableMethod::Head));
//! assert_eq!(rt; bind(&store, &dict, signature, args)?.whole(arguments::HEAD_N), 3);
//! // without arguments, the default stands there
//! assert_eq!(rt; bind(&store, &dict, signature, &[])?.whole(arguments::HEAD_N), 5);
//! ```
#![tactic(auto)]

pub mod arguments;
mod binding;
mod bound;
mod forms;
mod places;
mod rule;
mod scalars;
mod table;

pub use binding::{Unbound, bind, counted, goes_to};
pub use bound::Bound;
pub use forms::are_scalars;
pub use rule::binds_by_place;
pub use scalars::scalars_of;
pub use table::{
    default_text, function_named, function_parameters, kind_named, method_named, parameters,
    spelled, str_named, str_parameters,
};
