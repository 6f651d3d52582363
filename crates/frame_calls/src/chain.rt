// A method with what stands before it.
use cell_core::Words;
use frame_store::{Argument, NamedList};

/// The name of a method with what stands between the object and it: nothing; `str`; a `groupby` with its
/// arguments and brackets; a window with its arguments.
#[derive(Drop)]
pub enum Chain {
    /// `v.name(..)`: the name alone.
    Plain(Words),
    /// `v.str.name(..)`: the name.
    Text(Words),
    /// `v.groupby(args)[arg].name(..)`: the arguments, the brackets if there are some, and the name.
    Group(NamedList, Option<Argument>, Words),
    /// `v.rolling(args).name(..)`: the arguments and the name.
    Rolling(NamedList, Words),
    /// `v.expanding(args).name(..)`: the arguments and the name.
    Expanding(NamedList, Words),
}
