// What stands between a value and a method that is called.
use frame_store::{Argument, NamedList};

/// What stands between a value and a method that is called. The name of the method stands behind it.
#[derive(Clone, Copy)]
pub enum Between<'a> {
    /// `v.groupby(args)[arg]`: the arguments, and the brackets if there are some.
    Groupby(&'a NamedList, &'a Option<Argument>),
    /// `v.rolling(args)`: the arguments.
    Rolling(&'a NamedList),
    /// `v.expanding(args)`: the arguments.
    Expanding(&'a NamedList),
}
