// What stands between a value and a method that is called behind it.
ghost use Rattle.std.specs.Prelude.{◌≡◌};
ghost use Rattle.script_session.specs.Links.{link_name, between_of};

use cell_core::Words;
use frame_store::{Argument, NamedList};
use script_state::Between;
use script_tree::{Arg, Args};

// The link of a chained call.
#[derive(Clone, Copy)]
pub(crate) enum Link {
    Groupby,
    Rolling,
    Expanding,
}

// A chained call: the arguments of the link, what stands in brackets behind it, and the method with its arguments.
#[derive(Clone, Copy)]
pub(crate) struct Linked<'a> {
    pub(crate) link: Link,
    pub(crate) args: &'a Args,
    pub(crate) by: &'a Option<Arg>,
    pub(crate) name: &'a Words,
    pub(crate) more: &'a Args,
}

impl Link {
    pub(crate) fn name(self) -> &'static str
        ensures { result.now ≡ link_name self }
    {
        match self {
            Link::Groupby => "groupby",
            Link::Rolling => "rolling",
            Link::Expanding => "expanding",
        }
    }

    // A call behind the link, of these parts.
    pub(crate) fn linked<'a>(
        self,
        args: &'a Args,
        by: &'a Option<Arg>,
        name: &'a Words,
        more: &'a Args,
    ) -> Linked<'a>
        ensures { result ≡ record {
          link = self;
          args = args.entry;
          by = by.entry;
          name = name.entry;
          more = more.entry;
        } }
    {
        Linked {
            link: self,
            args,
            by,
            name,
            more,
        }
    }

    // What stands before a name, of evaluated parts. Only `groupby` has brackets.
    pub(crate) fn between<'a>(self, args: &'a NamedList, by: &'a Option<Argument>) -> Between<'a>
        ensures { result ≡ between_of self args.entry by.entry }
    {
        match self {
            Link::Groupby => Between::Groupby(args, by),
            Link::Rolling => Between::Rolling(args),
            Link::Expanding => Between::Expanding(args),
        }
    }
}
