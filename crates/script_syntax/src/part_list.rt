// Lists of parts between commas, each part with what stands before it.
#![tactic(auto, unfolding(crate::specs::Reading::tag_at, crate::specs::Reading::has_name, crate::specs::Reading::as_part))]

ghost use Rattle.std.specs.Prelude.{◌≡◌, [], ◌∷◌, ◌++◌, List, OnOk};
ghost use Rattle.script_tokens.specs.language.Tree as tree;
ghost use Rattle.script_tokens.specs.language.Depth.{arg_depth};
ghost use Rattle.script_tree.specs.View.{arg_of};
ghost use Rattle.script_tokens.specs.View.{tokens_of};
ghost use Rattle.script_syntax.specs.Found.{Finds, Gives};
ghost use Rattle.script_syntax.specs.Reading as spec;

use crate::front::keyword;
use crate::node::{Found, as_item};
use crate::refusal::Refusal;
use crate::value::key_at;
use cell_core::{NoMemory, Words};
use script_tokens::Token;
use script_tree::{Arg, ArgList, ArgPairs, Args, Literal};
use std::alloc::Global;

// What was read, and what follows it.
type Read<'t, 'a, T> = Result<(T, &'t [Token<'a>]), Refusal>;

// The parts of a list or a tuple, of a call, or of a dictionary.
pub(crate) trait PartList: Drop {
    ghost by: { tree.Tagging };

    ghost tag_of: { Self.Tag → tree.Tag by };

    ghost parts_of: { Self → List (tree.Tag by × tree.Arg) };

    // What stands before a part: nothing, the name of an argument, or a key.
    type Tag: Drop;

    // What stands before a part, where that may stand, and what follows it.
    fn tag_at<'t, 'a>(
        alloc: Global,
        tokens: &'t [Token<'a>],
        after_name: bool,
    ) -> Read<'t, 'a, Self::Tag>
        ensures { Gives (λ t. (tag_of t.0, tokens_of (t.1).now)) result
            (spec.tag_at by after_name (tokens_of tokens.now)) };

    fn has_name(tag: &Self::Tag) -> bool
        ensures { result ≡ spec.has_name by (tag_of tag.now) };

    // An argument that must be one that may be a part.
    fn as_part<'t, 'a>(arg: Arg, depth: usize, rest: &'t [Token<'a>]) -> Found<'t, 'a, Arg>
        requires { depth ≡ arg_depth (arg_of arg) }
        ensures { Finds arg_of arg_depth depth result
            (spec.as_part by (arg_of arg) (tokens_of rest.now)) };

    fn push(&mut self, tag: Self::Tag, arg: Arg) -> Result<(), NoMemory>
        ensures ok { OnOk result (parts_of self.new
            ≡ parts_of self.old ++ (tag_of tag, arg_of arg) ∷ []) };
}

impl PartList for ArgList {
    ghost use Rattle.script_tree.specs.View.{parts_of};

    ghost by = { tree.bare };

    ghost tag_of = { λ tag. tt };

    ghost parts_of = { parts_of };

    type Tag = ();

    fn tag_at<'t, 'a>(_: Global, tokens: &'t [Token<'a>], _: bool) -> Read<'t, 'a, ()> {
        Ok(((), tokens))
    }

    fn has_name(_tag: &()) -> bool {
        false
    }

    fn as_part<'t, 'a>(arg: Arg, depth: usize, rest: &'t [Token<'a>]) -> Found<'t, 'a, Arg> {
        as_item(arg, depth, rest)
    }

    fn push(&mut self, _tag: (), arg: Arg) -> Result<(), NoMemory> {
        self.push(arg)
    }
}

impl PartList for Args {
    ghost use Rattle.script_tree.specs.View.{named_parts_of};

    ghost by = { tree.named };

    ghost tag_of = { λ tag. tag };

    ghost parts_of = { named_parts_of };

    type Tag = Option<Words>;

    fn tag_at<'t, 'a>(
        alloc: Global,
        tokens: &'t [Token<'a>],
        after_name: bool,
    ) -> Read<'t, 'a, Option<Words>> {
        keyword(alloc, tokens, after_name)
    }

    fn has_name(tag: &Option<Words>) -> bool {
        tag.is_some()
    }

    fn as_part<'t, 'a>(arg: Arg, depth: usize, rest: &'t [Token<'a>]) -> Found<'t, 'a, Arg> {
        Ok((arg, depth, rest))
    }

    fn push(&mut self, tag: Option<Words>, arg: Arg) -> Result<(), NoMemory> {
        self.push(tag, arg)
    }
}

impl PartList for ArgPairs {
    ghost use Rattle.script_tree.specs.View.{pair_parts_of, literal_of};

    ghost by = { tree.keyed };

    ghost tag_of = { literal_of };

    ghost parts_of = { pair_parts_of };

    type Tag = Literal;

    fn tag_at<'t, 'a>(alloc: Global, tokens: &'t [Token<'a>], _: bool) -> Read<'t, 'a, Literal> {
        key_at(alloc, tokens)
    }

    fn has_name(_tag: &Literal) -> bool {
        false
    }

    fn as_part<'t, 'a>(arg: Arg, depth: usize, rest: &'t [Token<'a>]) -> Found<'t, 'a, Arg> {
        Ok((arg, depth, rest))
    }

    fn push(&mut self, tag: Literal, arg: Arg) -> Result<(), NoMemory> {
        self.push(tag, arg)
    }
}
