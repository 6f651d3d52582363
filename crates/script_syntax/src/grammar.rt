//! The rules take the readers of expressions and arguments of less depth as parameters, so that each is proved by itself.
ghost use Rattle.std.specs.Prelude.{◌≡◌, ◌≤◌, ◌<◌};
ghost use Rattle.script_tokens.specs.language.Depth.{depth, arg_depth};
ghost use Rattle.script_tree.specs.View.{expr_of, arg_of};
ghost use Rattle.script_tokens.specs.View.{tokens_of};
ghost use Rattle.script_syntax.specs.Found.{Finds};
ghost use Rattle.script_syntax.specs.Nests.{Nests};
ghost use Rattle.script_syntax.specs.Reading as spec;

use crate::node::Found;
use crate::refusal::Refusal;
use script_tokens::Token;
use script_tree::{Arg, Expr};
use std::alloc::Global;

// What reads forms that hold forms of at most the depth `room`.
#[derive(Drop)]
pub(crate) struct Grammar<E, A> {
    pub(crate) alloc: Global,
    pub(crate) room: usize,
    // Reads an expression of at least a level.
    pub(crate) expr: E,
    pub(crate) argument: A,
}

impl<
    E: for<'t, 'a> Fn(Global, &'t [Token<'a>], usize, usize) -> Found<'t, 'a, Expr>,
    A: for<'t, 'a> Fn(Global, &'t [Token<'a>], usize) -> Found<'t, 'a, Arg>,
> Grammar<E, A> {
    pub(crate) fn expr<'t, 'a>(&self, tokens: &'t [Token<'a>], least: usize) -> Found<'t, 'a, Expr>
        requires { Nests E.Fn A.Fn self.now.expr self.now.argument self.now.room }
        ensures { Finds expr_of depth self.now.room result
            (spec.expr_at self.now.room least (tokens_of tokens.now)) }
    {
        (self.expr)(self.alloc, tokens, self.room, least)
    }

    pub(crate) fn argument<'t, 'a>(&self, tokens: &'t [Token<'a>]) -> Found<'t, 'a, Arg>
        requires { Nests E.Fn A.Fn self.now.expr self.now.argument self.now.room }
        ensures { Finds arg_of arg_depth self.now.room result
            (spec.argument_at self.now.room (tokens_of tokens.now)) }
    {
        (self.argument)(self.alloc, tokens, self.room)
    }
}

// An expression of at least a level, no deeper than `room`.
#[cycle(parse)]
pub(crate) fn expr_at<'t, 'a>(
    alloc: Global,
    tokens: &'t [Token<'a>],
    room: usize,
    least: usize,
) -> Found<'t, 'a, Expr>
    requires { room ≤ 32 }
    ensures { Finds expr_of depth room result (spec.expr_at room least (tokens_of tokens.now)) }
{
    if room == 0 {
        return Err(Refusal::Syntax);
    }
    Grammar {
        alloc,
        room: room - 1,
        expr: expr_at,
        argument: argument_at,
    }
    .expr_with(tokens, least)
}

// An argument, no deeper than `room`.
#[cycle(parse)]
pub(crate) fn argument_at<'t, 'a>(
    alloc: Global,
    tokens: &'t [Token<'a>],
    room: usize,
) -> Found<'t, 'a, Arg>
    requires { room ≤ 32 }
    ensures { Finds arg_of arg_depth room result (spec.argument_at room (tokens_of tokens.now)) }
{
    if room == 0 {
        return Err(Refusal::Syntax);
    }
    Grammar {
        alloc,
        room: room - 1,
        expr: expr_at,
        argument: argument_at,
    }
    .argument_with(tokens)
}
