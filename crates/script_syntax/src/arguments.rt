// Arguments: tuples, lists, dictionaries, and the arguments of calls.
ghost use Rattle.std.specs.Prelude.{◌≡◌, ◌≤◌, ◌+◌, false, length};
ghost use Rattle.script_tokens.specs.language.Tree.{parts};
ghost use Rattle.script_tokens.specs.language.Depth.{arg_depth, parts_depth};
ghost use Rattle.script_tree.specs.View.{arg_of, named_parts_of};
ghost use Rattle.script_tokens.specs.View.{mark_of, tokens_of};
ghost use Rattle.script_syntax.specs.Found.{Finds, part_depth, after_parts};
ghost use Rattle.script_syntax.specs.Nests.{Nests};
ghost use Rattle.script_syntax.specs.At as at;

use crate::front::{after_mark, after_word, expect, onwards, past_comma};
use crate::grammar::Grammar;
use crate::node::{Found, as_item, or_drop};
use crate::part_list::PartList;
use crate::refusal::Refusal;
use script_tokens::{Mark, Token};
use script_tree::{Arg, ArgList, ArgPairs, Args, Expr, list_of, table_of, tuple_of};
use std::alloc::Global;

impl<
    E: for<'t, 'a> Fn(Global, &'t [Token<'a>], usize, usize) -> Found<'t, 'a, Expr>,
    A: for<'t, 'a> Fn(Global, &'t [Token<'a>], usize) -> Found<'t, 'a, Arg>,
> Grammar<E, A> {
    // An argument.
    #[tactic(auto, unfolding(crate::specs::Reading::argument_with, crate::specs::Reading::and_then, crate::specs::Reading::or_else), using(crate::proofs::Loops::err_is, crate::proofs::Loops::after_none))]
    pub(crate) fn argument_with<'t, 'a>(&self, tokens: &'t [Token<'a>]) -> Found<'t, 'a, Arg>
        requires { Nests E.Fn A.Fn self.now.expr self.now.argument self.now.room }
        ensures { Finds arg_of arg_depth (self.now.room + 1) result
            (at.argument_with self.now.room (tokens_of tokens.now)) }
    {
        if let Some(rest) = after_mark(tokens, Mark::OpenParen) {
            let (arg, depth, rest) = self.argument(rest)?;
            return self.opened((arg, depth), rest);
        }
        if let Some(rest) = after_mark(tokens, Mark::OpenBracket) {
            let begun = (ArgList::new(self.alloc), 0);
            let (list, depth, rest) = self.separated(begun, rest, Mark::CloseBracket)?;
            return Ok((list_of(list), depth + 1, rest));
        }
        if let Some(rest) = after_mark(tokens, Mark::OpenBrace) {
            let begun = (ArgPairs::new(self.alloc), 0);
            let (entries, depth, rest) = self.separated(begun, rest, Mark::CloseBrace)?;
            return Ok((table_of(entries), depth + 1, rest));
        }
        if let Some(rest) = after_word(tokens, "None") {
            return Ok((Arg::Nothing, 1, rest));
        }
        let (x, depth, rest) = self.expr_with(tokens, 0)?;
        Ok((Arg::Expr(x), depth, rest))
    }

    // What begins with a parenthesis and this argument: a tuple, or an expression.
    #[tactic(auto, unfolding(crate::specs::Reading::opened, crate::specs::Reading::and_then, crate::specs::Reading::or_else, crate::specs::Reading::pick, crate::specs::Reading::as_item, crate::specs::Found::after_parts), using(crate::proofs::Loops::err_is))]
    fn opened<'t, 'a>(&self, arg: (Arg, usize), tokens: &'t [Token<'a>]) -> Found<'t, 'a, Arg>
        requires nests { Nests E.Fn A.Fn self.now.expr self.now.argument self.now.room }
        requires deep { arg.1 ≡ arg_depth (arg_of arg.0) }
        requires fits { arg.1 ≤ self.now.room }
        ensures { Finds arg_of arg_depth (self.now.room + 1) result
            (at.opened self.now.room (arg_of arg.0) (tokens_of tokens.now)) }
    {
        let (arg, depth) = arg;
        let Some(rest) = after_mark(tokens, Mark::Comma) else {
            return self.unparted((arg, depth), tokens);
        };
        let (arg, depth, rest) = as_item(arg, depth, rest)?;
        let mut list = ArgList::new(self.alloc);
        list.push(arg)?;
        let (list, depth, rest) = self.separated((list, depth), rest, Mark::CloseParen)?;
        Ok((tuple_of(list), depth + 1, rest))
    }

    // What begins with a parenthesis and this argument, without a comma.
    #[tactic(auto, unfolding(crate::specs::Reading::unparted, crate::specs::Reading::expr_from, crate::specs::Reading::and_then))]
    fn unparted<'t, 'a>(&self, arg: (Arg, usize), tokens: &'t [Token<'a>]) -> Found<'t, 'a, Arg>
        requires nests { Nests E.Fn A.Fn self.now.expr self.now.argument self.now.room }
        requires deep { arg.1 ≡ arg_depth (arg_of arg.0) }
        requires fits { arg.1 ≤ self.now.room }
        ensures { Finds arg_of arg_depth (self.now.room + 1) result
            (at.unparted self.now.room (arg_of arg.0) (tokens_of tokens.now)) }
    {
        let (arg, depth) = arg;
        let Arg::Expr(x) = arg else {
            return Err(Refusal::Syntax);
        };
        let rest = or_drop!(expect(tokens, Mark::CloseParen), x);
        let x = Expr::Paren(Box::new(self.alloc, x)?);
        let (x, depth, rest) = self.steps((x, depth + 1), rest)?;
        let (x, depth, rest) = self.operators((x, depth), rest, 0)?;
        Ok((Arg::Expr(x), depth, rest))
    }

    // The arguments of a call, and the parenthesis that closes them.
    #[tactic(auto, unfolding(crate::specs::Reading::all_arguments), using(crate::proofs::Loops::after_none))]
    pub(crate) fn arguments<'t, 'a>(&self, tokens: &'t [Token<'a>]) -> Found<'t, 'a, Args>
        requires { Nests E.Fn A.Fn self.now.expr self.now.argument self.now.room }
        ensures { Finds (λ l. parts (named_parts_of l)) parts_depth self.now.room result
            (at.all_arguments self.now.room (tokens_of tokens.now)) }
    {
        self.separated((Args::new(self.alloc), 0), tokens, Mark::CloseParen)
    }

    // Parts after these, with commas between them, and what closes them.
    #[tactic(auto, unfolding(crate::specs::Reading::and_then, crate::specs::Reading::or_else), using(crate::proofs::Loops::turns))]
    fn separated<'t, 'a, L: PartList>(
        &self,
        begun: (L, usize),
        tokens: &'t [Token<'a>],
        close: Mark,
    ) -> Found<'t, 'a, L>
        requires nests { Nests E.Fn A.Fn self.now.expr self.now.argument self.now.room }
        requires deep { begun.1 ≡ parts_depth (parts (L.parts_of begun.0)) }
        requires fits { begun.1 ≤ self.now.room }
        ensures { Finds (λ l. parts (L.parts_of l)) parts_depth self.now.room result
            (after_parts (L.parts_of begun.0)
            (at.parts self.now.room L.by (mark_of close) false (length (tokens_of tokens.now))
            (tokens_of tokens.now))) }
    {
        let (mut list, mut deepest) = begun;
        let mut after_name = false;
        let mut rest = tokens;
        for _ in 0..tokens.len() {
            if let Some(after) = after_mark(rest, close) {
                return Ok((list, deepest, after));
            }
            let ((tag, arg), depth, after) = self.part_at::<L>(rest, after_name)?;
            after_name = L::has_name(&tag);
            list.push(tag, arg)?;
            deepest = deepest.max(depth);
            let after = past_comma(after, close)?;
            rest = onwards(after);
        }
        Err(Refusal::Syntax)
    }

    // A part, after what may stand before it.
    #[tactic(auto, unfolding(crate::specs::Reading::part_at, crate::specs::Reading::and_then))]
    fn part_at<'t, 'a, L: PartList>(
        &self,
        tokens: &'t [Token<'a>],
        after_name: bool,
    ) -> Found<'t, 'a, (L::Tag, Arg)>
        requires { Nests E.Fn A.Fn self.now.expr self.now.argument self.now.room }
        ensures { Finds (λ p. (L.tag_of p.0, arg_of p.1)) part_depth self.now.room result
            (at.part_at self.now.room L.by after_name (tokens_of tokens.now)) }
    {
        let (tag, rest) = L::tag_at(self.alloc, tokens, after_name)?;
        let (arg, depth, rest) = self.argument(rest)?;
        let (arg, depth, rest) = L::as_part(arg, depth, rest)?;
        Ok(((tag, arg), depth, rest))
    }
}
