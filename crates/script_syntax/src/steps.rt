// Steps: items in brackets, subscripts of accessors, and methods.
ghost use Rattle.std.specs.Prelude.{◌≡◌, ◌≤◌};
ghost use Rattle.script_tokens.specs.language.Depth.{step_depth, sub_depth, optional_sub_depth, optional_arg_depth, optional_expr_depth};
ghost use Rattle.script_tree.specs.View.{step_of, sub_of, accessor_of, optional_arg, optional_sub, optional_expr};
ghost use Rattle.script_tokens.specs.View.{tokens_of};
ghost use Rattle.script_syntax.specs.Found.{Finds, named_call_of, named_call_depth};
ghost use Rattle.script_syntax.specs.Nests.{Nests};
ghost use Rattle.script_syntax.specs.At as at;

use crate::front::{
    Call, accessor_at, after_mark, call_at, call_of, dotted_at, ends_bound, expect, text_call_at,
};
use crate::grammar::Grammar;
use crate::node::{Found, as_item, or_drop};
use crate::refusal::Refusal;
use cell_core::Words;
use script_tokens::{Mark, Token};
use script_tree::{
    Accessor, Arg, Args, Expr, Step, Sub, access_of, expanding_of, group_of, method_of, rolling_of,
    span_of, text_method_of,
};
use std::alloc::Global;

impl<
    E: for<'t, 'a> Fn(Global, &'t [Token<'a>], usize, usize) -> Found<'t, 'a, Expr>,
    A: for<'t, 'a> Fn(Global, &'t [Token<'a>], usize) -> Found<'t, 'a, Arg>,
> Grammar<E, A> {
    // A step.
    #[tactic(auto, unfolding(crate::specs::Reading::step, crate::specs::Reading::step_from, crate::specs::Reading::dotted, crate::specs::Reading::and_then, crate::specs::Reading::or_else, crate::specs::Reading::pick))]
    pub(crate) fn step<'t, 'a>(&self, tokens: &'t [Token<'a>]) -> Found<'t, 'a, Step>
        requires { Nests E.Fn A.Fn self.now.expr self.now.argument self.now.room }
        ensures { Finds step_of step_depth self.now.room result
            (at.step self.now.room (tokens_of tokens.now)) }
    {
        let (selection, depth, rest) = self.brackets(tokens)?;
        if let Some(arg) = selection {
            return Ok((Step::Item(arg), depth, rest));
        }
        let Some((word, rest)) = dotted_at(rest) else {
            return Err(Refusal::Syntax);
        };
        if let Some(rest) = after_mark(rest, Mark::OpenParen) {
            return self.call(word, rest);
        }
        if let Some(rest) = after_mark(rest, Mark::OpenBracket) {
            let Some(accessor) = accessor_at(word) else {
                return Err(Refusal::Syntax);
            };
            return self.subscripts(accessor, rest);
        }
        if word != "str" {
            return Err(Refusal::Syntax);
        }
        self.text_call(rest)
    }

    // A method of texts, after `str`.
    #[tactic(auto, unfolding(crate::specs::Reading::text_call, crate::specs::Reading::and_then))]
    fn text_call<'t, 'a>(&self, tokens: &'t [Token<'a>]) -> Found<'t, 'a, Step>
        requires { Nests E.Fn A.Fn self.now.expr self.now.argument self.now.room }
        ensures { Finds step_of step_depth self.now.room result
            (at.text_call self.now.room (tokens_of tokens.now)) }
    {
        let Some((name, rest)) = text_call_at(tokens) else {
            return Err(Refusal::Syntax);
        };
        let name = Words::from_text(self.alloc, name)?;
        let (args, depth, rest) = self.arguments(rest)?;
        Ok((text_method_of(name, args), depth, rest))
    }

    // A step with parentheses, after the first of them.
    #[tactic(auto, unfolding(crate::specs::Reading::call, crate::specs::Reading::called, crate::specs::Reading::and_then))]
    fn call<'t, 'a>(&self, word: &str, tokens: &'t [Token<'a>]) -> Found<'t, 'a, Step>
        requires { Nests E.Fn A.Fn self.now.expr self.now.argument self.now.room }
        ensures { Finds step_of step_depth self.now.room result
            (at.call self.now.room word.now (tokens_of tokens.now)) }
    {
        let Some(kind) = call_of(word) else {
            return Err(Refusal::Syntax);
        };
        let (first, depth, rest) = self.arguments(tokens)?;
        match kind {
            Call::Method => {
                let Ok(name) = Words::from_text(self.alloc, word) else {
                    drop(first);
                    return Err(Refusal::NoMemory);
                };
                Ok((method_of(name, first), depth, rest))
            }
            Call::Group => {
                let (selection, selection_depth, rest) = or_drop!(self.brackets(rest), first);
                let ((name, last), last_depth, rest) = or_drop!(
                    self.named_call(rest),
                    first,
                    selection
                );
                let depth = depth.max(selection_depth).max(last_depth);
                Ok((group_of(first, selection, name, last), depth, rest))
            }
            Call::Rolling => {
                let ((name, last), last_depth, rest) = or_drop!(self.named_call(rest), first);
                Ok((rolling_of(first, name, last), depth.max(last_depth), rest))
            }
            Call::Expanding => {
                let ((name, last), last_depth, rest) = or_drop!(self.named_call(rest), first);
                Ok((expanding_of(first, name, last), depth.max(last_depth), rest))
            }
        }
    }

    // `.name(` with its arguments.
    #[tactic(auto, unfolding(crate::specs::Reading::named_call, crate::specs::Reading::and_then))]
    fn named_call<'t, 'a>(&self, tokens: &'t [Token<'a>]) -> Found<'t, 'a, (Words, Args)>
        requires { Nests E.Fn A.Fn self.now.expr self.now.argument self.now.room }
        ensures { Finds named_call_of named_call_depth self.now.room result
            (at.named_call self.now.room (tokens_of tokens.now)) }
    {
        let Some((name, rest)) = call_at(tokens) else {
            return Err(Refusal::Syntax);
        };
        let name = Words::from_text(self.alloc, name)?;
        let (args, depth, rest) = self.arguments(rest)?;
        Ok(((name, args), depth, rest))
    }

    // An argument in brackets, where there are any.
    #[tactic(auto, unfolding(crate::specs::Reading::brackets, crate::specs::Reading::bracketed, crate::specs::Reading::and_then, crate::specs::Reading::or_else))]
    fn brackets<'t, 'a>(&self, tokens: &'t [Token<'a>]) -> Found<'t, 'a, Option<Arg>>
        requires { Nests E.Fn A.Fn self.now.expr self.now.argument self.now.room }
        ensures { Finds optional_arg optional_arg_depth self.now.room result
            (at.brackets self.now.room (tokens_of tokens.now)) }
    {
        let Some(rest) = after_mark(tokens, Mark::OpenBracket) else {
            return Ok((None, 0, tokens));
        };
        let (arg, depth, rest) = self.argument(rest)?;
        let rest = or_drop!(expect(rest, Mark::CloseBracket), arg);
        Ok((Some(arg), depth, rest))
    }

    // The subscripts of an accessor, after its bracket.
    #[tactic(auto, unfolding(crate::specs::Reading::subscripts, crate::specs::Reading::and_then))]
    fn subscripts<'t, 'a>(&self, accessor: Accessor, tokens: &'t [Token<'a>]) -> Found<'t, 'a, Step>
        requires { Nests E.Fn A.Fn self.now.expr self.now.argument self.now.room }
        ensures { Finds step_of step_depth self.now.room result
            (at.subscripts self.now.room (accessor_of accessor) (tokens_of tokens.now)) }
    {
        let (sub, depth, rest) = self.sub_at(tokens)?;
        let (second, second_depth, rest) = or_drop!(self.second(rest), sub);
        let depth = depth.max(second_depth);
        Ok((access_of(accessor, sub, second), depth, rest))
    }

    // A second subscript, if there is one, and what closes the brackets.
    #[tactic(auto, unfolding(crate::specs::Reading::second, crate::specs::Reading::and_then, crate::specs::Reading::or_else))]
    fn second<'t, 'a>(&self, tokens: &'t [Token<'a>]) -> Found<'t, 'a, Option<Sub>>
        requires { Nests E.Fn A.Fn self.now.expr self.now.argument self.now.room }
        ensures { Finds optional_sub optional_sub_depth self.now.room result
            (at.second self.now.room (tokens_of tokens.now)) }
    {
        let Some(rest) = after_mark(tokens, Mark::Comma) else {
            let rest = expect(tokens, Mark::CloseBracket)?;
            return Ok((None, 0, rest));
        };
        let (sub, depth, rest) = self.sub_at(rest)?;
        let rest = or_drop!(expect(rest, Mark::CloseBracket), sub);
        Ok((Some(sub), depth, rest))
    }

    // A subscript.
    #[tactic(auto, unfolding(crate::specs::Reading::sub_at, crate::specs::Reading::sub_from, crate::specs::Reading::and_then, crate::specs::Reading::or_else, crate::specs::Reading::pick, crate::specs::Reading::as_item))]
    fn sub_at<'t, 'a>(&self, tokens: &'t [Token<'a>]) -> Found<'t, 'a, Sub>
        requires { Nests E.Fn A.Fn self.now.expr self.now.argument self.now.room }
        ensures { Finds sub_of sub_depth self.now.room result
            (at.sub_at self.now.room (tokens_of tokens.now)) }
    {
        if let Some(rest) = after_mark(tokens, Mark::Colon) {
            return self.span_after((None, 0), rest);
        }
        let (arg, depth, rest) = self.argument(tokens)?;
        let Some(after) = after_mark(rest, Mark::Colon) else {
            return Ok((Sub::Key(arg), depth, rest));
        };
        let (arg, depth, after) = as_item(arg, depth, after)?;
        self.span_after((Some(arg), depth), after)
    }

    // The rest of a slice, after its first colon.
    #[tactic(auto, unfolding(crate::specs::Reading::span_after, crate::specs::Reading::and_then))]
    fn span_after<'t, 'a>(
        &self,
        start: (Option<Arg>, usize),
        tokens: &'t [Token<'a>],
    ) -> Found<'t, 'a, Sub>
        requires nests { Nests E.Fn A.Fn self.now.expr self.now.argument self.now.room }
        requires deep { start.1 ≡ optional_arg_depth (optional_arg start.0) }
        requires fits { start.1 ≤ self.now.room }
        ensures { Finds sub_of sub_depth self.now.room result
            (at.span_after self.now.room (optional_arg start.0) (tokens_of tokens.now)) }
    {
        let (start, start_depth) = start;
        let (end, end_depth, rest) = or_drop!(self.bound(tokens), start);
        let (stride, stride_depth, rest) = or_drop!(self.stride(rest), start, end);
        let depth = start_depth.max(end_depth).max(stride_depth);
        Ok((span_of(start, end, stride), depth, rest))
    }

    // The end of a slice, if it has one.
    #[tactic(auto, unfolding(crate::specs::Reading::bound, crate::specs::Reading::item_at, crate::specs::Reading::and_then, crate::specs::Reading::pick))]
    fn bound<'t, 'a>(&self, tokens: &'t [Token<'a>]) -> Found<'t, 'a, Option<Arg>>
        requires { Nests E.Fn A.Fn self.now.expr self.now.argument self.now.room }
        ensures { Finds optional_arg optional_arg_depth self.now.room result
            (at.bound self.now.room (tokens_of tokens.now)) }
    {
        if ends_bound(tokens) {
            return Ok((None, 0, tokens));
        }
        let (arg, depth, rest) = self.argument(tokens)?;
        let (arg, depth, rest) = as_item(arg, depth, rest)?;
        Ok((Some(arg), depth, rest))
    }

    // The step of a slice, if it has one.
    #[tactic(auto, unfolding(crate::specs::Reading::stride, crate::specs::Reading::and_then, crate::specs::Reading::or_else, crate::specs::Reading::pick))]
    fn stride<'t, 'a>(&self, tokens: &'t [Token<'a>]) -> Found<'t, 'a, Option<Expr>>
        requires { Nests E.Fn A.Fn self.now.expr self.now.argument self.now.room }
        ensures { Finds optional_expr optional_expr_depth self.now.room result
            (at.stride self.now.room (tokens_of tokens.now)) }
    {
        let Some(rest) = after_mark(tokens, Mark::Colon) else {
            return Ok((None, 0, tokens));
        };
        if ends_bound(rest) {
            return Ok((None, 0, rest));
        }
        let (x, depth, rest) = self.expr(rest, 0)?;
        Ok((Some(x), depth, rest))
    }
}
