// Expressions: signs, atoms, steps after them, and operators between them.
ghost use Rattle.std.specs.Prelude.{◌≡◌, ◌≤◌, ◌+◌, length};
ghost use Rattle.script_tokens.specs.language.Depth.{depth};
ghost use Rattle.script_tree.specs.View.{expr_of};
ghost use Rattle.script_tokens.specs.View.{tokens_of};
ghost use Rattle.script_syntax.specs.Found.{Finds};
ghost use Rattle.script_syntax.specs.Nests.{Nests};
ghost use Rattle.script_syntax.specs.At as at;

use crate::front::{
    after_mark, begins_step, expect, len_at, level, maker_at, name_at, onwards, operator_at,
    sign_at,
};
use crate::grammar::Grammar;
use crate::node::{Found, after, infix, or_drop};
use crate::value::literal_at;
use cell_core::Words;
use script_tokens::{Mark, Token};
use script_tree::{Arg, Expr, make_of};
use std::alloc::Global;

impl<
    E: for<'t, 'a> Fn(Global, &'t [Token<'a>], usize, usize) -> Found<'t, 'a, Expr>,
    A: for<'t, 'a> Fn(Global, &'t [Token<'a>], usize) -> Found<'t, 'a, Arg>,
> Grammar<E, A> {
    // An expression of at least a level.
    #[tactic(auto, unfolding(crate::specs::Reading::expr_with, crate::specs::Reading::and_then))]
    pub(crate) fn expr_with<'t, 'a>(
        &self,
        tokens: &'t [Token<'a>],
        least: usize,
    ) -> Found<'t, 'a, Expr>
        requires { Nests E.Fn A.Fn self.now.expr self.now.argument self.now.room }
        ensures { Finds expr_of depth (self.now.room + 1) result
            (at.expr_with self.now.room least (tokens_of tokens.now)) }
    {
        let (x, depth, rest) = self.signed(tokens)?;
        self.operators((x, depth), rest, least)
    }

    // An expression with its signs and steps.
    #[tactic(auto, unfolding(crate::specs::Reading::signed, crate::specs::Reading::postfix, crate::specs::Reading::and_then, crate::specs::Reading::or_else))]
    fn signed<'t, 'a>(&self, tokens: &'t [Token<'a>]) -> Found<'t, 'a, Expr>
        requires { Nests E.Fn A.Fn self.now.expr self.now.argument self.now.room }
        ensures { Finds expr_of depth (self.now.room + 1) result
            (at.signed self.now.room (tokens_of tokens.now)) }
    {
        if let Some((sign, rest)) = sign_at(tokens) {
            let (x, depth, rest) = self.expr(rest, 6)?;
            return Ok((Expr::Unary(sign, Box::new(self.alloc, x)?), depth + 1, rest));
        }
        let (x, depth, rest) = self.atom(tokens)?;
        self.steps((x, depth), rest)
    }

    // A name, a literal, a call of a function, or an expression in parentheses.
    #[tactic(auto, unfolding(crate::specs::Reading::atom, crate::specs::Reading::and_then, crate::specs::Reading::or_else))]
    fn atom<'t, 'a>(&self, tokens: &'t [Token<'a>]) -> Found<'t, 'a, Expr>
        requires { Nests E.Fn A.Fn self.now.expr self.now.argument self.now.room }
        ensures { Finds expr_of depth (self.now.room + 1) result
            (at.atom self.now.room (tokens_of tokens.now)) }
    {
        if let Some((name, rest)) = name_at(tokens) {
            let name = Words::from_text(self.alloc, name)?;
            return Ok((Expr::Name(name), 1, rest));
        }
        if let Some(rest) = after_mark(tokens, Mark::OpenParen) {
            let (x, depth, rest) = self.enclosed(rest)?;
            return Ok((Expr::Paren(Box::new(self.alloc, x)?), depth + 1, rest));
        }
        if let Some(rest) = len_at(tokens) {
            let (x, depth, rest) = self.enclosed(rest)?;
            return Ok((Expr::Len(Box::new(self.alloc, x)?), depth + 1, rest));
        }
        if let Some((name, rest)) = maker_at(tokens) {
            let name = Words::from_text(self.alloc, name)?;
            let (args, depth, rest) = self.arguments(rest)?;
            return Ok((make_of(name, args), depth + 1, rest));
        }
        let (value, rest) = literal_at(self.alloc, tokens)?;
        Ok((Expr::Literal(value), 1, rest))
    }

    // An expression and what closes its parenthesis.
    #[tactic(auto, unfolding(crate::specs::Reading::enclosed, crate::specs::Reading::and_then))]
    fn enclosed<'t, 'a>(&self, tokens: &'t [Token<'a>]) -> Found<'t, 'a, Expr>
        requires { Nests E.Fn A.Fn self.now.expr self.now.argument self.now.room }
        ensures { Finds expr_of depth self.now.room result
            (at.enclosed self.now.room (tokens_of tokens.now)) }
    {
        let (x, depth, rest) = self.expr(tokens, 0)?;
        let rest = or_drop!(expect(rest, Mark::CloseParen), x);
        Ok((x, depth, rest))
    }

    // The steps after an expression.
    pub(crate) fn steps<'t, 'a>(
        &self,
        begun: (Expr, usize),
        tokens: &'t [Token<'a>],
    ) -> Found<'t, 'a, Expr>
        requires nests { Nests E.Fn A.Fn self.now.expr self.now.argument self.now.room }
        requires deep { begun.1 ≡ depth (expr_of begun.0) }
        requires fits { begun.1 ≤ self.now.room + 1 }
        ensures { Finds expr_of depth (self.now.room + 1) result
            (at.steps self.now.room (length (tokens_of tokens.now)) (expr_of begun.0)
            (tokens_of tokens.now)) }
    {
        let (mut x, mut depth) = begun;
        let mut rest = tokens;
        for _ in 0..tokens.len() {
            if !begins_step(rest) {
                return Ok((x, depth, rest));
            }
            let (step, step_depth, next) = or_drop!(self.step(rest), x);
            (x, depth) = after(self.alloc, (x, depth), (step, step_depth), self.room + 1)?;
            rest = onwards(next);
        }
        Ok((x, depth, rest))
    }

    // The operators of at least a level after an expression; none follows a comparison.
    pub(crate) fn operators<'t, 'a>(
        &self,
        begun: (Expr, usize),
        tokens: &'t [Token<'a>],
        least: usize,
    ) -> Found<'t, 'a, Expr>
        requires nests { Nests E.Fn A.Fn self.now.expr self.now.argument self.now.room }
        requires deep { begun.1 ≡ depth (expr_of begun.0) }
        requires fits { begun.1 ≤ self.now.room + 1 }
        ensures { Finds expr_of depth (self.now.room + 1) result
            (at.operators self.now.room (length (tokens_of tokens.now)) least (expr_of begun.0)
            (tokens_of tokens.now)) }
    {
        let (mut x, mut depth) = begun;
        let mut rest = tokens;
        for _ in 0..tokens.len() {
            let Some((operator, right)) = operator_at(rest, least) else {
                return Ok((x, depth, rest));
            };
            let (y, y_depth, next) = or_drop!(self.expr(right, level(operator) + 1), x);
            (x, depth) = infix(
                self.alloc,
                operator,
                (x, depth),
                (y, y_depth),
                self.room + 1,
            )?;
            rest = onwards(next);
            if level(operator) == 0 {
                return Ok((x, depth, rest));
            }
        }
        Ok((x, depth, rest))
    }
}
