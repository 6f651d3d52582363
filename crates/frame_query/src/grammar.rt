//! The rules take the reader of queries of less depth as a parameter, so that each is proved by itself.
ghost use Rattle.std.specs.Prelude.{◌≡◌, ◌≤◌, ◌+◌, length};
ghost use Rattle.meaning_query.specs.At as at;
ghost use Rattle.meaning_query.specs.Reading as spec;
ghost use Rattle.script_tree.specs.View.{expr_of};
ghost use Rattle.query_tokens.specs.View.{query_tokens_of};
ghost use Rattle.frame_query.specs.Found.{joint_of, form_of, IsWithin, Finds};
ghost use Rattle.frame_query.specs.Nests.{Nests};

use crate::constants::{constant_at, list_at};
use crate::fault::QueryFault;
use crate::form::{Form, Found, among, column, guard, infix, or_drop, paren, unary};
use crate::front::{
    Joint, after_mark, after_minus, after_word, column_at, expect, joint_for, level, onwards,
    script_name_at,
};
use cell_core::Words;
use query_tokens::QueryToken;
use script_tokens::Mark;
use script_tree::{Expr, Unary};
use std::alloc::Global;

// What reads queries that hold queries of at most the depth `room`.
#[derive(Drop)]
pub(crate) struct Grammar<Q> {
    pub(crate) alloc: Global,
    pub(crate) room: usize,
    // Reads a query of at least a level.
    pub(crate) query: Q,
}

impl<Q: for<'t, 'a> Fn(Global, &'t [QueryToken<'a>], usize, usize) -> Found<'t, 'a>> Grammar<Q> {
    fn query<'t, 'a>(&self, tokens: &'t [QueryToken<'a>], least: usize) -> Found<'t, 'a>
        requires { Nests Q.Fn self.now.query self.now.room }
        ensures { Finds self.now.room result
            (spec.query_at self.now.room least (query_tokens_of tokens.now)) }
    {
        (self.query)(self.alloc, tokens, self.room, least)
    }

    // A query of at least a level.
    #[tactic(auto, unfolding(meaning_query::specs::Reading::query_with, meaning_query::specs::Reading::and_then))]
    pub(crate) fn query_with<'t, 'a>(
        &self,
        tokens: &'t [QueryToken<'a>],
        least: usize,
    ) -> Found<'t, 'a>
        requires { Nests Q.Fn self.now.query self.now.room }
        ensures { Finds (self.now.room + 1) result
            (at.query_with self.now.room least (query_tokens_of tokens.now)) }
    {
        let (form, rest) = self.prefixed(tokens, least)?;
        self.joints(form, rest, least)
    }

    // A place with its sign, or what is negated, where that may stand.
    #[tactic(auto, unfolding(meaning_query::specs::Reading::prefixed, meaning_query::specs::Reading::and_then, meaning_query::specs::Reading::or_else, meaning_query::specs::Reading::pick))]
    fn prefixed<'t, 'a>(&self, tokens: &'t [QueryToken<'a>], least: usize) -> Found<'t, 'a>
        requires { Nests Q.Fn self.now.query self.now.room }
        ensures { Finds (self.now.room + 1) result
            (at.prefixed self.now.room least (query_tokens_of tokens.now)) }
    {
        if let Some(rest) = after_word(tokens, "not") {
            if least > 2 {
                return Err(QueryFault::NotQuery);
            }
            let (Form { mask, depth, .. }, rest) = self.query(rest, 2)?;
            let mask = unary(self.alloc, Unary::Invert, mask)?;
            return Ok((
                Form {
                    mask,
                    depth: depth + 1,
                    level: 2,
                },
                rest,
            ));
        }
        if let Some(rest) = after_minus(tokens) {
            let (Form { mask, depth, .. }, rest) = self.query(rest, 6)?;
            let mask = unary(self.alloc, Unary::Minus, mask)?;
            return Ok((
                Form {
                    mask,
                    depth: depth + 1,
                    level: 6,
                },
                rest,
            ));
        }
        self.place(tokens)
    }

    // A column, a name of the script, a constant, or a query in parentheses.
    #[tactic(auto, unfolding(meaning_query::specs::Reading::place, meaning_query::specs::Reading::and_then, meaning_query::specs::Reading::or_else))]
    fn place<'t, 'a>(&self, tokens: &'t [QueryToken<'a>]) -> Found<'t, 'a>
        requires { Nests Q.Fn self.now.query self.now.room }
        ensures { Finds (self.now.room + 1) result
            (at.place self.now.room (query_tokens_of tokens.now)) }
    {
        if let Some((name, rest)) = column_at(tokens) {
            let mask = column(self.alloc, name)?;
            return guard(
                Form {
                    mask,
                    depth: 2,
                    level: 6,
                },
                rest,
                self.room + 1,
            );
        }
        if let Some((name, rest)) = script_name_at(tokens) {
            let mask = Expr::Name(Words::from_text(self.alloc, name)?);
            return Ok((
                Form {
                    mask,
                    depth: 1,
                    level: 6,
                },
                rest,
            ));
        }
        if let Some(rest) = after_mark(tokens, Mark::OpenParen) {
            return self.enclosed(rest);
        }
        let (value, rest) = constant_at(self.alloc, tokens)?;
        let mask = Expr::Literal(value);
        Ok((
            Form {
                mask,
                depth: 1,
                level: 6,
            },
            rest,
        ))
    }

    // A query and what closes its parenthesis.
    #[tactic(auto, unfolding(meaning_query::specs::Reading::enclosed, meaning_query::specs::Reading::and_then))]
    fn enclosed<'t, 'a>(&self, tokens: &'t [QueryToken<'a>]) -> Found<'t, 'a>
        requires { Nests Q.Fn self.now.query self.now.room }
        ensures { Finds (self.now.room + 1) result
            (at.enclosed self.now.room (query_tokens_of tokens.now)) }
    {
        let (form, rest) = self.query(tokens, 0)?;
        let rest = or_drop!(expect(rest, Mark::CloseParen), form);
        let Form { mask, depth, .. } = form;
        let mask = paren(self.alloc, mask)?;
        Ok((
            Form {
                mask,
                depth: depth + 1,
                level: 6,
            },
            rest,
        ))
    }

    // What follows the joint, joined to the mask that stands before it.
    #[tactic(auto, unfolding(meaning_query::specs::Reading::joined, meaning_query::specs::Reading::and_then))]
    fn joined<'t, 'a>(
        &self,
        joint: Joint,
        form: Form,
        tokens: &'t [QueryToken<'a>],
    ) -> Found<'t, 'a>
        requires nests { Nests Q.Fn self.now.query self.now.room }
        requires within { IsWithin (self.now.room + 1) form }
        ensures { Finds (self.now.room + 1) result
            (at.joined self.now.room (joint_of joint) (expr_of form.mask)
            (query_tokens_of tokens.now)) }
    {
        let level = level(joint);
        let (mask, depth, rest) = match joint {
            Joint::Operator(operator) => {
                let (y, rest) = or_drop!(self.query(tokens, level + 1), form);
                let depth = form.depth.max(y.depth) + 1;
                (infix(self.alloc, operator, form.mask, y.mask)?, depth, rest)
            }
            Joint::Inside => {
                let (list, deepest, rest) = or_drop!(list_at(self.alloc, tokens), form);
                let depth = form.depth.max(deepest + 1) + 1;
                (among(self.alloc, form.mask, list)?, depth, rest)
            }
            Joint::Outside => {
                let (list, deepest, rest) = or_drop!(list_at(self.alloc, tokens), form);
                let depth = form.depth.max(deepest + 1) + 2;
                let mask = among(self.alloc, form.mask, list)?;
                (unary(self.alloc, Unary::Invert, mask)?, depth, rest)
            }
        };
        guard(Form { mask, depth, level }, rest, self.room + 1)
    }

    // The joints of at least a level after a query, with what follows each.
    fn joints<'t, 'a>(
        &self,
        begun: Form,
        tokens: &'t [QueryToken<'a>],
        least: usize,
    ) -> Found<'t, 'a>
        requires nests { Nests Q.Fn self.now.query self.now.room }
        requires within { IsWithin (self.now.room + 1) begun }
        ensures { Finds (self.now.room + 1) result
            (at.joints self.now.room (length (query_tokens_of tokens.now)) least (form_of begun)
            (query_tokens_of tokens.now)) }
    {
        let mut form = begun;
        let mut rest = tokens;
        for _ in 0..tokens.len() {
            let Some((joint, right)) = joint_for(rest, least, form.level) else {
                return Ok((form, rest));
            };
            let (next, after) = self.joined(joint, form, right)?;
            form = next;
            rest = onwards(after);
        }
        Ok((form, rest))
    }
}

// A query of at least a level, no deeper than `room`.
#[cycle(parse)]
pub(crate) fn query_at<'t, 'a>(
    alloc: Global,
    tokens: &'t [QueryToken<'a>],
    room: usize,
    least: usize,
) -> Found<'t, 'a>
    requires { room ≤ 32 }
    ensures { Finds room result (spec.query_at room least (query_tokens_of tokens.now)) }
{
    if room == 0 {
        return Err(QueryFault::NotQuery);
    }
    Grammar {
        alloc,
        room: room - 1,
        query: query_at,
    }
    .query_with(tokens, least)
}
