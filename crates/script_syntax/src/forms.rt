// Statements.
ghost use Rattle.std.specs.Prelude.{◌≡◌};
ghost use Rattle.script_tree.specs.View.{action_of, expr_of, step_of};
ghost use Rattle.script_tokens.specs.View.{tokens_of};
ghost use Rattle.script_syntax.specs.Found.{Gives};
ghost use Rattle.script_syntax.specs.Reading as spec;

use crate::front::{after_mark, after_word, begins_minus, expect, name_at, target_at};
use crate::grammar::{argument_at, expr_at};
use crate::node::{is_target, or_drop};
use crate::refusal::Refusal;
use cell_core::Words;
use script_tokens::{Mark, Token};
use script_tree::{Action, Expr, Step};
use std::alloc::Global;

const MOST_DEPTH: usize = 32;

// The statement that the tokens spell.
#[tactic(auto, unfolding(crate::specs::Reading::action_read, crate::specs::Reading::or_else))]
pub(crate) fn statement(alloc: Global, tokens: &[Token<'_>]) -> Result<Action, Refusal>
    ensures { Gives action_of result (spec.action_read (tokens_of tokens.now)) }
{
    if let Some(rest) = after_word(tokens, "import") {
        return imported(rest);
    }
    if let Some(rest) = after_word(tokens, "del") {
        return deleted(alloc, rest);
    }
    if let Some(rest) = after_word(tokens, "print") {
        return printed(alloc, rest);
    }
    assigned(alloc, tokens)
}

// `pandas as pd`
#[tactic(auto, unfolding(crate::specs::Reading::imported, crate::specs::Reading::and_then))]
fn imported(tokens: &[Token<'_>]) -> Result<Action, Refusal>
    ensures { Gives action_of result (spec.imported (tokens_of tokens.now)) }
{
    let rest = expect_word(tokens, "pandas")?;
    let rest = expect_word(rest, "as")?;
    let rest = expect_word(rest, "pd")?;
    ended(Action::Import, rest)
}

// What stands after `del`: a name, or a name with a key in brackets.
#[tactic(auto, unfolding(crate::specs::Reading::deleted, crate::specs::Reading::and_then, crate::specs::Reading::or_else))]
fn deleted(alloc: Global, tokens: &[Token<'_>]) -> Result<Action, Refusal>
    ensures { Gives action_of result (spec.deleted (tokens_of tokens.now)) }
{
    let Some((name, rest)) = name_at(tokens) else {
        return Err(Refusal::Syntax);
    };
    let name = Words::from_text(alloc, name)?;
    let Some(rest) = after_mark(rest, Mark::OpenBracket) else {
        return ended(Action::DropName(name), rest);
    };
    let (key, _, rest) = expr_at(alloc, rest, MOST_DEPTH, 0)?;
    let rest = or_drop!(expect(rest, Mark::CloseBracket), key);
    ended(Action::DropColumn(name, key), rest)
}

// What stands after `print`.
#[tactic(auto, unfolding(crate::specs::Reading::printed, crate::specs::Reading::and_then))]
fn printed(alloc: Global, tokens: &[Token<'_>]) -> Result<Action, Refusal>
    ensures { Gives action_of result (spec.printed (tokens_of tokens.now)) }
{
    let rest = expect(tokens, Mark::OpenParen)?;
    let (expr, _, rest) = expr_at(alloc, rest, MOST_DEPTH, 0)?;
    let end = or_drop!(end_at(alloc, rest), expr);
    Ok(Action::Print(expr, end))
}

// What ends a printing: the text after the printed one, a line feed where none is given.
#[tactic(auto, unfolding(crate::specs::Reading::end_at, crate::specs::Reading::and_then, crate::specs::Reading::or_else))]
fn end_at(alloc: Global, tokens: &[Token<'_>]) -> Result<Words, Refusal>
    ensures { Gives (λ end. end) result (spec.end_at (tokens_of tokens.now)) }
{
    let Some(rest) = after_mark(tokens, Mark::Comma) else {
        return closed(alloc, "\n", tokens);
    };
    let rest = expect_word(rest, "end")?;
    let rest = expect(rest, Mark::Equals)?;
    let (end, rest) = text_at(rest)?;
    closed(alloc, end, rest)
}

// The text, after a parenthesis that is the last token.
#[tactic(auto, unfolding(crate::specs::Reading::closed, crate::specs::Reading::ended, crate::specs::Reading::and_then))]
fn closed(alloc: Global, end: &str, tokens: &[Token<'_>]) -> Result<Words, Refusal>
    ensures { Gives (λ end. end) result (spec.closed end.now (tokens_of tokens.now)) }
{
    let rest = expect(tokens, Mark::CloseParen)?;
    match rest {
        [] => Ok(Words::from_text(alloc, end)?),
        _ => Err(Refusal::Syntax),
    }
}

// A setting, or a binding of a name.
#[tactic(auto, unfolding(crate::specs::Reading::assigned, crate::specs::Reading::or_else))]
fn assigned(alloc: Global, tokens: &[Token<'_>]) -> Result<Action, Refusal>
    ensures { Gives action_of result (spec.assigned (tokens_of tokens.now)) }
{
    match target_at(tokens) {
        Some((name, rest)) => bound_to(alloc, name, rest),
        None => set(alloc, tokens),
    }
}

// What stands after `name =`.
#[tactic(auto, unfolding(crate::specs::Reading::bound_to, crate::specs::Reading::and_then))]
fn bound_to(alloc: Global, name: &str, tokens: &[Token<'_>]) -> Result<Action, Refusal>
    ensures { Gives action_of result (spec.bound_to name.now (tokens_of tokens.now)) }
{
    let name = Words::from_text(alloc, name)?;
    let (expr, _, rest) = expr_at(alloc, tokens, MOST_DEPTH, 0)?;
    ended(Action::Bind(name, expr), rest)
}

// A target with its step, and what it is set to.
#[tactic(auto, unfolding(crate::specs::Reading::set, crate::specs::Reading::and_then, crate::specs::Reading::pick))]
fn set(alloc: Global, tokens: &[Token<'_>]) -> Result<Action, Refusal>
    ensures { Gives action_of result (spec.set (tokens_of tokens.now)) }
{
    if begins_minus(tokens) {
        return Err(Refusal::Syntax);
    }
    let (target, _, rest) = expr_at(alloc, tokens, MOST_DEPTH, 6)?;
    let (object, step) = split(target)?;
    let rest = or_drop!(expect(rest, Mark::Equals), object, step);
    let (value, _, rest) = or_drop!(argument_at(alloc, rest, MOST_DEPTH), object, step);
    ended(Action::Put(object, step, value), rest)
}

// An expression and its last step, where that may be set.
#[tactic(auto, unfolding(crate::specs::Reading::split, crate::specs::Reading::pick))]
fn split(target: Expr) -> Result<(Expr, Step), Refusal>
    ensures { Gives (λ t. (expr_of t.0, step_of t.1)) result (spec.split (expr_of target)) }
{
    let Expr::After(object, step) = target else {
        drop(target);
        return Err(Refusal::Syntax);
    };
    let object = Box::into_inner(object);
    let step = Box::into_inner(step);
    if !is_target(&step) {
        drop(object);
        drop(step);
        return Err(Refusal::Syntax);
    }
    Ok((object, step))
}

// What must follow this word.
fn expect_word<'t, 'a>(tokens: &'t [Token<'a>], word: &str) -> Result<&'t [Token<'a>], Refusal>
    ensures { Gives (λ r. tokens_of r.now) result
        (spec.after_word word.now (tokens_of tokens.now)) }
{
    match after_word(tokens, word) {
        Some(rest) => Ok(rest),
        None => Err(Refusal::Syntax),
    }
}

// A text, and what follows it.
#[tactic(auto, unfolding(crate::specs::Reading::text_at))]
fn text_at<'t, 'a>(tokens: &'t [Token<'a>]) -> Result<(&'t str, &'t [Token<'a>]), Refusal>
    ensures { Gives (λ t. ((t.0).now, tokens_of (t.1).now)) result
        (spec.text_at (tokens_of tokens.now)) }
{
    let [token, rest @ ..] = tokens else {
        return Err(Refusal::Syntax);
    };
    match token {
        Token::Text(text) => Ok((text.as_str(), rest)),
        _ => Err(Refusal::Syntax),
    }
}

// The statement, where no token is left.
#[tactic(auto, unfolding(crate::specs::Reading::ended))]
fn ended(action: Action, tokens: &[Token<'_>]) -> Result<Action, Refusal>
    ensures { Gives action_of result (spec.ended (action_of action) (tokens_of tokens.now)) }
{
    match tokens {
        [] => Ok(action),
        _ => {
            drop(action);
            Err(Refusal::Syntax)
        }
    }
}
