// Values that are written out.
ghost use Rattle.std.specs.Prelude.{◌≡◌, ◌≤◌};
ghost use Rattle.script_tree.specs.View.{literal_of};
ghost use Rattle.script_tokens.specs.View.{tokens_of};
ghost use Rattle.script_syntax.specs.Found.{rest_of, literal_found, Gives};
ghost use Rattle.script_syntax.specs.Reading as spec;

use crate::front::{after_mark, after_word, begins_paren, expect};
use crate::refusal::Refusal;
use cell_core::Words;
use script_tokens::{Binary, Mark, Token};
use script_tree::Literal;
use std::alloc::Global;

// A whole number without a sign.
#[tactic(auto, unfolding(crate::specs::Reading::positive, crate::specs::Reading::pick))]
fn positive<'t, 'a>(n: u64, rest: &'t [Token<'a>]) -> Option<(Literal, &'t [Token<'a>])>
    ensures { literal_found result ≡ spec.positive n (tokens_of rest.now) }
{
    if n < 1 << 63 {
        Some((Literal::Int(n as i64), rest))
    } else {
        None
    }
}

// A whole number after a minus sign.
#[tactic(auto, unfolding(crate::specs::Reading::negative, crate::specs::Reading::pick))]
fn negative<'t, 'a>(n: u64, rest: &'t [Token<'a>]) -> Option<(Literal, &'t [Token<'a>])>
    ensures { literal_found result ≡ spec.negative n (tokens_of rest.now) }
{
    if n < 1 << 63 {
        Some((Literal::Int(-(n as i64)), rest))
    } else if n == 1 << 63 {
        Some((Literal::Int(i64::MIN), rest))
    } else {
        None
    }
}

// What follows `pd.NA`, where that calls no function.
#[tactic(auto, unfolding(crate::specs::Reading::na_at, crate::specs::Reading::and_then, crate::specs::Reading::pick))]
fn after_na<'t, 'a>(tokens: &'t [Token<'a>]) -> Option<&'t [Token<'a>]>
    ensures { rest_of result ≡ spec.na_at (tokens_of tokens.now) }
{
    let rest = after_word(tokens, "pd")?;
    let rest = after_mark(rest, Mark::Dot)?;
    let rest = after_word(rest, "NA")?;
    if begins_paren(rest) {
        return None;
    }
    Some(rest)
}

// A literal that is written in words.
#[tactic(auto, unfolding(crate::specs::Reading::constant_at, crate::specs::Reading::or_else, crate::specs::Reading::and_then))]
fn constant_at<'t, 'a>(tokens: &'t [Token<'a>]) -> Option<(Literal, &'t [Token<'a>])>
    ensures { literal_found result ≡ spec.constant_at (tokens_of tokens.now) }
{
    if let Some(rest) = after_word(tokens, "True") {
        return Some((Literal::Bool(true), rest));
    }
    if let Some(rest) = after_word(tokens, "False") {
        return Some((Literal::Bool(false), rest));
    }
    let rest = after_na(tokens)?;
    Some((Literal::Na, rest))
}

// The number after a minus sign, and what follows it.
#[tactic(auto, unfolding(crate::specs::Reading::negative_at))]
fn after_minus<'t, 'a>(tokens: &'t [Token<'a>]) -> Option<(Literal, &'t [Token<'a>])>
    ensures { literal_found result ≡ spec.negative_at (tokens_of tokens.now) }
{
    let [token, rest @ ..] = tokens else {
        return None;
    };
    match token {
        Token::Int(n) => negative(*n, rest),
        _ => None,
    }
}

// A literal and what follows it.
#[tactic(auto, unfolding(crate::specs::Reading::literal_at))]
pub(crate) fn literal_at<'t, 'a>(
    alloc: Global,
    tokens: &'t [Token<'a>],
) -> Result<(Literal, &'t [Token<'a>]), Refusal>
    ensures { Gives (λ v. (literal_of v.0, tokens_of (v.1).now)) result
        (spec.literal_at (tokens_of tokens.now)) }
{
    let [token, rest @ ..] = tokens else {
        return Err(Refusal::Syntax);
    };
    match token {
        Token::Word(_) => constant_at(tokens).ok_or(Refusal::Syntax),
        Token::Int(n) => positive(*n, rest).ok_or(Refusal::Syntax),
        Token::Text(text) => {
            let text = Words::from_text(alloc, text.as_str())?;
            Ok((Literal::Text(text), rest))
        }
        Token::Op(Binary::Sub) => after_minus(rest).ok_or(Refusal::Syntax),
        _ => Err(Refusal::Syntax),
    }
}

// A key of a dictionary, and what follows its colon.
#[tactic(auto, unfolding(crate::specs::Reading::key_at, crate::specs::Reading::and_then))]
pub(crate) fn key_at<'t, 'a>(
    alloc: Global,
    tokens: &'t [Token<'a>],
) -> Result<(Literal, &'t [Token<'a>]), Refusal>
    ensures { Gives (λ k. (literal_of k.0, tokens_of (k.1).now)) result
        (spec.key_at (tokens_of tokens.now)) }
{
    let (key, rest) = literal_at(alloc, tokens)?;
    let rest = expect(rest, Mark::Colon)?;
    Ok((key, rest))
}
