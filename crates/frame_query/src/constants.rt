// Constants, and lists of them.
ghost use Rattle.std.specs.Prelude.{◌≡◌, length, IfOk};
ghost use Rattle.meaning_query.specs.Reading as spec;
ghost use Rattle.script_tree.specs.View.{literal_of, parts_of};
ghost use Rattle.query_tokens.specs.View.{query_tokens_of};
ghost use Rattle.frame_query.specs.Found.{literal_found, items_depth, Gives, FindsList};

use crate::fault::QueryFault;
use crate::form::or_drop;
use crate::front::{after_mark, expect, onwards};
use cell_core::Words;
use query_tokens::QueryToken;
use script_tokens::{Binary, Mark, Token};
use script_tree::{Arg, ArgList, Expr, Literal};
use std::alloc::Global;

// `True` or `False`.
#[tactic(auto, unfolding(meaning_query::specs::Reading::truth_at, meaning_query::specs::Reading::pick))]
fn truth_at<'t, 'a>(
    word: &str,
    rest: &'t [QueryToken<'a>],
) -> Option<(Literal, &'t [QueryToken<'a>])>
    ensures { literal_found result ≡ spec.truth_at word.now (query_tokens_of rest.now) }
{
    match word {
        "True" => Some((Literal::Bool(true), rest)),
        "False" => Some((Literal::Bool(false), rest)),
        _ => None,
    }
}

// A whole number without a sign.
#[tactic(auto, unfolding(meaning_query::specs::Reading::positive, meaning_query::specs::Reading::pick))]
fn positive<'t, 'a>(n: u64, rest: &'t [QueryToken<'a>]) -> Option<(Literal, &'t [QueryToken<'a>])>
    ensures { literal_found result ≡ spec.positive n (query_tokens_of rest.now) }
{
    if n < 1 << 63 {
        Some((Literal::Int(n as i64), rest))
    } else {
        None
    }
}

// A whole number after a minus sign.
#[tactic(auto, unfolding(meaning_query::specs::Reading::negative, meaning_query::specs::Reading::pick))]
fn negative<'t, 'a>(n: u64, rest: &'t [QueryToken<'a>]) -> Option<(Literal, &'t [QueryToken<'a>])>
    ensures { literal_found result ≡ spec.negative n (query_tokens_of rest.now) }
{
    if n < 1 << 63 {
        Some((Literal::Int(-(n as i64)), rest))
    } else if n == 1 << 63 {
        Some((Literal::Int(i64::MIN), rest))
    } else {
        None
    }
}

// The number after a minus sign, and what follows it.
#[tactic(auto, unfolding(meaning_query::specs::Reading::negative_at))]
fn negative_at<'t, 'a>(tokens: &'t [QueryToken<'a>]) -> Option<(Literal, &'t [QueryToken<'a>])>
    ensures { literal_found result ≡ spec.negative_at (query_tokens_of tokens.now) }
{
    let [token, rest @ ..] = tokens else {
        return None;
    };
    match token {
        QueryToken::Plain(Token::Int(n)) => negative(*n, rest),
        _ => None,
    }
}

// A constant and what follows it.
#[tactic(auto, unfolding(meaning_query::specs::Reading::constant_at))]
pub(crate) fn constant_at<'t, 'a>(
    alloc: Global,
    tokens: &'t [QueryToken<'a>],
) -> Result<(Literal, &'t [QueryToken<'a>]), QueryFault>
    ensures { Gives (λ v. (literal_of v.0, query_tokens_of (v.1).now)) result
        (spec.constant_at (query_tokens_of tokens.now)) }
{
    let [token, rest @ ..] = tokens else {
        return Err(QueryFault::NotQuery);
    };
    match token {
        QueryToken::Plain(Token::Word(word)) => truth_at(word, rest).ok_or(QueryFault::NotQuery),
        QueryToken::Plain(Token::Int(n)) => positive(*n, rest).ok_or(QueryFault::NotQuery),
        QueryToken::Plain(Token::Text(text)) => {
            let text = Words::from_text(alloc, text.as_str())?;
            Ok((Literal::Text(text), rest))
        }
        QueryToken::Plain(Token::Op(Binary::Sub)) => negative_at(rest).ok_or(QueryFault::NotQuery),
        _ => Err(QueryFault::NotQuery),
    }
}

// The constants of a list after these, each after a comma, and what follows the bracket that closes them.
#[tactic(auto, unfolding(meaning_query::specs::Reading::and_then, meaning_query::specs::Reading::or_else), using(crate::proofs::Loops::turns))]
fn more_at<'t, 'a>(
    alloc: Global,
    begun: ArgList,
    tokens: &'t [QueryToken<'a>],
) -> Result<(ArgList, &'t [QueryToken<'a>]), QueryFault>
    requires { items_depth (parts_of begun) ≡ 1 }
    ensures found { Gives (λ x. (parts_of x.0, query_tokens_of (x.1).now)) result
        (spec.more_at (length (query_tokens_of tokens.now)) (parts_of begun)
        (query_tokens_of tokens.now)) }
    ensures deep { IfOk result (λ x. items_depth (parts_of x.0) ≡ 1) }
{
    let mut list = begun;
    let mut rest = tokens;
    for _ in 0..tokens.len() {
        if let Some(after) = after_mark(rest, Mark::CloseBracket) {
            return Ok((list, after));
        }
        let after = or_drop!(expect(rest, Mark::Comma), list);
        let (value, after) = or_drop!(constant_at(alloc, after), list);
        list.push(Arg::Expr(Expr::Literal(value)))?;
        rest = onwards(after);
    }
    drop(list);
    Err(QueryFault::NotQuery)
}

// A list of constants in its brackets, with the depth of its parts, and what follows it.
#[tactic(auto, unfolding(meaning_query::specs::Reading::list_at, meaning_query::specs::Reading::items_at, meaning_query::specs::Reading::and_then, meaning_query::specs::Reading::or_else), using(crate::proofs::Loops::err_is))]
pub(crate) fn list_at<'t, 'a>(
    alloc: Global,
    tokens: &'t [QueryToken<'a>],
) -> Result<(ArgList, usize, &'t [QueryToken<'a>]), QueryFault>
    ensures { FindsList result (spec.list_at (query_tokens_of tokens.now)) }
{
    let rest = expect(tokens, Mark::OpenBracket)?;
    let mut list = ArgList::new(alloc);
    if let Some(rest) = after_mark(rest, Mark::CloseBracket) {
        return Ok((list, 0, rest));
    }
    let (value, rest) = or_drop!(constant_at(alloc, rest), list);
    list.push(Arg::Expr(Expr::Literal(value)))?;
    let (list, rest) = more_at(alloc, list, rest)?;
    Ok((list, 1, rest))
}
