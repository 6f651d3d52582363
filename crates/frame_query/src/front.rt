// The front of the tokens that are left.
ghost use Rattle.std.specs.Prelude.{◌≡◌, ◌≤◌};
ghost use Rattle.meaning_query.specs.Query as query;
ghost use Rattle.meaning_query.specs.Reading as spec;
ghost use Rattle.script_tokens.specs.View.{binary_of, mark_of};
ghost use Rattle.query_tokens.specs.View.{query_tokens_of};
ghost use Rattle.frame_query.specs.Found.{rest_of, word_of, joint_of, joint_found, Gives};

use crate::fault::QueryFault;
use query_tokens::QueryToken;
use script_tokens::{Binary, Mark, Token};

// What joins two sides: an operator between operands, or `in` or `not in` before a list.
#[derive(Clone, Copy, Debug, PartialEq, Eq)]
pub(crate) enum Joint {
    Operator(Binary),
    Inside,
    Outside,
}

// What follows this mark.
#[tactic(auto, unfolding(meaning_query::specs::Reading::after_mark, meaning_query::specs::Reading::pick))]
pub(crate) fn after_mark<'t, 'a>(
    tokens: &'t [QueryToken<'a>],
    mark: Mark,
) -> Option<&'t [QueryToken<'a>]>
    ensures { rest_of result ≡ spec.after_mark (mark_of mark) (query_tokens_of tokens.now) }
{
    let [token, rest @ ..] = tokens else {
        return None;
    };
    match token {
        QueryToken::Plain(Token::Mark(found)) if *found == mark => Some(rest),
        _ => None,
    }
}

// What must follow this mark.
pub(crate) fn expect<'t, 'a>(
    tokens: &'t [QueryToken<'a>],
    mark: Mark,
) -> Result<&'t [QueryToken<'a>], QueryFault>
    ensures { Gives (λ r. query_tokens_of r.now) result
        (spec.after_mark (mark_of mark) (query_tokens_of tokens.now)) }
{
    match after_mark(tokens, mark) {
        Some(rest) => Ok(rest),
        None => Err(QueryFault::NotQuery),
    }
}

// What follows this word.
#[tactic(auto, unfolding(meaning_query::specs::Reading::after_word, meaning_query::specs::Reading::pick))]
pub(crate) fn after_word<'t, 'a>(
    tokens: &'t [QueryToken<'a>],
    word: &str,
) -> Option<&'t [QueryToken<'a>]>
    ensures { rest_of result ≡ spec.after_word word.now (query_tokens_of tokens.now) }
{
    let [token, rest @ ..] = tokens else {
        return None;
    };
    match token {
        QueryToken::Plain(Token::Word(found)) if *found == word => Some(rest),
        _ => None,
    }
}

// Whether a whole number comes first.
pub(crate) fn begins_number(tokens: &[QueryToken]) -> bool
    ensures { result ≡ query.begins_number (query_tokens_of tokens.now) }
{
    let [token, ..] = tokens else {
        return false;
    };
    matches!(token, QueryToken::Plain(Token::Int(_)))
}

// What follows a minus sign that is not part of a number.
#[tactic(auto, unfolding(meaning_query::specs::Reading::after_minus, meaning_query::specs::Reading::pick))]
pub(crate) fn after_minus<'t, 'a>(tokens: &'t [QueryToken<'a>]) -> Option<&'t [QueryToken<'a>]>
    ensures { rest_of result ≡ spec.after_minus (query_tokens_of tokens.now) }
{
    let [token, rest @ ..] = tokens else {
        return None;
    };
    match token {
        QueryToken::Plain(Token::Op(Binary::Sub)) if !begins_number(rest) => Some(rest),
        _ => None,
    }
}

// Whether a word is no name in a query.
#[tactic(auto, unfolding(meaning_query::specs::Reading::is_query_word))]
fn is_query_word(word: &str) -> bool
    ensures { result ≡ spec.is_query_word word.now }
{
    matches!(
        word,
        "and"
            | "or"
            | "not"
            | "in"
            | "True"
            | "False"
            | "None"
            | "del"
            | "import"
            | "as"
            | "print"
            | "len"
            | "pd"
    )
}

// A name and what follows it.
#[tactic(auto, unfolding(meaning_query::specs::Reading::name_at, meaning_query::specs::Reading::pick))]
fn name_at<'t, 'a>(tokens: &'t [QueryToken<'a>]) -> Option<(&'t str, &'t [QueryToken<'a>])>
    ensures { word_of result ≡ spec.name_at (query_tokens_of tokens.now) }
{
    let [token, rest @ ..] = tokens else {
        return None;
    };
    match token {
        QueryToken::Plain(Token::Word(word)) if !is_query_word(word) => Some((*word, rest)),
        _ => None,
    }
}

// The name of a column, and what follows it.
#[tactic(auto, unfolding(meaning_query::specs::Reading::column_at, meaning_query::specs::Reading::name_at))]
pub(crate) fn column_at<'t, 'a>(
    tokens: &'t [QueryToken<'a>],
) -> Option<(&'t str, &'t [QueryToken<'a>])>
    ensures { word_of result ≡ spec.column_at (query_tokens_of tokens.now) }
{
    let [token, rest @ ..] = tokens else {
        return None;
    };
    match token {
        QueryToken::Quoted(name) => Some((*name, rest)),
        _ => name_at(tokens),
    }
}

// The name after `@`, and what follows it.
#[tactic(auto, unfolding(meaning_query::specs::Reading::script_name_at))]
pub(crate) fn script_name_at<'t, 'a>(
    tokens: &'t [QueryToken<'a>],
) -> Option<(&'t str, &'t [QueryToken<'a>])>
    ensures { word_of result ≡ spec.script_name_at (query_tokens_of tokens.now) }
{
    let [token, rest @ ..] = tokens else {
        return None;
    };
    match token {
        QueryToken::AtSign => name_at(rest),
        _ => None,
    }
}

// How tightly it binds.
pub(crate) fn level(joint: Joint) -> usize
    ensures value { result ≡ spec.joint_level (joint_of joint) }
    ensures small { result ≤ 5 }
{
    match joint {
        Joint::Operator(Binary::Or | Binary::Xor) => 0,
        Joint::Operator(Binary::And) => 1,
        Joint::Operator(Binary::Add | Binary::Sub) => 4,
        Joint::Operator(Binary::Mul | Binary::FloorDiv | Binary::Mod) => 5,
        _ => 3,
    }
}

// The least level of its left side: comparisons don't group, as `in` doesn't.
fn left_level(joint: Joint) -> usize
    ensures { result ≡ spec.joint_left_level (joint_of joint) }
{
    match level(joint) {
        3 => 4,
        level => level,
    }
}

// What a word joins, and what follows it.
#[tactic(auto, unfolding(meaning_query::specs::Reading::joint_of, meaning_query::specs::Reading::and_then, meaning_query::specs::Reading::pick))]
fn word_joint<'t, 'a>(
    word: &str,
    rest: &'t [QueryToken<'a>],
) -> Option<(Joint, &'t [QueryToken<'a>])>
    ensures { joint_found result ≡ spec.joint_of word.now (query_tokens_of rest.now) }
{
    match word {
        "or" => Some((Joint::Operator(Binary::Or), rest)),
        "and" => Some((Joint::Operator(Binary::And), rest)),
        "in" => Some((Joint::Inside, rest)),
        "not" => {
            let rest = after_word(rest, "in")?;
            Some((Joint::Outside, rest))
        }
        _ => None,
    }
}

// Whether an operator is no word in a query.
#[tactic(auto, unfolding(meaning_query::specs::Reading::is_symbol))]
fn is_symbol(operator: Binary) -> bool
    ensures { result ≡ spec.is_symbol (binary_of operator) }
{
    !matches!(operator, Binary::Or | Binary::And | Binary::Xor)
}

// What joins two sides, and what follows it.
#[tactic(auto, unfolding(meaning_query::specs::Reading::joint_at, meaning_query::specs::Reading::pick))]
fn joint_at<'t, 'a>(tokens: &'t [QueryToken<'a>]) -> Option<(Joint, &'t [QueryToken<'a>])>
    ensures { joint_found result ≡ spec.joint_at (query_tokens_of tokens.now) }
{
    let [token, rest @ ..] = tokens else {
        return None;
    };
    match token {
        QueryToken::Plain(Token::Word(word)) => word_joint(word, rest),
        QueryToken::Plain(Token::Op(operator)) if is_symbol(*operator) => {
            Some((Joint::Operator(*operator), rest))
        }
        _ => None,
    }
}

// What joins two sides, of at least a level, where a query of the level `own` may stand before it; and what follows it.
#[tactic(auto, unfolding(meaning_query::specs::Reading::joint_for, meaning_query::specs::Reading::and_then, meaning_query::specs::Reading::pick))]
pub(crate) fn joint_for<'t, 'a>(
    tokens: &'t [QueryToken<'a>],
    least: usize,
    own: usize,
) -> Option<(Joint, &'t [QueryToken<'a>])>
    ensures { joint_found result ≡ spec.joint_for least own (query_tokens_of tokens.now) }
{
    let (joint, rest) = joint_at(tokens)?;
    if least <= level(joint) && left_level(joint) <= own {
        Some((joint, rest))
    } else {
        None
    }
}

// The tokens as they are. A loop goes on with what a call returns by itself, and not with a part of it.
pub(crate) fn onwards<'t, 'a>(tokens: &'t [QueryToken<'a>]) -> &'t [QueryToken<'a>]
    ensures { result.now ≡ tokens.now }
{
    tokens
}
