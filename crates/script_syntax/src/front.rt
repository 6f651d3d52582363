// The front of the tokens that are left.
ghost use Rattle.std.specs.Prelude.{◌≡◌, ◌≤◌, option_map};
ghost use Rattle.std.specs.List.{list_any};
ghost use Rattle.script_tokens.specs.cells.Text.{same_text};
ghost use Rattle.script_tokens.specs.language.Grammar as grammar;
ghost use Rattle.script_tree.specs.View.{accessor_of};
ghost use Rattle.script_tokens.specs.View.{binary_of, mark_of, tokens_of};
ghost use Rattle.script_syntax.specs.Found.{rest_of, word_of, operator_of, sign_of, call_of, Gives};
ghost use Rattle.script_syntax.specs.Reading as spec;

use crate::refusal::Refusal;
use cell_core::Words;
use script_tokens::{Binary, Mark, Token};
use script_tree::{Accessor, Unary};
use std::alloc::Global;

// What a word stands for between a dot and a parenthesis.
#[derive(Clone, Copy, Debug, PartialEq, Eq)]
pub(crate) enum Call {
    Method,
    Group,
    Rolling,
    Expanding,
}

// What follows this mark.
#[tactic(auto, unfolding(crate::specs::Reading::after_mark, crate::specs::Reading::pick))]
pub(crate) fn after_mark<'t, 'a>(tokens: &'t [Token<'a>], mark: Mark) -> Option<&'t [Token<'a>]>
    ensures { rest_of result ≡ spec.after_mark (mark_of mark) (tokens_of tokens.now) }
{
    let [token, rest @ ..] = tokens else {
        return None;
    };
    match token {
        Token::Mark(found) if *found == mark => Some(rest),
        _ => None,
    }
}

// What follows this word.
#[tactic(auto, unfolding(crate::specs::Reading::after_word, crate::specs::Reading::pick))]
pub(crate) fn after_word<'t, 'a>(tokens: &'t [Token<'a>], word: &str) -> Option<&'t [Token<'a>]>
    ensures { rest_of result ≡ spec.after_word word.now (tokens_of tokens.now) }
{
    let [token, rest @ ..] = tokens else {
        return None;
    };
    match token {
        Token::Word(found) if *found == word => Some(rest),
        _ => None,
    }
}

// A word and what follows it.
#[tactic(auto, unfolding(crate::specs::Reading::word_at))]
pub(crate) fn word_at<'t, 'a>(tokens: &'t [Token<'a>]) -> Option<(&'a str, &'t [Token<'a>])>
    ensures { word_of result ≡ spec.word_at (tokens_of tokens.now) }
{
    let [token, rest @ ..] = tokens else {
        return None;
    };
    match token {
        Token::Word(word) => Some((*word, rest)),
        _ => None,
    }
}

// Whether a word is no name.
#[tactic(auto, unfolding(crate::specs::Reading::is_reserved))]
pub(crate) fn is_reserved(word: &str) -> bool
    ensures { result ≡ spec.is_reserved word.now }
{
    matches!(
        word,
        "True" | "False" | "None" | "del" | "import" | "as" | "print" | "len" | "pd"
    )
}

// Whether a word after a dot stands only in forms of its own.
pub(crate) fn is_form_word(word: &str) -> bool
    ensures { result ≡ list_any (same_text word.now) grammar.form_words }
{
    matches!(
        word,
        "loc" | "iloc" | "at" | "iat" | "groupby" | "rolling" | "expanding" | "str"
    )
}

// Whether a word names a method or a function.
#[tactic(auto, unfolding(crate::specs::Reading::is_method_name, crate::specs::Reading::pick))]
pub(crate) fn is_method_name(word: &str) -> bool
    ensures { result ≡ spec.is_method_name word.now }
{
    !is_reserved(word) && !is_form_word(word)
}

// Whether a word names a method of texts, after `str`.
#[tactic(auto, unfolding(crate::specs::Reading::is_text_method_name, crate::specs::Reading::pick))]
fn is_text_method_name(word: &str) -> bool
    ensures { result ≡ spec.is_text_method_name word.now }
{
    word == "len" || is_method_name(word)
}

// A name and what follows it.
#[tactic(auto, unfolding(crate::specs::Reading::name_at, crate::specs::Reading::and_then, crate::specs::Reading::pick))]
pub(crate) fn name_at<'t, 'a>(tokens: &'t [Token<'a>]) -> Option<(&'a str, &'t [Token<'a>])>
    ensures { word_of result ≡ spec.name_at (tokens_of tokens.now) }
{
    let (word, rest) = word_at(tokens)?;
    if is_reserved(word) {
        return None;
    }
    Some((word, rest))
}

// The name in `name =`, and what follows.
#[tactic(auto, unfolding(crate::specs::Reading::target_at, crate::specs::Reading::and_then))]
pub(crate) fn target_at<'t, 'a>(tokens: &'t [Token<'a>]) -> Option<(&'a str, &'t [Token<'a>])>
    ensures { word_of result ≡ spec.target_at (tokens_of tokens.now) }
{
    let (name, rest) = name_at(tokens)?;
    let rest = after_mark(rest, Mark::Equals)?;
    Some((name, rest))
}

// The word in `.word`, and what follows.
#[tactic(auto, unfolding(crate::specs::Reading::dotted_at, crate::specs::Reading::and_then))]
pub(crate) fn dotted_at<'t, 'a>(tokens: &'t [Token<'a>]) -> Option<(&'a str, &'t [Token<'a>])>
    ensures { word_of result ≡ spec.dotted_at (tokens_of tokens.now) }
{
    let rest = after_mark(tokens, Mark::Dot)?;
    word_at(rest)
}

// The word in `.word(`, and what follows.
#[tactic(auto, unfolding(crate::specs::Reading::opened_at, crate::specs::Reading::and_then))]
fn opened_at<'t, 'a>(tokens: &'t [Token<'a>]) -> Option<(&'a str, &'t [Token<'a>])>
    ensures { word_of result ≡ spec.opened_at (tokens_of tokens.now) }
{
    let (word, rest) = dotted_at(tokens)?;
    let rest = after_mark(rest, Mark::OpenParen)?;
    Some((word, rest))
}

// The name in `.name(`, of no form of its own, and what follows.
#[tactic(auto, unfolding(crate::specs::Reading::call_at, crate::specs::Reading::and_then, crate::specs::Reading::pick))]
pub(crate) fn call_at<'t, 'a>(tokens: &'t [Token<'a>]) -> Option<(&'a str, &'t [Token<'a>])>
    ensures { word_of result ≡ spec.call_at (tokens_of tokens.now) }
{
    let (name, rest) = opened_at(tokens)?;
    if !is_method_name(name) {
        return None;
    }
    Some((name, rest))
}

// The name in `.name(` after `str`, and what follows.
#[tactic(auto, unfolding(crate::specs::Reading::text_call_at, crate::specs::Reading::and_then, crate::specs::Reading::pick))]
pub(crate) fn text_call_at<'t, 'a>(tokens: &'t [Token<'a>]) -> Option<(&'a str, &'t [Token<'a>])>
    ensures { word_of result ≡ spec.text_call_at (tokens_of tokens.now) }
{
    let (name, rest) = opened_at(tokens)?;
    if !is_text_method_name(name) {
        return None;
    }
    Some((name, rest))
}

// What follows `len(`.
#[tactic(auto, unfolding(crate::specs::Reading::len_at, crate::specs::Reading::and_then))]
pub(crate) fn len_at<'t, 'a>(tokens: &'t [Token<'a>]) -> Option<&'t [Token<'a>]>
    ensures { rest_of result ≡ spec.len_at (tokens_of tokens.now) }
{
    let rest = after_word(tokens, "len")?;
    after_mark(rest, Mark::OpenParen)
}

// The name in `pd.name(`, and what follows.
#[tactic(auto, unfolding(crate::specs::Reading::maker_at, crate::specs::Reading::and_then))]
pub(crate) fn maker_at<'t, 'a>(tokens: &'t [Token<'a>]) -> Option<(&'a str, &'t [Token<'a>])>
    ensures { word_of result ≡ spec.maker_at (tokens_of tokens.now) }
{
    let rest = after_word(tokens, "pd")?;
    call_at(rest)
}

// How tightly an operator binds.
pub(crate) fn level(operator: Binary) -> usize
    ensures value { result ≡ grammar.level (binary_of operator) }
    ensures small { result ≤ 5 }
{
    match operator {
        Binary::Or => 1,
        Binary::Xor => 2,
        Binary::And => 3,
        Binary::Add | Binary::Sub => 4,
        Binary::Mul | Binary::FloorDiv | Binary::Mod => 5,
        Binary::Eq | Binary::Ne | Binary::Lt | Binary::Le | Binary::Gt | Binary::Ge => 0,
    }
}

// The operator of at least a level, and what follows it.
#[tactic(auto, unfolding(crate::specs::Reading::operator_at, crate::specs::Reading::pick))]
pub(crate) fn operator_at<'t, 'a>(
    tokens: &'t [Token<'a>],
    least: usize,
) -> Option<(Binary, &'t [Token<'a>])>
    ensures { operator_of result ≡ spec.operator_at least (tokens_of tokens.now) }
{
    let [token, rest @ ..] = tokens else {
        return None;
    };
    match token {
        Token::Op(operator) if least <= level(*operator) => Some((*operator, rest)),
        _ => None,
    }
}

// Whether a whole number comes first.
pub(crate) fn begins_int(tokens: &[Token]) -> bool
    ensures { result ≡ grammar.begins_int (tokens_of tokens.now) }
{
    let [token, ..] = tokens else {
        return false;
    };
    matches!(token, Token::Int(_))
}

// Whether a minus sign comes first.
pub(crate) fn begins_minus(tokens: &[Token]) -> bool
    ensures { result ≡ grammar.begins_minus (tokens_of tokens.now) }
{
    let [token, ..] = tokens else {
        return false;
    };
    matches!(token, Token::Op(Binary::Sub))
}

// Whether a parenthesis comes first.
pub(crate) fn begins_paren(tokens: &[Token]) -> bool
    ensures { result ≡ grammar.begins_paren (tokens_of tokens.now) }
{
    let [token, ..] = tokens else {
        return false;
    };
    matches!(token, Token::Mark(Mark::OpenParen))
}

// A sign that is not part of a number, and what follows it.
#[tactic(auto, unfolding(crate::specs::Reading::sign_at, crate::specs::Reading::pick))]
pub(crate) fn sign_at<'t, 'a>(tokens: &'t [Token<'a>]) -> Option<(Unary, &'t [Token<'a>])>
    ensures { sign_of result ≡ spec.sign_at (tokens_of tokens.now) }
{
    let [token, rest @ ..] = tokens else {
        return None;
    };
    match token {
        Token::Op(Binary::Sub) if !begins_int(rest) => Some((Unary::Minus, rest)),
        Token::Mark(Mark::Tilde) => Some((Unary::Invert, rest)),
        _ => None,
    }
}

// Whether a step comes first.
#[tactic(auto, unfolding(crate::specs::Reading::begins_step))]
pub(crate) fn begins_step(tokens: &[Token]) -> bool
    ensures { result ≡ spec.begins_step (tokens_of tokens.now) }
{
    let [token, ..] = tokens else {
        return false;
    };
    matches!(token, Token::Mark(Mark::Dot | Mark::OpenBracket))
}

// Whether neither a bound nor the step of a slice comes first.
#[tactic(auto, unfolding(crate::specs::Reading::ends_bound))]
pub(crate) fn ends_bound(tokens: &[Token]) -> bool
    ensures { result ≡ spec.ends_bound (tokens_of tokens.now) }
{
    let [token, ..] = tokens else {
        return false;
    };
    matches!(
        token,
        Token::Mark(Mark::Colon | Mark::Comma | Mark::CloseBracket)
    )
}

// What must follow this mark.
pub(crate) fn expect<'t, 'a>(
    tokens: &'t [Token<'a>],
    mark: Mark,
) -> Result<&'t [Token<'a>], Refusal>
    ensures { Gives (λ r. tokens_of r.now) result
        (spec.after_mark (mark_of mark) (tokens_of tokens.now)) }
{
    match after_mark(tokens, mark) {
        Some(rest) => Ok(rest),
        None => Err(Refusal::Syntax),
    }
}

// The tokens as they are. A loop goes on with what a call returns by itself, and not with a part of it.
pub(crate) fn onwards<'t, 'a>(tokens: &'t [Token<'a>]) -> &'t [Token<'a>]
    ensures { result.now ≡ tokens.now }
{
    tokens
}

// What follows a part of a list: past a comma, or at the mark that closes the list.
#[tactic(auto, unfolding(crate::specs::Reading::past_comma, crate::specs::Reading::or_else, crate::specs::Reading::and_then))]
pub(crate) fn past_comma<'t, 'a>(
    tokens: &'t [Token<'a>],
    close: Mark,
) -> Result<&'t [Token<'a>], Refusal>
    ensures { Gives (λ r. tokens_of r.now) result
        (spec.past_comma (mark_of close) (tokens_of tokens.now)) }
{
    if let Some(rest) = after_mark(tokens, Mark::Comma) {
        return Ok(rest);
    }
    match after_mark(tokens, close) {
        Some(_) => Ok(tokens),
        None => Err(Refusal::Syntax),
    }
}

// The accessor of this name.
#[tactic(auto, unfolding(crate::specs::Reading::accessor_at, crate::specs::Reading::pick))]
pub(crate) fn accessor_at(word: &str) -> Option<Accessor>
    ensures { option_map accessor_of result ≡ spec.accessor_at word.now }
{
    match word {
        "loc" => Some(Accessor::Loc),
        "iloc" => Some(Accessor::Iloc),
        "at" => Some(Accessor::At),
        "iat" => Some(Accessor::Iat),
        _ => None,
    }
}

// What a word stands for between a dot and a parenthesis.
#[tactic(auto, unfolding(crate::specs::Reading::call_of, crate::specs::Reading::pick))]
pub(crate) fn call_of(word: &str) -> Option<Call>
    ensures { option_map call_of result ≡ spec.call_of word.now }
{
    match word {
        "groupby" => Some(Call::Group),
        "rolling" => Some(Call::Rolling),
        "expanding" => Some(Call::Expanding),
        _ if is_method_name(word) => Some(Call::Method),
        _ => None,
    }
}

// The name of an argument, if it has one, and what follows it. After an argument with a name each
// must have one.
#[tactic(auto, unfolding(crate::specs::Reading::keyword_for, crate::specs::Reading::keyword_at, crate::specs::Reading::may_follow, crate::specs::Reading::or_else, crate::specs::Reading::pick))]
pub(crate) fn keyword<'t, 'a>(
    alloc: Global,
    tokens: &'t [Token<'a>],
    after_name: bool,
) -> Result<(Option<Words>, &'t [Token<'a>]), Refusal>
    ensures { Gives (λ k. (k.0, tokens_of (k.1).now)) result
        (spec.keyword_for after_name (tokens_of tokens.now)) }
{
    match target_at(tokens) {
        Some((name, rest)) => Ok((Some(Words::from_text(alloc, name)?), rest)),
        None if after_name => Err(Refusal::Syntax),
        None => Ok((None, tokens)),
    }
}
