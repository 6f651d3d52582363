// A text, as the tokens of a query.
ghost use Rattle.std.specs.Prelude.{◌≡◌, List, IfOk, IfSome, MatchOption};
ghost use Rattle.std.specs.Str.{IsUtf8};
ghost use Rattle.meaning_query.specs.language.Token.{skip};
ghost use Rattle.meaning_query.specs.QueryToken as spec;
ghost use Rattle.query_tokens.specs.View.{query_token_of, query_tokens_of};
ghost use Rattle.query_tokens.specs.Absent.{BeginsNoQueryToken, HasNoQueryTokens};

use crate::name::name_before;
use crate::token::QueryToken;
use cell_core::NoMemory;
use script_tokens::{skip, token_at};
use std::alloc::Global;

// The token that bytes begin with, and what follows it; `None` exactly where no token begins
// them. `NoMemory` where memory was refused.
fn query_token_at(alloc: Global, bytes: &[u8]) -> Result<Option<(QueryToken<'_>, &[u8])>, NoMemory>
    requires { IsUtf8 bytes.now }
    ensures { IfOk result (λ found. MatchOption found (BeginsNoQueryToken bytes.now)
        (λ found. spec.IsQueryToken (query_token_of found.0) bytes.now found.1.now)) }
{
    let [first, after @ ..] = bytes else {
        return Ok(None)
    };
    if *first == b'@' {
        return Ok(Some((QueryToken::AtSign, after)));
    }
    if *first == b'`' {
        return match name_before(after) {
            Some((name, rest)) => Ok(Some((QueryToken::Quoted(name), rest))),
            None => Ok(None),
        };
    }
    match token_at(alloc, bytes)? {
        Some((token, rest)) => Ok(Some((QueryToken::Plain(token), rest))),
        None => Ok(None),
    }
}

/// The tokens of a query, words and names borrowed from its text; `None` exactly where the text
/// isn't made of tokens, with blanks, line ends and comments before and after each. `NoMemory`
/// where memory was refused.
pub fn query_tokens<'a>(
    alloc: Global,
    text: &'a str,
) -> Result<Option<Vec<QueryToken<'a>>>, NoMemory>
    ensures found { IfOk result (λ found. MatchOption found (HasNoQueryTokens text.now)
        (λ tokens. spec.LexesQuery (query_tokens_of tokens.items) (skip text.now))) }
    ensures only { IfOk result (λ found. (ts : List spec.QueryToken) →
        spec.LexesQuery ts (skip text.now) →
        IfSome found (λ tokens. query_tokens_of tokens.items ≡ ts)) }
{
    let mut tokens = Vec::new(alloc);
    let mut rest = skip(text.as_bytes());
    'lexing: while !rest.is_empty() {
        let Some((token, after)) = query_token_at(alloc, rest)? else {
            return Ok(None)
        };
        tokens.push(token)?;
        rest = skip(after);
    }
    Ok(Some(tokens))
}
