// A piece, as its tokens.
ghost use Rattle.std.specs.Prelude.{◌≡◌, List, IfOk, IfSome, MatchOption};
ghost use Rattle.std.specs.Str.{IsUtf8};
ghost use Rattle.meaning_language.specs.Token as spec;
ghost use Rattle.script_tokens.specs.View.{token_of, tokens_of};
ghost use Rattle.script_tokens.specs.Absent.{BeginsNoToken, HasNoTokens};

use crate::blank::skip;
use crate::sign::sign_at;
use crate::text::{is_quote, text_before};
use crate::token::Token;
use crate::word::{begins_word, int_at, is_digit, word_at};
use cell_core::NoMemory;
use std::alloc::Global;

/// The token that bytes begin with, and what follows it; `None` exactly where no token begins
/// them. `NoMemory` where memory was refused.
pub fn token_at(alloc: Global, bytes: &[u8]) -> Result<Option<(Token<'_>, &[u8])>, NoMemory>
    requires { IsUtf8 bytes.now }
    ensures { IfOk result (λ found. MatchOption found (BeginsNoToken bytes.now)
        (λ found. spec.IsToken (token_of found.0) bytes.now found.1.now)) }
{
    let [first, after @ ..] = bytes else {
        return Ok(None)
    };
    if begins_word(*first) {
        return Ok(Some(word_at(bytes)));
    }
    if is_digit(*first) {
        return Ok(int_at(bytes));
    }
    if is_quote(*first) {
        return match text_before(alloc, *first, after)? {
            Some((text, rest)) => Ok(Some((Token::Text(text), rest))),
            None => Ok(None),
        };
    }
    Ok(sign_at(bytes))
}

/// The tokens of a piece, words borrowed from it; `None` exactly where it isn't made of tokens,
/// with blanks, line ends and comments after each. So it is `None` where a blank comes first.
/// `NoMemory` where memory was refused.
pub fn tokens<'a>(alloc: Global, piece: &'a str) -> Result<Option<Vec<Token<'a>>>, NoMemory>
    ensures found { IfOk result (λ found. MatchOption found (HasNoTokens piece.now)
        (λ tokens. spec.Lexes (tokens_of tokens.items) piece.now)) }
    ensures only { IfOk result (λ found. (ts : List spec.Token) → spec.Lexes ts piece.now →
        IfSome found (λ tokens. tokens_of tokens.items ≡ ts)) }
{
    let mut tokens = Vec::new(alloc);
    let mut rest = piece.as_bytes();
    'lexing: while !rest.is_empty() {
        let Some((token, after)) = token_at(alloc, rest)? else {
            return Ok(None)
        };
        tokens.push(token)?;
        rest = skip(after);
    }
    Ok(Some(tokens))
}
