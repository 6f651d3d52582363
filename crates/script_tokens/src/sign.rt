// Operators and marks.
ghost use Rattle.std.specs.Prelude.{◌≡◌, ◌∷◌, [], MatchOption};
ghost use Rattle.meaning_language.specs.Tree as tree;
ghost use Rattle.meaning_language.specs.Token as spec;
ghost use Rattle.script_tokens.specs.View.{binary_of, mark_of, token_of};
ghost use Rattle.script_tokens.specs.Absent.{BeginsNoLongOperator, BeginsNoSign};

use crate::token::{Binary, Mark, Token};

// The operator that two bytes spell.
fn long_operator(first: u8, second: u8) -> Option<Binary>
    ensures { MatchOption result ((o : tree.Binary) → spec.spelling_of o ≡ first ∷ second ∷ [] → ⊥)
        (λ op. spec.spelling_of (binary_of op) ≡ first ∷ second ∷ []) }
{
    match (first, second) {
        (b'/', b'/') => Some(Binary::FloorDiv),
        (b'=', b'=') => Some(Binary::Eq),
        (b'!', b'=') => Some(Binary::Ne),
        (b'<', b'=') => Some(Binary::Le),
        (b'>', b'=') => Some(Binary::Ge),
        _ => None,
    }
}

// The operator of two bytes that bytes begin with, and what follows it.
fn long_operator_at(bytes: &[u8]) -> Option<(Binary, &[u8])>
    ensures { MatchOption result (BeginsNoLongOperator bytes.now)
        (λ found. spec.IsToken (spec.op (binary_of found.0)) bytes.now found.1.now) }
{
    let [first, second, rest @ ..] = bytes else {
        return None
    };
    let op = long_operator(*first, *second)?;
    Some((op, rest))
}

// The operator that one byte spells.
fn short_operator(byte: u8) -> Option<Binary>
    ensures { MatchOption result ((o : tree.Binary) → spec.spelling_of o ≡ byte ∷ [] → ⊥)
        (λ op. spec.spelling_of (binary_of op) ≡ byte ∷ []) }
{
    match byte {
        b'+' => Some(Binary::Add),
        b'-' => Some(Binary::Sub),
        b'*' => Some(Binary::Mul),
        b'%' => Some(Binary::Mod),
        b'<' => Some(Binary::Lt),
        b'>' => Some(Binary::Gt),
        b'&' => Some(Binary::And),
        b'|' => Some(Binary::Or),
        b'^' => Some(Binary::Xor),
        _ => None,
    }
}

// The mark that a byte is.
fn mark_at(byte: u8) -> Option<Mark>
    ensures { MatchOption result ((m : spec.Mark) → spec.byte_of m ≡ byte → ⊥)
        (λ mark. spec.byte_of (mark_of mark) ≡ byte) }
{
    match byte {
        b'=' => Some(Mark::Equals),
        b'.' => Some(Mark::Dot),
        b',' => Some(Mark::Comma),
        b':' => Some(Mark::Colon),
        b'~' => Some(Mark::Tilde),
        b'(' => Some(Mark::OpenParen),
        b')' => Some(Mark::CloseParen),
        b'[' => Some(Mark::OpenBracket),
        b']' => Some(Mark::CloseBracket),
        b'{' => Some(Mark::OpenBrace),
        b'}' => Some(Mark::CloseBrace),
        _ => None,
    }
}

// The operator or mark that bytes begin with, and what follows it.
pub(crate) fn sign_at(bytes: &[u8]) -> Option<(Token<'_>, &[u8])>
    ensures { MatchOption result (BeginsNoSign bytes.now)
        (λ found. spec.IsToken (token_of found.0) bytes.now found.1.now) }
{
    if let Some((op, rest)) = long_operator_at(bytes) {
        return Some((Token::Op(op), rest));
    }
    let [first, rest @ ..] = bytes else {
        return None
    };
    if let Some(op) = short_operator(*first) {
        return Some((Token::Op(op), rest));
    }
    let mark = mark_at(*first)?;
    Some((Token::Mark(mark), rest))
}
