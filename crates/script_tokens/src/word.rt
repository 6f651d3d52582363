// Words and whole numbers.
ghost use Rattle.std.specs.Prelude.{◌≡◌, ◌<◌, ◌≤◌, ◌^◌, ℕ, decimal, length, true, MatchOption};
ghost use Rattle.std.specs.List.{list_all, prefix_len};
ghost use Rattle.meaning_language.specs.Token as spec;
ghost use Rattle.script_tokens.specs.View.{token_of};
ghost use Rattle.script_tokens.specs.Absent.{BeginsNoToken};

use crate::text::text_of;
use crate::token::Token;

// The greatest whole number that a token may be.
const MAX_INT: u64 = 1 << 63;

pub(crate) fn is_digit(byte: u8) -> bool
    ensures { result ≡ spec.is_digit byte }
{
    b'0' <= byte && byte <= b'9'
}

pub(crate) fn begins_word(byte: u8) -> bool
    ensures { result ≡ spec.begins_word byte }
{
    (b'A' <= byte && byte <= b'Z') || (b'a' <= byte && byte <= b'z') || byte == b'_'
}

fn continues_word(byte: u8) -> bool
    ensures { result ≡ spec.continues_word byte }
{
    begins_word(byte) || is_digit(byte)
}

fn word_len(bytes: &[u8]) -> usize
    ensures { result ≡ prefix_len spec.continues_word bytes.now }
{
    bytes
        .iter()
        .take_while(|byte| continues_word(**byte))
        .count()
}

fn digits_len(bytes: &[u8]) -> usize
    ensures { result ≡ prefix_len spec.is_digit bytes.now }
{
    bytes.iter().take_while(|byte| is_digit(**byte)).count()
}

// The bytes that go on with a word, and what follows them.
fn split_word(bytes: &[u8]) -> (&[u8], &[u8])
    ensures { spec.IsRun spec.continues_word result.0.now bytes.now result.1.now }
{
    bytes.split_at(word_len(bytes))
}

// The digits, and what follows them.
fn split_digits(bytes: &[u8]) -> (&[u8], &[u8])
    ensures { spec.IsRun spec.is_digit result.0.now bytes.now result.1.now }
{
    bytes.split_at(digits_len(bytes))
}

// The number that digits spell: at most 2^63, with no leading zero.
fn value_of(digits: &[u8]) -> Option<u64>
    requires digits { list_all spec.is_digit digits.now ≡ true }
    requires some { 0 < length digits.now }
    ensures { MatchOption result ((n : ℕ) → n ≤ 2 ^ 63 → digits.now ≡ decimal n → ⊥)
        (λ n. (digits.now ≡ decimal n) × (n ≤ 2 ^ 63)) }
{
    if digits.len() > 1 && digits[0] == b'0' {
        return None;
    }
    let Ok(value) = text_of(digits).parse::<u64>() else {
        return None
    };
    if value <= MAX_INT { Some(value) } else { None }
}

// The word that bytes begin with, and what follows it.
pub(crate) fn word_at(bytes: &[u8]) -> (Token<'_>, &[u8])
    requires { spec.begins_with spec.begins_word bytes.now ≡ true }
    ensures { spec.IsToken (token_of result.0) bytes.now result.1.now }
{
    let (word, rest) = split_word(bytes);
    (Token::Word(text_of(word)), rest)
}

// The whole number that bytes begin with, and what follows it.
pub(crate) fn int_at(bytes: &[u8]) -> Option<(Token<'_>, &[u8])>
    requires { spec.begins_with spec.is_digit bytes.now ≡ true }
    ensures { MatchOption result (BeginsNoToken bytes.now)
        (λ found. spec.IsToken (token_of found.0) bytes.now found.1.now) }
{
    let (digits, rest) = split_digits(bytes);
    let value = value_of(digits)?;
    Some((Token::Int(value), rest))
}
