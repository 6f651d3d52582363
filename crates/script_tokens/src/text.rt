// Texts between quotes.
ghost use Rattle.std.specs.Prelude.{◌≡◌, ◌↔◌, ◌∷◌, [], ℕ, List, Some, None, IfOk, IsTrue, MatchOption};
ghost use Rattle.std.specs.List.{prefix_len};
ghost use Rattle.std.specs.Str.{IsUtf8};
ghost use Rattle.meaning_language.specs.Token as spec;
ghost use Rattle.script_tokens.specs.Quoted as quoted;
ghost use Rattle.script_tokens.specs.Quoted.{IsEscape, BeginsNoEscape, EndsNoText};

use cell_core::{NoMemory, Words};
use std::alloc::Global;

/// The bytes as text.
pub(crate) fn text_of(bytes: &[u8]) -> &str
    requires { IsUtf8 bytes.now }
    ensures { result.now ≡ bytes.now }
{
    match std::str::from_utf8(bytes) {
        Ok(text) => text,
        Err(_) => unreachable!(),
    }
}

/// Whether a byte begins a text.
pub(crate) fn is_quote(byte: u8) -> bool
    ensures { IsTrue result ↔ spec.IsQuote byte }
{
    byte == b'\'' || byte == b'"'
}

// What a backslash before this byte makes of it.
fn unescaped(byte: u8) -> Option<&'static str>
    ensures { MatchOption result (spec.escaped byte ≡ None)
        (λ text. (c : ℕ) × (spec.escaped byte ≡ Some c) × (text.now ≡ c ∷ [])) }
{
    match byte {
        b'\\' => Some("\\"),
        b'\'' => Some("'"),
        b'"' => Some("\""),
        b'n' => Some("\n"),
        b't' => Some("\t"),
        _ => None,
    }
}

// Whether a byte stands for itself in a text between these quotes.
fn is_plain(quote: u8, byte: u8) -> bool
    ensures { result ≡ quoted.is_plain quote byte }
{
    byte != quote && byte != b'\\' && byte != b'\n'
}

fn plain_len(quote: u8, bytes: &[u8]) -> usize
    ensures { result ≡ prefix_len (quoted.is_plain quote) bytes.now }
{
    bytes
        .iter()
        .take_while(|byte| is_plain(quote, **byte))
        .count()
}

// The bytes that stand for themselves, and what follows them.
fn split_plain(quote: u8, bytes: &[u8]) -> (&[u8], &[u8])
    ensures { spec.IsRun (quoted.is_plain quote) result.0.now bytes.now result.1.now }
{
    bytes.split_at(plain_len(quote, bytes))
}

fn after_quote(quote: u8, bytes: &[u8]) -> Option<&[u8]>
    ensures { MatchOption result ((rest : List ℕ) → bytes.now ≡ quote ∷ rest → ⊥)
        (λ rest. bytes.now ≡ quote ∷ rest.now) }
{
    match bytes {
        [byte, rest @ ..] if *byte == quote => Some(rest),
        _ => None,
    }
}

// What the escape that stands first stands for, and what follows it.
fn after_escape(bytes: &[u8]) -> Option<(&'static str, &[u8])>
    ensures { MatchOption result (BeginsNoEscape bytes.now)
        (λ found. (c : ℕ) × IsEscape c bytes.now found.1.now × (found.0.now ≡ c ∷ [])) }
{
    let [backslash, byte, rest @ ..] = bytes else {
        return None
    };
    if *backslash != b'\\' {
        return None;
    }
    let text = unescaped(*byte)?;
    Some((text, rest))
}

/// The text that goes on to the next of these quotes, and what follows that; `None` where it ends
/// with a line feed, a wrong escape or the bytes.
pub(crate) fn text_before(
    alloc: Global,
    quote: u8,
    bytes: &[u8],
) -> Result<Option<(Words, &[u8])>, NoMemory>
    requires quote { spec.IsQuote quote }
    requires utf8 { IsUtf8 bytes.now }
    ensures { IfOk result (λ found. MatchOption found (EndsNoText quote bytes.now)
        (λ text. spec.IsQuoted quote text.0 bytes.now text.1.now)) }
{
    let mut words = Words::new(alloc);
    let mut rest = bytes;
    'reading: loop {
        let (plain, after) = split_plain(quote, rest);
        words.push_str(text_of(plain))?;
        if let Some(end) = after_quote(quote, after) {
            return Ok(Some((words, end)));
        }
        let Some((escaped, next)) = after_escape(after) else {
            return Ok(None)
        };
        words.push_str(escaped)?;
        rest = next;
    }
}
