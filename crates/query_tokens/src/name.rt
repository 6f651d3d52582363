// Names between backquotes.
ghost use Rattle.std.specs.Prelude.{◌≡◌, ◌∷◌, ℕ, List, MatchOption};
ghost use Rattle.std.specs.List.{prefix_len};
ghost use Rattle.std.specs.Str.{IsUtf8};
ghost use Rattle.meaning_query.specs.language.Token.{IsRun};
ghost use Rattle.meaning_query.specs.QueryToken as spec;
ghost use Rattle.query_tokens.specs.Absent.{EndsNoName, IsQuotedName};

// The bytes as text.
fn text_of(bytes: &[u8]) -> &str
    requires { IsUtf8 bytes.now }
    ensures { result.now ≡ bytes.now }
{
    match std::str::from_utf8(bytes) {
        Ok(text) => text,
        Err(_) => unreachable!(),
    }
}

fn is_quoted_byte(byte: u8) -> bool
    ensures { result ≡ spec.is_quoted_byte byte }
{
    !(byte == b'`' || byte == b'\n')
}

fn name_len(bytes: &[u8]) -> usize
    ensures { result ≡ prefix_len spec.is_quoted_byte bytes.now }
{
    bytes
        .iter()
        .take_while(|byte| is_quoted_byte(**byte))
        .count()
}

// The bytes that go on with a name, and what follows them.
fn split_name(bytes: &[u8]) -> (&[u8], &[u8])
    ensures { IsRun spec.is_quoted_byte result.0.now bytes.now result.1.now }
{
    bytes.split_at(name_len(bytes))
}

fn after_backquote(bytes: &[u8]) -> Option<&[u8]>
    ensures { MatchOption result ((rest : List ℕ) → bytes.now ≡ 96 ∷ rest → ⊥)
        (λ rest. bytes.now ≡ 96 ∷ rest.now) }
{
    match bytes {
        [byte, rest @ ..] if *byte == b'`' => Some(rest),
        _ => None,
    }
}

/// The name that goes on to the next backquote, and what follows that; `None` where it is empty,
/// or ends with a line feed or the bytes.
pub(crate) fn name_before(bytes: &[u8]) -> Option<(&str, &[u8])>
    requires { IsUtf8 bytes.now }
    ensures { MatchOption result (EndsNoName bytes.now)
        (λ name. IsQuotedName name.0.now bytes.now name.1.now) }
{
    let (name, after) = split_name(bytes);
    if name.is_empty() {
        return None;
    }
    let rest = after_backquote(after)?;
    Some((text_of(name), rest))
}
