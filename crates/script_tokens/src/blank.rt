// What separates tokens: blanks, line ends and comments.
ghost use Rattle.std.specs.Prelude.{◌≡◌, ◌↔◌, ◌≤◌, ◌==◌, ◌||◌, length, IsTrue};
ghost use Rattle.meaning_language.specs.Token as spec;
ghost use Rattle.meaning_language.specs.Script.{IsBlank};

// Whether a line feed comes first.
fn begins_line_feed(bytes: &[u8]) -> bool
    ensures { result ≡ spec.begins_with (λ b. b == 10) bytes.now }
{
    match bytes {
        [byte, ..] => *byte == b'\n',
        [] => false,
    }
}

// Whether a byte before these separates tokens by itself.
fn is_separator(byte: u8, after: &[u8]) -> bool
    ensures { result ≡ (byte == 32 || byte == 9 || spec.ends_line byte after.now) }
{
    byte == b' ' || byte == b'\t' || byte == b'\n' || (byte == b'\r' && begins_line_feed(after))
}

// The line feed that ends a comment and what follows it, or nothing.
fn after_comment(bytes: &[u8]) -> &[u8]
    ensures same { spec.skip result.now ≡ spec.skip_comment bytes.now }
    ensures within { length result.now ≤ length bytes.now }
{
    let mut rest = bytes;
    'passing: while let [byte, after @ ..] = rest {
        if *byte == b'\n' {
            return rest;
        }
        rest = after;
    }
    rest
}

/// What follows blanks, line ends and comments.
pub fn skip(bytes: &[u8]) -> &[u8]
    ensures { result.now ≡ spec.skip bytes.now }
{
    let mut rest = bytes;
    'skipping: while let [byte, after @ ..] = rest {
        if is_separator(*byte, after) {
            rest = after;
        } else if *byte == b'#' {
            rest = after_comment(after);
        } else {
            return rest;
        }
    }
    rest
}

/// Whether a piece holds nothing but blanks, line ends and comments.
pub fn is_blank(piece: &[u8]) -> bool
    ensures { IsTrue result ↔ IsBlank piece.now }
{
    skip(piece).is_empty()
}
