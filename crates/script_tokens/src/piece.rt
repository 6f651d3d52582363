// Where a piece ends, and the lines that end in it.
ghost use Rattle.std.specs.Prelude.{◌≡◌, ◌<◌, ◌≤◌, ◌∷◌, length, take, drop};
ghost use Rattle.meaning_language.specs.Pieces as spec;
ghost use Rattle.meaning_language.specs.Script as script;
ghost use Rattle.script_tokens.specs.View.{mode_of};

// Where a byte of a piece stands.
#[derive(Clone, Copy, Debug, PartialEq, Eq)]
enum Mode {
    Plain,
    Comment,
    Quoted(u8),
    Escaped(u8),
}

// Where the byte after this one stands.
fn mode_after(mode: Mode, byte: u8) -> Mode
    ensures { mode_of result ≡ spec.mode_after (mode_of mode) byte }
{
    match mode {
        Mode::Plain if byte == b'#' => Mode::Comment,
        Mode::Plain if byte == b'\'' || byte == b'"' => Mode::Quoted(byte),
        Mode::Plain => Mode::Plain,
        Mode::Comment => Mode::Comment,
        Mode::Quoted(quote) if byte == quote => Mode::Plain,
        Mode::Quoted(quote) if byte == b'\\' => Mode::Escaped(quote),
        Mode::Quoted(quote) => Mode::Quoted(quote),
        Mode::Escaped(quote) => Mode::Quoted(quote),
    }
}

fn opens(mode: Mode, byte: u8) -> usize
    ensures value { result ≡ spec.opens (mode_of mode) byte }
    ensures small { result ≤ 1 }
{
    match mode {
        Mode::Plain if byte == b'(' || byte == b'[' || byte == b'{' => 1,
        _ => 0,
    }
}

fn closes(mode: Mode, byte: u8) -> usize
    ensures value { result ≡ spec.closes (mode_of mode) byte }
    ensures small { result ≤ 1 }
{
    match mode {
        Mode::Plain if byte == b')' || byte == b']' || byte == b'}' => 1,
        _ => 0,
    }
}

/// How many bytes the first piece has: 0 only where there are no bytes.
#[tactic(auto, using(crate::proofs::FirstPiece::pieces_first), unfolding(crate::proofs::FirstPiece::rest_len, meaning_language::specs::Pieces::choose))]
pub fn piece_len(bytes: &[u8]) -> usize
    ensures first { 0 < length bytes.now →
        spec.pieces bytes.now ≡ take result bytes.now ∷ spec.pieces (drop result bytes.now) }
    ensures some { 0 < length bytes.now → 0 < result }
    ensures within { result ≤ length bytes.now }
{
    let mut mode = Mode::Plain;
    let mut opened: usize = 0;
    let mut closed: usize = 0;
    let mut taken: usize = 0;
    let mut rest = bytes;
    'cutting: while let [byte, after @ ..] = rest {
        taken += 1;
        if *byte == b'\n' {
            if opened <= closed {
                return taken;
            }
            mode = Mode::Plain;
        } else {
            opened += opens(mode, *byte);
            closed += closes(mode, *byte);
            mode = mode_after(mode, *byte);
        }
        rest = after;
    }
    taken
}

/// How many lines end in a piece: its line feeds.
pub fn line_ends(piece: &[u8]) -> usize
    ensures value { result ≡ script.line_ends piece.now }
    ensures within { result ≤ length piece.now }
{
    piece.iter().filter(|byte| **byte == b'\n').count()
}
