// Pieces of a script: that the definitions are the language that was meant.
use script_tokens::{is_blank, line_ends, piece_len};

#[test]
fn pieces(rt: HostRuntime) {
    for (text, want) in [
        ("", 0),
        ("a", 1),
        ("a\nb\n", 2),
        ("f(1,\n 2)\nb\n", 9),
        ("f('(',\n # )\n 2)\nb\n", 16),
        ("x = '[\ny = 1\n", 7),
        ("x = '\\'['\n1", 10),
        ("(]\nb\n", 3),
        ("a)(\nb\n", 4),
    ] {
        assert!(rt; piece_len(text.as_bytes()) == want, "at {text}");
    }
    assert!(rt; line_ends(b"(\n\r\n)".as_slice()) == 2);
}

#[test]
fn blanks(rt: HostRuntime) {
    for (piece, want) in [
        ("", true),
        (" \t# x = 1\n", true),
        ("\r\n", true),
        ("\r", false),
        ("# x\r", true),
        (" x\n", false),
    ] {
        assert!(rt; is_blank(piece.as_bytes()) == want, "at {piece}");
    }
}
