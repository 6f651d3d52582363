// Fronts of a script.
use script_syntax::{ParseFault, parse};
use std::alloc::Global;

const MIXED: &str =
    "import pandas as pd\r\n \t \nx1 = pd.Series([3, -7,0 ,\t- 12,\n])  # numbers\n\n_y=(x1)\nz = x1 . copy( )\t\nz.iloc[-1:, 'a'] = {'k': (1,)}\ndel _y\ndel z['a']\nprint(-z.loc[2] + len(z) // 3, end='\\t')";

// Six lines, the first statement over two of them.
const TRUTHS: &[u8] =
    b"t = pd.DataFrame({\"p\": [True, True, True, False, False, False, pd.NA, pd.NA, pd.NA],\n    \"q\": [True, False, pd.NA, True, False, pd.NA, True, False, pd.NA]})\nt[\"and\"] = t[\"p\"] & t[\"q\"]\nt[\"or\"] = t[\"p\"] | t[\"q\"]\nt[\"xor\"] = t[\"p\"] ^ t[\"q\"]\nprint(t)\n";

fn lines_of(text: &[u8]) -> u64 {
    1 + text.iter().filter(|byte| **byte == b'\n').count() as u64
}

// Whether the text is a script of no more statements than all of it, or its syntax line is one of its own lines.
fn is_read(alloc: Global, text: &[u8]) -> bool {
    match parse(alloc, text) {
        Ok(script) => script.len() <= 8,
        Err(ParseFault::SyntaxAt(line)) => 1 <= line && line <= lines_of(text),
        Err(_) => false,
    }
}

#[test]
fn each_front_of_a_script_is_read(rt: HostRuntime) {
    let bytes = MIXED.as_bytes();
    for end in 0..=bytes.len() {
        assert!(rt; is_read(rt.alloc(), &bytes[..end]), "front of {end}");
    }
}

// Whether the text is a script, or its syntax line is one of six.
fn is_of_six_lines(alloc: Global, text: &[u8]) -> bool {
    match parse(alloc, text) {
        Ok(_) => true,
        Err(ParseFault::SyntaxAt(line)) => 1 <= line && line <= 6,
        Err(_) => false,
    }
}

#[test]
fn each_front_of_six_lines_is_read(rt: HostRuntime) {
    for end in 0..=TRUTHS.len() {
        assert!(rt;
            is_of_six_lines(rt.alloc(), &TRUTHS[..end]),
            "front of {end}"
        );
    }
}
