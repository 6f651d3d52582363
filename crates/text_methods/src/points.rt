// What is made of the code points of one text.
ghost use Rattle.std.specs.Prelude.{◌≡◌, ◌<◌, ◌^◌, ◌++◌, [], length, nat_eq, replicate, string_bytes, IfOk, OnOk};
ghost use Rattle.std.specs.List.{starts_with, ends_with};
ghost use Rattle.std.specs.Str.{chars, encode_utf8_all};
ghost use Rattle.meaning_text.specs.Points.{stripped, stands_in, is_sign as is_sign_point, first_sign, width_of, zero_filled};

use cell_core::NoMemory;

/// How many code points a text has.
pub(crate) fn points_in(text: &str) -> usize
    ensures count { result ≡ length (chars text.now) }
    ensures small { result < 2 ^ 63 }
{
    text.chars().count()
}

/// The text without the white space at both ends.
pub(crate) fn trimmed(text: &str) -> &str
    ensures { result.now ≡ encode_utf8_all (stripped (chars text.now)) }
{
    text.trim()
}

/// Whether the text begins with the pattern.
pub(crate) fn begins(text: &str, pattern: &str) -> bool
    ensures { result ≡ starts_with nat_eq (chars text.now) (chars pattern.now) }
{
    text.starts_with(pattern)
}

/// Whether it ends with the pattern.
pub(crate) fn finishes(text: &str, pattern: &str) -> bool
    ensures { result ≡ ends_with nat_eq (chars text.now) (chars pattern.now) }
{
    text.ends_with(pattern)
}

/// Whether the pattern stands at some place of it.
pub(crate) fn holds(text: &str, pattern: &str) -> bool
    ensures { result ≡ stands_in (chars pattern.now) (chars text.now) }
{
    text.contains(pattern)
}

/// Writes the text with zeros in front of it, after a first sign, up to the width.
#[tactic(auto, using(meaning_text::proofs::FillLaws::filled_points))]
pub(crate) fn push_filled(text: &str, width: i64, out: &mut String) -> Result<(), NoMemory>
    requires { string_bytes out.old ≡ [] }
    ensures { OnOk result (string_bytes out.new
        ≡ encode_utf8_all (zero_filled width (chars text.now))) }
{
    let missing = places(width).saturating_sub(points_in(text));
    let (sign, rest) = text.split_at(sign_len(text));
    out.push_str(sign)?;
    push_zeros(missing, out)?;
    out.push_str(rest)?;
    Ok(())
}

// A width below 0 is that of no code point.
fn places(width: i64) -> usize
    ensures { result ≡ width_of width }
{
    if width < 0 {
        0
    } else {
        width.unsigned_abs() as usize
    }
}

// How many bytes the first sign of a text takes: none where it has no sign.
#[tactic(auto, using(meaning_text::proofs::FillLaws::first_length))]
fn sign_len(text: &str) -> usize
    ensures { result ≡ length (first_sign text.now) }
{
    let bytes = text.as_bytes();
    if bytes.is_empty() {
        return 0;
    }
    usize::from(is_sign(bytes[0]))
}

fn is_sign(byte: u8) -> bool
    ensures { result ≡ is_sign_point byte }
{
    byte == b'+' || byte == b'-'
}

fn push_zeros(count: usize, out: &mut String) -> Result<(), NoMemory>
    ensures { OnOk result (string_bytes out.new ≡ string_bytes out.old ++ replicate count 48) }
{
    for _ in 0..count {
        out.push('0')?;
    }
    Ok(())
}
