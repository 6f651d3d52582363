// Texts that are filled up with spaces.
ghost use Rattle.std.specs.Prelude.{◌≡◌, ◌++◌, OnOk};
ghost use Rattle.meaning_format.specs.Print.{spaces, left_set, right_set};
ghost use Rattle.frame_format.specs.Layouts.{gap_before};

use cell_core::{NoMemory, Words};
use unicode_width::UnicodeWidthStr;

/// Appends so many spaces.
pub(crate) fn push_spaces(out: &mut Words, count: usize) -> Result<(), NoMemory>
    ensures { OnOk result (out.new ≡ out.old ++ spaces count) }
{
    for _ in 0..count {
        out.push_str(" ")?;
    }
    Ok(())
}

/// Appends a gap before each part but the first.
pub(crate) fn push_gap(out: &mut Words, gap: &str, place: usize) -> Result<(), NoMemory>
    ensures { OnOk result (out.new ≡ out.old ++ gap_before gap.now place) }
{
    if place == 0 {
        return Ok(());
    }
    out.push_str(gap)
}

/// Appends a text that is set to the left of a field.
pub(crate) fn push_left(out: &mut Words, columns: usize, text: &str) -> Result<(), NoMemory>
    ensures { OnOk result (out.new ≡ out.old ++ left_set columns text.now) }
{
    out.push_str(text)?;
    push_spaces(out, columns.saturating_sub(text.width()))
}

/// Appends a text that is set to the right of a field.
pub(crate) fn push_right(out: &mut Words, columns: usize, text: &str) -> Result<(), NoMemory>
    ensures { OnOk result (out.new ≡ out.old ++ right_set columns text.now) }
{
    push_spaces(out, columns.saturating_sub(text.width()))?;
    out.push_str(text)
}
