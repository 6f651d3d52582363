// Methods of texts, and why a call is refused.
ghost use Rattle.std.specs.Prelude.{◌≡◌};
ghost use Rattle.text_methods.specs.declared.ops.TextFault.TheVariants.{NoMemory as WantOfMemory};

use cell_core::{NoMemory, TextId};

/// A method of texts, with what it is given.
#[derive(Clone, Copy)]
pub enum TextOp {
    /// How many code points the text has.
    Len,
    /// The text without the white space at both ends.
    Strip,
    /// Whether it begins with this text.
    Starts(TextId),
    /// Whether it ends with this text.
    Ends(TextId),
    /// Whether this text stands at some place of it.
    Contains(TextId),
    /// Python's slice of its code points: from a place, up to a place, by a step, which isn't 0.
    Slice(Option<i64>, Option<i64>, Option<i64>),
    /// Zeros in front of it, after a first `+` or `-`, so that it has this many code points, at most 65,536.
    Fill(i64),
}

/// Why a call is refused.
#[derive(Clone, Copy, Debug, PartialEq, Eq)]
pub enum TextFault {
    /// The cells aren't texts.
    NotText,
    /// The step is 0, or the width is above 65,536.
    BadArgument,
    /// Memory was refused.
    NoMemory,
}

impl From<NoMemory> for TextFault {
    ghost from_gives = { λ _ e. e ≡ WantOfMemory };

    fn from(_: NoMemory) -> TextFault {
        TextFault::NoMemory
    }
}
