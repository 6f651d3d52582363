// What each method makes of one text.
ghost use Rattle.std.specs.Prelude.{◌≡◌, ◌≢◌, ◌<◌, pos, length, IfOk};
ghost use Rattle.cell_core.specs.declared.cell.Kind.TheVariants.{Int64, Boolean, Text as string};
ghost use Rattle.column_core.specs.cells.Cell.{text_of, IsLonger};
ghost use Rattle.meaning_text.specs.TextMethod as means;
ghost use Rattle.meaning_text.specs.pick.Positions.{step_or_one};

use crate::answers::Work;
use crate::points::{begins, finishes, holds, points_in, push_filled, trimmed};
use crate::slices::push_slice;
use cell_core::{NoMemory, TextDict, TextId};
use std::alloc::Global;

/// How many code points the text has.
#[derive(Drop)]
pub(crate) struct Count;

/// Whether the text begins with a pattern.
#[derive(Drop)]
pub(crate) struct Begins<'a> {
    pub pattern: &'a str,
}

/// Whether it ends with a pattern.
#[derive(Drop)]
pub(crate) struct Finishes<'a> {
    pub pattern: &'a str,
}

/// Whether a pattern stands at some place of it.
#[derive(Drop)]
pub(crate) struct Holds<'a> {
    pub pattern: &'a str,
}

/// The text without the white space at both ends.
#[derive(Drop)]
pub(crate) struct Trim;

/// A slice of its code points.
#[derive(Drop)]
pub(crate) struct Cut {
    pub alloc: Global,
    pub from: Option<i64>,
    pub to: Option<i64>,
    pub step: Option<i64>,
    pub ghost moves: { step_or_one step ≢ pos 0 },
}

/// Zeros in front of it up to a width.
#[derive(Drop)]
pub(crate) struct Zeros {
    pub width: i64,
}

impl Work<i64> for Count {
    ghost method = { λ _. means.len };

    fn make(&self, dict: &mut TextDict, id: TextId, _: &mut String) -> Result<i64, NoMemory> {
        Ok(points_in(dict.text(id)) as i64)
    }

    ghost kind = { λ s i. Int64 };
}

impl Work<bool> for Begins<'_> {
    ghost method = { λ s. means.starts s.pattern.now };

    fn make(&self, dict: &mut TextDict, id: TextId, _: &mut String) -> Result<bool, NoMemory> {
        Ok(begins(dict.text(id), self.pattern))
    }

    ghost kind = { λ s i. Boolean };
}

impl Work<bool> for Finishes<'_> {
    ghost method = { λ s. means.ends s.pattern.now };

    fn make(&self, dict: &mut TextDict, id: TextId, _: &mut String) -> Result<bool, NoMemory> {
        Ok(finishes(dict.text(id), self.pattern))
    }

    ghost kind = { λ s i. Boolean };
}

impl Work<bool> for Holds<'_> {
    ghost method = { λ s. means.contains s.pattern.now };

    fn make(&self, dict: &mut TextDict, id: TextId, _: &mut String) -> Result<bool, NoMemory> {
        Ok(holds(dict.text(id), self.pattern))
    }

    ghost kind = { λ s i. Boolean };
}

impl Work<TextId> for Trim {
    ghost method = { λ _. means.strip };

    fn make(&self, dict: &mut TextDict, id: TextId, text: &mut String) -> Result<TextId, NoMemory> {
        text.clear();
        text.push_str(trimmed(dict.text(id)))?;
        numbered(dict, text.as_str())
    }

    ghost kind = { λ s i. string };
}

impl Work<TextId> for Cut {
    ghost method = { λ s. means.slice s.from s.to s.step };

    fn make(&self, dict: &mut TextDict, id: TextId, text: &mut String) -> Result<TextId, NoMemory> {
        text.clear();
        push_slice(
            self.alloc,
            dict.text(id),
            self.from,
            self.to,
            self.step,
            text,
        )?;
        numbered(dict, text.as_str())
    }

    ghost kind = { λ s i. string };
}

impl Work<TextId> for Zeros {
    ghost method = { λ s. means.fill s.width };

    fn make(&self, dict: &mut TextDict, id: TextId, text: &mut String) -> Result<TextId, NoMemory> {
        text.clear();
        push_filled(dict.text(id), self.width, text)?;
        numbered(dict, text.as_str())
    }

    ghost kind = { λ s i. string };
}

// The number of a text.
fn numbered(dict: &mut TextDict, text: &str) -> Result<TextId, NoMemory>
    ensures text { IfOk result (λ id. text_of dict.new id ≡ text.now) }
    ensures given { IfOk result (λ id. id.0 < length dict.new) }
    ensures keeps { IsLonger dict.old dict.new }
{
    dict.intern(text)
}
