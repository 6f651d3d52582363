// Methods of texts on a column.
ghost use Rattle.std.specs.Prelude.{◌≡◌, ◌<◌, ℕ, length, string_bytes, IfOk};
ghost use Rattle.column_core.specs.cells.Cell.{text_of, AreGiven, IsGiven, IsLonger};
ghost use Rattle.column_core.specs.Columns.{column_value, text_cell};
ghost use Rattle.meaning_text.specs.TextMethod as means;
ghost use Rattle.text_methods.specs.Answers.{Answers, method_of};
ghost use Rattle.text_methods.specs.Rows.{text_column};

use crate::answers::answered;
use crate::ops::{TextFault, TextOp};
use crate::slices::step_of;
use crate::works::{Begins, Count, Cut, Finishes, Holds, Trim, Zeros};
use cell_core::{NoMemory, TextDict, TextId};
use column_core::{Borrowed, ColRef, Column, Source};
use std::alloc::Global;

// No text is filled up to more code points.
const MOST_PLACES: i64 = 65_536;

/// A method on each cell of a column of texts; NA stays. A text is its list of code points, white space is Unicode's
/// property White_Space, and each different text is worked on once. (pandas user guide, "Working with text data".)
///
/// # Errors
///
/// `NotText` exactly where the kind isn't `string`, and next `BadArgument` exactly where a slice's step is 0 or a width
/// is above 65,536. `NoMemory` may come in place of any answer; each number that the dictionary had given keeps its
/// text then too.
pub fn text_method(
    alloc: Global,
    dict: &mut TextDict,
    a: ColRef<'_>,
    op: TextOp,
) -> Result<Column, TextFault>
    requires { AreGiven dict.old a.cells }
    ensures keeps { IsLonger dict.old dict.new }
    ensures given { IfOk result (λ c. AreGiven dict.new c.cells) }
    ensures rows { IfOk result (λ c. length c.cells ≡ length a.entry.cells) }
    ensures answer { Answers dict.new result
        (means.text_method (method_of dict.old op) (column_value dict.old a.entry)) }
{
    match &a.lanes {
        Borrowed::Ints(_) => Err(TextFault::NotText),
        Borrowed::Truths(_) => Err(TextFault::NotText),
        Borrowed::Texts(lane) => on_texts(alloc, dict, lane, op),
    }
}

fn on_texts<A: Source<TextId>>(
    alloc: Global,
    dict: &mut TextDict,
    a: &A,
    op: TextOp,
) -> Result<Column, TextFault>
    requires { (k : ℕ) → k < A.count_of a.now → IsGiven dict.old (text_cell (A.row_of a.now k)) }
    ensures keeps { IsLonger dict.old dict.new }
    ensures given { IfOk result (λ c. AreGiven dict.new c.cells) }
    ensures answer { Answers dict.new result (means.text_method (method_of dict.old op)
        (text_column dict.old (A.count_of a.now) (A.row_of a.now))) }
{
    match op {
        TextOp::Len => Ok(answered(alloc, dict, &Count, a)?),
        TextOp::Strip => Ok(answered(alloc, dict, &Trim, a)?),
        TextOp::Starts(id) => {
            let pattern = copied(alloc, dict, id)?;
            let work = Begins {
                pattern: pattern.as_str(),
            };
            Ok(answered(alloc, dict, &work, a)?)
        }
        TextOp::Ends(id) => {
            let pattern = copied(alloc, dict, id)?;
            let work = Finishes {
                pattern: pattern.as_str(),
            };
            Ok(answered(alloc, dict, &work, a)?)
        }
        TextOp::Contains(id) => {
            let pattern = copied(alloc, dict, id)?;
            let work = Holds {
                pattern: pattern.as_str(),
            };
            Ok(answered(alloc, dict, &work, a)?)
        }
        TextOp::Slice(from, to, step) => cut(alloc, dict, a, from, to, step),
        TextOp::Fill(width) => filled(alloc, dict, a, width),
    }
}

fn cut<A: Source<TextId>>(
    alloc: Global,
    dict: &mut TextDict,
    a: &A,
    from: Option<i64>,
    to: Option<i64>,
    step: Option<i64>,
) -> Result<Column, TextFault>
    requires { (k : ℕ) → k < A.count_of a.now → IsGiven dict.old (text_cell (A.row_of a.now k)) }
    ensures keeps { IsLonger dict.old dict.new }
    ensures given { IfOk result (λ c. AreGiven dict.new c.cells) }
    ensures answer { Answers dict.new result (means.text_method (means.slice from to step)
        (text_column dict.old (A.count_of a.now) (A.row_of a.now))) }
{
    if step_of(step) == 0 {
        return Err(TextFault::BadArgument);
    }
    let work = Cut {
        alloc,
        from,
        to,
        step,
    };
    Ok(answered(alloc, dict, &work, a)?)
}

fn filled<A: Source<TextId>>(
    alloc: Global,
    dict: &mut TextDict,
    a: &A,
    width: i64,
) -> Result<Column, TextFault>
    requires { (k : ℕ) → k < A.count_of a.now → IsGiven dict.old (text_cell (A.row_of a.now k)) }
    ensures keeps { IsLonger dict.old dict.new }
    ensures given { IfOk result (λ c. AreGiven dict.new c.cells) }
    ensures answer { Answers dict.new result (means.text_method (means.fill width)
        (text_column dict.old (A.count_of a.now) (A.row_of a.now))) }
{
    if width > MOST_PLACES {
        return Err(TextFault::BadArgument);
    }
    Ok(answered(alloc, dict, &Zeros { width }, a)?)
}

// A text of its own, so that the dictionary may grow beside it.
fn copied(alloc: Global, dict: &TextDict, id: TextId) -> Result<String, NoMemory>
    ensures { IfOk result (λ t. string_bytes t ≡ text_of dict.now id) }
{
    Ok(String::from_str(alloc, dict.text(id))?)
}
