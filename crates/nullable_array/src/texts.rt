// The loop that makes a column of texts, which go into the dictionary.
ghost use Rattle.std.specs.Prelude.{◌≡◌, ◌<◌, ℕ, [], List, length, Option, Some, option_map, IfOk, string_bytes};
ghost use Rattle.std.specs.Fmt.{signed_decimal};
ghost use Rattle.cell_core.specs.declared.cell.Kind.TheVariants.{Text as string};
ghost use Rattle.column_core.specs.cells.Cell.{AreGiven, IsLonger};
ghost use Rattle.column_core.specs.cells.Column.{tabulate};
ghost use Rattle.column_core.specs.cells.Cast.{truth_text};
ghost use Rattle.column_core.specs.Columns.{text_value, column_value};
ghost use Rattle.column_core.specs.Rows.{text_if, IsTextRow, AreTexts};

use cell_core::{NoMemory, TextDict, TextId};
use column_core::{Column, Element, Owned, Source};
use itoa::Buffer;
use std::alloc::{AllocError, Global};

/// A text that is made of the values of a row, or none.
pub trait TextOp<X, Y> {
    ghost given: { Self → List (List ℕ) → Option X → Option Y → Type 0 };

    ghost written: { Self → List (List ℕ) → Option X → Option Y → Option (List ℕ) };

    /// Writes the text at the end of an empty one, and says whether there is one.
    fn write(
        &self,
        dict: &TextDict,
        x: Option<X>,
        y: Option<Y>,
        text: &mut String,
    ) -> Result<bool, AllocError>
        requires { string_bytes text.old ≡ [] }
        ensures { IfOk result (λ some. text_if some (string_bytes text.new) ≡ written self.now dict.now x y) };

    ghost stays: { (s : Self) (earlier later : List (List ℕ)) (x : Option X) (y : Option Y) → IsLonger earlier later → given s earlier x y → written s later x y ≡ written s earlier x y };
}

/// A whole number in decimal.
#[derive(Drop)]
pub(crate) struct Decimal;

impl TextOp<i64, ()> for Decimal {
    ghost given = { λ _ _ _ _. Unit {0} };

    ghost written = { λ _ _ x _. option_map signed_decimal x };

    fn write(
        &self,
        _dict: &TextDict,
        x: Option<i64>,
        _: Option<()>,
        text: &mut String,
    ) -> Result<bool, AllocError>
        requires { string_bytes text.old ≡ [] }
        ensures { IfOk result (λ some. text_if some (string_bytes text.new)
            ≡ option_map signed_decimal x) }
    {
        match x {
            Some(x) => {
                let mut buffer = Buffer::new();
                text.push_str(buffer.format(x))?;
                Ok(true)
            }
            None => Ok(false),
        }
    }

    ghost stays = { λ _ _ _ x _ _ _ i. option_map signed_decimal x };
}

/// `True` or `False`.
#[derive(Drop)]
pub(crate) struct TruthWord;

impl TextOp<bool, ()> for TruthWord {
    ghost given = { λ _ _ _ _. Unit {0} };

    ghost written = { λ _ _ x _. option_map truth_text x };

    fn write(
        &self,
        _dict: &TextDict,
        x: Option<bool>,
        _: Option<()>,
        text: &mut String,
    ) -> Result<bool, AllocError>
        requires { string_bytes text.old ≡ [] }
        ensures { IfOk result (λ some. text_if some (string_bytes text.new)
            ≡ option_map truth_text x) }
    {
        match x {
            Some(true) => {
                text.push_str("True")?;
                Ok(true)
            }
            Some(false) => {
                text.push_str("False")?;
                Ok(true)
            }
            None => Ok(false),
        }
    }

    ghost stays = { λ _ _ _ x _ _ _ i. option_map truth_text x };
}

// The number of a row's text.
fn text_row<X, Y, O: TextOp<X, Y>>(
    dict: &mut TextDict,
    op: &O,
    x: Option<X>,
    y: Option<Y>,
    text: &mut String,
) -> Result<Option<TextId>, NoMemory>
    ensures row { IfOk result (IsTextRow dict.new (O.written op.now dict.old x y)) }
    ensures keeps { IsLonger dict.old dict.new }
{
    text.clear();
    if !op.write(dict, x, y, text)? {
        return Ok(None);
    }
    let id = dict.intern(text.as_str())?;
    Ok(Some(id))
}

// Writes the number of each row's text.
fn fill_texts<X, Y, O: TextOp<X, Y>, A: Source<X>, B: Source<Y>>(
    dict: &mut TextDict,
    op: &O,
    a: &A,
    b: &B,
    values: &mut [TextId],
    present: &mut [bool],
    text: &mut String,
) -> Result<(), NoMemory>
    requires values { length values.old ≡ A.count_of a.now }
    requires present { length present.old ≡ A.count_of a.now }
    requires same { A.count_of a.now ≡ B.count_of b.now }
    requires given { (k : ℕ) → k < A.count_of a.now →
        O.given op.now dict.old (A.row_of a.now k) (B.row_of b.now k) }
    ensures written { IfOk result (λ _. AreTexts dict.new
        (λ k. O.written op.now dict.old (A.row_of a.now k) (B.row_of b.now k))
        (A.count_of a.now) values.new present.new) }
    ensures keeps { IsLonger dict.old dict.new }
{
    for row in 0..present.len() {
        let id = text_row(dict, op, a.get(row), b.get(row), text)?;
        present[row] = id.is_some();
        values[row] = id.unwrap_or(TextId(0));
    }
    Ok(())
}

/// The column of each row's text. `NoMemory` leaves each number given with its text.
pub fn text_column<X, Y, O: TextOp<X, Y>, A: Source<X>, B: Source<Y>>(
    alloc: Global,
    dict: &mut TextDict,
    op: &O,
    a: &A,
    b: &B,
) -> Result<Column, NoMemory>
    requires same { A.count_of a.now ≡ B.count_of b.now }
    requires given { (k : ℕ) → k < A.count_of a.now →
        O.given op.now dict.old (A.row_of a.now k) (B.row_of b.now k) }
    ensures cells { IfOk result (λ c. column_value dict.new c
        ≡ record {
          kind = string;
          cells = tabulate (A.count_of a.now)
              (λ k. text_value (O.written op.now dict.old (A.row_of a.now k) (B.row_of b.now k)));
        }) }
    ensures given { IfOk result (λ c. AreGiven dict.new c.cells) }
    ensures keeps { IsLonger dict.old dict.new }
{
    let mut text = String::new(alloc);
    let mut values = vec![in alloc; TextId(0); a.count()]?;
    let mut present = vec![in alloc; false; a.count()]?;
    fill_texts(dict, op, a, b, &mut values, &mut present, &mut text)?;
    Ok(TextId::column(Owned { values, present }))
}
