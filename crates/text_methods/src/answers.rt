// Each different text of a column is worked on once.
ghost use Rattle.std.specs.Prelude.{◌≡◌, ◌<◌, ℕ, List, length, Some, IfSome, IfOk};
ghost use Rattle.column_core.specs.cells.Cell.{text_of, datum, IsGiven, AreGiven, IsLonger};
ghost use Rattle.column_core.specs.Columns.{text_cell, column_value};
ghost use Rattle.meaning_text.specs.TextMethod.{TextMethod, points_of, method_value, method_kind, method_column};
ghost use Rattle.text_methods.specs.Rows.{IsMemo, IsRow, AreRows, text_column};

use cell_core::{NoMemory, TextDict, TextId};
use column_core::{Column, Element, Owned, Source};
use std::alloc::Global;

/// What is made of a text.
pub(crate) trait Work<U: Element> {
    ghost method: { Self → TextMethod };

    /// What is made of the text of a number. `text` is room to write a new one, which goes into the dictionary.
    fn make(&self, dict: &mut TextDict, id: TextId, text: &mut String) -> Result<U, NoMemory>
        ensures cell { IfOk result (λ u. datum dict.new (U.cell (Some u))
            ≡ method_value (method self.now) (points_of (text_of dict.old id))) }
        ensures given { IfOk result (λ u. IsGiven dict.new (U.cell (Some u))) }
        ensures keeps { IsLonger dict.old dict.new };

    ghost kind: { (s : Self) → method_kind (Self.method s) ≡ U.kind };
}

// What is made of a row's text: what is remembered of it, or what is made now and remembered.
fn row_made<U: Element, W: Work<U>>(
    dict: &mut TextDict,
    work: &W,
    id: Option<TextId>,
    memo: &mut [Option<U>],
    text: &mut String,
) -> Result<Option<U>, NoMemory>
    requires inside { IfSome id (λ id. id.0 < length memo.old) }
    ensures row { (early : List (List ℕ)) →
        IsMemo U.cell (W.method work.now) early dict.old memo.old →
        IfOk result (IsRow U.cell (W.method work.now) early dict.new id) }
    ensures memo { (early : List (List ℕ)) →
        IsMemo U.cell (W.method work.now) early dict.old memo.old →
        IsMemo U.cell (W.method work.now) early dict.new memo.new }
    ensures keeps { IsLonger dict.old dict.new }
{
    let Some(id) = id else {
        return Ok(None);
    };
    let place = id.0 as usize;
    if let Some(value) = memo[place] {
        return Ok(Some(value));
    }
    let value = work.make(dict, id, text)?;
    memo[place] = Some(value);
    Ok(Some(value))
}

// Writes what is made of each row's text.
fn fill_rows<U: Element, W: Work<U>, A: Source<TextId>>(
    dict: &mut TextDict,
    work: &W,
    a: &A,
    memo: &mut [Option<U>],
    values: &mut [U],
    present: &mut [bool],
    text: &mut String,
) -> Result<(), NoMemory>
    requires values { length values.old ≡ A.count_of a.now }
    requires present { length present.old ≡ A.count_of a.now }
    requires memo { IsMemo U.cell (W.method work.now) dict.old dict.old memo.old }
    requires given { (k : ℕ) → k < A.count_of a.now →
        IsGiven dict.old (text_cell (A.row_of a.now k)) }
    ensures rows { IfOk result (λ _. AreRows U.cell (W.method work.now) dict.old dict.new
        (A.count_of a.now) (A.row_of a.now) values.new present.new) }
    ensures keeps { IsLonger dict.old dict.new }
{
    for row in 0..present.len() {
        let value = row_made(dict, work, a.get(row), memo, text)?;
        present[row] = value.is_some();
        values[row] = value.unwrap_or(U::blank());
    }
    Ok(())
}

/// The column of what is made of each row's text. `NoMemory` leaves each number given with its text.
#[tactic(auto, using(crate::proofs::RowLaws::nothing_yet))]
pub(crate) fn answered<U: Element, W: Work<U>, A: Source<TextId>>(
    alloc: Global,
    dict: &mut TextDict,
    work: &W,
    a: &A,
) -> Result<Column, NoMemory>
    requires given { (k : ℕ) → k < A.count_of a.now →
        IsGiven dict.old (text_cell (A.row_of a.now k)) }
    ensures cells { IfOk result (λ c. column_value dict.new c
        ≡ method_column (W.method work.now)
        (text_column dict.old (A.count_of a.now) (A.row_of a.now)).cells) }
    ensures given { IfOk result (λ c. AreGiven dict.new c.cells) }
    ensures keeps { IsLonger dict.old dict.new }
{
    let mut memo = vec![in alloc; None; dict.len()]?;
    let mut values = vec![in alloc; U::blank(); a.count()]?;
    let mut present = vec![in alloc; false; a.count()]?;
    let mut text = String::new(alloc);
    fill_rows(
        dict,
        work,
        a,
        &mut memo,
        &mut values,
        &mut present,
        &mut text,
    )?;
    Ok(U::column(Owned { values, present }))
}
