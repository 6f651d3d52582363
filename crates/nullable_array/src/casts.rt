// Casts of columns.
ghost use Rattle.std.specs.Prelude.{◌≡◌, ◌<◌, ℕ, List, true, false, Option, Some, None, IfOk, reverse};
ghost use Rattle.cell_core.specs.declared.cell.Kind.TheVariants.{Int64, Boolean};
ghost use Rattle.column_core.specs.cells.Cell.{datum, text_of, AreGiven, IsLonger};
ghost use Rattle.column_core.specs.cells.Column.{column_of, not_cast};
ghost use Rattle.column_core.specs.cells.Cast.{after_spaces, without_spaces, numeral_value, whole_number, truth_value, truth_of_number, number_of_truth, cast_column};
ghost use Rattle.column_core.specs.Columns.{column_value, column_with, truth_cell};
ghost use Rattle.column_core.specs.Views.{borrowed_column};
ghost use Rattle.column_core.specs.Rows.{try_rows, map_rows};
ghost use Rattle.nullable_array.specs.Answers.{Answers};
ghost use Rattle.nullable_array.specs.Casts.{total_cast, partial_cast, total_pair};

use crate::ops::ArrayFault;
use crate::pairs::{PairOp, Side, by_sides};
use crate::texts::{Decimal, TruthWord, text_column};
use cell_core::{Kind, TextDict, TextId};
use column_core::{
    Borrowed, ColRef, Column, Element, Lane, Nothing, Plain, RowFault, RowOp, Source, by_rows,
    copied_lane,
};
use std::alloc::Global;

/// 1 for True, 0 for False.
#[derive(Drop)]
struct NumberOfTruth;

impl RowOp<bool, (), i64> for NumberOfTruth {
    ghost row_of = { λ _ x _. total_cast number_of_truth x };

    #[inline(always)]
    fn row(&self, x: Option<bool>, _: Option<()>) -> Option<Option<i64>>
        ensures { result ≡ total_cast number_of_truth x }
    {
        match x {
            Some(true) => Some(Some(1)),
            Some(false) => Some(Some(0)),
            None => Some(None),
        }
    }
}

impl PairOp<bool, (), i64> for NumberOfTruth {
    ghost flag_of = { λ _ _ p _ _. p };

    ghost value_of = { λ _ x _ _ _. number_of_truth x };

    #[inline(always)]
    fn flag(&self, _: bool, p: bool, _: (), _: bool) -> bool {
        p
    }

    #[inline(always)]
    fn value(&self, x: bool, _: bool, _: (), _: bool) -> i64
        ensures { result ≡ number_of_truth x }
    {
        if x { 1 } else { 0 }
    }

    ghost row_is = { λ _ x p _ _. total_pair number_of_truth x p };
}

/// True for 1, False for 0; no other number is a truth value.
#[derive(Drop)]
struct TruthOfNumber;

impl RowOp<i64, (), bool> for TruthOfNumber {
    ghost row_of = { λ _ x _. partial_cast truth_of_number x };

    #[inline(always)]
    fn row(&self, x: Option<i64>, _: Option<()>) -> Option<Option<bool>>
        ensures { result ≡ partial_cast truth_of_number x }
    {
        match x {
            Some(0) => Some(Some(false)),
            Some(1) => Some(Some(true)),
            Some(_) => None,
            None => Some(None),
        }
    }
}

/// The whole number that a text is.
#[derive(Drop)]
struct NumberOfText<'a> {
    dict: &'a TextDict,
}

impl RowOp<TextId, (), i64> for NumberOfText<'_> {
    ghost row_of = { λ s x _. partial_cast (λ id. whole_number (text_of s.dict.now id)) x };

    fn row(&self, x: Option<TextId>, _: Option<()>) -> Option<Option<i64>>
        ensures { result ≡ partial_cast (λ id. whole_number (text_of self.now.dict.now id)) x }
    {
        match x {
            Some(id) => match number_of_text(self.dict.text(id)) {
                Some(number) => Some(Some(number)),
                None => None,
            },
            None => Some(None),
        }
    }
}

/// The truth value that a text is.
#[derive(Drop)]
struct TruthOfText<'a> {
    dict: &'a TextDict,
}

impl RowOp<TextId, (), bool> for TruthOfText<'_> {
    ghost row_of = { λ s x _. partial_cast (λ id. truth_value (text_of s.dict.now id)) x };

    fn row(&self, x: Option<TextId>, _: Option<()>) -> Option<Option<bool>>
        ensures { result ≡ partial_cast (λ id. truth_value (text_of self.now.dict.now id)) x }
    {
        match x {
            Some(id) => match truth_of_text(self.dict.text(id)) {
                Some(truth) => Some(Some(truth)),
                None => None,
            },
            None => Some(None),
        }
    }
}

/// The whole number of 64 bits that a text is: a sign, which may be missing, and digits, with spaces at both ends left
/// out. Takes no memory.
#[tactic(auto, using(crate::proofs::SpaceLaws::nothing_left_out))]
pub fn number_of_text(text: &str) -> Option<i64>
    ensures { result ≡ whole_number text.now }
{
    let bytes = trimmed(text.as_bytes());
    if bytes.len() == text.len() {
        // No space was left out, and that the whole text is UTF-8 is known.
        return number_of_numeral(text);
    }
    number_of_bytes(bytes)
}

#[tactic(auto, using(crate::proofs::Hints::number_of_numeral))]
fn number_of_numeral(text: &str) -> Option<i64>
    ensures { result ≡ numeral_value text.now }
{
    match text.parse::<i64>() {
        Ok(number) => Some(number),
        Err(_) => None,
    }
}

#[tactic(auto, using(crate::proofs::CastLaws::numeral_no_text))]
fn number_of_bytes(bytes: &[u8]) -> Option<i64>
    ensures { result ≡ numeral_value bytes.now }
{
    match str::from_utf8(bytes) {
        Ok(text) => number_of_numeral(text),
        Err(_) => None,
    }
}

fn trimmed(bytes: &[u8]) -> &[u8]
    ensures { result.now ≡ without_spaces bytes.now }
{
    trimmed_end(trimmed_start(bytes))
}

fn trimmed_start(bytes: &[u8]) -> &[u8]
    ensures { result.now ≡ after_spaces bytes.now }
{
    let mut rest = bytes;
    'skipping: while let [first, more @ ..] = rest {
        if *first != b' ' {
            return rest;
        }
        rest = more;
    }
    rest
}

fn trimmed_end(bytes: &[u8]) -> &[u8]
    ensures { result.now ≡ reverse (after_spaces (reverse bytes.now)) }
{
    let mut rest = bytes;
    'skipping: while let [more @ .., last] = rest {
        if *last != b' ' {
            return rest;
        }
        rest = more;
    }
    rest
}

/// The truth value that a text is: `True`, `TRUE` or `true`, or `False`, `FALSE` or `false`. Takes no memory.
pub fn truth_of_text(text: &str) -> Option<bool>
    ensures { result ≡ truth_value text.now }
{
    if text == "True" || text == "TRUE" || text == "true" {
        Some(true)
    } else if text == "False" || text == "FALSE" || text == "false" {
        Some(false)
    } else {
        None
    }
}

// The column that a cast makes.
fn convert<X, U: Plain, O: RowOp<X, (), U>, A: Source<X>>(
    alloc: Global,
    op: &O,
    a: &A,
) -> Result<Column, ArrayFault>
    requires { (k : ℕ) → k < A.count_of a.now → O.takes op.now (A.row_of a.now k) None }
    ensures given { IfOk result (λ c. (texts : List (List ℕ)) → AreGiven texts c.cells) }
    ensures answer { (texts : List (List ℕ)) → Answers texts result
        (column_of U.kind not_cast
        (map_rows (λ z. datum texts (U.cell z))
        (try_rows (A.count_of a.now) (λ k. O.row_of op.now (A.row_of a.now k) None)))) }
{
    match by_rows(alloc, op, U::blank(), a, &Nothing { count: a.count() }) {
        Ok(rows) => Ok(U::column(rows)),
        Err(RowFault::Row(row)) => Err(ArrayFault::NotCast(row)),
        Err(RowFault::Memory) => Err(ArrayFault::NoMemory),
    }
}

/// The cells as cells of a kind; NA stays. A whole number becomes its decimal text, a truth value `True` or
/// `False`, 1 or 0, and a text the number or truth value that it is.
///
/// `NotCast` comes exactly where a present cell can't be cast, with the first such row. `NoMemory` may come in
/// place of any answer; each number that the dictionary had given keeps its text then too.
pub fn cast(
    alloc: Global,
    dict: &mut TextDict,
    a: ColRef<'_>,
    kind: Kind,
) -> Result<Column, ArrayFault>
    requires { AreGiven dict.old a.cells }
    ensures keeps { IsLonger dict.old dict.new }
    ensures given { IfOk result (λ c. AreGiven dict.new c.cells) }
    ensures answer { Answers dict.new result (cast_column kind (column_value dict.old a.entry)) }
{
    match &a.lanes {
        Borrowed::Ints(lane) => cast_numbers(alloc, dict, lane, kind),
        Borrowed::Truths(lane) => cast_truths(alloc, dict, lane, kind),
        Borrowed::Texts(lane) => cast_texts(alloc, dict, lane, kind),
    }
}

fn cast_numbers(
    alloc: Global,
    dict: &mut TextDict,
    a: &Lane<'_, i64>,
    kind: Kind,
) -> Result<Column, ArrayFault>
    ensures keeps { IsLonger dict.old dict.new }
    ensures given { IfOk result (λ c. AreGiven dict.new c.cells) }
    ensures answer { Answers dict.new result
        (cast_column kind (column_value dict.old (borrowed_column (Borrowed.Ints a.now)))) }
{
    match kind {
        Kind::Int64 => Ok(copied_lane(alloc, a)?),
        Kind::Boolean => convert(alloc, &TruthOfNumber, a),
        Kind::Text => Ok(text_column(alloc, dict, &Decimal, a, &Nothing { count: a.count })?),
    }
}

// 1 for each True, 0 for each False.
fn numbers_of_truths(alloc: Global, a: &Lane<'_, bool>) -> Result<Column, ArrayFault>
    ensures given { IfOk result (λ c. (texts : List (List ℕ)) → AreGiven texts c.cells) }
    ensures answer { (texts : List (List ℕ)) →
        Answers texts result
        (cast_column Int64 (column_value texts (borrowed_column (Borrowed.Truths a.now)))) }
{
    match a.dense() {
        Some(side) => numbers_of_side(alloc, side),
        None => convert(alloc, &NumberOfTruth, a),
    }
}

fn numbers_of_side<A: Side<bool>>(alloc: Global, a: A) -> Result<Column, ArrayFault>
    ensures given { IfOk result (λ c. (texts : List (List ℕ)) → AreGiven texts c.cells) }
    ensures answer { (texts : List (List ℕ)) → Answers texts result (cast_column Int64
        (column_value texts (column_with Boolean truth_cell (A.count_of a) (A.row_of a)))) }
{
    let nothing = Nothing { count: a.count() };
    let rows = by_sides(alloc, &NumberOfTruth, a, nothing)?;
    Ok(i64::column(rows))
}

fn cast_truths(
    alloc: Global,
    dict: &mut TextDict,
    a: &Lane<'_, bool>,
    kind: Kind,
) -> Result<Column, ArrayFault>
    ensures keeps { IsLonger dict.old dict.new }
    ensures given { IfOk result (λ c. AreGiven dict.new c.cells) }
    ensures answer { Answers dict.new result
        (cast_column kind (column_value dict.old (borrowed_column (Borrowed.Truths a.now)))) }
{
    match kind {
        Kind::Int64 => numbers_of_truths(alloc, a),
        Kind::Boolean => Ok(copied_lane(alloc, a)?),
        Kind::Text => Ok(text_column(alloc, dict, &TruthWord, a, &Nothing { count: a.count })?),
    }
}

fn cast_texts(
    alloc: Global,
    dict: &TextDict,
    a: &Lane<'_, TextId>,
    kind: Kind,
) -> Result<Column, ArrayFault>
    requires { AreGiven dict.now (borrowed_column (Borrowed.Texts a.now)).cells }
    ensures given { IfOk result (λ c. AreGiven dict.now c.cells) }
    ensures answer { Answers dict.now result
        (cast_column kind (column_value dict.now (borrowed_column (Borrowed.Texts a.now)))) }
{
    match kind {
        Kind::Int64 => convert(alloc, &NumberOfText { dict }, a),
        Kind::Boolean => convert(alloc, &TruthOfText { dict }, a),
        Kind::Text => Ok(copied_lane(alloc, a)?),
    }
}
