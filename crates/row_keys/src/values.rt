// Labels as numbers.
ghost use Rattle.std.specs.Prelude.{◌≡◌, ◌<◌, ◌≤◌, ◌+◌, ◌^◌, ◌-ℤ◌, ◌≤ℤ◌, All, IfOk, IfSome};
ghost use Rattle.std.specs.Int.RustNames.{unsigned_abs};
ghost use Rattle.cell_core.specs.declared.cell.Label.TheVariants as label;
ghost use Rattle.multi_index.specs.index_core.Labels.{same_number};
ghost use Rattle.row_keys.specs.Numbers.{StandFor};
ghost use Rattle.row_keys.specs.Values as valued;

use crate::numbers::Standing;
use crate::rows::KeyRows;
use cell_core::{Label, NoMemory};
use std::alloc::Global;

// What labels may be, so that a whole number tells one from another.
#[derive(Clone, Copy)]
enum Class {
    Truths,
    Whole,
    Texts,
}

// From the least value to the greatest.
#[derive(Clone, Copy)]
struct Span {
    low: i64,
    high: i64,
}

// The class of the first label that isn't NA.
fn class_of<R: KeyRows<Label>>(rows: &R) -> Class {
    for row in 0..rows.count() {
        match rows.key(row) {
            Label::Bool(_) => return Class::Truths,
            Label::Int(_) => return Class::Whole,
            Label::Text(_) => return Class::Texts,
            Label::Na => {}
        }
    }
    Class::Whole
}

// The number of a text as a value.
fn text_value(number: u64) -> Option<i64>
    ensures { result ≡ valued.text_value number }
{
    match i64::try_from(number) {
        Ok(value) => Some(value),
        Err(_) => None,
    }
}

// The value of a label, if it is of the class.
fn value_of(class: Class, label: Label) -> Option<i64>
    ensures { result ≡ valued.value_in class label }
{
    match (class, label) {
        (Class::Truths, Label::Bool(truth)) => Some(truth as i64),
        (Class::Whole, Label::Int(number)) => Some(number),
        (Class::Texts, Label::Text(id)) => text_value(id.0),
        _ => None,
    }
}

// The span with one label more, for which NA counts nothing. `None` where the label is of another class.
fn widened(span: Span, class: Class, label: Label) -> Option<Span>
    ensures low { IfSome result (λ wider. wider.low ≤ℤ span.low) }
    ensures high { IfSome result (λ wider. span.high ≤ℤ wider.high) }
    ensures label { IfSome result (λ wider. valued.IsSpanned class wider.low wider.high label) }
{
    if let Label::Na = label {
        return Some(span);
    }
    let value = value_of(class, label)?;
    Some(Span {
        low: span.low.min(value),
        high: span.high.max(value),
    })
}

// The span of labels of a class, with NA among them or not. `None` where one is of another class.
#[tactic(auto, using(std::proofs::lemmas::List::take_all))]
fn span_of<R: KeyRows<Label>>(rows: &R, class: Class) -> Option<Span>
    ensures { IfSome result (λ span.
        All (valued.IsSpanned class span.low span.high) (R.keys rows.now)) }
{
    let mut span = Span {
        low: i64::MAX,
        high: i64::MIN,
    };
    for row in 0..rows.count() {
        span = widened(span, class, rows.key(row))?;
    }
    Some(span)
}

// The number of a label: one more than how far its value stands from the least, and 0 for NA.
fn number_of(class: Class, low: i64, label: Label) -> u64
    requires { valued.number_in class low label < 2 ^ 64 }
    ensures { result ≡ valued.number_in class low label }
{
    match value_of(class, label) {
        Some(value) => value.abs_diff(low) + 1,
        None => 0,
    }
}

// The numbers of labels of a class within a span.
fn numbers_in<R: KeyRows<Label>>(
    alloc: Global,
    rows: &R,
    class: Class,
    span: Span,
    most: u64,
) -> Result<Standing, NoMemory>
    requires spanned { All (valued.IsSpanned class span.low span.high) (R.keys rows.now) }
    requires most { most ≡ unsigned_abs (span.high -ℤ span.low) + 1 }
    ensures { IfOk result (λ made.
        StandFor same_number label.Na (R.keys rows.now) made.numbers.items) }
{
    let count = rows.count();
    let mut numbers = Vec::with_capacity(alloc, count)?;
    for row in 0..count {
        numbers.push(number_of(class, span.low, rows.key(row)))?;
    }
    Ok(Standing { numbers, most })
}

// Numbers that stand for labels, if these are of one class and 64 bits have room: 0 is NA.
pub(crate) fn label_numbers<R: KeyRows<Label>>(
    alloc: Global,
    rows: &R,
) -> Result<Option<Standing>, NoMemory>
    ensures { IfOk result (λ some. IfSome some (λ made.
        StandFor same_number label.Na (R.keys rows.now) made.numbers.items)) }
{
    let class = class_of(rows);
    let Some(span) = span_of(rows, class) else {
        return Ok(None);
    };
    let Some(most) = span.high.abs_diff(span.low).checked_add(1) else {
        return Ok(None);
    };
    let made = numbers_in(alloc, rows, class, span, most)?;
    Ok(Some(made))
}
