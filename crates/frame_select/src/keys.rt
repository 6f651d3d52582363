// The forms of keys, which are tested before anything is looked up.
ghost use Rattle.std.specs.Prelude.{◌≡◌, ◌≤◌, ◌∷◌, [], ℕ, List, take, length, IfOk, IfSome};
ghost use Rattle.std.specs.Option.{option_map};
ghost use Rattle.column_core.specs.cells.Text.{Text as OneText};
ghost use Rattle.column_core.specs.cells.Cell.{datum};
ghost use Rattle.frame_store.specs.tables.Table.{tuple_value};
ghost use Rattle.frame_parts.specs.form.Finish.{try_all};
ghost use Rattle.meaning_charge.specs.select.Keys as meant;
ghost use Rattle.cell_core.specs.Values as labels;
ghost use Rattle.frame_parts.specs.Makes.{MakesBy};
ghost use Rattle.multi_index.specs.Axes.{HaveLevels, AreLeading};
ghost use Rattle.indexers.specs.Keys.{FitsLevels};
ghost use Rattle.frame_store.specs.Shown.{cells_value};
ghost use Rattle.frame_store.specs.Objects.{Tables};
ghost use Rattle.frame_store.specs.Arguments.{item_of, argument_of, subscript_of, items_of, IsLiveSubscript};
ghost use Rattle.frame_select.specs.Reaches.{accessor_of, label_key_value, bound_value, tuples_value, place_key_value, labels_in, scalar_tuple, label_alone, full_tuple, whole_or_fault};
ghost use Rattle.frame_select.specs.Selected.{as_it_is};

use crate::subscripts::scalars_alone;
use cell_core::{Cell, Cells, Label, Tuple, Tuples};
use frame_parts::wrong_kind;
use frame_store::{Argument, Item, Items, OpFault, Selector, Subscript, Value};
use indexers::{LocKey, PosKey, Positions};
use std::alloc::Global;

// The tuple of one label.
fn single_label(alloc: Global, cell: Cell) -> Tuple
    ensures { result ≡ labels.label_of cell ∷ [] }
{
    Tuple::of(alloc, &[Label::from(cell)])
}

// The labels of scalars alone, in front of missing ones.
fn scalar_labels(items: &[Item]) -> Option<[Label; 4]>
    requires { length items.now ≤ 4 }
    ensures { (live : Tables) (texts : List OneText)
        → option_map (λ labels. tuple_value texts (take (length items.now) labels)) result
        ≡ labels_in (items_of live texts items.now) }
{
    let mut labels = [Label::Na; 4];
    for k in 0..items.len() {
        match items[k].scalar() {
            Some(cell) => labels[k] = Label::from(cell),
            None => return None,
        }
    }
    Some(labels)
}

// The tuple of scalars alone.
fn tuple_of(alloc: Global, items: &[Item]) -> Result<Tuple, OpFault>
    requires some { 1 ≤ length items.now }
    requires few { length items.now ≤ 4 }
    ensures labels { (live : Tables) (texts : List OneText) → MakesBy tuple_value texts result
        (scalar_tuple (items_of live texts items.now)) }
    ensures count { IfOk result (λ key. length key ≡ length items.now) }
{
    match scalar_labels(items) {
        Some(labels) => Ok(Tuple::of(alloc, &labels[..items.len()])),
        None => Err(wrong_kind()),
    }
}

// The leading labels that a tuple names: of at least one level, and at most so many.
#[tactic(auto, using(crate::proofs::KeyLaws::count_items))]
fn leading_labels(alloc: Global, levels: usize, items: &[Item]) -> Result<Tuple, OpFault>
    requires { levels ≤ 4 }
    ensures labels { (live : Tables) (texts : List OneText) → MakesBy tuple_value texts result
        (meant.tuple_label levels (items_of live texts items.now)) }
    ensures leading { IfOk result (AreLeading levels) }
{
    if items.len() == 0 || items.len() > levels {
        return Err(wrong_kind());
    }
    tuple_of(alloc, items)
}

// The labels of all levels, of which a tuple has one for each.
#[tactic(auto, using(crate::proofs::KeyLaws::count_items))]
fn full_labels(alloc: Global, levels: usize, items: &[Item]) -> Result<Tuple, OpFault>
    requires some { 1 ≤ levels }
    requires few { levels ≤ 4 }
    ensures labels { (live : Tables) (texts : List OneText) → MakesBy tuple_value texts result
        (full_tuple levels (items_of live texts items.now)) }
    ensures full { IfOk result (λ key. length key ≡ levels) }
{
    if items.len() != levels {
        return Err(wrong_kind());
    }
    tuple_of(alloc, items)
}

// The label that a scalar is, where there is one level.
fn lone_label(alloc: Global, levels: usize, cell: Cell) -> Result<Tuple, OpFault>
    ensures label { (texts : List OneText) → MakesBy tuple_value texts result
        (label_alone levels (datum texts cell)) }
    ensures full { IfOk result (λ key. length key ≡ levels) }
{
    if levels != 1 {
        return Err(wrong_kind());
    }
    Ok(single_label(alloc, cell))
}

// An item of a list of keys.
#[tactic(auto, using(crate::proofs::Hints::whole_item))]
fn whole_item(alloc: Global, levels: usize, item: &Item) -> Result<Tuple, OpFault>
    requires some { 1 ≤ levels }
    requires few { levels ≤ 4 }
    ensures labels { (live : Tables) (texts : List OneText) → MakesBy tuple_value texts result
        (meant.whole_item levels (item_of live texts item.now)) }
    ensures full { IfOk result (λ key. length key ≡ levels) }
{
    match item {
        Item::One(Value::Scalar(cell)) => lone_label(alloc, levels, *cell),
        Item::One(Value::Object(_)) => Err(wrong_kind()),
        Item::Row(items) => {
            if levels == 1 {
                return Err(wrong_kind());
            }
            full_labels(alloc, levels, items.as_slice())
        }
    }
}

/// The tuples of labels that the items of a list are, for an axis of so many levels: scalars on one level, and on several
/// tuples with a label for each.
///
/// # Errors
///
/// `WrongKind` of any other item. `NoMemory` may come in place of any answer.
pub fn listed_keys(alloc: Global, levels: usize, items: &[Item]) -> Result<Tuples, OpFault>
    requires some { 1 ≤ levels }
    requires few { levels ≤ 4 }
    ensures labels { (live : Tables) (texts : List OneText) → MakesBy tuples_value texts result
        (meant.whole_items levels (items_of live texts items.now)) }
    ensures full { IfOk result (HaveLevels levels) }
{
    let mut made = Tuples::new(alloc);
    for item in items {
        made.push(whole_item(alloc, levels, item)?)?;
    }
    Ok(made)
}

// An end of a slice of labels.
fn label_bound(alloc: Global, levels: usize, bound: &Argument) -> Result<Option<Tuple>, OpFault>
    requires some { 1 ≤ levels }
    requires few { levels ≤ 4 }
    ensures bound { (live : Tables) (texts : List OneText) → MakesBy bound_value texts result
        (meant.label_bound levels (argument_of live texts bound.now)) }
    ensures leading { IfOk result (λ bound. IfSome bound (AreLeading levels)) }
{
    match bound {
        Argument::Nothing => Ok(None),
        Argument::One(Value::Scalar(cell)) => Ok(Some(single_label(alloc, *cell))),
        Argument::Row(items) => Ok(Some(leading_labels(alloc, levels, items.as_slice())?)),
        _ => Err(wrong_kind()),
    }
}

// A slice of labels between two bounds.
fn span_between(lower: Option<Tuple>, upper: Option<Tuple>) -> LocKey
    ensures key { (texts : List OneText) → label_key_value texts result
        ≡ meant.span_between (bound_value texts lower) (bound_value texts upper) }
    ensures fits { (levels : ℕ) → IfSome lower (AreLeading levels) → IfSome upper (AreLeading levels)
        → FitsLevels levels result }
{
    match (lower, upper) {
        (None, None) => LocKey::All,
        (lower, upper) => LocKey::Span(lower, upper),
    }
}

// A slice of labels without a step.
fn label_span(
    alloc: Global,
    levels: usize,
    from: &Argument,
    to: &Argument,
) -> Result<LocKey, OpFault>
    requires some { 1 ≤ levels }
    requires few { levels ≤ 4 }
    ensures key { (live : Tables) (texts : List OneText) → MakesBy label_key_value texts result
        (meant.label_span levels (argument_of live texts from.now) (argument_of live texts to.now)) }
    ensures fits { IfOk result (FitsLevels levels) }
{
    let lower = label_bound(alloc, levels, from)?;
    let upper = label_bound(alloc, levels, to)?;
    Ok(span_between(lower, upper))
}

// A key by label, on so many levels.
pub(crate) fn label_key(alloc: Global, levels: usize, key: &Subscript) -> Result<LocKey, OpFault>
    requires some { 1 ≤ levels }
    requires few { levels ≤ 4 }
    ensures key { (live : Tables) (texts : List OneText) → MakesBy label_key_value texts result
        (meant.label_key levels (subscript_of live texts key.now)) }
    ensures fits { IfOk result (FitsLevels levels) }
{
    match key {
        Subscript::Key(Argument::One(Value::Scalar(cell))) => {
            Ok(LocKey::One(single_label(alloc, *cell)))
        }
        Subscript::Key(Argument::Row(items)) => {
            Ok(LocKey::One(leading_labels(alloc, levels, items.as_slice())?))
        }
        Subscript::Key(Argument::Many(items)) => {
            Ok(LocKey::Many(listed_keys(alloc, levels, items.as_slice())?))
        }
        Subscript::Span(from, to, Argument::Nothing) => label_span(alloc, levels, from, to),
        _ => Err(wrong_kind()),
    }
}

// The key of `at` and `iat`: a scalar on one level, or a tuple with a label for each level.
pub(crate) fn whole_key(alloc: Global, levels: usize, key: &Subscript) -> Result<Tuple, OpFault>
    requires some { 1 ≤ levels }
    requires few { levels ≤ 4 }
    ensures labels { (live : Tables) (texts : List OneText) → MakesBy tuple_value texts result
        (meant.whole_key levels (subscript_of live texts key.now)) }
    ensures full { IfOk result (λ key. length key ≡ levels) }
{
    match key {
        Subscript::Key(Argument::One(Value::Scalar(cell))) => lone_label(alloc, levels, *cell),
        Subscript::Key(Argument::Row(items)) => full_labels(alloc, levels, items.as_slice()),
        _ => Err(wrong_kind()),
    }
}

// Whether an accessor takes tuples of labels.
fn takes_tuple(by: Selector) -> bool
    ensures { result ≡ meant.takes_tuple (accessor_of by) }
{
    match by {
        Selector::Plain => true,
        Selector::Loc => true,
        Selector::Iloc => false,
        Selector::At => true,
        Selector::Iat => false,
    }
}

// The scalar that a key is.
fn scalar_key(key: &Subscript) -> Option<Cell>
    ensures { (live : Tables) (texts : List OneText) → option_map (datum texts) result
        ≡ meant.scalar_of_key (subscript_of live texts key.now) }
{
    match key {
        Subscript::Key(argument) => argument.scalar(),
        Subscript::Span(_, _, _) => None,
    }
}

/// The tuple that two keys of a Series are: two scalars, in `loc` and `at`, where there are several levels.
///
/// # Errors
///
/// `WrongKind` of all else. `NoMemory` may come in place of any answer.
pub fn joined_key(
    alloc: Global,
    by: Selector,
    levels: usize,
    first: &Subscript,
    second: &Subscript,
) -> Result<Subscript, OpFault>
    ensures key { (live : Tables) (texts : List OneText) → MakesBy (subscript_of live) texts result
        (meant.joined_key (accessor_of by) levels (subscript_of live texts first.now)
        (subscript_of live texts second.now)) }
    ensures live { (live : Tables) → IfOk result (IsLiveSubscript live) }
{
    if !takes_tuple(by) || levels < 2 {
        return Err(wrong_kind());
    }
    match (scalar_key(first), scalar_key(second)) {
        (Some(first), Some(second)) => {
            let mut labels = Items::new(alloc);
            labels.push(Item::One(Value::Scalar(first)))?;
            labels.push(Item::One(Value::Scalar(second)))?;
            Ok(Subscript::Key(Argument::Row(labels)))
        }
        _ => Err(wrong_kind()),
    }
}

// An end or the step of a slice by position.
fn position_bound(bound: &Argument) -> Result<Option<i64>, OpFault>
    ensures { (live : Tables) (texts : List OneText) → MakesBy as_it_is texts result
        (meant.place_bound (argument_of live texts bound.now)) }
{
    match bound {
        Argument::Nothing => Ok(None),
        Argument::One(Value::Scalar(Cell::Int(position))) => Ok(Some(*position)),
        _ => Err(wrong_kind()),
    }
}

// The whole number that a cell is.
fn whole_of(cell: Cell) -> Option<i64>
    ensures { (texts : List OneText) → meant.whole_cell (datum texts cell) ≡ whole_or_fault result }
{
    match cell {
        Cell::Int(number) => Some(number),
        Cell::Bool(_) => None,
        Cell::Text(_) => None,
        Cell::Na => None,
    }
}

// The whole numbers that all these cells are.
fn wholes_of(alloc: Global, cells: &Cells) -> Result<Positions, OpFault>
    ensures { (texts : List OneText) → MakesBy as_it_is texts result
        (try_all meant.whole_cell (cells_value texts cells.now)) }
{
    let mut numbers = Positions::new(alloc);
    for k in 0..cells.len() {
        match whole_of(*cells.at(k)) {
            Some(number) => numbers.push(number)?,
            None => return Err(wrong_kind()),
        }
    }
    Ok(numbers)
}

// The whole numbers of a list.
fn positions_of(alloc: Global, items: &[Item]) -> Result<Positions, OpFault>
    ensures { (live : Tables) (texts : List OneText) → MakesBy as_it_is texts result
        (meant.positions_in (items_of live texts items.now)) }
{
    match scalars_alone(alloc, items)? {
        Some(cells) => wholes_of(alloc, &cells),
        None => Err(wrong_kind()),
    }
}

// A key by position.
pub(crate) fn position_key(alloc: Global, key: &Subscript) -> Result<PosKey, OpFault>
    ensures { (live : Tables) (texts : List OneText) → MakesBy place_key_value texts result
        (meant.place_key (subscript_of live texts key.now)) }
{
    match key {
        Subscript::Key(Argument::One(Value::Scalar(Cell::Int(position)))) => {
            Ok(PosKey::One(*position))
        }
        Subscript::Key(Argument::Many(items)) => {
            Ok(PosKey::Many(positions_of(alloc, items.as_slice())?))
        }
        Subscript::Span(from, to, by) => {
            let from = position_bound(from)?;
            let to = position_bound(to)?;
            Ok(PosKey::Span(from, to, position_bound(by)?))
        }
        _ => Err(wrong_kind()),
    }
}
