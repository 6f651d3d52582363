// Levels that go, or change places with one another.
ghost use Rattle.std.specs.Prelude.{◌≡◌, ◌<◌, List, length, IfOk, IfSome};
ghost use Rattle.std.specs.Option.{option_map};
ghost use Rattle.column_core.specs.cells.Text.{Text as OneText};
ghost use Rattle.column_core.specs.cells.Cell.{datum, label_datum, IsGiven};
ghost use Rattle.column_core.specs.cells.Place.{place_of as level_at};
ghost use Rattle.frame_store.specs.tables.Change.{with_labels};
ghost use Rattle.frame_store.specs.tables.Settled.{IsSettled};
ghost use Rattle.frame_store.specs.tables.Table.{table_value};
ghost use Rattle.frame_store.specs.tables.Valid.{IsWhole};
ghost use Rattle.frame_parts.specs.form.Finish.{limited};
ghost use Rattle.frame_parts.specs.form.Select.{found, place_of_label};
ghost use Rattle.multi_index.specs.pick.Positions.{row_at};
ghost use Rattle.frame_select.specs.select.Keys.{found_pick};
ghost use Rattle.meaning_method.specs.Levels as meant;
ghost use Rattle.frame_parts.specs.Makes.{MakesBy};
ghost use Rattle.frame_store.specs.Derivations.{Derives};
ghost use Rattle.frame_store.specs.Shown.{headings_value};
ghost use Rattle.frame_store.specs.World.{IsKnownTable};
ghost use Rattle.frame_select.specs.Selected.{as_it_is};

use crate::under::under_axis;
use cell_core::{Cell, Code, Grid, Label, Reason, TextDict, Tuple};
use frame_parts::{same_heading, within_limits};
use frame_store::{Derivation, ObjRef, OpFault};
use multi_index::Axis;
use std::alloc::Global;

// The place that a number names among so many levels: from the front, or below 0 from the back.
fn place_of(number: i64, levels: usize) -> Option<usize>
    ensures { result ≡ level_at number levels }
{
    let distance = number.unsigned_abs() as usize;
    if number >= 0 {
        (distance < levels).then_some(distance)
    } else {
        levels.checked_sub(distance)
    }
}

// The level of a number.
fn numbered_level(levels: usize, number: i64) -> Result<usize, OpFault>
    ensures within { IfOk result (λ level. level < levels) }
    ensures answer { (texts : List OneText)
        → MakesBy as_it_is texts result (found_pick (row_at levels number)) }
{
    match place_of(number, levels) {
        Some(level) => Ok(level),
        None => Err(OpFault::Refused(Code::OutOfRange(number, levels as u64))),
    }
}

// The first level of the name.
#[tactic(auto, using(crate::proofs::Hints::place_of_name))]
fn place_of_name(dict: &TextDict, on: &ObjRef<'_>, name: Label) -> Option<usize>
    requires names { IsSettled headings_value dict.now on.now.level_names }
    requires name { IsSettled label_datum dict.now name }
    ensures place { result ≡ place_of_label (headings_value dict.now on.now.level_names)
        (label_datum dict.now name) }
    ensures within { IfSome result (λ level. level < length on.now.level_names) }
{
    let axis = on.axis();
    for level in 0..axis.levels() {
        if same_heading(dict, Some(name), axis.name(level)) {
            return Some(level);
        }
    }
    None
}

// The first level of the name, or `NoKey` where no level has it.
fn named_level(
    alloc: Global,
    dict: &TextDict,
    on: &ObjRef<'_>,
    name: Label,
) -> Result<usize, OpFault>
    requires names { IsSettled headings_value dict.now on.now.level_names }
    requires name { IsSettled label_datum dict.now name }
    ensures within { IfOk result (λ level. level < length on.now.level_names) }
    ensures answer { let name = label_datum dict.now name in
        MakesBy as_it_is dict.now result
        (found name (place_of_label (headings_value dict.now on.now.level_names) name)) }
{
    match place_of_name(dict, on, name) {
        Some(level) => Ok(level),
        None => Err(OpFault::Refused(Code::NoKey(Tuple::of(alloc, &[name])))),
    }
}

/// The level that an argument names: by its number, or by its name, which a text alone can be.
///
/// `WrongKind` of a level that is neither a number nor a text, `OutOfRange` of a number without a level, `NoKey` of a name
/// that no level has. `NoMemory` never comes.
pub fn level_of(
    alloc: Global,
    dict: &TextDict,
    on: &ObjRef<'_>,
    argument: Option<Cell>,
) -> Result<usize, OpFault>
    requires known { IsKnownTable dict.now on.now }
    requires given { IfSome argument (IsGiven dict.now) }
    ensures within { IfOk result (λ level. level < length on.now.level_names) }
    ensures answer { MakesBy as_it_is dict.now result
        (meant.level_of (table_value dict.now on.now) (option_map (datum dict.now) argument)) }
{
    match argument {
        Some(Cell::Int(number)) => numbered_level(on.levels(), number),
        Some(Cell::Text(id)) => named_level(alloc, dict, on, Label::Text(id)),
        _ => Err(OpFault::Refused(Code::WrongKind)),
    }
}

// All of the table under another axis, unless it is beyond the limits.
fn under_within(alloc: Global, on: &ObjRef<'_>, axis: Axis) -> Result<Derivation, OpFault>
    requires whole { IsWhole on.now }
    requires rows { length axis.tuples ≡ length on.now.labels }
    ensures { let made = with_labels on.now axis.tuples axis.names in
        (texts : List OneText) → IsSettled table_value texts made
        → Derives texts on.now result (limited (table_value texts made)) }
{
    if !within_limits(on.rows(), on.columns()) {
        return Err(OpFault::Refused(Code::Limit));
    }
    Ok(under_axis(alloc, on, axis)?)
}

// All of the table without a level; another one must stay.
fn without_level(alloc: Global, on: &ObjRef<'_>, level: usize) -> Result<Derivation, OpFault>
    requires whole { IsWhole on.now }
    requires level { level < length on.now.level_names }
    ensures { (texts : List OneText) → IsSettled table_value texts on.now
        → Derives texts on.now result (meant.level_gone (table_value texts on.now) level) }
{
    if on.levels() < 2 {
        return Err(OpFault::Refused(Code::BadValue(Reason::Levels)));
    }
    let axis = on.axis().drop_level(alloc, level)?;
    under_within(alloc, on, axis)
}

// All of the table with two levels exchanged, each with its name.
fn with_swapped(alloc: Global, on: &ObjRef<'_>, i: usize, j: usize) -> Result<Derivation, OpFault>
    requires whole { IsWhole on.now }
    requires first { i < length on.now.level_names }
    requires second { j < length on.now.level_names }
    ensures { (texts : List OneText) → IsSettled table_value texts on.now
        → Derives texts on.now result
        (limited (meant.levels_swapped (table_value texts on.now) i j)) }
{
    let axis = on.axis().swap_levels(alloc, i, j)?;
    under_within(alloc, on, axis)
}

/// All of the table without the level that an argument names.
///
/// `WrongKind` of a level that is neither a number nor a text, the refusals of a level that isn't there,
/// `BadValue` where none would stay, `Limit`. `NoMemory` may come in place of any answer.
pub fn drop_level(
    alloc: Global,
    dict: &TextDict,
    on: &ObjRef<'_>,
    argument: Option<Cell>,
) -> Result<Derivation, OpFault>
    requires known { IsKnownTable dict.now on.now }
    requires given { IfSome argument (IsGiven dict.now) }
    ensures { Derives dict.now on.now result (meant.droplevel_result (table_value dict.now on.now)
        (option_map (datum dict.now) argument)) }
{
    let level = level_of(alloc, dict, on, argument)?;
    without_level(alloc, on, level)
}

/// All of the table with the two levels exchanged that the arguments name.
///
/// `WrongKind` of a level that is neither a number nor a text, the refusals of a level that isn't there,
/// `Limit`. `NoMemory` may come in place of any answer.
pub fn swap_levels(
    alloc: Global,
    dict: &TextDict,
    on: &ObjRef<'_>,
    first: Option<Cell>,
    second: Option<Cell>,
) -> Result<Derivation, OpFault>
    requires known { IsKnownTable dict.now on.now }
    requires first { IfSome first (IsGiven dict.now) }
    requires second { IfSome second (IsGiven dict.now) }
    ensures { Derives dict.now on.now result (meant.swaplevel_result (table_value dict.now on.now)
        (option_map (datum dict.now) first) (option_map (datum dict.now) second)) }
{
    let i = level_of(alloc, dict, on, first)?;
    let j = level_of(alloc, dict, on, second)?;
    with_swapped(alloc, on, i, j)
}
