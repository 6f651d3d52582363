// Rows by their label on one level.
ghost use Rattle.std.specs.Prelude.{◌≡◌, ◌<◌, ◌≤◌, length, IfOk, IfSome};
ghost use Rattle.std.specs.Option.{option_map};
ghost use Rattle.column_core.specs.cells.Cell.{datum, label_datum, IsGiven};
ghost use Rattle.multi_index.specs.pick.Rows.{rows_where};
ghost use Rattle.frame_store.specs.tables.Settled.{IsSettled};
ghost use Rattle.frame_store.specs.tables.Table.{table_value};
ghost use Rattle.frame_store.specs.tables.Valid.{IsWhole};
ghost use Rattle.meaning_method.specs.Section as meant;
ghost use Rattle.frame_store.specs.Parts.{AreRowsOf};
ghost use Rattle.frame_store.specs.Shown.{Makes};
ghost use Rattle.frame_store.specs.World.{IsKnownTable};
ghost use Rattle.frame_labels.specs.Section.{has_number, section_of};

use crate::levels::level_of;
use cell_core::{Cell, Code, Grid, Label, NoMemory, Places, Reason, TextDict, Tuple};
use frame_parts::within_limits;
use frame_select::{chosen_blocks, places_below};
use frame_store::{ObjRef, OpFault, Table, headings_of};
use multi_index::Axis;
use std::alloc::Global;

// The rows that have the label on a level. Texts are told apart by their numbers.
fn rows_with_label(
    alloc: Global,
    axis: &Axis,
    level: usize,
    label: Label,
) -> Result<Places, NoMemory>
    requires { level < length axis.now.names }
    ensures { IfOk result (λ rows. rows ≡ rows_where (has_number level label) 0 axis.now.tuples) }
{
    let mut rows = Places::new(alloc);
    for row in 0..axis.len() {
        if label == axis.label(row, level) {
            rows.push(row)?;
        }
    }
    Ok(rows)
}

// The table of these rows without a level; another one stays.
#[tactic(auto, using(frame_select::proofs::PickedLaws::places_inside))]
fn rows_without_level(
    alloc: Global,
    on: &ObjRef<'_>,
    rows: &Places,
    level: usize,
) -> Result<Table, NoMemory>
    requires whole { IsWhole on.now }
    requires rows { AreRowsOf on.now rows.now }
    requires level { level < length on.now.level_names }
    requires stays { 2 ≤ length on.now.level_names }
    ensures { IfOk result (λ made. made ≡ section_of on.now rows.now level) }
{
    let columns = places_below(alloc, on.columns())?;
    let blocks = chosen_blocks(alloc, on, rows, &columns)?;
    let taken = on.axis().take(alloc, rows)?;
    let axis = taken.drop_level(alloc, level)?;
    let headings = headings_of(alloc, on)?;
    Ok(Table::new(on.shape(), axis, headings, blocks))
}

// The rows that have the label on a level, without that level; another one stays.
#[tactic(auto, using(crate::proofs::Hints::section))]
fn section(
    alloc: Global,
    dict: &TextDict,
    on: &ObjRef<'_>,
    label: Label,
    level: usize,
) -> Result<Table, OpFault>
    requires known { IsKnownTable dict.now on.now }
    requires label { IsSettled label_datum dict.now label }
    requires level { level < length on.now.level_names }
    requires stays { 2 ≤ length on.now.level_names }
    ensures { Makes dict.now result (meant.section
        (table_value dict.now on.now) (label_datum dict.now label) level) }
{
    // Equal texts have equal numbers: `TextDict::len` says so.
    let _ = dict.len();
    let rows = rows_with_label(alloc, on.axis(), level, label)?;
    if rows.len() == 0 {
        return Err(OpFault::Refused(Code::NoKey(Tuple::of(alloc, &[label]))));
    }
    if !within_limits(rows.len(), on.columns()) {
        return Err(OpFault::Refused(Code::Limit));
    }
    Ok(rows_without_level(alloc, on, &rows, level)?)
}

/// The rows that have a label on the level that an argument names, without that level.
///
/// `BadValue` where the rows have one level alone, `WrongKind` of a level that is neither a number nor a
/// text, the refusals of a level that isn't there, `NoKey` where no row has the label, `Limit`. `NoMemory`
/// may come in place of any answer.
pub fn xs(
    alloc: Global,
    dict: &TextDict,
    on: &ObjRef<'_>,
    key: Cell,
    level: Option<Cell>,
) -> Result<Table, OpFault>
    requires known { IsKnownTable dict.now on.now }
    requires key { IsGiven dict.now key }
    requires level { IfSome level (IsGiven dict.now) }
    ensures { Makes dict.now result (meant.xs_result (table_value dict.now on.now)
        (datum dict.now key) (option_map (datum dict.now) level)) }
{
    if on.levels() < 2 {
        return Err(OpFault::Refused(Code::BadValue(Reason::Levels)));
    }
    let level = level_of(alloc, dict, on, level)?;
    section(alloc, dict, on, Label::from(key), level)
}
