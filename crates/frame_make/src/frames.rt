// What `pd.DataFrame` makes.
ghost use Rattle.std.specs.Prelude.{◌≡◌, List, All, length, IfOk};
ghost use Rattle.indexmap.specs.IndexMap.{keys};
ghost use Rattle.cell_core.specs.declared.grid.Shape.TheVariants.{Frame};
ghost use Rattle.column_core.specs.cells.Text.{Text as OneText};
ghost use Rattle.frame_store.specs.tables.Settled.{IsSettled};
ghost use Rattle.frame_parts.specs.form.Make as make;
ghost use Rattle.frame_parts.specs.Makes.{MakesBy, blocks_value};
ghost use Rattle.frame_store.specs.Arguments.{entries_of};
ghost use Rattle.frame_store.specs.Objects.{Tables};
ghost use Rattle.frame_store.specs.Parts.{columns_of, IsSingle, HaveRows};
ghost use Rattle.frame_store.specs.Shown.{Makes};
ghost use Rattle.frame_make.specs.Index.{index_given, GivesLevels, IsUnnamed};
ghost use Rattle.frame_make.specs.Pairs.{AreSettledKeys, AreSettledLists, key_headings};
ghost use Rattle.frame_make.specs.Made as meant;

use crate::axes::{bare_axis, index_axis};
use crate::pairs::{last_places, listed_columns};
use cell_core::{Code, Label, NoMemory, Reason, Shape, TextDict};
use frame_store::{Argument, Blocks, Headings, Item, OpFault, Table};
use indexmap::IndexMap;
use multi_index::Axis;
use std::alloc::Global;

// The number of rows that all columns have, if there are columns.
#[tactic(auto, using(crate::proofs::RowLaws::rows_next))]
fn common_rows(columns: &Blocks) -> Result<Option<usize>, OpFault>
    requires { All IsSingle columns.now }
    ensures { (texts : List OneText) → MakesBy meant.rows_seen texts result
        (meant.common_rows (blocks_value texts columns.now)) }
{
    if columns.len() == 0 {
        return Ok(None);
    }
    let rows = columns.at(0).rows();
    for place in 1..columns.len() {
        let got = columns.at(place).rows();
        if got != rows {
            let length = Reason::Length(rows as u64, got as u64);
            return Err(OpFault::Refused(Code::BadValue(length)));
        }
    }
    Ok(Some(rows))
}

// The axis of so many columns, of a number of rows that they have if there are columns.
fn axis_for(
    alloc: Global,
    dict: &TextDict,
    index: Option<&[Item]>,
    rows: Option<usize>,
    columns: usize,
) -> Result<Axis, OpFault>
    requires { GivesLevels index }
    ensures names { IfOk result IsUnnamed }
    ensures labels { (texts : List OneText) → MakesBy meant.axis_labels texts result
        (meant.labels_for rows columns (index_given texts index.entry)) }
{
    match rows {
        Some(rows) => index_axis(alloc, dict, index, rows, columns),
        None => bare_axis(alloc, dict, index),
    }
}

// The axis of these columns.
fn frame_axis(
    alloc: Global,
    dict: &TextDict,
    index: Option<&[Item]>,
    columns: &Blocks,
) -> Result<Axis, OpFault>
    requires single { All IsSingle columns.now }
    requires index { GivesLevels index }
    ensures names { IfOk result IsUnnamed }
    ensures rows { IfOk result (λ axis. HaveRows (length axis.tuples) (columns_of columns.now)) }
    ensures labels { (texts : List OneText) → MakesBy meant.axis_labels texts result
        (meant.frame_labels (blocks_value texts columns.now) (index_given texts index.entry)) }
{
    let rows = common_rows(columns)?;
    axis_for(alloc, dict, index, rows, columns.len())
}

// The keys as the labels of columns.
fn key_headings(alloc: Global, places: &IndexMap<Label, usize>) -> Result<Headings, NoMemory>
    ensures { IfOk result (λ made. made ≡ key_headings (keys places.now)) }
{
    let mut headings = Headings::new(alloc, None);
    for label in places.keys() {
        headings.push(Some(*label))?;
    }
    Ok(headings)
}

// The frame of a dict's pairs.
pub(crate) fn frame_of(
    alloc: Global,
    dict: &TextDict,
    pairs: &[(Label, Argument)],
    index: Option<&[Item]>,
) -> Result<Table, OpFault>
    requires keys { AreSettledKeys dict.now pairs.now }
    requires values { AreSettledLists dict.now pairs.now }
    requires index { IsSettled index_given dict.now index }
    requires levels { GivesLevels index }
    ensures { (live : Tables) → Makes dict.now result (meant.frame_from
        (make.pairs_in (entries_of live dict.now pairs.now))
        (index_given dict.now index.entry)) }
{
    let places = last_places(alloc, dict, pairs)?;
    let columns = listed_columns(alloc, pairs, &places)?;
    let axis = frame_axis(alloc, dict, index, &columns)?;
    let headings = key_headings(alloc, &places)?;
    Ok(Table::new(Shape::Frame, axis, headings, columns))
}
