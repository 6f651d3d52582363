// The frame of rows that are spread over columns.
ghost use Rattle.std.specs.Prelude.{◌≡◌, ◌<◌, ◌≤◌, ◌*◌, ℕ, List, length, map, All, IfOk};
ghost use Rattle.cell_core.specs.declared.cell.Label.{Label as OneLabel};
ghost use Rattle.column_core.specs.cells.Cell.{AreGiven};
ghost use Rattle.frame_store.specs.tables.Settled.{IsSettled};
ghost use Rattle.frame_store.specs.tables.Table.{heading_value, column_value};
ghost use Rattle.reshape.specs.shapes.Reshape as reshape_meant;
ghost use Rattle.reshape.specs.row_keys.Keys.{same_tuple};
ghost use Rattle.frame_parts.specs.label_align.Tuples.{tuple_less};
ghost use Rattle.frame_labels.specs.method.Reshape as meant;
ghost use Rattle.reshape.specs.Answers.{Unstacks, spread_value};
ghost use Rattle.frame_store.specs.Parts.{columns_of, table_column, IsSingle};
ghost use Rattle.frame_store.specs.Shown.{headings_value, labels_value, Makes};
ghost use Rattle.frame_reshape.specs.Spreads as words;
ghost use Rattle.frame_reshape.specs.Spreads.{IsSpreadOf, AreEntries};

use crate::checks::refusal_of;
use cell_core::{Gaps, Label, NoMemory, Shape, TextDict};
use column_core::{ColRef, take};
use frame_labels::named_axis;
use frame_select::heading_list;
use frame_store::{Blocks, OpFault, Table};
use multi_index::Axis;
use reshape::{ReshapeFault, Spread};
use std::alloc::Global;

// The labels of the columns.
#[tactic(auto, using(crate::proofs::SpreadLoops::first_labels))]
fn spread_labels(alloc: Global, spread: &Spread) -> Result<Vec<Option<Label>>, NoMemory>
    requires { (rows levels : ℕ) × IsSpreadOf rows levels (spread_value spread.now) }
    ensures { IfOk result (λ labels. labels.items
        ≡ words.spread_labels (spread_value spread.now)) }
{
    let mut labels = Vec::new(alloc);
    for column in 0..spread.columns.len() {
        labels.push(Some(spread.columns.at(column).at(0)))?;
    }
    Ok(labels)
}

// The rows that the cells of a column come from.
#[tactic(auto, using(crate::proofs::SpreadLoops::cell_inside))]
fn places_of_column(alloc: Global, spread: &Spread, column: usize) -> Result<Gaps, NoMemory>
    requires count { length spread.now.places
        ≡ length spread.now.rows * length spread.now.columns }
    requires column { column < length spread.now.columns }
    ensures { IfOk result (λ places. places
        ≡ words.places_of_column (spread_value spread.now) column) }
{
    let mut places = Gaps::new(alloc);
    let by_row = spread.places.as_slice();
    let columns = spread.columns.len();
    for row in 0..spread.rows.len() {
        places.push(by_row[row * columns + column])?;
    }
    Ok(places)
}

// The cells of a column in the rows and columns over which its rows are spread.
fn spread_blocks(alloc: Global, spread: &Spread, cells: &ColRef<'_>) -> Result<Blocks, NoMemory>
    requires { (levels : ℕ)
        × IsSpreadOf (length cells.now.cells) levels (spread_value spread.now) }
    ensures columns { IfOk result (λ made. columns_of made
        ≡ words.spread_columns (spread_value spread.now) cells.now) }
    ensures single { IfOk result (All IsSingle) }
{
    let mut blocks = Blocks::new(alloc);
    for column in 0..spread.columns.len() {
        let places = places_of_column(alloc, spread, column)?;
        let own = ColRef { lanes: cells.lanes };
        let made = take(alloc, own, &places)?;
        blocks.push(made.into_block())?;
    }
    Ok(blocks)
}

// The frame of rows that are spread over columns, or the refusal of the labels by which they are spread: the levels of
// its rows and its columns have these names, and its cells are those of a column of the rows.
pub(crate) fn spread_table(
    alloc: Global,
    dict: &TextDict,
    spread: Result<Spread, ReshapeFault>,
    names: &[Option<Label>],
    columns_name: Option<Label>,
    cells: &ColRef<'_>,
) -> Result<Table, OpFault>
    requires names { IsSettled headings_value dict.now names.now }
    requires name { IsSettled heading_value dict.now columns_name }
    requires cells { AreGiven dict.now cells.now.cells }
    requires spread { (rest labels : List (List OneLabel))
        × AreEntries dict.now (length cells.now.cells) (length names.now) rest labels
        × Unstacks spread (reshape_meant.unstacked same_tuple (tuple_less dict.now) rest labels) }
    ensures { (rest labels : List (List OneLabel))
        → AreEntries dict.now (length cells.now.cells) (length names.now) rest labels
        → Unstacks spread (reshape_meant.unstacked same_tuple (tuple_less dict.now) rest labels)
        → Makes dict.now result (meant.spread_result (labels_value dict.now rest)
        (labels_value dict.now labels) (headings_value dict.now names.now)
        (heading_value dict.now columns_name) (column_value dict.now (table_column cells.now))) }
{
    // Equal texts have equal numbers: `TextDict::len` says so.
    let _ = dict.len();
    let spread = match spread {
        Ok(spread) => spread,
        Err(fault) => return Err(refusal_of(fault)),
    };
    let labels = spread_labels(alloc, &spread)?;
    let headings = heading_list(alloc, columns_name, labels.as_slice())?;
    let axis = Axis::from_tuples(alloc, dict, &spread.rows, names.len())?;
    let blocks = spread_blocks(alloc, &spread, cells)?;
    Ok(Table::new(Shape::Frame, named_axis(axis, names), headings, blocks))
}
