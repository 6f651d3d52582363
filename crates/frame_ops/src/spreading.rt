// A Series in each row of a frame whose columns have other labels.
ghost use Rattle.std.specs.Prelude.{◌≡◌, ◌≤◌, [], length, map, None, All, IfOk, IfErr};
ghost use Rattle.cell_core.specs.declared.grid.Shape.TheVariants.{Series as one_column, Frame as columns};
ghost use Rattle.multi_index.specs.Axes.{HaveLevels};
ghost use Rattle.row_keys.specs.Keys.{same_tuple as same_numbers};
ghost use Rattle.frame_store.specs.tables.Table.{column_at, table_value};
ghost use Rattle.frame_parts.specs.form.Infix as meant;
ghost use Rattle.frame_parts.specs.form.Infix.{tuple_heading};
ghost use Rattle.frame_store.specs.Parts.{columns_of, IsSingle};
ghost use Rattle.frame_store.specs.World.{IsKnownTable};
ghost use Rattle.frame_parts.specs.Makes.{MakesBy};
ghost use Rattle.frame_select.specs.Headings.{shared_heading, NamesRepeated};
ghost use Rattle.frame_ops.specs.Pairs.{repeated};
ghost use Rattle.frame_ops.specs.Widening.{heading_tuple, headings_of_keys};

use crate::headings::expect_different;
use crate::kinds::fits_rows;
use crate::widening::heading_tuples;
use cell_core::{Code, Grid, Label, NoMemory, TextDict};
use column_core::{ColRef, Column};
use frame_parts::within_limits;
use frame_select::{expect_unshared, heading_list};
use frame_store::{Blocks, Headings, ObjRef, OpFault, Table};
use row_keys::find_partners;
use std::alloc::Global;

/// Whether each column under a label that a Series has is of the Series' kind. Texts are told apart by their numbers.
/// `NoMemory` is the only refusal.
#[tactic(auto, using(crate::proofs::Hints::labels_fit))]
pub(crate) fn labels_fit(
    alloc: Global,
    frame: &ObjRef<'_>,
    series: &ObjRef<'_>,
) -> Result<bool, NoMemory>
    requires headed { length frame.now.headings ≡ length frame.now.columns }
    requires some { 1 ≤ length series.now.columns }
    requires level { HaveLevels 1 series.now.labels }
    ensures { IfOk result (λ fit. fit ≡ meant.labels_fit same_numbers
        (column_at series.now.columns 0).kind series.now.labels
        (map heading_tuple frame.now.headings) frame.now.columns) }
{
    let kind = series.kind(0);
    let labels = heading_tuples(alloc, frame)?;
    let found = find_partners(alloc, &labels, series.axis(), 1)?;
    for place in 0..frame.columns() {
        if !fits_rows(frame.kind(place), kind, found.rows(place)) {
            return Ok(false);
        }
    }
    Ok(true)
}

// The labels of a Series' rows, of one level, as those of columns.
fn label_headings(alloc: Global, series: &ObjRef<'_>) -> Result<Vec<Option<Label>>, NoMemory>
    requires level { HaveLevels 1 series.now.labels }
    requires one { length series.now.level_names ≡ 1 }
    ensures { IfOk result (λ made. made.items ≡ map tuple_heading series.now.labels) }
{
    let mut made = Vec::new(alloc);
    for row in 0..series.rows() {
        made.push(Some(series.label(row, 0)))?;
    }
    Ok(made)
}

// The headings that the labels of a Series' rows are, unless one stands twice.
fn spread_headings(
    alloc: Global,
    name: Option<Label>,
    series: &ObjRef<'_>,
) -> Result<Headings, OpFault>
    requires level { HaveLevels 1 series.now.labels }
    requires one { length series.now.level_names ≡ 1 }
    ensures made { IfOk result (λ made. made ≡ headings_of_keys name series.now.labels) }
    ensures different { IfOk result (λ made.
        shared_heading (map tuple_heading series.now.labels) [] ≡ None) }
    ensures refused { IfErr result (λ fault.
        NamesRepeated fault (shared_heading (map tuple_heading series.now.labels) [])) }
{
    let labels = label_headings(alloc, series)?;
    expect_unshared(alloc, &labels, &[])?;
    Ok(heading_list(alloc, name, &labels)?)
}

// A column for each of these cells, which stands in so many rows.
#[tactic(auto, using(crate::proofs::Hints::spread_columns))]
fn spread_columns(alloc: Global, cells: ColRef<'_>, rows: usize) -> Result<Blocks, NoMemory>
    ensures single { IfOk result (All IsSingle) }
    ensures columns { IfOk result (λ made. columns_of made
        ≡ map (repeated cells.entry.kind rows) cells.entry.cells) }
{
    let mut made = Blocks::new(alloc);
    for place in 0..cells.len() {
        let column = Column::repeat(alloc, cells.kind(), cells.cell(place), rows)?;
        made.push(column.into_block())?;
    }
    Ok(made)
}

/// A Series in each row of a frame, as a frame whose columns it labels.
///
/// `BadValue(Repeated)` of the first label that stands again at a later row, then of the frame's first one that stands
/// again at a later column, and then `Limit` before a column is made.
/// `NoMemory` may come in place of any answer.
#[tactic(auto, using(crate::proofs::Hints::spread_frame))]
pub(crate) fn spread_frame(
    alloc: Global,
    dict: &TextDict,
    frame: &ObjRef<'_>,
    series: &ObjRef<'_>,
) -> Result<Table, OpFault>
    requires known_frame { IsKnownTable dict.now frame.now }
    requires known_series { IsKnownTable dict.now series.now }
    requires frame { frame.now.shape ≡ columns }
    requires series { series.now.shape ≡ one_column }
    requires level { HaveLevels 1 series.now.labels }
    requires one { length series.now.level_names ≡ 1 }
    ensures made { MakesBy table_value dict.now result (meant.spread_frame
        (table_value dict.now frame.now) (table_value dict.now series.now)) }
    ensures known { IfOk result (IsKnownTable dict.now) }
    ensures frame { IfOk result (λ made. made.shape ≡ columns) }
{
    // Equal texts have equal numbers: `TextDict::len` says so.
    let _ = dict.len();
    let headings = spread_headings(alloc, frame.columns_name(), series)?;
    expect_different(alloc, frame)?;
    if !within_limits(frame.rows(), series.rows()) {
        return Err(OpFault::Refused(Code::Limit));
    }
    let blocks = spread_columns(alloc, series.column(0), frame.rows())?;
    let axis = frame.axis().copy(alloc)?;
    Ok(Table::new(frame.shape(), axis, headings, blocks))
}
