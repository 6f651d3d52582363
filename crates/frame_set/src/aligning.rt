// Series that are aligned to the labels of rows.
ghost use Rattle.std.specs.Prelude.{◌≡◌, ◌||◌, List, length, nat_eq, true, All, IfOk};
ghost use Rattle.cell_core.specs.declared.cell.Cell.TheVariants.{Na};
ghost use Rattle.cell_core.specs.declared.grid.Shape.TheVariants.{Series};
ghost use Rattle.column_core.specs.cells.Text.{Text as OneText};
ghost use Rattle.column_core.specs.cells.Cell.{AreGiven};
ghost use Rattle.column_core.specs.cells.Column.{gap_cell, taken};
ghost use Rattle.column_core.specs.Moves.{IsPlaceOf};
ghost use Rattle.multi_index.specs.Axes.{HaveLevels};
ghost use Rattle.frame_store.specs.tables.Settled.{IsSettled};
ghost use Rattle.frame_store.specs.tables.Table.{table_value};
ghost use Rattle.frame_parts.specs.form.Infix.{same_tuples};
ghost use Rattle.frame_select.specs.select.Set as meant;
ghost use Rattle.frame_parts.specs.Makes.{column_seen, MakesBy};
ghost use Rattle.frame_store.specs.Shown.{cells_value, labels_value};
ghost use Rattle.frame_store.specs.World.{IsKnownTable};
ghost use Rattle.frame_select.specs.Selected.{as_it_is};
ghost use Rattle.frame_set.specs.Aligned.{cells_in};

use cell_core::{Cell, Cells, Code, Gaps, NoMemory, Reason, TextDict};
use column_core::{ColRef, Column, take};
use frame_parts::{align_refusal, same_rows};
use frame_store::{ObjRef, OpFault};
use label_align::reindex;
use multi_index::Axis;
use std::alloc::Global;

// Whether the labels of one axis may be looked up on another: they have as many levels, or no row.
#[tactic(auto, using(crate::proofs::AlignLaws::rows_apart))]
fn may_meet(labels: &Axis, axis: &Axis) -> bool
    ensures meets { (texts : List OneText) → result
        ≡ same_tuples (labels_value texts labels.now.tuples) (labels_value texts axis.now.tuples)
        || nat_eq (length labels.now.names) (length axis.now.names) }
    ensures levels { result ≡ true → HaveLevels (length axis.now.names) labels.now.tuples }
{
    labels.levels() == axis.levels() || (labels.len() == 0 && axis.len() == 0)
}

// The row of a Series that each label of an axis takes, or a gap.
#[tactic(auto, using(crate::proofs::Hints::aligned_rows))]
fn aligned_rows(
    alloc: Global,
    dict: &TextDict,
    labels: &Axis,
    series: &ObjRef<'_>,
) -> Result<Gaps, OpFault>
    requires labels { IsSettled labels_value dict.now labels.now.tuples }
    requires series { IsKnownTable dict.now series.now }
    ensures rows { MakesBy as_it_is dict.now result
        (meant.aligned_rows (length labels.now.names) (labels_value dict.now labels.now.tuples)
        (table_value dict.now series.now)) }
    ensures count { IfOk result (λ rows. length rows ≡ length labels.now.tuples) }
    ensures below { IfOk result (All (IsPlaceOf (length series.now.labels))) }
{
    // Equal texts have equal numbers: `TextDict::len` says so.
    let _ = dict.len();
    let axis = series.axis();
    if !may_meet(labels, axis) {
        return Err(OpFault::Refused(Code::BadValue(Reason::Levels)));
    }
    match reindex(alloc, axis, labels) {
        Ok(rows) => Ok(rows),
        Err(fault) => Err(align_refusal(fault)),
    }
}

// The column of a Series at the rows with these labels. Where they are its own it is copied whole.
pub(crate) fn aligned_column(
    alloc: Global,
    dict: &TextDict,
    labels: &Axis,
    series: &ObjRef<'_>,
) -> Result<Column, OpFault>
    requires labels { IsSettled labels_value dict.now labels.now.tuples }
    requires series { IsKnownTable dict.now series.now }
    requires single { series.now.shape ≡ Series }
    ensures column { MakesBy column_seen dict.now result
        (meant.aligned_column (length labels.now.names) (labels_value dict.now labels.now.tuples)
        (table_value dict.now series.now)) }
    ensures count { IfOk result (λ column. length column.cells ≡ length labels.now.tuples) }
    ensures given { IfOk result (λ column. AreGiven dict.now column.cells) }
{
    if same_rows(dict, labels, series.axis()) {
        return Ok(series.column(0).to_column(alloc)?);
    }
    let rows = aligned_rows(alloc, dict, labels, series)?;
    Ok(take(alloc, series.column(0), &rows)?)
}

// The cell of a row, or NA for a gap.
fn cell_or_na(column: &ColRef<'_>, row: Option<usize>) -> Cell
    requires { IsPlaceOf (length column.now.cells) row }
    ensures { result ≡ gap_cell Na column.now.cells row }
{
    match row {
        Some(row) => column.cell(row),
        None => Cell::Na,
    }
}

// The cells of these rows, with NA for a gap.
fn cells_at(alloc: Global, column: ColRef<'_>, rows: &Gaps) -> Result<Cells, NoMemory>
    requires { All (IsPlaceOf (length column.cells)) rows.now }
    ensures { IfOk result (λ cells. cells ≡ taken Na column.entry.cells rows.now) }
{
    let mut cells = Cells::new(alloc);
    for row in rows.as_slice() {
        cells.push(cell_or_na(&column, *row))?;
    }
    Ok(cells)
}

// The cells of that column, one for each label.
pub(crate) fn aligned_cells(
    alloc: Global,
    dict: &TextDict,
    labels: &Axis,
    series: &ObjRef<'_>,
) -> Result<Cells, OpFault>
    requires labels { IsSettled labels_value dict.now labels.now.tuples }
    requires series { IsKnownTable dict.now series.now }
    requires single { series.now.shape ≡ Series }
    ensures cells { MakesBy cells_value dict.now result (cells_in (meant.aligned_column
        (length labels.now.names) (labels_value dict.now labels.now.tuples)
        (table_value dict.now series.now))) }
    ensures count { IfOk result (λ cells. length cells ≡ length labels.now.tuples) }
    ensures given { IfOk result (AreGiven dict.now) }
{
    let rows = aligned_rows(alloc, dict, labels, series)?;
    Ok(cells_at(alloc, series.column(0), &rows)?)
}
