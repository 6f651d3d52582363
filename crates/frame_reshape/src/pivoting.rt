// `pivot` and `pivot_table`: the cells of a column under those of others.
ghost use Rattle.std.specs.Prelude.{◌≡◌, nat_lt, length};
ghost use Rattle.cell_core.specs.declared.grid.Shape.TheVariants.{Frame};
ghost use Rattle.frame_store.specs.tables.Table.{table_value};
ghost use Rattle.group_by.specs.Operations.{reduction_of};
ghost use Rattle.frame_labels.specs.method.Reshape as meant;
ghost use Rattle.frame_store.specs.Shown.{Makes};
ghost use Rattle.frame_store.specs.World.{IsKnownTable};
ghost use Rattle.frame_reshape.specs.Pivots.{pivoted_value, IsPivoted};

use crate::grouping::{GroupCells, cells_of_groups};
use crate::spreading::spread_table;
use crate::told::Pivoted;
use cell_core::{Code, Grid, TextDict};
use column_core::ColRef;
use factorize::KeyColumns;
use frame_labels::{columns_at, key_tuples};
use frame_select::headings_at;
use frame_store::{ObjRef, OpFault, Table};
use group_by::GroupOp;
use reshape::{unstack_places, unstack_rows};
use std::alloc::Global;

// A label for each level of the index and one for a column: four at most.
fn are_few(told: &Pivoted) -> bool
    ensures { result ≡ nat_lt (length told.now.index) 4 }
{
    told.index.len() < 4
}

// The cells of a column under those of the index, with a column for each cell of another. No row may have the labels of
// another one.
pub(crate) fn pivot(
    alloc: Global,
    dict: &TextDict,
    on: &ObjRef<'_>,
    told: &Pivoted,
) -> Result<Table, OpFault>
    requires known { IsKnownTable dict.now on.now }
    requires shape { on.now.shape ≡ Frame }
    requires told { IsPivoted on.now told.now }
    ensures { Makes dict.now result
        (meant.pivot_of (table_value dict.now on.now) (pivoted_value told.now)) }
{
    if !are_few(told) {
        return Err(OpFault::Refused(Code::Limit));
    }
    let columns = columns_at(alloc, on, &told.index)?;
    let keys: &[ColRef<'_>] = &columns;
    let index = KeyColumns::of(keys, on.rows());
    let labels = [on.column(told.columns)];
    let of_columns = KeyColumns::of(&labels, on.rows());
    let spread = unstack_rows(alloc, dict, &index, &of_columns);
    let names = headings_at(alloc, on, &told.index)?;
    let name = on.heading(told.columns);
    let cells = on.column(told.values);
    spread_table(alloc, dict, spread, names.as_slice(), name, &cells)
}

// What a reduction makes of the rows with the same cells in the index and the column of labels, without those that miss one
// of them, and without a missing cell.
pub(crate) fn pivot_table(
    alloc: Global,
    dict: &TextDict,
    on: &ObjRef<'_>,
    told: &Pivoted,
    op: GroupOp,
) -> Result<Table, OpFault>
    requires known { IsKnownTable dict.now on.now }
    requires shape { on.now.shape ≡ Frame }
    requires told { IsPivoted on.now told.now }
    ensures { Makes dict.now result (meant.pivot_table_of (table_value dict.now on.now)
        (reduction_of op) (pivoted_value told.now)) }
{
    let GroupCells { rows, cells } = cells_of_groups(alloc, dict, on, told, op)?;
    if !are_few(told) {
        return Err(OpFault::Refused(Code::Limit));
    }
    let index = key_tuples(alloc, on, &told.index, &rows)?;
    let places = told.labels(alloc)?;
    let labels = key_tuples(alloc, on, &places, &rows)?;
    let spread = unstack_places(alloc, dict, &index, &labels);
    let names = headings_at(alloc, on, &told.index)?;
    let name = on.heading(told.columns);
    spread_table(alloc, dict, spread, names.as_slice(), name, &cells.as_ref())
}
