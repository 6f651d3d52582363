// The methods that answer the rows in another order.
ghost use Rattle.std.specs.Prelude.{List, length};
ghost use Rattle.frame_store.specs.tables.Table.{table_value};
ghost use Rattle.multi_index.specs.Axes.{HaveLevels};
ghost use Rattle.column_core.specs.cells.Cell.{LabelValue};
ghost use Rattle.frame_labels.specs.method.Rows as meant;
ghost use Rattle.frame_store.specs.Shown.{Makes};
ghost use Rattle.frame_store.specs.World.{IsKnownTable};
ghost use Rattle.frame_store.specs.Parts.{AreColumnsOf};
ghost use Rattle.frame_methods.specs.Sorts.{AreKeys};

use crate::rows::rows_table;
use crate::sort_keys::{SortKeys, rows_by_keys};
use cell_core::{Grid, Places, TextDict};
use frame_labels::columns_at;
use frame_store::{ObjRef, OpFault, Table};
use std::alloc::Global;

// The rows in the order of their keys.
#[tactic(auto, using(crate::proofs::SortLaws::sorted_below))]
fn sorted_table(
    alloc: Global,
    dict: &TextDict,
    on: &ObjRef<'_>,
    keys: &SortKeys<'_>,
    ascending: bool,
) -> Result<Table, OpFault>
    requires { IsKnownTable dict.now on.now }
    ensures { (all : List (List LabelValue)) → AreKeys dict.now keys.now (length on.now.labels) all
        → Makes dict.now result (meant.sorted_result (table_value dict.now on.now) ascending all) }
{
    let rows = rows_by_keys(alloc, dict, keys, ascending, on.rows())?;
    rows_table(alloc, on, &rows)
}

// The rows in the order of their cells in these columns.
pub(crate) fn sort_values(
    alloc: Global,
    dict: &TextDict,
    on: &ObjRef<'_>,
    places: &Places,
    ascending: bool,
) -> Result<Table, OpFault>
    requires known { IsKnownTable dict.now on.now }
    requires places { AreColumnsOf on.now places.now }
    ensures { Makes dict.now result
        (meant.sort_values_result (table_value dict.now on.now) ascending places.now) }
{
    let keys = SortKeys::Cells(columns_at(alloc, on, places)?);
    sorted_table(alloc, dict, on, &keys, ascending)
}

// The rows in the order of their labels.
#[tactic(auto, using(crate::proofs::Hints::sort_index))]
pub(crate) fn sort_index(
    alloc: Global,
    dict: &TextDict,
    on: &ObjRef<'_>,
    ascending: bool,
) -> Result<Table, OpFault>
    requires known { IsKnownTable dict.now on.now }
    requires levels { HaveLevels (length on.now.level_names) on.now.labels }
    ensures { let t = table_value dict.now on.now in
        Makes dict.now result (meant.sorted_result t ascending t.labels) }
{
    sorted_table(alloc, dict, on, &SortKeys::Labels(on.axis()), ascending)
}
