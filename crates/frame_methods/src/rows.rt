// The methods that answer some rows of a table.
ghost use Rattle.std.specs.Prelude.{◌≡◌, ◌<◌, ◌≤◌, List, length, All, IfOk};
ghost use Rattle.std.specs.List.{list_all};
ghost use Rattle.column_core.specs.cells.Cell.{na_cell};
ghost use Rattle.column_core.specs.cells.Reduce.{is_present};
ghost use Rattle.column_core.specs.cells.Text.{Text as OneText};
ghost use Rattle.frame_store.specs.tables.Cost.{free};
ghost use Rattle.frame_store.specs.tables.Settled.{IsSettled};
ghost use Rattle.frame_store.specs.tables.Table.{row_of, table_value};
ghost use Rattle.frame_store.specs.tables.Valid.{IsWhole};
ghost use Rattle.frame_parts.specs.form.Finish.{limited};
ghost use Rattle.multi_index.specs.pick.Positions.{rows_before};
ghost use Rattle.frame_select.specs.select.Select.{rows_taken};
ghost use Rattle.frame_labels.specs.method.Rows as meant;
ghost use Rattle.frame_store.specs.Arguments.{object_value, IsLiveObject};
ghost use Rattle.frame_store.specs.Objects.{tables};
ghost use Rattle.frame_store.specs.Shown.{Makes};
ghost use Rattle.frame_store.specs.World.{world, IsSettledWorld, FormsFor};
ghost use Rattle.frame_methods.specs.Rows.{complete};

use cell_core::{Cell, Code, Grid, NoMemory, Places, Rows};
use frame_parts::within_limits;
use frame_select::{chosen_table, places_below, sliced};
use frame_store::{ObjId, ObjRef, OpFault, Store, Table, Value, headings_of};
use std::alloc::Global;

// How many of the rows `head` and `tail` answer: n, or all but so many where n is negative.
fn count_taken(count: usize, n: i64) -> usize
    ensures taken { result ≡ rows_before count n }
    ensures within { result ≤ count }
{
    let distance = n.unsigned_abs() as usize;
    if n >= 0 {
        distance.min(count)
    } else {
        count.saturating_sub(distance)
    }
}

// The first rows: `iloc[:n]`.
pub(crate) fn head(alloc: Global, store: &mut Store, on: ObjId, n: i64) -> Result<Value, OpFault>
    requires { IsLiveObject (tables store.old) on }
    ensures { (texts : List OneText) → IsSettledWorld (world store.old texts)
        → FormsFor free result (meant.head_result (object_value (tables store.old) texts on) n)
        (world store.old texts) (world store.new texts) }
{
    let count = count_taken(store.read(on).rows(), n);
    let rows = Rows {
        start: 0,
        step: 1,
        count,
    };
    sliced(alloc, store, on, rows)
}

// The last rows, as many as `head` has: `iloc[-n:]`, and none for 0.
pub(crate) fn tail(alloc: Global, store: &mut Store, on: ObjId, n: i64) -> Result<Value, OpFault>
    requires { IsLiveObject (tables store.old) on }
    ensures { (texts : List OneText) → IsSettledWorld (world store.old texts)
        → FormsFor free result (meant.tail_result (object_value (tables store.old) texts on) n)
        (world store.old texts) (world store.new texts) }
{
    let all = store.read(on).rows();
    let count = count_taken(all, n);
    let rows = Rows {
        start: all - count,
        step: 1,
        count,
    };
    sliced(alloc, store, on, rows)
}

// The table of these rows.
pub(crate) fn rows_table(alloc: Global, on: &ObjRef<'_>, rows: &Places) -> Result<Table, OpFault>
    requires whole { IsWhole on.now }
    requires rows { All (λ row. row < length on.now.labels) rows.now }
    ensures { (texts : List OneText) → IsSettled table_value texts on.now
        → Makes texts result (limited (rows_taken (table_value texts on.now) rows.now)) }
{
    if !within_limits(rows.len(), on.columns()) {
        return Err(OpFault::Refused(Code::Limit));
    }
    let columns = places_below(alloc, on.columns())?;
    let headings = headings_of(alloc, on)?;
    Ok(chosen_table(alloc, on, on.shape(), rows, &columns, headings)?)
}

// Whether no cell of a row is missing.
fn is_complete(on: &ObjRef<'_>, row: usize) -> bool
    requires { row < length on.now.labels }
    ensures { (texts : List OneText) →
        result ≡ list_all is_present (row_of na_cell (table_value texts on.now) row).cells }
{
    for place in 0..on.columns() {
        if on.cell(row, place) == Cell::Na {
            return false;
        }
    }
    true
}

// The rows in which no cell is missing.
fn complete_rows(alloc: Global, on: &ObjRef<'_>) -> Result<Places, NoMemory>
    ensures below { IfOk result (All (λ row. row < length on.now.labels)) }
    ensures rows { IfOk result (λ rows. (texts : List OneText) →
        rows ≡ complete (table_value texts on.now)) }
{
    let mut rows = Places::new(alloc);
    for row in 0..on.rows() {
        if is_complete(on, row) {
            rows.push(row)?;
        }
    }
    Ok(rows)
}

// The table of the rows in which no cell is missing.
pub(crate) fn dropna(alloc: Global, on: &ObjRef<'_>) -> Result<Table, OpFault>
    requires { IsWhole on.now }
    ensures { (texts : List OneText) → IsSettled table_value texts on.now
        → Makes texts result (meant.dropna_result (table_value texts on.now)) }
{
    let rows = complete_rows(alloc, on)?;
    rows_table(alloc, on, &rows)
}
