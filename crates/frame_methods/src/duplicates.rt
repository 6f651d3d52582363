// Marks of the rows that an earlier row equals.
ghost use Rattle.std.specs.Prelude.{◌≡◌, ◌<◌, ◌∷◌, [], ◌++◌, ℕ, List, length, map, nat_eq, All, IfOk, OnOk};
ghost use Rattle.cell_core.specs.declared.cell.Cell.TheVariants.{Bool};
ghost use Rattle.cell_core.specs.declared.cell.Kind.TheVariants.{Boolean};
ghost use Rattle.frame_store.specs.tables.Table.{table_value};
ghost use Rattle.frame_labels.specs.method.Rows as meant;
ghost use Rattle.frame_store.specs.Shown.{Makes};
ghost use Rattle.frame_store.specs.World.{IsKnownTable};
ghost use Rattle.frame_methods.specs.Rows.{AreNumbers, duplicated_among};

use cell_core::{Cell, Code, Grid, Kind, NoMemory, Places, TextDict};
use column_core::Column;
use frame_parts::within_limits;
use frame_store::{ObjRef, OpFault, Table, series_table};
use indexmap::IndexSet;
use std::alloc::Global;

// For each row the number of its cell together with the number that it had so far.
fn number_cells(
    alloc: Global,
    numbers: &mut [usize],
    on: &ObjRef<'_>,
    place: usize,
) -> Result<(), NoMemory>
    requires place { place < length on.now.columns }
    requires count { length numbers.old ≡ length on.now.labels }
    ensures { OnOk result ((places : List ℕ) → AreNumbers on.now places numbers.old
        → AreNumbers on.now (places ++ place ∷ []) numbers.new) }
{
    let column = on.column(place);
    let mut seen = IndexSet::new(alloc);
    for (row, number) in numbers.iter_mut().enumerate() {
        let (next, _) = seen.insert_full((*number, column.cell(row)))?;
        *number = next;
    }
    Ok(())
}

// A number for each row, equal where all cells of these columns are.
fn row_numbers(alloc: Global, on: &ObjRef<'_>, places: &Places) -> Result<Vec<usize>, NoMemory>
    requires { All (λ place. place < length on.now.columns) places.now }
    ensures { IfOk result (λ numbers. AreNumbers on.now places.now numbers.items) }
{
    let mut numbers = vec![in alloc; 0usize; on.rows()]?;
    for k in 0..places.len() {
        number_cells(alloc, &mut numbers, on, *places.at(k))?;
    }
    Ok(numbers)
}

// Whether each number stands earlier already, as a column.
fn repeats(alloc: Global, numbers: &[usize]) -> Result<Column, NoMemory>
    ensures kind { IfOk result (λ marks. marks.kind ≡ Boolean) }
    ensures cells { IfOk result (λ marks.
        marks.cells ≡ map Bool (meant.repeats nat_eq [] numbers.now)) }
{
    let mut seen = IndexSet::new(alloc);
    let mut marks = Column::new(alloc, Kind::Boolean);
    for number in numbers {
        let is_new = seen.insert(*number)?;
        marks.push(Cell::Bool(!is_new))?;
    }
    Ok(marks)
}

// Whether an earlier row has the same cells in these columns.
pub(crate) fn duplicated(
    alloc: Global,
    dict: &TextDict,
    on: &ObjRef<'_>,
    places: &Places,
) -> Result<Table, OpFault>
    requires known { IsKnownTable dict.now on.now }
    requires places { All (λ place. place < length on.now.columns) places.now }
    ensures { Makes dict.now result (duplicated_among (table_value dict.now on.now) places.now) }
{
    // Equal texts have equal numbers: `TextDict::len` says so.
    let _ = dict.len();
    if !within_limits(on.rows(), 1) {
        return Err(OpFault::Refused(Code::Limit));
    }
    let numbers = row_numbers(alloc, on, places)?;
    let marks = repeats(alloc, numbers.as_slice())?;
    let axis = on.axis().copy(alloc)?;
    Ok(series_table(alloc, axis, None, marks)?)
}
