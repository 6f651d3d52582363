// The values of columns of one kind, row after row.
ghost use Rattle.std.specs.Prelude.{◌≡◌, ◌<◌, ◌++◌, [], map, length, slice_index_or, All, IfOk, OnOk};
ghost use Rattle.cell_core.specs.declared.cell.Cell.TheVariants.{Na};
ghost use Rattle.merge_concat.specs.Growing.{cells_of_rows, cells_of_lane};
ghost use Rattle.reshape.specs.Blocks.{cells_across};

use cell_core::NoMemory;
use column_core::{ColRef, Column, Element, Lane, Owned};
use merge_concat::{Laid, with_room};
use std::alloc::Global;

// The values of each column.
fn lanes_of<'a, T: Laid>(
    alloc: Global,
    columns: &'a [ColRef<'_>],
) -> Result<Vec<Lane<'a, T>>, NoMemory>
    requires { All (λ column. column.kind ≡ T.kind) columns.now }
    ensures { IfOk result (λ lanes. map (cells_of_lane T.cell) lanes.items
        ≡ map (λ column. column.cells) columns.now) }
{
    let mut lanes = Vec::with_capacity(alloc, columns.len())?;
    for column in columns {
        lanes.push(T::lane(column))?;
    }
    Ok(lanes)
}

// Appends the value of each lane in a row.
fn push_row<T: Element>(
    made: &mut Owned<T>,
    lanes: &[Lane<'_, T>],
    row: usize,
) -> Result<(), NoMemory>
    requires { All (λ lane. row < lane.count) lanes.now }
    ensures { OnOk result (cells_of_rows T.cell made.new ≡ cells_of_rows T.cell made.old
        ++ map (λ lane. slice_index_or (cells_of_lane T.cell lane) row Na) lanes.now) }
{
    for lane in lanes {
        made.push(T::blank(), lane.get(row))?;
    }
    Ok(())
}

/// The cells of columns of one kind and length, row after row, as a column.
pub(crate) fn stacked<T: Laid>(
    alloc: Global,
    columns: &[ColRef<'_>],
    rows: usize,
    count: usize,
) -> Result<Column, NoMemory>
    requires kind { All (λ column. column.kind ≡ T.kind) columns.now }
    requires rows { All (λ column. length column.cells ≡ rows) columns.now }
    ensures { IfOk result (λ made. made
        ≡ record { kind = T.kind; cells = cells_across rows columns.now }) }
{
    let lanes = lanes_of::<T>(alloc, columns)?;
    let mut made = with_room(alloc, count)?;
    for row in 0..rows {
        push_row(&mut made, &lanes, row)?;
    }
    Ok(T::column(made))
}
