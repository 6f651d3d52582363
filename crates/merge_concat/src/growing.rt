// Rows that grow by the cells of a part.
ghost use Rattle.std.specs.Prelude.{◌≡◌, ◌+◌, ◌≤◌, ◌<◌, ◌^◌, ◌++◌, [], length, replicate, IfOk};
ghost use Rattle.cell_core.specs.declared.cell.Cell.TheVariants as cell;
ghost use Rattle.merge_concat.specs.Growing.{cells_of_values, cells_of_rows, cells_of_lane};
ghost use Rattle.merge_concat.specs.Parts.{part_kind, part_cells};

use crate::lanes::Laid;
use crate::parts::Part;
use cell_core::NoMemory;
use column_core::{Dense, Element, Lane, Owned};
use std::alloc::Global;

/// No rows, with room for so many. `NoMemory` is the only refusal.
pub fn with_room<T: Element>(alloc: Global, count: usize) -> Result<Owned<T>, NoMemory>
    ensures { IfOk result (λ rows. cells_of_rows T.cell rows ≡ []) }
{
    let values = Vec::with_capacity(alloc, count)?;
    let present = Vec::with_capacity(alloc, count)?;
    Ok(Owned { values, present })
}

// Behind the rows those of values that lie side by side: two slices are copied.
#[tactic(auto, using(crate::proofs::GrowLaws::cells_append))]
fn with_side<T: Element>(rows: Owned<T>, side: &Dense<'_, T>) -> Result<Owned<T>, NoMemory>
    ensures { IfOk result (λ more. cells_of_rows T.cell more
        ≡ cells_of_rows T.cell rows
        ++ cells_of_values T.cell side.now.values.now side.now.present.now) }
{
    let Owned {
        mut values,
        mut present,
    } = rows;
    values.extend_from_slice(side.values)?;
    present.extend_from_slice(side.present)?;
    Ok(Owned { values, present })
}

// Behind the rows those of a lane, row by row.
fn with_rows<T: Element>(mut rows: Owned<T>, lane: &Lane<'_, T>) -> Result<Owned<T>, NoMemory>
    ensures { IfOk result (λ more. cells_of_rows T.cell more
        ≡ cells_of_rows T.cell rows ++ cells_of_lane T.cell lane.now) }
{
    for row in 0..lane.count {
        rows.push(T::blank(), lane.get(row))?;
    }
    Ok(rows)
}

// Behind the rows those of a lane.
#[tactic(auto, using(crate::proofs::Hints::with_lane))]
fn with_lane<T: Element>(rows: Owned<T>, lane: &Lane<'_, T>) -> Result<Owned<T>, NoMemory>
    ensures { IfOk result (λ more. cells_of_rows T.cell more
        ≡ cells_of_rows T.cell rows ++ cells_of_lane T.cell lane.now) }
{
    match lane.dense() {
        Some(side) => with_side(rows, &side),
        None => with_rows(rows, lane),
    }
}

// Behind the rows so many without values.
fn with_missing<T: Element>(rows: Owned<T>, count: usize) -> Result<Owned<T>, NoMemory>
    requires { length rows.values.items + count ≤ 2 ^ 26 }
    ensures { IfOk result (λ more. cells_of_rows T.cell more
        ≡ cells_of_rows T.cell rows ++ replicate count cell.Na) }
{
    let Owned {
        mut values,
        mut present,
    } = rows;
    let count = values.len() + count;
    values.resize(count, T::blank())?;
    present.resize(count, false)?;
    Ok(Owned { values, present })
}

// Behind the rows those of a part, which has cells of their kind.
pub(crate) fn with_part<T: Laid>(rows: Owned<T>, part: &Part<'_>) -> Result<Owned<T>, NoMemory>
    requires kind { part_kind T.kind part.now ≡ T.kind }
    requires few { length rows.values.items + length (part_cells part.now) ≤ 2 ^ 26 }
    ensures { IfOk result (λ more. cells_of_rows T.cell more
        ≡ cells_of_rows T.cell rows ++ part_cells part.now) }
{
    match part {
        Part::Cells(cells) => with_lane(rows, &T::lane(cells)),
        Part::Missing(count) => with_missing(rows, *count),
    }
}
