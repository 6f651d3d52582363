// Columns whose cells become one column.
ghost use Rattle.std.specs.Prelude.{◌≡◌, ◌<◌, ◌*◌, ◌^◌, ℕ, nat_le, true, false, List, map, length, All, IfOk, MatchOption};
ghost use Rattle.column_core.specs.Columns.{column_value};
ghost use Rattle.meaning_shapes.specs.Reshape.{stacked as stacked_meant, melted};
ghost use Rattle.reshape.specs.Answers.{ReshapesBy};
ghost use Rattle.reshape.specs.Blocks.{height_of, cells_across, AreByRow, HaveOneHeight};

use crate::fault::ReshapeFault;
use crate::lanes::stacked;
use cell_core::{Kind, NoMemory, TextId};
use column_core::{ColRef, Column};
use merge_concat::{common_kind, concat_rows};
use std::alloc::Global;

// As many cells as a column may have.
const MOST_CELLS: usize = 1 << 26;

// How many rows columns of one length have.
fn height_of(columns: &[ColRef<'_>]) -> usize
    ensures { result ≡ height_of columns.now }
{
    match columns {
        [first, ..] => first.len(),
        [] => 0,
    }
}

// How many cells there are in so many rows and columns, if a column may have them.
fn count_within_limit(rows: usize, columns: usize) -> Option<usize>
    ensures { MatchOption result (nat_le (rows * columns) (2 ^ 26) ≡ false)
        (λ cells. nat_le (rows * columns) (2 ^ 26) ≡ true) }
{
    let cells = rows.checked_mul(columns)?;
    if cells > MOST_CELLS {
        return None;
    }
    Some(cells)
}

// The cells of columns of this kind.
fn stacked_of_kind(
    alloc: Global,
    kind: Kind,
    columns: &[ColRef<'_>],
    rows: usize,
    count: usize,
) -> Result<Column, NoMemory>
    requires kind { All (λ column. column.kind ≡ kind) columns.now }
    requires rows { All (λ column. length column.cells ≡ rows) columns.now }
    ensures { IfOk result (λ made. made ≡ record { kind = kind; cells = cells_across rows columns.now }) }
{
    match kind {
        Kind::Int64 => stacked::<i64>(alloc, columns, rows, count),
        Kind::Boolean => stacked::<bool>(alloc, columns, rows, count),
        Kind::Text => stacked::<TextId>(alloc, columns, rows, count),
    }
}

/// The cells of columns of one kind and length, row after row: row r of column c stands behind r whole rows and c cells
/// ("Reshaping by stacking and unstacking" in "Reshaping and pivot tables" of the pandas user guide). Of no column there
/// are no cells, and the kind is `Int64`.
///
/// # Errors
///
/// `MixedKinds` exactly where two columns are of different kinds, and else `TooLarge` exactly where there are more than
/// 2^26 cells. `NoMemory` may come in place of any answer, and no other fault comes.
pub fn stack_block(alloc: Global, parts: &[ColRef<'_>]) -> Result<Column, ReshapeFault>
    requires { HaveOneHeight parts.now }
    ensures column { (texts : List (List ℕ)) → ReshapesBy (column_value texts) result
        (stacked_meant (map (column_value texts) parts.now)) }
    ensures law { IfOk result (λ made. AreByRow parts.now made.cells) }
{
    let Some(kind) = common_kind(parts) else {
        return Err(ReshapeFault::MixedKinds);
    };
    let rows = height_of(parts);
    let Some(count) = count_within_limit(rows, parts.len()) else {
        return Err(ReshapeFault::TooLarge);
    };
    let made = stacked_of_kind(alloc, kind, parts, rows, count)?;
    Ok(made)
}

/// The cells of columns of one kind, column after column ("Reshaping by melt" in "Reshaping and pivot tables" of the
/// pandas user guide). Of no column there are no cells, and the kind is `Int64`.
///
/// # Errors
///
/// Those of [`stack_block`], exactly where it has them.
pub fn melt_block(alloc: Global, parts: &[ColRef<'_>]) -> Result<Column, ReshapeFault>
    ensures { (texts : List (List ℕ)) → ReshapesBy (column_value texts) result
        (melted (map (column_value texts) parts.now)) }
{
    let column = concat_rows(alloc, parts)?;
    Ok(column)
}
