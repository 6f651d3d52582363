// Columns one below the other.
ghost use Rattle.std.specs.Prelude.{◌≡◌, ◌≤◌, ◌<◌, ◌^◌, List, ℕ, map, All, IfOk, MatchOption};
ghost use Rattle.column_core.specs.Columns.{column_value};
ghost use Rattle.meaning_join.specs.Concat.{rows_concatenated};
ghost use Rattle.merge_concat.specs.Concats.{ConcatsBy};
ghost use Rattle.merge_concat.specs.Parts.{part_kind, common_kind, cells_below, count_below, whole_of};

use crate::fault::MergeFault;
use crate::growing::{with_part, with_room};
use crate::lanes::Laid;
use crate::parts::Part;
use cell_core::{Kind, NoMemory, TextId};
use column_core::{ColRef, Column};
use std::alloc::Global;

// As many cells as a column may have.
const MOST_CELLS: usize = 1 << 26;

/// The kind that all columns have, if they have one; of no column it is `Int64`. Takes no memory.
pub fn common_kind(columns: &[ColRef<'_>]) -> Option<Kind>
    ensures { result ≡ common_kind columns.now }
{
    let [first, others @ ..] = columns else {
        return Some(Kind::Int64);
    };
    let kind = first.kind();
    for other in others {
        if other.kind() != kind {
            return None;
        }
    }
    Some(kind)
}

// How many cells there are, if they aren't more than a column may have.
fn count_of(parts: &[Part<'_>]) -> Option<usize>
    ensures { MatchOption result (2 ^ 26 < count_below parts.now)
        (λ count. (count ≡ count_below parts.now) × (count ≤ 2 ^ 26)) }
{
    let mut count = 0usize;
    for part in parts {
        if MOST_CELLS - count < part.len() {
            return None;
        }
        count += part.len();
    }
    Some(count)
}

// The cells of parts of one kind, which are so many.
fn column_of<T: Laid>(alloc: Global, parts: &[Part<'_>], count: usize) -> Result<Column, NoMemory>
    requires kind { All (λ part. part_kind T.kind part ≡ T.kind) parts.now }
    requires count { count_below parts.now ≤ 2 ^ 26 }
    ensures { IfOk result (λ column. column
        ≡ record { kind = T.kind; cells = cells_below parts.now }) }
{
    let mut rows = with_room(alloc, count)?;
    for part in parts {
        rows = with_part(rows, part)?;
    }
    Ok(T::column(rows))
}

// All cells of each column.
fn parts_of<'a>(alloc: Global, columns: &[ColRef<'a>]) -> Result<Vec<Part<'a>>, NoMemory>
    ensures { IfOk result (λ parts. parts.items ≡ map whole_of columns.now) }
{
    let mut parts = Vec::with_capacity(alloc, columns.len())?;
    for column in columns {
        parts.push(Part::of(column))?;
    }
    Ok(parts)
}

/// The cells of columns of one kind, one below the other ("Merge, join, concatenate and compare" in the pandas user
/// guide). Of no column there are no cells, and the kind is `Int64`.
///
/// # Errors
///
/// `MixedKinds` exactly where two columns are of different kinds, and else `TooLarge` exactly where there are more than
/// 2^26 cells. `NoMemory` may come in place of any answer, and no other fault comes.
pub fn concat_rows(alloc: Global, parts: &[ColRef<'_>]) -> Result<Column, MergeFault>
    ensures { (texts : List (List ℕ)) → ConcatsBy (column_value texts) result
        (rows_concatenated (map (column_value texts) parts.now)) }
{
    let Some(kind) = common_kind(parts) else {
        return Err(MergeFault::MixedKinds);
    };
    let parts = parts_of(alloc, parts)?;
    let Some(count) = count_of(&parts) else {
        return Err(MergeFault::TooLarge);
    };
    let column = concat_parts(alloc, kind, &parts, count)?;
    Ok(column)
}

/// The cells of the parts of a column of this kind, one below the other. A part may lack the column: its cells are missing
/// ones. They are so many in all, and no more than a column may have. `NoMemory` is the only refusal.
pub fn concat_parts(
    alloc: Global,
    kind: Kind,
    parts: &[Part<'_>],
    count: usize,
) -> Result<Column, NoMemory>
    requires kind { All (λ part. part_kind kind part ≡ kind) parts.now }
    requires count { count ≡ count_below parts.now }
    requires few { count ≤ 2 ^ 26 }
    ensures { IfOk result (λ column. column ≡ record { kind = kind; cells = cells_below parts.now }) }
{
    match kind {
        Kind::Int64 => column_of::<i64>(alloc, parts, count),
        Kind::Boolean => column_of::<bool>(alloc, parts, count),
        Kind::Text => column_of::<TextId>(alloc, parts, count),
    }
}
