// Columns of parts, one below the other.
ghost use Rattle.std.specs.Prelude.{◌≡◌, ◌≤◌, ◌^◌, true, List, map, All, IfOk};
ghost use Rattle.std.specs.List.{range_with_len};
ghost use Rattle.column_core.specs.cells.Text.{Text};
ghost use Rattle.frame_store.specs.tables.Valid.{IsWhole};
ghost use Rattle.frame_store.specs.Parts.{table_column, IsSingle};
ghost use Rattle.frame_store.specs.Shown.{columns_value};
ghost use Rattle.frame_parts.specs.Makes.{blocks_value};
ghost use Rattle.frame_concat.specs.declared.parts.Sought.TheVariants.{At, Under};
ghost use Rattle.frame_concat.specs.Parts.{column_sought};
ghost use Rattle.frame_concat.specs.Columns.{kind_sought, fits_kind, kinds_meet, all_kinds_meet, piece_of, stacked, columns_stacked, rows_in};

use crate::parts::{Part, Sought};
use cell_core::{Grid, Kind, Label, NoMemory};
use column_core::Column;
use frame_store::Blocks;
use merge_concat::{Part as Piece, concat_parts};
use std::alloc::Global;

// The columns at the first places of each part.
pub(crate) fn columns_in_order(alloc: Global, count: usize) -> Result<Vec<Sought>, NoMemory>
    ensures { IfOk result (λ made. made.items ≡ map At (range_with_len 0 count)) }
{
    let mut columns = Vec::new(alloc);
    for place in 0..count {
        columns.push(Sought::At(place))?;
    }
    Ok(columns)
}

// The columns under these headings.
pub(crate) fn columns_under(
    alloc: Global,
    headings: &[Option<Label>],
) -> Result<Vec<Sought>, NoMemory>
    ensures { IfOk result (λ made. made.items ≡ map Under headings.now) }
{
    let mut columns = Vec::new(alloc);
    for heading in headings {
        columns.push(Sought::Under(*heading))?;
    }
    Ok(columns)
}

// The kind of the first column that there is.
fn kind_sought(parts: &[Part<'_>], sought: Sought) -> Kind
    ensures { result ≡ kind_sought sought parts.now }
{
    for part in parts {
        if let Some(column) = part.column(sought) {
            return column.kind();
        }
    }
    Kind::Int64
}

// Whether a part's column, if it has one, is of a kind.
fn fits_kind(part: &Part<'_>, sought: Sought, kind: Kind) -> bool
    ensures { result ≡ fits_kind kind (column_sought sought part.now) }
{
    match part.column(sought) {
        Some(column) => column.kind() == kind,
        None => true,
    }
}

// Whether the columns that there are have one kind.
fn kinds_meet(parts: &[Part<'_>], sought: Sought) -> bool
    ensures { result ≡ kinds_meet parts.now sought }
{
    let kind = kind_sought(parts, sought);
    for part in parts {
        if !fits_kind(part, sought, kind) {
            return false;
        }
    }
    true
}

// Whether all columns have one kind each.
pub(crate) fn all_kinds_meet(parts: &[Part<'_>], columns: &[Sought]) -> bool
    ensures { result ≡ all_kinds_meet parts.now columns.now }
{
    for sought in columns {
        if !kinds_meet(parts, *sought) {
            return false;
        }
    }
    true
}

// A part's column, or so many missing cells.
fn piece_of<'a>(part: &'a Part<'_>, sought: Sought) -> Piece<'a>
    ensures { result ≡ piece_of sought part.now }
{
    match part.column(sought) {
        Some(column) => Piece::Cells(column),
        None => Piece::Missing(part.table().rows()),
    }
}

// The column of each part, or missing cells.
fn pieces_of<'a>(
    alloc: Global,
    parts: &'a [Part<'_>],
    sought: Sought,
) -> Result<Vec<Piece<'a>>, NoMemory>
    ensures { IfOk result (λ pieces. pieces.items ≡ map (piece_of sought) parts.now) }
{
    let mut pieces = Vec::new(alloc);
    for part in parts {
        pieces.push(piece_of(part, sought))?;
    }
    Ok(pieces)
}

// The columns that are sought, one below the other. They have one kind, and so many cells.
fn stacked(
    alloc: Global,
    parts: &[Part<'_>],
    sought: Sought,
    rows: usize,
) -> Result<Column, NoMemory>
    requires whole { All IsWhole parts.now }
    requires meet { kinds_meet parts.now sought ≡ true }
    requires rows { rows ≡ rows_in parts.now }
    requires few { rows ≤ 2 ^ 26 }
    ensures { IfOk result (λ column. table_column column ≡ stacked parts.now sought) }
{
    let kind = kind_sought(parts, sought);
    let pieces = pieces_of(alloc, parts, sought)?;
    concat_parts(alloc, kind, &pieces, rows)
}

// All columns, each in a block of its own. They have one kind each, and so many cells.
pub(crate) fn stacked_columns(
    alloc: Global,
    parts: &[Part<'_>],
    columns: &[Sought],
    rows: usize,
) -> Result<Blocks, NoMemory>
    requires whole { All IsWhole parts.now }
    requires meet { all_kinds_meet parts.now columns.now ≡ true }
    requires rows { rows ≡ rows_in parts.now }
    requires few { rows ≤ 2 ^ 26 }
    ensures single { IfOk result (All IsSingle) }
    ensures columns { IfOk result (λ made. (texts : List Text) → blocks_value texts made
        ≡ columns_value texts (columns_stacked parts.now columns.now)) }
{
    let mut made = Blocks::new(alloc);
    for sought in columns {
        let column = stacked(alloc, parts, *sought, rows)?;
        made.push(column.into_block())?;
    }
    Ok(made)
}
