// The columns of joined rows.
ghost use Rattle.std.specs.Prelude.{◌≡◌, ◌<◌, ◌++◌, length, map, All, IfOk};
ghost use Rattle.std.specs.List.{range_with_len};
ghost use Rattle.cell_core.specs.declared.cell.Cell.TheVariants.{Na};
ghost use Rattle.column_core.specs.Moves.{IsPlaceOf};
ghost use Rattle.frame_store.specs.Parts.{columns_of, table_column, AreColumnsOf, IsHeld, IsSingle};
ghost use Rattle.frame_merge.specs.Keys.{keys_value, AreAlike};
ghost use Rattle.frame_merge.specs.Rows.{AreRowsMet};
ghost use Rattle.frame_merge.specs.Columns.{key_cell_at, key_cells, left_column_on, merged_columns};

use crate::keys::MergeKeys;
use crate::places::key_at;
use cell_core::{Cell, Grid, NoMemory, Places};
use column_core::{ColRef, Column, take};
use frame_store::{Blocks, ObjRef};
use merge_concat::Pairs;
use std::alloc::Global;

// The cell of a key: that of the left side where it has the row, and else that of the right.
fn key_cell(
    left: &ColRef<'_>,
    right: &ColRef<'_>,
    of_left: Option<usize>,
    of_right: Option<usize>,
) -> Cell
    requires left { IsPlaceOf (length left.now.cells) of_left }
    requires right { IsPlaceOf (length right.now.cells) of_right }
    requires kinds { right.now.kind ≡ left.now.kind }
    ensures cell { result ≡ key_cell_at Na left.now.cells right.now.cells of_left of_right }
    ensures held { IsHeld left.now.kind result }
{
    match of_left {
        Some(row) => left.cell(row),
        None => match of_right {
            Some(row) => right.cell(row),
            None => Cell::Na,
        },
    }
}

// The cells of a key on the joined rows.
#[tactic(auto, using(crate::proofs::TableLaws::one_more_key))]
fn key_column(
    alloc: Global,
    left: &ColRef<'_>,
    right: &ColRef<'_>,
    pairs: &Pairs,
) -> Result<Column, NoMemory>
    requires left { All (IsPlaceOf (length left.now.cells)) pairs.now.left }
    requires right { All (IsPlaceOf (length right.now.cells)) pairs.now.right }
    requires same { length pairs.now.right ≡ length pairs.now.left }
    requires kinds { right.now.kind ≡ left.now.kind }
    ensures { IfOk result (λ column. column ≡ record {
      kind = left.now.kind;
      cells = key_cells Na left.now.cells right.now.cells pairs.now.left pairs.now.right;
    }) }
{
    let mut column = Column::new(alloc, left.kind());
    for row in 0..pairs.left.len() {
        let cell = key_cell(left, right, *pairs.left.at(row), *pairs.right.at(row));
        column.push(cell)?;
    }
    Ok(column)
}

// A column of the left side on the joined rows.
#[tactic(auto, using(crate::proofs::TableLaws::no_right))]
fn left_column(
    alloc: Global,
    l: &ObjRef<'_>,
    r: &ObjRef<'_>,
    keys: &MergeKeys,
    pairs: &Pairs,
    place: usize,
) -> Result<Column, NoMemory>
    requires keys { AreAlike l.now r.now keys.now }
    requires rows { AreRowsMet l.now r.now pairs.now }
    requires place { place < length l.now.columns }
    ensures { IfOk result (λ column. table_column column ≡ left_column_on Na l.now.columns
        r.now.columns (keys_value keys.now) pairs.now.left pairs.now.right place) }
{
    let column = l.column(place);
    match key_at(&keys.left, place) {
        Some(k) => {
            let other = r.column(*keys.right.at(k));
            let made = key_column(alloc, &column, &other, pairs)?;
            Ok(made)
        }
        None => {
            let made = take(alloc, column, &pairs.left)?;
            Ok(made)
        }
    }
}

// The columns of the left side on the joined rows.
#[tactic(auto, using(crate::proofs::Hints::left_columns))]
fn left_columns(
    alloc: Global,
    l: &ObjRef<'_>,
    r: &ObjRef<'_>,
    keys: &MergeKeys,
    pairs: &Pairs,
) -> Result<Blocks, NoMemory>
    requires keys { AreAlike l.now r.now keys.now }
    requires rows { AreRowsMet l.now r.now pairs.now }
    ensures single { IfOk result (All IsSingle) }
    ensures columns { IfOk result (λ made. columns_of made ≡ map (left_column_on Na l.now.columns
        r.now.columns (keys_value keys.now) pairs.now.left pairs.now.right)
        (range_with_len 0 (length l.now.columns))) }
{
    let mut made = Blocks::new(alloc);
    for place in 0..l.columns() {
        let column = left_column(alloc, l, r, keys, pairs, place)?;
        made.push(column.into_block())?;
    }
    Ok(made)
}

// The columns of both sides on the joined rows, those of the left first, and of the right those at these places.
pub(crate) fn columns_met(
    alloc: Global,
    l: &ObjRef<'_>,
    r: &ObjRef<'_>,
    keys: &MergeKeys,
    rights: &Places,
    pairs: &Pairs,
) -> Result<Blocks, NoMemory>
    requires keys { AreAlike l.now r.now keys.now }
    requires rights { AreColumnsOf r.now rights.now }
    requires rows { AreRowsMet l.now r.now pairs.now }
    ensures single { IfOk result (All IsSingle) }
    ensures columns { IfOk result (λ made. columns_of made ≡ merged_columns Na l.now.columns
        r.now.columns (keys_value keys.now) rights.now pairs.now.left pairs.now.right) }
{
    let mut made = left_columns(alloc, l, r, keys, pairs)?;
    for k in 0..rights.len() {
        let column = take(alloc, r.column(*rights.at(k)), &pairs.right)?;
        made.push(column.into_block())?;
    }
    Ok(made)
}
