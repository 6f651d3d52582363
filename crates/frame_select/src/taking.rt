// Tables of rows that are taken from another table.
ghost use Rattle.std.specs.Prelude.{◌≡◌, ◌<◌, length, map, slice_index, All, Some, IfOk};
ghost use Rattle.column_core.specs.Columns.{column_with};
ghost use Rattle.column_core.specs.Lanes.{lane_row};
ghost use Rattle.column_core.specs.Moves.{picked_row, IsPlaceOf};
ghost use Rattle.frame_store.specs.tables.Valid.{AreHeadings};
ghost use Rattle.frame_store.specs.Parts.{block_column, IsSingle};
ghost use Rattle.frame_select.specs.Chosen.{cells_by_place, columns_at, chosen, chosen_under};

use cell_core::{NoMemory, Places, Shape};
use column_core::{Borrowed, ColRef, Column, Element, Lane, Nothing, RowOp, Source, by_rows};
use frame_store::{Blocks, Headings, ObjRef, Table};
use std::alloc::Global;

/// Places of rows.
#[derive(Drop)]
struct PlaceRows<'a> {
    places: &'a Places,
}

impl Source<usize> for PlaceRows<'_> {
    ghost count_of = { λ s. length s.places.now };

    ghost row_of = { λ s k. Some (slice_index s.places.now k) };

    #[inline(always)]
    fn count(&self) -> usize {
        self.places.len()
    }

    #[inline(always)]
    fn get(&self, row: usize) -> Option<usize>
        requires { row < length self.now.places.now }
        ensures { result ≡ Some (slice_index self.now.places.now row) }
    {
        Some(*self.places.at(row))
    }
}

/// The row of another source at a place.
#[derive(Drop)]
struct RowAt<'s, A> {
    from: &'s A,
}

impl<T, A: Source<T>> RowOp<usize, (), T> for RowAt<'_, A> {
    ghost takes = { λ s x _. IsPlaceOf (A.count_of s.from.now) x };

    ghost row_of = { λ s x _. Some (picked_row (A.row_of s.from.now) x) };

    #[inline(always)]
    fn row(&self, x: Option<usize>, _: Option<()>) -> Option<Option<T>>
        requires { IsPlaceOf (A.count_of self.now.from.now) x }
        ensures { result ≡ Some (picked_row (A.row_of self.now.from.now) x) }
    {
        match x {
            Some(place) => Some(self.from.get(place)),
            None => Some(None),
        }
    }
}

// The rows of a source at these places.
fn chosen_rows<T: Element, A: Source<T>>(
    alloc: Global,
    a: &A,
    places: &Places,
) -> Result<Column, NoMemory>
    requires { All (λ place. place < A.count_of a.now) places.now }
    ensures { IfOk result (λ c. c ≡ column_with T.kind T.cell (length places.now)
        (λ k. A.row_of a.now (slice_index places.now k))) }
{
    let count = places.len();
    // No row is refused.
    match by_rows(
        alloc,
        &RowAt { from: a },
        T::blank(),
        &PlaceRows { places },
        &Nothing { count },
    ) {
        Ok(rows) => Ok(T::column(rows)),
        Err(_) => Err(NoMemory),
    }
}

// The values at these places, by a walk of its own where they lie side by side.
fn chosen_lane<T: Element>(
    alloc: Global,
    lane: &Lane<'_, T>,
    places: &Places,
) -> Result<Column, NoMemory>
    requires { All (λ place. place < lane.now.count) places.now }
    ensures { IfOk result (λ c. c ≡ column_with T.kind T.cell (length places.now)
        (λ k. lane_row lane.now.values.now lane.now.present.now lane.now.start lane.now.stride
        lane.now.back (slice_index places.now k))) }
{
    match lane.dense() {
        Some(side) => chosen_rows(alloc, &side, places),
        None => chosen_rows(alloc, lane, places),
    }
}

// The cells of a column at these rows, in their order.
fn chosen_column(alloc: Global, a: ColRef<'_>, rows: &Places) -> Result<Column, NoMemory>
    requires { All (λ row. row < length a.cells) rows.now }
    ensures { IfOk result (λ c. c ≡ cells_by_place rows.now a.entry) }
{
    match &a.lanes {
        Borrowed::Ints(lane) => chosen_lane(alloc, lane, rows),
        Borrowed::Truths(lane) => chosen_lane(alloc, lane, rows),
        Borrowed::Texts(lane) => chosen_lane(alloc, lane, rows),
    }
}

/// The cells of these columns at these rows, each column in a block of its own. `NoMemory` is the only refusal.
#[tactic(auto, using(crate::proofs::Hints::chosen_blocks))]
pub fn chosen_blocks(
    alloc: Global,
    on: &ObjRef<'_>,
    rows: &Places,
    columns: &Places,
) -> Result<Blocks, NoMemory>
    requires rows { All (λ row. row < length on.now.labels) rows.now }
    requires columns { All (λ place. place < length on.now.columns) columns.now }
    ensures columns { IfOk result (λ made. map block_column made
        ≡ columns_at rows.now columns.now on.now) }
    ensures single { IfOk result (λ made. All IsSingle made) }
{
    let mut blocks = Blocks::new(alloc);
    for place in columns.as_slice() {
        let column = chosen_column(alloc, on.column(*place), rows)?;
        blocks.push(column.into_block())?;
    }
    Ok(blocks)
}

/// The table of these rows and columns of another one, under these headings, one for each column.
/// `NoMemory` is the only refusal.
#[tactic(auto, using(crate::proofs::TakeLaws::chosen_whole))]
pub fn chosen_table(
    alloc: Global,
    on: &ObjRef<'_>,
    shape: Shape,
    rows: &Places,
    columns: &Places,
    headings: Headings,
) -> Result<Table, NoMemory>
    requires rows { All (λ row. row < length on.now.labels) rows.now }
    requires columns { All (λ place. place < length on.now.columns) columns.now }
    requires headed { length headings.labels ≡ length columns.now }
    requires headings { AreHeadings shape headings.columns_name headings.labels }
    ensures { IfOk result (λ made. made ≡ chosen shape headings rows.now columns.now on.now) }
{
    let blocks = chosen_blocks(alloc, on, rows, columns)?;
    let axis = on.axis().take(alloc, rows)?;
    Ok(Table::new(shape, axis, headings, blocks))
}

/// The table of these rows and columns of another one without so many of its leading levels, under these
/// headings, one for each column. `NoMemory` is the only refusal.
#[tactic(auto, using(crate::proofs::Hints::table_under))]
pub(crate) fn table_under(
    alloc: Global,
    on: &ObjRef<'_>,
    shape: Shape,
    rows: &Places,
    levels: usize,
    columns: &Places,
    headings: Headings,
) -> Result<Table, NoMemory>
    requires rows { All (λ row. row < length on.now.labels) rows.now }
    requires levels { levels < length on.now.level_names }
    requires columns { All (λ place. place < length on.now.columns) columns.now }
    requires headed { length headings.labels ≡ length columns.now }
    requires headings { AreHeadings shape headings.columns_name headings.labels }
    ensures { IfOk result (λ made. made
        ≡ chosen_under levels shape headings rows.now columns.now on.now) }
{
    let blocks = chosen_blocks(alloc, on, rows, columns)?;
    let taken = on.axis().take(alloc, rows)?;
    let axis = taken.drop_levels(alloc, levels)?;
    Ok(Table::new(shape, axis, headings, blocks))
}
