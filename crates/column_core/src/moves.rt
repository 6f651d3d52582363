// Columns of rows that are taken from another column.
ghost use Rattle.std.specs.Prelude.{◌≡◌, ◌<◌, ◌≤◌, ◌-◌, ◌++◌, ℕ, ℤ, All, length, take, drop, replicate, Option, Some, IfOk};
ghost use Rattle.cell_core.specs.declared.cell.Cell.TheVariants.{Na};
ghost use Rattle.meaning_cells.specs.Column.{shifted, taken};
ghost use Rattle.column_core.specs.Columns.{column_with};
ghost use Rattle.column_core.specs.Lanes.{lane_row, option_at};
ghost use Rattle.column_core.specs.Moves.{moved_row, is_ahead, distance_of, gap_at, picked_row, IsPlaceOf};

use crate::columns::{Borrowed, ColRef, Column, Element};
use crate::lanes::{Lane, Owned};
use crate::rows::{RowOp, Source, by_rows};
use crate::sources::{Dense, Nothing};
use cell_core::{Gaps, NoMemory};
use std::alloc::Global;

/// The same value.
#[derive(Drop)]
pub struct Keep;

impl<T> RowOp<T, (), T> for Keep {
    ghost row_of = { λ _ x _. Some x };

    #[inline(always)]
    fn row(&self, x: Option<T>, _: Option<()>) -> Option<Option<T>>
        ensures { result ≡ Some x }
    {
        Some(x)
    }
}

/// The rows of another source, so far ahead or behind.
#[derive(Drop)]
struct Moved<'s, A> {
    source: &'s A,
    distance: usize,
    ahead: bool,
}

impl<T, A: Source<T>> Source<T> for Moved<'_, A> {
    ghost count_of = { λ s. A.count_of s.source.now };

    ghost row_of = { λ s. moved_row (A.count_of s.source.now) (A.row_of s.source.now) s.distance s.ahead };

    #[inline(always)]
    fn count(&self) -> usize
        ensures { result ≡ A.count_of self.now.source.now }
    {
        self.source.count()
    }

    #[inline(always)]
    fn get(&self, row: usize) -> Option<T>
        requires { row < A.count_of self.now.source.now }
        ensures { result ≡ moved_row (A.count_of self.now.source.now)
            (A.row_of self.now.source.now) self.now.distance self.now.ahead row }
    {
        if self.ahead {
            if self.distance < self.source.count() - row {
                self.source.get(row + self.distance)
            } else {
                None
            }
        } else if row < self.distance {
            None
        } else {
            self.source.get(row - self.distance)
        }
    }
}

/// Places of rows, each of which may be missing.
#[derive(Drop)]
struct Picks<'a> {
    places: &'a Gaps,
}

impl Source<usize> for Picks<'_> {
    ghost count_of = { λ s. length s.places.now };

    ghost row_of = { λ s k. gap_at s.places.now k };

    #[inline(always)]
    fn count(&self) -> usize {
        self.places.len()
    }

    #[inline(always)]
    fn get(&self, row: usize) -> Option<usize>
        requires { row < length self.now.places.now }
        ensures { result ≡ gap_at self.now.places.now row }
    {
        *self.places.at(row)
    }
}

/// The row of another source at a place.
#[derive(Drop)]
struct Pick<'s, A> {
    from: &'s A,
}

impl<T, A: Source<T>> RowOp<usize, (), T> for Pick<'_, A> {
    ghost takes = { λ s x _. IsPlaceOf (A.count_of s.from.now) x };

    ghost row_of = { λ s x _. Some (picked_row (A.row_of s.from.now) x) };

    #[inline(always)]
    fn row(&self, x: Option<usize>, _: Option<()>) -> Option<Option<T>>
        requires { IsPlaceOf (A.count_of self.now.from.now) x }
        ensures { result ≡ Some (picked_row (A.row_of self.now.from.now) x) }
    {
        match x {
            Some(place) => Some(self.from.get(place)),
            None => Some(None),
        }
    }
}

/// The rows of a source, as a column.
pub fn copied<T: Element, A: Source<T>>(alloc: Global, a: &A) -> Result<Column, NoMemory>
    ensures { IfOk result (λ c. c ≡ column_with T.kind T.cell (A.count_of a.now) (A.row_of a.now)) }
{
    // No row is refused.
    match by_rows(alloc, &Keep, T::blank(), a, &Nothing { count: a.count() }) {
        Ok(rows) => Ok(T::column(rows)),
        Err(_) => Err(NoMemory),
    }
}

/// The rows of a lane, as a column: two slices are copied where the values lie side by side.
pub fn copied_lane<T: Element>(alloc: Global, a: &Lane<'_, T>) -> Result<Column, NoMemory>
    ensures { IfOk result (λ c. c
        ≡ column_with T.kind T.cell a.now.count
        (lane_row a.now.values.now a.now.present.now a.now.start a.now.stride a.now.back)) }
{
    match a.dense() {
        Some(side) => copied_side(alloc, &side),
        None => copied(alloc, a),
    }
}

fn copied_side<T: Element>(alloc: Global, a: &Dense<'_, T>) -> Result<Column, NoMemory>
    ensures { IfOk result (λ c. c
        ≡ column_with T.kind T.cell (length a.now.values.now)
        (option_at a.now.values.now a.now.present.now)) }
{
    let values = Vec::from_slice(alloc, a.values)?;
    let present = Vec::from_slice(alloc, a.present)?;
    Ok(T::column(Owned { values, present }))
}

impl ColRef<'_> {
    /// The cells as a column of its own.
    pub fn to_column(&self, alloc: Global) -> Result<Column, NoMemory>
        ensures { IfOk result (λ c. c ≡ self.now) }
    {
        match &self.lanes {
            Borrowed::Ints(lane) => copied_lane(alloc, lane),
            Borrowed::Truths(lane) => copied_lane(alloc, lane),
            Borrowed::Texts(lane) => copied_lane(alloc, lane),
        }
    }
}

// The rows of a source at these places.
fn picked<T: Element, A: Source<T>>(alloc: Global, a: &A, places: &Gaps) -> Result<Column, NoMemory>
    requires { All (IsPlaceOf (A.count_of a.now)) places.now }
    ensures { IfOk result (λ c. c
        ≡ column_with T.kind T.cell (length places.now)
        (λ k. picked_row (A.row_of a.now) (gap_at places.now k))) }
{
    // No row is refused.
    match by_rows(
        alloc,
        &Pick { from: a },
        T::blank(),
        &Picks { places },
        &Nothing {
            count: places.len(),
        },
    ) {
        Ok(rows) => Ok(T::column(rows)),
        Err(_) => Err(NoMemory),
    }
}

/// Row i holds row i - `periods`, or NA where there is no such row.
#[tactic(auto, using(crate::proofs::Hints::shift))]
pub fn shift(alloc: Global, a: ColRef<'_>, periods: i64) -> Result<Column, NoMemory>
    ensures kind { IfOk result (λ c. c.kind ≡ a.entry.kind) }
    ensures cells { IfOk result (λ c. c.cells ≡ shifted Na a.entry.cells periods) }
{
    let distance = distance(periods);
    let ahead = is_below_zero(periods);
    match &a.lanes {
        Borrowed::Ints(lane) => shift_lane(alloc, lane, distance, ahead),
        Borrowed::Truths(lane) => shift_lane(alloc, lane, distance, ahead),
        Borrowed::Texts(lane) => shift_lane(alloc, lane, distance, ahead),
    }
}

fn shift_lane<T: Element>(
    alloc: Global,
    a: &Lane<'_, T>,
    distance: usize,
    ahead: bool,
) -> Result<Column, NoMemory>
    ensures kind { IfOk result (λ c. c.kind ≡ T.kind) }
    ensures cells { (p : ℤ) → distance ≡ distance_of p → ahead ≡ is_ahead p →
        IfOk result (λ c. c.cells
        ≡ shifted Na (column_with T.kind T.cell a.now.count
        (lane_row a.now.values.now a.now.present.now a.now.start a.now.stride a.now.back)).cells
        p) }
{
    match a.dense() {
        Some(side) => shift_side(alloc, &side, distance, ahead),
        None => shift_rows(alloc, a, distance, ahead),
    }
}

// The same of values that lie side by side: a part of them is copied, beside rows of nothing.
fn shift_side<T: Element>(
    alloc: Global,
    a: &Dense<'_, T>,
    distance: usize,
    ahead: bool,
) -> Result<Column, NoMemory>
    ensures kind { IfOk result (λ c. c.kind ≡ T.kind) }
    ensures cells { (p : ℤ) → distance ≡ distance_of p → ahead ≡ is_ahead p →
        IfOk result (λ c. c.cells
        ≡ shifted Na (column_with T.kind T.cell (length a.now.values.now)
        (option_at a.now.values.now a.now.present.now)).cells p) }
{
    let moved = moved_side(alloc, a, distance, ahead)?;
    Ok(T::column(moved))
}

fn moved_side<T: Element>(
    alloc: Global,
    a: &Dense<'_, T>,
    distance: usize,
    ahead: bool,
) -> Result<Owned<T>, NoMemory>
    ensures count { IfOk result (λ o. length o.values.items ≡ length a.now.values.now) }
    ensures rows { IfOk result (λ o. (k : ℕ) → k < length a.now.values.now → option_at o.values.items o.present.items k
        ≡ moved_row (length a.now.values.now)
        (option_at a.now.values.now a.now.present.now) distance ahead k) }
{
    let count = a.values.len();
    if count <= distance {
        return Owned::missing(alloc, T::blank(), count);
    }
    if ahead {
        let values = moved_up(alloc, a.values, distance, T::blank())?;
        let present = moved_up(alloc, a.present, distance, false)?;
        Ok(Owned { values, present })
    } else {
        let values = moved_down(alloc, a.values, distance, T::blank())?;
        let present = moved_down(alloc, a.present, distance, false)?;
        Ok(Owned { values, present })
    }
}

// The later items, and then so many blanks.
fn moved_up<T: Copy>(
    alloc: Global,
    items: &[T],
    distance: usize,
    blank: T,
) -> Result<Vec<T>, NoMemory>
    requires { distance ≤ length items.now }
    ensures { IfOk result (λ v. v.items ≡ drop distance items.now ++ replicate distance blank) }
{
    let mut moved = Vec::with_capacity(alloc, items.len())?;
    moved.extend_from_slice(&items[distance..])?;
    moved.resize(items.len(), blank)?;
    Ok(moved)
}

// So many blanks, and then the earlier items.
fn moved_down<T: Copy>(
    alloc: Global,
    items: &[T],
    distance: usize,
    blank: T,
) -> Result<Vec<T>, NoMemory>
    requires { distance ≤ length items.now }
    ensures { IfOk result (λ v. v.items
        ≡ replicate distance blank ++ take (length items.now - distance) items.now) }
{
    let mut moved = Vec::with_capacity(alloc, items.len())?;
    moved.resize(distance, blank)?;
    moved.extend_from_slice(&items[..items.len() - distance])?;
    Ok(moved)
}

fn shift_rows<T: Element, A: Source<T>>(
    alloc: Global,
    a: &A,
    distance: usize,
    ahead: bool,
) -> Result<Column, NoMemory>
    ensures kind { IfOk result (λ c. c.kind ≡ T.kind) }
    ensures cells { (p : ℤ) → distance ≡ distance_of p → ahead ≡ is_ahead p →
        IfOk result (λ c. c.cells
        ≡ shifted Na (column_with T.kind T.cell (A.count_of a.now) (A.row_of a.now)).cells p) }
{
    let moved = Moved {
        source: a,
        distance,
        ahead,
    };
    copied(alloc, &moved)
}

/// How far a step goes, ahead or back. Takes no memory.
pub(crate) fn distance(periods: i64) -> usize
    ensures { result ≡ distance_of periods }
{
    periods.unsigned_abs() as usize
}

/// Whether a step goes back. Takes no memory.
pub(crate) fn is_below_zero(periods: i64) -> bool
    ensures { result ≡ is_ahead periods }
{
    periods < 0
}

/// The cells at these places, in their order, with NA at each gap. The places are rows of the column.
pub fn take(alloc: Global, a: ColRef<'_>, places: &Gaps) -> Result<Column, NoMemory>
    requires { All (IsPlaceOf (length a.cells)) places.now }
    ensures kind { IfOk result (λ c. c.kind ≡ a.entry.kind) }
    ensures cells { IfOk result (λ c. c.cells ≡ taken Na a.entry.cells places.now) }
{
    match &a.lanes {
        Borrowed::Ints(lane) => take_lane(alloc, lane, places),
        Borrowed::Truths(lane) => take_lane(alloc, lane, places),
        Borrowed::Texts(lane) => take_lane(alloc, lane, places),
    }
}

fn take_lane<T: Element>(alloc: Global, a: &Lane<'_, T>, places: &Gaps) -> Result<Column, NoMemory>
    requires { All (IsPlaceOf a.now.count) places.now }
    ensures kind { IfOk result (λ c. c.kind ≡ T.kind) }
    ensures cells { IfOk result (λ c. c.cells
        ≡ taken Na (column_with T.kind T.cell a.now.count
        (lane_row a.now.values.now a.now.present.now a.now.start a.now.stride a.now.back)).cells
        places.now) }
{
    match a.dense() {
        Some(side) => take_rows(alloc, &side, places),
        None => take_rows(alloc, a, places),
    }
}

fn take_rows<T: Element, A: Source<T>>(
    alloc: Global,
    a: &A,
    places: &Gaps,
) -> Result<Column, NoMemory>
    requires { All (IsPlaceOf (A.count_of a.now)) places.now }
    ensures kind { IfOk result (λ c. c.kind ≡ T.kind) }
    ensures cells { IfOk result (λ c. c.cells
        ≡ taken Na (column_with T.kind T.cell (A.count_of a.now) (A.row_of a.now)).cells
        places.now) }
{
    picked(alloc, a, places)
}
