// Which cells are missing, and what stands in their place.
ghost use Rattle.std.specs.Prelude.{◌≡◌, ◌||◌, ℕ, List, true, false, not, map, unwrap_or, is_some, Option, Some, IfOk, if◌then◌else◌};
ghost use Rattle.cell_core.specs.declared.cell.Kind.TheVariants.{Boolean};
ghost use Rattle.column_core.specs.cells.Cell.{datum, holds};
ghost use Rattle.column_core.specs.Columns.{column_with, truth_cell};
ghost use Rattle.column_core.specs.Lanes.{lane_row};
ghost use Rattle.column_operators.specs.Marks.{missing_mark, filled_cell, mark_of, filled_value, mark_pair, filled_pair};

use crate::maps::{TotalOp, map_lane};
use cell_core::{Cell, NoMemory};
use column_core::{
    Borrowed, ColRef, Column, Element, Lane, Nothing, RowOp, number_in, text_in, truth_in,
};
use nullable_array::{PairOp, Side, by_sides};
use std::alloc::Global;

/// Whether a value is missing, or whether it is there.
#[derive(Drop)]
struct Mark {
    missing: bool,
}

impl<T: Drop> RowOp<T, (), bool> for Mark {
    ghost row_of = { λ s x _. Some (Some (mark_of s.missing x)) };

    #[inline(always)]
    fn row(&self, x: Option<T>, _: Option<()>) -> Option<Option<bool>>
        ensures { result ≡ Some (Some (mark_of self.now.missing x)) }
    {
        match x {
            Some(_) => Some(Some(!self.missing)),
            None => Some(Some(self.missing)),
        }
    }
}

impl<T: Drop> TotalOp<T, bool> for Mark {
    ghost made = { λ s x. Some (mark_of s.missing x) };

    ghost total = { λ s x i. Some (Some (mark_of s.missing x)) };
}

impl<T: Drop> PairOp<T, (), bool> for Mark {
    ghost flag_of = { λ _ _ _ _ _. true };

    ghost value_of = { λ s _ p _ _. if p then not s.missing else s.missing };

    #[inline(always)]
    fn flag(&self, _: T, _: bool, _: (), _: bool) -> bool {
        true
    }

    #[inline(always)]
    fn value(&self, _: T, p: bool, _: (), _: bool) -> bool
        ensures { result ≡ (if p then not self.now.missing else self.now.missing) }
    {
        if p { !self.missing } else { self.missing }
    }

    ghost row_is = { λ s x p _ _. mark_pair s.missing x p };
}

/// A value, or none, in place of a missing one.
#[derive(Drop)]
struct Fill<T> {
    value: Option<T>,
}

impl<T: Copy + Drop> RowOp<T, (), T> for Fill<T> {
    ghost row_of = { λ s x _. Some (filled_value s.value x) };

    #[inline(always)]
    fn row(&self, x: Option<T>, _: Option<()>) -> Option<Option<T>>
        ensures { result ≡ Some (filled_value self.now.value x) }
    {
        match x {
            Some(x) => Some(Some(x)),
            None => Some(self.value),
        }
    }
}

impl<T: Copy + Drop> TotalOp<T, T> for Fill<T> {
    ghost made = { λ s. filled_value s.value };

    ghost total = { λ s x i. Some (filled_value s.value x) };
}

impl<T: Copy + Drop> PairOp<T, (), T> for Fill<T> {
    ghost flag_of = { λ s _ p _ _. p || is_some s.value };

    ghost value_of = { λ s x p _ _. if p then x else unwrap_or s.value x };

    #[inline(always)]
    fn flag(&self, _: T, p: bool, _: (), _: bool) -> bool
        ensures { result ≡ (p || is_some self.now.value) }
    {
        p | self.value.is_some()
    }

    #[inline(always)]
    fn value(&self, x: T, p: bool, _: (), _: bool) -> T
        ensures { result ≡ (if p then x else unwrap_or self.now.value x) }
    {
        if p { x } else { self.value.unwrap_or(x) }
    }

    ghost row_is = { λ s x p _ _. filled_pair s.value x p };
}

/// Whether each cell is missing.
pub fn isna(alloc: Global, a: ColRef<'_>) -> Result<Column, NoMemory>
    ensures { IfOk result (λ c. c
        ≡ record { kind = Boolean; cells = map (missing_mark true) a.entry.cells }) }
{
    marked(alloc, &a, true)
}

/// Whether each cell is there.
pub fn notna(alloc: Global, a: ColRef<'_>) -> Result<Column, NoMemory>
    ensures { IfOk result (λ c. c
        ≡ record { kind = Boolean; cells = map (missing_mark false) a.entry.cells }) }
{
    marked(alloc, &a, false)
}

fn marked(alloc: Global, a: &ColRef<'_>, missing: bool) -> Result<Column, NoMemory>
    ensures { IfOk result (λ c. c
        ≡ record { kind = Boolean; cells = map (missing_mark missing) a.now.cells }) }
{
    let mark = Mark { missing };
    match &a.lanes {
        Borrowed::Ints(lane) => mark_lane(alloc, &mark, lane),
        Borrowed::Truths(lane) => mark_lane(alloc, &mark, lane),
        Borrowed::Texts(lane) => mark_lane(alloc, &mark, lane),
    }
}

fn mark_lane<T: Copy + Drop>(
    alloc: Global,
    mark: &Mark,
    a: &Lane<'_, T>,
) -> Result<Column, NoMemory>
    ensures { IfOk result (λ c. c ≡ column_with Boolean truth_cell a.now.count
        (λ k. Some (mark_of mark.now.missing
        (lane_row a.now.values.now a.now.present.now a.now.start a.now.stride a.now.back k)))) }
{
    match a.dense() {
        Some(side) => mark_side(alloc, mark, side),
        None => map_lane(alloc, mark, a),
    }
}

// The same of values that lie side by side: one pass over their flags.
fn mark_side<T: Copy + Drop, A: Side<T>>(
    alloc: Global,
    mark: &Mark,
    a: A,
) -> Result<Column, NoMemory>
    ensures { IfOk result (λ c. c
        ≡ column_with Boolean truth_cell (A.count_of a)
        (λ k. Some (mark_of mark.now.missing (A.row_of a k)))) }
{
    let nothing = Nothing { count: a.count() };
    let rows = by_sides(alloc, mark, a, nothing)?;
    Ok(bool::column(rows))
}

/// The cells, with this one, which the column's kind holds, in place of each that is missing.
pub fn fillna(alloc: Global, a: ColRef<'_>, value: Cell) -> Result<Column, NoMemory>
    requires { (texts : List (List ℕ)) → holds a.kind (datum texts value) ≡ true }
    ensures { IfOk result (λ c. c
        ≡ record { kind = a.entry.kind; cells = map (filled_cell value) a.entry.cells }) }
{
    match &a.lanes {
        Borrowed::Ints(lane) => fill_lane(alloc, lane, number_in(value)),
        Borrowed::Truths(lane) => fill_lane(alloc, lane, truth_in(value)),
        Borrowed::Texts(lane) => fill_lane(alloc, lane, text_in(value)),
    }
}

fn fill_lane<T: Element>(
    alloc: Global,
    a: &Lane<'_, T>,
    value: Option<T>,
) -> Result<Column, NoMemory>
    ensures { IfOk result (λ c. c ≡ column_with T.kind T.cell a.now.count
        (λ k. filled_value value
        (lane_row a.now.values.now a.now.present.now a.now.start a.now.stride a.now.back k))) }
{
    let fill = Fill { value };
    match a.dense() {
        Some(side) => fill_side(alloc, &fill, side),
        None => map_lane(alloc, &fill, a),
    }
}

// The same of values that lie side by side.
fn fill_side<T: Element, A: Side<T>>(
    alloc: Global,
    fill: &Fill<T>,
    a: A,
) -> Result<Column, NoMemory>
    ensures { IfOk result (λ c. c
        ≡ column_with T.kind T.cell (A.count_of a)
        (λ k. filled_value fill.now.value (A.row_of a k))) }
{
    let nothing = Nothing { count: a.count() };
    let rows = by_sides(alloc, fill, a, nothing)?;
    Ok(T::column(rows))
}
