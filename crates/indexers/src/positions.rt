// The rows of positions.
ghost use Rattle.std.specs.Prelude.{◌≡◌, ◌≢◌, ◌<◌, ◌≤◌, ◌-◌, pos, unsigned_abs, IfOk, All};
ghost use Rattle.std.specs.Int.{div_ceil};
ghost use Rattle.cell_core.specs.Grids.{AreRowsBelow};
ghost use Rattle.column_core.specs.cells.Place.{place_of as row_of};
ghost use Rattle.index_core.specs.pick.Keys.{picked_by_place};
ghost use Rattle.index_core.specs.pick.Keys as key;
ghost use Rattle.index_core.specs.pick.Positions as meant;
ghost use Rattle.indexers.specs.Keys.{place_key};
ghost use Rattle.indexers.specs.PythonSlice.{PicksSlice};
ghost use Rattle.indexers.specs.Picks.{PicksBy, pick_of, as_it_is, IsSpanned};

use crate::keys::{KeyFault, Picked, PosKey, Positions};
use crate::spans::spanned;
use cell_core::{Places, Rows};
use std::alloc::Global;

/// The rows that a key of `iloc` picks among so many ("Selection by position" in the pandas user guide). A position is
/// counted from the end where it is negative. A slice is Python's: bounds are counted from the end where they are
/// negative and are clipped, and a step below 0 goes back from the first bound (`specs/PythonSlice.antt`).
///
/// # Errors
///
/// `OutOfRange` of a position that names no row, of several the first one, as it is written and with the number of rows.
/// `StepZero` exactly where a slice has a step of 0. `NoMemory` may come in place of any answer.
pub fn iloc_places(alloc: Global, count: usize, key: &PosKey) -> Result<Picked, KeyFault>
    ensures picked { PicksBy pick_of result (picked_by_place count (place_key key.now)) }
    ensures span { IfOk result (IsSpanned count) }
    ensures inside { IfOk result (λ picked. All (λ row. row < count) picked.places) }
    ensures slice { IfOk result (λ picked. PicksSlice count key.now picked.places) }
{
    match key {
        PosKey::One(position) => single_row(alloc, count, *position),
        PosKey::Many(positions) => rows_at(alloc, count, positions),
        PosKey::Span(from, to, step) => {
            let rows = slice_rows(count, *from, *to, step.unwrap_or(1))?;
            Ok(spanned(alloc, rows, count)?)
        }
    }
}

// The row at a position.
fn row_at(count: usize, position: i64) -> Result<usize, KeyFault>
    ensures { PicksBy as_it_is result (meant.row_at count position) }
{
    match place_of(position, count) {
        Some(row) => Ok(row),
        None => Err(KeyFault::OutOfRange(position, count)),
    }
}

// The row that a position names among so many: from the front, or below 0 from the back.
fn place_of(position: i64, count: usize) -> Option<usize>
    ensures { result ≡ row_of position count }
{
    let distance = position.unsigned_abs() as usize;
    if position >= 0 {
        (distance < count).then_some(distance)
    } else {
        count.checked_sub(distance)
    }
}

// The one row at a position.
fn single_row(alloc: Global, count: usize, position: i64) -> Result<Picked, KeyFault>
    ensures picked { PicksBy pick_of result (picked_by_place count (key.one_place position)) }
    ensures span { IfOk result (IsSpanned count) }
{
    let row = row_at(count, position)?;
    let mut places = Places::new(alloc);
    places.push(row)?;
    Ok(Picked {
        places,
        single: true,
        dropped: 0,
        span: None,
    })
}

// The rows at these positions.
fn rows_at(alloc: Global, count: usize, positions: &Positions) -> Result<Picked, KeyFault>
    ensures picked { PicksBy pick_of result (picked_by_place count (key.each_place positions.now)) }
    ensures span { IfOk result (IsSpanned count) }
{
    let mut places = Places::new(alloc);
    for k in 0..positions.len() {
        places.push(row_at(count, *positions.at(k))?)?;
    }
    Ok(Picked {
        places,
        single: false,
        dropped: 0,
        span: None,
    })
}

// How many of the rows stand before a bound, or an end where there is none.
fn rows_before(count: usize, bound: Option<i64>, end: usize) -> usize
    requires { end ≤ count }
    ensures before { result ≡ meant.bound_or (meant.rows_before count) end bound }
    ensures within { result ≤ count }
{
    let Some(position) = bound else {
        return end;
    };
    let distance = position.unsigned_abs() as usize;
    if position >= 0 {
        distance.min(count)
    } else {
        count.saturating_sub(distance)
    }
}

// How many of them stand up to a bound, or an end where there is none.
fn rows_through(count: usize, bound: Option<i64>, end: usize) -> usize
    requires { end ≤ count }
    ensures through { result ≡ meant.bound_or (meant.rows_through count) end bound }
    ensures within { result ≤ count }
{
    let Some(position) = bound else {
        return end;
    };
    let distance = position.unsigned_abs() as usize;
    if position >= 0 {
        (distance + 1).min(count)
    } else {
        count.saturating_sub(distance - 1)
    }
}

// The rows of a slice, as places at equal distances.
fn slice_rows(count: usize, from: Option<i64>, to: Option<i64>, step: i64) -> Result<Rows, KeyFault>
    ensures rows { PicksBy as_it_is result (meant.slice_with_step count from to step) }
    ensures below { IfOk result (λ rows. AreRowsBelow rows count) }
{
    if step == 0 {
        return Err(KeyFault::StepZero);
    }
    if step > 0 {
        let low = rows_before(count, from, 0);
        let high = rows_before(count, to, count);
        return Ok(Rows {
            start: low,
            step,
            count: steps(low, high, step),
        });
    }
    let low = rows_through(count, to, 0);
    let high = rows_through(count, from, count);
    Ok(Rows {
        start: high.saturating_sub(1),
        step,
        count: steps(low, high, step),
    })
}

// How many rows a step takes from the rows between two.
fn steps(low: usize, high: usize, step: i64) -> usize
    requires { step ≢ pos 0 }
    ensures { result ≡ div_ceil (high - low) (unsigned_abs step) }
{
    high.saturating_sub(low)
        .div_ceil(step.unsigned_abs() as usize)
}
