// Slices of code points, as Python has them.
ghost use Rattle.std.specs.Prelude.{◌≡◌, ◌≢◌, ◌<◌, ◌≤◌, ◌-◌, ◌^◌, ◌++◌, [], pos, length, string_bytes, unsigned_abs, Ok, IfOk, OnOk};
ghost use Rattle.std.specs.Int.{div_ceil};
ghost use Rattle.std.specs.Str.{chars, encode_utf8_all};
ghost use Rattle.cell_core.specs.Grids.{AreRowsBelow, IsPlace, place_from};
ghost use Rattle.column_core.specs.cells.Block.{strided};
ghost use Rattle.meaning_text.specs.pick.Positions.{bound_or, rows_before, rows_through, step_or_one};
ghost use Rattle.meaning_text.specs.Points.{slice_places, sliced};

use cell_core::{NoMemory, Rows};
use std::alloc::{AllocError, Global};

/// Writes the code points from a place up to a place, by a step.
#[tactic(auto, using(meaning_text::proofs::SliceLaws::slice_inside, meaning_text::proofs::SliceLaws::slice_points))]
pub(crate) fn push_slice(
    alloc: Global,
    text: &str,
    from: Option<i64>,
    to: Option<i64>,
    step: Option<i64>,
    out: &mut String,
) -> Result<(), NoMemory>
    requires empty { string_bytes out.old ≡ [] }
    requires moves { step_or_one step ≢ pos 0 }
    ensures { OnOk result (string_bytes out.new
        ≡ encode_utf8_all (sliced from to step (chars text.now))) }
{
    let points = points_of(alloc, text)?;
    let rows = slice_rows(points.len(), from, to, step_of(step));
    push_points(&points, rows, out)
}

/// The step of a slice: 1 where none is given.
pub(crate) fn step_of(step: Option<i64>) -> i64
    ensures { result ≡ step_or_one step }
{
    step.unwrap_or(1)
}

fn points_of(alloc: Global, text: &str) -> Result<Vec<char>, AllocError>
    ensures { IfOk result (λ v. v.items ≡ chars text.now) }
{
    text.chars().collect(alloc)
}

// Writes the code points at these places.
fn push_points(points: &[char], rows: Rows, out: &mut String) -> Result<(), NoMemory>
    requires { AreRowsBelow rows (length points.now) }
    ensures { OnOk result (string_bytes out.new
        ≡ string_bytes out.old ++ encode_utf8_all (strided 0 points.now rows)) }
{
    for row in 0..rows.count {
        out.push(points[place_of(rows, row)])?;
    }
    Ok(())
}

fn place_of(rows: Rows, row: usize) -> usize
    requires place { IsPlace rows.start rows.step row }
    requires small { place_from rows.start rows.step row < 2 ^ 64 }
    ensures { result ≡ place_from rows.start rows.step row }
{
    let distance = rows.step.unsigned_abs() as usize;
    if rows.step < 0 {
        rows.start - row * distance
    } else {
        rows.start + row * distance
    }
}

// The places of a slice among so many.
fn slice_rows(count: usize, from: Option<i64>, to: Option<i64>, step: i64) -> Rows
    requires { step ≢ pos 0 }
    ensures { slice_places count from to step ≡ Ok result }
{
    if step > 0 {
        let low = places_before(count, from, 0);
        let high = places_before(count, to, count);
        return Rows {
            start: low,
            step,
            count: steps(low, high, step),
        };
    }
    let low = places_through(count, to, 0);
    let high = places_through(count, from, count);
    Rows {
        start: high.saturating_sub(1),
        step,
        count: steps(low, high, step),
    }
}

// How many of the places stand before a bound, or an end where there is none.
fn places_before(count: usize, bound: Option<i64>, end: usize) -> usize
    requires { end ≤ count }
    ensures { result ≡ bound_or (rows_before count) end bound }
{
    let Some(position) = bound else {
        return end;
    };
    let distance = position.unsigned_abs() as usize;
    if position >= 0 {
        distance.min(count)
    } else {
        count.saturating_sub(distance)
    }
}

// How many of them stand up to a bound, or an end where there is none.
fn places_through(count: usize, bound: Option<i64>, end: usize) -> usize
    requires { end ≤ count }
    ensures { result ≡ bound_or (rows_through count) end bound }
{
    let Some(position) = bound else {
        return end;
    };
    let distance = position.unsigned_abs() as usize;
    if position >= 0 {
        (distance + 1).min(count)
    } else {
        count.saturating_sub(distance - 1)
    }
}

// How many places a step takes from those between two.
fn steps(low: usize, high: usize, step: i64) -> usize
    requires { step ≢ pos 0 }
    ensures { result ≡ div_ceil (high - low) (unsigned_abs step) }
{
    high.saturating_sub(low)
        .div_ceil(step.unsigned_abs() as usize)
}
