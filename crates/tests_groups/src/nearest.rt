// Rows that meet the nearest row of the other side.
ghost use Rattle.std.specs.Prelude.{◌≡◌, length, IfOk};
ghost use Rattle.factorize.specs.multi_index.Axes.{HaveLevels};

use crate::groups::columns_of;
use crate::joins::are;
use asof_merge::{AsofFault, Direction, asof_pairs, asof_rows_ungrouped};
use cell_core::{Cells, Gaps, Label, NoMemory, Side, Tuple, Tuples};
use column_core::{Borrowed, Column, cell_of_number};
use std::alloc::Global;

// The key of a row and the label of its group.
type Row = (Option<i64>, Label);

fn keys(alloc: Global, rows: &[Row]) -> Result<Cells, NoMemory>
    ensures { IfOk result (λ made. length made ≡ length rows.now) }
{
    let mut made = Cells::new(alloc);
    for (key, _) in rows {
        made.push(cell_of_number(*key))?;
    }
    Ok(made)
}

fn groups(alloc: Global, rows: &[Row]) -> Result<Tuples, NoMemory>
    ensures levels { IfOk result (λ made. HaveLevels 1 made) }
    ensures count { IfOk result (λ made. length made ≡ length rows.now) }
{
    let mut made = Tuples::new(alloc);
    for (_, group) in rows {
        made.push(Tuple::of(alloc, &[*group]))?;
    }
    Ok(made)
}

fn met(
    alloc: Global,
    left: &[Row],
    right: &[Row],
    direction: Direction,
    tolerance: Option<u64>,
) -> Result<Gaps, AsofFault> {
    let left_keys = keys(alloc, left)?;
    let right_keys = keys(alloc, right)?;
    let left_by = groups(alloc, left)?;
    let right_by = groups(alloc, right)?;
    asof_pairs(
        alloc,
        &left_keys,
        &right_keys,
        &left_by,
        &right_by,
        direction,
        tolerance,
    )
}

// Whether the rows of the left side meet these.
fn meet(found: Result<Gaps, AsofFault>, wanted: &[Option<usize>]) -> bool {
    match found {
        Ok(found) => are(&found, wanted),
        Err(_) => false,
    }
}

const A: Label = Label::Int(1);

const B: Label = Label::Int(2);

// As `pd.merge_asof(l, r, on="t", by="g")`.
#[test]
fn the_last_row_of_the_group_is_met(rt: HostRuntime) {
    let left = [(Some(1), A), (Some(5), B), (Some(10), A)];
    let right = [(Some(1), A), (Some(5), B), (Some(5), B), (Some(9), A)];
    let found = met(rt.alloc(), &left, &right, Direction::Backward, None);
    assert!(rt; meet(found, &[Some(0), Some(2), Some(3)]));
}

// As `pd.merge_asof(l, r, on="t", direction="forward", tolerance=3)`.
#[test]
fn the_first_row_within_the_tolerance_is_met(rt: HostRuntime) {
    let left = [(Some(1), A), (Some(5), A), (Some(10), A)];
    let right = [(Some(1), A), (Some(5), A), (Some(5), A), (Some(9), A)];
    let found = met(rt.alloc(), &left, &right, Direction::Forward, Some(3));
    assert!(rt; meet(found, &[Some(0), Some(1), None]));
}

#[test]
fn missing_groups_are_one_group(rt: HostRuntime) {
    let left = [(Some(4), Label::Na), (Some(4), A)];
    let right = [(Some(2), Label::Na), (Some(3), B)];
    let found = met(rt.alloc(), &left, &right, Direction::Backward, None);
    assert!(rt; meet(found, &[Some(0), None]));
}

#[test]
fn keys_are_farther_apart_than_64_bits_with_a_sign(rt: HostRuntime) {
    let (left, right) = ([(Some(i64::MAX), A)], [(Some(i64::MIN), A)]);
    let far = met(
        rt.alloc(),
        &left,
        &right,
        Direction::Backward,
        Some(u64::MAX),
    );
    assert!(rt; meet(far, &[Some(0)]));
    let near = met(
        rt.alloc(),
        &left,
        &right,
        Direction::Backward,
        Some(u64::MAX - 1),
    );
    assert!(rt; meet(near, &[None]));
}

fn met_alone(alloc: Global, left: &Column, right: &Column) -> Result<Gaps, AsofFault> {
    match (left.as_ref().lanes, right.as_ref().lanes) {
        (Borrowed::Ints(left), Borrowed::Ints(right)) => {
            asof_rows_ungrouped(alloc, &left, &right, Direction::Backward, None)
        }
        _ => Err(AsofFault::NoMemory),
    }
}

// As `pd.merge_asof(l, r, on="t")`.
#[test]
fn rows_without_groups_meet(rt: HostRuntime) -> Result<(), NoMemory> {
    let keys: [&[Option<i64>]; 2] = [&[Some(1), Some(5), Some(10)], &[Some(2), Some(5), Some(5)]];
    let columns = columns_of(rt.alloc(), &keys)?;
    assert!(rt; columns.len() == 2);
    let found = met_alone(rt.alloc(), &columns[0], &columns[1]);
    assert!(rt; meet(found, &[None, Some(2), Some(2)]));
    Ok(())
}

// As `pd.merge_asof(u, l, on="t")`, which refuses too.
#[test]
fn a_side_is_not_sorted(rt: HostRuntime) {
    let (falling, missing) = ([(Some(5), A), (Some(1), A)], [(Some(1), A), (None, A)]);
    let left = met(rt.alloc(), &falling, &missing, Direction::Backward, None);
    assert!(rt; matches!(left, Err(AsofFault::Unsorted(Side::Left, 1))));
    let right = met(
        rt.alloc(),
        &missing[..1],
        &missing,
        Direction::Backward,
        None,
    );
    assert!(rt; matches!(right, Err(AsofFault::Unsorted(Side::Right, 1))));
}
