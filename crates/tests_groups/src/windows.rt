// Windows that slide over rows, and what runs up to each row.
use cell_core::{Cell, Kind, NoMemory};
use column_core::{Column, cell_of_number};
use rolling::{Cumulation, Expanding, Window, expand, roll};
use std::alloc::Global;

const SIZE: usize = 1_048_576;

const ROWS: u32 = 2_097_152;

// The last answer for the numbers of so many rows, from 0 on or down to 0.
fn last_answer(alloc: Global, op: Cumulation, is_ascending: bool) -> Result<Cell, NoMemory> {
    let mut window = Window::with_size(alloc, SIZE, 1, op)?;
    let mut last = Cell::Na;
    for row in 0..ROWS {
        let number = if is_ascending { row } else { ROWS - 1 - row };
        last = window.push(cell_of_number(Some(i64::from(number))));
    }
    Ok(last)
}

#[test]
fn long_windows_slide(rt: HostRuntime) -> Result<(), NoMemory> {
    let sum = last_answer(rt.alloc(), Cumulation::Sum, true)?;
    assert!(rt; sum == Cell::Int(1_649_266_917_376));
    let least = last_answer(rt.alloc(), Cumulation::Min, true)?;
    assert!(rt; least == Cell::Int(1_048_576));
    let greatest = last_answer(rt.alloc(), Cumulation::Max, false)?;
    assert!(rt; greatest == Cell::Int(1_048_575));
    Ok(())
}

// Whether a window of three cells with at least two present answers so.
fn answers(
    alloc: Global,
    op: Cumulation,
    numbers: &[Option<i64>],
    wanted: &[Cell],
) -> Result<bool, NoMemory> {
    let mut window = Window::with_size(alloc, 3, 2, op)?;
    let mut are_wanted = true;
    for (number, cell) in numbers.iter().zip(wanted) {
        are_wanted &= window.push(cell_of_number(*number)) == *cell;
    }
    Ok(are_wanted)
}

#[test]
fn equal_cells_leave_one_after_the_other(rt: HostRuntime) -> Result<(), NoMemory> {
    let numbers = [Some(4), Some(2), Some(2), None, Some(5), None, None];
    let two = Cell::Int(2);
    let least = [Cell::Na, two, two, two, two, Cell::Na, Cell::Na];
    assert!(rt; answers(rt.alloc(), Cumulation::Min, &numbers, &least)?);
    let greatest = [
        Cell::Na,
        Cell::Int(4),
        Cell::Int(4),
        two,
        Cell::Int(5),
        Cell::Na,
        Cell::Na,
    ];
    assert!(rt; answers(rt.alloc(), Cumulation::Max, &numbers, &greatest)?);
    Ok(())
}

#[test]
fn all_cells_are_kept_by_what_expands(rt: HostRuntime) {
    let mut least = Expanding::new(2, Cumulation::Min);
    assert!(rt; least.push(Cell::Int(1)) == Cell::Na);
    assert!(rt; least.push(Cell::Na) == Cell::Na);
    assert!(rt; least.push(Cell::Int(4)) == Cell::Int(1));
    assert!(rt; least.push(Cell::Int(-3)) == Cell::Int(-3));
}

// The last of three cells.
fn third(column: &Column) -> Cell {
    let cells = column.as_ref();
    if cells.len() == 3 {
        cells.cell(2)
    } else {
        Cell::Na
    }
}

#[test]
fn columns_roll_and_expand(rt: HostRuntime) -> Result<(), NoMemory> {
    let ones = Column::repeat(rt.alloc(), Kind::Int64, Cell::Int(1), 3)?;
    let rolled = roll(rt.alloc(), 2, 0, Cumulation::Sum, ones.as_ref());
    assert!(rt; rolled.is_ok_and(|column| third(&column) == Cell::Int(2)));
    let expanded = expand(rt.alloc(), 0, Cumulation::Sum, ones.as_ref());
    assert!(rt; expanded.is_ok_and(|column| third(&column) == Cell::Int(3)));
    Ok(())
}
