// Columns that are borrowed with a step, taken by places, and put into blocks.
use cell_core::{Cell, Gaps, Kind, NoMemory, Rows};
use column_core::{Block, ColRef, Column, cell_of_number, take};
use std::alloc::Global;

const NUMBERS: [Option<i64>; 7] = [Some(3), None, Some(1), Some(5), None, Some(-2), Some(1)];

// The column of these numbers, all of which it holds.
fn numbers(alloc: Global) -> Result<Column, NoMemory> {
    let mut made = Column::new(alloc, Kind::Int64);
    for number in NUMBERS {
        let cell = cell_of_number(number);
        if made.as_ref().kind().holds(cell) {
            made.push(cell)?;
        }
    }
    Ok(made)
}

pub(crate) fn has_cells(column: ColRef<'_>, wanted: &[Cell]) -> bool {
    if column.len() != wanted.len() {
        return false;
    }
    for row in 0..wanted.len() {
        if column.cell(row) != wanted[row] {
            return false;
        }
    }
    true
}

// As `iloc[5::-2]`, and the same rows by `iloc[1:6:2]`.
fn has_steps(column: ColRef<'_>) -> bool {
    if column.len() != 7 {
        return false;
    }
    let back = column.strided(Rows {
        start: 5,
        step: -2,
        count: 3,
    });
    let ahead = back.strided(Rows {
        start: 2,
        step: -1,
        count: 3,
    });
    has_cells(back, &[Cell::Int(-2), Cell::Int(5), Cell::Na])
        && has_cells(ahead, &[Cell::Na, Cell::Int(5), Cell::Int(-2)])
}

#[test]
fn rows_stand_in_steps(rt: HostRuntime) -> Result<(), NoMemory> {
    let block = numbers(rt.alloc())?.into_block();
    assert!(rt; block.columns() == 1);
    assert!(rt; has_steps(block.column(0)));
    Ok(())
}

fn takes_by_places(alloc: Global, column: ColRef<'_>) -> Result<bool, NoMemory> {
    if column.len() != 7 {
        return Ok(false);
    }
    let mut places = Gaps::new(alloc);
    places.push(Some(6))?;
    places.push(None)?;
    let taken = take(alloc, column, &places)?;
    Ok(has_cells(taken.as_ref(), &[Cell::Int(1), Cell::Na]))
}

#[test]
fn rows_are_taken_by_places(rt: HostRuntime) -> Result<(), NoMemory> {
    let column = numbers(rt.alloc())?;
    assert!(rt; takes_by_places(rt.alloc(), column.as_ref()) == Ok(true));
    Ok(())
}

fn holds_what_is_put(block: &mut Block) -> bool {
    if block.kind() != Kind::Boolean || block.columns() != 2 || block.rows() != 3 {
        return false;
    }
    block.put(1, 2, Cell::Bool(true));
    let back = block.strided(
        1,
        Rows {
            start: 2,
            step: -2,
            count: 2,
        },
    );
    has_cells(back, &[Cell::Bool(true), Cell::Na])
        && has_cells(block.column(0), &[Cell::Na, Cell::Na, Cell::Na])
}

#[test]
fn a_block_holds_what_was_put(rt: HostRuntime) -> Result<(), NoMemory> {
    let mut block = Block::new(rt.alloc(), Kind::Boolean, 2, 3)?;
    assert!(rt; holds_what_is_put(&mut block));
    Ok(())
}
