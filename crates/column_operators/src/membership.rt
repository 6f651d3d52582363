// Which cells are in a list.
ghost use Rattle.std.specs.Prelude.{◌≡◌, ◌++◌, [], map, Some, IfOk, OnOk};
ghost use Rattle.std.specs.List.{list_any};
ghost use Rattle.cell_core.specs.declared.cell.Kind.TheVariants.{Boolean};
ghost use Rattle.column_core.specs.Columns.{number_cell, truth_cell, text_cell};
ghost use Rattle.column_core.specs.Lanes.{lane_row};
ghost use Rattle.column_operators.specs.Marks.{listed_mark, same_number, listed_value, listed_truth, listed_rows, number_before, numbers_among, text_before, texts_among};

use crate::maps::{TotalOp, map_lane};
use cell_core::{Cell, NoMemory, TextId};
use column_core::{Borrowed, ColRef, Column, Lane, RowOp, cell_of_number, cell_of_text};
use indexmap::IndexSet;
use std::alloc::Global;

// Where there are more values than this, they are looked up and not gone through.
const FEW_VALUES: usize = 16;

/// Whether a value is among a few.
#[derive(Drop)]
struct AmongFew<'a, T> {
    values: &'a [T],
    missing: bool,
}

impl<T: PartialEq + Copy + Drop> RowOp<T, (), bool> for AmongFew<'_, T> {
    ghost row_of = { λ s x _. Some (Some (listed_value T.eq s.missing s.values.now x)) };

    #[inline(always)]
    fn row(&self, x: Option<T>, _: Option<()>) -> Option<Option<bool>>
        ensures { result ≡ Some (Some (listed_value T.eq self.now.missing self.now.values.now x)) }
    {
        match x {
            Some(x) => Some(Some(self.values.contains(&x))),
            None => Some(Some(self.missing)),
        }
    }
}

impl<T: PartialEq + Copy + Drop> TotalOp<T, bool> for AmongFew<'_, T> {
    ghost made = { λ s x. Some (listed_value T.eq s.missing s.values.now x) };

    ghost total = { λ s x i. Some (Some (listed_value T.eq s.missing s.values.now x)) };
}

/// Whether a truth value is among some.
#[derive(Drop)]
struct AmongTruths {
    missing: bool,
    with_false: bool,
    with_true: bool,
}

impl RowOp<bool, (), bool> for AmongTruths {
    ghost row_of = { λ s x _. Some (Some (listed_truth s.missing s.with_false s.with_true x)) };

    #[inline(always)]
    fn row(&self, x: Option<bool>, _: Option<()>) -> Option<Option<bool>>
        ensures { result ≡ Some
            (Some (listed_truth self.now.missing self.now.with_false self.now.with_true x)) }
    {
        match x {
            Some(true) => Some(Some(self.with_true)),
            Some(false) => Some(Some(self.with_false)),
            None => Some(Some(self.missing)),
        }
    }
}

impl TotalOp<bool, bool> for AmongTruths {
    ghost made = { λ s x. Some (listed_truth s.missing s.with_false s.with_true x) };

    ghost total = { λ s x i. Some (Some (listed_truth s.missing s.with_false s.with_true x)) };
}

/// Whether a value is among cells that are looked up.
#[derive(Drop)]
struct AmongCells<'a> {
    values: &'a IndexSet<Cell>,
}

impl RowOp<i64, (), bool> for AmongCells<'_> {
    ghost row_of = { λ s x _. Some (Some (list_any (same_number (number_cell x)) s.values.now.keys)) };

    #[inline(always)]
    fn row(&self, x: Option<i64>, _: Option<()>) -> Option<Option<bool>>
        ensures { result ≡ Some
            (Some (list_any (same_number (number_cell x)) self.now.values.now.keys)) }
    {
        Some(Some(self.values.contains(&cell_of_number(x))))
    }
}

impl TotalOp<i64, bool> for AmongCells<'_> {
    ghost made = { λ s x. Some (list_any (same_number (number_cell x)) s.values.now.keys) };

    ghost total = { λ s x i. Some (Some (list_any (same_number (number_cell x)) s.values.now.keys)) };
}

impl RowOp<TextId, (), bool> for AmongCells<'_> {
    ghost row_of = { λ s x _. Some (Some (list_any (same_number (text_cell x)) s.values.now.keys)) };

    #[inline(always)]
    fn row(&self, x: Option<TextId>, _: Option<()>) -> Option<Option<bool>>
        ensures { result ≡ Some
            (Some (list_any (same_number (text_cell x)) self.now.values.now.keys)) }
    {
        Some(Some(self.values.contains(&cell_of_text(x))))
    }
}

impl TotalOp<TextId, bool> for AmongCells<'_> {
    ghost made = { λ s x. Some (list_any (same_number (text_cell x)) s.values.now.keys) };

    ghost total = { λ s x i. Some (Some (list_any (same_number (text_cell x)) s.values.now.keys)) };
}

/// Whether each cell is among these; NA is where they have NA. Texts are told apart by their numbers.
pub fn isin(alloc: Global, a: ColRef<'_>, values: &IndexSet<Cell>) -> Result<Column, NoMemory>
    ensures { IfOk result (λ c. c
        ≡ record { kind = Boolean; cells = map (listed_mark values.now.keys) a.entry.cells }) }
{
    match &a.lanes {
        Borrowed::Ints(lane) => listed_numbers(alloc, lane, values),
        Borrowed::Truths(lane) => listed_truths(alloc, lane, values),
        Borrowed::Texts(lane) => listed_texts(alloc, lane, values),
    }
}

#[tactic(auto, using(crate::proofs::Hints::listed_numbers))]
fn listed_numbers(
    alloc: Global,
    a: &Lane<'_, i64>,
    values: &IndexSet<Cell>,
) -> Result<Column, NoMemory>
    ensures { IfOk result (λ c. c
        ≡ listed_rows values.now.keys number_cell a.now.count
        (lane_row a.now.values.now a.now.present.now a.now.start a.now.stride a.now.back)) }
{
    if FEW_VALUES < values.len() {
        return map_lane(alloc, &AmongCells { values }, a);
    }
    let numbers = numbers_in(alloc, values.as_slice())?;
    let among = AmongFew {
        values: numbers.as_slice(),
        missing: values.contains(&Cell::Na),
    };
    map_lane(alloc, &among, a)
}

#[tactic(auto, using(crate::proofs::MarkLaws::if_same_rows, crate::proofs::MarkLaws::truth_listed))]
fn listed_truths(
    alloc: Global,
    a: &Lane<'_, bool>,
    values: &IndexSet<Cell>,
) -> Result<Column, NoMemory>
    ensures { IfOk result (λ c. c
        ≡ listed_rows values.now.keys truth_cell a.now.count
        (lane_row a.now.values.now a.now.present.now a.now.start a.now.stride a.now.back)) }
{
    let among = AmongTruths {
        missing: values.contains(&Cell::Na),
        with_false: values.contains(&Cell::Bool(false)),
        with_true: values.contains(&Cell::Bool(true)),
    };
    map_lane(alloc, &among, a)
}

fn listed_texts(
    alloc: Global,
    a: &Lane<'_, TextId>,
    values: &IndexSet<Cell>,
) -> Result<Column, NoMemory>
    ensures { IfOk result (λ c. c
        ≡ listed_rows values.now.keys text_cell a.now.count
        (lane_row a.now.values.now a.now.present.now a.now.start a.now.stride a.now.back)) }
{
    if FEW_VALUES < values.len() {
        return map_lane(alloc, &AmongCells { values }, a);
    }
    let texts = texts_in(alloc, values.as_slice())?;
    let among = AmongFew {
        values: texts.as_slice(),
        missing: values.contains(&Cell::Na),
    };
    map_lane(alloc, &among, a)
}

// The numbers among cells.
fn numbers_in(alloc: Global, cells: &[Cell]) -> Result<Vec<i64>, NoMemory>
    ensures { IfOk result (λ v. v.items ≡ numbers_among cells.now) }
{
    let mut numbers = Vec::new(alloc);
    for cell in cells {
        note_number(&mut numbers, *cell)?;
    }
    Ok(numbers)
}

fn note_number(numbers: &mut Vec<i64>, cell: Cell) -> Result<(), NoMemory>
    ensures { OnOk result (numbers.new.items ≡ numbers.old.items ++ number_before cell []) }
{
    if let Cell::Int(number) = cell {
        numbers.push(number)?;
    }
    Ok(())
}

// The texts among cells.
fn texts_in(alloc: Global, cells: &[Cell]) -> Result<Vec<TextId>, NoMemory>
    ensures { IfOk result (λ v. v.items ≡ texts_among cells.now) }
{
    let mut texts = Vec::new(alloc);
    for cell in cells {
        note_text(&mut texts, *cell)?;
    }
    Ok(texts)
}

fn note_text(texts: &mut Vec<TextId>, cell: Cell) -> Result<(), NoMemory>
    ensures { OnOk result (texts.new.items ≡ texts.old.items ++ text_before cell []) }
{
    if let Cell::Text(id) = cell {
        texts.push(id)?;
    }
    Ok(())
}
