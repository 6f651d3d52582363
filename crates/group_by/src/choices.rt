// The reductions that are gathered cell by cell.
ghost use Rattle.std.specs.Prelude.{◌≡◌, pos, refl};
ghost use Rattle.column_core.specs.cells.Cell.{datum};
ghost use Rattle.column_core.specs.cells.Operator.{cell_cmp};
ghost use Rattle.column_core.specs.cells.Reduce.{number_in, lesser, greater};
ghost use Rattle.factorize.specs.group.Reductions.{earlier, later};
ghost use Rattle.factorize.specs.group.Reductions as meant;

use crate::cells::is_na;
use crate::gather::{Amount, Choice};
use cell_core::{Cell, Label, TextDict};
use std::cmp::Ordering;

/// The number in a cell: 1 in True, 0 in False.
#[derive(Drop)]
pub(crate) struct Number;

impl Amount for Number {
    ghost op = { meant.sum };

    ghost amount_of = { number_in };

    #[inline(always)]
    fn amount(&self, cell: Cell) -> Option<i64> {
        match cell {
            Cell::Na => None,
            Cell::Int(x) => Some(x),
            Cell::Bool(true) => Some(1),
            Cell::Bool(false) | Cell::Text(_) => Some(0),
        }
    }

    ghost totals = { λ cells. refl };

    ghost numbers = { λ kind. refl };
}

/// One for each cell.
#[derive(Drop)]
pub(crate) struct One;

impl Amount for One {
    ghost op = { meant.count };

    ghost amount_of = { λ cell. pos 1 };

    #[inline(always)]
    fn amount(&self, cell: Cell) -> Option<i64> {
        if is_na(cell) { None } else { Some(1) }
    }

    ghost totals = { λ cells. refl };

    ghost numbers = { λ kind. refl };
}

// How one cell stands to another in the order of cells.
#[inline(always)]
fn compare(dict: &TextDict, a: Cell, b: Cell) -> Ordering
    ensures { result ≡ cell_cmp (datum dict.now a) (datum dict.now b) }
{
    dict.compare(Label::from(a), Label::from(b))
}

/// The first of the least cells.
#[derive(Drop)]
pub(crate) struct Least;

impl Choice for Least {
    ghost op = { meant.min };

    ghost choose = { lesser };

    #[inline(always)]
    fn takes_place(&self, dict: &TextDict, so_far: Cell, cell: Cell) -> bool {
        is_na(so_far) || compare(dict, cell, so_far) == Ordering::Less
    }

    ghost chooses = { λ cells. refl };

    ghost keeps = { λ kind. refl };
}

/// The first of the greatest cells.
#[derive(Drop)]
pub(crate) struct Greatest;

impl Choice for Greatest {
    ghost op = { meant.max };

    ghost choose = { greater };

    #[inline(always)]
    fn takes_place(&self, dict: &TextDict, so_far: Cell, cell: Cell) -> bool {
        is_na(so_far) || compare(dict, so_far, cell) == Ordering::Less
    }

    ghost chooses = { λ cells. refl };

    ghost keeps = { λ kind. refl };
}

/// The first cell.
#[derive(Drop)]
pub(crate) struct First;

impl Choice for First {
    ghost op = { meant.first };

    ghost choose = { earlier };

    #[inline(always)]
    fn takes_place(&self, _dict: &TextDict, so_far: Cell, _cell: Cell) -> bool {
        is_na(so_far)
    }

    ghost chooses = { λ cells. refl };

    ghost keeps = { λ kind. refl };
}

/// The last cell.
#[derive(Drop)]
pub(crate) struct Last;

impl Choice for Last {
    ghost op = { meant.last };

    ghost choose = { later };

    #[inline(always)]
    fn takes_place(&self, _dict: &TextDict, _so_far: Cell, _cell: Cell) -> bool {
        true
    }

    ghost chooses = { λ cells. refl };

    ghost keeps = { λ kind. refl };
}
