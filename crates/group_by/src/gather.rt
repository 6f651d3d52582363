// What a reduction gathers from the cells of a group, one cell after the other.
ghost use Rattle.std.specs.Prelude.{◌≡◌, ℕ, ℤ, ◌+ℤ◌, List, [], ◌∷◌, ◌++◌, if◌then◌else◌};
ghost use Rattle.std.specs.Int.{int_wrap, w64};
ghost use Rattle.cell_core.specs.declared.cell.Kind.{Kind as CellKind};
ghost use Rattle.cell_core.specs.declared.cell.Kind.TheVariants.{Int64};
ghost use Rattle.column_core.specs.cells.Cell.{CellValue, int_cell, datum};
ghost use Rattle.factorize.specs.group.Reductions.{GroupReduction, group_cell, group_kind};
ghost use Rattle.group_by.specs.Cells.{IsCellOf};
ghost use Rattle.group_by.specs.Gathered.{if_present, plus, total_cell, chosen_cell};

use crate::cells::is_na;
use cell_core::{Cell, TextDict};
use column_core::cell_of_number;

/// A reduction that is gathered cell by cell.
pub(crate) trait Gather {
    ghost op: { GroupReduction };

    /// What is gathered of no cell.
    fn start(&self) -> Cell
        ensures value { (texts : List (List ℕ)) → datum texts result ≡ group_cell op [] }
        ensures held { (texts : List (List ℕ)) (kind : CellKind)
            → IsCellOf texts (group_kind op kind) result };

    /// What is gathered with one cell more.
    fn step(&self, dict: &TextDict, so_far: Cell, cell: Cell) -> Cell
        ensures value { (cells : List CellValue) → datum dict.now so_far ≡ group_cell op cells
            → datum dict.now result ≡ group_cell op (cells ++ datum dict.now cell ∷ []) }
        ensures held { (kind : CellKind) → IsCellOf dict.now (group_kind op kind) so_far
            → IsCellOf dict.now kind cell → IsCellOf dict.now (group_kind op kind) result };
}

/// An amount in each present cell, of which a reduction is the total.
pub(crate) trait Amount {
    ghost op: { GroupReduction };

    ghost amount_of: { CellValue → ℤ };

    /// The amount in a cell, where it is present.
    fn amount(&self, cell: Cell) -> Option<i64>
        ensures { (texts : List (List ℕ)) → result
            ≡ if_present (datum texts cell) (amount_of (datum texts cell)) };

    ghost totals: { (cells : List CellValue)
        → group_cell Self.op cells ≡ total_cell Self.amount_of cells };

    ghost numbers: { (kind : CellKind) → group_kind Self.op kind ≡ Int64 };
}

// The sum of two numbers, which wraps.
#[inline(always)]
#[tactic(auto, using(std::proofs::lemmas::Int::wraps))]
fn wrapped_sum(x: i64, y: i64) -> i64
    ensures { result ≡ int_wrap w64 (x +ℤ y) }
{
    x.wrapping_add(y)
}

// A total with an amount more, if there is one.
#[inline(always)]
pub(crate) fn added(total: Cell, amount: Option<i64>) -> Cell
    ensures value { (texts : List (List ℕ)) (z : ℤ) → datum texts total ≡ int_cell z
        → datum texts result ≡ int_cell (plus z amount) }
    ensures held { (texts : List (List ℕ))
        → IsCellOf texts Int64 total → IsCellOf texts Int64 result }
{
    match (total, amount) {
        (Cell::Int(x), Some(y)) => cell_of_number(Some(wrapped_sum(x, y))),
        _ => total,
    }
}

/// The total of amounts.
#[derive(Drop)]
pub(crate) struct Total<N> {
    pub(crate) of: N,
}

impl<N: Amount> Gather for Total<N> {
    ghost op = { N.op };

    #[inline(always)]
    fn start(&self) -> Cell {
        cell_of_number(Some(0))
    }

    #[inline(always)]
    fn step(&self, _dict: &TextDict, so_far: Cell, cell: Cell) -> Cell {
        added(so_far, self.of.amount(cell))
    }
}

/// A choice between two cells, by which a reduction comes to one of its cells.
pub(crate) trait Choice {
    ghost op: { GroupReduction };

    ghost choose: { CellValue → CellValue → CellValue };

    /// Whether the next cell takes the place of the one so far, which may be missing.
    fn takes_place(&self, dict: &TextDict, so_far: Cell, cell: Cell) -> bool
        ensures { (if result then datum dict.now cell else datum dict.now so_far)
            ≡ choose (datum dict.now so_far) (datum dict.now cell) };

    ghost chooses: { (cells : List CellValue)
        → group_cell Self.op cells ≡ chosen_cell Self.choose cells };

    ghost keeps: { (kind : CellKind) → group_kind Self.op kind ≡ kind };
}

/// The cell that is chosen.
#[derive(Drop)]
pub(crate) struct Chosen<C> {
    pub(crate) by: C,
}

impl<C: Choice> Gather for Chosen<C> {
    ghost op = { C.op };

    #[inline(always)]
    fn start(&self) -> Cell {
        Cell::Na
    }

    #[inline(always)]
    fn step(&self, dict: &TextDict, so_far: Cell, cell: Cell) -> Cell {
        if is_na(cell) {
            return so_far;
        }
        if self.by.takes_place(dict, so_far, cell) {
            cell
        } else {
            so_far
        }
    }
}
