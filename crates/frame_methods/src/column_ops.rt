// What is made of a column.
ghost use Rattle.std.specs.Prelude.{◌≡◌, [], ◌∷◌, map, slice_index_or, IfOk, IsSome};
ghost use Rattle.cell_core.specs.declared.cell.Kind.TheVariants.{Boolean};
ghost use Rattle.column_core.specs.cells.Cell.{na_cell};
ghost use Rattle.meaning_call.specs.declared.Method.TheVariants.{Columns};
ghost use Rattle.frame_labels.specs.method.Methods.{filled_column, shifted_column, cast_as, cumulated};
ghost use Rattle.nullable_array.specs.Folds.{cumulation_of};
ghost use Rattle.column_operators.specs.Marks.{missing_mark};
ghost use Rattle.frame_store.specs.Arguments.{shape_at};
ghost use Rattle.frame_store.specs.Objects.{tables};
ghost use Rattle.frame_store.specs.World.{world, IsSettledWorld};
ghost use Rattle.frame_methods.specs.Calls.{IsCall, FormsBound};
ghost use Rattle.frame_methods.specs.Marks.{marked_column};
ghost use Rattle.frame_methods.specs.Listed.{listed_column};

use crate::columns::{ColumnOp, MadeColumn};
use crate::listed::{ListedCells, listed_cells};
use crate::tables::columns_placed;
use cell_core::{Cell, Kind, NoMemory, TextDict};
use column_core::{ColRef, Column, shift};
use column_operators::{fillna, isin, isna, notna};
use frame_signatures::{Bound, arguments};
use frame_store::{ObjId, OpFault, Store, Value};
use meaning_call::ColumnMethod;
use nullable_array::{ArrayFault, Cumulation, cast, cumulate};
use std::alloc::Global;

// Whether each cell is missing, or whether it is there.
#[derive(Drop)]
struct Marked {
    missing: bool,
}

impl ColumnOp for Marked {
    ghost answer = { λ s _. marked_column s.missing };

    fn column(&self, alloc: Global, dict: &mut TextDict, a: ColRef<'_>) -> MadeColumn {
        Ok(marks(alloc, a, self.missing)?)
    }
}

fn marks(alloc: Global, a: ColRef<'_>, missing: bool) -> Result<Column, NoMemory>
    ensures { IfOk result (λ c. c
        ≡ record { kind = Boolean; cells = map (missing_mark missing) a.entry.cells }) }
{
    if missing {
        isna(alloc, a)
    } else {
        notna(alloc, a)
    }
}

// A cell in place of each missing one.
#[derive(Drop)]
struct Filled {
    value: Cell,
}

impl ColumnOp for Filled {
    ghost held = { λ s. s.value ∷ [] };

    ghost answer = { λ _ cells. filled_column (slice_index_or cells 0 na_cell) };

    fn column(&self, alloc: Global, dict: &mut TextDict, a: ColRef<'_>) -> MadeColumn {
        let kind = a.kind();
        if !kind.holds(self.value) {
            return Err(ArrayFault::KindMismatch);
        }
        Ok(fillna(alloc, a, self.value)?)
    }
}

// Whether each cell is in a list.
impl ColumnOp for ListedCells {
    ghost held = { λ s. s.values.keys };

    ghost answer = { λ _ cells. listed_column cells };

    fn column(&self, alloc: Global, dict: &mut TextDict, a: ColRef<'_>) -> MadeColumn {
        // Equal texts have equal numbers: `TextDict::len` says so.
        let _ = dict.len();
        Ok(isin(alloc, a, &self.values)?)
    }
}

// The cells some rows further down, or up where the number is below 0.
#[derive(Drop)]
struct Shifted {
    periods: i64,
}

impl ColumnOp for Shifted {
    ghost answer = { λ s _. shifted_column s.periods };

    fn column(&self, alloc: Global, dict: &mut TextDict, a: ColRef<'_>) -> MadeColumn {
        Ok(shift(alloc, a, self.periods)?)
    }
}

// The cells as cells of a kind.
#[derive(Drop)]
struct Cast {
    kind: Kind,
}

impl ColumnOp for Cast {
    ghost answer = { λ s _. cast_as s.kind };

    fn column(&self, alloc: Global, dict: &mut TextDict, a: ColRef<'_>) -> MadeColumn {
        cast(alloc, dict, a, self.kind)
    }
}

// The sums, least or greatest cells up to each row.
#[derive(Drop)]
struct Cumulated {
    op: Cumulation,
}

impl ColumnOp for Cumulated {
    ghost answer = { λ s _. cumulated (cumulation_of s.op) };

    fn column(&self, alloc: Global, dict: &mut TextDict, a: ColRef<'_>) -> MadeColumn {
        cumulate(alloc, self.op, a)
    }
}

// The answer of a method that makes new columns.
#[tactic(auto, using(crate::proofs::HeldLaws::each_given))]
pub(crate) fn columns_answer(
    alloc: Global,
    store: &mut Store,
    dict: &mut TextDict,
    method: ColumnMethod,
    bound: &Bound<'_>,
    on: ObjId,
) -> Result<Value, OpFault>
    requires live { IsSome (tables store.old on.0) }
    requires settled { IsSettledWorld (world store.old dict.old) }
    requires call { IsCall (world store.old dict.old) (Columns method) bound.now
        (shape_at (tables store.old) on) }
    ensures { FormsBound (Columns method) on bound.now result
        (world store.old dict.old) (world store.new dict.new) }
{
    match method {
        ColumnMethod::Isna => columns_placed(alloc, store, dict, &Marked { missing: true }, on),
        ColumnMethod::Notna => columns_placed(alloc, store, dict, &Marked { missing: false }, on),
        ColumnMethod::Fillna => {
            let value = bound.scalar(arguments::FILLNA_VALUE);
            columns_placed(alloc, store, dict, &Filled { value }, on)
        }
        ColumnMethod::Isin => {
            let values = listed_cells(alloc, dict, bound.list(arguments::ISIN_VALUES))?;
            columns_placed(alloc, store, dict, &ListedCells { values }, on)
        }
        ColumnMethod::Astype => {
            let kind = bound.kind(dict, arguments::ASTYPE_DTYPE);
            columns_placed(alloc, store, dict, &Cast { kind }, on)
        }
        ColumnMethod::Shift => {
            let periods = bound.whole(arguments::SHIFT_PERIODS);
            columns_placed(alloc, store, dict, &Shifted { periods }, on)
        }
        ColumnMethod::Cumsum => {
            let op = Cumulation::Sum;
            columns_placed(alloc, store, dict, &Cumulated { op }, on)
        }
        ColumnMethod::Cummin => {
            let op = Cumulation::Min;
            columns_placed(alloc, store, dict, &Cumulated { op }, on)
        }
        ColumnMethod::Cummax => {
            let op = Cumulation::Max;
            columns_placed(alloc, store, dict, &Cumulated { op }, on)
        }
    }
}
