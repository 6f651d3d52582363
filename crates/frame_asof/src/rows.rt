// The nearest row of each row.
ghost use Rattle.std.specs.Prelude.{◌≡◌, ◌≤◌, List, drop, length, All, IfOk};
ghost use Rattle.cell_core.specs.declared.cell.Kind.TheVariants.{Int64};
ghost use Rattle.column_core.specs.cells.Text.{Text};
ghost use Rattle.factorize.specs.row_keys.Keys.{same_tuple};
ghost use Rattle.frame_store.specs.tables.Table.{table_value};
ghost use Rattle.frame_store.specs.World.{IsKnownTable};
ghost use Rattle.frame_parts.specs.Makes.{MakesBy};
ghost use Rattle.frame_merge.specs.Keys.{keys_value};
ghost use Rattle.meaning_nearest.specs.asof.AsOf.{asof_merged};
ghost use Rattle.meaning_nearest.specs.AsofMerge as meant;
ghost use Rattle.asof_merge.specs.Answers.{MatchesBy};
ghost use Rattle.frame_asof.specs.Asked.{asof_value};
ghost use Rattle.frame_asof.specs.Keys.{AreAsofKeys};
ghost use Rattle.frame_asof.specs.Rows.{rows_in, rows_seen, met_result, AreRowsFor};

use crate::asked::Asof;
use asof_merge::{AsofFault, ByLevels, asof_rows, asof_rows_ungrouped};
use cell_core::{Code, Gaps, Grid, NoMemory, Places, Reason, TextDict};
use column_core::{Borrowed, ColRef, Source};
use factorize::KeyColumns;
use frame_labels::columns_at;
use frame_merge::MergeKeys;
use frame_store::{ObjRef, OpFault};
use std::alloc::Global;

// For each row of a column of whole numbers the nearest row of another one, of those whose cells in the other columns are
// equal.
fn nearest_rows(
    alloc: Global,
    left: &ColRef<'_>,
    right: &ColRef<'_>,
    left_by: &[ColRef<'_>],
    right_by: &[ColRef<'_>],
    asof: &Asof,
) -> Result<Gaps, AsofFault>
    requires whole { (left.now.kind ≡ Int64) × (right.now.kind ≡ Int64) }
    requires left { All (λ c. length c.cells ≡ length left.now.cells) left_by.now }
    requires right { All (λ c. length c.cells ≡ length right.now.cells) right_by.now }
    requires same { length right_by.now ≡ length left_by.now }
    requires few { length left_by.now ≤ 4 }
    ensures { (texts : List Text) → MatchesBy result
        (asof_merged same_tuple asof.now.direction asof.now.tolerance
        (rows_in texts left.now left_by.now) (rows_in texts right.now right_by.now)) }
{
    let Borrowed::Ints(lefts) = left.lanes else {
        unreachable!()
    };
    let Borrowed::Ints(rights) = right.lanes else {
        unreachable!()
    };
    if left_by.is_empty() {
        return asof_rows_ungrouped(alloc, &lefts, &rights, asof.direction, asof.tolerance);
    }
    let of_left = KeyColumns::of(left_by, lefts.count);
    let of_right = KeyColumns::of(right_by, rights.count);
    let (left_by, right_by) = (ByLevels::of(&of_left), ByLevels::of(&of_right));
    asof_rows(
        alloc,
        &lefts,
        &rights,
        &left_by,
        &right_by,
        asof.direction,
        asof.tolerance,
    )
}

// What a search for the nearest rows answers, as a part of a form.
fn met(found: Result<Gaps, AsofFault>) -> Result<Gaps, OpFault>
    ensures { result ≡ met_result found }
{
    match found {
        Ok(rows) => Ok(rows),
        Err(AsofFault::Unsorted(side, row)) => Err(OpFault::Refused(Code::BadValue(Reason::Unsorted(
            side, row as u64,
        )))),
        Err(AsofFault::NoMemory) => Err(OpFault::NoMemory),
    }
}

// The places but the first.
fn others(alloc: Global, places: &Places) -> Result<Places, NoMemory>
    requires { 1 ≤ length places.now }
    ensures { IfOk result (λ made. made ≡ drop 1 places.now) }
{
    let mut made = Vec::new(alloc);
    made.extend_from_slice(&places.as_slice()[1..])?;
    Ok(Places::from(made))
}

/// For each row of the left frame the nearest row of the right one, or nothing. A row whose key is missing or less than the
/// one before it is refused, the left side first.
pub(crate) fn rows_met(
    alloc: Global,
    dict: &TextDict,
    l: &ObjRef<'_>,
    r: &ObjRef<'_>,
    keys: &MergeKeys,
    asof: &Asof,
) -> Result<Gaps, OpFault>
    requires left { IsKnownTable dict.now l.now }
    requires right { IsKnownTable dict.now r.now }
    requires keys { AreAsofKeys l.now r.now keys.now }
    ensures rows { MakesBy rows_seen dict.now result (meant.rows_met (table_value dict.now l.now)
        (table_value dict.now r.now) (asof_value dict.now asof.now) (keys_value keys.now)) }
    ensures inside { IfOk result (AreRowsFor l.now r.now) }
{
    // Equal texts have equal numbers: `TextDict::len` says so.
    let _ = dict.len();
    let left_places = others(alloc, &keys.left)?;
    let right_places = others(alloc, &keys.right)?;
    let lefts = columns_at(alloc, l, &left_places)?;
    let rights = columns_at(alloc, r, &right_places)?;
    let left_by: &[ColRef<'_>] = &lefts;
    let right_by: &[ColRef<'_>] = &rights;
    let left = l.column(*keys.left.at(0));
    let right = r.column(*keys.right.at(0));
    met(nearest_rows(alloc, &left, &right, left_by, right_by, asof))
}
