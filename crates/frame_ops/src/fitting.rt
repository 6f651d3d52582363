// Whether an operator takes the columns of two frames that meet by their labels.
ghost use Rattle.std.specs.Prelude.{◌≡◌, ◌<◌, ◌≤◌, length, map, All, IfOk};
ghost use Rattle.std.specs.List.{list_all};
ghost use Rattle.column_operators.specs.Tasks.{operator_of};
ghost use Rattle.row_keys.specs.Keys.{same_tuple as same_numbers};
ghost use Rattle.frame_store.specs.tables.Table.{table_value};
ghost use Rattle.frame_store.specs.World.{IsKnownTable};
ghost use Rattle.frame_parts.specs.form.Infix as meant;
ghost use Rattle.frame_ops.specs.Fitting.{is_of_kind, of_one_kind, fits_first, firsts_fit};
ghost use Rattle.frame_ops.specs.Widening.{heading_tuple};

use crate::kinds::{columns_taken, same_kind};
use crate::widening::heading_tuples;
use cell_core::{Grid, Kind, NoMemory, TextDict, Tuples};
use column_operators::Operator;
use frame_store::ObjRef;
use row_keys::find_partners;
use std::alloc::Global;

// Whether all columns of a frame are of a kind.
fn all_of_kind(frame: &ObjRef<'_>, kind: Kind) -> bool
    ensures { result ≡ list_all (is_of_kind kind) frame.now.columns }
{
    for place in 0..frame.columns() {
        if !same_kind(frame.kind(place), kind) {
            return false;
        }
    }
    true
}

// Whether all columns of two frames are of one kind.
fn of_one_kind(a: &ObjRef<'_>, b: &ObjRef<'_>) -> bool
    requires { 1 ≤ length a.now.columns }
    ensures { result ≡ of_one_kind a.now.columns b.now.columns }
{
    let kind = a.kind(0);
    all_of_kind(a, kind) && all_of_kind(b, kind)
}

// Whether there are no columns at these places, or the first is of the kind.
fn fits_first(kind: Kind, other: &ObjRef<'_>, places: &[usize]) -> bool
    requires { All (λ place. place < length other.now.columns) places.now }
    ensures { result ≡ fits_first kind other.now.columns places.now }
{
    match places {
        [place, ..] => same_kind(other.kind(*place), kind),
        [] => true,
    }
}

// Whether each column is of the kind of the first one of another frame under its label, if there is one. The keys are
// the labels of both.
#[tactic(auto, using(crate::proofs::Hints::firsts_fit))]
fn firsts_fit(
    alloc: Global,
    own: &ObjRef<'_>,
    keys: &Tuples,
    other: &ObjRef<'_>,
    others: &Tuples,
) -> Result<bool, NoMemory>
    requires keys { keys.now ≡ map heading_tuple own.now.headings }
    requires others { others.now ≡ map heading_tuple other.now.headings }
    requires headed { length own.now.headings ≡ length own.now.columns }
    requires headed_other { length other.now.headings ≡ length other.now.columns }
    ensures { IfOk result (λ fit. fit ≡ firsts_fit same_numbers
        keys.now own.now.columns others.now other.now.columns) }
{
    let found = find_partners(alloc, keys, others, 1)?;
    for place in 0..own.columns() {
        if !fits_first(own.kind(place), other, found.rows(place)) {
            return Ok(false);
        }
    }
    Ok(true)
}

// Whether columns of one label are of one kind: labels are looked up only where there are several kinds. A label may
// stand often on both sides: then each column is of the kind of the first one of the other side, and all are of one
// kind, with no need to look at each pair.
#[tactic(auto, using(crate::proofs::WideLaws::pairs_firsts, crate::proofs::WideLaws::pairs_alike))]
fn pairs_fit(alloc: Global, a: &ObjRef<'_>, b: &ObjRef<'_>) -> Result<bool, NoMemory>
    requires a { length a.now.headings ≡ length a.now.columns }
    requires b { length b.now.headings ≡ length b.now.columns }
    ensures { IfOk result (λ fit. fit ≡ meant.pairs_fit same_numbers
        (map heading_tuple a.now.headings) a.now.columns
        (map heading_tuple b.now.headings) b.now.columns) }
{
    if a.columns() > 0 && of_one_kind(a, b) {
        return Ok(true);
    }
    let left = heading_tuples(alloc, a)?;
    let right = heading_tuples(alloc, b)?;
    if !firsts_fit(alloc, a, &left, b, &right)? {
        return Ok(false);
    }
    firsts_fit(alloc, b, &right, a, &left)
}

/// Whether the operator takes each column of two frames, and those of one label. `NoMemory` is the only refusal.
#[tactic(auto, using(crate::proofs::WideLaws::frames_seen))]
pub(crate) fn frames_fit(
    alloc: Global,
    dict: &TextDict,
    op: Operator,
    a: &ObjRef<'_>,
    b: &ObjRef<'_>,
) -> Result<bool, NoMemory>
    requires known_a { IsKnownTable dict.now a.now }
    requires known_b { IsKnownTable dict.now b.now }
    ensures { IfOk result (λ fit. fit ≡ meant.frames_fit (operator_of op)
        (table_value dict.now a.now) (table_value dict.now b.now)) }
{
    // Equal texts have equal numbers: `TextDict::len` says so.
    let _ = dict.len();
    if !columns_taken(op, a) || !columns_taken(op, b) {
        return Ok(false);
    }
    pairs_fit(alloc, a, b)
}
