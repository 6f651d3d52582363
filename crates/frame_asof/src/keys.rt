// The columns of two frames by which their rows meet.
ghost use Rattle.std.specs.Prelude.{◌≡◌, ◌≤◌, ◌<◌, ◌∷◌, [], length, IfOk};
ghost use Rattle.column_core.specs.cells.Cell.{datum};
ghost use Rattle.column_core.specs.cells.Operator.{cell_label};
ghost use Rattle.frame_store.specs.tables.Settled.{IsSettled};
ghost use Rattle.frame_store.specs.tables.Table.{table_value};
ghost use Rattle.frame_store.specs.Shown.{cells_value};
ghost use Rattle.frame_store.specs.World.{IsKnownTable};
ghost use Rattle.frame_parts.specs.Makes.{MakesBy};
ghost use Rattle.frame_labels.specs.method.Merge.{keys_named};
ghost use Rattle.frame_merge.specs.Keys.{cell_labels, keys_seen, kinds_of, ArePaired};
ghost use Rattle.meaning_nearest.specs.AsofMerge as meant;
ghost use Rattle.frame_asof.specs.Asked.{asof_value, labels_of};
ghost use Rattle.frame_asof.specs.Keys.{places_seen, together_named, AreAsofKeys};

use crate::asked::Asof;
use cell_core::{Cell, Cells, Code, Grid, Kind, NoMemory, Places, Reason, TextDict};
use frame_merge::{MergeKeys, are_same_kinds, keys_named};
use frame_store::{ObjRef, OpFault};
use std::alloc::Global;

// The label of `on`, and then those of `by`.
fn labels_of(alloc: Global, asof: &Asof) -> Result<Cells, NoMemory>
    ensures { IfOk result (λ labels. labels ≡ labels_of asof.now) }
{
    let mut labels = vec![in alloc; asof.on]?;
    labels.extend_from_slice(asof.by.as_slice())?;
    Ok(Cells::from(labels))
}

// The one column of a label on either side.
#[tactic(auto, using(crate::proofs::KeyLaws::one_named))]
fn columns_named(
    alloc: Global,
    dict: &TextDict,
    l: &ObjRef<'_>,
    r: &ObjRef<'_>,
    label: Cell,
) -> Result<(usize, usize), OpFault>
    requires left { IsKnownTable dict.now l.now }
    requires right { IsKnownTable dict.now r.now }
    requires given { IsSettled datum dict.now label }
    ensures answer { MakesBy places_seen dict.now result (keys_named (table_value dict.now l.now)
        (table_value dict.now r.now) (cell_label (datum dict.now label) ∷ [])) }
    ensures left { IfOk result (λ places. places.0 < length l.now.columns) }
    ensures right { IfOk result (λ places. places.1 < length r.now.columns) }
{
    let labels = Cells::from(vec![in alloc; label]?);
    let keys = keys_named(alloc, dict, l, r, &labels)?;
    Ok((*keys.left.at(0), *keys.right.at(0)))
}

// The columns of these labels on both sides, each label tested by itself.
fn each_named(
    alloc: Global,
    dict: &TextDict,
    l: &ObjRef<'_>,
    r: &ObjRef<'_>,
    labels: &Cells,
) -> Result<MergeKeys, OpFault>
    requires left { IsKnownTable dict.now l.now }
    requires right { IsKnownTable dict.now r.now }
    requires given { IsSettled cells_value dict.now labels.now }
    requires some { 1 ≤ length labels.now }
    ensures answer { MakesBy keys_seen dict.now result (together_named (table_value dict.now l.now)
        (table_value dict.now r.now) (cell_labels dict.now labels.now)) }
    ensures paired { IfOk result (ArePaired l.now r.now) }
    ensures count { IfOk result (λ keys. length keys.left ≡ length labels.now) }
{
    let mut left = Places::new(alloc);
    let mut right = Places::new(alloc);
    for k in 0..labels.len() {
        let places = columns_named(alloc, dict, l, r, *labels.at(k))?;
        left.push(places.0)?;
        right.push(places.1)?;
    }
    Ok(MergeKeys { left, right })
}

// Whether the first keys are of whole numbers, and each pair of the others of one kind.
#[tactic(auto, using(crate::proofs::KeyLaws::no_numbers, crate::proofs::KeyLaws::of_numbers))]
fn are_asof_kinds(l: &ObjRef<'_>, r: &ObjRef<'_>, keys: &MergeKeys) -> bool
    requires { ArePaired l.now r.now keys.now }
    ensures { result ≡ meant.are_asof_kinds
        (kinds_of l.now keys.now.left) (kinds_of r.now keys.now.right) }
{
    if l.kind(*keys.left.at(0)) != Kind::Int64 {
        return false;
    }
    are_same_kinds(l, r, keys)
}

/// The columns by which rows meet: those of `on`, of whole numbers, and those of `by`, of the same kinds on both sides and
/// four at most.
pub(crate) fn keys_of_asof(
    alloc: Global,
    dict: &TextDict,
    l: &ObjRef<'_>,
    r: &ObjRef<'_>,
    asof: &Asof,
) -> Result<MergeKeys, OpFault>
    requires left { IsKnownTable dict.now l.now }
    requires right { IsKnownTable dict.now r.now }
    requires given { IsSettled cells_value dict.now (labels_of asof.now) }
    ensures answer { MakesBy keys_seen dict.now result (meant.asof_keys (table_value dict.now l.now)
        (table_value dict.now r.now) (asof_value dict.now asof.now)) }
    ensures keys { IfOk result (AreAsofKeys l.now r.now) }
{
    let labels = labels_of(alloc, asof)?;
    let keys = each_named(alloc, dict, l, r, &labels)?;
    if !are_asof_kinds(l, r, &keys) {
        return Err(OpFault::Refused(Code::BadValue(Reason::KeyKinds)));
    }
    if asof.by.len() > 4 {
        return Err(OpFault::Refused(Code::Limit));
    }
    Ok(keys)
}
