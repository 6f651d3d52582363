// The columns of two frames whose cells are the keys.
ghost use Rattle.std.specs.Prelude.{◌≡◌, ◌≤◌, List, length, slice_get, IfOk, IfSome};
ghost use Rattle.std.specs.Option.{option_map};
ghost use Rattle.column_core.specs.cells.Text.{Text};
ghost use Rattle.frame_store.specs.tables.Settled.{IsSettled};
ghost use Rattle.frame_store.specs.tables.Table.{table_value};
ghost use Rattle.frame_store.specs.tables.Valid.{IsWhole};
ghost use Rattle.meaning_call.specs.Binding as plain;
ghost use Rattle.frame_labels.specs.method.Merge as meant;
ghost use Rattle.frame_parts.specs.Makes.{MakesBy};
ghost use Rattle.frame_store.specs.Objects.{Tables};
ghost use Rattle.frame_store.specs.Shown.{cells_value};
ghost use Rattle.frame_store.specs.World.{IsKnownTable};
ghost use Rattle.frame_signatures.specs.Bound.{stands_at};
ghost use Rattle.frame_merge.specs.Keys as words;
ghost use Rattle.frame_merge.specs.Keys.{cell_labels, labels_on, keys_seen, kinds_of, ArePaired, AreMergeKeys};

use crate::headings::heading_set;
use cell_core::{Cells, Code, Grid, Label, NoMemory, Places, Reason, TextDict};
use frame_labels::cell_of;
use frame_select::{named_columns, places_below};
use frame_signatures::{Bound, arguments, scalars_of};
use frame_store::{ObjRef, OpFault};
use indexmap::IndexSet;
use std::alloc::Global;

/// The columns of either frame whose cells are the keys, one of the left for each of the right.
#[derive(Drop)]
pub struct MergeKeys {
    /// Those of the left frame.
    pub left: Places,
    /// Those of the right frame.
    pub right: Places,
}

// The labels that `on` names, if it is given.
#[tactic(auto, using(frame_signatures::proofs::ScalarLaws::scalars_are))]
pub(crate) fn labels_told(alloc: Global, bound: &Bound<'_>) -> Result<Option<Cells>, NoMemory>
    requires { plain.HasNoText (slice_get bound.now.parameters.now 2) }
    ensures { IfOk result (λ told. (live : Tables) (texts : List Text)
        → option_map (cell_labels texts) told ≡ labels_on (stands_at live texts bound.now 2)) }
{
    if bound.is_none(arguments::MERGE_ON) {
        return Ok(None);
    }
    match bound.scalar_or_none(arguments::MERGE_ON) {
        Some(cell) => {
            let mut cells = Cells::new(alloc);
            cells.push(cell)?;
            Ok(Some(cells))
        }
        None => match bound.list_or_none(arguments::MERGE_ON) {
            Some(items) => {
                let cells = scalars_of(alloc, items)?;
                Ok(Some(cells))
            }
            None => Ok(Some(Cells::new(alloc))),
        },
    }
}

// The headings of columns that both frames have, each once, in the order of the left.
fn common_headings(
    alloc: Global,
    l: &ObjRef<'_>,
    r: &ObjRef<'_>,
) -> Result<IndexSet<Option<Label>>, NoMemory>
    requires left { IsWhole l.now }
    requires right { IsWhole r.now }
    ensures { IfOk result (λ made. made.keys ≡ words.common_headings l.now r.now) }
{
    let others = heading_set(alloc, r, &places_below(alloc, r.columns())?)?;
    let mut common = IndexSet::new(alloc);
    for place in 0..l.columns() {
        let heading = l.heading(place);
        if !others.contains(&heading) {
            continue;
        }
        common.insert(heading)?;
    }
    Ok(common)
}

// The labels of columns that both frames have, each once, in the order of the left.
#[tactic(auto, using(crate::proofs::Hints::common_labels))]
fn common_labels(
    alloc: Global,
    dict: &TextDict,
    l: &ObjRef<'_>,
    r: &ObjRef<'_>,
) -> Result<Cells, NoMemory>
    requires left { IsKnownTable dict.now l.now }
    requires right { IsKnownTable dict.now r.now }
    ensures given { IfOk result (IsSettled cells_value dict.now) }
    ensures labels { IfOk result (λ cells. cell_labels dict.now cells
        ≡ meant.common_labels (table_value dict.now l.now) (table_value dict.now r.now)) }
{
    // Equal texts have equal numbers: `TextDict::len` says so.
    let _ = dict.len();
    let common = common_headings(alloc, l, r)?;
    let headings = common.as_slice();
    let mut cells = Cells::new(alloc);
    for heading in headings {
        let Some(label) = *heading else {
            continue;
        };
        cells.push(cell_of(label))?;
    }
    Ok(cells)
}

/// The columns of these labels on both sides.
///
/// # Errors
///
/// `NoKey` of the first label that no column of the left has, and then of the right; then `BadValue(Repeated)` of the first
/// that several columns of the left have, and then of the right. `NoMemory` may come in place of any answer.
#[tactic(auto, using(crate::proofs::Hints::keys_named))]
pub fn keys_named(
    alloc: Global,
    dict: &TextDict,
    l: &ObjRef<'_>,
    r: &ObjRef<'_>,
    labels: &Cells,
) -> Result<MergeKeys, OpFault>
    requires left { IsKnownTable dict.now l.now }
    requires right { IsKnownTable dict.now r.now }
    requires given { IsSettled cells_value dict.now labels.now }
    requires some { 1 ≤ length labels.now }
    ensures answer { MakesBy keys_seen dict.now result (meant.keys_named
        (table_value dict.now l.now) (table_value dict.now r.now) (cell_labels dict.now labels.now)) }
    ensures paired { IfOk result (ArePaired l.now r.now) }
{
    let of_left = named_columns(alloc, dict, l, labels)?;
    let of_right = named_columns(alloc, dict, r, labels)?;
    let left = of_left.each_once(alloc)?;
    let right = of_right.each_once(alloc)?;
    Ok(MergeKeys { left, right })
}

// The columns of the labels that `on` names; without it those of the labels that both frames have.
fn keys_told(
    alloc: Global,
    dict: &TextDict,
    told: Option<Cells>,
    l: &ObjRef<'_>,
    r: &ObjRef<'_>,
) -> Result<MergeKeys, OpFault>
    requires left { IsKnownTable dict.now l.now }
    requires right { IsKnownTable dict.now r.now }
    requires given { IfSome told (IsSettled cells_value dict.now) }
    requires some { IfSome told (λ labels. 1 ≤ length labels) }
    ensures answer { MakesBy keys_seen dict.now result (words.keys_told (table_value dict.now l.now)
        (table_value dict.now r.now) (option_map (cell_labels dict.now) told)) }
    ensures paired { IfOk result (ArePaired l.now r.now) }
{
    match told {
        Some(labels) => keys_named(alloc, dict, l, r, &labels),
        None => {
            let labels = common_labels(alloc, dict, l, r)?;
            if labels.len() == 0 {
                return Err(OpFault::Refused(Code::NoCommon));
            }
            keys_named(alloc, dict, l, r, &labels)
        }
    }
}

/// Whether the keys are of the same kinds on both sides.
#[tactic(auto, using(crate::proofs::KeyLaws::not_same, crate::proofs::KeyLaws::same_on))]
pub fn are_same_kinds(l: &ObjRef<'_>, r: &ObjRef<'_>, keys: &MergeKeys) -> bool
    requires { ArePaired l.now r.now keys.now }
    ensures { result ≡ meant.are_same_kinds
        (kinds_of l.now keys.now.left) (kinds_of r.now keys.now.right) }
{
    for k in 0..keys.left.len() {
        if l.kind(*keys.left.at(k)) != r.kind(*keys.right.at(k)) {
            return false;
        }
    }
    true
}

// The key columns that `on` names, or else those of common labels: of the same kinds on both sides, and four at most.
pub(crate) fn keys_of_merge(
    alloc: Global,
    dict: &TextDict,
    told: Option<Cells>,
    l: &ObjRef<'_>,
    r: &ObjRef<'_>,
) -> Result<MergeKeys, OpFault>
    requires left { IsKnownTable dict.now l.now }
    requires right { IsKnownTable dict.now r.now }
    requires given { IfSome told (IsSettled cells_value dict.now) }
    requires some { IfSome told (λ labels. 1 ≤ length labels) }
    ensures answer { MakesBy keys_seen dict.now result (words.keys_checked (table_value dict.now l.now)
        (table_value dict.now r.now) (option_map (cell_labels dict.now) told)) }
    ensures keys { IfOk result (AreMergeKeys l.now r.now) }
{
    let keys = keys_told(alloc, dict, told, l, r)?;
    if !are_same_kinds(l, r, &keys) {
        return Err(OpFault::Refused(Code::BadValue(Reason::KeyKinds)));
    }
    if keys.left.len() > 4 {
        return Err(OpFault::Refused(Code::Limit));
    }
    Ok(keys)
}
