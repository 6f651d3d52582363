// Labels of columns that meet.
ghost use Rattle.std.specs.Prelude.{◌≡◌, [], None, length, IfOk, IfErr};
ghost use Rattle.frame_store.specs.Shown.{headings_value, labels_value};
ghost use Rattle.frame_store.specs.World.{IsKnownTable};
ghost use Rattle.frame_parts.specs.form.Infix as meant;
ghost use Rattle.frame_select.specs.Headings.{shared_heading, NamesRepeated};

use cell_core::{Grid, Label, NoMemory, TextDict};
use frame_parts::same_heading;
use frame_select::expect_unshared;
use frame_store::{ObjRef, OpFault};
use std::alloc::Global;

/// Whether two tables have the same labels at the same columns.
pub(crate) fn same_headings(dict: &TextDict, a: &ObjRef<'_>, b: &ObjRef<'_>) -> bool
    requires a { IsKnownTable dict.now a.now }
    requires b { IsKnownTable dict.now b.now }
    ensures { result ≡ meant.same_headings
        (headings_value dict.now a.now.headings) (headings_value dict.now b.now.headings) }
{
    if a.columns() != b.columns() {
        return false;
    }
    for column in 0..a.columns() {
        if !same_heading(dict, a.heading(column), b.heading(column)) {
            return false;
        }
    }
    true
}

/// Whether the labels of a Series' rows, of one level, are the labels of a frame's columns, in their order.
#[tactic(auto, using(crate::proofs::Hints::are_headings))]
pub(crate) fn are_headings(dict: &TextDict, series: &ObjRef<'_>, frame: &ObjRef<'_>) -> bool
    requires series { IsKnownTable dict.now series.now }
    requires frame { IsKnownTable dict.now frame.now }
    ensures { result ≡ meant.are_headings
        (labels_value dict.now series.now.labels) (headings_value dict.now frame.now.headings) }
{
    if series.rows() != frame.columns() {
        return false;
    }
    if series.axis().levels() != 1 {
        return series.rows() == 0;
    }
    for place in 0..frame.columns() {
        let label = Some(series.label(place, 0));
        if !same_heading(dict, label, frame.heading(place)) {
            return false;
        }
    }
    true
}

// The headings of a table, in order.
fn listed_headings(alloc: Global, on: &ObjRef<'_>) -> Result<Vec<Option<Label>>, NoMemory>
    requires { length on.now.headings ≡ length on.now.columns }
    ensures { IfOk result (λ made. made.items ≡ on.now.headings) }
{
    let mut made = Vec::new(alloc);
    for place in 0..on.columns() {
        made.push(on.heading(place))?;
    }
    Ok(made)
}

/// Tests that the labels of a frame's columns differ. Texts are told apart by their numbers.
///
/// `BadValue(Repeated)` of the first one that stands again at a later column. `NoMemory` may come in place of any
/// answer.
pub(crate) fn expect_different(alloc: Global, frame: &ObjRef<'_>) -> Result<(), OpFault>
    requires { length frame.now.headings ≡ length frame.now.columns }
    ensures none { IfOk result (λ done. shared_heading frame.now.headings [] ≡ None) }
    ensures refused { IfErr result (λ fault.
        NamesRepeated fault (shared_heading frame.now.headings [])) }
{
    let headings = listed_headings(alloc, frame)?;
    expect_unshared(alloc, &headings, &[])
}
