// Other names of the levels, and other labels of the rows.
ghost use Rattle.std.specs.Prelude.{◌≡◌, ◌++◌, List, slice_get, OnOk, IfOk};
ghost use Rattle.column_core.specs.cells.Text.{Text as OneText};
ghost use Rattle.frame_store.specs.tables.Settled.{IsSettled};
ghost use Rattle.frame_store.specs.tables.Table.{table_value};
ghost use Rattle.frame_store.specs.tables.Valid.{IsWhole};
ghost use Rattle.frame_signatures.specs.call.Binding.{HasNoText};
ghost use Rattle.frame_parts.specs.form.Finish.{limited};
ghost use Rattle.meaning_method.specs.Levels as meant;
ghost use Rattle.frame_store.specs.Objects.{Tables};
ghost use Rattle.frame_store.specs.Derivations.{Derives};
ghost use Rattle.frame_store.specs.Shown.{headings_value};
ghost use Rattle.frame_signatures.specs.Bound.{stands_at};
ghost use Rattle.frame_signatures.specs.Scalars.{scalars};
ghost use Rattle.frame_labels.specs.Levels.{some_labels};

use crate::under::{named_axis, under_axis};
use cell_core::{Code, Grid, Label, NoMemory, Reason};
use frame_parts::{name_of, within_limits};
use frame_signatures::{Bound, arguments};
use frame_store::{Derivation, Item, ObjRef, OpFault};
use multi_index::Axis;
use std::alloc::Global;

// Appends the names that the scalars of a list are.
fn push_names(names: &mut Vec<Option<Label>>, items: &[Item]) -> Result<(), NoMemory>
    ensures { OnOk result ((texts : List OneText) → headings_value texts names.new.items
        ≡ headings_value texts names.old.items ++ some_labels (scalars texts items.now)) }
{
    for item in items {
        if let Some(cell) = item.scalar() {
            names.push(Some(Label::from(cell)))?;
        }
    }
    Ok(())
}

/// The names of levels that the first argument is: those of a list, or the one that a label or None
/// is. `NoMemory` is the only refusal.
pub fn level_names(alloc: Global, bound: &Bound<'_>) -> Result<Vec<Option<Label>>, NoMemory>
    requires { HasNoText (slice_get bound.now.parameters.now 0) }
    ensures { IfOk result (λ names. (live : Tables) (texts : List OneText)
        → headings_value texts names.items ≡ meant.names_in (stands_at live texts bound.now 0)) }
{
    let mut names = Vec::new(alloc);
    match bound.list_or_none(arguments::RENAME_AXIS_NAMES) {
        Some(items) => push_names(&mut names, items)?,
        None => names.push(name_of(bound.scalar_or_none(arguments::RENAME_AXIS_NAMES)))?,
    }
    Ok(names)
}

/// All of the table, with these names of its levels, one for each.
///
/// `BadValue` where they are more or fewer, `Limit`. `NoMemory` may come in place of any answer.
pub fn rename_axis(
    alloc: Global,
    on: &ObjRef<'_>,
    names: &[Option<Label>],
) -> Result<Derivation, OpFault>
    requires { IsWhole on.now }
    ensures { (texts : List OneText) → IsSettled table_value texts on.now
        → IsSettled headings_value texts names.now → Derives texts on.now result
        (meant.axis_renamed (table_value texts on.now) (headings_value texts names.now)) }
{
    let levels = on.axis().levels();
    if names.len() != levels {
        let length = Reason::Length(levels as u64, names.len() as u64);
        return Err(OpFault::Refused(Code::BadValue(length)));
    }
    if !within_limits(on.rows(), on.columns()) {
        return Err(OpFault::Refused(Code::Limit));
    }
    let axis = named_axis(on.axis().copy(alloc)?, names);
    Ok(under_axis(alloc, on, axis)?)
}

/// All of the table, with the labels 0, 1 and so on in place of its own, or `Limit`. `NoMemory` may
/// come in place of any answer.
#[tactic(auto, using(crate::proofs::Hints::renumber))]
pub fn renumber(alloc: Global, on: &ObjRef<'_>) -> Result<Derivation, OpFault>
    requires { IsWhole on.now }
    ensures { (texts : List OneText) → IsSettled table_value texts on.now
        → Derives texts on.now result (limited (meant.renumbered (table_value texts on.now))) }
{
    if !within_limits(on.rows(), on.columns()) {
        return Err(OpFault::Refused(Code::Limit));
    }
    let axis = Axis::range(alloc, on.rows())?;
    Ok(under_axis(alloc, on, axis)?)
}
