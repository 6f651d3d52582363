// The kinds that a dict names for columns.
ghost use Rattle.std.specs.Prelude.{◌≡◌, ◌++◌, IfOk, OnOk};
ghost use Rattle.std.specs.Option.{option_map};
ghost use Rattle.column_core.specs.cells.Cell.{datum, label_datum};
ghost use Rattle.meaning_method.specs.Readers as readers;
ghost use Rattle.csv_frames.specs.Views.{entries_seen};
ghost use Rattle.frame_store.specs.Objects.{Tables};
ghost use Rattle.frame_store.specs.Arguments.{entries_of};
ghost use Rattle.frame_store.specs.Readers.{lent_pairs};
ghost use Rattle.frame_make.specs.Kinds as meant;

use cell_core::{Cell, Label, NoMemory, TextDict, TextId};
use csv_frames::{NamedKind, NamedKinds};
use frame_signatures::kind_named;
use frame_store::Argument;
use std::alloc::Global;

// The kind that a value names for a label, if the value is a text.
fn kind_of_text(dict: &TextDict, label: TextId, value: Option<Cell>) -> Option<NamedKind>
    ensures { option_map (meant.entry_seen dict.now) result
        ≡ meant.kind_for (label_datum dict.now (Label.Text label))
        (option_map (datum dict.now) value) }
{
    match value {
        Some(Cell::Text(name)) => Some(NamedKind {
            label,
            kind: kind_named(dict.text(name)),
        }),
        Some(Cell::Int(_)) => None,
        Some(Cell::Bool(_)) => None,
        Some(Cell::Na) => None,
        None => None,
    }
}

// The kind that a value names for a label, if both are texts.
fn kind_for(dict: &TextDict, label: Label, value: Option<Cell>) -> Option<NamedKind>
    ensures { option_map (meant.entry_seen dict.now) result
        ≡ meant.kind_for (label_datum dict.now label) (option_map (datum dict.now) value) }
{
    match label {
        Label::Text(label) => kind_of_text(dict, label, value),
        Label::Int(_) => None,
        Label::Bool(_) => None,
        Label::Na => None,
    }
}

// Appends the kind, where there is one.
fn push_kind(kinds: &mut NamedKinds, kind: Option<NamedKind>) -> Result<(), NoMemory>
    ensures { OnOk result (kinds.new ≡ kinds.old ++ meant.kinds_of kind) }
{
    match kind {
        None => Ok(()),
        Some(kind) => kinds.push(kind),
    }
}

// The kinds of a dict's pairs, in their order.
pub(crate) fn kinds_in(
    alloc: Global,
    dict: &TextDict,
    pairs: &[(Label, Argument)],
) -> Result<NamedKinds, NoMemory>
    ensures { IfOk result (λ kinds. (live : Tables) → entries_seen dict.now kinds
        ≡ readers.kinds_in (entries_of live dict.now pairs.now)) }
{
    let mut kinds = NamedKinds::new(alloc);
    let mut rest = pairs;
    while let [first, after @ ..] = rest {
        let kind = kind_for(dict, first.0, first.1.scalar());
        push_kind(&mut kinds, kind)?;
        rest = after;
    }
    Ok(kinds)
}

// The kinds of a dict, where one is given.
pub(crate) fn kinds_given(
    alloc: Global,
    dict: &TextDict,
    pairs: Option<&[(Label, Argument)]>,
) -> Result<NamedKinds, NoMemory>
    ensures { IfOk result (λ kinds. (live : Tables) → entries_seen dict.now kinds
        ≡ readers.kinds_given (option_map (lent_pairs live dict.now) pairs.entry)) }
{
    match pairs {
        Some(pairs) => kinds_in(alloc, dict, pairs),
        None => Ok(NamedKinds::new(alloc)),
    }
}
