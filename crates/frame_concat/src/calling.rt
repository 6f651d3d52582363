// `pd.concat` of objects.
ghost use Rattle.std.specs.Prelude.{◌≡◌, List, Some, IfOk};
ghost use Rattle.std.specs.Option.{option_map};
ghost use Rattle.column_core.specs.cells.Text.{Text};
ghost use Rattle.frame_store.specs.tables.Settled.{IsSettled};
ghost use Rattle.frame_store.specs.tables.Value.{list_in};
ghost use Rattle.meaning_call.specs.declared.Accepted.TheVariants as accepted;
ghost use Rattle.meaning_call.specs.Binding.{truth_in};
ghost use Rattle.frame_parts.specs.form.Select.{labels_of};
ghost use Rattle.meaning_method.specs.Concat as meant;
ghost use Rattle.frame_store.specs.Arguments.{items_of};
ghost use Rattle.frame_store.specs.Objects.{Tables};
ghost use Rattle.frame_store.specs.Shown.{Makes};
ghost use Rattle.frame_store.specs.World.{world, arguments_in, IsSettledWorld, AreKnownArguments};
ghost use Rattle.frame_signatures.specs.Bound.{stands_at, accepted_at};
ghost use Rattle.frame_concat.specs.Parts.{parts_value, AreKnownParts};
ghost use Rattle.frame_concat.specs.Asked.{asked_value, keys_value};

use crate::asked::{Asked, check_keys};
use crate::below::below;
use crate::beside::beside;
use crate::gathering::{labels_of, parts_of};
use crate::parts::Part;
use cell_core::{Code, Label, NoMemory, Reason, TextDict};
use frame_signatures::{Bound, arguments, bind, function_parameters};
use frame_store::{Item, Named, OpFault, Store, Table};
use meaning_call::Function;
use std::alloc::Global;

// The labels of parts, if there are such.
fn keys_in(alloc: Global, items: Option<&[Item]>) -> Result<Option<Vec<Label>>, NoMemory>
    ensures { (live : Tables) (texts : List Text) → IfOk result (λ keys. keys_value texts keys
        ≡ option_map (λ parts. labels_of (items_of live texts parts.now)) items.entry) }
{
    match items {
        Some(items) => Ok(Some(labels_of(alloc, items)?)),
        None => Ok(None),
    }
}

// Whether the axis of a call is 1.
fn is_across(bound: &Bound<'_>) -> bool
    requires { accepted_at bound.now 1 ≡ Some accepted.Whole }
    ensures { (live : Tables) (texts : List Text)
        → result ≡ meant.is_across (stands_at live texts bound.now 1) }
{
    bound.whole(arguments::CONCAT_AXIS) == 1
}

// What a call asks for besides the axis.
fn asked_by(alloc: Global, dict: &TextDict, bound: &Bound<'_>) -> Result<Asked, NoMemory>
    requires join { accepted_at bound.now 2 ≡ Some accepted.Text }
    requires numbers { accepted_at bound.now 3 ≡ Some accepted.Truth }
    ensures inner { (live : Tables)
        → IfOk result (λ a. a.inner ≡ meant.is_inner (stands_at live dict.now bound.now 2)) }
    ensures renumbered { (live : Tables) (texts : List Text)
        → IfOk result (λ a. Some a.renumbered ≡ truth_in (stands_at live texts bound.now 3)) }
    ensures keys { (live : Tables) (texts : List Text) → IfOk result (λ a. keys_value texts a.keys
        ≡ option_map labels_of (list_in (stands_at live texts bound.now 4))) }
{
    Ok(Asked {
        inner: bound.text(dict, arguments::CONCAT_JOIN) == "inner",
        renumbered: bound.truth(arguments::CONCAT_IGNORE_INDEX),
        keys: keys_in(alloc, bound.list_or_none(arguments::CONCAT_KEYS))?,
    })
}

// The parts put together along an axis.
fn concatenated(
    alloc: Global,
    dict: &TextDict,
    across: bool,
    parts: &[Part<'_>],
    asked: &Asked,
) -> Result<Table, OpFault>
    requires known { AreKnownParts dict.now parts.now }
    requires keys { IsSettled asked_value dict.now asked.now }
    ensures { Makes dict.now result (meant.concatenated across
        (parts_value dict.now parts.now) (asked_value dict.now asked.now)) }
{
    if parts.is_empty() {
        return Err(OpFault::Refused(Code::BadValue(Reason::Argument)));
    }
    check_keys(parts.len(), across, asked)?;
    if across {
        beside(alloc, dict, parts, asked)
    } else {
        below(alloc, dict, parts, asked)
    }
}

/// What `pd.concat` makes of these arguments.
///
/// `pd.concat(objects, axis=0, join="outer", ignore_index=False, keys=None)` puts a list of Series and frames together
/// ("Merge, join, concatenate and compare" in the pandas user guide). On axis 0 the rows stand one part after the
/// other: of Series a Series, of frames a frame. Where all frames have the same labels of columns, in the same order,
/// columns meet by position, equal labels too; else the columns are those that any part has, in the order of first
/// sight, or with `join="inner"` those that all have, and cells that a part lacks are missing. `ignore_index=True`
/// numbers the rows, and `keys` gives each part a label in one level more. On axis 1 the columns stand side by side,
/// whatever labels they have. The rows keep their labels where all parts have the same; else they meet by their labels,
/// which are all that any part has, or with `join="inner"` those that all have. Nameless Series are numbered from 0 on,
/// and with `ignore_index=True` all columns. Names of levels and of the columns stay where all parts have them.
///
/// # Errors
///
/// In this order: `WrongKind` or `BadValue(Argument)` where the arguments aren't bound, the latter also for an empty
/// list and for `keys` beside `ignore_index=True`; `WrongKind` for `keys` on axis 1; `BadValue(Length)` where there
/// aren't as many keys as parts; on axis 0 `WrongKind` for Series beside frames; `BadValue(Levels)` for different
/// numbers of levels, on axis 1 only where labels differ; where labels along the other axis differ, `RepeatedLabel` for
/// the first one that stands twice in a part; on axis 0 `WrongKind` for a column that has different kinds; `Limit` for
/// more than four levels, and for a table beyond the limits. `NoMemory` may come in place of any answer.
pub fn concat(
    alloc: Global,
    store: &Store,
    dict: &TextDict,
    args: &[Named],
) -> Result<Table, OpFault>
    requires settled { IsSettledWorld (world store.now dict.now) }
    requires known { AreKnownArguments (world store.now dict.now) args.now }
    ensures { Makes dict.now result
        (meant.concat_call (arguments_in (world store.now dict.now) args.now)) }
{
    let bound = bind(store, dict, function_parameters(Function::Concat), args)?;
    let parts = parts_of(alloc, store, bound.objects(arguments::CONCAT_OBJECTS))?;
    let asked = asked_by(alloc, dict, &bound)?;
    concatenated(alloc, dict, is_across(&bound), &parts, &asked)
}
