// What `groupby` is told.
ghost use Rattle.std.specs.Prelude.{IfOk};
ghost use Rattle.frame_labels.specs.method.Groups as meant;
ghost use Rattle.frame_parts.specs.Makes.{MakesBy};
ghost use Rattle.frame_store.specs.Arguments.{object_value, IsLiveObject};
ghost use Rattle.frame_store.specs.Objects.{tables, table_at};
ghost use Rattle.frame_store.specs.World.{world, arguments_in, IsSettledWorld, AreKnownArguments};
ghost use Rattle.frame_select.specs.Selected.{as_it_is};
ghost use Rattle.frame_labels.specs.Named.{first_in, NamesColumns};
ghost use Rattle.frame_groups.specs.Grouped.{grouping_seen, HasKeys, AreKeys};

use cell_core::{Code, Places, TextDict};
use frame_labels::named_places;
use frame_signatures::{Bound, arguments, bind, parameters};
use frame_store::{Named, ObjId, OpFault, Store};
use meaning_call::{Method, OtherMethod};
use std::alloc::Global;

// What `groupby` is told: the columns whose cells are the keys, whether groups stand in the order of their keys,
// whether keys with an NA are dropped, and whether the keys are the labels of the rows.
#[derive(Drop)]
pub(crate) struct Grouping {
    pub(crate) keys: Places,
    pub(crate) sorted: bool,
    pub(crate) dropna: bool,
    pub(crate) as_index: bool,
}

// The columns that `by` names: one at least, and four at most where they are to be labels.
fn keys_in(
    alloc: Global,
    store: &Store,
    dict: &TextDict,
    bound: &Bound<'_>,
    as_index: bool,
    on: ObjId,
) -> Result<Places, OpFault>
    requires live { IsLiveObject (tables store.now) on }
    requires settled { IsSettledWorld (world store.now dict.now) }
    requires names { NamesColumns (world store.now dict.now) bound.now }
    ensures answer { let t = object_value (tables store.now) dict.now on in
        let by = first_in (world store.now dict.now) bound.now in
        MakesBy as_it_is dict.now result (meant.keys_in t as_index by) }
    ensures keys { IfOk result (AreKeys (table_at (tables store.now) on.0) as_index) }
{
    let keys = named_places(alloc, store, dict, bound, on)?;
    if keys.len() == 0 {
        return Err(OpFault::Refused(Code::WrongKind));
    }
    if as_index && keys.len() > 4 {
        return Err(OpFault::Refused(Code::Limit));
    }
    Ok(keys)
}

// What the arguments of `groupby` say.
pub(crate) fn grouping_of(
    alloc: Global,
    store: &Store,
    dict: &TextDict,
    by: &[Named],
    on: ObjId,
) -> Result<Grouping, OpFault>
    requires live { IsLiveObject (tables store.now) on }
    requires settled { IsSettledWorld (world store.now dict.now) }
    requires arguments { AreKnownArguments (world store.now dict.now) by.now }
    ensures answer { let t = object_value (tables store.now) dict.now on in
        let gs = arguments_in (world store.now dict.now) by.now in
        MakesBy grouping_seen dict.now result (meant.grouping_of t gs) }
    ensures keys { IfOk result (HasKeys (table_at (tables store.now) on.0)) }
{
    let bound = bind(
        store,
        dict,
        parameters(Method::Other(OtherMethod::Groupby)),
        by,
    )?;
    let sorted = bound.truth(arguments::GROUPBY_SORT);
    let dropna = bound.truth(arguments::GROUPBY_DROPNA);
    let as_index = bound.truth(arguments::GROUPBY_AS_INDEX);
    let keys = keys_in(alloc, store, dict, &bound, as_index, on)?;
    Ok(Grouping {
        keys,
        sorted,
        dropna,
        as_index,
    })
}
