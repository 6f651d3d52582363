// The rows of labels.
ghost use Rattle.std.specs.Prelude.{◌≡◌, ◌<◌, ◌==◌, ◌&&◌, [], length, nat_lt, if◌then◌else◌, IfOk, All};
ghost use Rattle.index_core.specs.pick.Keys.{has_one};
ghost use Rattle.index_core.specs.pick.Keys as key;
ghost use Rattle.multi_index.specs.Axes.{AreLeading};
ghost use Rattle.indexers.specs.Keys.{label_key, FitsLevels};
ghost use Rattle.indexers.specs.Picks.{PicksBy, pick_of, loc_pick, IsSpanned};

use crate::faults::{leading_places, leading_span};
use crate::keys::{KeyFault, LocKey, Picked};
use crate::lists::rows_of_list;
use crate::spans::spanned;
use cell_core::{Places, Rows, TextDict, Tuple};
use multi_index::Axis;
use std::alloc::Global;

/// The rows that a key of `loc` picks ("Selection by label", "Slicing with labels" and "Advanced indexing with
/// hierarchical index" in the pandas user guide): the rows of leading labels in order, those of each whole tuple of a
/// list, one after the other, or those of a slice with both ends. A whole tuple that meets one row picks it singly,
/// and the levels that a shorter one names are dropped. Labels meet by the numbers of their texts. A list of k tuples
/// on n rows takes n + k steps, any other key n.
///
/// # Errors
///
/// `NotThere` exactly where labels of the key stand nowhere, or a bound doesn't on one level that isn't in order, or a
/// bound is given on several levels that aren't; `BoundNotUnique` exactly where one level isn't in order and a bound
/// stands more than once. Of several it is the first of the key. `NoMemory` may come in place of any answer.
pub fn loc_places(
    alloc: Global,
    dict: &TextDict,
    axis: &Axis,
    key: &LocKey,
) -> Result<Picked, KeyFault>
    requires fits { FitsLevels (length axis.now.names) key.now }
    ensures picked { PicksBy pick_of result (loc_pick dict.now axis.now (label_key key.now)) }
    ensures span { IfOk result (IsSpanned (length axis.now.tuples)) }
    ensures inside { IfOk result (λ picked. All (λ row. row < length axis.now.tuples) picked.places) }
{
    match key {
        LocKey::All => all_rows(alloc, axis),
        LocKey::One(labels) => rows_of_key(alloc, axis, labels),
        LocKey::Many(tuples) => {
            let places = rows_of_list(alloc, axis, tuples)?;
            Ok(Picked::listed(places))
        }
        LocKey::Span(from, to) => {
            let rows = leading_span(dict, axis, from.as_ref(), to.as_ref())?;
            Ok(spanned(alloc, rows, axis.len())?)
        }
    }
}

// All rows.
fn all_rows(alloc: Global, axis: &Axis) -> Result<Picked, KeyFault>
    ensures picked { PicksBy pick_of result (loc_pick [] axis.now key.all_rows) }
    ensures span { IfOk result (IsSpanned (length axis.now.tuples)) }
{
    let rows = Rows {
        start: 0,
        step: 1,
        count: axis.len(),
    };
    Ok(spanned(alloc, rows, axis.len())?)
}

// The rows of leading labels.
fn rows_of_key(alloc: Global, axis: &Axis, labels: &Tuple) -> Result<Picked, KeyFault>
    requires { AreLeading (length axis.now.names) labels.now }
    ensures picked { PicksBy pick_of result (loc_pick [] axis.now (key.one_key labels.now)) }
    ensures span { IfOk result (IsSpanned (length axis.now.tuples)) }
{
    let places = leading_places(alloc, axis, labels)?;
    let named = labels.len();
    let levels = axis.levels();
    let single = is_single(named, levels, &places);
    let dropped = levels_dropped(named, levels);
    Ok(Picked {
        places,
        single,
        dropped,
        span: None,
    })
}

// Whether a key with a label for each level meets one row.
fn is_single(named: usize, levels: usize, places: &Places) -> bool
    ensures { result ≡ ((named == levels) && has_one places.now) }
{
    named == levels && places.len() == 1
}

// How many levels an answer loses: those that a shorter key names.
fn levels_dropped(named: usize, levels: usize) -> usize
    ensures { result ≡ if nat_lt named levels then named else 0 }
{
    if named < levels { named } else { 0 }
}
