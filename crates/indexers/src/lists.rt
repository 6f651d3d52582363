// The rows of lists of tuples.
ghost use Rattle.std.specs.Prelude.{◌≡◌, ◌<◌, ◌≤◌, ◌*◌, ◌++◌, true, Ok, length, IfOk, IfSome, OnOk, All};
ghost use Rattle.index_core.specs.pick.Rows.{are_some};
ghost use Rattle.multi_index.specs.Axes.{HaveLevels};
ghost use Rattle.indexers.specs.Lists.{are_within, list_within, room_after, rows_found, rows_of_list, unless_more};
ghost use Rattle.indexers.specs.Picks.{PicksBy, as_it_is};

use crate::keys::KeyFault;
use cell_core::{NoMemory, Places, Tuples};
use multi_index::Axis;
use row_keys::{Partners, find_partners};
use std::alloc::Global;

/// The rows of each tuple of a list, one after the other, as [`loc_places`](crate::loc_places) picks them; `None` where
/// they are more than `most`. They are counted before one of them is listed. A list of k tuples on n rows takes n + k
/// steps, and one for each row of the answer.
///
/// # Errors
///
/// `NotThere` exactly where a tuple stands nowhere, with the first of the list. `NoMemory` may come in place of any
/// answer.
#[tactic(auto, using(crate::proofs::Hints::listed_places))]
pub fn listed_places(
    alloc: Global,
    axis: &Axis,
    tuples: &Tuples,
    most: usize,
) -> Result<Option<Places>, KeyFault>
    requires { HaveLevels (length axis.now.names) tuples.now }
    ensures rows { PicksBy as_it_is result (list_within most axis.now.tuples tuples.now) }
    ensures inside { IfOk result (λ found. IfSome found (All (λ row. row < length axis.now.tuples))) }
{
    if has_few_rows(tuples.len(), axis.len(), most) {
        return Ok(Some(rows_of_list(alloc, axis, tuples)?));
    }
    rows_within(alloc, axis, tuples, most)
}

// Whether no list of so many tuples has more than so many rows among these.
fn has_few_rows(tuples: usize, rows: usize, most: usize) -> bool
    ensures { result ≡ true → tuples * rows ≤ most }
{
    match tuples.checked_mul(rows) {
        Some(all) => all <= most,
        None => false,
    }
}

/// The rows of each tuple of a list.
pub(crate) fn rows_of_list(alloc: Global, axis: &Axis, tuples: &Tuples) -> Result<Places, KeyFault>
    requires { HaveLevels (length axis.now.names) tuples.now }
    ensures { PicksBy as_it_is result (rows_of_list axis.now.tuples tuples.now) }
{
    let levels = axis.levels();
    if levels == 1 {
        return rows_of_labels(alloc, axis, tuples);
    }
    rows_of_tuples(alloc, axis, tuples)
}

// The rows of each label of a list on one level.
fn rows_of_labels(alloc: Global, axis: &Axis, labels: &Tuples) -> Result<Places, KeyFault>
    requires one { length axis.now.names ≡ 1 }
    requires full { HaveLevels 1 labels.now }
    ensures { PicksBy as_it_is result (rows_of_list axis.now.tuples labels.now) }
{
    let rows = axis.rows_by_label(alloc)?;
    let mut places = Places::new(alloc);
    for k in 0..labels.len() {
        let label = labels.at(k);
        if !rows.push_rows(label.at(0), &mut places)? {
            return Err(KeyFault::NotThere(label.copy()));
        }
    }
    Ok(places)
}

// The rows of the labels of a list on one level, each of which stands once. None where some label doesn't.
fn rows_of_lone_labels(
    alloc: Global,
    axis: &Axis,
    labels: &Tuples,
) -> Result<Option<Places>, NoMemory>
    requires one { length axis.now.names ≡ 1 }
    requires full { HaveLevels 1 labels.now }
    ensures { IfOk result (λ found. IfSome found (λ rows.
        rows_of_list axis.now.tuples labels.now ≡ Ok rows)) }
{
    let rows = axis.rows_by_label(alloc)?;
    let mut places = Places::new(alloc);
    for k in 0..labels.len() {
        let label = labels.at(k);
        let Some(row) = rows.only_row(label.at(0)) else {
            return Ok(None);
        };
        places.push(row)?;
    }
    Ok(Some(places))
}

// The rows of each tuple of a list, where all tuples are numbered together.
fn rows_of_tuples(alloc: Global, axis: &Axis, tuples: &Tuples) -> Result<Places, KeyFault>
    requires { HaveLevels (length axis.now.names) tuples.now }
    ensures { PicksBy as_it_is result (rows_of_list axis.now.tuples tuples.now) }
{
    let found = rows_of_each(alloc, axis, tuples)?;
    rows_found(alloc, &found, tuples)
}

// The rows of each tuple of a list, which are counted first. None where they are more than so many.
fn rows_within(
    alloc: Global,
    axis: &Axis,
    tuples: &Tuples,
    most: usize,
) -> Result<Option<Places>, KeyFault>
    requires { HaveLevels (length axis.now.names) tuples.now }
    ensures { PicksBy as_it_is result (list_within most axis.now.tuples tuples.now) }
{
    let levels = axis.levels();
    if levels == 1 {
        if let Some(places) = rows_of_lone_labels(alloc, axis, tuples)? {
            return Ok(unless_more(places, most));
        }
    }
    rows_counted(alloc, axis, tuples, most)
}

// Rows, unless they are more than so many.
fn unless_more(places: Places, most: usize) -> Option<Places>
    ensures { result ≡ unless_more most places }
{
    if places.len() <= most {
        Some(places)
    } else {
        None
    }
}

// The same, where all tuples are numbered together.
#[tactic(auto, using(crate::proofs::Hints::rows_counted))]
fn rows_counted(
    alloc: Global,
    axis: &Axis,
    tuples: &Tuples,
    most: usize,
) -> Result<Option<Places>, KeyFault>
    requires { HaveLevels (length axis.now.names) tuples.now }
    ensures { PicksBy as_it_is result (list_within most axis.now.tuples tuples.now) }
{
    let found = rows_of_each(alloc, axis, tuples)?;
    if !are_within(&found, tuples, most)? {
        return Ok(None);
    }
    Ok(Some(rows_found(alloc, &found, tuples)?))
}

// For each tuple of a list the rows that have it.
#[tactic(auto, using(crate::proofs::Hints::rows_of_each))]
fn rows_of_each(alloc: Global, axis: &Axis, tuples: &Tuples) -> Result<Partners, NoMemory>
    requires { HaveLevels (length axis.now.names) tuples.now }
    ensures rows { IfOk result (λ found. rows_found found tuples.now
        ≡ rows_of_list axis.now.tuples tuples.now) }
    ensures many { IfOk result (λ found. length found ≡ length tuples.now) }
{
    find_partners(alloc, tuples, axis, axis.levels())
}

// What is left of a room for rows after so many.
fn room_after(room: Option<usize>, rows: usize) -> Option<usize>
    ensures { result ≡ room_after room rows }
{
    room?.checked_sub(rows)
}

// Whether the rows that were found are no more than so many. Each tuple must have some.
fn are_within(found: &Partners, tuples: &Tuples, most: usize) -> Result<bool, KeyFault>
    requires { length found.now ≡ length tuples.now }
    ensures { PicksBy as_it_is result (are_within most found.now tuples.now) }
{
    let mut room = Some(most);
    for k in 0..tuples.len() {
        let rows = found.rows(k);
        if rows.is_empty() {
            return Err(KeyFault::NotThere(tuples.at(k).copy()));
        }
        room = room_after(room, rows.len());
    }
    Ok(room.is_some())
}

// The rows that were found, one after the other. Each tuple must have some.
fn rows_found(alloc: Global, found: &Partners, tuples: &Tuples) -> Result<Places, KeyFault>
    requires { length found.now ≡ length tuples.now }
    ensures { PicksBy as_it_is result (rows_found found.now tuples.now) }
{
    let mut places = Places::new(alloc);
    for k in 0..tuples.len() {
        if !push_rows(found.rows(k), &mut places)? {
            return Err(KeyFault::NotThere(tuples.at(k).copy()));
        }
    }
    Ok(places)
}

// Appends rows, and says whether there are some. After `NoMemory` some of them may stand there.
fn push_rows(rows: &[usize], places: &mut Places) -> Result<bool, NoMemory>
    ensures rows { OnOk result (places.new ≡ places.old ++ rows.now) }
    ensures some { IfOk result (λ some. some ≡ are_some rows.now) }
{
    for row in rows {
        places.push(*row)?;
    }
    Ok(!rows.is_empty())
}
