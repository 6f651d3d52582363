// Objects that have the rows of another one, and share its cells.
ghost use Rattle.std.specs.Prelude.{◌≡◌, length, IsSome, IfOk};
ghost use Rattle.std.specs.List.{range_with_len};
ghost use Rattle.cell_core.specs.declared.grid.Shape.TheVariants.{Frame};
ghost use Rattle.frame_store.specs.tables.Cost.{free};
ghost use Rattle.frame_store.specs.tables.Settled.{IsSettled};
ghost use Rattle.frame_store.specs.tables.Table.{heading_value, table_value};
ghost use Rattle.frame_store.specs.tables.Valid.{AreHeadings};
ghost use Rattle.frame_parts.specs.form.Finish.{limited};
ghost use Rattle.frame_store.specs.Objects.{tables, table_at};
ghost use Rattle.frame_store.specs.Shown.{headings_value};
ghost use Rattle.frame_store.specs.World.{world, IsSettledWorld, FormsFor};
ghost use Rattle.frame_select.specs.Picked.{headed_by as under_headings};

use crate::planning::all_rows;
use crate::selecting::cut_within;
use cell_core::{Grid, NoMemory, Places, Shape, TextDict};
use frame_store::{Headings, ObjId, OpFault, Store, Value, headings_of};
use std::alloc::Global;

/// The numbers below a count. `NoMemory` is the only refusal.
#[tactic(auto, using(crate::proofs::PickedLaws::one_more_place))]
pub fn places_below(alloc: Global, count: usize) -> Result<Places, NoMemory>
    ensures { IfOk result (λ made. made ≡ range_with_len 0 count) }
{
    let mut places = Places::new(alloc);
    for place in 0..count {
        places.push(place)?;
    }
    Ok(places)
}

// A new object with all rows and columns of another one, of this shape and under these headings,
// one for each column: `Limit` where it would be beyond the limits.
#[tactic(auto, using(crate::proofs::Hints::headed_by))]
fn headed_by(
    alloc: Global,
    store: &mut Store,
    dict: &TextDict,
    on: ObjId,
    shape: Shape,
    headings: Headings,
) -> Result<Value, OpFault>
    requires live { IsSome (tables store.old on.0) }
    requires headed { length headings.labels ≡ length (table_at (tables store.old) on.0).headings }
    requires headings { AreHeadings shape headings.columns_name headings.labels }
    requires settled { IsSettledWorld (world store.old dict.now) }
    requires name { IsSettled heading_value dict.now headings.columns_name }
    requires labels { IsSettled headings_value dict.now headings.labels }
    ensures { FormsFor free result (limited (table_value dict.now
        (under_headings shape headings (table_at (tables store.old) on.0))))
        (world store.old dict.now) (world store.new dict.now) }
{
    let source = store.read(on);
    let columns = places_below(alloc, source.columns())?;
    let rows = all_rows(&source);
    cut_within(alloc, store, on, shape, &rows, &columns, headings)
}

/// A new object with the table of another one, for `copy`.
///
/// # Errors
///
/// `Limit` where it would be beyond the limits. `NoMemory` may come in place of any answer. After a
/// refusal all objects are as they were.
pub fn copied(
    alloc: Global,
    store: &mut Store,
    dict: &TextDict,
    on: ObjId,
) -> Result<Value, OpFault>
    requires live { IsSome (tables store.old on.0) }
    requires settled { IsSettledWorld (world store.old dict.now) }
    ensures { FormsFor free result
        (limited (table_value dict.now (table_at (tables store.old) on.0)))
        (world store.old dict.now) (world store.new dict.now) }
{
    let source = store.read(on);
    let headings = headings_of(alloc, &source)?;
    let shape = source.shape();
    headed_by(alloc, store, dict, on, shape, headings)
}

/// A new object with the table of another one under other headings, for `rename`. Refused as
/// [`copied`] is.
pub fn renamed(
    alloc: Global,
    store: &mut Store,
    dict: &TextDict,
    on: ObjId,
    headings: Headings,
) -> Result<Value, OpFault>
    requires live { IsSome (tables store.old on.0) }
    requires headed { length headings.labels ≡ length (table_at (tables store.old) on.0).headings }
    requires headings { AreHeadings (table_at (tables store.old) on.0).shape headings.columns_name
        headings.labels }
    requires settled { IsSettledWorld (world store.old dict.now) }
    requires name { IsSettled heading_value dict.now headings.columns_name }
    requires labels { IsSettled headings_value dict.now headings.labels }
    ensures { FormsFor free result (limited (table_value dict.now (under_headings
        (table_at (tables store.old) on.0).shape headings (table_at (tables store.old) on.0))))
        (world store.old dict.now) (world store.new dict.now) }
{
    let shape = store.read(on).shape();
    headed_by(alloc, store, dict, on, shape, headings)
}

/// A new frame with the rows and columns of another object, for `to_frame`. Refused as [`copied`]
/// is.
pub fn as_frame(
    alloc: Global,
    store: &mut Store,
    dict: &TextDict,
    on: ObjId,
    headings: Headings,
) -> Result<Value, OpFault>
    requires live { IsSome (tables store.old on.0) }
    requires headed { length headings.labels ≡ length (table_at (tables store.old) on.0).headings }
    requires headings { AreHeadings Frame headings.columns_name headings.labels }
    requires settled { IsSettledWorld (world store.old dict.now) }
    requires name { IsSettled heading_value dict.now headings.columns_name }
    requires labels { IsSettled headings_value dict.now headings.labels }
    ensures { FormsFor free result (limited (table_value dict.now
        (under_headings Frame headings (table_at (tables store.old) on.0))))
        (world store.old dict.now) (world store.new dict.now) }
{
    headed_by(alloc, store, dict, on, Shape::Frame, headings)
}
