// Frames that share columns of other ones, and a column that stands in several places.
ghost use Rattle.std.specs.Prelude.{◌≡◌, ◌<◌, ◌∷◌, length, Some, All, IsSome, IfOk, OnOk, OnErr};
ghost use Rattle.cell_core.specs.declared.grid.Shape.TheVariants.{Frame};
ghost use Rattle.frame_store.specs.tables.Valid.{IsWhole};
ghost use Rattle.frame_store.specs.Objects.{tables, table_at, changing, IsFree, Becomes, Stays, Alters, KeepBlocks, Raises};
ghost use Rattle.frame_store.specs.Parts.{block_column, FitsRows, IsSingle};
ghost use Rattle.frame_store.specs.Stores.{charged};
ghost use Rattle.frame_set.specs.Assigned.{with_places};
ghost use Rattle.frame_set.specs.Changes.{FitsColumns};
ghost use Rattle.frame_set.specs.Places.{column_first, columns_taken, picks_of};

use cell_core::{Grid, Label, NoMemory, Places, Rows, Shape};
use column_core::Block;
use frame_select::{heading_list, headings_at};
use frame_store::{Blocks, Headings, ObjId, ObjRef, Store};
use std::alloc::Global;

// A new frame of these columns of another one, in their order, which shares their cells.
fn take_columns(
    alloc: Global,
    store: &mut Store,
    on: ObjId,
    places: &Places,
) -> Result<ObjId, NoMemory>
    requires live { IsSome (tables store.old on.0) }
    requires frame { (table_at (tables store.old) on.0).shape ≡ Frame }
    requires places { All (λ place. place < length (table_at (tables store.old) on.0).columns)
        places.now }
    ensures fresh { IfOk result (IsFree store.old) }
    ensures ok { IfOk result (λ id. Becomes store.old store.new id
        (columns_taken (table_at (tables store.old) on.0) places.now)) }
    ensures err { OnErr result (Stays store.old store.new) }
    ensures held { Raises 0 store.old store.new }
    ensures blocks { KeepBlocks None store.old store.new }
{
    let source = store.read(on);
    let labels = headings_at(alloc, &source, places)?;
    let headings = heading_list(alloc, source.columns_name(), &labels)?;
    let axis = source.axis().copy(alloc)?;
    let rows = Rows {
        start: 0,
        step: 1,
        count: source.rows(),
    };
    store.derive(on, Shape::Frame, rows, places, axis, headings)
}

/// Gives an object the frame of these columns of a frame, itself or another one, in their order. They share cells then.
/// `NoMemory` leaves all objects as they were.
pub(crate) fn replace_by_columns(
    alloc: Global,
    store: &mut Store,
    on: ObjId,
    from: ObjId,
    places: &Places,
) -> Result<(), NoMemory>
    requires live { IsSome (tables store.old on.0) }
    requires from { IsSome (tables store.old from.0) }
    requires frame { (table_at (tables store.old) from.0).shape ≡ Frame }
    requires places { All (λ place. place < length (table_at (tables store.old) from.0).columns)
        places.now }
    ensures ok { OnOk result (Becomes store.old store.new on
        (columns_taken (table_at (tables store.old) from.0) places.now)) }
    ensures err { OnErr result (Stays store.old store.new) }
    ensures held { Raises 0 store.old store.new }
    ensures blocks { KeepBlocks (changing on.0 result) store.old store.new }
{
    let made = take_columns(alloc, store, from, places)?;
    store.replace(on, made);
    Ok(())
}

// The headings of a frame, behind a label.
fn label_first(alloc: Global, on: &ObjRef<'_>, label: Label) -> Result<Headings, NoMemory>
    requires { IsWhole on.now }
    ensures { IfOk result (λ made. made
        ≡ record { columns_name = on.now.columns_name; labels = Some label ∷ on.now.headings }) }
{
    let mut headings = Headings::new(alloc, on.columns_name());
    headings.push(Some(label))?;
    for place in 0..on.columns() {
        headings.push(on.heading(place))?;
    }
    Ok(headings)
}

// A new frame of a column and, behind it, all columns of another one, whose cells it shares.
fn derive_first(
    alloc: Global,
    store: &mut Store,
    on: ObjId,
    label: Label,
    block: Block,
) -> Result<ObjId, NoMemory>
    requires live { IsSome (tables store.old on.0) }
    requires frame { (table_at (tables store.old) on.0).shape ≡ Frame }
    requires single { IsSingle block }
    requires rows { FitsRows (table_at (tables store.old) on.0) block }
    ensures fresh { IfOk result (IsFree store.old) }
    ensures ok { IfOk result (λ id. Becomes store.old store.new id
        (column_first (table_at (tables store.old) on.0) label (block_column block))) }
    ensures err { OnErr result (Stays store.old store.new) }
    ensures held { Raises (charged (length (table_at (tables store.old) on.0).labels) result)
        store.old store.new }
    ensures blocks { KeepBlocks None store.old store.new }
{
    let source = store.read(on);
    let headings = label_first(alloc, &source, label)?;
    let axis = source.axis().copy(alloc)?;
    let mut first = Blocks::new(alloc);
    first.push(block)?;
    store.derive_behind(on, Shape::Frame, first, axis, headings)
}

// Behind one more column: the place of each of so many columns, and at these places that of the one more.
#[tactic(auto, using(crate::proofs::Hints::picks_of))]
fn picks_of(alloc: Global, count: usize, places: &Places) -> Result<Places, NoMemory>
    requires { All (λ place. place < count) places.now }
    ensures { IfOk result (λ picks. picks ≡ picks_of count places.now) }
{
    let mut picks = Vec::new(alloc);
    for place in 0..count {
        picks.push(place + 1)?;
    }
    for taken in places.as_slice() {
        picks[*taken] = 0;
    }
    Ok(Places::from(picks))
}

/// Puts a column in place of several of a frame, which share its cells then. `NoMemory` leaves all
/// objects as they were.
pub(crate) fn put_in_places(
    alloc: Global,
    store: &mut Store,
    on: ObjId,
    places: &Places,
    label: Label,
    block: Block,
) -> Result<(), NoMemory>
    requires live { IsSome (tables store.old on.0) }
    requires fits { FitsColumns (table_at (tables store.old) on.0) places.now block }
    ensures ok { OnOk result (Alters store.old store.new on
        (λ t. with_places t places.now label (block_column block))) }
    ensures err { OnErr result (Stays store.old store.new) }
    ensures held { Raises (charged (length (table_at (tables store.old) on.0).labels) result)
        store.old store.new }
    ensures blocks { KeepBlocks (changing on.0 result) store.old store.new }
{
    let picks = picks_of(alloc, store.read(on).columns(), places)?;
    // What is undone isn't held any more, since each block counts once: `Store::held` says so.
    let _ = store.held();
    let wide = derive_first(alloc, store, on, label, block)?;
    let done = replace_by_columns(alloc, store, on, wide, &picks);
    store.drop_object(wide);
    let _ = store.held();
    done
}
