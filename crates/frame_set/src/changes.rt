// Changes of one object, which are tested whole before they are carried out.
ghost use Rattle.std.specs.Prelude.{Some, None, IsSome, IfSome, OnOk, OnErr};
ghost use Rattle.frame_store.specs.tables.Valid.{IsWhole};
ghost use Rattle.frame_store.specs.Objects.{tables, table_at, with_object, changing, Stays, Alters, Turns, KeepBlocks, Raises};
ghost use Rattle.frame_store.specs.Stores.{charged};
ghost use Rattle.frame_set.specs.Changes.{changed, cells_changed, table_after, cells_after, ended, IsChangeOf, IsSettingOf, MayEnd};
ghost use Rattle.frame_set.specs.Sole.{LeavesBlocks, LeavesBlocksAfter};

use crate::sharing::put_in_places;
use cell_core::{Cells, Label, NoMemory, Places};
use column_core::Block;
use frame_store::{ObjId, Store, Table};
use std::alloc::Global;

/// What a setting changes. Each was tested, and the memory for its cells was taken.
#[derive(Drop)]
pub(crate) enum Change {
    /// Cells: a value for each of these rows and columns, row by row.
    Cells {
        rows: Places,
        columns: Places,
        values: Cells,
    },
    /// A whole column under a label, in place of another one or last.
    Column {
        place: usize,
        label: Label,
        block: Block,
    },
    /// A column in place of several that have its label. They share its cells then.
    Columns {
        places: Places,
        label: Label,
        block: Block,
    },
    /// The whole table.
    Table(Table),
}

/// What a setting does.
#[derive(Drop)]
pub(crate) enum Setting {
    /// A change by cells of its own.
    Change(Change),
    /// The column of a Series, which ends, moves under a label, in place of another one or last.
    Move {
        place: usize,
        label: Label,
        series: ObjId,
    },
}

// Carries a change out. `NoMemory` leaves all objects as they were.
fn carry_change(alloc: Global, store: &mut Store, on: ObjId, change: Change) -> Result<(), NoMemory>
    requires live { IsSome (tables store.old on.0) }
    requires whole { IsWhole (table_at (tables store.old) on.0) }
    requires change { IsChangeOf (table_at (tables store.old) on.0) change }
    ensures ok { OnOk result (Alters store.old store.new on (λ t. changed t change)) }
    ensures err { OnErr result (Stays store.old store.new) }
    ensures held { Raises (charged (cells_changed (table_at (tables store.old) on.0) change) result)
        store.old store.new }
    ensures blocks { KeepBlocks (changing on.0 result) store.old store.new }
    ensures sole { OnOk result (LeavesBlocks store.old store.new on change) }
{
    match change {
        Change::Cells {
            rows,
            columns,
            values,
        } => store.set_cells(on, &rows, &columns, &values),
        Change::Column {
            place,
            label,
            block,
        } => store.put_column(on, place, Some(label), block),
        Change::Columns {
            places,
            label,
            block,
        } => put_in_places(alloc, store, on, &places, label, block),
        Change::Table(table) => {
            let grown = store.insert(table)?;
            store.replace(on, grown);
            Ok(())
        }
    }
}

// Ends an object, if there is one to end.
fn end(store: &mut Store, ends: Option<ObjId>)
    requires { IfSome ends (λ id. IsSome (tables store.old id.0)) }
    ensures ok { Turns store.old store.new (ended ends) }
    ensures held { Raises 0 store.old store.new }
    ensures blocks { KeepBlocks None store.old store.new }
{
    if let Some(id) = ends {
        store.drop_object(id);
    }
}

/// Carries a setting out, with which an object ends, if there is one. `NoMemory` leaves all
/// objects as they were.
pub(crate) fn carry_out(
    alloc: Global,
    store: &mut Store,
    on: ObjId,
    setting: Setting,
    ends: Option<ObjId>,
) -> Result<(), NoMemory>
    requires live { IsSome (tables store.old on.0) }
    requires whole { IsWhole (table_at (tables store.old) on.0) }
    requires setting { IsSettingOf (tables store.old) ends
        (table_at (tables store.old) on.0) setting }
    requires ends { IfSome ends (MayEnd (tables store.old) on) }
    ensures ok { OnOk result (Turns store.old store.new (λ live. with_object (ended ends live) on.0
        (Some (table_after live (table_at live on.0) setting)))) }
    ensures err { OnErr result (Stays store.old store.new) }
    ensures held { Raises (charged (cells_after (table_at (tables store.old) on.0) setting) result)
        store.old store.new }
    ensures blocks { KeepBlocks (changing on.0 result) store.old store.new }
    ensures sole { OnOk result (LeavesBlocksAfter store.old store.new on setting) }
{
    match setting {
        Setting::Change(change) => {
            carry_change(alloc, store, on, change)?;
            end(store, ends);
            Ok(())
        }
        Setting::Move {
            place,
            label,
            series,
        } => store.move_column(on, place, Some(label), series),
    }
}
