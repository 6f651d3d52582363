// Objects and their tables.
ghost use Rattle.std.specs.Prelude.{◌≡◌, ◌∷◌, [], None, Some, IsSome, IfOk};
ghost use Rattle.cell_core.specs.declared.cell.Kind.TheVariants.{Int64};
ghost use Rattle.cell_core.specs.declared.cell.Cell.TheVariants.{Int};
ghost use Rattle.frame_store.specs.Parts.{IsSingle, single_block, block_column};
ghost use Rattle.frame_store.specs.Objects.{tables, with_object};
ghost use Rattle.tests_tables.specs.Stored.{two_rows};

use cell_core::{Cell, Grid, Kind, Label, NoMemory, Shape};
use column_core::{Block, Column};
use frame_store::{Blocks, Headings, ObjId, ObjRef, Store};
use multi_index::Axis;
use std::alloc::Global;

pub(crate) fn numbers(alloc: Global, first: i64, second: i64) -> Result<Block, NoMemory>
    ensures { IfOk result (λ block. block ≡ single_block record { kind = Int64; cells = Int first ∷ Int second ∷ [] }) }
{
    let mut column = Column::new(alloc, Kind::Int64);
    column.push(Cell::Int(first))?;
    column.push(Cell::Int(second))?;
    Ok(column.into_block())
}

// A Series of two numbers without a name.
fn series(alloc: Global, store: &mut Store, block: Block) -> Result<ObjId, NoMemory>
    requires rows { block.rows ≡ 2 }
    requires single { IsSingle block }
    ensures live { IfOk result (λ id. IsSome (tables store.new id.0)) }
    ensures fresh { IfOk result (λ id. tables store.old id.0 ≡ None) }
    ensures added { IfOk result (λ id.
        tables store.new ≡ with_object (tables store.old) id.0 (Some (two_rows (block_column block)))) }
{
    let axis = Axis::range(alloc, 2)?;
    let mut headings = Headings::new(alloc, None);
    headings.push(None)?;
    let mut blocks = Blocks::new(alloc);
    blocks.push(block)?;
    store.add(Shape::Series, axis, headings, blocks)
}

// Whether the table is a Series of two rows, of which the second has this cell.
fn has_second(table: &ObjRef<'_>, cell: Cell) -> bool {
    table.shape() == Shape::Series
        && table.rows() == 2
        && table.columns() == 1
        && table.cell(1, 0) == cell
}

// Whether the table has no name, and its rows are counted.
fn is_plain(table: &ObjRef<'_>) -> bool {
    table.rows() == 2
        && table.columns() == 1
        && table.levels() == 1
        && table.heading(0) == None
        && table.label(1, 0) == Label::Int(1)
}

#[test]
fn an_object_is_read(rt: HostRuntime) -> Result<(), NoMemory> {
    let mut store = Store::new(rt.alloc());
    let on = series(rt.alloc(), &mut store, numbers(rt.alloc(), 3, 4)?)?;
    let table = store.read(on);
    assert!(rt; has_second(&table, Cell::Int(4)));
    assert!(rt; is_plain(&table));
    Ok(())
}

#[test]
fn the_cells_of_live_objects_are_held(rt: HostRuntime) -> Result<(), NoMemory> {
    let mut store = Store::new(rt.alloc());
    let on = series(rt.alloc(), &mut store, numbers(rt.alloc(), 3, 4)?)?;
    assert!(rt; store.held() == 2);
    store.drop_object(on);
    assert!(rt; store.held() == 0);
    Ok(())
}

#[test]
fn a_series_ends_where_its_column_moves(rt: HostRuntime) -> Result<(), NoMemory> {
    let mut store = Store::new(rt.alloc());
    let on = series(rt.alloc(), &mut store, numbers(rt.alloc(), 3, 4)?)?;
    let other = series(rt.alloc(), &mut store, numbers(rt.alloc(), 5, 6)?)?;
    store.move_column(on, 0, None, other)?;
    assert!(rt; !store.contains(other));
    assert!(rt; store.held() == 2);
    let table = store.read(on);
    assert!(rt; has_second(&table, Cell::Int(6)));
    Ok(())
}
