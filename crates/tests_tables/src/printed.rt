// Printed frames whose columns have a name together, which no script gives.
use cell_core::{Cell, Grid, Kind, Label, NoMemory, Shape, TextDict};
use column_core::Column;
use frame_format::frame_text;
use frame_store::{Blocks, Headings, ObjId, ObjRef, Store};
use multi_index::Axis;
use std::alloc::Global;

// A frame of the numbers 1 and 300, under the label 7.
fn named_frame(
    alloc: Global,
    store: &mut Store,
    columns: Label,
    level: Label,
) -> Result<ObjId, NoMemory> {
    let mut column = Column::new(alloc, Kind::Int64);
    column.push(Cell::Int(1))?;
    column.push(Cell::Int(300))?;
    let mut headings = Headings::new(alloc, Some(columns));
    headings.push(Some(Label::Int(7)))?;
    let mut blocks = Blocks::new(alloc);
    blocks.push(column.into_block())?;
    let mut axis = Axis::range(alloc, 2)?;
    axis.set_name(0, Some(level));
    store.add(Shape::Frame, axis, headings, blocks)
}

fn prints(alloc: Global, dict: &TextDict, table: &ObjRef<'_>, wanted: &str) -> bool {
    if table.shape() != Shape::Frame {
        return false;
    }
    match frame_text(alloc, dict, table) {
        Ok(printed) => printed.as_str() == wanted,
        Err(_) => false,
    }
}

#[test]
fn names_the_columns_above_the_labels(rt: HostRuntime) -> Result<(), NoMemory> {
    let mut store = Store::new(rt.alloc());
    let mut dict = TextDict::new(rt.alloc());
    let columns = Label::Text(dict.intern("日本")?);
    let level = Label::Text(dict.intern("k")?);
    let on = named_frame(rt.alloc(), &mut store, columns, level)?;
    assert!(rt; store.contains(on));
    let wanted = "日本    7\nk        \n0       1\n1     300";
    assert!(rt; prints(rt.alloc(), &dict, &store.read(on), wanted));
    Ok(())
}
