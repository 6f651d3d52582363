// Frames as JSON text.
ghost use Rattle.std.specs.Prelude.{◌≢◌};

use cell_core::{Cell, Grid, Kind, Label, NoMemory, Shape, TextDict};
use column_core::Column;
use frame_store::{Blocks, Headings, ObjId, ObjRef, Store};
use json_frames::{Orient, json_text};
use multi_index::Axis;
use std::alloc::Global;

// The numbers 1 and NA under one label, and the texts `x"` and `y` under another.
fn small_frame(
    alloc: Global,
    store: &mut Store,
    dict: &mut TextDict,
    first: Label,
    second: Label,
) -> Result<ObjId, NoMemory>
    requires { first ≢ second }
{
    let mut numbers = Column::new(alloc, Kind::Int64);
    numbers.push(Cell::Int(1))?;
    numbers.push(Cell::Na)?;
    let mut texts = Column::new(alloc, Kind::Text);
    texts.push(Cell::Text(dict.intern("x\"")?))?;
    texts.push(Cell::Text(dict.intern("y")?))?;
    let mut headings = Headings::new(alloc, None);
    headings.push(Some(first))?;
    headings.push(Some(second))?;
    let mut blocks = Blocks::new(alloc);
    blocks.push(numbers.into_block())?;
    blocks.push(texts.into_block())?;
    store.add(Shape::Frame, Axis::range(alloc, 2)?, headings, blocks)
}

fn writes(
    alloc: Global,
    dict: &TextDict,
    table: &ObjRef<'_>,
    orient: Orient,
    wanted: &str,
) -> bool {
    if table.shape() != Shape::Frame {
        return false;
    }
    match json_text(alloc, dict, table, orient) {
        Ok(written) => written.as_str() == wanted,
        Err(_) => false,
    }
}

#[test]
fn writes_records_and_labels_with_rows(rt: HostRuntime) -> Result<(), NoMemory> {
    let mut store = Store::new(rt.alloc());
    let mut dict = TextDict::new(rt.alloc());
    let first = Label::Text(dict.intern("b")?);
    let second = Label::Text(dict.intern("a")?);
    assert!(rt; first != second);
    let on = small_frame(rt.alloc(), &mut store, &mut dict, first, second)?;
    assert!(rt; store.contains(on));
    let table = store.read(on);
    let records = "[{\"b\":1,\"a\":\"x\\\"\"},{\"b\":null,\"a\":\"y\"}]";
    assert!(rt; writes(rt.alloc(), &dict, &table, Orient::Records, records));
    let split = "{\"columns\":[\"b\",\"a\"],\"index\":[0,1],\"data\":[[1,\"x\\\"\"],[null,\"y\"]]}";
    assert!(rt; writes(rt.alloc(), &dict, &table, Orient::Split, split));
    Ok(())
}
