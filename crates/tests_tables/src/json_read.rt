// What JSON reads as: the examples of pandas' documentation, and the edges of RFC 8259.
use crate::columns::has_cells;
use cell_core::{Cell, Label, NoMemory, TextDict, Tuples};
use json_frames::{JsonFault, JsonTable, Orient, json_table};
use std::alloc::Global;

fn has_labels(tuples: &Tuples, wanted: &[Label]) -> bool {
    if tuples.len() != wanted.len() {
        return false;
    }
    for i in 0..wanted.len() {
        let tuple = tuples.at(i);
        if tuple.len() != 1 || tuple.at(0) != wanted[i] {
            return false;
        }
    }
    true
}

fn has_columns(table: &JsonTable, wanted: &[&[Cell]]) -> bool {
    if table.columns.len() != wanted.len() {
        return false;
    }
    for i in 0..wanted.len() {
        if !has_cells(table.columns.at(i).as_ref(), wanted[i]) {
            return false;
        }
    }
    true
}

// Whether a file reads as columns of these cells, under these labels of columns and of rows.
fn reads(
    alloc: Global,
    dict: &mut TextDict,
    file: &str,
    orient: Orient,
    labels: &[Label],
    rows: &[Label],
    columns: &[&[Cell]],
) -> bool {
    match json_table(alloc, dict, file.as_bytes(), orient) {
        Ok(table) => {
            has_labels(&table.labels, labels)
                && has_labels(&table.rows, rows)
                && has_columns(&table, columns)
        }
        Err(_) => false,
    }
}

// Whether a record of one value under a key reads as this cell.
fn reads_cell(
    alloc: Global,
    dict: &mut TextDict,
    file: &str,
    cell: Cell,
) -> Result<bool, NoMemory> {
    let key = Label::Text(dict.intern("a")?);
    Ok(reads(
        alloc,
        dict,
        file,
        Orient::Records,
        &[key],
        &[Label::Int(0)],
        &[&[cell]],
    ))
}

// Whether a file is refused with this fault, and no text is given a number.
fn refuses(alloc: Global, file: &[u8], orient: Orient, fault: JsonFault) -> bool {
    let mut dict = TextDict::new(alloc);
    match json_table(alloc, &mut dict, file, orient) {
        Ok(_) => false,
        Err(found) => found == fault && dict.len() == 0,
    }
}

#[test]
fn reads_records_with_all_their_keys(rt: HostRuntime) -> Result<(), NoMemory> {
    let mut dict = TextDict::new(rt.alloc());
    let a = Label::Text(dict.intern("a")?);
    let b = Label::Text(dict.intern("b")?);
    let c = Label::Text(dict.intern("c")?);
    let z = Cell::Text(dict.intern("z")?);
    let two_rows: &[Label] = &[Label::Int(0), Label::Int(1)];
    let file = "[{\"b\":2,\"a\":true},{\"a\":null,\"c\":\"z\"}]";
    let columns: &[&[Cell]] = &[
        &[Cell::Bool(true), Cell::Na],
        &[Cell::Int(2), Cell::Na],
        &[Cell::Na, z],
    ];
    assert!(rt;
        reads(
            rt.alloc(),
            &mut dict,
            file,
            Orient::Records,
            &[a, b, c],
            two_rows,
            columns
        )
    );
    // A row without a key has no cell of the row before.
    let file = " [\t{ \"a\" : 7 },\r\n{ } ] ";
    let columns: &[&[Cell]] = &[&[Cell::Int(7), Cell::Na]];
    assert!(rt;
        reads(
            rt.alloc(),
            &mut dict,
            file,
            Orient::Records,
            &[a],
            two_rows,
            columns
        )
    );
    let file = "[{},{}]";
    assert!(rt;
        reads(
            rt.alloc(),
            &mut dict,
            file,
            Orient::Records,
            &[],
            two_rows,
            &[]
        )
    );
    assert!(rt; reads(rt.alloc(), &mut dict, "[]", Orient::Records, &[], &[], &[]));
    Ok(())
}

#[test]
fn reads_labels_with_rows(rt: HostRuntime) -> Result<(), NoMemory> {
    let mut dict = TextDict::new(rt.alloc());
    let heads: &[Label] = &[
        Label::Text(dict.intern("col 1")?),
        Label::Text(dict.intern("col 2")?),
    ];
    let rows: &[Label] = &[
        Label::Text(dict.intern("row 1")?),
        Label::Text(dict.intern("row 2")?),
    ];
    let a = Cell::Text(dict.intern("a")?);
    let b = Cell::Text(dict.intern("b")?);
    let c = Cell::Text(dict.intern("c")?);
    let d = Cell::Text(dict.intern("d")?);
    let file =
        "{\"columns\":[\"col 1\",\"col 2\"],\"index\":[\"row 1\",\"row 2\"],\"data\":[[\"a\",\"b\"],[\"c\",\"d\"]]}";
    let columns: &[&[Cell]] = &[&[a, c], &[b, d]];
    assert!(rt;
        reads(
            rt.alloc(),
            &mut dict,
            file,
            Orient::Split,
            heads,
            rows,
            columns
        )
    );
    // Labels of each kind, which may be equal, and the keys in another order.
    let file = "{\"data\":[[1,null],[null,true]],\"index\":[null,-5],\"columns\":[true,true]}";
    let heads: &[Label] = &[Label::Bool(true), Label::Bool(true)];
    let rows: &[Label] = &[Label::Na, Label::Int(-5)];
    let columns: &[&[Cell]] = &[&[Cell::Int(1), Cell::Na], &[Cell::Na, Cell::Bool(true)]];
    assert!(rt;
        reads(
            rt.alloc(),
            &mut dict,
            file,
            Orient::Split,
            heads,
            rows,
            columns
        )
    );
    let file = "{\"columns\":[],\"index\":[3],\"data\":[[]]}";
    assert!(rt;
        reads(
            rt.alloc(),
            &mut dict,
            file,
            Orient::Split,
            &[],
            &[Label::Int(3)],
            &[]
        )
    );
    Ok(())
}

#[test]
fn reads_numbers_texts_and_repeated_keys(rt: HostRuntime) -> Result<(), NoMemory> {
    let mut dict = TextDict::new(rt.alloc());
    let file = "[{\"a\":9223372036854775807}]";
    assert!(rt; reads_cell(rt.alloc(), &mut dict, file, Cell::Int(i64::MAX))?);
    let file = "[{\"a\":-9223372036854775808}]";
    assert!(rt; reads_cell(rt.alloc(), &mut dict, file, Cell::Int(i64::MIN))?);
    // Of equal keys the last counts, also with a value of another kind.
    let file = "[{\"a\":\"x\",\"\\u0061\":2}]";
    assert!(rt; reads_cell(rt.alloc(), &mut dict, file, Cell::Int(2))?);
    let clef = Cell::Text(dict.intern("\u{1d11e}")?);
    let file = "[{\"a\":\"\\uD834\\uDD1E\"}]";
    assert!(rt; reads_cell(rt.alloc(), &mut dict, file, clef)?);
    let escaped = Cell::Text(dict.intern("/\u{0}\u{8}\\")?);
    let file = "[{\"a\":\"\\/\\u0000\\b\\u005C\"}]";
    assert!(rt; reads_cell(rt.alloc(), &mut dict, file, escaped)?);
    Ok(())
}

#[test]
fn refuses_what_is_no_json(rt: HostRuntime) -> Result<(), NoMemory> {
    let files: &[&[u8]] = &[
        b"",
        b"[",
        b"[1,]",
        b"[] 1",
        b"[{\"a\":01}]",
        b"[{\"a\":1.}]",
        b"[{\"a\":+1}]",
        b"[{\"a\":1e999}]",
        b"[{\"a\":NaN}]",
        b"[{\"a\":\"\\uD834\"}]",
        b"[{\"a\":\"\\uDD1E\\uD834\"}]",
        b"[{\"a\":\"\t\"}]",
        b"\xEF\xBB\xBF[]",
    ];
    for file in files {
        assert!(rt; refuses(rt.alloc(), file, Orient::Records, JsonFault::NotJson));
    }
    let place = JsonFault::NotUtf8(7);
    assert!(rt;
        refuses(
            rt.alloc(),
            b"[{\"a\":\"\xED\xA0\xB4\"}]",
            Orient::Records,
            place
        )
    );
    assert!(rt; refuses(rt.alloc(), b"[1.5, \"\xFF", Orient::Split, place));
    Ok(())
}

#[test]
fn refuses_what_is_no_table(rt: HostRuntime) -> Result<(), NoMemory> {
    let files: &[&[u8]] = &[
        b"[1.5]",
        b"{\"a\":1}",
        b"[{\"a\":1.5}]",
        b"[{\"a\":1e2}]",
        b"[{\"a\":-0}]",
        b"[{\"a\":9223372036854775808}]",
        b"[{\"a\":18446744073709551616}]",
        b"[{\"a\":-9223372036854775809}]",
        b"[{\"a\":[]}]",
        b"[{\"a\":1},{\"a\":\"x\"},{\"a\":1.5}]",
    ];
    for file in files {
        assert!(rt; refuses(rt.alloc(), file, Orient::Records, JsonFault::NotTable));
    }
    let files: &[&[u8]] = &[
        b"[]",
        b"{\"columns\":[1],\"index\":[]}",
        b"{\"columns\":[1],\"index\":[],\"data\":[],\"name\":1}",
        b"{\"columns\":[1],\"index\":[],\"datum\":[]}",
        b"{\"columns\":[1],\"index\":[0],\"data\":[]}",
        b"{\"columns\":[1],\"index\":[0],\"data\":[[1,2]]}",
        b"{\"columns\":[1],\"index\":[0],\"data\":[[0.5]]}",
        b"{\"columns\":[1.5],\"index\":[],\"data\":[]}",
        b"{\"columns\":[1],\"index\":[[0]],\"data\":[[1]]}",
        b"{\"columns\":[1],\"index\":[0],\"data\":[{\"0\":1}]}",
    ];
    for file in files {
        assert!(rt; refuses(rt.alloc(), file, Orient::Split, JsonFault::NotTable));
    }
    let mixed = JsonFault::MixedKinds;
    assert!(rt;
        refuses(
            rt.alloc(),
            b"[{\"a\":1},{},{\"a\":\"x\"}]",
            Orient::Records,
            mixed
        )
    );
    let split = b"{\"columns\":[\"a\"],\"index\":[0,0],\"data\":[[true],[1]]}";
    assert!(rt; refuses(rt.alloc(), split, Orient::Split, mixed));
    Ok(())
}
