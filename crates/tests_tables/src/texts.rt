// Methods of texts, with what Python's `str` answers.
use crate::columns::has_cells;
use cell_core::{Cell, Kind, NoMemory, TextDict};
use column_core::Column;
use std::alloc::Global;
use text_methods::{TextFault, TextOp, text_method};

// Whether the method makes this cell of the text, and keeps a missing one.
fn gives(
    alloc: Global,
    dict: &mut TextDict,
    text: &str,
    op: TextOp,
    wanted: Cell,
) -> Result<bool, NoMemory> {
    let mut column = Column::new(alloc, Kind::Text);
    column.push(Cell::Text(dict.intern(text)?))?;
    column.push(Cell::Na)?;
    match text_method(alloc, dict, column.as_ref(), op) {
        Ok(made) => Ok(has_cells(made.as_ref(), &[wanted, Cell::Na])),
        Err(TextFault::NoMemory) => Err(NoMemory),
        Err(_) => Ok(false),
    }
}

fn tests_parts(alloc: Global, dict: &mut TextDict) -> Result<bool, NoMemory> {
    let front = dict.intern("a.")?;
    let point = dict.intern(".")?;
    Ok(
        gives(alloc, dict, "a.b", TextOp::Starts(front), Cell::Bool(true))?
            && gives(alloc, dict, "a.b", TextOp::Ends(front), Cell::Bool(false))?
            && gives(
                alloc,
                dict,
                "a.b",
                TextOp::Contains(point),
                Cell::Bool(true),
            )?
            && gives(alloc, dict, "日本", TextOp::Len, Cell::Int(2))?,
    )
}

fn makes_texts(alloc: Global, dict: &mut TextDict) -> Result<bool, NoMemory> {
    let stripped = Cell::Text(dict.intern("ab")?);
    let turned = Cell::Text(dict.intern("本日")?);
    let filled = Cell::Text(dict.intern("-007")?);
    let back = TextOp::Slice(None, None, Some(-1));
    Ok(
        gives(alloc, dict, " \u{3000}ab\u{a0}", TextOp::Strip, stripped)?
            && gives(alloc, dict, "日本", back, turned)?
            && gives(alloc, dict, "-7", TextOp::Fill(4), filled)?,
    )
}

#[test]
fn methods_of_texts_answer_as_python_does(rt: HostRuntime) {
    let mut dict = TextDict::new(rt.alloc());
    assert!(rt; tests_parts(rt.alloc(), &mut dict) == Ok(true));
    assert!(rt; makes_texts(rt.alloc(), &mut dict) == Ok(true));
}
