// Cells, labels, texts by number and lists.
use cell_core::{Cell, Cells, Kind, Label, NoMemory, Numbers, TextDict, Tuple, Words};
use std::alloc::Global;

fn each_has_one_number(dict: &mut TextDict) -> Result<bool, NoMemory> {
    let first = dict.intern("b")?;
    let second = dict.intern("\u{e9}")?;
    Ok(
        dict.intern("b")? == first
            && first != second
            && dict.len() == 2
            && dict.text(second) == "\u{e9}",
    )
}

fn last_are_dropped(dict: &mut TextDict) -> Result<bool, NoMemory> {
    let kept = dict.intern("a")?;
    let dropped = dict.intern("b")?;
    dict.truncate(1);
    Ok(dict.text(kept) == "a" && dict.text(dropped) == "" && dict.intern("c")? == dropped)
}

#[test]
fn each_text_has_one_number_until_it_is_dropped(rt: HostRuntime) {
    let mut dict = TextDict::new(rt.alloc());
    assert!(rt; each_has_one_number(&mut dict) == Ok(true));
    let mut other = TextDict::new(rt.alloc());
    assert!(rt; last_are_dropped(&mut other) == Ok(true));
}

#[test]
fn a_tuple_keeps_labels(rt: HostRuntime) {
    let labels = [Label::Int(1), Label::Na, Label::Bool(true), Label::Int(2)];
    let tuple = Tuple::of(rt.alloc(), &labels).copy();
    assert!(rt; tuple.len() == 4 && tuple.at(1) == Label::Na);
    assert!(rt; Kind::Int64.holds(Cell::Na));
}

fn keeps_cells(cells: &mut Cells) -> Result<bool, NoMemory> {
    cells.push(Cell::Int(-7))?;
    cells.push(Cell::Na)?;
    Ok(cells.len() == 2 && *cells.at(0) == Cell::Int(-7) && cells.pop() == Some(Cell::Na))
}

#[test]
fn a_list_keeps_cells(rt: HostRuntime) {
    let mut cells = Cells::new(rt.alloc());
    assert!(rt; keeps_cells(&mut cells) == Ok(true));
}

fn copies(alloc: Global, numbers: &mut Numbers) -> Result<bool, NoMemory> {
    numbers.push(3)?;
    let copied = numbers.copy(alloc)?;
    numbers.set(0, 5);
    Ok(*copied.at(0) == 3 && numbers.pop() == Some(5))
}

#[test]
fn copied_numbers_are_apart(rt: HostRuntime) {
    let mut numbers = Numbers::new(rt.alloc());
    assert!(rt; copies(rt.alloc(), &mut numbers) == Ok(true));
}

#[test]
fn words_grow(rt: HostRuntime) -> Result<(), NoMemory> {
    let mut words = Words::from_text(rt.alloc(), "a")?;
    words.push_str("bc")?;
    assert!(rt; words.as_str() == "abc");
    assert!(rt; Words::new(rt.alloc()).as_str() == "");
    Ok(())
}
