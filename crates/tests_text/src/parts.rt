// Lists of arguments, from whose ends parts are taken again.
use cell_core::{NoMemory, Words};
use script_tree::{Arg, ArgList, ArgPairs, Args, Literal};
use std::alloc::Global;

// Whether an argument that is put into a list is the last that it gives.
fn list_gives_back(alloc: Global) -> Result<bool, NoMemory> {
    let mut list = ArgList::new(alloc);
    list.push(Arg::Nothing)?;
    Ok(matches!(list.pop(), Some(Arg::Nothing)) && list.pop().is_none())
}

fn pairs_give_back(alloc: Global) -> Result<bool, NoMemory> {
    let mut pairs = ArgPairs::new(alloc);
    pairs.push(Literal::Na, Arg::Nothing)?;
    Ok(matches!(pairs.pop(), Some((Literal::Na, Arg::Nothing))) && pairs.pop().is_none())
}

fn arguments_give_back(alloc: Global) -> Result<bool, NoMemory> {
    let mut args = Args::new(alloc);
    let name = Words::from_text(alloc, "axis")?;
    args.push(Some(name), Arg::Nothing)?;
    Ok(matches!(args.pop(), Some((Some(_), Arg::Nothing))) && args.pop().is_none())
}

#[test]
fn the_last_part_is_taken(rt: HostRuntime) {
    assert!(rt; list_gives_back(rt.alloc()) == Ok(true));
    assert!(rt; pairs_give_back(rt.alloc()) == Ok(true));
    assert!(rt; arguments_give_back(rt.alloc()) == Ok(true));
}
