// Labels of one level, and axes of several.
ghost use Rattle.std.specs.Prelude.{◌≡◌, length, IfOk};

use cell_core::{Label, NoMemory, Places, TextDict, Tuple, Tuples};
use index_core::Index;
use multi_index::{Axis, AxisFault, Levels};
use std::alloc::Global;

#[test]
fn an_index_is_a_range(rt: HostRuntime) -> Result<(), NoMemory> {
    let range = Index::range(rt.alloc(), 3)?;
    assert!(rt; range.len() == 3);
    assert!(rt; range.label(0) == Label::Int(0) && range.label(2) == Label::Int(2));
    Ok(())
}

#[test]
fn an_index_is_a_list(rt: HostRuntime) -> Result<(), NoMemory> {
    let labels = [Label::Int(7), Label::Na, Label::Int(7)];
    let list = Index::from_labels(rt.alloc(), &labels)?;
    assert!(rt; list.len() == 3);
    assert!(rt; list.label(1) == Label::Na && list.label(2) == Label::Int(7));
    Ok(())
}

// Two rows of two levels.
fn pairs(alloc: Global) -> Result<Axis, NoMemory>
    ensures rows { IfOk result (λ axis. length axis.tuples ≡ 2) }
    ensures levels { IfOk result (λ axis. length axis.names ≡ 2) }
{
    let dict = TextDict::new(alloc);
    let mut tuples = Tuples::new(alloc);
    tuples.push(Tuple::of(alloc, &[Label::Int(1), Label::Na]))?;
    tuples.push(Tuple::of(alloc, &[Label::Int(2), Label::Bool(true)]))?;
    Axis::from_tuples(alloc, &dict, &tuples, 2)
}

// The label of the second of two rows at a level; NA where there are other rows, or no such level.
fn second_label(axis: &Axis, level: usize) -> Label {
    if axis.len() == 2 && level < axis.levels() {
        axis.label(1, level)
    } else {
        Label::Na
    }
}

// Whether there are three levels, the new one and the first of two at these places.
fn has_three(added: Result<Axis, AxisFault>, new: usize, old: usize) -> bool {
    match added {
        Ok(axis) => {
            axis.levels() == 3
                && second_label(&axis, new) == Label::Int(8)
                && second_label(&axis, old) == Label::Int(2)
        }
        Err(_) => false,
    }
}

#[test]
fn a_level_is_added_first_or_last(rt: HostRuntime) -> Result<(), NoMemory> {
    let dict = TextDict::new(rt.alloc());
    let axis = pairs(rt.alloc())?;
    let labels = [Label::Int(7), Label::Int(8)];
    assert!(rt; has_three(axis.add_level(rt.alloc(), &dict, &labels, true), 0, 1));
    assert!(rt; has_three(axis.add_level(rt.alloc(), &dict, &labels, false), 2, 0));
    Ok(())
}

// A row of four levels, the most that there are.
fn quadruple(alloc: Global) -> Result<Axis, NoMemory>
    ensures { IfOk result (λ axis. length axis.tuples ≡ 1) }
{
    let dict = TextDict::new(alloc);
    let mut tuples = Tuples::new(alloc);
    let labels = [Label::Int(1), Label::Int(2), Label::Int(3), Label::Int(4)];
    tuples.push(Tuple::of(alloc, &labels))?;
    Axis::from_tuples(alloc, &dict, &tuples, 4)
}

#[test]
fn a_fifth_level_is_refused(rt: HostRuntime) -> Result<(), NoMemory> {
    let dict = TextDict::new(rt.alloc());
    let axis = quadruple(rt.alloc())?;
    let refused = axis.add_level(rt.alloc(), &dict, &[Label::Int(5)], true);
    assert!(rt; matches!(refused, Err(AxisFault::TooManyLevels)));
    Ok(())
}

// The second of two rows of two levels, whose inner one has a name.
fn second_row(alloc: Global) -> Result<Axis, NoMemory> {
    let mut axis = pairs(alloc)?;
    axis.set_name(1, Some(Label::Int(9)));
    let mut places = Places::new(alloc);
    places.push(1)?;
    axis.take(alloc, &places)
}

#[test]
fn rows_are_taken_with_their_names(rt: HostRuntime) -> Result<(), NoMemory> {
    let taken = second_row(rt.alloc())?;
    let is_second = taken.len() == 1
        && taken.levels() == 2
        && taken.label(0, 1) == Label::Bool(true)
        && taken.name(1) == Some(Label::Int(9));
    assert!(rt; is_second);
    Ok(())
}

// The middle one of three rows of two levels, whose labels are texts and whole numbers.
fn middle_row(alloc: Global, dict: &TextDict, a: Label, b: Label) -> Result<Axis, NoMemory> {
    let mut tuples = Tuples::new(alloc);
    tuples.push(Tuple::of(alloc, &[b, Label::Int(2)]))?;
    tuples.push(Tuple::of(alloc, &[a, Label::Int(1)]))?;
    tuples.push(Tuple::of(alloc, &[b, Label::Int(1)]))?;
    let axis = Axis::from_tuples(alloc, dict, &tuples, 2)?;
    let mut places = Places::new(alloc);
    places.push(1)?;
    axis.take(alloc, &places)
}

// Whether one row of two levels has the first label of each, and the first level has this one as its second.
fn is_first_of_two(levels: &Levels, second: Label) -> bool {
    levels.count() == 2
        && levels.len() == 1
        && levels.level_size(0) == 2
        && levels.level_label(0, 1) == second
        && levels.code(0, 0) == Some(0)
        && levels.code(0, 1) == Some(0)
}

#[test]
fn a_level_keeps_labels_that_no_row_has(rt: HostRuntime) -> Result<(), NoMemory> {
    let mut dict = TextDict::new(rt.alloc());
    let b = Label::Text(dict.intern("b")?);
    let a = Label::Text(dict.intern("a")?);
    let taken = middle_row(rt.alloc(), &dict, a, b)?;
    assert!(rt; is_first_of_two(taken.by_level(), b));
    Ok(())
}
