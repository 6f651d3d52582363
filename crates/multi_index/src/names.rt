// The names of some levels of an axis.
ghost use Rattle.std.specs.Prelude.{◌≡◌, ◌+◌, ◌<◌, ◌≤◌, length, map, take, slice_index_or, None, IfOk, All};
ghost use Rattle.std.specs.List.{range_with_len};
ghost use Rattle.multi_index.specs.Axes.{with_one, first_of};

use crate::axis::Axis;
use cell_core::{Label, NoMemory};
use std::alloc::Global;

// All levels, in order.
#[tactic(auto, using(crate::proofs::LevelLaws::one_level_more))]
pub(crate) fn all_levels(alloc: Global, levels: usize) -> Result<Vec<usize>, NoMemory>
    ensures { IfOk result (λ order. order.items ≡ range_with_len 0 levels) }
{
    let mut order = Vec::new(alloc);
    for level in 0..levels {
        order.push(level)?;
    }
    Ok(order)
}

// The names of these levels, in their order, and none behind them.
#[tactic(auto, using(std::proofs::lemmas::List::take_all))]
pub(crate) fn names_of(axis: &Axis, order: &[usize]) -> [Option<Label>; 4]
    requires few { length order.now ≤ 4 }
    requires inside { All (λ level. level < length axis.now.names) order.now }
    ensures room { length result ≡ 4 }
    ensures names { take (length order.now) result
        ≡ map (λ level. slice_index_or axis.now.names level None) order.now }
{
    let mut names = [None; 4];
    for k in 0..order.len() {
        names[k] = axis.name(order[k]);
    }
    names
}

// The place of the old first level behind the new one, or before it.
fn first_place(outer: bool) -> usize
    ensures { result ≡ first_of outer }
{
    if outer { 1 } else { 0 }
}

// The names with none more, first or last.
pub(crate) fn names_with(axis: &Axis, outer: bool) -> [Option<Label>; 4]
    requires { length axis.now.names < 4 }
    ensures room { length result ≡ 4 }
    ensures names { take (length axis.now.names + 1) result ≡ with_one outer None axis.now.names }
{
    let mut names = [None; 4];
    let first = first_place(outer);
    for level in 0..axis.levels() {
        names[first + level] = axis.name(level);
    }
    names
}
