// The axes of parts, and the axis of what is put together.
ghost use Rattle.std.specs.Prelude.{◌≡◌, ◌≤◌, ◌<◌, ◌^◌, ◌-◌, length, map, take, All, IfOk, MatchOption};
ghost use Rattle.frame_store.specs.tables.Settled.{IsSettled};
ghost use Rattle.frame_store.specs.Parts.{axis_of};
ghost use Rattle.frame_store.specs.Shown.{headings_value};
ghost use Rattle.frame_concat.specs.Parts.{parts_value, AreKnownParts};
ghost use Rattle.frame_concat.specs.Columns.{rows_in};
ghost use Rattle.frame_concat.specs.Axes.{levels_for, named_after, IsAlike};

use crate::asked::Asked;
use crate::names::name_of_all;
use crate::parts::{Naming, Part};
use cell_core::{Grid, NoMemory, TextDict};
use multi_index::Axis;
use std::alloc::Global;

// As many rows as a table may have.
const MOST_ROWS: usize = 1 << 26;

// The number of rows of all parts, if it isn't more than a table may have.
pub(crate) fn rows_in(parts: &[Part<'_>]) -> Option<usize>
    ensures { MatchOption result (2 ^ 26 < rows_in parts.now)
        (λ rows. (rows ≡ rows_in parts.now) × (rows ≤ 2 ^ 26)) }
{
    let mut count = 0usize;
    for part in parts {
        if MOST_ROWS - count < part.table().rows() {
            return None;
        }
        count += part.table().rows();
    }
    Some(count)
}

// The axis of each part.
pub(crate) fn axes_of<'a>(alloc: Global, parts: &'a [Part<'_>]) -> Result<Vec<&'a Axis>, NoMemory>
    ensures axes { IfOk result (λ axes. map (λ axis. axis.now) axes.items
        ≡ map axis_of parts.now) }
    ensures alike { IfOk result (λ axes. All IsAlike axes.items) }
{
    let mut axes = Vec::new(alloc);
    for part in parts {
        let axis = part.table().axis();
        // Each row has a label for each level: `Axis::levels` does.
        let _ = axis.levels();
        axes.push(axis)?;
    }
    Ok(axes)
}

// How many levels the rows have: one where they are numbered, and one more for the labels of parts.
pub(crate) fn levels_for(first: &Part<'_>, asked: &Asked) -> usize
    ensures count { result ≡ levels_for (length first.now.level_names) asked.now }
    ensures some { 1 ≤ result }
{
    if asked.renumbered {
        return 1;
    }
    let levels = first.table().axis().levels();
    match asked.keys {
        Some(_) => levels + 1,
        None => levels,
    }
}

// The names that all parts have for a level, put on the last levels of an axis.
pub(crate) fn named(dict: &TextDict, axis: Axis, parts: &[Part<'_>], levels: usize) -> Axis
    requires known { AreKnownParts dict.now parts.now }
    requires room { levels ≤ length axis.names }
    requires given { IsSettled headings_value dict.now
        (take (length axis.names - levels) axis.names) }
    ensures tuples { result.tuples ≡ axis.tuples }
    ensures names { headings_value dict.now result.names
        ≡ named_after (headings_value dict.now axis.names) levels
        (parts_value dict.now parts.now) }
    ensures given { IsSettled headings_value dict.now result.names }
{
    let mut axis = axis;
    let before = axis.levels() - levels;
    for level in 0..levels {
        axis.set_name(
            before + level,
            name_of_all(dict, parts, Naming::Level(level)),
        );
    }
    axis
}
