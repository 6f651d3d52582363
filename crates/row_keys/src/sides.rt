// Tuples of labels, read level by level.
ghost use Rattle.std.specs.Prelude.{◌≡◌, ◌<◌, [], ◌++◌, length, map, slice_get, slice_index_or, Some, OnOk};
ghost use Rattle.row_keys.specs.Keys.{label_in};

use cell_core::{Label, NoMemory, Tuple, Tuples};
use multi_index::Axis;
use std::alloc::Global;

/// A tuple of labels for each row.
pub trait LevelRows {
    ghost use Rattle.std.specs.Prelude.{List};
    ghost use Rattle.cell_core.specs.declared.cell.Label.{Label};

    ghost tuples: { Self → List (List Label) };

    /// How many rows there are. Takes no memory.
    fn count(&self) -> usize
        ensures { result ≡ length (tuples self.now) };

    /// Appends the labels of a level, counted from 0, row by row: NA where a tuple has no such level.
    /// `NoMemory` is the only refusal, and some of them may stand there then.
    fn push_level(&self, level: usize, labels: &mut Vec<Label>) -> Result<(), NoMemory>
        ensures { OnOk result (labels.new.items
            ≡ labels.old.items ++ map (label_in level) (tuples self.now)) };

    /// The tuple of a row, counted from 0. Takes no memory.
    fn tuple(&self, alloc: Global, row: usize) -> Tuple
        requires { row < length (tuples self.now) }
        ensures { slice_get (tuples self.now) row ≡ Some result };
}

impl LevelRows for Axis {
    ghost tuples = { λ axis. axis.tuples };

    fn count(&self) -> usize {
        self.len()
    }

    fn push_level(&self, level: usize, labels: &mut Vec<Label>) -> Result<(), NoMemory> {
        for row in 0..self.len() {
            labels.push(axis_label(self, row, level))?;
        }
        Ok(())
    }

    fn tuple(&self, alloc: Global, row: usize) -> Tuple {
        axis_tuple(alloc, self, row)
    }
}

impl LevelRows for Tuples {
    ghost tuples = { λ tuples. tuples };

    fn count(&self) -> usize {
        self.len()
    }

    fn push_level(&self, level: usize, labels: &mut Vec<Label>) -> Result<(), NoMemory> {
        for tuple in self.as_slice() {
            labels.push(tuple_label(tuple, level))?;
        }
        Ok(())
    }

    fn tuple(&self, _alloc: Global, row: usize) -> Tuple {
        self.at(row).copy()
    }
}

// The label of a level, counted from 0; NA where there is none.
fn tuple_label(tuple: &Tuple, level: usize) -> Label
    ensures { result ≡ label_in level tuple.now }
{
    if level < tuple.len() {
        tuple.at(level)
    } else {
        Label::Na
    }
}

// The label of a row at a level, counted from 0; NA where there is no such level.
fn axis_label(axis: &Axis, row: usize, level: usize) -> Label
    requires { row < length axis.now.tuples }
    ensures { result ≡ label_in level (slice_index_or axis.now.tuples row []) }
{
    if level < axis.levels() {
        axis.label(row, level)
    } else {
        Label::Na
    }
}

// The labels of a row.
fn axis_tuple(alloc: Global, axis: &Axis, row: usize) -> Tuple
    requires { row < length axis.now.tuples }
    ensures { slice_get axis.now.tuples row ≡ Some result }
{
    let mut labels = [Label::Na; 4];
    let levels = axis.levels();
    for level in 0..levels {
        labels[level] = axis.label(row, level);
    }
    Tuple::of(alloc, &labels[..levels])
}
