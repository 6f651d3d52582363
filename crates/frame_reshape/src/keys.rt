// The labels of an axis as keys of rows.
ghost use Rattle.std.specs.Prelude.{◌≡◌, ◌<◌, [], length, slice_index_or};
ghost use Rattle.reshape.specs.row_keys.Keys.{label_in};
ghost use Rattle.frame_reshape.specs.Keys.{level_keys};

use cell_core::Label;
use factorize::KeyLevels;
use multi_index::Axis;

// The labels of all levels.
#[derive(Drop)]
pub(crate) struct AxisKeys<'a> {
    pub(crate) axis: &'a Axis,
}

impl KeyLevels for AxisKeys<'_> {
    ghost keys = { λ k. k.axis.now.tuples };

    fn count(&self) -> usize {
        self.axis.len()
    }

    fn levels(&self) -> usize {
        self.axis.levels()
    }

    fn label(&self, row: usize, level: usize) -> Label {
        axis_label(self.axis, row, level)
    }
}

// The labels of one level.
#[derive(Drop)]
pub(crate) struct LevelKeys<'a> {
    pub(crate) axis: &'a Axis,
    pub(crate) level: usize,
    ghost there: { level < length axis.now.names },
}

impl KeyLevels for LevelKeys<'_> {
    ghost keys = { λ k. level_keys k.axis.now k.level };

    fn count(&self) -> usize {
        self.axis.len()
    }

    fn levels(&self) -> usize {
        1
    }

    fn label(&self, row: usize, level: usize) -> Label {
        if level > 0 {
            return Label::Na;
        }
        axis_label(self.axis, row, self.level)
    }
}

// The label of a row at a level; NA where there is none.
#[tactic(auto, using(crate::proofs::LevelKeyLaws::axis_label))]
fn axis_label(axis: &Axis, row: usize, level: usize) -> Label
    ensures { result ≡ label_in level (slice_index_or axis.now.tuples row []) }
{
    if row < axis.len() && level < axis.levels() {
        axis.label(row, level)
    } else {
        Label::Na
    }
}
