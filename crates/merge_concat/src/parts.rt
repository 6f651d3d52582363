// Parts of a column.
ghost use Rattle.std.specs.Prelude.{◌≡◌, length};
ghost use Rattle.merge_concat.specs.Parts.{part_cells, whole_of};

use column_core::{Borrowed, ColRef};

/// A part of a column that is put together.
#[derive(Drop)]
pub enum Part<'a> {
    /// These cells.
    Cells(ColRef<'a>),
    /// So many missing ones.
    Missing(usize),
}

impl<'a> Part<'a> {
    // All cells of a column.
    pub(crate) fn of(column: &ColRef<'a>) -> Part<'a>
        ensures { result ≡ whole_of column.now }
    {
        let lanes = match &column.lanes {
            Borrowed::Ints(lane) => Borrowed::Ints(*lane),
            Borrowed::Truths(lane) => Borrowed::Truths(*lane),
            Borrowed::Texts(lane) => Borrowed::Texts(*lane),
        };
        Part::Cells(ColRef { lanes })
    }

    // How many cells there are.
    pub(crate) fn len(&self) -> usize
        ensures { result ≡ length (part_cells self.now) }
    {
        match self {
            Part::Cells(column) => column.len(),
            Part::Missing(count) => *count,
        }
    }
}
