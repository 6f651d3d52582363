// Rows with a label at each level of their keys.
ghost use Rattle.std.specs.Prelude.{◌≡◌, ◌<◌, ◌≤◌, [], ◌∷◌, length, slice_index_or, All};
ghost use Rattle.multi_index.specs.Axes.{HaveLevels};
ghost use Rattle.row_keys.specs.Keys.{label_in};
ghost use Rattle.factorize.specs.Keys.{levels_of};

use cell_core::{Label, Tuples};
use column_core::ColRef;

/// A key for each row: a label at each level.
pub trait KeyLevels {
    ghost use Rattle.std.specs.Prelude.{List};
    ghost use Rattle.cell_core.specs.declared.cell.Label.{Label};

    ghost keys: { Self → List (List Label) };

    /// How many rows there are. Takes no memory.
    fn count(&self) -> usize
        ensures { result ≡ length (keys self.now) };

    /// How many levels each key has, one at least. Takes no memory.
    fn levels(&self) -> usize
        ensures some { 1 ≤ result }
        ensures alike { HaveLevels result (keys self.now) };

    /// The label of a row at a level, both counted from 0; NA where there is none. Takes no memory.
    fn label(&self, row: usize, level: usize) -> Label
        ensures { result ≡ label_in level (slice_index_or (keys self.now) row []) };
}

/// Tuples of one length as keys.
#[derive(Drop)]
pub struct KeyTuples<'a> {
    tuples: &'a Tuples,
    ghost alike: { HaveLevels (levels_of tuples.now) tuples.now },
}

impl<'a> KeyTuples<'a> {
    /// These tuples, which have one length. Takes no memory.
    pub fn of(tuples: &'a Tuples) -> KeyTuples<'a>
        requires { HaveLevels (levels_of tuples.now) tuples.now }
        ensures { result.tuples.now ≡ tuples.now }
    {
        KeyTuples { tuples }
    }
}

impl KeyLevels for KeyTuples<'_> {
    ghost keys = { λ rows. rows.tuples.now };

    fn count(&self) -> usize {
        self.tuples.len()
    }

    fn levels(&self) -> usize {
        first_length(self.tuples)
    }

    fn label(&self, row: usize, level: usize) -> Label {
        tuple_label(self.tuples, row, level)
    }
}

// How many labels the first tuple has, and one where there is none.
fn first_length(tuples: &Tuples) -> usize
    ensures some { 1 ≤ result }
    ensures levels { result ≡ levels_of tuples.now }
{
    if tuples.len() == 0 {
        1
    } else {
        tuples.at(0).len()
    }
}

// The label of a tuple at a level; NA where there is none.
#[tactic(auto, using(crate::proofs::Hints::tuple_label))]
fn tuple_label(tuples: &Tuples, row: usize, level: usize) -> Label
    ensures { result ≡ label_in level (slice_index_or tuples.now row []) }
{
    if row >= tuples.len() {
        return Label::Na;
    }
    let tuple = tuples.at(row);
    if level < tuple.len() {
        tuple.at(level)
    } else {
        Label::Na
    }
}

/// The cells of columns as keys: row by row the cell of each column.
#[derive(Drop)]
pub struct KeyColumns<'a, 'b> {
    columns: &'a [ColRef<'b>],
    count: usize,
    ghost some: { 1 ≤ length columns.now },
    ghost alike: { All (λ column. length column.cells ≡ count) columns.now },
}

impl<'a, 'b> KeyColumns<'a, 'b> {
    /// These columns, one at least, each of so many cells. Takes no memory.
    pub fn of(columns: &'a [ColRef<'b>], count: usize) -> KeyColumns<'a, 'b>
        requires some { 1 ≤ length columns.now }
        requires alike { All (λ column. length column.cells ≡ count) columns.now }
        ensures columns { result.columns.now ≡ columns.now }
        ensures count { result.count ≡ count }
    {
        KeyColumns { columns, count }
    }
}

impl KeyLevels for KeyColumns<'_, '_> {
    ghost use Rattle.factorize.specs.Keys.{column_keys};

    ghost keys = { λ rows. column_keys rows.columns.now rows.count };

    fn count(&self) -> usize {
        self.count
    }

    fn levels(&self) -> usize {
        self.columns.len()
    }

    fn label(&self, row: usize, level: usize) -> Label {
        if row >= self.count {
            return Label::Na;
        }
        if level >= self.columns.len() {
            return Label::Na;
        }
        Label::from(self.columns[level].cell(row))
    }
}
