// What labels a header gives.
ghost use Rattle.std.specs.Prelude.{◌<◌, ◌^◌, List, length};
ghost use Rattle.column_core.specs.cells.Text.{Text};
ghost use Rattle.meaning_csv.specs.CsvRead.{different_labels};
ghost use Rattle.csv_frames.specs.Numbered.{AreNumbered};

/// What the labels of columns are, for every header of less than 2^64 labels; the words of its clause
/// stand in `specs/Numbered.antt`. It does nothing.
///
/// A label of the header stays where it stands for the first time. Where it stands again it gets a dot
/// and the least number from 1 that gives neither a label of the header nor that of a column before.
/// So no two columns have one label.
pub fn labels_are_numbered()
    ensures { (ls : List Text) → length ls < 2 ^ 64 → AreNumbered ls (different_labels ls) }
{}
