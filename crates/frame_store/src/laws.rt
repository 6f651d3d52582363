// A law of the definition that settings rest on. The function does nothing.
ghost use Rattle.std.specs.Prelude.{◌≡◌, ◌*◌, ◌<◌, ℕ, List, All, length};
ghost use Rattle.meaning_tables.specs.cells.Cell.{CellValue};
ghost use Rattle.meaning_tables.specs.Table.{Table as OneTable};
ghost use Rattle.meaning_tables.specs.Change.{with_values};
ghost use Rattle.meaning_tables.specs.Valid.{IsWhole};
ghost use Rattle.frame_store.specs.Setting.{AreSet};

/// What setting cells is, for every table whose parts fit, with its texts, for rows and columns of it, and a value for
/// each of these rows in each of these columns: each cell is the last value that is given for it, and else what it was.
/// The values stand row by row, and no kind and no number of cells changes.
pub fn last_value_stays()
    ensures { (t : OneTable) (rows columns : List ℕ) (values : List CellValue) → IsWhole t
        → All (λ row. row < length t.labels) rows
        → All (λ column. column < length t.columns) columns
        → length values ≡ length rows * length columns
        → AreSet rows columns values t.columns (with_values t rows columns values).columns }
{}
