// A law of the definition that settings rest on. The function does nothing.
ghost use Rattle.std.specs.Prelude.{◌≡◌, ◌*◌, ℕ, List, length};
ghost use Rattle.std.specs.Bool.{Decides};
ghost use Rattle.column_core.specs.cells.Cell.{CellValue};
ghost use Rattle.frame_store.specs.tables.Table.{Table as OneTable};
ghost use Rattle.frame_select.specs.select.Set.{fit_from};
ghost use Rattle.frame_set.specs.Fits.{FitColumns};

/// Which values a setting of cells takes, for every table with its texts, rows and columns that are reached, and a value
/// for each of them, row by row: they fit exactly where each value is one that the column holds for whose cell it is given.
pub fn values_fit_columns()
    ensures { (t : OneTable) (rows columns : List ℕ) (values : List CellValue)
        → length values ≡ length rows * length columns
        → Decides (fit_from 0 t columns values) (FitColumns t rows columns values) }
{}
