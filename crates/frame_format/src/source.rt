// A table with its texts.
ghost use Rattle.std.specs.Prelude.{◌≡◌, ◌<◌, [], ℕ, length, slice_index_or, OnOk, string_bytes, is_some};
ghost use Rattle.meaning_format.specs.tables.Table.{column_at};
ghost use Rattle.meaning_format.specs.Told.{told, label_at, level_name, cell_at, heading_at};
ghost use Rattle.meaning_format.specs.Print.{shown_name, same_above};
ghost use Rattle.frame_format.specs.Styles.{cell_text, label_text, name_text, heading_text};

use crate::texts::{self, Style};
use cell_core::{Grid, Kind, NoMemory, TextDict};
use std::marker::Model;

/// A grid, and the texts of its labels and cells. A contract sees it as the whole table.
///
/// Each `write` puts the text of a part in the place of what stood in `text`.
#[derive(Drop)]
pub(crate) struct Source<'a, G: Grid> {
    dict: &'a TextDict,
    grid: &'a G,
}

impl<'a, G: Grid> Model for Source<'a, G> {
    ghost use Rattle.meaning_format.specs.tables.Table.{Table};
    ghost use Rattle.meaning_format.specs.Told.{told};

    ghost Value = { Table };

    ghost view = { λ s. told s.dict.now (G.table s.grid.now) };
}

impl<'a, G: Grid> Source<'a, G> {
    pub(crate) fn new(dict: &'a TextDict, grid: &'a G) -> Source<'a, G>
        ensures { result ≡ told dict.now (G.table grid.now) }
    {
        Source { dict, grid }
    }

    #[tactic(auto, using(crate::proofs::ToldLaws::rows_told))]
    pub(crate) fn rows(&self) -> usize
        ensures { result ≡ length self.now.labels }
    {
        self.grid.rows()
    }

    #[tactic(auto, using(crate::proofs::Hints::columns))]
    pub(crate) fn columns(&self) -> usize
        ensures count { result ≡ length self.now.columns }
        ensures headings { length self.now.headings ≡ length self.now.columns }
    {
        self.grid.columns()
    }

    #[tactic(auto, using(crate::proofs::Hints::levels))]
    pub(crate) fn levels(&self) -> usize
        ensures count { result ≡ length self.now.level_names }
        ensures tuples { (row : ℕ) → row < length self.now.labels →
            length (slice_index_or self.now.labels row []) ≡ length self.now.level_names }
    {
        self.grid.levels()
    }

    #[tactic(auto, using(crate::proofs::Hints::kind))]
    pub(crate) fn kind(&self, column: usize) -> Kind
        requires { column < length self.now.columns }
        ensures { result ≡ (column_at self.now.columns column).kind }
    {
        self.grid.kind(column)
    }

    #[tactic(auto, using(crate::proofs::Hints::has_level_name))]
    pub(crate) fn has_level_name(&self, level: usize) -> bool
        requires { level < length self.now.level_names }
        ensures { result ≡ is_some (level_name self.now level) }
    {
        self.grid.level_name(level).is_some()
    }

    #[tactic(auto, using(crate::proofs::Hints::has_heading))]
    pub(crate) fn has_heading(&self, column: usize) -> bool
        requires { column < length self.now.columns }
        ensures { result ≡ is_some (heading_at self.now column) }
    {
        self.grid.heading(column).is_some()
    }

    /// Whether a row's label at a level is that of the row above.
    #[tactic(auto, using(crate::proofs::Hints::same_above))]
    pub(crate) fn same_above(&self, row: usize, level: usize) -> bool
        requires row { row < length self.now.labels }
        requires level { level < length self.now.level_names }
        ensures { result ≡ same_above self.now row level }
    {
        if row == 0 {
            return false;
        }
        let above = self.grid.label(row - 1, level);
        let label = self.grid.label(row, level);
        texts::same_label(self.dict, above, label)
    }

    #[tactic(auto, using(crate::proofs::Hints::write_label))]
    pub(crate) fn write_label(
        &self,
        text: &mut String,
        style: Style,
        row: usize,
        level: usize,
    ) -> Result<(), NoMemory>
        requires row { row < length self.now.labels }
        requires level { level < length self.now.level_names }
        ensures { OnOk result (string_bytes text.new
            ≡ label_text style (label_at self.now row level)) }
    {
        texts::write_label(text, self.dict, style, self.grid.label(row, level))
    }

    #[tactic(auto, using(crate::proofs::Hints::write_cell))]
    pub(crate) fn write_cell(
        &self,
        text: &mut String,
        style: Style,
        row: usize,
        column: usize,
    ) -> Result<(), NoMemory>
        requires row { row < length self.now.labels }
        requires column { column < length self.now.columns }
        ensures { OnOk result (string_bytes text.new ≡ cell_text style (cell_at self.now row column)) }
    {
        texts::write_cell(text, self.dict, style, self.grid.cell(row, column))
    }

    #[tactic(auto, using(crate::proofs::ToldLaws::level_within))]
    pub(crate) fn write_level_name(
        &self,
        text: &mut String,
        style: Style,
        level: usize,
    ) -> Result<(), NoMemory>
        requires { level < length self.now.level_names }
        ensures { OnOk result (string_bytes text.new ≡ name_text style (level_name self.now level)) }
    {
        texts::write_name(text, self.dict, style, self.grid.level_name(level))
    }

    #[tactic(auto, using(crate::proofs::ToldLaws::column_within))]
    pub(crate) fn write_heading(
        &self,
        text: &mut String,
        style: Style,
        column: usize,
    ) -> Result<(), NoMemory>
        requires { column < length self.now.columns }
        ensures { OnOk result (string_bytes text.new ≡ heading_text style (heading_at self.now column)) }
    {
        texts::write_heading(text, self.dict, style, self.grid.heading(column))
    }

    /// The name of the columns, as in a printed table.
    pub(crate) fn write_columns_name(&self, text: &mut String) -> Result<(), NoMemory>
        ensures { OnOk result (string_bytes text.new ≡ shown_name self.now.columns_name) }
    {
        texts::write_name(text, self.dict, Style::Printed, self.grid.columns_name())
    }
}
