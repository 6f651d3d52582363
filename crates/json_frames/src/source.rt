// A frame with its texts.
ghost use Rattle.std.specs.Prelude.{◌≡◌, ◌<◌, ◌++◌, ℕ, length, OnOk, IfOk, string_bytes};
ghost use Rattle.json.specs.Tree.{json_tokens};
ghost use Rattle.meaning_json.specs.format.Told.{told, label_at, cell_at, heading_at};
ghost use Rattle.meaning_json.specs.JsonWrite.{label_json, cell_json, key_text, heading_label};

use crate::labels::{heading_of, text_of_label};
use crate::output::Output;
use cell_core::{Grid, NoMemory, TextDict};
use std::alloc::Global;
use std::marker::Model;

/// A grid, and the texts of its labels and cells. A contract sees it as the whole table.
#[derive(Drop)]
pub(crate) struct Source<'a, G: Grid> {
    dict: &'a TextDict,
    grid: &'a G,
}

impl<'a, G: Grid> Model for Source<'a, G> {
    ghost use Rattle.meaning_json.specs.tables.Table.{Table};
    ghost use Rattle.meaning_json.specs.format.Told.{told};

    ghost Value = { Table };

    ghost view = { λ s. told s.dict.now (G.table s.grid.now) };
}

impl<'a, G: Grid> Source<'a, G> {
    pub(crate) fn new(dict: &'a TextDict, grid: &'a G) -> Source<'a, G>
        ensures { result ≡ told dict.now (G.table grid.now) }
    {
        Source { dict, grid }
    }

    #[tactic(auto, using(frame_format::proofs::ToldLaws::rows_told))]
    pub(crate) fn rows(&self) -> usize
        ensures { result ≡ length self.now.labels }
    {
        self.grid.rows()
    }

    #[tactic(auto, using(crate::proofs::Hints::columns))]
    pub(crate) fn columns(&self) -> usize
        ensures count { result ≡ length self.now.columns }
        ensures headings { length self.now.headings ≡ length self.now.columns }
    {
        self.grid.columns()
    }

    #[tactic(auto, using(frame_format::proofs::ToldLaws::levels_told))]
    pub(crate) fn levels(&self) -> usize
        ensures { result ≡ length self.now.level_names }
    {
        self.grid.levels()
    }

    #[tactic(auto, using(crate::proofs::Hints::put_cell))]
    pub(crate) fn put_cell(
        &self,
        out: &mut Output,
        row: usize,
        column: usize,
    ) -> Result<(), NoMemory>
        requires row { row < length self.now.labels }
        requires column { column < length self.now.columns }
        ensures { OnOk result (out.new
            ≡ out.old ++ json_tokens (cell_json (cell_at self.now row column))) }
    {
        out.cell(self.dict, self.grid.cell(row, column))
    }

    #[tactic(auto, using(crate::proofs::Hints::put_label))]
    pub(crate) fn put_label(&self, out: &mut Output, row: usize) -> Result<(), NoMemory>
        requires row { row < length self.now.labels }
        requires level { 0 < length self.now.level_names }
        ensures { OnOk result (out.new ≡ out.old ++ json_tokens (label_json (label_at self.now row 0))) }
    {
        out.label(self.dict, self.grid.label(row, 0))
    }

    #[tactic(auto, using(crate::proofs::Hints::put_heading))]
    pub(crate) fn put_heading(&self, out: &mut Output, column: usize) -> Result<(), NoMemory>
        requires { column < length self.now.columns }
        ensures { OnOk result (out.new
            ≡ out.old ++ json_tokens (label_json (heading_label (heading_at self.now column)))) }
    {
        out.label(self.dict, heading_of(self.grid, column))
    }

    /// The text of a column's label.
    #[tactic(auto, using(crate::proofs::Hints::put_heading))]
    pub(crate) fn key(&self, alloc: Global, column: usize) -> Result<String, NoMemory>
        requires { column < length self.now.columns }
        ensures { IfOk result (λ key. string_bytes key
            ≡ key_text (heading_label (heading_at self.now column))) }
    {
        text_of_label(alloc, self.dict, heading_of(self.grid, column))
    }
}
