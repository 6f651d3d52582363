// JSON that is written piece by piece.
ghost use Rattle.std.specs.Prelude.{◌≡◌, ◌++◌, ◌∷◌, [], OnOk, IfOk};
ghost use Rattle.json.specs.Token.{begin_object, end_object, begin_array, end_array, key};
ghost use Rattle.json.specs.Tree.{json_tokens};
ghost use Rattle.json.specs.Print.{print};
ghost use Rattle.cell_core.specs.Values.{datum, label_datum};
ghost use Rattle.meaning_json.specs.JsonWrite.{label_json, cell_json};

use cell_core::{Cell, Label, NoMemory, TextDict, Words};
use json::Writer;
use std::alloc::Global;
use std::marker::Model;

/// A JSON text that grows. Contracts see its tokens; the writer puts the commas and colons between them, and its text
/// is that of `serde_json`, which writes with it too.
#[derive(Drop)]
pub(crate) struct Output {
    writer: Writer,
}

impl Model for Output {
    ghost use Rattle.std.specs.Prelude.{◌≡◌, List, []};
    ghost use Rattle.json.specs.Token.{Token, tokens_code};

    ghost Value = { List Token };

    ghost coded = { tokens_code };

    ghost view = { λ o. o.writer.tokens };

    ghost invariant = { λ o. o.writer.before ≡ [] };
}

impl Output {
    pub(crate) fn new(alloc: Global) -> Output
        ensures { result ≡ [] }
    {
        Output {
            writer: Writer::new(Vec::new(alloc)),
        }
    }

    pub(crate) fn begin_array(&mut self) -> Result<(), NoMemory>
        ensures { OnOk result (self.new ≡ self.old ++ begin_array ∷ []) }
    {
        self.writer.begin_array()?;
        Ok(())
    }

    pub(crate) fn end_array(&mut self) -> Result<(), NoMemory>
        ensures { OnOk result (self.new ≡ self.old ++ end_array ∷ []) }
    {
        self.writer.end_array()?;
        Ok(())
    }

    pub(crate) fn begin_object(&mut self) -> Result<(), NoMemory>
        ensures { OnOk result (self.new ≡ self.old ++ begin_object ∷ []) }
    {
        self.writer.begin_object()?;
        Ok(())
    }

    pub(crate) fn end_object(&mut self) -> Result<(), NoMemory>
        ensures { OnOk result (self.new ≡ self.old ++ end_object ∷ []) }
    {
        self.writer.end_object()?;
        Ok(())
    }

    pub(crate) fn key(&mut self, name: &str) -> Result<(), NoMemory>
        ensures { OnOk result (self.new ≡ self.old ++ key name.now ∷ []) }
    {
        self.writer.key(name)?;
        Ok(())
    }

    pub(crate) fn label(&mut self, dict: &TextDict, label: Label) -> Result<(), NoMemory>
        ensures { OnOk result (self.new
            ≡ self.old ++ json_tokens (label_json (label_datum dict.now label))) }
    {
        match label {
            Label::Na => self.writer.null()?,
            Label::Int(number) => self.writer.i64(number)?,
            Label::Bool(truth) => self.writer.boolean(truth)?,
            Label::Text(id) => self.writer.string(dict.text(id))?,
        }
        Ok(())
    }

    pub(crate) fn cell(&mut self, dict: &TextDict, cell: Cell) -> Result<(), NoMemory>
        ensures { OnOk result (self.new ≡ self.old ++ json_tokens (cell_json (datum dict.now cell))) }
    {
        self.label(dict, Label::from(cell))
    }

    /// The text.
    pub(crate) fn into_words(self, alloc: Global) -> Result<Words, NoMemory>
        ensures { IfOk result (λ words. words ≡ print self) }
    {
        let Output { writer } = self;
        let bytes = writer.into_inner();
        match str::from_utf8(bytes.as_slice()) {
            Ok(text) => Words::from_text(alloc, text),
            Err(_) => unreachable!(),
        }
    }
}
