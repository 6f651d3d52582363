// The labels of columns, and their texts.
ghost use Rattle.std.specs.Prelude.{◌≡◌, ◌<◌, List, ℕ, IfOk, OnOk, IfSome, length, not, string_bytes};
ghost use Rattle.std.specs.List.{list_any};
ghost use Rattle.cell_core.specs.Texts.{with_text};
ghost use Rattle.cell_core.specs.Values.{label_datum};
ghost use Rattle.meaning_json.specs.cells.Text.{same_text};
ghost use Rattle.meaning_json.specs.tables.Table.{heading_value};
ghost use Rattle.meaning_json.specs.JsonWrite.{key_text, heading_label};
ghost use Rattle.json_frames.specs.Labels.{texts_seen, repeated_from};

use cell_core::{Grid, Label, NoMemory, TextDict};
use itoa::Buffer;
use std::alloc::Global;

/// The label of a column; a frame's columns all have one.
pub(crate) fn heading_of<G: Grid>(grid: &G, column: usize) -> Label
    requires { column < (G.table grid.now).columns }
    ensures { (texts : List (List ℕ)) → label_datum texts result
        ≡ heading_label (heading_value texts ((G.table grid.now).heading column)) }
{
    match grid.heading(column) {
        Some(label) => label,
        None => Label::Na,
    }
}

/// The text of a label, as it prints by itself.
pub(crate) fn text_of_label(
    alloc: Global,
    dict: &TextDict,
    label: Label,
) -> Result<String, NoMemory>
    ensures { IfOk result (λ text. string_bytes text ≡ key_text (label_datum dict.now label)) }
{
    match label {
        Label::Na => owned(alloc, "<NA>"),
        Label::Int(number) => owned(alloc, Buffer::new().format(number)),
        Label::Bool(true) => owned(alloc, "True"),
        Label::Bool(false) => owned(alloc, "False"),
        Label::Text(id) => owned(alloc, dict.text(id)),
    }
}

fn owned(alloc: Global, text: &str) -> Result<String, NoMemory>
    ensures { IfOk result (λ copy. string_bytes copy ≡ text.now) }
{
    Ok(String::from_str(alloc, text)?)
}

// Puts a text among others, and says whether it stood there before.
fn has_or_adds(texts: &mut TextDict, text: &str) -> Result<bool, NoMemory>
    ensures texts { OnOk result (texts.new ≡ with_text texts.old text.now) }
    ensures before { IfOk result (λ had. had ≡ list_any (same_text text.now) texts.old) }
{
    let count = texts.len();
    texts.intern(text)?;
    Ok(texts.len() == count)
}

/// The place of the first text that stands again at a later place.
pub(crate) fn first_repeated(alloc: Global, texts: &[String]) -> Result<Option<usize>, NoMemory>
    ensures place { IfOk result (λ place. place ≡ repeated_from 0 (texts_seen texts.now)) }
    ensures within { IfOk result (λ place. IfSome place (λ k. k < length texts.now)) }
{
    let mut later = TextDict::new(alloc);
    let mut found = None;
    let mut rest = texts;
    while let [before @ .., text] = rest {
        if has_or_adds(&mut later, text.as_str())? {
            found = Some(before.len());
        }
        rest = before;
    }
    Ok(found)
}
