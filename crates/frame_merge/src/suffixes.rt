// Labels that get a suffix.
ghost use Rattle.std.specs.Prelude.{◌≡◌, ◌++◌, IfOk};
ghost use Rattle.std.specs.List.{list_any};
ghost use Rattle.column_core.specs.cells.Cell.{IsLonger, label_datum};
ghost use Rattle.frame_store.specs.tables.Settled.{IsSettled};
ghost use Rattle.frame_store.specs.tables.Table.{heading_value};
ghost use Rattle.frame_labels.specs.method.Levels.{label_cell};
ghost use Rattle.frame_labels.specs.method.Texts.{cell_text};
ghost use Rattle.frame_select.specs.Headings.{same_heading};
ghost use Rattle.frame_merge.specs.Headings.{suffixed_if};

use cell_core::{Label, NoMemory, TextDict, Words};
use indexmap::IndexSet;
use itoa::Buffer;
use std::alloc::Global;

// The text of a label, as a scalar is printed.
fn label_text(alloc: Global, dict: &TextDict, label: Label) -> Result<Words, NoMemory>
    ensures { IfOk result (λ text. text ≡ cell_text (label_cell (label_datum dict.now label))) }
{
    let mut digits = Buffer::new();
    Words::from_text(
        alloc,
        match label {
            Label::Na => "<NA>",
            Label::Int(number) => digits.format(number),
            Label::Bool(true) => "True",
            Label::Bool(false) => "False",
            Label::Text(id) => dict.text(id),
        },
    )
}

// The text of a label, and then a suffix.
fn suffixed_text(
    alloc: Global,
    dict: &TextDict,
    label: Label,
    suffix: &str,
) -> Result<Words, NoMemory>
    ensures { IfOk result
        (λ text. text ≡ cell_text (label_cell (label_datum dict.now label)) ++ suffix.now) }
{
    let mut text = label_text(alloc, dict, label)?;
    text.push_str(suffix)?;
    Ok(text)
}

// A heading beside others: with a suffix where one of them is equal.
#[tactic(auto, using(frame_store::proofs::Settling::longer_self))]
pub(crate) fn heading_beside(
    alloc: Global,
    dict: &mut TextDict,
    heading: Option<Label>,
    suffix: &str,
    others: &IndexSet<Option<Label>>,
) -> Result<Option<Label>, NoMemory>
    requires { IsSettled heading_value dict.old heading }
    ensures longer { IsLonger dict.old dict.new }
    ensures given { IfOk result (IsSettled heading_value dict.new) }
    ensures heading { let b = list_any (same_heading heading) others.now.keys in
        IfOk result (λ made. heading_value dict.new made
        ≡ suffixed_if b suffix.now (heading_value dict.old heading)) }
{
    if !others.contains(&heading) {
        return Ok(heading);
    }
    let Some(label) = heading else {
        return Ok(None);
    };
    let text = suffixed_text(alloc, dict, label, suffix)?;
    Ok(Some(Label::Text(dict.intern(text.as_str())?)))
}
