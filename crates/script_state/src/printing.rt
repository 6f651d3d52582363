// The printed texts of values.
ghost use Rattle.std.specs.Prelude.{◌≡◌, ◌++◌, IfOk};
ghost use Rattle.meaning_laws.specs.cells.Cell.{datum};
ghost use Rattle.frame_store.specs.Objects.{tables};
ghost use Rattle.frame_store.specs.Arguments.{entry_of, IsLive};
ghost use Rattle.frame_store.specs.World.{entry_in};
ghost use Rattle.meaning_laws.specs.script.Statement.{cell_text, entry_text};

use crate::work::Work;
use cell_core::{Cell, Grid, NoMemory, Shape, TextDict, Words};
use frame_format::{frame_text, series_text};
use frame_store::{Store, Value};
use itoa::Buffer;
use std::alloc::Global;

impl Work {
    ghost use Rattle.script_state.specs.Work.{tables_in, world_of};

    /// The printed text of a value, and then the end. The one refusal is want of memory.
    pub fn printed(&self, value: Value, end: &str) -> Result<Words, NoMemory>
        requires { IsLive (tables_in self.now) value }
        ensures { IfOk result
            (λ text. text ≡ entry_text (entry_in (world_of self.now) value) ++ end.now) }
    {
        let mut text = value_text(self.alloc, &self.dict, &self.store, value)?;
        text.push_str(end)?;
        Ok(text)
    }
}

fn value_text(
    alloc: Global,
    dict: &TextDict,
    store: &Store,
    value: Value,
) -> Result<Words, NoMemory>
    requires { IsLive (tables store.now) value }
    ensures { IfOk result
        (λ text. text ≡ entry_text (entry_of (tables store.now) dict.now value)) }
{
    match value {
        Value::Scalar(cell) => cell_text(alloc, dict, cell),
        Value::Object(id) => {
            let table = store.read(id);
            match table.shape() {
                Shape::Series => series_text(alloc, dict, &table),
                Shape::Frame => frame_text(alloc, dict, &table),
            }
        }
    }
}

// The text of a scalar.
fn cell_text(alloc: Global, dict: &TextDict, cell: Cell) -> Result<Words, NoMemory>
    ensures { IfOk result (λ text. text ≡ cell_text (datum dict.now cell)) }
{
    let mut digits = Buffer::new();
    Words::from_text(
        alloc,
        match cell {
            Cell::Na => "<NA>",
            Cell::Int(number) => digits.format(number),
            Cell::Bool(true) => "True",
            Cell::Bool(false) => "False",
            Cell::Text(id) => dict.text(id),
        },
    )
}
