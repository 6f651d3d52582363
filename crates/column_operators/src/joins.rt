// The sum of texts.
ghost use Rattle.std.specs.Prelude.{◌≡◌, ◌++◌, [], Option, Some, IfOk, string_bytes};
ghost use Rattle.column_core.specs.cells.Cell.{text_of, IsGiven};
ghost use Rattle.column_core.specs.Columns.{text_cell};
ghost use Rattle.column_core.specs.Rows.{text_if};
ghost use Rattle.column_operators.specs.Operations.{both};

use cell_core::{TextDict, TextId};
use nullable_array::TextOp;
use std::alloc::AllocError;

/// Two texts, one after the other.
#[derive(Drop)]
pub(crate) struct Join;

impl TextOp<TextId, TextId> for Join {
    ghost use Rattle.column_operators.specs.Joins.{join_stays};

    ghost given = { λ _ texts x y. IsGiven texts (text_cell x) × IsGiven texts (text_cell y) };

    ghost written = { λ _ texts. both (λ a b. text_of texts a ++ text_of texts b) };

    fn write(
        &self,
        dict: &TextDict,
        x: Option<TextId>,
        y: Option<TextId>,
        text: &mut String,
    ) -> Result<bool, AllocError>
        requires { string_bytes text.old ≡ [] }
        ensures { IfOk result (λ some. text_if some (string_bytes text.new)
            ≡ both (λ a b. text_of dict.now a ++ text_of dict.now b) x y) }
    {
        match (x, y) {
            (Some(x), Some(y)) => {
                text.push_str(dict.text(x))?;
                text.push_str(dict.text(y))?;
                Ok(true)
            }
            _ => Ok(false),
        }
    }

    ghost stays = { λ _ earlier later x y longer given. join_stays earlier later x y longer given.0 given.1 };
}
