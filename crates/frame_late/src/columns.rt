// What a method of texts makes of a column.
ghost use Rattle.std.specs.Prelude.{◌≡◌, true, []};
ghost use Rattle.frame_labels.specs.method.StrCalls as meant;
ghost use Rattle.frame_labels.specs.method.text.TextMethod.{takes};
ghost use Rattle.frame_late.specs.StrOps.{held_cells, method_with};

use cell_core::TextDict;
use column_core::ColRef;
use frame_methods::{ColumnOp, MadeColumn};
use nullable_array::ArrayFault;
use std::alloc::Global;
use text_methods::{TextFault, TextOp, text_method};

// A method of texts whose step isn't 0 and whose width isn't too great.
#[derive(Drop)]
pub(crate) struct OnTexts {
    pub(crate) op: TextOp,
    ghost taken: { takes (method_with op []) ≡ true },
}

impl ColumnOp for OnTexts {
    ghost held = { λ s. held_cells s.op };

    ghost answer = { λ s cells. meant.worked (method_with s.op cells) };

    fn column(&self, alloc: Global, dict: &mut TextDict, a: ColRef<'_>) -> MadeColumn {
        match text_method(alloc, dict, a, self.op) {
            Ok(column) => Ok(column),
            Err(TextFault::NoMemory) => Err(ArrayFault::NoMemory),
            Err(TextFault::NotText) => Err(ArrayFault::KindMismatch),
            Err(TextFault::BadArgument) => Err(ArrayFault::KindMismatch),
        }
    }
}
