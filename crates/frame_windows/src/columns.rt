// What windows make of a column.
ghost use Rattle.frame_labels.specs.method.Windows as meant;
ghost use Rattle.frame_methods.specs.nullable_array.Folds.{cumulation_of};
ghost use Rattle.frame_windows.specs.Windows.{windows_of, AreSome};

use crate::windows::Windows;
use cell_core::TextDict;
use column_core::ColRef;
use frame_methods::{ColumnOp, MadeColumn};
use rolling::{Cumulation, expand, roll};
use std::alloc::Global;

// At each row what a call makes of the row's window.
#[derive(Drop)]
pub(crate) struct Windowed {
    pub(crate) windows: Windows,
    pub(crate) op: Cumulation,
    ghost some: { AreSome windows },
}

impl ColumnOp for Windowed {
    ghost answer = { λ s _. meant.windowed (windows_of s.windows) (cumulation_of s.op) };

    fn column(&self, alloc: Global, dict: &mut TextDict, a: ColRef<'_>) -> MadeColumn {
        match self.windows {
            Windows::Rolling { rows, least } => roll(alloc, rows, least, self.op, a),
            Windows::Expanding { least } => expand(alloc, least, self.op, a),
        }
    }
}
