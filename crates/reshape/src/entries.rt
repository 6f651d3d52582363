// The labels of each row: its key, and the label that becomes a column's.
ghost use Rattle.std.specs.Prelude.{◌≡◌, ◌<◌, ◌≤◌, ◌++◌, [], IfOk, IfSome, length, slice_index_or};
ghost use Rattle.reshape.specs.Slots.{labelled, repeated_at};

use cell_core::{Label, NoMemory, Tuple};
use factorize::{Groups, KeyLevels};
use merge_concat::first_repeated_row;
use row_keys::{KeyRows, Numbers, pair_codes};
use std::alloc::Global;

/// For each row its label, and the number of its key.
#[derive(Drop)]
struct LabelledKeys<'a, C> {
    labels: &'a C,
    keys: &'a Groups,
}

impl<C: KeyLevels> KeyRows<(Label, usize)> for LabelledKeys<'_, C> {
    ghost use Rattle.std.specs.Prelude.{map};
    ghost use Rattle.std.specs.List.{zip};
    ghost use Rattle.row_keys.specs.Keys.{label_in};
    ghost use Rattle.factorize.specs.Numbers.{number_in};

    ghost keys = { λ s. zip (map (label_in 0) (C.keys s.labels.now)) (map number_in s.keys.now.codes) };

    fn count(&self) -> usize {
        self.labels.count().min(self.keys.rows())
    }

    fn key(&self, row: usize) -> (Label, usize) {
        (self.labels.label(row, 0), self.keys.code(row).unwrap_or(0))
    }
}

// The first row whose labels stand on another row too.
pub(crate) fn repeated_entry<C: KeyLevels>(
    alloc: Global,
    labels: &C,
    keys: &Groups,
) -> Result<Option<usize>, NoMemory>
    ensures row { IfOk result (λ found. found
        ≡ repeated_at (labelled (C.keys labels.now) keys.now.codes)) }
    ensures below { IfOk result (λ found. IfSome found (λ row.
        row < length (labelled (C.keys labels.now) keys.now.codes))) }
{
    let Numbers { codes, firsts } = pair_codes(alloc, &LabelledKeys { labels, keys })?;
    first_repeated_row(alloc, firsts.len(), &codes)
}

// The key of a row and its label in one tuple.
pub(crate) fn entry_of_row<R: KeyLevels, C: KeyLevels>(
    alloc: Global,
    rest: &R,
    spread: &C,
    row: usize,
) -> Tuple
    requires key { row < length (R.keys rest.now) }
    requires few { length (slice_index_or (R.keys rest.now) row []) ≤ 3 }
    requires label { row < length (C.keys spread.now) }
    requires one { length (slice_index_or (C.keys spread.now) row []) ≡ 1 }
    ensures { result ≡ slice_index_or (R.keys rest.now) row []
        ++ slice_index_or (C.keys spread.now) row [] }
{
    let mut labels = [Label::Na; 4];
    let levels = rest.levels();
    for level in 0..levels {
        labels[level] = rest.label(row, level);
    }
    labels[levels] = spread.label(row, 0);
    Tuple::of(alloc, &labels[..levels + 1])
}
