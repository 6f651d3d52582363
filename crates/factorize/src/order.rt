// The order of keys.
ghost use Rattle.std.specs.Prelude.{◌≡◌, IfOk, length};
ghost use Rattle.std.specs.List.{range_with_len};
ghost use Rattle.meaning_group.specs.Keys.{ordered_if};
ghost use Rattle.factorize.specs.Numbers.{first_row, number_less};

use crate::levels::KeyLevels;
use cell_core::{Label, NoMemory, Places, TextDict};
use sorting::{LabelKeys, rows_by_labels};
use std::alloc::Global;

// The keys of numbers: those of their first rows.
#[derive(Drop)]
struct FirstKeys<'a, R> {
    rows: &'a R,
    levels: usize,
    firsts: &'a [usize],
}

impl<R: KeyLevels> LabelKeys for FirstKeys<'_, R> {
    ghost use Rattle.std.specs.Prelude.{[], slice_index_or};
    ghost use Rattle.row_keys.specs.Keys.{label_in};
    ghost use Rattle.factorize.specs.Numbers.{first_row};

    ghost keys = { λ s. s.levels };

    ghost label_at = { λ s number level.
        label_in level (slice_index_or (R.keys s.rows.now) (first_row s.firsts.now number) []) };

    fn count(&self) -> usize {
        self.levels
    }

    fn at(&self, number: usize, level: usize) -> Label {
        self.rows.label(row_of(self.firsts, number), level)
    }
}

// The first row of a number; the row 0 where there is no such number.
pub(crate) fn row_of(firsts: &[usize], number: usize) -> usize
    ensures { result ≡ first_row firsts.now number }
{
    if number < firsts.len() {
        firsts[number]
    } else {
        0
    }
}

// The numbers below a count, one by one.
#[tactic(auto, using(sorting::proofs::RangeLaws::one_more))]
fn in_sequence(alloc: Global, count: usize) -> Result<Places, NoMemory>
    ensures { IfOk result (λ numbers. numbers ≡ range_with_len 0 count) }
{
    let mut numbers = Vec::with_capacity(alloc, count)?;
    for number in 0..count {
        numbers.push(number)?;
    }
    Ok(Places::from(numbers))
}

// The numbers of keys, each with its first row, in the order of the keys where they are to be sorted.
pub(crate) fn numbers_in_order<R: KeyLevels>(
    alloc: Global,
    dict: &TextDict,
    rows: &R,
    levels: usize,
    firsts: &[usize],
    sorted: bool,
) -> Result<Places, NoMemory>
    ensures { let less = number_less dict.now (R.keys rows.now) levels firsts.now in
        IfOk result (λ numbers. numbers
        ≡ ordered_if sorted less (range_with_len 0 (length firsts.now))) }
{
    if !sorted {
        return in_sequence(alloc, firsts.len());
    }
    let keys = FirstKeys {
        rows,
        levels,
        firsts,
    };
    rows_by_labels(alloc, dict, &keys, true, firsts.len())
}
