// Numbers of keys.
ghost use Rattle.std.specs.Prelude.{◌≡◌, ◌<◌, false, map, length, IfOk};
ghost use Rattle.row_keys.specs.Keys.{same_tuple, place_among, codes_of, first_rows, label_in};
ghost use Rattle.meaning_group.specs.Keys.{group_keys};
ghost use Rattle.factorize.specs.Keys.{seen_rules};

use crate::levels::KeyLevels;
use crate::order::numbers_in_order;
use crate::places::{places_among, recode};
use cell_core::{Label, NoMemory, TextDict};
use row_keys::{KeyRows, Numbers, label_codes, pair_codes};
use std::alloc::Global;

/// How many keys there are, and the number of each row's key.
#[derive(Drop)]
pub struct KeyNumbers {
    /// How many keys there are.
    pub count: usize,
    /// The number of each row's key, counted from 0.
    pub codes: Vec<usize>,
}

/// The labels of the last level.
#[derive(Drop)]
struct LastLevel<'a, R> {
    rows: &'a R,
    level: usize,
}

impl<R: KeyLevels> KeyRows<Label> for LastLevel<'_, R> {
    ghost use Rattle.std.specs.Prelude.{map};
    ghost use Rattle.row_keys.specs.Keys.{label_in};

    ghost keys = { λ s. map (label_in s.level) (R.keys s.rows.now) };

    fn count(&self) -> usize {
        self.rows.count()
    }

    fn key(&self, row: usize) -> Label {
        self.rows.label(row, self.level)
    }
}

/// The labels of a level, and for each row the number of its labels at the levels below.
#[derive(Drop)]
struct UpperLevel<'a, R> {
    rows: &'a R,
    level: usize,
    codes: &'a [usize],
}

impl<R: KeyLevels> KeyRows<(Label, usize)> for UpperLevel<'_, R> {
    ghost use Rattle.std.specs.Prelude.{map};
    ghost use Rattle.std.specs.List.{zip};
    ghost use Rattle.row_keys.specs.Keys.{label_in};

    ghost keys = { λ s. zip (map (label_in s.level) (R.keys s.rows.now)) s.codes.now };

    fn count(&self) -> usize {
        self.rows.count().min(self.codes.len())
    }

    fn key(&self, row: usize) -> (Label, usize) {
        (self.rows.label(row, self.level), self.codes[row])
    }
}

// Numbers the keys of rows by first sight: one pass a level, and no tuple is made.
pub(crate) fn numbered<R: KeyLevels>(alloc: Global, rows: &R) -> Result<Numbers, NoMemory>
    ensures codes { IfOk result (λ n. n.codes.items ≡ codes_of same_tuple (R.keys rows.now)) }
    ensures firsts { IfOk result (λ n. n.firsts.items ≡ first_rows same_tuple (R.keys rows.now)) }
{
    let levels = rows.levels();
    let mut level = levels - 1;
    let mut numbers = label_codes(alloc, &LastLevel { rows, level })?;
    while level > 0 {
        level -= 1;
        numbers = pair_codes(
            alloc,
            &UpperLevel {
                rows,
                level,
                codes: &numbers.codes,
            },
        )?;
    }
    Ok(numbers)
}

/// Numbers the keys of rows: in the order of the keys where they are to be sorted, and else by first sight. Texts are
/// told apart by their numbers and ordered by what they say. No tuple is made. `NoMemory` is the only refusal.
#[tactic(auto, using(crate::proofs::Hints::number_keys))]
pub fn number_keys<R: KeyLevels>(
    alloc: Global,
    dict: &TextDict,
    rows: &R,
    sorted: bool,
) -> Result<KeyNumbers, NoMemory>
    ensures count { let keys = group_keys (seen_rules dict.now) sorted false (R.keys rows.now) in
        IfOk result (λ made. made.count ≡ length keys) }
    ensures codes { let keys = group_keys (seen_rules dict.now) sorted false (R.keys rows.now) in
        IfOk result (λ made. made.codes.items ≡ map (place_among same_tuple keys) (R.keys rows.now)) }
{
    let levels = rows.levels();
    let Numbers { mut codes, firsts } = numbered(alloc, rows)?;
    if !sorted {
        return Ok(KeyNumbers {
            count: firsts.len(),
            codes,
        });
    }
    let ordered = numbers_in_order(alloc, dict, rows, levels, &firsts, sorted)?;
    let places = places_among(alloc, ordered.as_slice(), firsts.len())?;
    recode(&mut codes, &places);
    Ok(KeyNumbers {
        count: ordered.len(),
        codes,
    })
}
