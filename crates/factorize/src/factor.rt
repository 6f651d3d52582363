// The groups of rows by their keys.
ghost use Rattle.std.specs.Prelude.{◌≡◌, ◌<◌, map, length, All, IfOk, Some};
ghost use Rattle.multi_index.specs.Axes.{tuples_at};
ghost use Rattle.row_keys.specs.Keys.{place_among, same_tuple};
ghost use Rattle.meaning_group.specs.Keys.{group_keys, group_codes};
ghost use Rattle.meaning_group.specs.Grouping.{AreGroups};
ghost use Rattle.factorize.specs.Keys.{seen_rules};
ghost use Rattle.factorize.specs.Numbers.{first_row, places_of, recoded};

use crate::groups::Groups;
use crate::levels::KeyLevels;
use crate::numbers::numbered;
use crate::places::{codes_by, numbers_kept, places_among, rows_of_numbers};
use cell_core::{Gaps, NoMemory, Places, TextDict};
use row_keys::Numbers;
use std::alloc::Global;

/// The group of each row, and the first row of each group.
#[derive(Drop)]
pub struct KeyGroups {
    /// The group of each row.
    pub groups: Groups,
    /// The first row of each group.
    pub firsts: Places,
}

// The number of each row as its group.
fn groups_by_number(alloc: Global, codes: &[usize]) -> Result<Gaps, NoMemory>
    ensures { IfOk result (λ groups. groups ≡ map Some codes.now) }
{
    let mut groups = Vec::with_capacity(alloc, codes.len())?;
    for code in codes {
        groups.push(Some(*code))?;
    }
    Ok(Gaps::from(groups))
}

// The groups of rows whose numbers are the groups.
fn groups_of_all(alloc: Global, numbers: Numbers) -> Result<KeyGroups, NoMemory>
    requires { All (λ code. code < length numbers.firsts.items) numbers.codes.items }
    ensures groups { IfOk result (λ made. made.groups
        ≡ record { count = length numbers.firsts.items; codes = map Some numbers.codes.items }) }
    ensures firsts { IfOk result (λ made. made.firsts ≡ numbers.firsts.items) }
{
    let Numbers { codes, firsts } = numbers;
    let groups = groups_by_number(alloc, &codes)?;
    Ok(KeyGroups {
        groups: Groups::of(firsts.len(), groups),
        firsts: Places::from(firsts),
    })
}

// The groups of rows whose numbers are kept, in the order of these.
#[tactic(auto, using(crate::proofs::PlaceLaws::codes_placed))]
fn groups_of_kept(alloc: Global, numbers: &Numbers, kept: &[usize]) -> Result<KeyGroups, NoMemory>
    requires kept { All (λ n. n < length numbers.now.firsts.items) kept.now }
    requires codes { All (λ code. code < length numbers.now.firsts.items) numbers.now.codes.items }
    ensures groups { let places = places_of kept.now (length numbers.now.firsts.items) in
        IfOk result (λ made. made.groups
        ≡ record { count = length kept.now; codes = recoded places numbers.now.codes.items }) }
    ensures firsts { IfOk result (λ made. made.firsts
        ≡ map (first_row numbers.now.firsts.items) kept.now) }
{
    let places = places_among(alloc, kept, numbers.firsts.len())?;
    let codes = codes_by(alloc, &places, &numbers.codes)?;
    let firsts = rows_of_numbers(alloc, &numbers.firsts, kept)?;
    Ok(KeyGroups {
        groups: Groups::of(kept.len(), codes),
        firsts,
    })
}

/// The groups of rows by their keys: a group for each distinct key, in the order of the keys or of first sight.
/// With `dropna` a row whose key holds an NA is in no group ("Group by: split-apply-combine" in the pandas user
/// guide, "GroupBy sorting" and "GroupBy dropna"). Texts are told apart by their numbers and ordered by what they
/// say. No tuple is made. `NoMemory` is the only refusal.
#[tactic(auto, using(crate::proofs::KeyNumberLaws::all_counted))]
pub fn group_by_keys<R: KeyLevels>(
    alloc: Global,
    dict: &TextDict,
    rows: &R,
    sorted: bool,
    dropna: bool,
) -> Result<KeyGroups, NoMemory>
    ensures count { let keys = group_keys (seen_rules dict.now) sorted dropna (R.keys rows.now) in
        IfOk result (λ g. g.groups.count ≡ length keys) }
    ensures codes { IfOk result (λ g. g.groups.codes
        ≡ group_codes (seen_rules dict.now) sorted dropna (R.keys rows.now)) }
    ensures firsts { let keys = group_keys (seen_rules dict.now) sorted dropna (R.keys rows.now) in
        IfOk result (λ g. g.firsts ≡ map (place_among same_tuple (R.keys rows.now)) keys) }
    ensures law { let keys = R.keys rows.now in
        IfOk result (λ g. AreGroups (seen_rules dict.now) sorted dropna keys
        (tuples_at keys g.firsts) g.groups.codes) }
{
    let levels = rows.levels();
    let numbers = numbered(alloc, rows)?;
    if !sorted && !dropna {
        let all = groups_of_all(alloc, numbers)?;
        return Ok(all);
    }
    let kept = numbers_kept(alloc, dict, rows, levels, &numbers, sorted, dropna)?;
    let made = groups_of_kept(alloc, &numbers, kept.as_slice())?;
    Ok(made)
}
