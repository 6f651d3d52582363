// The keys of two sides, numbered together.
ghost use Rattle.std.specs.Prelude.{◌≡◌, ◌++◌, map, length, IfOk};
ghost use Rattle.multi_index.specs.Axes.{HaveLevels};
ghost use Rattle.row_keys.specs.Keys.{place_among, same_tuple};
ghost use Rattle.factorize.specs.Keys.{levels_of};
ghost use Rattle.merge_concat.specs.Codes.{keys_of};

use crate::sides::BothRows;
use cell_core::{NoMemory, TextDict};
use factorize::{KeyLevels, KeyNumbers, number_keys};
use std::alloc::Global;

// Numbers the keys of both sides, those of the left side first: in the order of the keys where they are to be sorted,
// and else by first sight.
pub(crate) fn numbers_of_both<L: KeyLevels, R: KeyLevels>(
    alloc: Global,
    dict: &TextDict,
    left: &L,
    right: &R,
    sorted: bool,
) -> Result<KeyNumbers, NoMemory>
    requires { let keys = L.keys left.now ++ R.keys right.now in HaveLevels (levels_of keys) keys }
    ensures count { let keys = keys_of dict.now sorted (L.keys left.now) (R.keys right.now) in
        IfOk result (λ made. made.count ≡ length keys) }
    ensures codes { let keys = keys_of dict.now sorted (L.keys left.now) (R.keys right.now) in
        IfOk result (λ made. made.codes.items
        ≡ map (place_among same_tuple keys) (L.keys left.now ++ R.keys right.now)) }
{
    let Some(both) = BothRows::of(left, right) else {
        return Err(NoMemory);
    };
    let numbers = number_keys(alloc, dict, &both, sorted)?;
    Ok(numbers)
}
