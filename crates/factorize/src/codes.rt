// Tuples by number.
ghost use Rattle.std.specs.Prelude.{◌≡◌, ◌<◌, [], length, slice_get, Some, IfOk, All};
ghost use Rattle.multi_index.specs.Axes.{HaveLevels, tuples_at};
ghost use Rattle.meaning_group.specs.Keys.{group_keys, group_codes};
ghost use Rattle.meaning_group.specs.Grouping.{AreGroups};
ghost use Rattle.factorize.specs.Keys.{seen_rules, levels_of};

use crate::factor::{KeyGroups, group_by_keys};
use crate::groups::{Groups, RowGroups};
use crate::levels::KeyTuples;
use cell_core::{NoMemory, Places, TextDict, Tuples};
use std::alloc::Global;
use std::marker::Model;

/// The number of each row's key, if it has one, and the key of each number.
#[derive(Drop)]
pub struct Codes {
    groups: Groups,
    keys: Tuples,
}

impl Model for Codes {
    ghost use Rattle.std.specs.Prelude.{◌≡◌, length};
    ghost use Rattle.factorize.specs.Codes.{CodesValue};

    ghost Value = { CodesValue };

    ghost view = { λ c. record { keys = c.keys; codes = c.groups.codes } };

    ghost invariant = { λ c. c.groups.count ≡ length c.keys };
}

impl Codes {
    /// How many rows there are. Takes no memory.
    pub fn len(&self) -> usize
        ensures { result ≡ length self.now.codes }
    {
        self.groups.rows()
    }

    /// The number of a row's key, counted from 0, if it has one. Takes no memory.
    pub fn code(&self, row: usize) -> Option<usize>
        requires { row < length self.now.codes }
        ensures { slice_get self.now.codes row ≡ Some result }
    {
        self.groups.code(row)
    }

    /// The distinct keys. Takes no memory.
    pub fn keys(&self) -> &Tuples
        ensures { result.now ≡ self.now.keys }
    {
        &self.keys
    }
}

impl RowGroups for Codes {
    ghost use Rattle.std.specs.Prelude.{length};

    ghost groups_of = { λ c. record { count = length c.keys; codes = c.codes } };

    fn groups(&self) -> &Groups {
        &self.groups
    }
}

// The tuples at these rows.
#[tactic(auto, using(multi_index::proofs::SideLaws::every_row))]
fn tuples_of(alloc: Global, tuples: &Tuples, rows: &Places) -> Result<Tuples, NoMemory>
    requires { All (λ row. row < length tuples.now) rows.now }
    ensures { IfOk result (λ made. made ≡ tuples_at tuples.now rows.now) }
{
    let mut made = Tuples::new(alloc);
    for place in 0..rows.len() {
        made.push(tuples.at(*rows.at(place)).copy())?;
    }
    Ok(made)
}

/// Numbers tuples of one length by the distinct ones among them, which are sorted or stand in the order of first
/// sight. With `dropna` those that hold an NA are left out, and their rows have no number ("Group by:
/// split-apply-combine" in the pandas user guide, and `factorize` in "Reshaping and pivot tables"). Texts are told
/// apart by their numbers and ordered by what they say. `NoMemory` is the only refusal.
#[tactic(auto, using(crate::proofs::GroupLaws::tuples_there))]
pub fn factorize(
    alloc: Global,
    dict: &TextDict,
    keys: &Tuples,
    sorted: bool,
    dropna: bool,
) -> Result<Codes, NoMemory>
    requires { HaveLevels (levels_of keys.now) keys.now }
    ensures keys { IfOk result (λ codes. codes.keys
        ≡ group_keys (seen_rules dict.now) sorted dropna keys.now) }
    ensures codes { IfOk result (λ codes. codes.codes
        ≡ group_codes (seen_rules dict.now) sorted dropna keys.now) }
    ensures law { IfOk result (λ codes.
        AreGroups (seen_rules dict.now) sorted dropna keys.now codes.keys codes.codes) }
{
    let KeyGroups { groups, firsts } = group_by_keys(
        alloc,
        dict,
        &KeyTuples::of(keys),
        sorted,
        dropna,
    )?;
    let distinct = tuples_of(alloc, keys, &firsts)?;
    Ok(Codes {
        groups,
        keys: distinct,
    })
}
