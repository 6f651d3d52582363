// The rows of one side that have the tuple of a row of another.
ghost use Rattle.std.specs.Prelude.{◌≡◌, ◌<◌, ◌≤◌, ◌++◌, [], length, map, slice_index_or, IfOk};
ghost use Rattle.multi_index.specs.Axes.{HaveLevels};
ghost use Rattle.row_keys.specs.Partners.{rows_with};

use crate::buckets::{Buckets, rows_by_code};
use crate::levels::numbered;
use crate::sides::LevelRows;
use cell_core::NoMemory;
use std::alloc::Global;
use std::marker::Model;

/// For each row of one side, the rows of another with the same tuple.
#[derive(Drop)]
pub struct Partners {
    codes: Vec<usize>,
    rows: Buckets,
}

impl Model for Partners {
    ghost use Rattle.std.specs.Prelude.{List, ℕ};
    ghost use Rattle.row_keys.specs.Partners.{rows_coded, AreCodesBelow};

    ghost Value = { List (List ℕ) };

    ghost view = { λ p. rows_coded p.codes.items p.rows };

    ghost invariant = { λ p. AreCodesBelow p.codes.items p.rows };
}

impl Partners {
    /// The rows of the other side that have the tuple of a row, in order. Takes no memory.
    pub fn rows(&self, row: usize) -> &[usize]
        requires { row < length self.now }
        ensures { result.now ≡ slice_index_or self.now row [] }
    {
        let codes: &[usize] = &self.codes;
        self.rows.rows(codes[row])
    }
}

/// Finds for each row of one side the rows of another with the same tuple: the tuples of both are numbered together,
/// so that this takes a step a level for each row. `NoMemory` is the only refusal.
#[tactic(auto, using(crate::proofs::Hints::find_partners))]
pub fn find_partners<A: LevelRows, B: LevelRows>(
    alloc: Global,
    keys: &A,
    among: &B,
    levels: usize,
) -> Result<Partners, NoMemory>
    requires some { 1 ≤ levels }
    requires alike { HaveLevels levels (A.tuples keys.now ++ B.tuples among.now) }
    ensures { IfOk result (λ partners. partners
        ≡ map (rows_with (B.tuples among.now)) (A.tuples keys.now)) }
{
    let numbers = numbered(alloc, keys, among, levels)?;
    let codes: &[usize] = &numbers.codes;
    let firsts: &[usize] = &numbers.firsts;
    let (of_keys, of_rows) = codes.split_at(keys.count());
    let rows = rows_by_code(alloc, firsts.len(), of_rows)?;
    let codes = of_keys.to_vec(alloc)?;
    Ok(Partners { codes, rows })
}
