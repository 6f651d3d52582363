// The distinct keys by first sight.
ghost use Rattle.std.specs.Prelude.{◌≡◌, IfOk};
ghost use Rattle.multi_index.specs.cells.Reduce.{distinct};
ghost use Rattle.row_keys.specs.Keys.{codes_of, first_rows};

use crate::rows::KeyRows;
use cell_core::NoMemory;
use indexmap::IndexSet;
use std::alloc::Global;
use std::hash::Hash;

/// The distinct keys in the order of first sight, the number of each row's key among them, and the first row
/// of each.
#[derive(Drop)]
pub struct Factors<K: Eq + Hash> {
    /// The number of each row's key.
    pub codes: Vec<usize>,
    /// The distinct keys.
    pub keys: IndexSet<K>,
    /// The first row of each distinct key.
    pub firsts: Vec<usize>,
}

/// Numbers keys by first sight. `NoMemory` is the only refusal.
pub fn factorize<K: Eq + Hash + Drop, R: KeyRows<K>>(
    alloc: Global,
    rows: &R,
) -> Result<Factors<K>, NoMemory>
    ensures keys { IfOk result (λ f. f.keys.keys ≡ distinct K.eq (R.keys rows.now)) }
    ensures codes { IfOk result (λ f. f.codes.items ≡ codes_of K.eq (R.keys rows.now)) }
    ensures firsts { IfOk result (λ f. f.firsts.items ≡ first_rows K.eq (R.keys rows.now)) }
{
    let count = rows.count();
    let mut seen = IndexSet::new(alloc);
    let mut codes = Vec::with_capacity(alloc, count)?;
    let mut firsts = Vec::new(alloc);
    for row in 0..count {
        let (code, new) = seen.insert_full(rows.key(row))?;
        codes.push(code)?;
        if new {
            firsts.push(row)?;
        }
    }
    Ok(Factors {
        codes,
        keys: seen,
        firsts,
    })
}
