// Numbers of rows, numbered by first sight.
ghost use Rattle.std.specs.Prelude.{◌≡◌, ◌<◌, ◌≤◌, ◌^◌, nat_eq, All, IfOk, IfSome};
ghost use Rattle.row_keys.specs.Keys.{codes_of, first_rows};
ghost use Rattle.row_keys.specs.Numbers.{AreLeaders, LeadBack};

use crate::factor::{Factors, factorize};
use crate::rows::{Column, KeyRows};
use crate::runs::{leaders_by_sort, row_bits};
use cell_core::NoMemory;
use std::alloc::Global;
use std::hash::Hash;

/// The number of each row's key by first sight, and the first row of each number.
#[derive(Drop)]
pub struct Numbers {
    /// The number of each row's key.
    pub codes: Vec<usize>,
    /// The first row of each number.
    pub firsts: Vec<usize>,
}

// Numbers that stand for keys, and one that none of them exceeds.
#[derive(Drop)]
pub(crate) struct Standing {
    pub(crate) numbers: Vec<u64>,
    pub(crate) most: u64,
    ghost up_to: { All (λ n. n ≤ most) numbers.items },
}

// Keys of any kind, by their hash.
pub(crate) fn codes_by_hash<K: Eq + Hash + Drop, R: KeyRows<K>>(
    alloc: Global,
    rows: &R,
) -> Result<Numbers, NoMemory>
    ensures codes { IfOk result (λ n. n.codes.items ≡ codes_of K.eq (R.keys rows.now)) }
    ensures firsts { IfOk result (λ n. n.firsts.items ≡ first_rows K.eq (R.keys rows.now)) }
{
    let Factors { codes, firsts, .. } = factorize(alloc, rows)?;
    Ok(Numbers { codes, firsts })
}

// The greatest number as an index, where a table up to it is at most about twice as long as the rows are many.
fn table_end(count: usize, most: u64) -> Option<usize>
    ensures most { IfSome result (λ end. end ≡ most) }
    ensures few { IfSome result (λ end. end < 2 ^ 62) }
{
    match usize::try_from(most) {
        Ok(end) if end / 2 <= count && end < 1 << 62 => Some(end),
        _ => None,
    }
}

// For each row the first row with its number, which a table keeps.
fn leaders_by_table(alloc: Global, numbers: &[u64], end: usize) -> Result<Vec<usize>, NoMemory>
    requires up_to { All (λ n. n ≤ end) numbers.now }
    requires few { end < 2 ^ 62 }
    ensures { IfOk result (λ leaders. AreLeaders numbers.now leaders.items) }
{
    let count = numbers.len();
    let mut table = vec![in alloc; count; end + 1]?;
    let mut leaders = Vec::with_capacity(alloc, count)?;
    for row in 0..count {
        let place = numbers[row] as usize;
        let leader = table[place].min(row);
        table[place] = leader;
        leaders.push(leader)?;
    }
    Ok(leaders)
}

// For each row the first row with its number. `None` where neither a table nor a sort of 64 bits has room.
fn leaders_of(alloc: Global, numbers: &[u64], most: u64) -> Result<Option<Vec<usize>>, NoMemory>
    requires { All (λ n. n ≤ most) numbers.now }
    ensures { IfOk result (λ some. IfSome some (λ leaders. AreLeaders numbers.now leaders.items)) }
{
    if let Some(end) = table_end(numbers.len(), most) {
        let leaders = leaders_by_table(alloc, numbers, end)?;
        return Ok(Some(leaders));
    }
    if let Some(bits) = row_bits(numbers.len(), most) {
        let leaders = leaders_by_sort(alloc, numbers, most, bits)?;
        return Ok(Some(leaders));
    }
    Ok(None)
}

// Rows by their leaders: a row that leads itself has a new number.
fn codes_by_leader(alloc: Global, leaders: &[usize]) -> Result<Numbers, NoMemory>
    requires { LeadBack leaders.now }
    ensures codes { IfOk result (λ n. n.codes.items ≡ codes_of nat_eq leaders.now) }
    ensures firsts { IfOk result (λ n. n.firsts.items ≡ first_rows nat_eq leaders.now) }
{
    let mut codes = Vec::with_capacity(alloc, leaders.len())?;
    let mut firsts = Vec::new(alloc);
    for row in 0..leaders.len() {
        let leader = leaders[row];
        if leader == row {
            codes.push(firsts.len())?;
            firsts.push(row)?;
        } else {
            let code = codes[leader];
            codes.push(code)?;
        }
    }
    Ok(Numbers { codes, firsts })
}

// Numbers of rows by first sight, where none exceeds the greatest.
#[tactic(auto, using(crate::proofs::LeaderLaws::leaders_back))]
pub(crate) fn codes_by_number(
    alloc: Global,
    numbers: &[u64],
    most: u64,
) -> Result<Numbers, NoMemory>
    requires { All (λ n. n ≤ most) numbers.now }
    ensures codes { IfOk result (λ n. n.codes.items ≡ codes_of nat_eq numbers.now) }
    ensures firsts { IfOk result (λ n. n.firsts.items ≡ first_rows nat_eq numbers.now) }
{
    let Some(leaders) = leaders_of(alloc, numbers, most)? else {
        return codes_by_hash(alloc, &Column { labels: numbers });
    };
    let made = codes_by_leader(alloc, leaders.as_slice())?;
    Ok(made)
}
