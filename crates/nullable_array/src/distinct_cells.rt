// How many different cells a column has.
ghost use Rattle.std.specs.Prelude.{◌≡◌, ℕ, ℤ, pos, ◌+ℤ◌, List, [], length, IfSome, IfOk, OnOk};
ghost use Rattle.std.specs.Ordering.{int_eq};
ghost use Rattle.indexmap.specs.IndexSet.{insert_key};
ghost use Rattle.column_core.specs.cells.Cell.{AreDistinct, AreGiven};
ghost use Rattle.column_core.specs.cells.Column.{tabulate};
ghost use Rattle.column_core.specs.cells.Reduce.{distinct_count, distinct as each_once};
ghost use Rattle.column_core.specs.Columns.{column_value};
ghost use Rattle.nullable_array.specs.Distincts.{present_values, then_value, truths_of, AreMarked, IsMarkedMore};
ghost use Rattle.nullable_array.specs.Folds.{step_row};

use crate::folds::{AllTrue, AnyTrue, Greatest, Least, fold_rows, fold_until};
use crate::orders::ByNumber;
use cell_core::NoMemory;
use column_core::{Borrowed, ColRef, Source};
use indexmap::IndexSet;
use std::alloc::Global;
use std::hash::Hash;

/// How many different cells are present: NA isn't counted. Texts are told apart by their numbers.
///
/// `NoMemory` may come in place of the answer. (pandas user guide, "Essential basic functionality", on `nunique`.)
pub fn distinct(alloc: Global, a: ColRef<'_>) -> Result<u64, NoMemory>
    ensures { (texts : List (List ℕ)) → AreDistinct texts → AreGiven texts a.entry.cells →
        IfOk result (λ n. n ≡ distinct_count (column_value texts a.entry).cells) }
{
    match &a.lanes {
        Borrowed::Ints(lane) => distinct_numbers(alloc, lane),
        Borrowed::Truths(lane) => Ok(distinct_truths(lane)),
        Borrowed::Texts(lane) => distinct_values(alloc, lane),
    }
}

// How many places there may be for each row, where the numbers are told by marks at places.
const MOST_PLACES: u64 = 8;

fn distinct_numbers<A: Source<i64>>(alloc: Global, a: &A) -> Result<u64, NoMemory>
    ensures { IfOk result (λ n. n
        ≡ length (each_once int_eq
        (present_values (tabulate (A.count_of a.now) (A.row_of a.now))))) }
{
    let least = fold_rows(&Least { order: ByNumber }, None, a).unwrap_or(0);
    let greatest = fold_rows(&Greatest { order: ByNumber }, None, a).unwrap_or(0);
    let width = greatest.abs_diff(least);
    if width < MOST_PLACES.saturating_mul(a.count() as u64) {
        let mut marks = vec![in alloc; false; width as usize + 1]?;
        if let Some(count) = count_marked(a, least, &mut marks) {
            return Ok(count);
        }
    }
    if let Some(count) = few_values(alloc, a)? {
        return Ok(count);
    }
    count_ordered(alloc, a)
}

// So many different values are told by their hashes at most. Where there are more, a sort takes less than a table that
// no cache holds.
const MOST_HASHED: usize = 1 << 15;

// How many different values there are, or `None` where these aren't few.
#[tactic(auto, using(crate::proofs::FoldLaws::folded_more))]
fn few_values<T: Eq + Hash + Copy + Drop, A: Source<T>>(
    alloc: Global,
    a: &A,
) -> Result<Option<u64>, NoMemory>
    ensures { IfOk result (λ found. IfSome found (λ n. n
        ≡ length (each_once T.eq (present_values (tabulate (A.count_of a.now) (A.row_of a.now)))))) }
{
    let mut seen = IndexSet::new(alloc);
    for row in 0..a.count() {
        note(&mut seen, a.get(row))?;
        if MOST_HASHED < seen.len() {
            return Ok(None);
        }
    }
    Ok(Some(seen.len() as u64))
}

// How many different numbers there are: equal ones stand side by side in their order.
fn count_ordered<A: Source<i64>>(alloc: Global, a: &A) -> Result<u64, NoMemory>
    ensures { IfOk result (λ n. n
        ≡ length (each_once int_eq
        (present_values (tabulate (A.count_of a.now) (A.row_of a.now))))) }
{
    let mut numbers = present_numbers(alloc, a)?;
    numbers.sort_unstable();
    numbers.dedup();
    Ok(numbers.len() as u64)
}

#[tactic(auto, using(crate::proofs::FoldLaws::folded_more))]
fn present_numbers<A: Source<i64>>(alloc: Global, a: &A) -> Result<Vec<i64>, NoMemory>
    ensures { IfOk result (λ numbers. numbers.items
        ≡ present_values (tabulate (A.count_of a.now) (A.row_of a.now))) }
{
    let mut numbers = Vec::with_capacity(alloc, a.count())?;
    for row in 0..a.count() {
        keep(&mut numbers, a.get(row))?;
    }
    Ok(numbers)
}

// Adds the number, where it is present.
fn keep(numbers: &mut Vec<i64>, number: Option<i64>) -> Result<(), NoMemory>
    ensures { OnOk result (numbers.new.items ≡ step_row then_value numbers.old.items number) }
{
    if let Some(number) = number {
        numbers.push(number)?;
    }
    Ok(())
}

// How many different numbers there are, where each has a place among the marks.
fn count_marked<A: Source<i64>>(a: &A, least: i64, marks: &mut [bool]) -> Option<u64>
    requires { AreMarked least marks.old [] }
    ensures { IfSome result
        (λ n. n ≡ length
        (each_once int_eq (present_values (tabulate (A.count_of a.now) (A.row_of a.now))))) }
{
    let mut count = 0;
    for row in 0..a.count() {
        let added = mark(marks, least, a.get(row))?;
        count += u64::from(added);
    }
    Some(count)
}

// Marks the place of a value that is present, and says whether it had no mark. `None` where there is no such place.
fn mark(marks: &mut [bool], least: i64, value: Option<i64>) -> Option<bool>
    ensures { IfSome result
        (λ added. (seen : List ℤ) → AreMarked least marks.old seen →
        IsMarkedMore least marks.new seen (step_row (insert_key int_eq) seen value) added) }
{
    match value {
        Some(number) => {
            let place = place_of(least, number)?;
            if marks.len() <= place {
                return None;
            }
            let added = !marks[place];
            marks[place] = true;
            Some(added)
        }
        None => Some(false),
    }
}

fn place_of(least: i64, number: i64) -> Option<usize>
    ensures { IfSome result (λ place. number ≡ least +ℤ pos place) }
{
    if number < least {
        None
    } else {
        Some(number.abs_diff(least) as usize)
    }
}

#[tactic(auto, using(crate::proofs::FoldLaws::folded_more))]
fn distinct_values<T: Eq + Hash + Copy + Drop, A: Source<T>>(
    alloc: Global,
    a: &A,
) -> Result<u64, NoMemory>
    ensures { IfOk result (λ n. n
        ≡ length (each_once T.eq (present_values (tabulate (A.count_of a.now) (A.row_of a.now))))) }
{
    // Room for a value in each row, so that no value is moved.
    let mut seen = IndexSet::with_capacity(alloc, a.count())?;
    for row in 0..a.count() {
        note(&mut seen, a.get(row))?;
    }
    Ok(seen.len() as u64)
}

fn distinct_truths<A: Source<bool>>(a: &A) -> u64
    ensures { result ≡ truths_of (A.count_of a.now) (A.row_of a.now) }
{
    let some_true = fold_until(&AnyTrue, false, a);
    let all_true = fold_until(&AllTrue, true, a);
    u64::from(some_true) + u64::from(!all_true)
}

// Adds the value, where it is present.
fn note<T: Eq + Hash + Drop>(seen: &mut IndexSet<T>, value: Option<T>) -> Result<(), NoMemory>
    ensures { OnOk result (seen.new.keys ≡ step_row (insert_key T.eq) seen.old.keys value) }
{
    if let Some(value) = value {
        seen.insert(value)?;
    }
    Ok(())
}
