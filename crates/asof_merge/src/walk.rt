// For each row of one side the nearest row of the other, in one pass over both.
ghost use Rattle.std.specs.Prelude.{◌≡◌, ◌<◌, ◌≤◌, length, slice_index, nat_eq, None, All, IfOk, IfSome};
ghost use Rattle.meaning_asof.specs.AsOf.{is_on_side, is_within, asof_rows};
ghost use Rattle.asof_merge.specs.Walk.{rows_of, key_at, IsAscending, IsNext, AreNearestPassed};
ghost use Rattle.asof_merge.specs.Walk.{AreOnSide, AreBeyond, row_within};

use cell_core::NoMemory;
use meaning_asof::Direction;
use std::alloc::Global;

/// The rows of a side: their keys, of which none is less than the one before it, and the numbers of their groups.
#[derive(Drop)]
pub(crate) struct SideRows<'a> {
    keys: &'a [i64],
    groups: &'a [usize],
    count: usize,
    ghost ascending: { IsAscending keys.now },
    ghost alike: { length groups.now ≡ length keys.now },
    ghost below: { All (λ group. group < count) groups.now },
}

impl<'a> SideRows<'a> {
    /// Rows with these keys, in the groups with these numbers, which are below a count. Takes no memory.
    pub fn of(keys: &'a [i64], groups: &'a [usize], count: usize) -> SideRows<'a>
        requires ascending { IsAscending keys.now }
        requires alike { length groups.now ≡ length keys.now }
        requires below { All (λ group. group < count) groups.now }
        ensures keys { result.keys.now ≡ keys.now }
        ensures groups { result.groups.now ≡ groups.now }
        ensures count { result.count ≡ count }
    {
        SideRows {
            keys,
            groups,
            count,
        }
    }

    // The key of a row.
    fn key(&self, row: usize) -> i64
        requires { row < length self.now.keys.now }
        ensures { result ≡ key_at self.now.keys.now row }
    {
        self.keys[row]
    }

    // The number of a row's group.
    fn group(&self, row: usize) -> usize
        requires { row < length self.now.keys.now }
        ensures group { result ≡ slice_index self.now.groups.now row }
        ensures below { result < self.now.count }
    {
        self.groups[row]
    }
}

// The row that comes up when so many were passed.
fn next_row(direction: Direction, count: usize, passed: usize) -> usize
    requires { passed < count }
    ensures next { IsNext direction count passed result }
    ensures within { result < count }
{
    match direction {
        Direction::Backward => passed,
        Direction::Forward => count - 1 - passed,
    }
}

// Whether a key isn't above another one, looking back, or not below it, looking forward.
fn is_on_side(direction: Direction, key: i64, other: i64) -> bool
    ensures { result ≡ is_on_side direction key other }
{
    match direction {
        Direction::Backward => other <= key,
        Direction::Forward => key <= other,
    }
}

// Whether two keys are as far apart as the tolerance at most.
fn is_within(tolerance: Option<u64>, key: i64, other: i64) -> bool
    ensures { result ≡ is_within tolerance key other }
{
    match tolerance {
        None => true,
        Some(most) => key.abs_diff(other) <= most,
    }
}

// The nearest row, unless its key is farther from the one than the tolerance.
fn row_within(
    tolerance: Option<u64>,
    key: i64,
    others: &SideRows<'_>,
    nearest: Option<usize>,
) -> Option<usize>
    requires { IfSome nearest (λ row. row < length others.now.keys.now) }
    ensures { result ≡ row_within tolerance key others.now.keys.now nearest }
{
    match nearest {
        Some(row) if is_within(tolerance, key, others.key(row)) => Some(row),
        _ => None,
    }
}

// Passes the rows whose keys lie on the side of a key where it looks, and keeps the last one passed of each group. Answers
// how many are passed.
fn pass_rows(
    direction: Direction,
    key: i64,
    others: &SideRows<'_>,
    mut passed: usize,
    nearest: &mut [Option<usize>],
) -> usize
    requires within { passed ≤ length others.now.keys.now }
    requires groups { length nearest.old ≡ others.now.count }
    requires nearest { AreNearestPassed direction others.now.groups.now passed nearest.old }
    requires on_side { AreOnSide direction key others.now.keys.now passed }
    ensures within { result ≤ length others.now.keys.now }
    ensures groups { length nearest.new ≡ others.now.count }
    ensures nearest { AreNearestPassed direction others.now.groups.now result nearest.new }
    ensures on_side { AreOnSide direction key others.now.keys.now result }
    ensures beyond { AreBeyond direction key others.now.keys.now result }
{
    let count = others.keys.len();
    while passed < count {
        let row = next_row(direction, count, passed);
        if !is_on_side(direction, key, others.key(row)) {
            return passed;
        }
        nearest[others.group(row)] = Some(row);
        passed += 1;
    }
    passed
}

// Writes for each row the nearest row of the other side.
fn find_rows(
    direction: Direction,
    tolerance: Option<u64>,
    rows: &SideRows<'_>,
    others: &SideRows<'_>,
    nearest: &mut [Option<usize>],
    found: &mut [Option<usize>],
)
    requires numbers { rows.now.count ≡ others.now.count }
    requires groups { length nearest.old ≡ others.now.count }
    requires none { All (λ row. row ≡ None) nearest.old }
    requires size { length found.old ≡ length rows.now.keys.now }
    ensures { found.new ≡ asof_rows nat_eq direction tolerance
        (rows_of rows.now.keys.now rows.now.groups.now)
        (rows_of others.now.keys.now others.now.groups.now) }
{
    let count = rows.keys.len();
    let mut passed = 0;
    for step in 0..count {
        let row = next_row(direction, count, step);
        let key = rows.key(row);
        passed = pass_rows(direction, key, others, passed, nearest);
        found[row] = row_within(tolerance, key, others, nearest[rows.group(row)]);
    }
}

/// For each row the nearest row of the other side of its group, in time that grows with the rows of both sides alone.
/// `NoMemory` is the only refusal.
pub(crate) fn nearest_rows(
    alloc: Global,
    direction: Direction,
    tolerance: Option<u64>,
    rows: &SideRows<'_>,
    others: &SideRows<'_>,
) -> Result<Vec<Option<usize>>, NoMemory>
    requires { rows.now.count ≡ others.now.count }
    ensures { IfOk result (λ found. found.items ≡ asof_rows nat_eq direction tolerance
        (rows_of rows.now.keys.now rows.now.groups.now)
        (rows_of others.now.keys.now others.now.groups.now)) }
{
    let mut nearest = vec![in alloc; None; others.count]?;
    let mut found = vec![in alloc; None; rows.keys.len()]?;
    find_rows(direction, tolerance, rows, others, &mut nearest, &mut found);
    Ok(found)
}
