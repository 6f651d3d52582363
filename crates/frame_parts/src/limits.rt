// The limits of a table.
ghost use Rattle.std.specs.Prelude.{◌≡◌, ◌≤◌, ◌<◌, ◌&&◌, ◌^◌, ℕ, nat_le};
ghost use Rattle.meaning_form.specs.Finish as finish;

/// Whether a new table may have so many rows and columns: at most 2^26 rows, 2^16 columns, and
/// 2^26 cells. Takes no memory.
pub fn within_limits(rows: usize, columns: usize) -> bool
    ensures { result ≡ finish.within_limits rows columns }
{
    rows <= 1 << 26 && columns <= 1 << 16 && rows * columns <= 1 << 26
}

/// The most rows that a new table of so many columns may have, which a caller hands to what makes rows: 2^26 cells at
/// most, and 2^26 rows where it has no columns. 0 where it may not have so many columns. Takes no memory.
#[tactic(auto, using(crate::proofs::LimitLaws::most_within))]
pub fn rows_within(columns: usize) -> usize
    ensures law { (rows : ℕ) → finish.within_limits rows columns
        ≡ (nat_le rows result && nat_le columns (2 ^ 16)) }
    ensures few { result ≤ 2 ^ 26 }
    ensures none { 2 ^ 16 < columns → result ≡ 0 }
{
    if columns > 1 << 16 {
        return 0;
    }
    (1 << 26) / columns.max(1)
}
