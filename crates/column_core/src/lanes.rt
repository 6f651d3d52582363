// Values of one type, each present or not: of its own, or borrowed with a stride.
ghost use Rattle.std.specs.Prelude.{◌≡◌, ◌<◌, ℕ, false, length, replicate, reverse, slice_set, vec_len, unwrap_or, is_some, IfOk, OnOk, OnErr, Option, None, ⊤};
ghost use Rattle.column_core.specs.Lanes.{LaneFits, lane_place, lane_row, option_at, IsPushed};

use cell_core::NoMemory;
use std::alloc::{AllocError, Global};

/// Values that are borrowed: `count` of them, the first at `start`, each further one `stride` places on, or back.
pub struct Lane<'a, T> {
    /// The values among which these stand, with something in the place of each missing one.
    pub values: &'a [T],
    /// For each of them whether it is present.
    pub present: &'a [bool],
    /// The place of the first.
    pub start: usize,
    /// How many places there are from one to the next.
    pub stride: usize,
    /// Whether the next one stands before it.
    pub back: bool,
    /// How many there are.
    pub count: usize,
    pub ghost fits: { LaneFits start stride back count (length values.now) (length present.now) },
}

impl<T: Copy> Copy for Lane<'_, T> {}

impl<T: Copy> Clone for Lane<'_, T> {
    ghost is_clone = { λ lane copy. copy ≡ lane };

    ghost is_infallible = { λ _. ⊤ };

    fn clone(&self) -> Result<Self, AllocError> {
        Ok(*self)
    }
}

impl<T: Copy> Lane<'_, T> {
    /// Where a row stands among the values.
    pub fn place(&self, row: usize) -> usize
        requires { row < self.now.count }
        ensures within { result < length self.now.values.now }
        ensures place { result ≡ lane_place self.now.start self.now.stride self.now.back row }
    {
        if self.back {
            self.start - row * self.stride
        } else {
            self.start + row * self.stride
        }
    }

    /// The value of a row, where it is present.
    #[inline(always)]
    pub fn get(&self, row: usize) -> Option<T>
        requires { row < self.now.count }
        ensures { result ≡ lane_row self.now.values.now self.now.present.now self.now.start
            self.now.stride self.now.back row }
    {
        let place = self.place(row);
        if self.present[place] {
            Some(self.values[place])
        } else {
            None
        }
    }
}

/// Values of its own, each present or not.
#[derive(Drop)]
pub struct Owned<T> {
    /// The values, with something in the place of each missing one.
    pub values: Vec<T>,
    /// For each of them whether it is present.
    pub present: Vec<bool>,
    pub ghost alike: { length present.items ≡ length values.items },
}

impl<T: Copy + Drop> Owned<T> {
    /// No rows. Takes no memory.
    pub fn new(alloc: Global) -> Owned<T>
        ensures { length result.values.items ≡ 0 }
    {
        Owned {
            values: Vec::new(alloc),
            present: Vec::new(alloc),
        }
    }

    /// So many rows without values.
    pub fn missing(alloc: Global, blank: T, count: usize) -> Result<Owned<T>, NoMemory>
        ensures count { IfOk result (λ o. length o.values.items ≡ count) }
        ensures rows { IfOk result (λ o. (row : ℕ) →
            option_at o.values.items o.present.items row ≡ None) }
    {
        let values = repeated(alloc, blank, count)?;
        let present = repeated(alloc, false, count)?;
        Ok(Owned { values, present })
    }

    /// The same value, or none, in so many rows.
    #[tactic(auto, using(crate::proofs::Hints::filled))]
    pub fn filled(
        alloc: Global,
        blank: T,
        value: Option<T>,
        count: usize,
    ) -> Result<Owned<T>, NoMemory>
        ensures count { IfOk result (λ o. length o.values.items ≡ count) }
        ensures rows { IfOk result (λ o. (row : ℕ) → row < count →
            option_at o.values.items o.present.items row ≡ value) }
    {
        let values = repeated(alloc, value.unwrap_or(blank), count)?;
        let present = repeated(alloc, value.is_some(), count)?;
        Ok(Owned { values, present })
    }

    /// Puts a value, or none, at a row. Takes no memory.
    pub fn put(&mut self, blank: T, row: usize, value: Option<T>)
        requires { row < length self.old.values.items }
        ensures values { self.new.values.items
            ≡ slice_set self.old.values.items row (unwrap_or value blank) }
        ensures present { self.new.present.items
            ≡ slice_set self.old.present.items row (is_some value) }
    {
        self.present[row] = value.is_some();
        self.values[row] = value.unwrap_or(blank);
    }

    /// Turns the rows about. Takes no memory.
    pub fn reverse(&mut self)
        ensures values { self.new.values.items ≡ reverse self.old.values.items }
        ensures present { self.new.present.items ≡ reverse self.old.present.items }
    {
        self.values.reverse();
        self.present.reverse();
    }

    /// Adds a row. `NoMemory` leaves the rows as they were.
    pub fn push(&mut self, blank: T, value: Option<T>) -> Result<(), NoMemory>
        ensures ok { OnOk result (IsPushed self.old.values.items self.old.present.items value
            self.new.values.items self.new.present.items) }
        ensures err { OnErr result ((self.new.values.items ≡ self.old.values.items)
            × (self.new.present.items ≡ self.old.present.items)) }
    {
        self.present.push(value.is_some())?;
        if self.values.push(value.unwrap_or(blank)).is_err() {
            let _ = self.present.pop();
            return Err(NoMemory);
        }
        Ok(())
    }

    /// All rows, borrowed.
    pub fn lane(&self) -> Lane<'_, T>
        ensures count { result.count ≡ length self.now.values.items }
        ensures rows { (row : ℕ) → lane_row result.values.now result.present.now result.start
            result.stride result.back row
            ≡ option_at self.now.values.items self.now.present.items row }
    {
        Lane {
            values: self.values.as_slice(),
            present: self.present.as_slice(),
            start: 0,
            stride: 1,
            back: false,
            count: self.values.len(),
        }
    }
}

/// The same item, so many times.
pub(crate) fn repeated<T: Copy + Drop>(
    alloc: Global,
    item: T,
    count: usize,
) -> Result<Vec<T>, AllocError>
    ensures items { IfOk result (λ v. v.items ≡ replicate count item) }
    ensures len { IfOk result (λ v. vec_len v ≡ count) }
{
    let mut items = Vec::with_capacity(alloc, count)?;
    items.resize(count, item)?;
    Ok(items)
}
