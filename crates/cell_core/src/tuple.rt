// A key: up to four labels.
ghost use Rattle.std.specs.Prelude.{◌≡◌, ◌≤◌, ◌<◌, length, slice_get, Some};

use crate::cell::Label;
use smallvec::SmallVec;
use std::alloc::Global;
use std::marker::Model;

/// A tuple of one to four labels, which lie in the value itself.
#[derive(Drop)]
pub struct Tuple {
    labels: SmallVec<Label, 4>,
}

impl Model for Tuple {
    ghost use Rattle.std.specs.Prelude.{List, ◌≤◌, length};
    ghost use Rattle.cell_core.specs.declared.cell.Label.{Label};

    ghost Value = { List Label };

    ghost view = { λ t. t.labels.items };

    ghost invariant = { λ t. (1 ≤ length t.labels.items) × (length t.labels.items ≤ 4) };
}

impl Tuple {
    /// The tuple of these labels, one to four. Takes no memory.
    pub fn of(alloc: Global, labels: &[Label]) -> Tuple
        requires some { 1 ≤ length labels.now }
        requires few { length labels.now ≤ 4 }
        ensures { result ≡ labels.now }
    {
        match SmallVec::from_slice(alloc, labels) {
            Ok(labels) => Tuple { labels },
            Err(_) => unreachable!(),
        }
    }

    /// How many labels there are: one to four.
    pub fn len(&self) -> usize
        ensures count { result ≡ length self.now }
        ensures some { 1 ≤ result }
        ensures few { result ≤ 4 }
    {
        self.labels.len()
    }

    /// The label of a level, counted from 0.
    pub fn at(&self, level: usize) -> Label
        requires { level < length self.now }
        ensures { slice_get self.now level ≡ Some result }
    {
        self.labels.as_slice()[level]
    }

    /// A tuple of its own with the same labels. Takes no memory.
    pub fn copy(&self) -> Tuple
        ensures { result ≡ self.now }
    {
        Tuple::of(*self.labels.allocator(), self.labels.as_slice())
    }
}
