// The headings of a table.
ghost use Rattle.std.specs.Prelude.{◌≡◌, [], OnOk, OnErr};

use cell_core::{Label, NoMemory};
use std::alloc::Global;
use std::marker::Model;

/// The labels of a frame's columns and the name that they may have together; for a Series its name,
/// if it has one. It keeps the allocator that it was made with.
#[derive(Drop)]
pub struct Headings {
    pub(crate) columns_name: Option<Label>,
    pub(crate) labels: Vec<Option<Label>>,
}

impl Model for Headings {
    ghost use Rattle.frame_store.specs.Parts.{HeadingList};

    ghost Value = { HeadingList };

    ghost view = { λ h. record { columns_name = h.columns_name; labels = h.labels.items } };
}

impl Headings {
    ghost use Rattle.frame_store.specs.Parts.{with_heading};

    /// No headings yet. Takes no memory.
    pub fn new(alloc: Global, columns_name: Option<Label>) -> Headings
        ensures { result ≡ record { columns_name = columns_name; labels = [] } }
    {
        Headings {
            columns_name,
            labels: Vec::new(alloc),
        }
    }

    /// Appends the heading of the next column. `NoMemory` leaves the headings as they were.
    pub fn push(&mut self, heading: Option<Label>) -> Result<(), NoMemory>
        ensures ok { OnOk result (self.new ≡ with_heading self.old heading) }
        ensures err { OnErr result (self.new ≡ self.old) }
    {
        self.labels.push(heading)?;
        Ok(())
    }
}
