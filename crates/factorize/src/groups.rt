// The group of each row.
ghost use Rattle.std.specs.Prelude.{◌≡◌, ◌<◌, length, slice_get, Some, All};
ghost use Rattle.column_core.specs.Moves.{IsPlaceOf};

use cell_core::Gaps;
use std::marker::Model;

/// How many groups there are, and the group of each row, counted from 0, if it has one.
#[derive(Drop)]
pub struct Groups {
    count: usize,
    codes: Gaps,
}

/// Rows that are in groups.
pub trait RowGroups {
    ghost use Rattle.meaning_group.specs.Rows.{GroupsValue};

    ghost groups_of: { Self → GroupsValue };

    /// The group of each row. Takes no memory.
    fn groups(&self) -> &Groups
        ensures { result.now ≡ groups_of self.now };
}

impl RowGroups for Groups {
    ghost groups_of = { λ groups. groups };

    fn groups(&self) -> &Groups {
        self
    }
}

impl Model for Groups {
    ghost use Rattle.std.specs.Prelude.{All};
    ghost use Rattle.column_core.specs.Moves.{IsPlaceOf};
    ghost use Rattle.meaning_group.specs.Rows.{GroupsValue};

    ghost Value = { GroupsValue };

    ghost view = { λ g. record { count = g.count; codes = g.codes } };

    ghost invariant = { λ g. All (IsPlaceOf g.count) g.codes };
}

impl Groups {
    /// Groups of these codes, each of which is below the count. Takes no memory.
    pub fn of(count: usize, codes: Gaps) -> Groups
        requires { All (IsPlaceOf count) codes }
        ensures { result ≡ record { count = count; codes = codes } }
    {
        Groups { count, codes }
    }

    /// How many groups there are. Takes no memory.
    pub fn count(&self) -> usize
        ensures { result ≡ self.now.count }
    {
        self.count
    }

    /// How many rows there are. Takes no memory.
    pub fn rows(&self) -> usize
        ensures { result ≡ length self.now.codes }
    {
        self.codes.len()
    }

    /// The group of a row, counted from 0, if it has one. Takes no memory.
    pub fn code(&self, row: usize) -> Option<usize>
        requires { row < length self.now.codes }
        ensures code { slice_get self.now.codes row ≡ Some result }
        ensures below { IsPlaceOf self.now.count result }
    {
        *self.codes.at(row)
    }

    /// The group of each row. Takes no memory.
    pub fn codes(&self) -> &Gaps
        ensures codes { result.now ≡ self.now.codes }
        ensures below { All (IsPlaceOf self.now.count) result.now }
    {
        &self.codes
    }
}
