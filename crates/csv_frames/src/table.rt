// What reading a file gives, and what it is given.
ghost use Rattle.std.specs.Prelude.{◌≡◌};
ghost use Rattle.csv_frames.specs.declared.table.CsvFault.TheVariants.{NoMemory as WantOfMemory};

use cell_core::{Kind, ListOf, NoMemory, TextId, Tuples};
use column_core::Column;

/// Columns.
pub type Columns = ListOf<Column>;

/// The kind that is named for the columns of a label.
#[derive(Clone, Copy, Debug, PartialEq, Eq, Drop)]
pub struct NamedKind {
    /// The label, a text by its number.
    pub label: TextId,
    /// The kind.
    pub kind: Kind,
}

/// Kinds that are named for columns. Where a label is listed twice its last kind counts.
pub type NamedKinds = ListOf<NamedKind>;

/// The columns of a file.
#[derive(Drop)]
pub struct CsvTable {
    /// How many records stand after the header.
    pub rows: usize,
    /// The label of each column, a tuple of its own. All differ.
    pub labels: Tuples,
    /// The columns, with a cell for each row.
    pub columns: Columns,
}

/// Why a file isn't read.
#[derive(Clone, Copy, Debug, PartialEq, Eq, Drop)]
pub enum CsvFault {
    /// The bytes aren't UTF-8: the place of the first byte that isn't part of a text.
    NotUtf8(u64),
    /// There is no record.
    NoColumn,
    /// A record is longer than the header: its number, the length of the header, and its own.
    LongRow(u64, u64, u64),
    /// A field isn't of the kind that is named for its column.
    NotCast,
    /// The file has more than 2^28 bytes, or its table is beyond the limits of tables.
    TooLarge,
    /// Memory was refused.
    NoMemory,
}

impl From<NoMemory> for CsvFault {
    ghost from_gives = { λ _ fault. fault ≡ WantOfMemory };

    fn from(_: NoMemory) -> CsvFault {
        CsvFault::NoMemory
    }
}
