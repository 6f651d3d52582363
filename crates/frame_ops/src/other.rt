// What the columns of a table meet.
use cell_core::Cell;
use frame_store::ObjRef;

/// What stands opposite the columns of a table.
#[derive(Drop)]
pub(crate) enum Other<'a> {
    /// A scalar in each row of each column; on the left where this is so.
    Scalar(Cell, bool),
    /// The column at the same place of another table, on the right.
    Beside(ObjRef<'a>),
    /// The cell at the column's place of a Series, in each row; on the left where this is so.
    Across(ObjRef<'a>, bool),
}
