// What a form makes before it answers.
use cell_core::Cell;
use frame_store::Table;

// A scalar, or a table that is no object yet.
#[derive(Drop)]
pub(crate) enum Made {
    Scalar(Cell),
    Table(Table),
}
