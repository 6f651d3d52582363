// How the rows of two frames are to meet.
use asof_merge::Direction;
use cell_core::{Cell, Cells};

/// How the rows of two frames are to meet.
#[derive(Drop)]
pub struct Asof {
    /// The label of the columns whose cells are the keys.
    pub on: Cell,
    /// The labels of the columns whose cells are equal in rows that meet.
    pub by: Cells,
    /// How far apart keys may be, if there is an end to it.
    pub tolerance: Option<u64>,
    /// On which side of its own key a row looks.
    pub direction: Direction,
}
