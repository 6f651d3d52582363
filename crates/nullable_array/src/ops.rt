// What is made of a column's cells, and why a call is refused.
ghost use Rattle.std.specs.Prelude.{◌≡◌};
ghost use Rattle.nullable_array.specs.declared.ops.ArrayFault.TheVariants.{NoMemory as WantOfMemory};

use cell_core::NoMemory;

/// What is made of all present cells of a column.
#[derive(Clone, Copy, Debug, PartialEq, Eq)]
pub enum Reduction {
    /// The sum, which wraps at 64 bits; True counts as 1, and 0 is the sum of none.
    Sum,
    /// The least cell; NA where none is present.
    Min,
    /// The greatest cell; NA where none is present.
    Max,
    /// Whether one of them is True, or a number other than 0.
    Any,
    /// Whether each of them is True, or a number other than 0.
    All,
    /// How many there are.
    Count,
}

/// What is made at each row of the present cells up to it. Where the row's own cell is missing it is NA.
#[derive(Clone, Copy, Debug, PartialEq, Eq)]
pub enum Cumulation {
    /// The sum, which wraps at 64 bits; True counts as 1.
    Sum,
    /// The least cell.
    Min,
    /// The greatest cell.
    Max,
}

/// Why a call is refused.
#[derive(Clone, Copy, Debug, PartialEq, Eq)]
pub enum ArrayFault {
    /// The operation doesn't take the kinds.
    KindMismatch,
    /// The first row with a zero divisor opposite a present dividend.
    ZeroDivision(usize),
    /// The first row whose cell can't be cast.
    NotCast(usize),
    /// Memory was refused.
    NoMemory,
}

impl From<NoMemory> for ArrayFault {
    ghost from_gives = { λ _ e. e ≡ WantOfMemory };

    fn from(_: NoMemory) -> ArrayFault {
        ArrayFault::NoMemory
    }
}
