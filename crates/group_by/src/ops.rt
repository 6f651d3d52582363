// The reductions of groups, and why a call is refused.
ghost use Rattle.std.specs.Prelude.{◌≡◌};
ghost use Rattle.group_by.specs.declared.ops.GroupFault.TheVariants.{NoMemory as WantOfMemory};

use cell_core::NoMemory;

/// What is made of the present cells of a group.
#[derive(Clone, Copy, Debug, PartialEq, Eq)]
pub enum GroupOp {
    /// The sum, which wraps at 64 bits; True counts as 1, and 0 is the sum of none.
    Sum,
    /// The least cell; NA where none is present.
    Min,
    /// The greatest cell; NA where none is present.
    Max,
    /// How many there are.
    Count,
    /// The first cell; NA where none is present.
    First,
    /// The last cell; NA where none is present.
    Last,
    /// How many different ones there are.
    Distinct,
}

/// Why a call is refused.
#[derive(Clone, Copy, Debug, PartialEq, Eq)]
pub enum GroupFault {
    /// The operation doesn't take the kind.
    KindMismatch,
    /// Memory was refused.
    NoMemory,
}

impl From<NoMemory> for GroupFault {
    ghost from_gives = { λ _ e. e ≡ WantOfMemory };

    fn from(_: NoMemory) -> GroupFault {
        GroupFault::NoMemory
    }
}
