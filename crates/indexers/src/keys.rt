// Keys, and what they pick.
ghost use Rattle.std.specs.Prelude.{◌≡◌, None, false};
ghost use Rattle.indexers.specs.declared.keys.KeyFault.TheVariants as fault;

use cell_core::{ListOf, NoMemory, Places, Rows, Tuple, Tuples};

/// Positions, counted from the end where they are negative.
pub type Positions = ListOf<i64>;

/// A key of `loc`.
#[derive(Drop)]
pub enum LocKey {
    /// `:`, all rows.
    All,
    /// A tuple of leading labels.
    One(Tuple),
    /// A list of full tuples.
    Many(Tuples),
    /// A slice between two tuples of leading labels, both ends included. A bound that isn't given is an end.
    Span(Option<Tuple>, Option<Tuple>),
}

/// A key of `iloc`.
#[derive(Drop)]
pub enum PosKey {
    /// A position.
    One(i64),
    /// A list of positions.
    Many(Positions),
    /// A slice: the first position, the position before which it ends, and the step.
    Span(Option<i64>, Option<i64>, Option<i64>),
}

/// What a key picks.
#[derive(Drop)]
pub struct Picked {
    /// The rows, in the order in which they are picked. A row may stand several times.
    pub places: Places,
    /// Whether a scalar key picked a single row.
    pub single: bool,
    /// How many leading levels the answer loses.
    pub dropped: usize,
    /// The rows as places at equal distances, where the key is `:` or a slice.
    pub span: Option<Rows>,
}

impl Picked {
    /// What a list picked.
    pub fn listed(places: Places) -> Picked
        ensures { result ≡ record { places = places; single = false; dropped = 0; span = None } }
    {
        Picked {
            places,
            single: false,
            dropped: 0,
            span: None,
        }
    }
}

/// Why a key picks no rows.
#[derive(Drop)]
pub enum KeyFault {
    /// No row has the labels, or they bound a slice on several levels that aren't in order.
    NotThere(Tuple),
    /// The bound of a slice stands more than once, and the rows aren't in order.
    BoundNotUnique(Tuple),
    /// The position, as it is written, names none of so many rows.
    OutOfRange(i64, usize),
    /// The row's label stands not exactly once in the mask.
    NoMaskLabel(Tuple),
    /// The step of a slice by positions is 0.
    StepZero,
    /// Memory was refused.
    NoMemory,
}

impl From<NoMemory> for KeyFault {
    ghost from_gives = { λ _ made. made ≡ fault.NoMemory };

    fn from(_: NoMemory) -> KeyFault {
        KeyFault::NoMemory
    }
}
