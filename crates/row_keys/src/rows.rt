// Rows that have keys.
ghost use Rattle.std.specs.Prelude.{◌≡◌, ◌<◌, length, slice_get, Some};
ghost use Rattle.std.specs.List.{zip};

/// A key for each row.
pub trait KeyRows<K> {
    ghost use Rattle.std.specs.Prelude.{List};

    ghost keys: { Self → List K };

    /// How many rows there are.
    fn count(&self) -> usize
        ensures { result ≡ length (keys self.now) };

    /// The key of a row, counted from 0.
    fn key(&self, row: usize) -> K
        requires { row < length (keys self.now) }
        ensures { slice_get (keys self.now) row ≡ Some result };
}

/// A column of labels.
#[derive(Drop)]
pub struct Column<'a, L> {
    /// The label of each row.
    pub labels: &'a [L],
}

impl<'a, L: Copy> KeyRows<L> for Column<'a, L> {
    ghost keys = { λ rows. rows.labels.now };

    fn count(&self) -> usize {
        self.labels.len()
    }

    fn key(&self, row: usize) -> L {
        self.labels[row]
    }
}

/// A column of labels, and for each row the number of its labels at the levels below.
#[derive(Drop)]
pub struct Level<'a, L> {
    /// The label of each row.
    pub labels: &'a [L],
    /// The number of what stands at the levels below.
    pub codes: &'a [usize],
}

impl<'a, L: Copy> KeyRows<(L, usize)> for Level<'a, L> {
    ghost keys = { λ rows. zip rows.labels.now rows.codes.now };

    fn count(&self) -> usize {
        self.labels.len().min(self.codes.len())
    }

    fn key(&self, row: usize) -> (L, usize) {
        (self.labels[row], self.codes[row])
    }
}
