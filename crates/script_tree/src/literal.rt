// The parts of trees that hold no trees.
use cell_core::Words;

/// A value that is written out.
#[derive(Drop)]
pub enum Literal {
    /// A whole number, with its sign.
    Int(i64),
    /// `True` or `False`.
    Bool(bool),
    /// A text, without its quotes and escapes.
    Text(Words),
    /// `pd.NA`.
    Na,
}

/// An operator before its operand.
#[derive(Clone, Copy, Debug, PartialEq, Eq)]
pub enum Unary {
    /// `-`
    Minus,
    /// `~`
    Invert,
}

/// What selects by labels or by positions.
#[derive(Clone, Copy, Debug, PartialEq, Eq)]
pub enum Accessor {
    /// `.loc`
    Loc,
    /// `.iloc`
    Iloc,
    /// `.at`
    At,
    /// `.iat`
    Iat,
}
