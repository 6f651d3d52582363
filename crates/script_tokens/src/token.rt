// The tokens of a statement.
use cell_core::Words;

/// An operator between two operands. A minus sign is `Sub`, wherever it stands.
#[derive(Clone, Copy, Debug, PartialEq, Eq)]
pub enum Binary {
    /// `+`
    Add,
    /// `-`
    Sub,
    /// `*`
    Mul,
    /// `//`
    FloorDiv,
    /// `%`
    Mod,
    /// `==`
    Eq,
    /// `!=`
    Ne,
    /// `<`
    Lt,
    /// `<=`
    Le,
    /// `>`
    Gt,
    /// `>=`
    Ge,
    /// `&`
    And,
    /// `|`
    Or,
    /// `^`
    Xor,
}

/// A mark of one byte that is no operator.
#[derive(Clone, Copy, Debug, PartialEq, Eq)]
pub enum Mark {
    /// `=`
    Equals,
    /// `.`
    Dot,
    /// `,`
    Comma,
    /// `:`
    Colon,
    /// `~`
    Tilde,
    /// `(`
    OpenParen,
    /// `)`
    CloseParen,
    /// `[`
    OpenBracket,
    /// `]`
    CloseBracket,
    /// `{`
    OpenBrace,
    /// `}`
    CloseBrace,
}

/// A token. Words are borrowed from the piece that was read.
#[derive(Drop)]
pub enum Token<'a> {
    /// A name or a reserved word.
    Word(&'a str),
    /// A whole number of at most 2^63.
    Int(u64),
    /// A text, without its quotes and escapes.
    Text(Words),
    /// An operator.
    Op(Binary),
    /// A mark.
    Mark(Mark),
}
