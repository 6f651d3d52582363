// The tokens of a query.
use script_tokens::Token;

/// A token of a query. Words and names are borrowed from the text that was read.
#[derive(Drop)]
pub enum QueryToken<'a> {
    /// A token of a script.
    Plain(Token<'a>),
    /// `@`
    AtSign,
    /// A name between backquotes, without them.
    Quoted(&'a str),
}
