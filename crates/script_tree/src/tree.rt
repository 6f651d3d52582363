// Statements, as trees.
use crate::literal::{Accessor, Literal, Unary};
use crate::parts::{ArgList, ArgPairs, Args};
use cell_core::Words;
use script_tokens::Binary;

/// A statement.
#[derive(Drop)]
pub struct Statement {
    /// The line of its first token, counted from 1.
    pub line: u64,
    /// What it does.
    pub action: Action,
}

/// What a statement does.
#[derive(Drop)]
pub enum Action {
    /// `import pandas as pd`
    Import,
    /// `name = expr`
    Bind(Words, Expr),
    /// An expression, with a last step, that is set to a value: `expr[..] = arg`.
    Put(Expr, Step, Arg),
    /// `del name`
    DropName(Words),
    /// `del name[expr]`
    DropColumn(Words, Expr),
    /// `print(expr, end=text)`; the text is a line feed where none is given.
    Print(Expr, Words),
}

/// An expression.
#[derive(Drop)]
#[cycle(tree)]
pub enum Expr {
    /// `name`
    Name(Words),
    /// A value that is written out.
    Literal(Literal),
    /// An operator before its operand: `-expr` or `~expr`.
    Unary(Unary, Box<Expr>),
    /// An operator between two operands: `expr + expr`, and so for the others.
    Infix(Binary, Box<Expr>, Box<Expr>),
    /// An expression with a step after it.
    After(Box<Expr>, Box<Step>),
    /// `len(expr)`
    Len(Box<Expr>),
    /// `pd.name(args)`
    Make(Words, Args),
    /// An expression in parentheses.
    Paren(Box<Expr>),
}

/// What stands after an expression.
#[derive(Drop)]
#[cycle(tree)]
pub enum Step {
    /// `[arg]`
    Item(Arg),
    /// `.loc[sub]` or `.loc[sub, sub]`, and so for the other accessors.
    Access(Accessor, Sub, Option<Sub>),
    /// `.name(args)`
    Method(Words, Args),
    /// `.str.name(args)`
    Text(Words, Args),
    /// `.groupby(args)[arg].name(args)`, where `[arg]` may be absent.
    Group(Args, Option<Arg>, Words, Args),
    /// `.rolling(args).name(args)`
    Rolling(Args, Words, Args),
    /// `.expanding(args).name(args)`
    Expanding(Args, Words, Args),
}

/// What an accessor is given for one axis.
#[derive(Drop)]
#[cycle(tree)]
pub enum Sub {
    /// `arg`
    Key(Arg),
    /// `start:end:step`, each of which may be absent.
    Span(Option<Arg>, Option<Arg>, Option<Expr>),
}

/// An argument, or a part of a list.
#[derive(Drop)]
#[cycle(tree)]
pub enum Arg {
    /// `expr`
    Expr(Expr),
    /// A list: `[arg, ..]`.
    Many(ArgList),
    /// A tuple: `(arg, ..)`.
    Row(ArgList),
    /// A dictionary: `{literal: arg, ..}`.
    Table(ArgPairs),
    /// `None`
    Nothing,
}
