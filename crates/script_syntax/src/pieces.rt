// Bytes to scripts.
ghost use Rattle.std.specs.Prelude.{◌≡◌, ◌<◌, ◌≤◌, ◌^◌, ◌+◌, [], ◌∷◌, ◌++◌, length, Result, IfOk};
ghost use Rattle.script_tokens.specs.language.Script.{most_bytes};
ghost use Rattle.script_tree.specs.ScriptView.{statements_of};
ghost use Rattle.script_syntax.specs.Parsed.{IsParsed};
ghost use Rattle.script_syntax.specs.PieceRead.{IsPieceRead, IsSettled};

use crate::forms::statement;
use crate::refusal::Refusal;
use cell_core::NoMemory;
use script_tokens::{is_blank, line_ends, piece_len, tokens};
use script_tree::{Action, Script, Statement};
use std::alloc::Global;

const MOST_BYTES: usize = 1 << 20;

const MOST_STATEMENTS: usize = 10_000;

/// Why there is no script.
#[derive(Clone, Copy, Debug, PartialEq, Eq)]
pub enum ParseFault {
    /// The bytes are no script; the line, counted from 1, on which the first piece begins that isn't right.
    SyntaxAt(u64),
    /// There are more than 2^20 bytes.
    TooLarge,
    /// Memory was refused.
    NoMemory,
}

impl From<NoMemory> for ParseFault {
    ghost use Rattle.std.specs.Prelude.{◌≡◌};
    ghost use Rattle.script_syntax.specs.declared.pieces.ParseFault.TheVariants.{NoMemory};

    ghost from_gives = { λ _ fault. fault ≡ NoMemory };

    fn from(_: NoMemory) -> Self {
        ParseFault::NoMemory
    }
}

// What one piece of a text is.
#[derive(Drop)]
pub(crate) enum PieceRead {
    Blank,
    Statement(Action),
    Wrong,
}

/// The script that the bytes are.
///
/// `TooLarge` comes exactly beyond 2^20 bytes. `SyntaxAt` comes exactly where at most 2^20 bytes are no script: the
/// text is cut into pieces at the line feeds at which no more brackets were opened than closed, and the line is that
/// on which the first piece begins that is neither blank nor a statement of which 10,000 or fewer stand up to there.
pub fn parse(alloc: Global, bytes: &[u8]) -> Result<Script, ParseFault>
    ensures { IsParsed bytes.now result }
{
    if bytes.len() > MOST_BYTES {
        return Err(ParseFault::TooLarge);
    }
    parse_pieces(alloc, bytes)
}

// The script that the bytes are, piece by piece.
#[tactic(auto, using(crate::proofs::Hints::parse_pieces))]
fn parse_pieces(alloc: Global, bytes: &[u8]) -> Result<Script, ParseFault>
    requires { length bytes.now ≤ most_bytes }
    ensures { IsParsed bytes.now result }
{
    let mut script = Script::new(alloc);
    let mut left = MOST_STATEMENTS;
    let mut line: u64 = 1;
    let mut rest = bytes;
    'pieces: while !rest.is_empty() {
        let (piece, after) = rest.split_at(piece_len(rest));
        left = settle(&mut script, left, line, read_piece(alloc, piece)?)?;
        line += line_ends(piece) as u64;
        rest = after;
    }
    Ok(script)
}

// Adds the statement of a piece, where so many may still come, and says how many may come after it.
fn settle(script: &mut Script, left: usize, line: u64, read: PieceRead) -> Result<usize, ParseFault>
    ensures { IsSettled left line read (statements_of script.old)
        (statements_of script.new) result }
{
    match read {
        PieceRead::Blank => Ok(left),
        PieceRead::Wrong => Err(ParseFault::SyntaxAt(line)),
        PieceRead::Statement(action) => {
            if left == 0 {
                drop(action);
                return Err(ParseFault::SyntaxAt(line));
            }
            script.push(Statement { line, action })?;
            Ok(left - 1)
        }
    }
}

// What a piece is.
fn read_piece(alloc: Global, piece: &[u8]) -> Result<PieceRead, NoMemory>
    ensures { IfOk result (λ read. IsPieceRead piece.now read) }
{
    let Ok(text) = std::str::from_utf8(piece) else {
        return Ok(PieceRead::Wrong)
    };
    if is_blank(piece) {
        return Ok(PieceRead::Blank);
    }
    let Some(tokens) = tokens(alloc, text)? else {
        return Ok(PieceRead::Wrong)
    };
    match statement(alloc, &tokens) {
        Ok(action) => Ok(PieceRead::Statement(action)),
        Err(Refusal::Syntax) => Ok(PieceRead::Wrong),
        Err(Refusal::NoMemory) => Err(NoMemory),
    }
}
