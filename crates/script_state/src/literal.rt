// Values that are written out.
ghost use Rattle.std.specs.Prelude.{◌≡◌, IfOk};
ghost use Rattle.meaning_laws.specs.cells.Cell.{datum, IsGiven, IsLonger};
ghost use Rattle.meaning_laws.specs.script.Expression.{cell_of};
ghost use Rattle.script_tree.specs.View.{literal_of};

use cell_core::{Cell, NoMemory, TextDict};
use script_tree::Literal;

// The cell of a literal.
pub(crate) fn cell_of(dict: &mut TextDict, literal: &Literal) -> Result<Cell, NoMemory>
    ensures longer { IsLonger dict.old dict.new }
    ensures value { IfOk result (λ c. datum dict.new c ≡ cell_of (literal_of literal.now)) }
    ensures given { IfOk result (λ c. IsGiven dict.new c) }
{
    match literal {
        Literal::Int(number) => Ok(Cell::Int(*number)),
        Literal::Bool(truth) => Ok(Cell::Bool(*truth)),
        Literal::Text(text) => Ok(Cell::Text(dict.intern(text.as_str())?)),
        Literal::Na => Ok(Cell::Na),
    }
}
