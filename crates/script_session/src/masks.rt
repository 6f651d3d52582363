// Masks of queries.
ghost use Rattle.std.specs.Prelude.{◌≡◌, ◌≤◌, List, Some, None, option_map};
ghost use Rattle.outside_io.specs.Files.{FilesValue};
ghost use Rattle.script_tree.specs.View.{expr_of};
ghost use Rattle.script_state.specs.language.Depth.{depth};
ghost use Rattle.script_state.specs.language.Grammar.{most_depth};
ghost use Rattle.script_state.specs.script.Reading.{at_once};
ghost use Rattle.script_state.specs.cells.Cell.{datum};
ghost use Rattle.script_state.specs.call.Binding.{text_of};
ghost use Rattle.script_state.specs.script.Expression.{chosen, mask_for, names_query, query_text, value_of_name};
ghost use Rattle.frame_store.specs.World.{IsKnownValue, arguments_in, entry_in};
ghost use Rattle.script_state.specs.Evaluates.{moment_of, IsValue, Evaluates};
ghost use Rattle.script_state.specs.Work.{world_of};
ghost use Rattle.script_state.specs.declared.file_names.FileName.{FileName};
ghost use Rattle.script_session.specs.Masks.{frame_in, masked, asked_text, found_text, IsAnswer, IsKnownFrame};

use cell_core::{Cell, Code, TextDict, Words};
use frame_query::{QueryFault, parse_query};
use frame_store::{Argument, NamedList, Selector, Subscript, Value};
use script_state::{EvalFault, Work, evaluated};
use script_tree::Expr;

// The value of a name; in a mask the empty one is the frame's.
pub(crate) fn named(work: &Work, frame: Option<Value>, name: &Words) -> Result<Value, EvalFault>
    requires { IsKnownFrame (world_of work.now) frame }
    ensures { (paths : List FileName) (seen : FilesValue) → let at = moment_of work.now seen in
        let f = frame_in (world_of work.now) frame in
        Evaluates paths (IsAnswer frame (Some name.now)) entry_in
        (λ fs s. at_once (value_of_name name.now ((masked f s).value name.now))) at at result }
{
    match frame {
        None => work.named(name),
        Some(value) => {
            if name.as_str() == "" {
                return Ok(value);
            }
            work.named(name)
        }
    }
}

// Whether an argument of this name is the text of a query.
fn names_query(name: &Option<Words>) -> bool
    ensures { result ≡ names_query name.now }
{
    match name {
        Some(name) => name.as_str() == "expr",
        None => true,
    }
}

// The text that a cell holds, if it is one.
fn text_of(texts: &TextDict, cell: Option<Cell>) -> Option<&str>
    ensures { found_text result ≡ text_of (option_map (datum texts.now) cell) }
{
    match cell {
        Some(Cell::Text(id)) => Some(texts.text(id)),
        Some(Cell::Int(_)) => None,
        Some(Cell::Bool(_)) => None,
        Some(Cell::Na) => None,
        None => None,
    }
}

// The text of a query, its one argument. All else is a `TypeError`.
fn asked_text<'a>(work: &'a Work, args: &NamedList) -> Option<&'a str>
    ensures { asked_text result
        ≡ query_text (arguments_in (world_of work.now) args.now) }
{
    let [argument] = args.as_slice() else {
        return None;
    };
    if !names_query(&argument.name) {
        return None;
    }
    text_of(work.texts(), argument.value.scalar())
}

// The mask that the arguments of a query stand for. What isn't one text is a `TypeError`, and a text that isn't a query a
// `QueryError`.
pub(crate) fn mask_of(work: &Work, args: &NamedList) -> Result<Expr, EvalFault>
    ensures { (paths : List FileName) (seen : FilesValue) → let at = moment_of work.now seen in
        Evaluates paths (λ w x. depth (expr_of x) ≤ most_depth) (λ w x. expr_of x)
        (λ fs s. at_once (mask_for (query_text (arguments_in (world_of work.now) args.now))))
        at at result }
{
    match asked_text(work, args) {
        None => Err(EvalFault::Refused(Code::WrongKind)),
        Some(text) => match parse_query(work.alloc(), text) {
            Ok(mask) => Ok(mask),
            Err(fault) => match fault {
                QueryFault::NotQuery => Err(EvalFault::Refused(Code::BadQuery)),
                QueryFault::NoMemory => Err(EvalFault::NoMemory),
            },
        },
    }
}

// The rows that a mask chooses, which must be an object.
pub(crate) fn rows_of(work: &mut Work, on: Value, mask: Value) -> Result<Value, EvalFault>
    requires on { IsKnownValue (world_of work.old) on }
    requires mask { IsKnownValue (world_of work.old) mask }
    ensures { (paths : List FileName) (seen : FilesValue) → let w = world_of work.old in
        Evaluates paths (IsValue None) entry_in
        (λ fs s. chosen (entry_in w on) (entry_in w mask))
        (moment_of work.old seen) (moment_of work.new seen) result }
{
    match mask {
        Value::Scalar(_) => Err(EvalFault::Refused(Code::WrongKind)),
        Value::Object(_) => {
            let key = Subscript::Key(Argument::One(mask));
            evaluated(work.select(on, Selector::Plain, &key, &None))
        }
    }
}
