// The values of expressions and arguments. What they make is noted.
ghost use Rattle.std.specs.Prelude.{None};
ghost use Rattle.script_state.specs.language.Tree as tree;
ghost use Rattle.script_state.specs.script.Expression.{named_by, value_by, stepped_by, given_by, part_by, parts_by, pairs_by, arguments_by, sub_by, second_by, brackets_by, bound_by};
ghost use Rattle.script_tree.specs.View.{expr_of, step_of, sub_of as view_sub, arg_of, optional_arg, optional_sub, parts_of, named_parts_of, pair_parts_of};
ghost use Rattle.frame_store.specs.World.{IsKnownValue, IsKnownItem, AreKnownItems, IsKnownArgument, AreKnownPairs, AreKnownArguments, IsKnownSubscript, argument_in, arguments_in, entry_in, subscript_in};
ghost use Rattle.script_session.specs.Parts.{item_in, items_in, pairs_in, AreSubscripts, subscripts_in, AreBrackets, brackets_in};
ghost use Rattle.script_session.specs.Links.{linked};
ghost use Rattle.script_session.specs.Masks.{frame_in, asks, masked, IsAnswer, IsKnownFrame};
ghost use Rattle.script_state.specs.Evaluates.{moment, IsValue, Evaluates};
ghost use Rattle.script_state.specs.Reads.{both_of};
ghost use Rattle.script_state.specs.Work.{world_of};

use crate::link::{Link, Linked};
use crate::masks::{mask_of, named, rows_of};
use crate::words::{copied_name, selector_of};
use cell_core::Code;
use frame_store::{Argument, Entries, Item, Items, Named, NamedList, Selector, Subscript, Value};
use outside_io::Files;
use script_state::{
    EvalFault, FileNames, Work, evaluated, expect_function, expect_str_method, no_attribute,
};
use script_tree::{Arg, ArgList, ArgPairs, Args, Expr, Step, Sub};

/// The value of an expression, its parts from left to right. Where it is the mask of a query, the empty name stands for
/// the frame. The refusal is the first fault of a part or of the whole; [`EvalFault::Input`], where a file can't be read;
/// or want of memory. Names and the objects that were there stay in all cases.
#[cycle(evaluating)]
pub fn evaluate<F: Files>(
    work: &mut Work,
    files: &mut F,
    names: &FileNames,
    frame: Option<Value>,
    expr: &Expr,
) -> Result<Value, EvalFault>
    requires { IsKnownFrame (world_of work.old) frame }
    ensures { let at = moment F.seen in
        let f = frame_in (world_of work.old) frame in
        Evaluates names.now (IsAnswer frame (named_by (expr_of expr.now))) entry_in
        (λ fs s. value_by (asks f fs) fs (masked f s) (expr_of expr.now))
        (at work.old files.old) (at work.new files.new) result }
{
    match expr {
        Expr::Name(name) => named(work, frame, name),
        Expr::Literal(literal) => work.literal(literal),
        Expr::Unary(op, operand) => {
            let value = evaluate(work, files, names, frame, operand)?;
            evaluated(work.sign(*op, value))
        }
        Expr::Infix(op, left, right) => {
            let a = evaluate(work, files, names, frame, left)?;
            let b = evaluate(work, files, names, frame, right)?;
            evaluated(work.infix(*op, a, b))
        }
        Expr::After(object, step) => {
            let on = evaluate(work, files, names, frame, object)?;
            after(work, files, names, frame, on, step)
        }
        Expr::Len(operand) => {
            let value = evaluate(work, files, names, frame, operand)?;
            evaluated(work.length(value))
        }
        Expr::Make(function, args) => {
            let function = expect_function(work.alloc(), function.as_str())?;
            let args = arguments(work, files, names, frame, args)?;
            work.call(files, names, function, &args)
        }
        Expr::Paren(inner) => evaluate(work, files, names, frame, inner),
    }
}

// The value of a step after an object.
#[cycle(evaluating)]
fn after<F: Files>(
    work: &mut Work,
    files: &mut F,
    names: &FileNames,
    frame: Option<Value>,
    on: Value,
    step: &Step,
) -> Result<Value, EvalFault>
    requires on { IsKnownValue (world_of work.old) on }
    requires frame { IsKnownFrame (world_of work.old) frame }
    ensures { let at = moment F.seen in
        let f = frame_in (world_of work.old) frame in
        Evaluates names.now (IsValue None) entry_in
        (λ fs s. stepped_by (asks f fs) fs (masked f s)
        (entry_in (world_of work.old) on) (step_of step.now))
        (at work.old files.old) (at work.new files.new) result }
{
    match step {
        Step::Item(arg) => {
            let key = given(work, files, names, frame, arg)?;
            evaluated(work.select(on, Selector::Plain, &Subscript::Key(key), &None))
        }
        Step::Access(by, first, second) => {
            let (first, second) = subscripts(work, files, names, frame, first, second)?;
            evaluated(work.select(on, selector_of(*by), &first, &second))
        }
        Step::Method(name, args) => {
            if work.is_query(on, name.as_str()) {
                let args = arguments(work, files, names, frame, args)?;
                return asked(work, files, names, frame, on, &args);
            }
            let method = work.expect_method(on, name.as_str())?;
            let args = arguments(work, files, names, frame, args)?;
            evaluated(work.method(on, method, name.as_str(), &args))
        }
        Step::Text(name, args) => {
            work.expect_texts(on)?;
            expect_str_method(work.alloc(), name.as_str())?;
            let args = arguments(work, files, names, frame, args)?;
            evaluated(work.on_texts(on, name.as_str(), &args))
        }
        Step::Group(args, by, name, more) => {
            let call = Link::Groupby.linked(args, by, name, more);
            through(work, files, names, frame, on, call)
        }
        Step::Rolling(args, name, more) => {
            let call = Link::Rolling.linked(args, &None, name, more);
            through(work, files, names, frame, on, call)
        }
        Step::Expanding(args, name, more) => {
            let call = Link::Expanding.linked(args, &None, name, more);
            through(work, files, names, frame, on, call)
        }
    }
}

// What a query of a frame gives. A mask has no query in it.
#[cycle(evaluating)]
fn asked<F: Files>(
    work: &mut Work,
    files: &mut F,
    names: &FileNames,
    frame: Option<Value>,
    on: Value,
    args: &NamedList,
) -> Result<Value, EvalFault>
    requires on { IsKnownValue (world_of work.old) on }
    requires arguments { AreKnownArguments (world_of work.old) args.now }
    ensures { let at = moment F.seen in
        let w = world_of work.old in
        let f = frame_in w frame in
        Evaluates names.now (IsValue None) entry_in
        (λ fs s. asks f fs (masked f s) (entry_in w on) (arguments_in w args.now))
        (at work.old files.old) (at work.new files.new) result }
{
    match frame {
        Some(_) => Err(no_attribute(work.alloc(), "query")),
        None => {
            let mask = mask_of(work, args)?;
            let chosen = evaluate(work, files, names, Some(on), &mask)?;
            rows_of(work, on, chosen)
        }
    }
}

// The value of a call behind `groupby`, `rolling` or `expanding`.
#[cycle(evaluating)]
fn through<F: Files>(
    work: &mut Work,
    files: &mut F,
    names: &FileNames,
    frame: Option<Value>,
    on: Value,
    call: Linked<'_>,
) -> Result<Value, EvalFault>
    requires on { IsKnownValue (world_of work.old) on }
    requires frame { IsKnownFrame (world_of work.old) frame }
    ensures { let at = moment F.seen in
        let f = frame_in (world_of work.old) frame in
        Evaluates names.now (IsValue None) entry_in
        (λ fs s. linked (asks f fs) fs (masked f s) (entry_in (world_of work.old) on) call.entry)
        (at work.old files.old) (at work.new files.new) result }
{
    work.expect_method(on, call.link.name())?;
    let args = arguments(work, files, names, frame, call.args)?;
    let by = brackets(work, files, names, frame, call.by)?;
    let more = arguments(work, files, names, frame, call.more)?;
    let between = call.link.between(&args, &by);
    evaluated(work.chained(on, between, call.name.as_str(), &more))
}

// What stands in the brackets of an accessor.
#[cycle(evaluating)]
pub(crate) fn subscripts<F: Files>(
    work: &mut Work,
    files: &mut F,
    names: &FileNames,
    frame: Option<Value>,
    first: &Sub,
    second: &Option<Sub>,
) -> Result<(Subscript, Option<Subscript>), EvalFault>
    requires { IsKnownFrame (world_of work.old) frame }
    ensures { let at = moment F.seen in
        let f = frame_in (world_of work.old) frame in
        Evaluates names.now AreSubscripts subscripts_in
        (λ fs s. both_of (sub_by (asks f fs) fs (masked f s) (view_sub first.now))
        (second_by (asks f fs) fs (masked f s) (optional_sub second.now)))
        (at work.old files.old) (at work.new files.new) result }
{
    let first = sub(work, files, names, frame, first)?;
    match second {
        Some(second) => {
            let second = sub(work, files, names, frame, second)?;
            Ok((first, Some(second)))
        }
        None => Ok((first, None)),
    }
}

// What an accessor is given for one axis.
#[cycle(evaluating)]
fn sub<F: Files>(
    work: &mut Work,
    files: &mut F,
    names: &FileNames,
    frame: Option<Value>,
    sub: &Sub,
) -> Result<Subscript, EvalFault>
    requires { IsKnownFrame (world_of work.old) frame }
    ensures { let at = moment F.seen in
        let f = frame_in (world_of work.old) frame in
        Evaluates names.now (λ w x. IsKnownSubscript (world_of w) x) subscript_in
        (λ fs s. sub_by (asks f fs) fs (masked f s) (view_sub sub.now))
        (at work.old files.old) (at work.new files.new) result }
{
    match sub {
        Sub::Key(arg) => {
            let key = given(work, files, names, frame, arg)?;
            Ok(Subscript::Key(key))
        }
        Sub::Span(from, to, by) => {
            let from = bound(work, files, names, frame, from)?;
            let to = bound(work, files, names, frame, to)?;
            match by {
                Some(by) => {
                    let by = evaluate(work, files, names, frame, by)?;
                    Ok(Subscript::Span(from, to, Argument::One(by)))
                }
                None => Ok(Subscript::Span(from, to, Argument::Nothing)),
            }
        }
    }
}

// What stands in brackets behind `groupby`, if they are there.
#[cycle(evaluating)]
fn brackets<F: Files>(
    work: &mut Work,
    files: &mut F,
    names: &FileNames,
    frame: Option<Value>,
    arg: &Option<Arg>,
) -> Result<Option<Argument>, EvalFault>
    requires { IsKnownFrame (world_of work.old) frame }
    ensures { let at = moment F.seen in
        let f = frame_in (world_of work.old) frame in
        Evaluates names.now AreBrackets brackets_in
        (λ fs s. brackets_by (asks f fs) fs (masked f s) (optional_arg arg.now))
        (at work.old files.old) (at work.new files.new) result }
{
    match arg {
        Some(arg) => {
            let given = given(work, files, names, frame, arg)?;
            Ok(Some(given))
        }
        None => Ok(None),
    }
}

// An end of a slice; None where it is left out.
#[cycle(evaluating)]
fn bound<F: Files>(
    work: &mut Work,
    files: &mut F,
    names: &FileNames,
    frame: Option<Value>,
    arg: &Option<Arg>,
) -> Result<Argument, EvalFault>
    requires { IsKnownFrame (world_of work.old) frame }
    ensures { let at = moment F.seen in
        let f = frame_in (world_of work.old) frame in
        Evaluates names.now (λ w a. IsKnownArgument (world_of w) a) argument_in
        (λ fs s. bound_by (asks f fs) fs (masked f s) (optional_arg arg.now))
        (at work.old files.old) (at work.new files.new) result }
{
    match arg {
        Some(arg) => given(work, files, names, frame, arg),
        None => Ok(Argument::Nothing),
    }
}

/// The value of an argument: one value, a list, tuples or a dict of such. It is refused as its parts are by
/// [`evaluate`].
#[cycle(evaluating)]
pub fn given<F: Files>(
    work: &mut Work,
    files: &mut F,
    names: &FileNames,
    frame: Option<Value>,
    arg: &Arg,
) -> Result<Argument, EvalFault>
    requires { IsKnownFrame (world_of work.old) frame }
    ensures { let at = moment F.seen in
        let f = frame_in (world_of work.old) frame in
        Evaluates names.now (λ w a. IsKnownArgument (world_of w) a) argument_in
        (λ fs s. given_by (asks f fs) fs (masked f s) (arg_of arg.now))
        (at work.old files.old) (at work.new files.new) result }
{
    match arg {
        Arg::Expr(expr) => {
            let value = evaluate(work, files, names, frame, expr)?;
            Ok(Argument::One(value))
        }
        Arg::Many(parts) => {
            let items = items(work, files, names, frame, parts)?;
            Ok(Argument::Many(items))
        }
        Arg::Row(parts) => {
            let items = items(work, files, names, frame, parts)?;
            Ok(Argument::Row(items))
        }
        Arg::Table(pairs) => {
            let entries = entries(work, files, names, frame, pairs)?;
            Ok(Argument::Table(entries))
        }
        Arg::Nothing => Ok(Argument::Nothing),
    }
}

// A part of a list or a tuple.
#[cycle(evaluating)]
fn item<F: Files>(
    work: &mut Work,
    files: &mut F,
    names: &FileNames,
    frame: Option<Value>,
    arg: &Arg,
) -> Result<Item, EvalFault>
    requires { IsKnownFrame (world_of work.old) frame }
    ensures { let at = moment F.seen in
        let f = frame_in (world_of work.old) frame in
        Evaluates names.now (λ w i. IsKnownItem (world_of w) i) item_in
        (λ fs s. part_by (asks f fs) fs (masked f s) (arg_of arg.now))
        (at work.old files.old) (at work.new files.new) result }
{
    match arg {
        Arg::Expr(expr) => {
            let value = evaluate(work, files, names, frame, expr)?;
            Ok(Item::One(value))
        }
        Arg::Row(parts) => {
            let items = items(work, files, names, frame, parts)?;
            Ok(Item::Row(items))
        }
        Arg::Many(_) | Arg::Table(_) | Arg::Nothing => Err(EvalFault::Refused(Code::WrongKind)),
    }
}

// The parts of a list or a tuple.
#[cycle(evaluating)]
fn items<F: Files>(
    work: &mut Work,
    files: &mut F,
    names: &FileNames,
    frame: Option<Value>,
    parts: &ArgList,
) -> Result<Items, EvalFault>
    requires { IsKnownFrame (world_of work.old) frame }
    ensures { let at = moment F.seen in
        let f = frame_in (world_of work.old) frame in
        Evaluates names.now (λ w l. AreKnownItems (world_of w) l.items.items) items_in
        (λ fs s. parts_by (asks f fs) fs (masked f s) (tree.parts (parts_of parts.now)))
        (at work.old files.old) (at work.new files.new) result }
{
    let mut items = Items::new(work.alloc());
    for i in 0..parts.len() {
        let item = item(work, files, names, frame, parts.at(i))?;
        items.push(item)?;
    }
    Ok(items)
}

// The pairs of a dict.
#[cycle(evaluating)]
fn entries<F: Files>(
    work: &mut Work,
    files: &mut F,
    names: &FileNames,
    frame: Option<Value>,
    pairs: &ArgPairs,
) -> Result<Entries, EvalFault>
    requires { IsKnownFrame (world_of work.old) frame }
    ensures { let at = moment F.seen in
        let f = frame_in (world_of work.old) frame in
        Evaluates names.now (λ w l. AreKnownPairs (world_of w) l.pairs.items) pairs_in
        (λ fs s. pairs_by (asks f fs) fs (masked f s) (tree.parts (pair_parts_of pairs.now)))
        (at work.old files.old) (at work.new files.new) result }
{
    let mut entries = Entries::new(work.alloc());
    for i in 0..pairs.len() {
        let (key, arg) = pairs.at(i);
        let value = given(work, files, names, frame, arg)?;
        let label = work.key(key)?;
        entries.push((label, value))?;
    }
    Ok(entries)
}

// The arguments of a call.
#[cycle(evaluating)]
fn arguments<F: Files>(
    work: &mut Work,
    files: &mut F,
    names: &FileNames,
    frame: Option<Value>,
    args: &Args,
) -> Result<NamedList, EvalFault>
    requires { IsKnownFrame (world_of work.old) frame }
    ensures { let at = moment F.seen in
        let f = frame_in (world_of work.old) frame in
        Evaluates names.now (λ w l. AreKnownArguments (world_of w) l) arguments_in
        (λ fs s. arguments_by (asks f fs) fs (masked f s) (tree.parts (named_parts_of args.now)))
        (at work.old files.old) (at work.new files.new) result }
{
    let mut arguments = NamedList::new(work.alloc());
    for i in 0..args.len() {
        let (name, arg) = args.at(i);
        let value = given(work, files, names, frame, arg)?;
        let name = copied_name(work.alloc(), name)?;
        arguments.push(Named { name, value })?;
    }
    Ok(arguments)
}
