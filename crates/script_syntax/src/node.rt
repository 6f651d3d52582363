// Expressions that grow upwards, within the depth that is allowed.
ghost use Rattle.std.specs.Prelude.{◌≡◌, ◌≤◌};
ghost use Rattle.script_tokens.specs.language.Tree as tree;
ghost use Rattle.script_tokens.specs.language.Depth.{depth, step_depth, arg_depth};
ghost use Rattle.script_tree.specs.View.{expr_of, step_of, arg_of};
ghost use Rattle.script_tokens.specs.View.{binary_of, tokens_of};
ghost use Rattle.script_syntax.specs.Found.{Finds, IsBuilt};
ghost use Rattle.script_syntax.specs.Reading as spec;

use crate::refusal::Refusal;
use script_tokens::{Binary, Token};
use script_tree::{Arg, Expr, Step};
use std::alloc::Global;

// A value, its depth, and what follows it.
pub(crate) type Found<'t, 'a, T> = Result<(T, usize, &'t [Token<'a>]), Refusal>;

// What was read; or the refusal, after the values were let go. At a `?` they would be let go too, but there the
// check takes a tree apart, variant by variant, which costs it minutes in place of seconds.
macro_rules! or_drop {
    ($read:expr, $($value:ident),+) => {
        match $read {
            Ok(found) => found,
            Err(refusal) => {
                $(drop($value);)+
                return Err(refusal);
            }
        }
    };
}

pub(crate) use or_drop;

// An expression with a step after it, each with its depth.
pub(crate) fn after(
    alloc: Global,
    x: (Expr, usize),
    step: (Step, usize),
    room: usize,
) -> Result<(Expr, usize), Refusal>
    requires room { room ≤ 32 }
    requires x_depth { x.1 ≡ depth (expr_of x.0) }
    requires step_depth { step.1 ≡ step_depth (step_of step.0) }
    requires x_fits { x.1 ≤ room }
    requires step_fits { step.1 ≤ room }
    ensures { IsBuilt room result (tree.after (expr_of x.0) (step_of step.0)) }
{
    let (x, x_depth) = x;
    let (step, step_depth) = step;
    let depth = x_depth.max(step_depth) + 1;
    if depth > room {
        drop(x);
        drop(step);
        return Err(Refusal::Syntax);
    }
    let Ok(x) = Box::new(alloc, x) else {
        drop(step);
        return Err(Refusal::NoMemory);
    };
    let step = Box::new(alloc, step)?;
    Ok((Expr::After(x, step), depth))
}

// An operator between two expressions, each with its depth.
pub(crate) fn infix(
    alloc: Global,
    operator: Binary,
    x: (Expr, usize),
    y: (Expr, usize),
    room: usize,
) -> Result<(Expr, usize), Refusal>
    requires room { room ≤ 32 }
    requires x_depth { x.1 ≡ depth (expr_of x.0) }
    requires y_depth { y.1 ≡ depth (expr_of y.0) }
    requires x_fits { x.1 ≤ room }
    requires y_fits { y.1 ≤ room }
    ensures { IsBuilt room result (tree.binary (binary_of operator) (expr_of x.0) (expr_of y.0)) }
{
    let (x, x_depth) = x;
    let (y, y_depth) = y;
    let depth = x_depth.max(y_depth) + 1;
    if depth > room {
        drop(x);
        drop(y);
        return Err(Refusal::Syntax);
    }
    let Ok(x) = Box::new(alloc, x) else {
        drop(y);
        return Err(Refusal::NoMemory);
    };
    let y = Box::new(alloc, y)?;
    Ok((Expr::Infix(operator, x, y), depth))
}

// Whether an argument may stand in a list, in a tuple or as a bound.
#[tactic(auto, unfolding(crate::specs::Reading::is_item))]
pub(crate) fn is_item(arg: &Arg) -> bool
    ensures { result ≡ spec.is_item (arg_of arg.now) }
{
    match arg {
        Arg::Expr(_) | Arg::Row(_) => true,
        Arg::Many(_) | Arg::Table(_) | Arg::Nothing => false,
    }
}

// An argument that must be an item.
#[tactic(auto, unfolding(crate::specs::Reading::as_item, crate::specs::Reading::pick))]
pub(crate) fn as_item<'t, 'a>(arg: Arg, depth: usize, rest: &'t [Token<'a>]) -> Found<'t, 'a, Arg>
    requires { depth ≡ arg_depth (arg_of arg) }
    ensures { Finds arg_of arg_depth depth result (spec.as_item (arg_of arg) (tokens_of rest.now)) }
{
    if !is_item(&arg) {
        drop(arg);
        return Err(Refusal::Syntax);
    }
    Ok((arg, depth, rest))
}

// Whether the value of a step may be set.
#[tactic(auto, unfolding(crate::specs::Reading::is_target))]
pub(crate) fn is_target(step: &Step) -> bool
    ensures { result ≡ spec.is_target (step_of step.now) }
{
    matches!(step, Step::Item(_) | Step::Access(_, _, _))
}
