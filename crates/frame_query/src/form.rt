// Masks that are built of their parts.
ghost use Rattle.std.specs.Prelude.{◌≡◌, ◌≤◌, Some};
ghost use Rattle.meaning_query.specs.Reading as spec;
ghost use Rattle.script_tokens.specs.language.Tree as tree;
ghost use Rattle.script_tokens.specs.language.Depth.{depth};
ghost use Rattle.script_tokens.specs.View.{binary_of};
ghost use Rattle.script_tree.specs.View.{expr_of, step_of, unary_of, parts_of};
ghost use Rattle.query_tokens.specs.View.{query_tokens_of};
ghost use Rattle.frame_query.specs.Found.{Gives, Finds};

use crate::fault::QueryFault;
use cell_core::Words;
use query_tokens::QueryToken;
use script_tokens::Binary;
use script_tree::{Arg, ArgList, Args, Expr, Literal, Step, Unary, list_of, method_of};
use std::alloc::Global;

// A mask, with its depth, and how tightly its query binds.
#[derive(Drop)]
pub(crate) struct Form {
    pub(crate) mask: Expr,
    pub(crate) depth: usize,
    pub(crate) level: usize,
}

// A form, and what follows it.
pub(crate) type Found<'t, 'a> = Result<(Form, &'t [QueryToken<'a>]), QueryFault>;

// What was read; or the fault, after the values were let go. At a `?` they would be let go too, but there the
// check takes a tree apart, variant by variant, which costs it minutes in place of seconds.
macro_rules! or_drop {
    ($read:expr, $($value:ident),+) => {
        match $read {
            Ok(found) => found,
            Err(fault) => {
                $(drop($value);)+
                return Err(fault);
            }
        }
    };
}

pub(crate) use or_drop;

// A form no deeper than `room`.
#[tactic(auto, unfolding(meaning_query::specs::Reading::guard, meaning_query::specs::Reading::pick))]
pub(crate) fn guard<'t, 'a>(form: Form, rest: &'t [QueryToken<'a>], room: usize) -> Found<'t, 'a>
    requires { form.depth ≡ depth (expr_of form.mask) }
    ensures { Finds room result
        (spec.guard room (expr_of form.mask) form.level (query_tokens_of rest.now)) }
{
    if form.depth > room {
        drop(form);
        return Err(QueryFault::NotQuery);
    }
    Ok((form, rest))
}

// `frame[name]`, where the frame has no name.
pub(crate) fn column(alloc: Global, name: &str) -> Result<Expr, QueryFault>
    ensures { Gives expr_of result (Some (spec.column_mask name.now)) }
{
    let name = Words::from_text(alloc, name)?;
    let item = Step::Item(Arg::Expr(Expr::Literal(Literal::Text(name))));
    let frame = Box::new(alloc, Expr::Name(Words::new(alloc)))?;
    let item = Box::new(alloc, item)?;
    Ok(Expr::After(frame, item))
}

// An operator before a mask.
pub(crate) fn unary(alloc: Global, sign: Unary, x: Expr) -> Result<Expr, QueryFault>
    ensures { Gives expr_of result (Some (tree.unary (unary_of sign) (expr_of x))) }
{
    Ok(Expr::Unary(sign, Box::new(alloc, x)?))
}

// A mask in parentheses.
pub(crate) fn paren(alloc: Global, x: Expr) -> Result<Expr, QueryFault>
    ensures { Gives expr_of result (Some (tree.paren (expr_of x))) }
{
    Ok(Expr::Paren(Box::new(alloc, x)?))
}

// An operator between two masks.
pub(crate) fn infix(alloc: Global, operator: Binary, x: Expr, y: Expr) -> Result<Expr, QueryFault>
    ensures { Gives expr_of result
        (Some (tree.binary (binary_of operator) (expr_of x) (expr_of y))) }
{
    let Ok(x) = Box::new(alloc, x) else {
        drop(y);
        return Err(QueryFault::NoMemory);
    };
    let y = Box::new(alloc, y)?;
    Ok(Expr::Infix(operator, x, y))
}

// `.isin([..])`
fn isin(alloc: Global, list: ArgList) -> Result<Step, QueryFault>
    ensures { Gives step_of result (Some (spec.isin (parts_of list))) }
{
    let Ok(name) = Words::from_text(alloc, "isin") else {
        drop(list);
        return Err(QueryFault::NoMemory);
    };
    let mut args = Args::new(alloc);
    args.push(None, list_of(list))?;
    Ok(method_of(name, args))
}

// `x.isin([..])`
pub(crate) fn among(alloc: Global, x: Expr, list: ArgList) -> Result<Expr, QueryFault>
    ensures { Gives expr_of result (Some (spec.is_among (expr_of x) (parts_of list))) }
{
    let Ok(x) = Box::new(alloc, x) else {
        drop(list);
        return Err(QueryFault::NoMemory);
    };
    let step = Box::new(alloc, isin(alloc, list)?)?;
    Ok(Expr::After(x, step))
}
