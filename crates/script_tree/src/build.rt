// Trees that hold lists, made of their parts.
ghost use Rattle.std.specs.Prelude.{◌≡◌};
ghost use Rattle.script_tokens.specs.language.Tree as tree;
ghost use Rattle.script_tree.specs.View.{expr_of, step_of, arg_of, parts_of, named_parts_of, pair_parts_of, optional_arg, accessor_of, sub_of, optional_sub, optional_expr};

use crate::literal::Accessor;
use crate::parts::{ArgList, ArgPairs, Args};
use crate::tree::{Arg, Expr, Step, Sub};
use cell_core::Words;

/// The list of the parts.
pub fn list_of(parts: ArgList) -> Arg
    ensures { arg_of result ≡ tree.many (tree.parts (parts_of parts)) }
{
    Arg::Many(parts)
}

/// The tuple of the parts.
pub fn tuple_of(parts: ArgList) -> Arg
    ensures { arg_of result ≡ tree.row (tree.parts (parts_of parts)) }
{
    Arg::Row(parts)
}

/// The dictionary of the entries.
pub fn table_of(entries: ArgPairs) -> Arg
    ensures { arg_of result ≡ tree.table (tree.parts (pair_parts_of entries)) }
{
    Arg::Table(entries)
}

/// `pd.name(args)`
pub fn make_of(name: Words, args: Args) -> Expr
    ensures { expr_of result ≡ tree.make name (tree.parts (named_parts_of args)) }
{
    Expr::Make(name, args)
}

/// `.name(args)`
pub fn method_of(name: Words, args: Args) -> Step
    ensures { step_of result ≡ tree.method name (tree.parts (named_parts_of args)) }
{
    Step::Method(name, args)
}

/// `.str.name(args)`
pub fn text_method_of(name: Words, args: Args) -> Step
    ensures { step_of result ≡ tree.text_method name (tree.parts (named_parts_of args)) }
{
    Step::Text(name, args)
}

/// `.groupby(keys)[selection].name(args)`
pub fn group_of(keys: Args, selection: Option<Arg>, name: Words, args: Args) -> Step
    ensures { step_of result
        ≡ tree.group (tree.parts (named_parts_of keys)) (optional_arg selection) name
        (tree.parts (named_parts_of args)) }
{
    Step::Group(keys, selection, name, args)
}

/// `.rolling(window).name(args)`
pub fn rolling_of(window: Args, name: Words, args: Args) -> Step
    ensures { step_of result
        ≡ tree.rolling (tree.parts (named_parts_of window)) name
        (tree.parts (named_parts_of args)) }
{
    Step::Rolling(window, name, args)
}

/// `.expanding(window).name(args)`
pub fn expanding_of(window: Args, name: Words, args: Args) -> Step
    ensures { step_of result
        ≡ tree.expanding (tree.parts (named_parts_of window)) name
        (tree.parts (named_parts_of args)) }
{
    Step::Expanding(window, name, args)
}

/// `.accessor[sub, second]`, where the second subscript may be absent.
pub fn access_of(accessor: Accessor, sub: Sub, second: Option<Sub>) -> Step
    ensures { step_of result
        ≡ tree.access (accessor_of accessor) (sub_of sub) (optional_sub second) }
{
    Step::Access(accessor, sub, second)
}

/// `start:end:stride`, each of which may be absent.
pub fn span_of(start: Option<Arg>, end: Option<Arg>, stride: Option<Expr>) -> Sub
    ensures { sub_of result
        ≡ tree.span (optional_arg start) (optional_arg end) (optional_expr stride) }
{
    Sub::Span(start, end, stride)
}
