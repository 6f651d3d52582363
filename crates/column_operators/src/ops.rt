// The operators, and what each of them does.
ghost use Rattle.std.specs.Prelude.{◌≡◌};
ghost use Rattle.column_core.specs.cells.Operator.{operator_kind, operator_cell};
ghost use Rattle.column_operators.specs.Tasks.{operator_of, task_kind, task_cell};

/// An operator on two operands. NA on either side gives NA, but for `And` and `Or` (pandas user guide, "Nullable
/// Boolean data type", on Kleene's tables).
#[derive(Clone, Copy, Debug, PartialEq, Eq)]
pub enum Operator {
    /// `+`: the sum of whole numbers, which wraps at 64 bits; the one text and then the other.
    Add,
    /// `-`: the difference of whole numbers, which wraps at 64 bits.
    Sub,
    /// `*`: the product of whole numbers, which wraps at 64 bits.
    Mul,
    /// `//`: the quotient of whole numbers, rounded toward minus infinity.
    FloorDiv,
    /// `%`: the rest of that quotient, with the divisor's sign.
    Mod,
    /// `==`: whether two cells of one kind are equal.
    Eq,
    /// `!=`: whether they differ.
    Ne,
    /// `<`: whether the left one is less: numbers by value, False before True, texts by code point.
    Lt,
    /// `<=`: whether the left one is less or equal.
    Le,
    /// `>`: whether the left one is greater.
    Gt,
    /// `>=`: whether the left one is greater or equal.
    Ge,
    /// `&`: Kleene's `and` of truth values, which is False where one side is, also beside NA.
    And,
    /// `|`: Kleene's `or` of truth values, which is True where one side is, also beside NA.
    Or,
    /// `^`: whether two truth values differ.
    Xor,
}

/// Which orders of two values pass.
#[derive(Clone, Copy, Debug)]
pub(crate) struct Relation {
    pub(crate) less: bool,
    pub(crate) equal: bool,
    pub(crate) greater: bool,
}

/// What an operator does.
#[derive(Clone, Copy, Debug)]
pub(crate) enum Task {
    Sum,
    Difference,
    Product,
    Quotient,
    Rest,
    Compare(Relation),
    Both,
    Either,
    OneOf,
}

/// What the operator does.
pub(crate) fn task_of(op: Operator) -> Task
    ensures kind { operator_kind (operator_of op) ≡ task_kind result }
    ensures cell { operator_cell (operator_of op) ≡ task_cell result }
    ensures sum { result ≡ Task.Sum → op ≡ Operator.Add }
{
    match op {
        Operator::Add => Task::Sum,
        Operator::Sub => Task::Difference,
        Operator::Mul => Task::Product,
        Operator::FloorDiv => Task::Quotient,
        Operator::Mod => Task::Rest,
        Operator::Eq => Task::Compare(relation_of(false, true, false)),
        Operator::Ne => Task::Compare(relation_of(true, false, true)),
        Operator::Lt => Task::Compare(relation_of(true, false, false)),
        Operator::Le => Task::Compare(relation_of(true, true, false)),
        Operator::Gt => Task::Compare(relation_of(false, false, true)),
        Operator::Ge => Task::Compare(relation_of(false, true, true)),
        Operator::And => Task::Both,
        Operator::Or => Task::Either,
        Operator::Xor => Task::OneOf,
    }
}

#[inline(always)]
pub(crate) fn relation_of(less: bool, equal: bool, greater: bool) -> Relation
    ensures { result ≡ record { less = less; equal = equal; greater = greater } }
{
    Relation {
        less,
        equal,
        greater,
    }
}
