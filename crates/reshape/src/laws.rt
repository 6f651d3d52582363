// A law of the definitions that the clauses of unstacking and stacking rest on. The function does nothing.
ghost use Rattle.factorize.specs.group.Keys.{tuple_rules};
ghost use Rattle.meaning_shapes.specs.Stacking.{StacksBack};

/// Where no two rows have the same labels, `stack` of what `unstack` gives is, without its gaps, the Series in the order of
/// its labels.
pub fn stacks_back()
    ensures { StacksBack tuple_rules.same tuple_rules.less }
{}
