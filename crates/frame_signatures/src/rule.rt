// The rule of binding.
ghost use Rattle.std.specs.Prelude.{List};
ghost use Rattle.frame_store.specs.tables.Value.{NamedGiven};
ghost use Rattle.meaning_call.specs.declared.Parameter.{Parameter};
ghost use Rattle.meaning_call.specs.Binding.{bound_of};
ghost use Rattle.frame_signatures.specs.Rule.{IsBinding};

/// The rule of binding, for every signature and the arguments of every call. It does nothing; the words
/// of its clause stand in `specs/Rule.antt`.
///
/// Each argument has one place: without a name the number of those without a name before it, with a
/// name the place of the parameter of that name. Arguments are bound exactly where the place of each
/// is a parameter that takes it, no two have one place, no parameter that is required lacks its
/// argument, and each is among the values that its parameter lists. Then the argument whose place it
/// is stands at each place, else what stands for it. Where an argument isn't listed and all else holds
/// the refusal is `NotListed`, otherwise `NotTaken`.
#[tactic(auto, using(crate::proofs::RuleLaws::bound_by_rule))]
pub fn binds_by_place()
    ensures { (ps : List Parameter) (gs : List NamedGiven) → IsBinding ps gs (bound_of ps gs) }
{}
