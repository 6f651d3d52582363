// Arguments that are bound to a signature.
ghost use Rattle.frame_signatures.specs.Filled.{AreFilled};

use frame_store::Named;
use meaning_call::Parameter;

/// The arguments of a call that are bound to the parameters of a signature, as [`bind`](crate::bind)
/// gives them. In contracts they are the arguments of their definition, in the order of the signature
/// (`given_in`).
///
/// Each place is read by the function of what its parameter takes. Where the parameter always has a
/// scalar, a whole number and so on, since it must be given or has such a default and `None` isn't taken,
/// that is [`whole`](Bound::whole) and the like; a contract asks for such a parameter. Else it is
/// [`scalar_or_none`](Bound::scalar_or_none) and the like.
#[derive(Clone, Copy)]
pub struct Bound<'a> {
    pub(crate) parameters: &'a [Parameter],
    pub(crate) args: &'a [Named],
    ghost filled: { ∥ AreFilled parameters.now args.now ∥₁ },
}
