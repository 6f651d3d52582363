// What is tested before a cell is taken, and a kernel's refusal as that of a form.
ghost use Rattle.std.specs.Prelude.{◌≡◌, ◌*◌, true, false, MatchOption};
ghost use Rattle.frame_store.specs.tables.Valid as valid;
ghost use Rattle.frame_store.specs.Parts.{AreColumnsOf};
ghost use Rattle.frame_reshape.specs.Checks.{kinds_at, are_one, refusal};

use cell_core::{Code, Grid, Places, Reason};
use frame_parts::within_limits;
use frame_store::{ObjRef, OpFault};
use reshape::ReshapeFault;

// Whether these columns are of one kind.
#[tactic(auto, using(crate::proofs::KindLaws::one_kind))]
pub(crate) fn are_of_one_kind(on: &ObjRef<'_>, places: &Places) -> bool
    requires { AreColumnsOf on.now places.now }
    ensures { result ≡ are_one (kinds_at on.now places.now) }
{
    for k in 1..places.len() {
        if on.kind(*places.at(0)) != on.kind(*places.at(k)) {
            return false;
        }
    }
    true
}

// So many rows for each of so many others, if a table of so many columns may have them.
pub(crate) fn rows_within_limits(rows: usize, each: usize, columns: usize) -> Option<usize>
    ensures { MatchOption result (valid.within_limits (rows * each) columns ≡ false)
        (λ count. (count ≡ rows * each) × (valid.within_limits count columns ≡ true)) }
{
    let count = rows.checked_mul(each)?;
    within_limits(count, columns).then_some(count)
}

// The refusal of a kernel.
pub(crate) fn refusal_of(fault: ReshapeFault) -> OpFault
    ensures { result ≡ refusal fault }
{
    match fault {
        ReshapeFault::Duplicates(labels) => {
            OpFault::Refused(Code::BadValue(Reason::Entry(labels)))
        }
        ReshapeFault::MixedKinds => OpFault::Refused(Code::WrongKind),
        ReshapeFault::TooLarge => OpFault::Refused(Code::Limit),
        ReshapeFault::NoMemory => OpFault::NoMemory,
    }
}
