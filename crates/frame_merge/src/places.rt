// The place of a key column among the keys.
ghost use Rattle.std.specs.Prelude.{◌≡◌, Some, nat_eq, slice_get, is_some, IfSome};
ghost use Rattle.std.specs.List.{position_or_len};
ghost use Rattle.frame_labels.specs.method.Merge.{is_key};

use cell_core::Places;

// The first place among the keys at which a column stands, if it is one.
#[tactic(auto, using(crate::proofs::Hints::key_at))]
pub(crate) fn key_at(keys: &Places, column: usize) -> Option<usize>
    ensures key { is_some result ≡ is_key keys.now column }
    ensures place { IfSome result (λ place. position_or_len (nat_eq column) keys.now ≡ place) }
    ensures found { IfSome result (λ place. slice_get keys.now place ≡ Some column) }
{
    for place in 0..keys.len() {
        if column == *keys.at(place) {
            return Some(place);
        }
    }
    None
}
