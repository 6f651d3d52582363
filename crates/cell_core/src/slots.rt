// The texts of a dictionary in one buffer, and how they are found.
ghost use Rattle.std.specs.Prelude.{◌≡◌, ◌<◌, [], length, nat_eq, slice_index_or, IfOk, IfErr};
ghost use Rattle.std.proofs.Common.{rules};
ghost use Rattle.std.specs.Cmp.Rules.{comparing, hashing};
ghost use Rattle.std.specs.Hash as fed;
ghost use Rattle.cell_core.specs.Pieces.{IsBuffer};
ghost use Rattle.cell_core.specs.Keys.{text_hash, IsFree};
ghost use Rattle.cell_core.specs.Slots.{keys_of, texts_of, starts_of, AreSlots};

use indexmap::IndexSet;
use std::hash::{BuildHasher, BuildHasherDefault, FoldHasher, Hash, Hasher};

/// A text: the key under which it is found, and where its bytes start. The next text, or the end of the buffer, ends
/// it. Both numbers stand side by side, since who looks for a text reads both.
#[derive(Clone, Copy)]
pub(crate) struct Slot {
    pub(crate) key: u64,
    pub(crate) start: usize,
}

// Slots are equal where their keys are.
impl PartialEq for Slot {
    ghost eq = { λ a b. nat_eq a.key b.key };

    ghost laws = { Prim.search (comparing, rules) };

    fn eq(&self, other: &Slot) -> bool {
        self.key == other.key
    }
}

impl Eq for Slot {
    ghost laws = { Prim.search (comparing, rules) };
}

impl Hash for Slot {
    ghost hash_input = { λ s. fed.u64 s.key };

    ghost respects_eq = { Prim.search (hashing, rules) };

    fn hash<H: Hasher>(&self, state: &mut H) {
        self.key.hash(state);
    }
}

// Where the text at a place starts, or the end past the last one.
fn start_of(slots: &[Slot], place: usize, end: usize) -> usize
    ensures { result ≡ slice_index_or (starts_of slots.now) place end }
{
    match slots.get(place) {
        Some(slot) => slot.start,
        None => end,
    }
}

/// The text at a place, and the empty text past the last one. Takes no memory.
pub(crate) fn text_at<'a>(bytes: &'a str, slots: &[Slot], place: usize) -> &'a str
    requires { IsBuffer (starts_of slots.now) bytes.now }
    ensures { result.now ≡ slice_index_or (texts_of bytes.now slots.now) place [] }
{
    if slots.len() <= place {
        return "";
    }
    let start = start_of(slots, place, 0);
    let end = start_of(slots, place + 1, bytes.len());
    &bytes[start..end]
}

fn hash_of(text: &str) -> u64
    ensures { result ≡ text_hash text.now }
{
    BuildHasherDefault::<FoldHasher>::new().hash_one(text)
}

/// The place of a text, or the key under which it may be put in: its hash, or the first number after it that is no
/// text's key. Takes no memory.
pub(crate) fn find(bytes: &str, slots: &IndexSet<Slot>, text: &str) -> Result<usize, u64>
    requires { AreSlots bytes.now slots.now.keys }
    ensures within { IfOk result (λ place. place < length slots.now.keys) }
    ensures found { IfOk result (λ place.
        slice_index_or (texts_of bytes.now slots.now.keys) place [] ≡ text.now) }
    ensures free { IfErr result (λ key.
        IsFree (texts_of bytes.now slots.now.keys) (keys_of slots.now.keys) text.now key) }
{
    let hash = hash_of(text);
    for attempt in 0..slots.len() as u64 + 1 {
        let key = hash.wrapping_add(attempt);
        let Some(place) = slots.get_index_of(&Slot { key, start: 0 }) else {
            return Err(key);
        };
        if text_at(bytes, slots.as_slice(), place) == text {
            return Ok(place);
        }
    }
    // Of more keys than there are slots one is free.
    unreachable!()
}
