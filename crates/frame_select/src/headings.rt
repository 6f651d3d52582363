// Headings, and those that stand again. Texts are told apart by their numbers.
ghost use Rattle.std.specs.Prelude.{◌≡◌, [], ◌∷◌, None, length, IfOk, IfErr};
ghost use Rattle.cell_core.specs.declared.code.Code.TheVariants.{BadValue};
ghost use Rattle.cell_core.specs.declared.code.Reason.TheVariants.{Repeated};
ghost use Rattle.frame_store.specs.declared.fault.OpFault.TheVariants.{Refused};
ghost use Rattle.frame_select.specs.Headings.{NamesRepeated, shared_heading, HaveFirstPlaces, AreRepeated};

use cell_core::{Code, Grid, Label, NoMemory, Reason, Tuple};
use frame_store::{Headings, ObjRef, OpFault};
use indexmap::{IndexMap, IndexSet};
use std::alloc::Global;

/// Where the headings of an object stand.
#[derive(Drop)]
pub(crate) struct HeadingPlaces {
    /// The first column of each heading.
    pub first: IndexMap<Option<Label>, usize>,
    /// The headings of several columns.
    pub repeated: IndexSet<Option<Label>>,
}

// Where the headings of an object stand.
pub(crate) fn heading_places(alloc: Global, on: &ObjRef<'_>) -> Result<HeadingPlaces, NoMemory>
    requires { length on.now.headings ≡ length on.now.columns }
    ensures first { IfOk result (λ places.
        HaveFirstPlaces places.first.entries 0 on.now.headings) }
    ensures repeated { IfOk result (λ places.
        AreRepeated places.repeated.keys 0 on.now.headings) }
{
    let mut first = IndexMap::new(alloc);
    let mut repeated = IndexSet::new(alloc);
    for place in (0..on.columns()).rev() {
        let heading = on.heading(place);
        if first.insert(heading, place)?.is_some() {
            repeated.insert(heading)?;
        }
    }
    Ok(HeadingPlaces { first, repeated })
}

// The first of these headings that stands again, at a later place or among others.
fn first_shared(
    alloc: Global,
    headings: &[Option<Label>],
    others: &[Option<Label>],
) -> Result<Option<Label>, NoMemory>
    ensures { IfOk result (λ found. found ≡ shared_heading headings.now others.now) }
{
    let mut later = IndexSet::new(alloc);
    for heading in others {
        later.insert(*heading)?;
    }
    let mut shared = None;
    for place in (0..headings.len()).rev() {
        if !later.insert(headings[place])? {
            shared = headings[place];
        }
    }
    Ok(shared)
}

/// These headings, and the name that the columns have together. `NoMemory` is the only refusal.
pub fn heading_list(
    alloc: Global,
    columns_name: Option<Label>,
    headings: &[Option<Label>],
) -> Result<Headings, NoMemory>
    ensures { IfOk result (λ made. made
        ≡ record { columns_name = columns_name; labels = headings.now }) }
{
    let mut made = Headings::new(alloc, columns_name);
    for heading in headings {
        made.push(*heading)?;
    }
    Ok(made)
}

/// The fault of a label that stands several times where each may stand once.
pub fn repeated_label(alloc: Global, label: Label) -> OpFault
    ensures { result ≡ Refused (BadValue (Repeated (label ∷ []))) }
{
    OpFault::Refused(Code::BadValue(Reason::Repeated(Tuple::of(alloc, &[label]))))
}

/// Tests that none of these headings stands again, at a later place or among others.
///
/// At most one heading of a table is missing, that of a Series without a name. A missing heading
/// that stands again has no label to be named: it isn't refused, and nothing behind it is looked at.
///
/// # Errors
///
/// `BadValue(Repeated)` of the first one that does. `NoMemory` may come in place of any answer.
pub fn expect_unshared(
    alloc: Global,
    headings: &[Option<Label>],
    others: &[Option<Label>],
) -> Result<(), OpFault>
    ensures none { IfOk result (λ done. shared_heading headings.now others.now ≡ None) }
    ensures refused { IfErr result (λ fault.
        NamesRepeated fault (shared_heading headings.now others.now)) }
{
    match first_shared(alloc, headings, others)? {
        Some(label) => Err(repeated_label(alloc, label)),
        None => Ok(()),
    }
}
