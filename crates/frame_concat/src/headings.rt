// The headings of what is put together.
ghost use Rattle.std.specs.Prelude.{◌≡◌, true, false, IfOk};
ghost use Rattle.std.specs.List.{flat_map};
ghost use Rattle.meaning_method.specs.join.Concat.{united};
ghost use Rattle.frame_concat.specs.Parts.{same_heading, headings_of_each};
ghost use Rattle.frame_concat.specs.Headings.{held_by_all, common_headings, gets_number, numbered};

use crate::parts::Part;
use cell_core::{Label, NoMemory};
use row_keys::{Column, factorize};
use std::alloc::Global;

// Whether all parts have a heading.
fn held_by_all(parts: &[Part<'_>], heading: Option<Label>) -> bool
    ensures { result ≡ held_by_all parts.now heading }
{
    for part in parts {
        if !part.has(heading) {
            return false;
        }
    }
    true
}

// The headings of a part that the others have as well.
fn common_headings(
    alloc: Global,
    first: &Part<'_>,
    others: &[Part<'_>],
) -> Result<Vec<Option<Label>>, NoMemory>
    ensures { IfOk result (λ made. made.items
        ≡ common_headings first.now.headings others.now) }
{
    let mut made = Vec::new(alloc);
    for heading in first.headings() {
        if held_by_all(others, *heading) {
            made.push(*heading)?;
        }
    }
    Ok(made)
}

// The headings of all parts, one part after the other.
fn gathered(alloc: Global, parts: &[Part<'_>]) -> Result<Vec<Option<Label>>, NoMemory>
    ensures { IfOk result (λ made. made.items ≡ flat_map (λ t. t.headings) parts.now) }
{
    let mut made = Vec::new(alloc);
    for part in parts {
        made.extend_from_slice(part.headings())?;
    }
    Ok(made)
}

// The headings of all parts, each once, in the order of first sight.
#[tactic(auto, using(crate::proofs::PartLaws::all_united))]
fn all_headings(alloc: Global, parts: &[Part<'_>]) -> Result<Vec<Option<Label>>, NoMemory>
    ensures { IfOk result (λ made. made.items
        ≡ united same_heading false (headings_of_each parts.now)) }
{
    let headings = gathered(alloc, parts)?;
    let found = factorize(alloc, &Column { labels: &headings })?;
    let mut made = Vec::new(alloc);
    made.extend_from_slice(found.keys.as_slice())?;
    Ok(made)
}

// The headings that any part has, or those that all have.
#[tactic(auto, using(crate::proofs::PlaceLaws::rest_of, crate::proofs::PartLaws::common_united))]
pub(crate) fn united_headings(
    alloc: Global,
    parts: &[Part<'_>],
    inner: bool,
) -> Result<Vec<Option<Label>>, NoMemory>
    ensures { IfOk result (λ made. made.items
        ≡ united same_heading inner (headings_of_each parts.now)) }
{
    if !inner {
        return all_headings(alloc, parts);
    }
    match parts {
        [first, others @ ..] => common_headings(alloc, first, others),
        [] => Ok(Vec::new(alloc)),
    }
}

// Whether a heading is numbered: each is, or one that is missing.
fn gets_number(all: bool, heading: Option<Label>) -> bool
    ensures { result ≡ gets_number all heading }
{
    match heading {
        Some(_) => all,
        None => true,
    }
}

// Headings with numbers from 0 on: in the place of each, or of those that are missing.
fn numbered(
    alloc: Global,
    headings: &[Option<Label>],
    all: bool,
) -> Result<Vec<Option<Label>>, NoMemory>
    ensures { IfOk result (λ made. made.items ≡ numbered all 0 headings.now) }
{
    let mut made = Vec::new(alloc);
    let mut next = 0usize;
    for heading in headings {
        if gets_number(all, *heading) {
            made.push(Some(Label::Int(next as i64)))?;
            next += 1;
        } else {
            made.push(*heading)?;
        }
    }
    Ok(made)
}

// The headings of parts that are put side by side: all are numbered, or those that are missing.
pub(crate) fn headings_beside(
    alloc: Global,
    parts: &[Part<'_>],
    renumbered: bool,
) -> Result<Vec<Option<Label>>, NoMemory>
    ensures { IfOk result (λ made. made.items
        ≡ numbered renumbered 0 (flat_map (λ t. t.headings) parts.now)) }
{
    let headings = gathered(alloc, parts)?;
    numbered(alloc, &headings, renumbered)
}
