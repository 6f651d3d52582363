// Names that all parts have, and what else all of them have.
ghost use Rattle.std.specs.Prelude.{◌≡◌, not, map};
ghost use Rattle.std.specs.List.{list_all};
ghost use Rattle.frame_store.specs.tables.Settled.{IsSettled};
ghost use Rattle.frame_store.specs.tables.Table.{heading_value};
ghost use Rattle.meaning_method.specs.Concat as meant;
ghost use Rattle.meaning_method.specs.Concat.{is_series};
ghost use Rattle.meaning_method.specs.join.Concat.{are_equal};
ghost use Rattle.frame_concat.specs.Parts.{name_at, parts_value, same_heading, headings_of_each, repeated_in_any, have_same_levels, AreKnownParts};

use crate::parts::{Naming, Part};
use cell_core::{Grid, Label, Shape, TextDict};
use frame_parts::common_name;

// A name that all parts have.
pub(crate) fn name_of_all(dict: &TextDict, parts: &[Part<'_>], which: Naming) -> Option<Label>
    requires { AreKnownParts dict.now parts.now }
    ensures name { heading_value dict.now result
        ≡ meant.name_of_all (map (name_at which) (parts_value dict.now parts.now)) }
    ensures given { IsSettled heading_value dict.now result }
{
    let [first, others @ ..] = parts else {
        return None;
    };
    let mut name = first.name(which);
    for other in others {
        name = common_name(dict, name, other.name(which));
    }
    name
}

// Whether a part is a Series.
fn is_series(part: &Part<'_>) -> bool
    ensures { result ≡ is_series part.now.shape }
{
    match part.table().shape() {
        Shape::Series => true,
        Shape::Frame => false,
    }
}

// Whether all parts are Series.
pub(crate) fn are_series(parts: &[Part<'_>]) -> bool
    ensures { result ≡ list_all (λ t. is_series t.shape) parts.now }
{
    for part in parts {
        if !is_series(part) {
            return false;
        }
    }
    true
}

// Whether all parts are frames.
pub(crate) fn are_frames(parts: &[Part<'_>]) -> bool
    ensures { result ≡ list_all (λ t. not (is_series t.shape)) parts.now }
{
    for part in parts {
        if is_series(part) {
            return false;
        }
    }
    true
}

// Whether all parts have the headings of the first, one by one.
pub(crate) fn have_same_headings(parts: &[Part<'_>]) -> bool
    ensures { result ≡ are_equal same_heading (headings_of_each parts.now) }
{
    let [first, others @ ..] = parts else {
        return true;
    };
    for other in others {
        if first.headings() != other.headings() {
            return false;
        }
    }
    true
}

// Of the first part that repeats a heading, the first such heading.
pub(crate) fn repeated_in_any(parts: &[Part<'_>]) -> Option<Label>
    ensures { result ≡ repeated_in_any parts.now }
{
    for part in parts {
        if let Some(label) = part.repeated() {
            return Some(label);
        }
    }
    None
}

// Whether all parts have as many levels as the first.
pub(crate) fn have_same_levels(parts: &[Part<'_>]) -> bool
    ensures { result ≡ have_same_levels parts.now }
{
    let [first, others @ ..] = parts else {
        return true;
    };
    let levels = first.table().levels();
    for other in others {
        if levels != other.table().levels() {
            return false;
        }
    }
    true
}
