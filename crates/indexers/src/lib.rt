//! From keys to rows: what a key of `loc`, a key of `iloc` and a mask pick.
//!
//! [`loc_places`], [`listed_places`], [`iloc_places`] and [`mask_places`] answer row numbers and look at no column but
//! a mask's. The rules are those of the pandas user guide, "Indexing and selecting data" and "MultiIndex / advanced
//! indexing"; `meaning_pick` defines them. Axes have one to four levels.
//!
//! ```text
//! let key = LocKey::Span(Some(Tuple::of(alloc, &[Label::Int(2)])), None);
//! let from_two = loc_places(alloc, &dict, &axis, &key)?;
//! let backwards = iloc_places(alloc, axis.len(), &PosKey::Span(None, None, Some(-1)))?;
//! let kept = mask_places(alloc, &axis, &axis, mask.as_ref())?;
//! ```
#![tactic(auto)]

mod faults;
mod keys;
mod labels;
mod lists;
mod masks;
mod positions;
mod spans;

pub use keys::{KeyFault, LocKey, Picked, PosKey, Positions};
pub use labels::loc_places;
pub use lists::listed_places;
pub use masks::mask_places;
pub use positions::iloc_places;
