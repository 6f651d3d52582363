//! Settings of Series and frames.
//!
//! [`assign`] sets what stands in brackets or behind an accessor, and [`remove`] takes a column
//! away. Both change the table of one object in place, and no other; a value that is
//! [`NewValue::Moved`] ends with the setting. A setting is read into one change (`changes`),
//! which is tested whole before the first cell: the form of the value (`values`), the places that
//! the keys reach (`targets`), and the cells for them (`filling`) or a whole column (`putting`), of
//! which those of a Series are aligned to the rows (`aligning`). Several columns of one label share what they are set to
//! (`sharing`).
//! A table that grows is made anew and takes the old one's place at the end, so that a refusal
//! leaves all as it was and ends no object. [`values_fit_columns`] says which values fit, and
//! [`touched`] how many columns a setting touches.
//!
//! ```text
//! // `f["price"] = 7`: `price` is a key, the text
//! let value = NewValue::Copied(&seven);
//! assign(alloc, &mut store, &mut dict, frame, Selector::Plain, &price, None, value)?;
//! // `del f["price"]`
//! remove(alloc, &mut store, &dict, frame, Value::Scalar(Cell::Text(name)))?;
//! ```
#![tactic(auto)]

mod aligning;
mod assigning;
mod changes;
mod columns;
mod filling;
mod growing;
mod laws;
mod putting;
mod removing;
mod sharing;
mod targets;
mod touching;
mod values;

pub use assigning::assign;
pub use laws::values_fit_columns;
pub use removing::remove;
pub use touching::touched;
pub use values::NewValue;
