//! Methods of texts: definitions, in `specs/`, which the contracts of text methods cite, and their laws.
//!
//! The rules are those of the pandas user guide, "Working with text data". A text is its list of code points, and white
//! space is Unicode's property White_Space.
//!
//! ```text
//! method_points       what `strip`, `slice` and `zfill` make of code points
//! method_value        what each method makes of a text
//! text_method         what each makes of a column, or why it makes nothing
//! ```
#![tactic(auto)]
