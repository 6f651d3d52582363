//! What the calls that write and read JSON answer: definitions alone, in `specs/`, which the contracts of `frame_json`
//! cite.
//!
//! ```text
//! JsonCalls   what `df.to_json` answers for a frame, and `pd.read_json` for the bytes of a file
//! ```
#![tactic(auto)]
