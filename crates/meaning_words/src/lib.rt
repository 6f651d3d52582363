//! The words of a command line and the demonstration: definitions, in `specs/`, which the contracts of the words cite.
//!
//! ```text
//! words_read       what the words of a command line are, read from left to right
//! demo_size        how many orders a demonstration is asked for
//! orders_file      the file of the demonstration
//! demo_script      its script
//! ```
#![tactic(auto)]
