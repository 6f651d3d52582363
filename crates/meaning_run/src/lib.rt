//! What the words of a command line ask for and what a run of them prints: definitions, in `specs/`, which the contracts of
//! the run cite.
//!
//! ```text
//! asked            what words ask for: help, a demonstration, a script with its names of files, or nothing that is right
//! IsRunResult      what a run of words comes to where files hold these contents
//! ```
#![tactic(auto)]
