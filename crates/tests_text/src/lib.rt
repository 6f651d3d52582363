//! Tests of the crates of texts: pieces, fronts and lists of a script, files and sinks.
#![tactic(auto)]

#[cfg(test)]
mod outside;
#[cfg(test)]
mod parts;
#[cfg(test)]
mod pieces;
#[cfg(test)]
mod syntax;
