//! What a script is: definitions alone, in `specs/`, which the contracts of the readers and of runs cite.
#![tactic(auto)]
