//! What a run of a script means: definitions alone, in `specs/`, which the contracts of the session cite.
#![tactic(auto)]
