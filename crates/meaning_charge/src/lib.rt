//! What answers, selections and settings cost, in cells: definitions alone, in `specs/`, which the contracts of settings
//! and of sessions cite. What a method costs stands with the methods, in `meaning_method`.
#![tactic(auto)]
