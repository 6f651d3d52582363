//! What cells, columns, operators and faults mean: definitions alone, in `specs/`, which the contracts of all crates cite.
#![tactic(auto)]
