//! What a query is, and the mask that it stands for: definitions alone, in `specs/`, which the contracts of the reader of queries and of runs cite.
#![tactic(auto)]
