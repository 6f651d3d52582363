//! What forms on objects answer: definitions alone, in `specs/`, over values that are scalars or whole tables, in which a text
//! is the text itself.
#![tactic(auto)]
