//! What each method of a Series or a frame answers: definitions alone, in `specs/`.
#![tactic(auto)]
