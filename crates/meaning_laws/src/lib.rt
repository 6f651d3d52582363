//! Laws of what tables and forms mean: each form makes valid tables of valid ones, no form's fault is that a file isn't
//! there, and a table with a column that a name stands for has no more rows than were charged. Laws alone, in `proofs/`.
#![tactic(auto)]
