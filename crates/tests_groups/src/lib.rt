//! Tests of groups, joins, as-of merges, concatenations, reshaping and windows, with values from pandas, and of the numbers
//! of keys on which they rest.
#![tactic(auto)]

#[cfg(test)]
mod codes;
#[cfg(test)]
mod groups;
#[cfg(test)]
mod joins;
#[cfg(test)]
mod nearest;
#[cfg(test)]
mod reshapes;
#[cfg(test)]
mod windows;
