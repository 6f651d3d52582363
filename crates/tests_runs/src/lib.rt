//! Tests of runs: files and sinks in memory that fail at each of their calls, files that change, and sessions. Whole
//! scripts that need none of these are the cases in `cases/`.
#![tactic(auto)]

#[cfg(test)]
mod absent;
#[cfg(test)]
mod changing;
#[cfg(test)]
mod fronts;
#[cfg(test)]
mod going;
#[cfg(test)]
mod harness;
#[cfg(test)]
mod report;
#[cfg(test)]
mod session;
#[cfg(test)]
mod trouble;
