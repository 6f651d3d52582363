//! Tests of cells, columns and operators on them, methods of texts, axes and sorts, of the pool and the store, and of
//! printed frames, and of JSON both ways: what no clause says, and what no script reaches.
#![tactic(auto)]

#[cfg(test)]
mod axes;
#[cfg(test)]
mod cells;
#[cfg(test)]
mod columns;
#[cfg(test)]
mod json;
#[cfg(test)]
mod json_read;
#[cfg(test)]
mod kernels;
#[cfg(test)]
mod managers;
#[cfg(test)]
mod picks;
#[cfg(test)]
mod pools;
#[cfg(test)]
mod printed;
#[cfg(test)]
mod sorts;
#[cfg(test)]
mod store;
#[cfg(test)]
mod texts;
