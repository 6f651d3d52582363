//! Methods of another shape: labels of columns as labels of rows, or the other way round.
//!
//! [`method`] answers `stack`, `unstack`, `pivot`, `pivot_table` or `melt` of an object, with the arguments of a script, by a
//! new object. What each answers is its definition on whole tables (`meaning_method/specs/Reshape.antt`).
//!
//! `stack` puts the cells of each row one below the other (`stacking`), `unstack` the labels of a level side by side
//! (`unstacking`, with the table of rows that are spread over columns in `spreading`). `pivot` and `pivot_table` are told
//! which columns have the labels (`told`): the one spreads the rows of the frame, the other those of groups
//! (`pivoting`, `grouping`). `melt` makes a row of each cell (`melting`). Cells are put together by `reshape`; all kinds and
//! labels are tested, and the limits, before a cell is taken (`checks`).
//!
//! ```text
//! // `f.pivot_table(values="total", index="city", columns="item", aggfunc="sum")`
//! let table = method(alloc, &mut store, &mut dict, frame, ReshapeMethod::PivotTable, args.as_slice())?;
//! ```
#![tactic(auto)]

mod calling;
mod checks;
mod grouping;
mod keys;
mod melting;
mod pivoting;
mod spreading;
mod stacking;
mod told;
mod unstacking;

pub use calling::method;
