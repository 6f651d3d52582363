//! Lists of columns on the views of a pool.
//!
//! A [`Manager`] is a list of columns, each of which stands on a view of a pool, where several
//! columns of one kind may stand side by side. Its rows or columns may be taken as another manager
//! that shares their cells; setting cells then separates what is shared, so that no other manager
//! sees it. Contracts see the views and the places of the columns on them, and the columns
//! themselves in the value of the pool.
//!
//! ```text
//! let mut manager = Manager::new(alloc);
//! if manager.put_column(&mut pool, 0, price.into_block()).is_err() {
//!     return Err(NoMemory);
//! }
//! let back = manager.slice(&mut pool, Rows { start: 2, step: -1, count: 3 })?;
//! back.release(&mut pool);
//! ```
#![tactic(auto)]

mod groups;
mod layout;
mod manager;
mod planning;
mod setting;
mod spots;
mod views;

pub use manager::Manager;
