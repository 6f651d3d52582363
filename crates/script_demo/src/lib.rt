//! The demonstration: a script, and the file of orders that it reads.
//!
//! ```text
//! let mut files = DemoFiles::with_orders(alloc, 11)?;
//! let orders = read_whole(alloc, &mut files, ORDERS, 1 << 20)?;
//! ```
#![tactic(auto)]

mod files;
mod orders;
mod size;

pub use files::DemoFiles;
pub use orders::{demo_script, orders_name};
pub use size::demo_size;
