//! Files and sinks: sources and destinations whose bytes a contract can name.
//!
//! [`read_whole`] reads a file of any [`Files`], and [`write_piece`] writes to any [`Sink`].
//! [`MemFiles`] and [`MemSink`] tell their bytes to a contract. [`RealFiles`] and [`RealSink`] stand
//! for the machine, whose bytes no contract can know.
//!
//! ```text
//! let mut files = MemFiles::new(alloc);
//! files.hold("orders", b"id,price\n")?;
//! let orders = read_whole(alloc, &mut files, "orders", 1 << 20)?;
//! let mut out = RealSink::over(rt.stdout());
//! write_piece(&mut out, orders.as_slice())?;
//! ```
#![tactic(auto)]

mod calls;
mod files;
mod mem_files;
mod mem_sink;
mod real;
mod shelf;
mod sink;
mod whole;

pub use files::{Fetch, Files, Got};
pub use mem_files::MemFiles;
pub use mem_sink::MemSink;
pub use real::{RealFiles, RealSink};
pub use sink::{Put, Sink, WriteFault, write_piece};
pub use whole::{Bytes, ReadFault, read_whole};
