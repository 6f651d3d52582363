//! Objects and their tables.
//!
//! A [`Store`] keeps a whole table for each live object. A new object is added from its axis, its
//! headings and its blocks, or derived as rows and columns of another; the table of an object may
//! then be changed in place. Contracts see the store as a finite map from live objects to tables:
//! each call changes the table of the named object alone, and a refusal, which is want of memory,
//! leaves every table as it was.
//!
//! [`last_value_stays`] says what setting cells leaves.
//!
//! The columns of all objects lie on the blocks of one pool. `derive` and `derive_behind` share the cells of an object and
//! copy none; setting cells first separates the columns that it changes, so that no other object sees it.
//!
//! A form makes a [`Table`], of its own or as [`table_under`] does, and hands it to [`placed`], which gives it an object.
//! A form whose answer has the columns of an object as they are makes no table: it says in a [`Derivation`] which they
//! are and under which labels, and [`derived`] has the store derive it. New columns before them are an [`Extension`],
//! for [`derived_behind`].
//!
//! ```text
//! let mut price = Column::new(alloc, Kind::Int64);
//! price.push(Cell::Int(7))?;
//! let mut headings = Headings::new(alloc, None);
//! headings.push(Some(Label::Text(name)))?;
//! let mut blocks = Blocks::new(alloc);
//! blocks.push(price.into_block())?;
//! let mut store = Store::new(alloc);
//! let id = store.add(Shape::Series, Axis::range(alloc, 1)?, headings, blocks)?;
//! let first = store.read(id).cell(0, 0);
//! ```
#![tactic(auto)]

mod arguments;
mod blocks;
mod columns;
mod derivations;
mod fault;
mod given;
mod headings;
mod laws;
mod live;
mod made;
mod object;
mod store;
mod table;
mod values;

pub use arguments::{Argument, Entries, Item, Items, Named, NamedList, Selector, Subscript, Value};
pub use blocks::Blocks;
pub use derivations::{Derivation, Extension, derived, derived_behind};
pub use fault::OpFault;
pub use headings::Headings;
pub use laws::last_value_stays;
pub use made::{headings_named, headings_of, placed, series_table, table_under};
pub use object::{ObjId, ObjRef};
pub use store::Store;
pub use table::Table;
