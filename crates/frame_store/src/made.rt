// What is made of a table: headings and a table that take over from another, a Series of its own, and the object of a form.
ghost use Rattle.std.specs.Prelude.{◌≡◌, ◌∷◌, [], length, List, Result, None, All, IfOk, OnErr};
ghost use Rattle.cell_core.specs.declared.grid.Shape.TheVariants.{Series};
ghost use Rattle.cell_core.specs.Texts.{IsLonger};
ghost use Rattle.meaning_tables.specs.cells.Text.{Text};
ghost use Rattle.meaning_tables.specs.cells.Fault.{FaultValue};
ghost use Rattle.meaning_tables.specs.Valid.{IsWhole};
ghost use Rattle.meaning_tables.specs.Value.{Entry};
ghost use Rattle.frame_store.specs.Objects.{Stays};
ghost use Rattle.frame_store.specs.Parts.{headings_of, headings_with, table_of, table_with, table_column, axis_of, IsSingle};
ghost use Rattle.frame_store.specs.Shown.{Makes};
ghost use Rattle.frame_store.specs.World.{world, IsSettledWorld, Forms};

use crate::arguments::Value;
use crate::blocks::Blocks;
use crate::fault::OpFault;
use crate::headings::Headings;
use crate::object::ObjRef;
use crate::store::Store;
use crate::table::Table;
use cell_core::{Grid, Label, NoMemory, Shape, TextDict};
use column_core::Column;
use multi_index::Axis;
use std::alloc::Global;

/// The headings of a table, for another one. `NoMemory` is the only refusal.
pub fn headings_of(alloc: Global, on: &ObjRef<'_>) -> Result<Headings, NoMemory>
    requires { IsWhole on.now }
    ensures { IfOk result (λ made. made ≡ headings_of on.now) }
{
    headings_named(alloc, on, on.columns_name())
}

/// The headings of a table, for another one, with another name of the columns, or none. `NoMemory` is the only refusal.
pub fn headings_named(
    alloc: Global,
    on: &ObjRef<'_>,
    columns_name: Option<Label>,
) -> Result<Headings, NoMemory>
    requires { IsWhole on.now }
    ensures { IfOk result (λ made. made ≡ headings_with on.now columns_name) }
{
    let mut headings = Headings::new(alloc, columns_name);
    for column in 0..on.columns() {
        headings.push(on.heading(column))?;
    }
    Ok(headings)
}

/// A table of the same shape and with the same axis, under these headings and of these columns.
/// `NoMemory` is the only refusal.
pub fn table_under(
    alloc: Global,
    on: &ObjRef<'_>,
    headings: Headings,
    blocks: Blocks,
) -> Result<Table, NoMemory>
    requires single { All IsSingle blocks }
    requires whole { IsWhole (table_of on.now.shape (axis_of on.now) headings blocks) }
    ensures { IfOk result (λ made. made ≡ table_of on.now.shape (axis_of on.now) headings blocks) }
{
    let axis = on.axis().copy(alloc)?;
    Ok(Table::new(on.shape(), axis, headings, blocks))
}

/// The Series of a column, under an axis and a name if it has one. `NoMemory` is the only refusal.
pub fn series_table(
    alloc: Global,
    axis: Axis,
    name: Option<Label>,
    column: Column,
) -> Result<Table, NoMemory>
    requires { length column.cells ≡ length axis.tuples }
    ensures { IfOk result (λ made. made ≡ table_with Series axis
        record { columns_name = None; labels = name ∷ [] } (table_column column ∷ [])) }
{
    let mut headings = Headings::new(alloc, None);
    headings.push(name)?;
    let mut blocks = Blocks::new(alloc);
    blocks.push(column.into_block())?;
    Ok(Table::new(Shape::Series, axis, headings, blocks))
}

/// A new object with the table that a form made, or the form's refusal. The objects are seen
/// through the texts that the dictionary had before the form, which may have added some.
///
/// `NoMemory` may come in place of the object. After a refusal all objects are as they were.
pub fn placed(
    store: &mut Store,
    dict: &TextDict,
    made: Result<Table, OpFault>,
) -> Result<Value, OpFault>
    ensures answers { (earlier : List Text) (meant : Result Entry FaultValue)
        → IsLonger earlier dict.now → IsSettledWorld (world store.old earlier)
        → Makes dict.now made meant
        → Forms result meant (world store.old earlier) (world store.new dict.now) }
    ensures err { OnErr result (Stays store.old store.new) }
{
    let id = store.insert(made?)?;
    Ok(Value::Object(id))
}
