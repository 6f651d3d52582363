// What forms make of all rows of an object, as plans that the store carries out.
ghost use Rattle.std.specs.Prelude.{ℕ, List, Result, IfOk, OnErr};
ghost use Rattle.cell_core.specs.Texts.{IsLonger};
ghost use Rattle.meaning_tables.specs.cells.Text.{Text};
ghost use Rattle.meaning_tables.specs.cells.Fault.{FaultValue};
ghost use Rattle.meaning_tables.specs.Cost.{free};
ghost use Rattle.meaning_tables.specs.Value.{Entry};
ghost use Rattle.frame_store.specs.Derivations.{derived_table, extended_table, table_by, CanDerive, CanExtend, IsWithin};
ghost use Rattle.frame_store.specs.Objects.{table_on, IsLiveIn, Stays};
ghost use Rattle.frame_store.specs.Shown.{Makes};
ghost use Rattle.frame_store.specs.World.{world, IsSettledWorld, FormsFor};

use crate::arguments::Value;
use crate::blocks::Blocks;
use crate::fault::OpFault;
use crate::headings::Headings;
use crate::object::ObjId;
use crate::store::Store;
use cell_core::{Grid, Places, Rows, Shape, TextDict};
use multi_index::Axis;

/// Columns of an object, of which none is made anew, under an axis and headings.
#[derive(Drop)]
pub struct Derivation {
    /// Whether it is a Series or a frame.
    pub shape: Shape,
    /// The labels of the rows, as many as the object has.
    pub axis: Axis,
    /// A heading for each column.
    pub headings: Headings,
    /// The places of the columns among those of the object.
    pub columns: Places,
}

/// New columns before all columns of an object, under an axis and headings.
#[derive(Drop)]
pub struct Extension {
    /// Whether it is a Series or a frame.
    pub shape: Shape,
    /// The labels of the rows, as many as the object has.
    pub axis: Axis,
    /// A heading for each column.
    pub headings: Headings,
    /// The new columns, each a block of its own.
    pub first: Blocks,
}

/// A new object with the columns of another one that a form names, whose cells it shares, or the form's refusal. The
/// objects are seen through the texts that the dictionary had before the form, which may have added
/// some.
///
/// `NoMemory` may come in place of the object. After a refusal all objects are as they were.
pub fn derived(
    store: &mut Store,
    dict: &TextDict,
    on: ObjId,
    made: Result<Derivation, OpFault>,
) -> Result<Value, OpFault>
    requires live { IsLiveIn store.old on }
    requires fits { IfOk made (CanDerive (table_on store.old on)) }
    ensures answers { (earlier : List Text) (meant : Result Entry FaultValue)
        → IsLonger earlier dict.now → IsSettledWorld (world store.old earlier)
        → Makes dict.now (table_by (derived_table (table_on store.old on)) made) meant
        → FormsFor free result meant (world store.old earlier) (world store.new dict.now) }
    ensures err { OnErr result (Stays store.old store.new) }
{
    let Derivation {
        shape,
        axis,
        headings,
        columns,
    } = made?;
    let rows = Rows {
        start: 0,
        step: 1,
        count: store.read(on).rows(),
    };
    let id = store.derive(on, shape, rows, &columns, axis, headings)?;
    Ok(Value::Object(id))
}

/// A new object with the columns that a form made before those of another one, whose cells it shares, or the form's
/// refusal. Otherwise as [`derived`].
pub fn derived_behind(
    store: &mut Store,
    dict: &TextDict,
    on: ObjId,
    made: Result<Extension, OpFault>,
) -> Result<Value, OpFault>
    requires live { IsLiveIn store.old on }
    requires fits { IfOk made (CanExtend (table_on store.old on)) }
    ensures answers { (earlier : List Text) (meant : Result Entry FaultValue)
        → IsLonger earlier dict.now → IsSettledWorld (world store.old earlier)
        → Makes dict.now (table_by (extended_table (table_on store.old on)) made) meant
        → (cells : ℕ) → IfOk made (IsWithin cells)
        → FormsFor (λ _. cells) result meant (world store.old earlier) (world store.new dict.now) }
    ensures err { OnErr result (Stays store.old store.new) }
{
    let Extension {
        shape,
        axis,
        headings,
        first,
    } = made?;
    let id = store.derive_behind(on, shape, first, axis, headings)?;
    Ok(Value::Object(id))
}
