// What `pd.Series` makes.
ghost use Rattle.std.specs.Prelude.{Some, IfOk};
ghost use Rattle.column_core.specs.cells.Cell.{AreGiven, IsLonger};
ghost use Rattle.frame_store.specs.tables.Settled.{IsSettled};
ghost use Rattle.frame_store.specs.tables.Table.{heading_value};
ghost use Rattle.frame_parts.specs.form.Make as make;
ghost use Rattle.frame_parts.specs.Makes.{column_seen, MakesBy};
ghost use Rattle.frame_store.specs.Shown.{Makes};
ghost use Rattle.frame_signatures.specs.Scalars.{scalars};
ghost use Rattle.frame_make.specs.Index.{index_given, GivesLevels};
ghost use Rattle.frame_make.specs.Made as meant;

use crate::axes::index_axis;
use crate::scalars::scalar_column;
use cell_core::{Kind, Label, TextDict};
use column_core::Column;
use frame_parts::column_of;
use frame_store::{Item, OpFault, Table, series_table};
use nullable_array::cast;
use std::alloc::Global;

// The column as one of the kind.
fn cast_column(
    alloc: Global,
    dict: &mut TextDict,
    column: &Column,
    kind: Kind,
) -> Result<Column, OpFault>
    requires { AreGiven dict.old column.now.cells }
    ensures longer { IsLonger dict.old dict.new }
    ensures given { IfOk result (λ c. AreGiven dict.new c.cells) }
    ensures answer { MakesBy column_seen dict.new result
        (make.cast_to (Some kind) (column_seen dict.old column.now)) }
{
    column_of(cast(alloc, dict, column.as_ref(), kind))
}

// The column with its cells cast to the kind; where there is none, as it is.
#[tactic(auto, using(frame_store::proofs::Settling::longer_self))]
fn cast_to(
    alloc: Global,
    dict: &mut TextDict,
    column: Column,
    kind: Option<Kind>,
) -> Result<Column, OpFault>
    requires { AreGiven dict.old column.cells }
    ensures longer { IsLonger dict.old dict.new }
    ensures given { IfOk result (λ c. AreGiven dict.new c.cells) }
    ensures answer { MakesBy column_seen dict.new result
        (make.cast_to kind (column_seen dict.old column)) }
{
    match kind {
        None => Ok(column),
        Some(kind) => cast_column(alloc, dict, &column, kind),
    }
}

// The Series of the scalars.
pub(crate) fn series_of(
    alloc: Global,
    dict: &mut TextDict,
    values: &[Item],
    index: Option<&[Item]>,
    name: Option<Label>,
    kind: Option<Kind>,
) -> Result<Table, OpFault>
    requires values { IsSettled scalars dict.old values.now }
    requires index { IsSettled index_given dict.old index }
    requires levels { GivesLevels index }
    requires name { IsSettled heading_value dict.old name }
    ensures longer { IsLonger dict.old dict.new }
    ensures answer { Makes dict.new result (meant.series_with (scalars dict.old values.now)
        (index_given dict.old index.entry)
        (heading_value dict.old name) kind) }
{
    let listed = scalar_column(alloc, values)?;
    let column = cast_to(alloc, dict, listed, kind)?;
    let axis = index_axis(alloc, dict, index, column.as_ref().len(), 1)?;
    Ok(series_table(alloc, axis, name, column)?)
}
