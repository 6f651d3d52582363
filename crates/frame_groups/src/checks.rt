// What is tested before the cells of a new table are made, and the table of what was made.
ghost use Rattle.std.specs.Prelude.{◌≡◌, ◌≤◌, ◌^◌, true, false, List, length, map, All, IsSome, IfOk, OnOk};
ghost use Rattle.column_core.specs.cells.Text.{Text};
ghost use Rattle.frame_store.specs.tables.Table.{Table as MeantTable};
ghost use Rattle.frame_store.specs.tables.Valid.{AreHeadings};
ghost use Rattle.frame_store.specs.Parts.{block_column, table_of, IsSingle, HaveRows};
ghost use Rattle.frame_groups.specs.Tables.{shape_if, headings_if, HasHeadings, MayShow};

use cell_core::{Code, Label, Shape};
use frame_parts::within_limits;
use frame_select::heading_list;
use frame_store::{Blocks, Headings, OpFault, Table};
use multi_index::Axis;
use std::alloc::Global;

// The headings of a new table of so many rows, whose columns have these labels: a Series where it is single. What is
// beyond the limits is refused.
#[tactic(auto, using(crate::proofs::Hints::new_headings))]
pub(crate) fn new_headings(
    alloc: Global,
    columns_name: Option<Label>,
    labels: &[Option<Label>],
    single: bool,
    rows: usize,
) -> Result<Headings, OpFault>
    requires one { single ≡ true → length labels.now ≡ 1 }
    requires labelled { single ≡ false → All IsSome labels.now }
    ensures may { (texts : List Text) (t : MeantTable) → HasHeadings texts labels.now rows t
        → MayShow texts result single t }
    ensures made { IfOk result (λ made. made ≡ headings_if single columns_name labels.now) }
    ensures fit { IfOk result (λ made.
        AreHeadings (shape_if single) made.columns_name made.labels) }
    ensures few { OnOk result (rows ≤ 2 ^ 26) }
{
    if !within_limits(rows, labels.len()) {
        return Err(OpFault::Refused(Code::Limit));
    }
    let name = if single { None } else { columns_name };
    Ok(heading_list(alloc, name, labels)?)
}

// The shape of a table that is single or not.
fn shape_if(single: bool) -> Shape
    ensures { result ≡ shape_if single }
{
    if single { Shape::Series } else { Shape::Frame }
}

// The table of these parts: a Series where it is single.
pub(crate) fn new_table(single: bool, axis: Axis, headings: Headings, blocks: Blocks) -> Table
    requires single { All IsSingle blocks }
    requires rows { HaveRows (length axis.tuples) (map block_column blocks) }
    requires headed { length headings.labels ≡ length blocks }
    requires headings { AreHeadings (shape_if single) headings.columns_name headings.labels }
    ensures { result ≡ table_of (shape_if single) axis headings blocks }
{
    Table::new(shape_if(single), axis, headings, blocks)
}
