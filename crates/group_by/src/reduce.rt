// One cell for each group.
ghost use Rattle.std.specs.Prelude.{◌≡◌, [], length, map, All, IfOk};
ghost use Rattle.cell_core.specs.declared.cell.Kind.{Kind as CellKind};
ghost use Rattle.column_core.specs.cells.Cell.{datum, AreGiven};
ghost use Rattle.column_core.specs.Columns.{column_value};
ghost use Rattle.column_core.specs.Moves.{IsPlaceOf};
ghost use Rattle.factorize.specs.group.Reductions.{group_cell, group_kind, group_takes, reduced_cells};
ghost use Rattle.group_by.specs.Cells.{IsCellOf};
ghost use Rattle.group_by.specs.Gathered.{TakesIn, HaveGathered};
ghost use Rattle.group_by.specs.Operations.{reduction_of};

use crate::cells::column_of;
use crate::choices::{First, Greatest, Last, Least, Number, One};
use crate::distinct::distinct_counts;
use crate::gather::{Chosen, Gather, Total};
use crate::ops::GroupOp;
use cell_core::{Cell, Kind, NoMemory, TextDict};
use column_core::{ColRef, Column};
use factorize::Groups;
use std::alloc::Global;

// Takes a cell into what is gathered of its group.
fn gather_cell<G: Gather>(
    dict: &TextDict,
    gather: &G,
    gathered: &mut [Cell],
    group: Option<usize>,
    cell: Cell,
)
    requires { IsPlaceOf (length gathered.old) group }
    ensures takes { TakesIn G.op dict.now group cell gathered.old gathered.new }
    ensures held { (kind : CellKind) → All (IsCellOf dict.now (group_kind G.op kind)) gathered.old
        → IsCellOf dict.now kind cell
        → All (IsCellOf dict.now (group_kind G.op kind)) gathered.new }
{
    if let Some(group) = group {
        gathered[group] = gather.step(dict, gathered[group], cell);
    }
}

// Takes the cells of all rows into what is gathered of their groups.
fn gather_rows<G: Gather>(
    dict: &TextDict,
    gather: &G,
    gathered: &mut [Cell],
    groups: &Groups,
    a: &ColRef<'_>,
)
    requires rows { length groups.now.codes ≡ length a.now.cells }
    requires given { AreGiven dict.now a.now.cells }
    requires size { length gathered.old ≡ groups.now.count }
    requires start { All (λ c. datum dict.now c ≡ group_cell G.op []) gathered.old }
    requires held { All (IsCellOf dict.now (group_kind G.op a.now.kind)) gathered.old }
    ensures size { length gathered.new ≡ groups.now.count }
    ensures held { All (IsCellOf dict.now (group_kind G.op a.now.kind)) gathered.new }
    ensures value { let cells = map (datum dict.now) a.now.cells in
        HaveGathered G.op dict.now groups.now.codes groups.now.count cells gathered.new }
{
    for row in 0..groups.rows() {
        gather_cell(dict, gather, gathered, groups.code(row), a.cell(row));
    }
}

// What is gathered of the cells of each group, as a column of the kind. It is one pass over the rows.
#[tactic(auto, using(crate::proofs::Hints::gathered))]
pub(crate) fn gathered<G: Gather>(
    alloc: Global,
    dict: &TextDict,
    gather: &G,
    kind: Kind,
    groups: &Groups,
    a: &ColRef<'_>,
) -> Result<Column, NoMemory>
    requires rows { length groups.now.codes ≡ length a.now.cells }
    requires given { AreGiven dict.now a.now.cells }
    requires kind { kind ≡ group_kind G.op a.now.kind }
    ensures given { IfOk result (λ c. AreGiven dict.now c.cells) }
    ensures made { IfOk result (λ c. column_value dict.now c ≡ record {
      kind = kind;
      cells = reduced_cells G.op groups.now (map (datum dict.now) a.now.cells);
    }) }
{
    let mut cells = vec![in alloc; gather.start(); groups.count()]?;
    gather_rows(dict, gather, &mut cells, groups, a);
    column_of(alloc, kind, &cells)
}

// Whether a reduction takes a kind.
pub(crate) fn takes(op: GroupOp, kind: Kind) -> bool
    ensures { result ≡ group_takes (reduction_of op) kind }
{
    !matches!((op, kind), (GroupOp::Sum, Kind::Text))
}

// The kind of what a reduction makes of cells of a kind.
pub(crate) fn kind_of(op: GroupOp, kind: Kind) -> Kind
    ensures { result ≡ group_kind (reduction_of op) kind }
{
    match op {
        GroupOp::Sum | GroupOp::Count | GroupOp::Distinct => Kind::Int64,
        GroupOp::Min | GroupOp::Max | GroupOp::First | GroupOp::Last => kind,
    }
}

// What a reduction makes of the cells of each group, of whatever kind.
pub(crate) fn reduced(
    alloc: Global,
    dict: &TextDict,
    op: GroupOp,
    groups: &Groups,
    a: &ColRef<'_>,
) -> Result<Column, NoMemory>
    requires rows { length groups.now.codes ≡ length a.now.cells }
    requires given { AreGiven dict.now a.now.cells }
    ensures given { IfOk result (λ c. AreGiven dict.now c.cells) }
    ensures made { IfOk result (λ c. column_value dict.now c ≡ record {
      kind = group_kind (reduction_of op) a.now.kind;
      cells = reduced_cells (reduction_of op) groups.now (map (datum dict.now) a.now.cells);
    }) }
{
    let kind = kind_of(op, a.kind());
    match op {
        GroupOp::Sum => gathered(alloc, dict, &Total { of: Number }, kind, groups, a),
        GroupOp::Min => gathered(alloc, dict, &Chosen { by: Least }, kind, groups, a),
        GroupOp::Max => gathered(alloc, dict, &Chosen { by: Greatest }, kind, groups, a),
        GroupOp::Count => gathered(alloc, dict, &Total { of: One }, kind, groups, a),
        GroupOp::First => gathered(alloc, dict, &Chosen { by: First }, kind, groups, a),
        GroupOp::Last => gathered(alloc, dict, &Chosen { by: Last }, kind, groups, a),
        GroupOp::Distinct => distinct_counts(alloc, dict, groups, a),
    }
}
