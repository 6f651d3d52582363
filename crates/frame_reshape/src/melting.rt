// `melt`: a row for each value column and each row.
ghost use Rattle.std.specs.Prelude.{◌≡◌, ◌<◌, ◌≤◌, ◌*◌, ◌^◌, ◌++◌, true, List, length, map, replicate, All, IfOk, IfErr, OnOk};
ghost use Rattle.cell_core.specs.declared.grid.Shape.TheVariants.{Frame};
ghost use Rattle.column_core.specs.cells.Text.{Text as OneText};
ghost use Rattle.column_core.specs.cells.Cell.{datum, label_datum, holds, IsLonger};
ghost use Rattle.frame_store.specs.tables.Settled.{IsSettled};
ghost use Rattle.frame_store.specs.tables.Table.{table_value};
ghost use Rattle.frame_store.specs.tables.Valid.{IsWhole};
ghost use Rattle.frame_labels.specs.method.Reshape as meant;
ghost use Rattle.frame_parts.specs.Makes.{MakesBy, column_listed, IsKindOf};
ghost use Rattle.frame_store.specs.Arguments.{object_value, shape_at, IsLiveObject};
ghost use Rattle.frame_store.specs.Objects.{tables, table_at};
ghost use Rattle.frame_store.specs.Parts.{columns_of, table_column, AreColumnsOf, IsSingle};
ghost use Rattle.frame_store.specs.Shown.{headings_value, Makes};
ghost use Rattle.frame_store.specs.World.{world, IsSettledWorld, IsKnownTable};
ghost use Rattle.frame_labels.specs.Named.{stands_in, NamesColumnsAt, FindsPlaces};
ghost use Rattle.frame_reshape.specs.Melts as words;
ghost use Rattle.frame_reshape.specs.Melts.{heading_cells, melted_value, melted_seen, IsMelted};

use crate::checks::{are_of_one_kind, refusal_of, rows_within_limits};
use cell_core::{Cell, Code, Grid, Kind, Label, NoMemory, Places, Shape, TextDict};
use column_core::Column;
use frame_labels::{cell_of, column_label, columns_at, places_besides, told_places};
use frame_parts::{CellList, list_kind};
use frame_select::{heading_list, headings_at};
use frame_signatures::{Bound, arguments};
use frame_store::{Blocks, ObjId, ObjRef, OpFault, Store, Table};
use multi_index::Axis;
use reshape::melt_block;
use std::alloc::Global;

// The columns that stay, and those whose cells become rows.
#[derive(Drop)]
pub(crate) struct Melted {
    pub(crate) kept: Places,
    pub(crate) values: Places,
}

// The columns that become rows: those that are named, or all that don't stay where none are.
fn value_places(
    alloc: Global,
    store: &Store,
    dict: &TextDict,
    bound: &Bound<'_>,
    kept: &Places,
    on: ObjId,
) -> Result<Places, OpFault>
    requires live { IsLiveObject (tables store.now) on }
    requires settled { IsSettledWorld (world store.now dict.now) }
    requires names { NamesColumnsAt (world store.now dict.now) bound.now 1 }
    requires kept { AreColumnsOf (table_at (tables store.now) on.0) kept.now }
    ensures { FindsPlaces dict.now (table_at (tables store.now) on.0) result
        (meant.values_named (object_value (tables store.now) dict.now on) kept.now
        (stands_in (world store.now dict.now) bound.now 1)) }
{
    if bound.is_none(arguments::MELT_VALUE_VARS) {
        return Ok(places_besides(alloc, store.read(on).columns(), kept)?);
    }
    told_places(alloc, store, dict, bound, arguments::MELT_VALUE_VARS, on)
}

// The columns that the arguments name. None stay where none are named, and all others become rows.
pub(crate) fn melted_in(
    alloc: Global,
    store: &Store,
    dict: &TextDict,
    bound: &Bound<'_>,
    on: ObjId,
) -> Result<Melted, OpFault>
    requires live { IsLiveObject (tables store.now) on }
    requires settled { IsSettledWorld (world store.now dict.now) }
    requires ids { NamesColumnsAt (world store.now dict.now) bound.now 0 }
    requires values { NamesColumnsAt (world store.now dict.now) bound.now 1 }
    ensures answer { let w = world store.now dict.now in
        MakesBy melted_seen dict.now result (meant.melted_in (object_value w.tables dict.now on)
        (stands_in w bound.now 0) (stands_in w bound.now 1)) }
    ensures columns { IfOk result (IsMelted (table_at (tables store.now) on.0)) }
{
    let kept = told_places(alloc, store, dict, bound, arguments::MELT_ID_VARS, on)?;
    let values = value_places(alloc, store, dict, bound, &kept, on)?;
    Ok(Melted { kept, values })
}

// The labels of columns, as cells.
#[derive(Drop)]
struct HeadingCells<'a, 'b> {
    on: &'a ObjRef<'b>,
    places: &'a Places,
    ghost there: { AreColumnsOf on.now places.now },
}

impl CellList for HeadingCells<'_, '_> {
    ghost cells = { λ c. heading_cells c.on.now c.places.now };

    fn count(&self) -> usize {
        self.places.len()
    }

    fn cell(&self, place: usize) -> Cell {
        cell_of(column_label(self.on.heading(*self.places.at(place))))
    }
}

// The kind of the labels of the value columns: texts where there is no value column.
fn label_kind(on: &ObjRef<'_>, values: &Places) -> Result<Kind, OpFault>
    requires { AreColumnsOf on.now values.now }
    ensures answer { (texts : List OneText)
        → MakesBy (column_listed (heading_cells on.now values.now)) texts result
        (meant.value_labels (table_value texts on.now) values.now) }
    ensures held { IfOk result (IsKindOf (heading_cells on.now values.now)) }
{
    if values.len() == 0 {
        return Ok(Kind::Text);
    }
    list_kind(&HeadingCells { on, places: values })
}

// Appends a cell so many times.
fn push_times(column: &mut Column, cell: Cell, count: usize) -> Result<(), NoMemory>
    requires { (texts : List OneText) → holds column.old.kind (datum texts cell) ≡ true }
    ensures { OnOk result (column.new ≡ record {
      kind = column.old.kind;
      cells = column.old.cells ++ replicate count cell;
    }) }
{
    for _ in 0..count {
        column.push(cell)?;
    }
    Ok(())
}

// The label of each value column, once for each row.
fn label_column(
    alloc: Global,
    on: &ObjRef<'_>,
    kind: Kind,
    values: &Places,
) -> Result<Column, NoMemory>
    requires values { AreColumnsOf on.now values.now }
    requires held { IsKindOf (heading_cells on.now values.now) kind }
    ensures { IfOk result (λ column. column
        ≡ record { kind = kind; cells = words.label_cells on.now values.now }) }
{
    let labels = HeadingCells { on, places: values };
    let mut column = Column::new(alloc, kind);
    for k in 0..labels.count() {
        push_times(&mut column, labels.cell(k), on.rows())?;
    }
    Ok(column)
}

// So many times one place.
fn repeated(alloc: Global, place: usize, count: usize) -> Result<Places, NoMemory>
    ensures { IfOk result (λ places. places ≡ replicate count place) }
{
    let mut places = Places::new(alloc);
    for _ in 0..count {
        places.push(place)?;
    }
    Ok(places)
}

// A column that stays, once for each value column.
fn kept_column(
    alloc: Global,
    on: &ObjRef<'_>,
    place: usize,
    count: usize,
) -> Result<Column, OpFault>
    requires place { place < length on.now.columns }
    requires count { count * length on.now.labels ≤ 2 ^ 26 }
    ensures column { IfOk result (λ column. table_column column
        ≡ words.kept_column on.now count place) }
    ensures memory { IfErr result (λ fault. fault ≡ OpFault.NoMemory) }
{
    if count == 0 {
        return Ok(Column::new(alloc, on.kind(place)));
    }
    let parts = columns_at(alloc, on, &repeated(alloc, place, count)?)?;
    match melt_block(alloc, &parts) {
        Ok(column) => Ok(column),
        Err(fault) => Err(refusal_of(fault)),
    }
}

// The columns that stay.
fn kept_blocks(alloc: Global, on: &ObjRef<'_>, m: &Melted) -> Result<Blocks, OpFault>
    requires columns { IsMelted on.now m.now }
    requires count { length m.now.values * length on.now.labels ≤ 2 ^ 26 }
    ensures columns { IfOk result (λ made. columns_of made
        ≡ map (words.kept_column on.now (length m.now.values)) m.now.kept) }
    ensures single { IfOk result (All IsSingle) }
    ensures memory { IfErr result (λ fault. fault ≡ OpFault.NoMemory) }
{
    let mut blocks = Blocks::new(alloc);
    for k in 0..m.kept.len() {
        let column = kept_column(alloc, on, *m.kept.at(k), m.values.len())?;
        blocks.push(column.into_block())?;
    }
    Ok(blocks)
}

// The label under which the labels of columns stand: the columns' name, or `variable`.
fn label_heading(dict: &mut TextDict, on: &ObjRef<'_>) -> Result<Label, NoMemory>
    requires { IsKnownTable dict.old on.now }
    ensures longer { IsLonger dict.old dict.new }
    ensures label { IfOk result (λ label. label_datum dict.new label
        ≡ meant.label_heading (table_value dict.old on.now)) }
    ensures given { IfOk result (IsSettled label_datum dict.new) }
{
    match on.columns_name() {
        Some(name) => Ok(name),
        None => Ok(Label::Text(dict.intern("variable")?)),
    }
}

// The headings: those of the columns that stay, that of their labels, and `value`.
fn melted_labels(
    alloc: Global,
    dict: &mut TextDict,
    on: &ObjRef<'_>,
    kept: &Places,
) -> Result<Vec<Option<Label>>, NoMemory>
    requires known { IsKnownTable dict.old on.now }
    requires kept { AreColumnsOf on.now kept.now }
    ensures longer { IsLonger dict.old dict.new }
    ensures labels { let t = table_value dict.old on.now in
        IfOk result (λ made. headings_value dict.new made.items
        ≡ meant.melted_headings t kept.now) }
    ensures given { IfOk result (λ made. IsSettled headings_value dict.new made.items) }
{
    let mut labels = headings_at(alloc, on, kept)?;
    let name = label_heading(dict, on)?;
    let value = dict.intern("value")?;
    labels.push(Some(name))?;
    labels.push(Some(Label::Text(value)))?;
    Ok(labels)
}

// A row for each value column and each row: the cells that stay, the column's label, and its cell.
pub(crate) fn melt(
    alloc: Global,
    dict: &mut TextDict,
    on: &ObjRef<'_>,
    m: &Melted,
) -> Result<Table, OpFault>
    requires known { IsKnownTable dict.old on.now }
    requires shape { on.now.shape ≡ Frame }
    requires columns { IsMelted on.now m.now }
    ensures longer { IsLonger dict.old dict.new }
    ensures answer { Makes dict.new result
        (meant.melt_of (table_value dict.old on.now) (melted_value m.now)) }
{
    let kind = label_kind(on, &m.values)?;
    if !are_of_one_kind(on, &m.values) {
        return Err(OpFault::Refused(Code::WrongKind));
    }
    let labels = melted_labels(alloc, dict, on, &m.kept)?;
    let headings = heading_list(alloc, None, labels.as_slice())?;
    let Some(count) = rows_within_limits(on.rows(), m.values.len(), labels.len()) else {
        return Err(OpFault::Refused(Code::Limit));
    };
    let mut blocks = kept_blocks(alloc, on, m)?;
    blocks.push(label_column(alloc, on, kind, &m.values)?.into_block())?;
    let cells = match melt_block(alloc, &columns_at(alloc, on, &m.values)?) {
        Ok(cells) => cells,
        Err(fault) => return Err(refusal_of(fault)),
    };
    blocks.push(cells.into_block())?;
    let axis = Axis::range(alloc, count)?;
    Ok(Table::new(Shape::Frame, axis, headings, blocks))
}
