// The rows that a mask keeps.
ghost use Rattle.std.specs.Prelude.{◌≡◌, ◌<◌, ◌∷◌, [], map, length, slice_index_or, IfOk, All};
ghost use Rattle.cell_core.specs.declared.cell.Kind.TheVariants.{Boolean};
ghost use Rattle.index_core.specs.pick.Masks.{kept_rows};
ghost use Rattle.multi_index.specs.Axes.{HaveLevels, single_tuples};
ghost use Rattle.indexers.specs.Masks.{is_true};
ghost use Rattle.indexers.specs.Picks.{PicksBy, as_it_is, mask_rows, cell_at, cell_there, rows_by_tuple};

use crate::keys::KeyFault;
use cell_core::{Cell, Label, NoMemory, Places, Tuple};
use column_core::ColRef;
use index_core::LabelRows;
use multi_index::Axis;
use row_keys::{LevelRows, find_partners};
use std::alloc::Global;

/// The rows that a mask keeps, in order ("Boolean indexing" in the pandas user guide): those whose cell of the mask is
/// True. A missing cell counts as False. Where the mask's axis has the same tuples of labels in the same rows it works by
/// position; else each row takes the mask's cell at its tuple. Labels meet by the numbers of their texts, and axes with
/// different numbers of levels have no tuple in common.
///
/// # Errors
///
/// `NoMaskLabel` exactly where the axes differ and a row's tuple stands not exactly once in the mask, with the first such
/// tuple. `NoMemory` may come in place of any answer.
pub fn mask_places(
    alloc: Global,
    axis: &Axis,
    mask_axis: &Axis,
    mask: ColRef<'_>,
) -> Result<Places, KeyFault>
    requires truths { mask.kind ≡ Boolean }
    requires cells { length mask.cells ≡ length mask_axis.now.tuples }
    ensures rows { PicksBy as_it_is result (mask_rows axis.now mask_axis.now mask.entry.cells) }
    ensures inside { IfOk result (All (λ row. row < length axis.now.tuples)) }
{
    if axis.same_labels(mask_axis) {
        return Ok(kept_rows(alloc, mask)?);
    }
    kept_elsewhere(alloc, axis, mask_axis, mask)
}

// The rows whose tuple the mask keeps.
fn kept_elsewhere(
    alloc: Global,
    axis: &Axis,
    mask_axis: &Axis,
    mask: ColRef<'_>,
) -> Result<Places, KeyFault>
    requires { length mask.cells ≡ length mask_axis.now.tuples }
    ensures { PicksBy as_it_is result
        (rows_by_tuple mask_axis.now.tuples mask.entry.cells axis.now.tuples) }
{
    let levels = axis.levels();
    let mask_levels = mask_axis.levels();
    if levels != mask_levels {
        return kept_nowhere(alloc, axis);
    }
    if levels == 1 {
        return kept_by_label(alloc, axis, mask_axis, mask);
    }
    kept_by_tuple(alloc, axis, mask_axis, mask)
}

// The rows that a mask without rows keeps.
fn kept_nowhere(alloc: Global, axis: &Axis) -> Result<Places, KeyFault>
    ensures { PicksBy as_it_is result (rows_by_tuple [] [] axis.now.tuples) }
{
    if axis.len() == 0 {
        return Ok(Places::new(alloc));
    }
    Err(KeyFault::NoMaskLabel(axis.tuple(alloc, 0)))
}

// Whether a cell is True.
fn is_true(cell: Cell) -> bool
    ensures { result ≡ is_true cell }
{
    matches!(cell, Cell::Bool(true))
}

// The rows whose cell of the mask is True.
fn kept_rows(alloc: Global, mask: ColRef<'_>) -> Result<Places, NoMemory>
    ensures { IfOk result (λ rows. rows ≡ kept_rows (map is_true mask.entry.cells)) }
{
    let mut rows = Places::new(alloc);
    for row in 0..mask.len() {
        if is_true(mask.cell(row)) {
            rows.push(row)?;
        }
    }
    Ok(rows)
}

// Whether the mask keeps a label, which must stand there once.
fn keeps(
    alloc: Global,
    labels: &LabelRows<'_>,
    mask: &ColRef<'_>,
    label: Label,
) -> Result<bool, KeyFault>
    requires { length mask.now.cells ≡ length labels.now }
    ensures { PicksBy as_it_is result
        (cell_at (single_tuples labels.now) mask.now.cells (label ∷ [])) }
{
    match labels.only_row(label) {
        Some(row) => Ok(is_true(mask.cell(row))),
        None => Err(KeyFault::NoMaskLabel(Tuple::of(alloc, &[label]))),
    }
}

// The rows whose label the mask keeps, where both axes have one level.
fn kept_by_label(
    alloc: Global,
    axis: &Axis,
    mask_axis: &Axis,
    mask: ColRef<'_>,
) -> Result<Places, KeyFault>
    requires level { length axis.now.names ≡ 1 }
    requires alike { HaveLevels 1 axis.now.tuples }
    requires mask_level { length mask_axis.now.names ≡ 1 }
    requires cells { length mask.cells ≡ length mask_axis.now.tuples }
    ensures { PicksBy as_it_is result
        (rows_by_tuple mask_axis.now.tuples mask.entry.cells axis.now.tuples) }
{
    let labels = mask_axis.rows_by_label(alloc)?;
    let mut rows = Places::new(alloc);
    for row in 0..axis.len() {
        if keeps(alloc, &labels, &mask, axis.label(row, 0))? {
            rows.push(row)?;
        }
    }
    Ok(rows)
}

// Whether the mask keeps a row, whose tuple must stand once in it: at these rows.
fn keeps_at(
    alloc: Global,
    axis: &Axis,
    row: usize,
    mask: &ColRef<'_>,
    found: &[usize],
) -> Result<bool, KeyFault>
    requires row { row < length axis.now.tuples }
    requires found { All (λ place. place < length mask.now.cells) found.now }
    ensures { PicksBy as_it_is result
        (cell_there (slice_index_or axis.now.tuples row []) mask.now.cells found.now) }
{
    if found.len() != 1 {
        return Err(KeyFault::NoMaskLabel(axis.tuple(alloc, row)));
    }
    Ok(is_true(mask.cell(found[0])))
}

// The rows whose tuple the mask keeps, where the tuples of both axes are numbered together.
fn kept_by_tuple(
    alloc: Global,
    axis: &Axis,
    mask_axis: &Axis,
    mask: ColRef<'_>,
) -> Result<Places, KeyFault>
    requires alike { HaveLevels (length axis.now.names) mask_axis.now.tuples }
    requires cells { length mask.cells ≡ length mask_axis.now.tuples }
    ensures { PicksBy as_it_is result
        (rows_by_tuple mask_axis.now.tuples mask.entry.cells axis.now.tuples) }
{
    let found = find_partners(alloc, axis, mask_axis, axis.levels())?;
    let mut rows = Places::new(alloc);
    for row in 0..axis.len() {
        if keeps_at(alloc, axis, row, &mask, found.rows(row))? {
            rows.push(row)?;
        }
    }
    Ok(rows)
}
