// Rows grouped by the cells of columns, and what is made of the groups.
ghost use Rattle.std.specs.Prelude.{◌≡◌, ℕ, true, List, length, All, IfOk};
ghost use Rattle.column_core.specs.cells.Cell.{AreGiven};
ghost use Rattle.cell_core.specs.declared.cell.Kind.TheVariants.{Int64};

use cell_core::{Kind, Label, NoMemory, TextDict, Tuple, Tuples};
use column_core::{ColRef, Column, cell_of_number};
use factorize::{Codes, KeyColumns, KeyGroups, factorize, group_by_keys};
use group_by::{GroupOp, group_reduce};
use std::alloc::Global;
use std::process::Abort;

fn numbers(alloc: Global, values: &[Option<i64>]) -> Result<Column, NoMemory>
    ensures kind { IfOk result (λ c. c.kind ≡ Int64) }
    ensures given { IfOk result (λ c. (texts : List (List ℕ)) → AreGiven texts c.cells) }
{
    let mut column = Column::new(alloc, Kind::Int64);
    for value in values {
        column.push(cell_of_number(*value))?;
    }
    Ok(column)
}

pub(crate) fn has_cells(found: ColRef<'_>, wanted: &[Option<i64>]) -> bool {
    if found.len() != wanted.len() {
        return false;
    }
    for row in 0..wanted.len() {
        if found.cell(row) != cell_of_number(wanted[row]) {
            return false;
        }
    }
    true
}

pub(crate) fn have_rows(columns: &[ColRef<'_>], rows: usize) -> bool
    ensures { result ≡ true → All (λ column. length column.cells ≡ rows) columns.now }
{
    for column in columns {
        if column.len() != rows {
            return false;
        }
    }
    true
}

// The columns of these numbers.
pub(crate) fn columns_of(
    alloc: Global,
    values: &[&[Option<i64>]],
) -> Result<Vec<Column>, NoMemory> {
    let mut columns = Vec::new(alloc);
    for column in values {
        columns.push(numbers(alloc, column)?)?;
    }
    Ok(columns)
}

fn keyed(
    rt: &impl Abort,
    alloc: Global,
    dict: &TextDict,
    columns: &[Column],
    sorted: bool,
) -> Result<KeyGroups, NoMemory> {
    assert!(rt; 1 <= columns.len());
    let rows = columns[0].as_ref().len();
    let mut borrowed = Vec::new(alloc);
    for column in columns {
        borrowed.push(column.as_ref())?;
    }
    let keys: &[ColRef<'_>] = &borrowed;
    assert!(rt; 1 <= keys.len());
    assert!(rt; have_rows(keys, rows));
    group_by_keys(alloc, dict, &KeyColumns::of(keys, rows), sorted, true)
}

// What a reduction makes of the groups of these keys, in order of first sight.
fn assert_reduced(
    rt: &impl Abort,
    alloc: Global,
    keys: &[&[Option<i64>]],
    values: &[Option<i64>],
    op: GroupOp,
    wanted: &[Option<i64>],
) -> Result<(), NoMemory> {
    let dict = TextDict::new(alloc);
    let columns = columns_of(alloc, keys)?;
    let grouped = keyed(rt, alloc, &dict, &columns, false)?;
    let column = numbers(alloc, values)?;
    let cells = column.as_ref();
    assert!(rt; grouped.groups.rows() == cells.len());
    match group_reduce(alloc, &dict, &grouped.groups, cells, op) {
        Ok(made) => assert!(rt; has_cells(made.as_ref(), wanted)),
        Err(_) => panic!(rt; "refused"),
    }
    Ok(())
}

// As `df.groupby(["g", "h"], sort=False)["v"].sum()`.
#[test]
fn keys_stand_by_sight(rt: HostRuntime) -> Result<(), NoMemory> {
    let alloc = rt.alloc();
    let g = [Some(8), Some(3), None, Some(8)];
    let h = [Some(1), Some(1), Some(2), Some(1)];
    let v = [None, Some(5), Some(7), None];
    let five: [&[Option<i64>]; 5] = [&g, &g, &g, &g, &h];
    assert_reduced(&rt, alloc, &[&g, &h], &v, GroupOp::Sum, &[Some(0), Some(5)])?;
    assert_reduced(&rt, alloc, &[&g], &v, GroupOp::Max, &[None, Some(5)])?;
    assert_reduced(&rt, alloc, &five, &v, GroupOp::Count, &[Some(0), Some(1)])?;
    Ok(())
}

fn has_codes(codes: &Codes, wanted: &[Option<usize>; 3]) -> bool {
    codes.len() == 3
        && codes.code(0) == wanted[0]
        && codes.code(1) == wanted[1]
        && codes.code(2) == wanted[2]
}

// Whether 7, NA and 5 have these codes.
fn are_codes(
    alloc: Global,
    sorted: bool,
    dropna: bool,
    wanted: &[Option<usize>; 3],
) -> Result<bool, NoMemory> {
    let dict = TextDict::new(alloc);
    let mut keys = Tuples::new(alloc);
    keys.push(Tuple::of(alloc, &[Label::Int(7)]))?;
    keys.push(Tuple::of(alloc, &[Label::Na]))?;
    keys.push(Tuple::of(alloc, &[Label::Int(5)]))?;
    let codes = factorize(alloc, &dict, &keys, sorted, dropna)?;
    let count = if dropna { 2 } else { 3 };
    Ok(codes.keys().len() == count && has_codes(&codes, wanted))
}

// As `pd.factorize(keys, sort=.., use_na_sentinel=..)`.
#[test]
fn tuples_have_codes(rt: HostRuntime) {
    for (sorted, dropna, wanted) in [
        (true, true, [Some(1), None, Some(0)]),
        (true, false, [Some(1), Some(2), Some(0)]),
        (false, true, [Some(0), None, Some(1)]),
        (false, false, [Some(0), Some(1), Some(2)]),
    ] {
        assert!(rt; are_codes(rt.alloc(), sorted, dropna, &wanted) == Ok(true));
    }
}
