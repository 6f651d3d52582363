// Rows of two sides that meet by their keys, and what stands one below the other.
ghost use Rattle.std.specs.Prelude.{◌≡◌, IfOk};
ghost use Rattle.factorize.specs.multi_index.Axes.{HaveLevels};

use crate::groups::{columns_of, has_cells};
use cell_core::{Cell, Gaps, Kind, Label, NoMemory, Side, TextDict, Tuple, Tuples};
use column_core::{ColRef, Column};
use meaning_join::{How, Validate};
use merge_concat::{MergeFault, Pairs, concat_rows, join_pairs};
use std::alloc::Global;

const NONE_ONCE: Validate = Validate {
    left: false,
    right: false,
};

// Keys of one level.
fn keys(alloc: Global, values: &[Option<i64>]) -> Result<Tuples, NoMemory>
    ensures { IfOk result (λ made. HaveLevels 1 made) }
{
    let mut made = Tuples::new(alloc);
    for value in values {
        let label = match *value {
            Some(number) => Label::Int(number),
            None => Label::Na,
        };
        made.push(Tuple::of(alloc, &[label]))?;
    }
    Ok(made)
}

fn joined(alloc: Global, how: How, once: Validate) -> Result<Pairs, MergeFault> {
    let dict = TextDict::new(alloc);
    let left = keys(alloc, &[Some(1), None, Some(2)])?;
    let right = keys(alloc, &[None, Some(2), Some(2), Some(3)])?;
    join_pairs(alloc, &dict, &left, &right, how, once)
}

pub(crate) fn are(rows: &Gaps, wanted: &[Option<usize>]) -> bool {
    if rows.len() != wanted.len() {
        return false;
    }
    for k in 0..rows.len() {
        if *rows.at(k) != wanted[k] {
            return false;
        }
    }
    true
}

// Whether these rows of the left and of the right side meet.
fn meet(alloc: Global, how: How, left: &[Option<usize>], right: &[Option<usize>]) -> bool {
    match joined(alloc, how, NONE_ONCE) {
        Ok(pairs) => are(&pairs.left, left) && are(&pairs.right, right),
        Err(_) => false,
    }
}

// As `pd.merge(l, r, how=.., on="k")`, where NaN meets NaN and is the last key.
const JOINS: [(How, &[Option<usize>], &[Option<usize>]); 4] = [
    (
        How::Inner,
        &[Some(1), Some(2), Some(2)],
        &[Some(0), Some(1), Some(2)],
    ),
    (
        How::Left,
        &[Some(0), Some(1), Some(2), Some(2)],
        &[None, Some(0), Some(1), Some(2)],
    ),
    (
        How::Right,
        &[Some(1), Some(2), Some(2), None],
        &[Some(0), Some(1), Some(2), Some(3)],
    ),
    (
        How::Outer,
        &[Some(0), Some(2), Some(2), None, Some(1)],
        &[None, Some(1), Some(2), Some(3), Some(0)],
    ),
];

#[test]
fn rows_meet_by_their_keys(rt: HostRuntime) {
    for (how, left, right) in JOINS {
        assert!(rt; meet(rt.alloc(), how, left, right), "on the left {left:?}");
    }
}

// As `validate="one_to_one"`.
#[test]
fn a_key_stands_twice(rt: HostRuntime) {
    let once = Validate {
        left: true,
        right: true,
    };
    match joined(rt.alloc(), How::Inner, once) {
        Err(MergeFault::NotOneToOne(Side::Right, key)) => {
            assert!(rt; key.len() == 1 && key.at(0) == Label::Int(2));
        }
        _ => panic!(rt; "a key of the right side stands twice"),
    }
}

pub(crate) fn borrowed<'a>(
    alloc: Global,
    columns: &'a [Column],
) -> Result<Vec<ColRef<'a>>, NoMemory> {
    let mut parts = Vec::new(alloc);
    for column in columns {
        parts.push(column.as_ref())?;
    }
    Ok(parts)
}

fn put_below(alloc: Global, columns: &[Column]) -> Result<Column, MergeFault> {
    let parts = borrowed(alloc, columns)?;
    concat_rows(alloc, &parts)
}

// As `pd.concat([a, b])` of two Series.
#[test]
fn columns_stand_one_below_the_other(rt: HostRuntime) -> Result<(), NoMemory> {
    let columns = columns_of(rt.alloc(), &[&[Some(4), None], &[Some(6)]])?;
    match put_below(rt.alloc(), &columns) {
        Ok(column) => assert!(rt; has_cells(column.as_ref(), &[Some(4), None, Some(6)])),
        Err(_) => panic!(rt; "refused"),
    }
    Ok(())
}

fn truths(alloc: Global) -> Result<Column, NoMemory> {
    let mut made = Column::new(alloc, Kind::Boolean);
    made.push(Cell::Bool(true))?;
    Ok(made)
}

#[test]
fn columns_of_two_kinds_are_refused(rt: HostRuntime) -> Result<(), NoMemory> {
    let mut columns = columns_of(rt.alloc(), &[&[Some(4), None], &[Some(6)]])?;
    columns.push(truths(rt.alloc())?)?;
    let mixed = put_below(rt.alloc(), &columns);
    assert!(rt; matches!(mixed, Err(MergeFault::MixedKinds)));
    Ok(())
}
