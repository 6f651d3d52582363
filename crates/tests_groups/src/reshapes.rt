// Labels that become columns, and columns whose cells become rows.
ghost use Rattle.std.specs.Prelude.{◌≡◌, length, IfOk};
ghost use Rattle.factorize.specs.multi_index.Axes.{HaveLevels};

use crate::groups::{columns_of, has_cells, have_rows};
use crate::joins::{are, borrowed};
use cell_core::{Label, NoMemory, TextDict, Tuple, Tuples};
use column_core::{ColRef, Column};
use reshape::{ReshapeFault, Spread, melt_block, stack_block, unstack_places};
use std::alloc::Global;
use std::process::Abort;

// Tuples of one label each.
fn single(alloc: Global, labels: &[Label]) -> Result<Tuples, NoMemory>
    ensures levels { IfOk result (λ made. HaveLevels 1 made) }
    ensures count { IfOk result (λ made. length made ≡ length labels.now) }
{
    let mut made = Tuples::new(alloc);
    for label in labels {
        made.push(Tuple::of(alloc, &[*label]))?;
    }
    Ok(made)
}

fn unstacked(
    alloc: Global,
    dict: &TextDict,
    keys: &[Label],
    labels: &[Label],
) -> Result<Spread, ReshapeFault>
    requires { length keys.now ≡ length labels.now }
{
    let rest = single(alloc, keys)?;
    let spread = single(alloc, labels)?;
    unstack_places(alloc, dict, &rest, &spread)
}

fn are_labels(tuples: &Tuples, wanted: &[Label]) -> bool {
    if tuples.len() != wanted.len() {
        return false;
    }
    for k in 0..wanted.len() {
        if tuples.at(k).len() != 1 || tuples.at(k).at(0) != wanted[k] {
            return false;
        }
    }
    true
}

// As `s.unstack()`, where no row has a and 2.
fn gaps_stand(alloc: Global) -> Result<bool, ReshapeFault> {
    let mut dict = TextDict::new(alloc);
    let b = Label::Text(dict.intern("b")?);
    let a = Label::Text(dict.intern("a")?);
    let (one, two) = (Label::Int(1), Label::Int(2));
    let made = unstacked(alloc, &dict, &[b, a, b], &[two, one, one])?;
    Ok(
        are_labels(&made.rows, &[a, b])
            && are_labels(&made.columns, &[one, two])
            && are(&made.places, &[Some(1), None, Some(2), Some(0)]),
    )
}

#[test]
fn labels_become_columns(rt: HostRuntime) {
    assert!(rt; matches!(gaps_stand(rt.alloc()), Ok(true)));
}

// The same, where two rows have a and 1.
fn entry_stands_twice(alloc: Global) -> Result<bool, NoMemory> {
    let mut dict = TextDict::new(alloc);
    let b = Label::Text(dict.intern("b")?);
    let a = Label::Text(dict.intern("a")?);
    let one = Label::Int(1);
    match unstacked(alloc, &dict, &[b, a, a], &[one, one, one]) {
        Err(ReshapeFault::Duplicates(entry)) => {
            Ok(entry.len() == 2 && entry.at(0) == a && entry.at(1) == one)
        }
        _ => Ok(false),
    }
}

#[test]
fn labels_of_two_rows_are_refused(rt: HostRuntime) {
    assert!(rt; matches!(entry_stands_twice(rt.alloc()), Ok(true)));
}

#[tactic(auto, using(crate::proofs::JoinLaws::one_height))]
fn stacked(rt: &impl Abort, alloc: Global, columns: &[Column]) -> Result<Column, ReshapeFault> {
    let parts = borrowed(alloc, columns)?;
    let block: &[ColRef<'_>] = &parts;
    assert!(rt; have_rows(block, 2));
    stack_block(alloc, block)
}

fn melted(alloc: Global, columns: &[Column]) -> Result<Column, ReshapeFault> {
    let parts = borrowed(alloc, columns)?;
    melt_block(alloc, &parts)
}

fn holds(made: Result<Column, ReshapeFault>, wanted: &[Option<i64>]) -> bool {
    match made {
        Ok(column) => has_cells(column.as_ref(), wanted),
        Err(_) => false,
    }
}

// As the cells of `df.stack()` and of `df.melt()`.
#[test]
fn cells_stand_in_one_column(rt: HostRuntime) -> Result<(), NoMemory> {
    let columns = columns_of(rt.alloc(), &[&[Some(4), None], &[Some(6), Some(7)]])?;
    let by_row = stacked(&rt, rt.alloc(), &columns);
    assert!(rt; holds(by_row, &[Some(4), Some(6), None, Some(7)]));
    let by_column = melted(rt.alloc(), &columns);
    assert!(rt; holds(by_column, &[Some(4), None, Some(6), Some(7)]));
    Ok(())
}
