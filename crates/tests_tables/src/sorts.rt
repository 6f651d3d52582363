// Rows in an order, and by their labels.
ghost use Rattle.tests_tables.specs.Orders.{is_sooner, sooner_is_weak};

use crate::picks::are;
use cell_core::{Label, NoMemory, TextDict, TextId};
use sorting::{LabelKeys, RowOrder, rows_by_labels, sorted_rows};
use std::alloc::Global;
use std::cmp::Ordering;

// Even rows before odd ones.
struct EvenFirst;

impl RowOrder for EvenFirst {
    ghost less = { λ _. is_sooner };

    ghost weak = { λ _. sooner_is_weak };

    fn compare(&self, i: usize, j: usize) -> Ordering {
        (i % 2).cmp(&(j % 2))
    }
}

#[test]
fn rows_that_tie_stay_as_they_stood(rt: HostRuntime) -> Result<(), NoMemory> {
    let rows = sorted_rows(rt.alloc(), 5, &EvenFirst)?;
    assert!(rt; are(&rows, &[0, 2, 4, 1, 3]));
    Ok(())
}

// Rows of one label each.
#[derive(Clone, Copy)]
struct Single<'a> {
    labels: &'a [Label],
}

impl LabelKeys for Single<'_> {
    ghost use Rattle.tests_tables.specs.Orders.{label_at};

    ghost keys = { λ _. 1 };

    ghost label_at = { λ s row _. label_at s.labels.now row };

    fn count(&self) -> usize {
        1
    }

    fn at(&self, row: usize, _: usize) -> Label {
        if row < self.labels.len() {
            self.labels[row]
        } else {
            Label::Na
        }
    }
}

// Whether the rows of the labels stand in this order, the other way round where they aren't `ascending`.
fn stand(
    alloc: Global,
    dict: &TextDict,
    labels: &[Label],
    ascending: bool,
    wanted: &[usize],
) -> bool {
    let keys = Single { labels };
    match rows_by_labels(alloc, dict, &keys, ascending, labels.len()) {
        Ok(rows) => are(&rows, wanted),
        Err(_) => false,
    }
}

fn text(number: u64) -> Label {
    Label::Text(TextId(number))
}

// Only the text 0 has a number.
#[test]
fn texts_without_a_number_tie(rt: HostRuntime) -> Result<(), NoMemory> {
    let mut dict = TextDict::new(rt.alloc());
    dict.intern("z")?;
    let labels = [text(0), text(2), Label::Int(7), text(1)];
    assert!(rt; stand(rt.alloc(), &dict, &labels, true, &[2, 1, 3, 0]));
    assert!(rt; stand(rt.alloc(), &dict, &labels, false, &[0, 1, 3, 2]));
    Ok(())
}

// From the least whole number to the greatest there is no room for a row beside the number.
#[test]
fn values_without_room_are_in_order(rt: HostRuntime) {
    let dict = TextDict::new(rt.alloc());
    let (least, most) = (Label::Int(i64::MIN), Label::Int(i64::MAX));
    let labels = [most, least, Label::Int(0), most, least];
    assert!(rt; stand(rt.alloc(), &dict, &labels, true, &[1, 4, 2, 0, 3]));
    assert!(rt; stand(rt.alloc(), &dict, &labels, false, &[0, 3, 2, 1, 4]));
}
