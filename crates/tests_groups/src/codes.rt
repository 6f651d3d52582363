// Labels and pairs numbered by first sight: by a table, by a sort, and by their hash.
use cell_core::{Label, TextId};
use row_keys::{Column, Level, Numbers, label_codes, pair_codes};
use std::alloc::Global;

const TWO: Label = Label::Int(2);

const FIVE: Label = Label::Int(5);

const LOW: Label = Label::Int(i64::MIN);

const HIGH: Label = Label::Int(i64::MAX);

const TEXT: Label = Label::Text(TextId(3));

const LAST: Label = Label::Text(TextId(u64::MAX));

const TRUE: Label = Label::Bool(true);

const FALSE: Label = Label::Bool(false);

const NA: Label = Label::Na;

// Labels, the code of each, and the first row of each code.
const LABELS: [(&[Label], &[usize], &[usize]); 10] = [
    (
        &[FIVE, NA, Label::Int(4), FIVE, Label::Int(6), NA],
        &[0, 1, 2, 0, 3, 1],
        &[0, 1, 2, 4],
    ),
    (
        &[
            FIVE,
            Label::Int(-2),
            NA,
            Label::Int(90),
            Label::Int(-2),
            FIVE,
            NA,
        ],
        &[0, 1, 2, 3, 1, 0, 2],
        &[0, 1, 2, 3],
    ),
    (&[HIGH, LOW, HIGH], &[0, 1, 0], &[0, 1]),
    (&[HIGH, FIVE, FIVE, HIGH], &[0, 1, 1, 0], &[0, 1]),
    (&[TRUE, FALSE, TRUE], &[0, 1, 0], &[0, 1]),
    (&[TEXT, NA, TEXT], &[0, 1, 0], &[0, 1]),
    (&[LAST, TEXT, LAST], &[0, 1, 0], &[0, 1]),
    (&[FIVE, TEXT, TRUE, TEXT], &[0, 1, 2, 1], &[0, 1, 2]),
    (&[NA, NA], &[0, 0], &[0]),
    (&[], &[], &[]),
];

// Labels, the codes of what stands below them, the code of each pair, and the first row of each code.
const PAIRS: [(&[Label], &[usize], &[usize], &[usize]); 5] = [
    (
        &[TWO, TWO, NA, TWO, NA],
        &[1, 0, 1, 1, 1],
        &[0, 1, 2, 0, 2],
        &[0, 1, 2],
    ),
    (
        &[TWO, Label::Int(700), FIVE, TWO, FIVE],
        &[9, 0, 1, 9, 0],
        &[0, 1, 2, 0, 3],
        &[0, 1, 2, 4],
    ),
    (&[LOW, HIGH, LOW], &[1, 1, 1], &[0, 1, 0], &[0, 1]),
    (&[HIGH, FIVE, HIGH], &[1, 1, 0], &[0, 1, 2], &[0, 1, 2]),
    (&[TEXT, FIVE, TEXT], &[0, 0, 0], &[0, 1, 0], &[0, 1]),
];

fn are(numbers: &Numbers, codes: &[usize], firsts: &[usize]) -> bool {
    numbers.codes.as_slice() == codes && numbers.firsts.as_slice() == firsts
}

fn have_codes(alloc: Global, labels: &[Label], codes: &[usize], firsts: &[usize]) -> bool {
    match label_codes(alloc, &Column { labels }) {
        Ok(numbers) => are(&numbers, codes, firsts),
        Err(_) => false,
    }
}

fn pairs_have_these(
    alloc: Global,
    labels: &[Label],
    below: &[usize],
    codes: &[usize],
    firsts: &[usize],
) -> bool {
    let pairs = Level {
        labels,
        codes: below,
    };
    match pair_codes(alloc, &pairs) {
        Ok(numbers) => are(&numbers, codes, firsts),
        Err(_) => false,
    }
}

#[test]
fn labels_have_codes(rt: HostRuntime) {
    for (labels, codes, firsts) in LABELS {
        assert!(rt;
            have_codes(rt.alloc(), labels, codes, firsts),
            "of {labels:?}"
        );
    }
}

#[test]
fn pairs_have_codes(rt: HostRuntime) {
    for (labels, below, codes, firsts) in PAIRS {
        assert!(rt;
            pairs_have_these(rt.alloc(), labels, below, codes, firsts),
            "of {labels:?}"
        );
    }
}
