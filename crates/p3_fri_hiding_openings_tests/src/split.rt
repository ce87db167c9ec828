//! Opened values cut in two.

use crate::numbers::{are_numbered, numbered_all};
use p3_field::BabyBear4;
use p3_fri_hiding_openings::split_random_values;

/// Numbers of values, by commitment, matrix, point and column.
type Numbers = &'static [&'static [&'static [&'static [u64]]]];

/// How many values are opened at each point, numbered from 1 on, how many of them are random, and
/// the index of the preprocessed commitment, with what is shown and what is kept back.
struct Case {
    opened: &'static [&'static [&'static [usize]]],
    codewords: usize,
    preprocessing: Option<usize>,
    shown: Numbers,
    kept: Numbers,
}

static CASES: [Case; 4] = [
    Case {
        opened: &[&[&[3]], &[&[5, 6], &[4]]],
        codewords: 4,
        preprocessing: Some(0),
        shown: &[&[&[&[1, 2, 3]]], &[&[&[4], &[9, 10]], &[&[]]]],
        kept: &[
            &[&[&[]]],
            &[&[&[5, 6, 7, 8], &[11, 12, 13, 14]], &[&[15, 16, 17, 18]]],
        ],
    },
    Case {
        opened: &[&[&[5]], &[&[], &[6]]],
        codewords: 4,
        preprocessing: None,
        shown: &[&[&[&[1]]], &[&[], &[&[6, 7]]]],
        kept: &[&[&[&[2, 3, 4, 5]]], &[&[], &[&[8, 9, 10, 11]]]],
    },
    Case {
        opened: &[&[&[2]]],
        codewords: 4,
        preprocessing: None,
        shown: &[&[&[&[]]]],
        kept: &[&[&[&[1, 2]]]],
    },
    Case {
        opened: &[],
        codewords: 4,
        preprocessing: None,
        shown: &[],
        kept: &[],
    },
];

/// Whether the values of a commitment are those of these numbers.
fn is_round(matrices: &[Vec<Vec<BabyBear4>>], numbers: &[&[&[u64]]]) -> bool {
    if matrices.len() != numbers.len() {
        return false;
    }
    for (points, numbers) in matrices.iter().zip(numbers) {
        if points.len() != numbers.len() {
            return false;
        }
        for (values, numbers) in points.iter().zip(*numbers) {
            if !are_numbered(values.as_slice(), numbers) {
                return false;
            }
        }
    }
    true
}

/// Whether the values of all are.
fn are_all(rounds: &[Vec<Vec<Vec<BabyBear4>>>], numbers: Numbers) -> bool {
    if rounds.len() != numbers.len() {
        return false;
    }
    for (matrices, numbers) in rounds.iter().zip(numbers) {
        if !is_round(matrices.as_slice(), numbers) {
            return false;
        }
    }
    true
}

#[test]
fn the_last_values_are_kept_back(rt: HostRuntime) {
    for (place, case) in CASES.iter().enumerate() {
        let opened = numbered_all(&rt, rt.alloc(), case.opened, 1);
        let halves = split_random_values(rt.alloc(), opened, case.codewords, case.preprocessing);
        let (shown, kept) = halves.expect(&rt, "memory");
        assert!(rt;
            are_all(shown.as_slice(), case.shown) && are_all(kept.as_slice(), case.kept),
            "case {place}"
        );
    }
}
