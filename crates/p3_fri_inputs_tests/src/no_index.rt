//! What is answered without an index.

use crate::cases::{AT_ONE_POINT, Case, Change, Outcome};
use crate::open_inputs::assert_all;

/// One column of two rows, claimed at a point, and opened at no row or at one.
const CASES: [Case; 4] = [
    Case {
        name: "no row",
        log_global_max_height: 1,
        commitments: &[(&[AT_ONE_POINT], &[])],
        change: Change::Nothing,
        indices: &[],
        outcome: Outcome::Sums(&[]),
    },
    Case {
        name: "a row",
        log_global_max_height: 1,
        commitments: &[(&[AT_ONE_POINT], &[1])],
        change: Change::Nothing,
        indices: &[],
        outcome: Outcome::Refused(
            "InputOpeningsQueryCountMismatch { batch: 0, expected: 0, got: 1 }",
        ),
    },
    Case {
        name: "no opening",
        log_global_max_height: 1,
        commitments: &[(&[AT_ONE_POINT], &[])],
        change: Change::NoOpenings,
        indices: &[],
        outcome: Outcome::Refused("InputProofBatchCountMismatch { expected: 1, got: 0 }"),
    },
    Case {
        name: "no point",
        log_global_max_height: 1,
        commitments: &[(&[AT_ONE_POINT], &[])],
        change: Change::NoPoints,
        indices: &[],
        outcome: Outcome::Refused("MatrixWithoutOpeningPoints { batch: 0, matrix: 0 }"),
    },
];

#[test]
fn answers_the_empty_list_or_refuses(rt: HostRuntime) {
    assert_all(&rt, rt.alloc(), &CASES);
}
