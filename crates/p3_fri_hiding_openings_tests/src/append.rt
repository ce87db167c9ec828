//! Random values appended to claims, and each refusal to do so.

use crate::claims::{Claim, Claimed, claims_of};
use crate::numbers::{are_numbered, numbered_all};
use p3_fri_hiding_openings::append_random_values;
use p3_fri_relation::error::FriError;
use std::alloc::Global;
use std::process::Abort;

/// What comes of it: the numbers of all values, point by point, or a refusal.
#[derive(Clone, Copy)]
enum Outcome {
    Appended(&'static [&'static [u64]]),
    Refused(&'static str),
}

/// What is claimed, and how many random values are given by commitment, matrix and point. The
/// claimed values are numbered from 1 on, and the random ones from 101 on.
#[derive(Clone, Copy)]
struct Case {
    claimed: Claimed,
    random: &'static [&'static [&'static [usize]]],
    preprocessing: Option<usize>,
    outcome: Outcome,
}

/// Preprocessing and a private matrix, each of one column and opened at a point.
const TWO: Claimed = &[&[(5, &[1])], &[(5, &[1])]];

/// With four random codewords and two queries.
static ACCEPTED: [Case; 4] = [
    Case {
        claimed: TWO,
        random: &[&[&[0]], &[&[4]]],
        preprocessing: Some(0),
        outcome: Outcome::Appended(&[&[1], &[2, 101, 102, 103, 104]]),
    },
    Case {
        claimed: &[&[(6, &[2, 2]), (5, &[1])]],
        random: &[&[&[4, 4], &[4]]],
        preprocessing: None,
        outcome: Outcome::Appended(&[
            &[1, 2, 101, 102, 103, 104],
            &[3, 4, 105, 106, 107, 108],
            &[5, 109, 110, 111, 112],
        ]),
    },
    Case {
        claimed: &[&[(5, &[1])], &[(6, &[1, 2]), (5, &[])]],
        random: &[&[&[4]], &[&[0, 0], &[]]],
        preprocessing: Some(1),
        outcome: Outcome::Appended(&[&[1, 101, 102, 103, 104], &[2], &[3, 4]]),
    },
    Case {
        claimed: &[],
        random: &[],
        preprocessing: None,
        outcome: Outcome::Appended(&[]),
    },
];

/// Of the same numbers.
static COUNTS: [Case; 8] = [
    Case {
        claimed: TWO,
        random: &[],
        preprocessing: Some(0),
        outcome: Outcome::Refused("HidingRandomOpeningRoundCountMismatch { expected: 2, got: 0 }"),
    },
    Case {
        claimed: TWO,
        random: &[&[&[0]], &[]],
        preprocessing: Some(0),
        outcome: Outcome::Refused(
            "HidingRandomOpeningMatrixCountMismatch { round: 1, expected: 1, got: 0 }",
        ),
    },
    Case {
        claimed: TWO,
        random: &[&[&[0]], &[&[4, 4]]],
        preprocessing: Some(0),
        outcome: Outcome::Refused(
            "HidingRandomOpeningPointCountMismatch { round: 1, matrix: 0, expected: 1, got: 2 }",
        ),
    },
    Case {
        claimed: TWO,
        random: &[&[&[0]], &[&[4]]],
        preprocessing: None,
        outcome: Outcome::Refused(
            "HidingRandomOpeningValueCountMismatch { round: 0, matrix: 0, point: 0, expected: 4, \
             got: 0 }",
        ),
    },
    Case {
        claimed: TWO,
        random: &[&[&[0]], &[&[3]]],
        preprocessing: Some(0),
        outcome: Outcome::Refused(
            "HidingRandomOpeningValueCountMismatch { round: 1, matrix: 0, point: 0, expected: 4, \
             got: 3 }",
        ),
    },
    Case {
        claimed: TWO,
        random: &[&[&[1]], &[&[4]]],
        preprocessing: Some(0),
        outcome: Outcome::Refused(
            "HidingRandomOpeningValueCountMismatch { round: 0, matrix: 0, point: 0, expected: 0, \
             got: 1 }",
        ),
    },
    Case {
        claimed: &[&[(5, &[1]), (6, &[1, 1])]],
        random: &[&[&[4], &[4, 5]]],
        preprocessing: None,
        outcome: Outcome::Refused(
            "HidingRandomOpeningValueCountMismatch { round: 0, matrix: 1, point: 1, expected: 4, \
             got: 5 }",
        ),
    },
    Case {
        claimed: TWO,
        random: &[&[&[0]], &[&[4]]],
        preprocessing: Some(2),
        outcome: Outcome::Refused(
            "HidingPreprocessedCommitmentOutOfBounds { index: 2, num_rounds: 2 }",
        ),
    },
];

/// How many random codewords and queries there are, with what comes of it.
static NUMBERS: [(usize, usize, Case); 8] = [
    (
        3,
        2,
        Case {
            claimed: TWO,
            random: &[&[&[3]], &[&[3]]],
            preprocessing: None,
            outcome: Outcome::Refused("InsufficientHidingRandomCodewords { required: 4, got: 3 }"),
        },
    ),
    (
        3,
        2,
        Case {
            claimed: &[],
            random: &[],
            preprocessing: None,
            outcome: Outcome::Refused("InsufficientHidingRandomCodewords { required: 4, got: 3 }"),
        },
    ),
    (
        3,
        2,
        Case {
            claimed: TWO,
            random: &[],
            preprocessing: Some(2),
            outcome: Outcome::Refused(
                "HidingPreprocessedCommitmentOutOfBounds { index: 2, num_rounds: 2 }",
            ),
        },
    ),
    (
        5,
        2,
        Case {
            claimed: &[&[(5, &[1])]],
            random: &[&[&[4]]],
            preprocessing: None,
            outcome: Outcome::Refused(
                "HidingRandomOpeningValueCountMismatch { round: 0, matrix: 0, point: 0, \
                 expected: 5, got: 4 }",
            ),
        },
    ),
    (
        8,
        2,
        Case {
            claimed: &[&[(5, &[1])]],
            random: &[&[&[4]]],
            preprocessing: None,
            outcome: Outcome::Refused(
                "HidingRandomOpeningValueCountMismatch { round: 0, matrix: 0, point: 0, \
                 expected: 8, got: 4 }",
            ),
        },
    ),
    (
        4,
        2,
        Case {
            claimed: &[&[(5, &[1, 1])]],
            random: &[&[&[4, 4]]],
            preprocessing: None,
            outcome: Outcome::Refused(
                "HidingBudgetExceeded { round: 0, matrix: 0, mask_height: 16, num_queries: 2, \
             num_opening_points: 2, extension_degree: 4 }",
            ),
        },
    ),
    (
        4,
        2,
        Case {
            claimed: &[&[(5, &[1]), (4, &[1])]],
            random: &[&[&[4], &[4]]],
            preprocessing: None,
            outcome: Outcome::Refused(
                "HidingBudgetExceeded { round: 0, matrix: 1, mask_height: 8, num_queries: 2, \
             num_opening_points: 1, extension_degree: 4 }",
            ),
        },
    ),
    (
        4,
        usize::MAX,
        Case {
            claimed: TWO,
            random: &[&[&[4]], &[&[4]]],
            preprocessing: None,
            outcome: Outcome::Refused(
                "HidingBudgetExceeded { round: 0, matrix: 0, mask_height: 16, num_queries: \
             18446744073709551615, num_opening_points: 1, extension_degree: 4 }",
            ),
        },
    ),
];

/// Whether these are the values that are claimed at each point, by their numbers.
fn are_claimed(claims: &[Claim<()>], numbers: &[&[u64]]) -> bool {
    let mut place = 0;
    for claim in claims {
        for matrix in &claim.matrices {
            for point in &matrix.points {
                if place >= numbers.len()
                    || !are_numbered(point.values.as_slice(), numbers[place])
                {
                    return false;
                }
                place += 1;
            }
        }
    }
    place == numbers.len()
}

/// Whether the case has its outcome, with so many random codewords and queries.
fn is_met(rt: &impl Abort, alloc: Global, codewords: usize, queries: usize, case: &Case) -> bool {
    let mut claims = claims_of(rt, alloc, (), case.claimed);
    let random = numbered_all(rt, alloc, case.random, 101);
    let answer: Result<(), FriError<(), ()>> = append_random_values(
        claims.as_mut_slice(),
        random.as_slice(),
        codewords,
        queries,
        case.preprocessing,
    );
    match (answer, case.outcome) {
        (Ok(()), Outcome::Appended(numbers)) => are_claimed(claims.as_slice(), numbers),
        (Err(refusal), Outcome::Refused(text)) => {
            format!(in alloc; "{refusal:?}")
                .expect(rt, "memory")
                .as_str()
                == text
        },
        _ => false,
    }
}

/// Asserts that each case, of four random codewords and two queries, has its outcome.
fn assert_all(rt: &impl Abort, alloc: Global, cases: &[Case]) {
    for (place, case) in cases.iter().enumerate() {
        assert!(rt; is_met(rt, alloc, 4, 2, case), "case {place}");
    }
}

#[test]
fn random_values_follow_the_claimed_ones(rt: HostRuntime) {
    assert_all(&rt, rt.alloc(), &ACCEPTED);
}

#[test]
fn lists_that_do_not_nest_alike_are_refused(rt: HostRuntime) {
    assert_all(&rt, rt.alloc(), &COUNTS);
}

#[test]
fn few_columns_and_low_masks_are_refused(rt: HostRuntime) {
    for (place, (codewords, queries, case)) in NUMBERS.iter().enumerate() {
        assert!(rt;
            is_met(&rt, rt.alloc(), *codewords, *queries, case),
            "case {place}"
        );
    }
}
