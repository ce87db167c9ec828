//! Preprocessing opened with a private column, and what a verifier answers where the random values,
//! the claims, its own numbers or the index of preprocessing aren't those of the opening; and
//! preprocessing opened again and again.

use crate::asked::{Question, hold};
use crate::kind::Kind;
use crate::matrices::{Entries, LATE_E, POINT, SHORT_PI};
use crate::openings::cases::{ACCEPTED, Asked, Call};
use crate::openings::changes::Change;
use crate::openings::requests::{Batch, Batches};
use crate::openings::shapes::{ANY, First};
use crate::scheme::{SMALL, Setting};

/// Preprocessing and a private column, of 16 rows each.
const BOTH: Batches = Batches {
    setting: SMALL,
    is_preprocessed: true,
    each: &[
        Batch {
            kind: Kind::Preprocessed(&[Entries {
                shift: 1,
                width: 1,
                numbers: &SHORT_PI,
            }]),
            domains: &[(1, 5)],
        },
        Batch {
            kind: Kind::Private(&[Entries {
                shift: 1,
                width: 1,
                numbers: &LATE_E,
            }]),
            domains: &[(1, 5)],
        },
    ],
};

/// Both opened at one point. Preprocessing has no random values and the private column one for each
/// codeword, and of the data the private alone counts as opened.
const UNCHANGED: Asked = Asked {
    points: &[POINT],
    is_opened: &[false, true],
    values: &[[1, 1, 1], [1, 1, 1]],
    random: &[[1, 1, 0], [1, 1, 4]],
    firsts: &[ANY, ANY],
    call: Call::VerifyWithPreprocessing(Some(0)),
    ..ACCEPTED
};

static CASES: [Question; 18] = [
    Question::Openings(&BOTH, &[UNCHANGED]),
    Question::Openings(
        &BOTH,
        &[Asked {
            call: Call::VerifyWithPreprocessing(None),
            answer: "HidingRandomOpeningValueCountMismatch \
            { round: 0, matrix: 0, point: 0, expected: 4, got: 0 }",
            ..UNCHANGED
        }],
    ),
    Question::Openings(
        &BOTH,
        &[Asked {
            call: Call::VerifyWithPreprocessing(Some(1)),
            answer: "HidingRandomOpeningValueCountMismatch \
            { round: 0, matrix: 0, point: 0, expected: 4, got: 0 }",
            ..UNCHANGED
        }],
    ),
    Question::Openings(
        &BOTH,
        &[Asked {
            call: Call::VerifyWithPreprocessing(Some(2)),
            answer: "HidingPreprocessedCommitmentOutOfBounds { index: 2, num_rounds: 2 }",
            ..UNCHANGED
        }],
    ),
    Question::Openings(
        &BOTH,
        &[Asked {
            change: Change::OneRound,
            call: Call::VerifyWithPreprocessing(Some(1)),
            answer: "HidingPreprocessedCommitmentOutOfBounds { index: 1, num_rounds: 1 }",
            ..UNCHANGED
        }],
    ),
    Question::Openings(
        &BOTH,
        &[Asked {
            change: Change::OneValueLess,
            answer: "HidingRandomOpeningValueCountMismatch \
            { round: 1, matrix: 0, point: 0, expected: 4, got: 3 }",
            ..UNCHANGED
        }],
    ),
    Question::Openings(
        &BOTH,
        &[Asked {
            change: Change::OneValueMore,
            answer: "HidingRandomOpeningValueCountMismatch \
            { round: 0, matrix: 0, point: 0, expected: 0, got: 1 }",
            ..UNCHANGED
        }],
    ),
    Question::Openings(
        &BOTH,
        &[Asked {
            change: Change::NoPoints,
            answer: "HidingRandomOpeningPointCountMismatch \
            { round: 1, matrix: 0, expected: 1, got: 0 }",
            ..UNCHANGED
        }],
    ),
    Question::Openings(
        &BOTH,
        &[Asked {
            change: Change::NoMatrices,
            answer: "HidingRandomOpeningMatrixCountMismatch { round: 1, expected: 1, got: 0 }",
            ..UNCHANGED
        }],
    ),
    Question::Openings(
        &BOTH,
        &[Asked {
            change: Change::NoRandomValues,
            answer: "HidingRandomOpeningRoundCountMismatch { expected: 2, got: 0 }",
            ..UNCHANGED
        }],
    ),
    Question::Openings(
        &BOTH,
        &[Asked {
            change: Change::SecondPoint,
            answer: "HidingBudgetExceeded { round: 1, matrix: 0, mask_height: 16, \
            num_queries: 2, num_opening_points: 2, extension_degree: 4 }",
            ..UNCHANGED
        }],
    ),
    Question::Openings(
        &BOTH,
        &[Asked {
            change: Change::LowDomain,
            answer: "HidingBudgetExceeded { round: 1, matrix: 0, mask_height: 2, \
            num_queries: 2, num_opening_points: 1, extension_degree: 4 }",
            ..UNCHANGED
        }],
    ),
    Question::Openings(
        &BOTH,
        &[Asked {
            verifier: Setting {
                num_queries: 5,
                ..SMALL
            },
            answer: "HidingBudgetExceeded { round: 0, matrix: 0, mask_height: 16, \
            num_queries: 5, num_opening_points: 1, extension_degree: 4 }",
            ..UNCHANGED
        }],
    ),
    Question::Openings(
        &BOTH,
        &[Asked {
            verifier: Setting {
                num_queries: usize::MAX,
                ..SMALL
            },
            answer: "HidingBudgetExceeded { round: 0, matrix: 0, mask_height: 16, \
            num_queries: 18446744073709551615, num_opening_points: 1, extension_degree: 4 }",
            ..UNCHANGED
        }],
    ),
    Question::Openings(
        &BOTH,
        &[Asked {
            verifier: Setting {
                num_random_codewords: 3,
                ..SMALL
            },
            answer: "InsufficientHidingRandomCodewords { required: 4, got: 3 }",
            ..UNCHANGED
        }],
    ),
    Question::Openings(
        &BOTH,
        &[Asked {
            verifier: Setting {
                num_random_codewords: 5,
                ..SMALL
            },
            answer: "HidingRandomOpeningValueCountMismatch \
            { round: 1, matrix: 0, point: 0, expected: 5, got: 4 }",
            ..UNCHANGED
        }],
    ),
    Question::Openings(
        &BOTH,
        &[Asked {
            verifier: Setting {
                num_random_codewords: 8,
                ..SMALL
            },
            answer: "HidingRandomOpeningValueCountMismatch \
            { round: 1, matrix: 0, point: 0, expected: 8, got: 4 }",
            ..UNCHANGED
        }],
    ),
    // what was opened so may be opened again
    Question::Openings(&ZEROS, &[OF_ZEROS, OF_ZEROS]),
];

/// Preprocessing of zeros.
const ZEROS: Batches = Batches {
    setting: SMALL,
    is_preprocessed: true,
    each: &[Batch {
        kind: Kind::Preprocessed(&[Entries {
            shift: 1,
            width: 1,
            numbers: &[0; 16],
        }]),
        domains: &[(1, 5)],
    }],
};

/// It is opened to zero, with no random values beside the proof, and doesn't count as opened.
const OF_ZEROS: Asked = Asked {
    points: &[POINT],
    is_opened: &[false],
    values: &[[1, 1, 1]],
    random: &[[1, 1, 0]],
    firsts: &[First {
        factor: 1,
        sum: Some(0),
    }],
    call: Call::VerifyWithPreprocessing(Some(0)),
    ..ACCEPTED
};

#[test]
fn openings_of_preprocessing_are_answered(rt: HostRuntime) {
    hold(&rt, rt.alloc(), &CASES);
}
