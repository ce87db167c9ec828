//! A private column opened once, and openings that are refused before anything is touched, after
//! which the same column is opened.

use crate::asked::{Question, hold};
use crate::kind::Kind;
use crate::matrices::{E, Entries, POINTS, SHORT_PI};
use crate::openings::cases::{ACCEPTED, Asked};
use crate::openings::requests::{Batch, Batches};
use crate::openings::shapes::ANY;
use crate::scheme::{SMALL, Setting};
use p3_fri_folding::FriProverError;
use p3_fri_masks::HidingFriProverError;

/// Of 16 rows.
const LOW: Batches = Batches {
    setting: SMALL,
    is_preprocessed: false,
    each: &[Batch {
        kind: Kind::Private(&[Entries {
            shift: 1,
            width: 1,
            numbers: &SHORT_PI,
        }]),
        domains: &[(1, 5)],
    }],
};

/// Of 32 rows.
const HIGH: Batches = Batches {
    setting: SMALL,
    is_preprocessed: false,
    each: &[Batch {
        kind: Kind::Private(&[Entries {
            shift: 1,
            width: 1,
            numbers: &E,
        }]),
        domains: &[(1, 6)],
    }],
};

/// Opened at two points.
const AT_TWO: Asked = Asked {
    points: &POINTS,
    values: &[[1, 2, 1]],
    random: &[[1, 2, 4]],
    firsts: &[ANY, ANY],
    ..ACCEPTED
};

/// An opening that is refused and leaves the data.
const REFUSED: Asked = Asked {
    is_opened: &[false],
    ..ACCEPTED
};

/// Two points are past the budget of masks of 16 rows.
const OVER_BUDGET: Asked = Asked {
    points: &POINTS,
    refusal: Some(HidingFriProverError::HidingBudgetExceeded {
        mask_height: 16,
        num_queries: 2,
        num_opening_points: 2,
        extension_degree: 4,
    }),
    ..REFUSED
};

/// The point of the first row of the extended column.
const IN_COSET: Asked = Asked {
    points: &[[31, 0, 0, 0]],
    refusal: Some(HidingFriProverError::Fri(FriProverError::PointInEvaluationDomain {
        round: 0,
        matrix: 0,
        point: 0,
    })),
    ..REFUSED
};

static CASES: [Question; 10] = [
    Question::Openings(&HIGH, &[AT_TWO]),
    // just as many masks as their budget asks for
    Question::Openings(
        &Batches {
            setting: Setting {
                num_queries: 4,
                ..SMALL
            },
            ..LOW
        },
        &[Asked {
            verifier: Setting {
                num_queries: 4,
                ..SMALL
            },
            ..ACCEPTED
        }],
    ),
    Question::Openings(
        &Batches {
            setting: Setting {
                num_queries: 8,
                ..SMALL
            },
            ..HIGH
        },
        &[Asked {
            verifier: Setting {
                num_queries: 8,
                ..SMALL
            },
            ..AT_TWO
        }],
    ),
    Question::Openings(
        &Batches {
            setting: Setting {
                num_random_codewords: 8,
                ..SMALL
            },
            ..HIGH
        },
        &[Asked {
            random: &[[1, 2, 8]],
            verifier: Setting {
                num_random_codewords: 8,
                ..SMALL
            },
            ..AT_TWO
        }],
    ),
    Question::Openings(&LOW, &[OVER_BUDGET]),
    Question::Openings(
        &Batches {
            setting: Setting {
                log_final_poly_len: 5,
                ..SMALL
            },
            ..LOW
        },
        &[Asked {
            points: &POINTS,
            refusal: Some(HidingFriProverError::Fri(FriProverError::InputHeightTooSmall {
                log_input_height: 7,
                log_final_height: 7,
            })),
            ..REFUSED
        }],
    ),
    Question::Openings(
        &Batches {
            setting: Setting {
                log_final_poly_len: usize::MAX,
                ..SMALL
            },
            ..LOW
        },
        &[Asked {
            refusal: Some(HidingFriProverError::Fri(FriProverError::FinalHeightOverflow)),
            ..REFUSED
        }],
    ),
    Question::Openings(&LOW, &[IN_COSET]),
    Question::Openings(&LOW, &[OVER_BUDGET, ACCEPTED]),
    Question::Openings(&LOW, &[IN_COSET, ACCEPTED]),
];

#[test]
fn a_private_column_is_opened_or_left_as_it_was(rt: HostRuntime) {
    hold(&rt, rt.alloc(), &CASES);
}
