//! What a prover refuses, before its challenger is touched; the same data are opened afterwards.

use crate::accepted::{LINE, SQUARE};
use crate::asked::{AT_FIVE, Case, Expected, Opening, Question, ask};
use crate::scheme::{LONGER, PLAIN, Setting};
use p3_fri_folding::FriProverError;

const LONGEST: Setting = Setting {
    log_final_poly_len: usize::MAX,
    ..PLAIN
};

static CASES: [Case; 9] = [
    // points of cosets
    Case {
        setting: PLAIN,
        batches: &[&[&[9]]],
        openings: &[
            Opening {
                name: "of a constant",
                setting: PLAIN,
                points: &[&[&[31]]],
                expected: Expected::Unopened(FriProverError::PointInEvaluationDomain {
                    round: 0,
                    matrix: 0,
                    point: 0,
                }),
                ..AT_FIVE
            },
            Opening {
                name: "of a constant, and then made",
                points: &[&[&[7]]],
                ..AT_FIVE
            },
        ],
    },
    Case {
        setting: PLAIN,
        batches: &[&[&LINE]],
        openings: &[
            Opening {
                name: "of a line",
                setting: PLAIN,
                points: &[&[&[31]]],
                expected: Expected::Unopened(FriProverError::PointInEvaluationDomain {
                    round: 0,
                    matrix: 0,
                    point: 0,
                }),
                ..AT_FIVE
            },
            Opening {
                name: "of a line, and then made",
                points: &[&[&[7]]],
                ..AT_FIVE
            },
        ],
    },
    Case {
        setting: PLAIN,
        batches: &[&[&SQUARE]],
        openings: &[
            Opening {
                name: "of a square",
                setting: PLAIN,
                points: &[&[&[31]]],
                expected: Expected::Unopened(FriProverError::PointInEvaluationDomain {
                    round: 0,
                    matrix: 0,
                    point: 0,
                }),
                ..AT_FIVE
            },
            Opening {
                name: "of a square, and then made",
                points: &[&[&[7]]],
                ..AT_FIVE
            },
        ],
    },
    Case {
        setting: PLAIN,
        batches: &[&[&LINE], &[&SQUARE, &LINE]],
        openings: &[
            Opening {
                name: "the third point of the second commitment's second matrix",
                setting: PLAIN,
                points: &[&[&[5]], &[&[5], &[7, 5, 31]]],
                expected: Expected::Unopened(FriProverError::PointInEvaluationDomain {
                    round: 1,
                    matrix: 1,
                    point: 2,
                }),
                ..AT_FIVE
            },
            Opening {
                name: "the third point of the second commitment's second matrix, and then made",
                points: &[&[&[5]], &[&[5], &[7, 5]]],
                ..AT_FIVE
            },
        ],
    },
    // heights are tested before points
    Case {
        setting: LONGER,
        batches: &[&[&[1, 1]]],
        openings: &[
            Opening {
                name: "a low word, at a point off its coset",
                setting: LONGER,
                points: &[&[&[2]]],
                expected: Expected::Unopened(FriProverError::InputHeightTooSmall {
                    log_input_height: 2,
                    log_final_height: 2,
                }),
                ..AT_FIVE
            },
            Opening {
                name: "a low word, at a point off its coset, and then made",
                points: &[&[&[2]]],
                ..AT_FIVE
            },
        ],
    },
    Case {
        setting: LONGER,
        batches: &[&[&[1, 1]]],
        openings: &[
            Opening {
                name: "a low word, at a point of its coset",
                setting: LONGER,
                points: &[&[&[31]]],
                expected: Expected::Unopened(FriProverError::InputHeightTooSmall {
                    log_input_height: 2,
                    log_final_height: 2,
                }),
                ..AT_FIVE
            },
            Opening {
                name: "a low word, at a point of its coset, and then made",
                points: &[&[&[7]]],
                ..AT_FIVE
            },
        ],
    },
    Case {
        setting: LONGER,
        batches: &[&[&[1]]],
        openings: &[
            Opening {
                name: "a word of two entries",
                setting: LONGER,
                points: &[&[&[2]]],
                expected: Expected::Unopened(FriProverError::InputHeightTooSmall {
                    log_input_height: 1,
                    log_final_height: 2,
                }),
                ..AT_FIVE
            },
            Opening {
                name: "a word of two entries, and then made",
                points: &[&[&[2]]],
                ..AT_FIVE
            },
        ],
    },
    Case {
        setting: LONGER,
        batches: &[&[&[1; 8], &[1; 2]]],
        openings: &[
            Opening {
                name: "a low word beside a taller one",
                setting: LONGER,
                points: &[&[&[2], &[2]]],
                expected: Expected::Unopened(FriProverError::InputHeightTooSmall {
                    log_input_height: 2,
                    log_final_height: 2,
                }),
                ..AT_FIVE
            },
            Opening {
                name: "a low word beside a taller one, and then made",
                points: &[&[&[2], &[2]]],
                ..AT_FIVE
            },
        ],
    },
    Case {
        setting: LONGEST,
        batches: &[&[&[1, 1]]],
        openings: &[
            Opening {
                name: "a final polynomial longer than any number",
                setting: LONGEST,
                points: &[&[&[2]]],
                expected: Expected::Unopened(FriProverError::FinalHeightOverflow),
                ..AT_FIVE
            },
            Opening {
                name: "a final polynomial longer than any number, and then made",
                points: &[&[&[2]]],
                ..AT_FIVE
            },
        ],
    },
];

#[test]
fn openings_are_refused_and_then_made(rt: HostRuntime) {
    ask(&rt, rt.alloc(), Question::Openings(&CASES));
}
