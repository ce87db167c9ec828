//! Queries whose values a plain program computed from the definition, by interpolation, and refused
//! ones.

use crate::elements::Coefficients;

/// A query of words of log height 4, and what comes of it.
#[derive(Clone, Copy)]
pub(crate) struct Case {
    pub name: &'static str,
    pub query: usize,
    pub index: usize,
    pub betas: &'static [Coefficients],
    pub schedule: &'static [usize],
    /// What each round opens, query by query.
    pub openings: &'static [&'static [&'static [Coefficients]]],
    pub inputs: &'static [(usize, Coefficients)],
    pub log_final_height: usize,
    pub outcome: Outcome,
}

#[derive(Clone, Copy)]
pub(crate) enum Outcome {
    /// The value and the index at which it ends, and of each round the row's index and the row.
    Folded(Coefficients, usize, &'static [(usize, &'static [Coefficients])]),
    Refused(&'static str),
}

const ONE: Coefficients = [1, 0, 0, 0];

const MINUS_ONE: Coefficients = [2_013_265_920, 0, 0, 0];

pub(crate) static FOLDED: [Case; 3] = [
    Case {
        name: "one round",
        query: 0,
        index: 0,
        betas: &[[7, 0, 0, 0]],
        schedule: &[1],
        openings: &[&[&[[3, 0, 0, 0]]]],
        inputs: &[(4, [5, 0, 0, 0])],
        log_final_height: 3,
        outcome: Outcome::Folded([11, 0, 0, 0], 0, &[(0, &[[5, 0, 0, 0], [3, 0, 0, 0]])]),
    },
    // the square of 3, and 3^4 times 1
    Case {
        name: "a row of four, and an input that is rolled in",
        query: 0,
        index: 2,
        betas: &[[3, 0, 0, 0]],
        schedule: &[2],
        openings: &[&[&[ONE, ONE, MINUS_ONE]]],
        inputs: &[(4, MINUS_ONE), (2, ONE)],
        log_final_height: 2,
        outcome: Outcome::Folded([90, 0, 0, 0], 0, &[(0, &[ONE, ONE, MINUS_ONE, MINUS_ONE])]),
    },
    Case {
        name: "the second query through two rounds",
        query: 1,
        index: 13,
        betas: &[[7, 1, 0, 2], [3, 0, 5, 1]],
        schedule: &[1, 2],
        openings: &[
            &[&[[8, 0, 0, 0]], &[[3, 1, 4, 1]]],
            &[
                &[[9, 0, 0, 0], [9, 0, 0, 0], [9, 0, 0, 0]],
                &[[1, 0, 2, 0], [2, 7, 1, 8], [4, 0, 0, 1]],
            ],
        ],
        inputs: &[(4, [5, 9, 2, 6]), (3, [2, 0, 1, 0]), (1, [6, 1, 0, 3])],
        log_final_height: 1,
        outcome: Outcome::Folded(
            [637_939_203, 1_822_635_683, 640_347_774, 1_290_870_708],
            1,
            &[
                (6, &[[3, 1, 4, 1], [5, 9, 2, 6]]),
                (
                    1,
                    &[
                        [1, 0, 2, 0],
                        [2, 7, 1, 8],
                        [406_626_105, 1_748_892_583, 336_956_766, 739_345_294],
                        [4, 0, 0, 1],
                    ],
                ),
            ],
        ),
    },
];

/// Queries of no rounds but those of the schedule, and of one round, each at the index 0.
pub(crate) static REFUSED: [Case; 9] = [
    Case {
        name: "a fold by one",
        query: 0,
        index: 0,
        betas: &[],
        schedule: &[0],
        openings: &[],
        inputs: &[(4, [0, 0, 0, 0])],
        log_final_height: 1,
        outcome: Outcome::Refused("FoldScheduleArityOutOfRange { round: 0, log_arity: 0 }"),
    },
    Case {
        name: "a fold by 2^64",
        query: 0,
        index: 0,
        betas: &[],
        schedule: &[1, 64],
        openings: &[],
        inputs: &[(4, [0, 0, 0, 0])],
        log_final_height: 1,
        outcome: Outcome::Refused("FoldScheduleArityOutOfRange { round: 1, log_arity: 64 }"),
    },
    Case {
        name: "a long schedule",
        query: 0,
        index: 0,
        betas: &[],
        schedule: &[2, 2],
        openings: &[],
        inputs: &[(4, [0, 0, 0, 0])],
        log_final_height: 1,
        outcome: Outcome::Refused(
            "FoldScheduleTooLong { total_log_reduction: 4, log_global_max_height: 4, \
log_final_height: 1 }",
        ),
    },
    Case {
        name: "a short schedule",
        query: 0,
        index: 0,
        betas: &[],
        schedule: &[1],
        openings: &[],
        inputs: &[(4, [0, 0, 0, 0])],
        log_final_height: 3,
        outcome: Outcome::Refused("FinalFoldHeightMismatch { expected: 3, got: 4 }"),
    },
    Case {
        name: "no opening of the second query",
        query: 1,
        index: 0,
        betas: &[[7, 0, 0, 0]],
        schedule: &[1],
        openings: &[&[&[[3, 0, 0, 0]]]],
        inputs: &[(4, [0, 0, 0, 0])],
        log_final_height: 3,
        outcome: Outcome::Refused(
            "CommitPhaseQueryCountMismatch { round: 0, expected: 2, got: 1 }",
        ),
    },
    Case {
        name: "two siblings in a fold by two",
        query: 0,
        index: 0,
        betas: &[[7, 0, 0, 0]],
        schedule: &[1],
        openings: &[&[&[[3, 0, 0, 0], [3, 0, 0, 0]]]],
        inputs: &[(4, [0, 0, 0, 0])],
        log_final_height: 3,
        outcome: Outcome::Refused("SiblingValuesLengthMismatch { round: 0, expected: 1, got: 2 }"),
    },
    Case {
        name: "no input",
        query: 0,
        index: 0,
        betas: &[],
        schedule: &[],
        openings: &[],
        inputs: &[],
        log_final_height: 4,
        outcome: Outcome::Refused("MissingInitialReducedOpening { expected: 4 }"),
    },
    Case {
        name: "a low first input",
        query: 0,
        index: 0,
        betas: &[],
        schedule: &[],
        openings: &[],
        inputs: &[(3, [0, 0, 0, 0])],
        log_final_height: 4,
        outcome: Outcome::Refused("InitialReducedOpeningHeightMismatch { expected: 4, got: 3 }"),
    },
    Case {
        name: "inputs that are left",
        query: 0,
        index: 0,
        betas: &[[7, 0, 0, 0]],
        schedule: &[1],
        openings: &[&[&[[3, 0, 0, 0]]]],
        inputs: &[(4, [5, 0, 0, 0]), (2, ONE), (1, ONE)],
        log_final_height: 3,
        outcome: Outcome::Refused("UnconsumedReducedOpenings { next_log_height: 2, remaining: 2 }"),
    },
];
