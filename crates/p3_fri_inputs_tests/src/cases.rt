//! What is opened, and what comes of it: quotient sums that a plain program computed from the
//! definition, and each refusal.

/// The coefficients of an element, that of one first.
pub(crate) type Coefficients = [u64; 4];

/// A matrix, the log size of its domain, and the points at which its columns are claimed.
#[derive(Clone, Copy)]
pub(crate) struct Columns {
    pub seed: u16,
    pub height: u16,
    pub width: u16,
    pub log_size: usize,
    pub points: &'static [u32],
}

/// What is changed in what is claimed and opened.
#[derive(Clone, Copy)]
pub(crate) enum Change {
    Nothing,
    NoOpenings,
    NoRows,
    OtherRows,
    NoPoints,
    LongerValues,
    QueriedPoint,
    ConstantValues,
}

/// What comes of it.
#[derive(Clone, Copy)]
pub(crate) enum Outcome {
    /// Of each query the sums, with their log heights.
    Sums(&'static [&'static [(usize, Coefficients)]]),
    Refused(&'static str),
}

/// Commitments, each opened at its indices, with that change, at the positions of the queries.
#[derive(Clone, Copy)]
pub(crate) struct Case {
    pub name: &'static str,
    pub log_global_max_height: usize,
    pub commitments: &'static [(&'static [Columns], &'static [usize])],
    pub change: Change,
    pub indices: &'static [usize],
    pub outcome: Outcome,
}

/// Two matrices of one height, and one of half the height.
const FIRST: Columns = Columns {
    seed: 1,
    height: 8,
    width: 2,
    log_size: 2,
    points: &[1000, 2000],
};

const SECOND: Columns = Columns {
    seed: 2,
    height: 8,
    width: 1,
    log_size: 2,
    points: &[3000],
};

const LOWER: Columns = Columns {
    seed: 3,
    height: 4,
    width: 2,
    log_size: 1,
    points: &[4000, 1000],
};

/// A matrix of height 2, whose columns are constant where a proof is honest.
const LOWEST: Columns = Columns {
    seed: 1,
    height: 2,
    width: 1,
    log_size: 0,
    points: &[7, 8],
};

/// The same, claimed at one point.
pub(crate) const AT_ONE_POINT: Columns = Columns {
    seed: 1,
    height: 2,
    width: 1,
    log_size: 0,
    points: &[7],
};

pub(crate) const SUMS: [Case; 2] = [
    Case {
        name: "one commitment to two matrices of one height, one to none, one to a lower matrix",
        log_global_max_height: 3,
        commitments: &[
            (&[FIRST, SECOND], &[5, 2]),
            (&[], &[0, 0]),
            (&[LOWER], &[2, 1]),
        ],
        change: Change::Nothing,
        indices: &[5, 2],
        outcome: Outcome::Sums(&[
            &[
                (3, [713_112_568, 1_365_851_753, 1_290_875_196, 318_191_566]),
                (2, [637_500_293, 109_070_829, 332_493_361, 532_987_151]),
            ],
            &[
                (
                    3,
                    [1_843_586_645, 994_771_242, 1_984_833_286, 1_165_866_786],
                ),
                (
                    2,
                    [1_813_776_984, 1_308_073_175, 367_002_739, 1_145_501_718],
                ),
            ],
        ]),
    },
    Case {
        name: "a constant column, claimed as it is",
        log_global_max_height: 1,
        commitments: &[(&[LOWEST], &[1])],
        change: Change::ConstantValues,
        indices: &[1],
        outcome: Outcome::Sums(&[&[(1, [0, 0, 0, 0])]]),
    },
];

pub(crate) const REFUSED: [Case; 8] = [
    Case {
        name: "no opening of the commitment",
        log_global_max_height: 1,
        commitments: &[(&[AT_ONE_POINT], &[1])],
        change: Change::NoOpenings,
        indices: &[1],
        outcome: Outcome::Refused("InputProofBatchCountMismatch { expected: 1, got: 0 }"),
    },
    Case {
        name: "one row for two queries",
        log_global_max_height: 1,
        commitments: &[(&[AT_ONE_POINT], &[1])],
        change: Change::Nothing,
        indices: &[1, 0],
        outcome: Outcome::Refused(
            "InputOpeningsQueryCountMismatch { batch: 0, expected: 2, got: 1 }",
        ),
    },
    Case {
        name: "no rows",
        log_global_max_height: 1,
        commitments: &[(&[LOWEST], &[1])],
        change: Change::NoRows,
        indices: &[1],
        outcome: Outcome::Refused(
            "BatchOpenedValuesCountMismatch { batch: 0, expected: 1, got: 0 }",
        ),
    },
    Case {
        name: "rows that are not the commitment's",
        log_global_max_height: 1,
        commitments: &[(&[LOWEST], &[1])],
        change: Change::OtherRows,
        indices: &[1],
        outcome: Outcome::Refused("InputError(RootMismatch)"),
    },
    Case {
        name: "no points",
        log_global_max_height: 1,
        commitments: &[(&[LOWEST], &[1])],
        change: Change::NoPoints,
        indices: &[1],
        outcome: Outcome::Refused("MatrixWithoutOpeningPoints { batch: 0, matrix: 0 }"),
    },
    Case {
        name: "two values of one column",
        log_global_max_height: 1,
        commitments: &[(&[LOWEST], &[1])],
        change: Change::LongerValues,
        indices: &[1],
        outcome: Outcome::Refused(
            "PointEvaluationCountMismatch { batch: 0, matrix: 0, point: 1, expected: 1, got: 2 }",
        ),
    },
    Case {
        name: "a claimed point that is read",
        log_global_max_height: 1,
        commitments: &[(&[LOWEST], &[1])],
        change: Change::QueriedPoint,
        indices: &[1],
        outcome: Outcome::Refused(
            "OpeningPointMatchesQueryPoint { batch: 0, matrix: 0, point: 1 }",
        ),
    },
    Case {
        name: "a constant column, claimed as it is not",
        log_global_max_height: 1,
        commitments: &[(&[LOWEST], &[1])],
        change: Change::Nothing,
        indices: &[1],
        outcome: Outcome::Refused("FinalPolyMismatch"),
    },
];
