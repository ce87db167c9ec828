//! Committed matrices: what is read of them on their domains.

pub(crate) mod readings;

use crate::asked::{Question, hold};
use crate::budgets::LOW;
use crate::kind::Kind;
use crate::matrices::{E, Entries, PI};
use crate::scheme::SMALL;
use crate::turns::Turn;
use readings::{Masked, Masks};

/// 16 rows and 32 rows.
const TRACES: [Entries; 2] = [
    Entries {
        shift: 1,
        width: 2,
        numbers: &PI,
    },
    Entries {
        shift: 5,
        width: 1,
        numbers: &E,
    },
];

/// Both, with a mask after each row and four columns of masks beside.
const MASKED_PI: Masked = Masked {
    domain: (1, 5),
    numbers: &PI,
    width: 2,
    has_rows_between: true,
    height: 32,
    columns: 6,
    shown: 2,
};

const MASKED_E: Masked = Masked {
    domain: (5, 6),
    numbers: &E,
    width: 1,
    has_rows_between: true,
    height: 64,
    columns: 5,
    shown: 1,
};

/// The masks of a scheme's commitments are the words of its generator in turn.
const WORDS: Turn = Turn {
    kind: Kind::Private(&TRACES),
    is_by_fork: false,
    refusal: None,
    wanted: &[MASKED_PI, MASKED_E],
    masks: Masks::Words,
};

const TWICE: [Turn; 2] = [WORDS, WORDS];

/// Matrices of which the second is too low for the budget.
const TOO_LOW: [Entries; 2] = [
    Entries {
        shift: 1,
        width: 1,
        numbers: &[0; 32],
    },
    Entries {
        shift: 1,
        width: 1,
        numbers: &[0; 8],
    },
];

/// A refusal takes none of the words.
const AFTER_A_REFUSAL: [Turn; 3] = [
    Turn {
        kind: Kind::Private(&TOO_LOW),
        refusal: Some(LOW),
        ..WORDS
    },
    WORDS,
    WORDS,
];

/// All columns of preprocessed matrices are shown, with zeros between their rows.
const PREPROCESSED: [Turn; 1] = [Turn {
    kind: Kind::Preprocessed(&TRACES),
    wanted: &[
        Masked {
            columns: 2,
            ..MASKED_PI
        },
        Masked {
            columns: 1,
            ..MASKED_E
        },
    ],
    masks: Masks::Zeros,
    ..WORDS
}];

/// Random polynomials for domains of 32 and of 64 points: 8 columns each, of the next words.
const RANDOM_COLUMNS: Masked = Masked {
    domain: (1, 5),
    numbers: &[],
    width: 0,
    has_rows_between: false,
    height: 32,
    columns: 8,
    shown: 4,
};

const RANDOM: [Turn; 1] = [Turn {
    kind: Kind::Random(&[(1, 5), (5, 6)]),
    wanted: &[
        RANDOM_COLUMNS,
        Masked {
            domain: (5, 6),
            height: 64,
            ..RANDOM_COLUMNS
        },
    ],
    ..WORDS
}];

/// What is committed to by forks.
const FORKED: Turn = Turn {
    is_by_fork: true,
    kind: Kind::Private(&[Entries {
        shift: 5,
        width: 1,
        numbers: &E,
    }]),
    masks: Masks::Any,
    ..WORDS
};

/// Its first rows, masks and all.
const FIRST_ROWS: Masked = Masked {
    width: 5,
    has_rows_between: false,
    ..MASKED_E
};

/// Its first two rows with masks, by the generator of a scheme's first fork, by that of its second
/// and by that of the scheme, which was forked twice then.
const FORKS: [Turn; 3] = [
    Turn {
        wanted: &[Masked {
            numbers: &[
                2,
                1_235_608_696,
                834_574_559,
                1_879_293_789,
                401_717_771,
                154_003_393,
                1_503_105_165,
                111_776_947,
                273_203_997,
                606_673_375,
            ],
            ..FIRST_ROWS
        }],
        ..FORKED
    },
    Turn {
        wanted: &[Masked {
            numbers: &[
                2,
                320_492_493,
                27_080_796,
                309_016_361,
                700_114_757,
                1_300_739_413,
                1_254_157_230,
                281_660_884,
                1_732_025_374,
                274_647_590,
            ],
            ..FIRST_ROWS
        }],
        ..FORKED
    },
    Turn {
        is_by_fork: false,
        wanted: &[Masked {
            numbers: &[
                2,
                143_829_583,
                565_231_705,
                1_818_524_112,
                1_722_409_120,
                1_210_015_426,
                1_307_057_766,
                36_701_473,
                1_056_710_320,
                1_485_158_692,
            ],
            ..FIRST_ROWS
        }],
        ..FORKED
    },
];

/// The values at 5 of all columns of two masked chunks: the last four only hide the others.
const FIRST_AT_FIVE: [u64; 6] = [
    32_742_644,
    1_833_442_057,
    468_616_025,
    1_712_745_302,
    1_029_365_084,
    771_241_103,
];

const SECOND_AT_FIVE: [u64; 6] = [
    536_041_728,
    1_312_185_036,
    1_867_161_949,
    1_045_928_189,
    1_688_948_755,
    1_768_662_780,
];

/// What these are multiplied by where they are recombined.
const FACTORS_AT_FIVE: [u64; 2] = [198_688_671, 1_814_577_251];

/// The recombined quotient at 5 of each column of the chunks as they were handed in.
const QUOTIENT_AT_FIVE: [u64; 2] = [699_564_735, 1_070_878_612];

/// The columns that are shown recombine to it.
const _: () = prove!(
    (FACTORS_AT_FIVE[0] * FIRST_AT_FIVE[0] + FACTORS_AT_FIVE[1] * SECOND_AT_FIVE[0]) % 2_013_265_921
        == QUOTIENT_AT_FIVE[0]
);

const _: () = prove!(
    (FACTORS_AT_FIVE[0] * FIRST_AT_FIVE[1] + FACTORS_AT_FIVE[1] * SECOND_AT_FIVE[1]) % 2_013_265_921
        == QUOTIENT_AT_FIVE[1]
);

const CHUNK_AT_FIVE: Masked = Masked {
    domain: (5, 0),
    numbers: &FIRST_AT_FIVE,
    width: 6,
    has_rows_between: false,
    height: 1,
    columns: 6,
    shown: 2,
};

/// Two chunks of 16 rows, on the halves of the coset of 31 of 32 points, read at 5.
const CHUNKS: [Turn; 1] = [Turn {
    kind: Kind::Chunks(&[
        Entries {
            shift: 31,
            width: 2,
            numbers: &PI,
        },
        Entries {
            shift: 1_414_256_219,
            width: 2,
            numbers: &E,
        },
    ]),
    wanted: &[
        CHUNK_AT_FIVE,
        Masked {
            numbers: &SECOND_AT_FIVE,
            ..CHUNK_AT_FIVE
        },
    ],
    masks: Masks::Any,
    ..WORDS
}];

/// What is asked of committed matrices.
static QUESTIONS: [Question; 6] = [
    Question::InTurn(SMALL, &TWICE),
    Question::InTurn(SMALL, &AFTER_A_REFUSAL),
    Question::InTurn(SMALL, &PREPROCESSED),
    Question::InTurn(SMALL, &FORKS),
    Question::InTurn(SMALL, &CHUNKS),
    Question::InTurn(SMALL, &RANDOM),
];

#[test]
fn committed_matrices_are_read(rt: HostRuntime) {
    hold(&rt, rt.alloc(), &QUESTIONS);
}
