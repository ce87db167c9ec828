//! What the calls that commit refuse, and the data that they give.

use crate::asked::{Question, hold};
use crate::kind::Kind;
use crate::masks::readings::Masks;
use crate::matrices::Entries;
use crate::scheme::{SMALL, Setting};
use crate::turns::Turn;
use p3_fri_masks::HidingFriProverError;

/// A budget that masks of 8 rows don't meet.
pub(crate) const LOW: HidingFriProverError = HidingFriProverError::HidingBudgetExceeded {
    mask_height: 8,
    num_queries: 2,
    num_opening_points: 1,
    extension_degree: 4,
};

/// Random codewords that are too few for an extension of degree 4.
const FEW_CODEWORDS: HidingFriProverError = HidingFriProverError::InsufficientRandomCodewords {
    required: 4,
    got: 3,
};

/// Columns of zeros.
const EIGHT: Entries = Entries {
    shift: 1,
    width: 1,
    numbers: &[0; 8],
};

const SIXTEEN: Entries = Entries {
    shift: 1,
    width: 1,
    numbers: &[0; 16],
};

const THIRTY_TWO: Entries = Entries {
    shift: 1,
    width: 1,
    numbers: &[0; 32],
};

/// Columns beside them on a coset.
const OTHER_EIGHT: Entries = Entries {
    shift: 31,
    width: 1,
    numbers: &[0; 8],
};

const OTHER_SIXTEEN: Entries = Entries {
    shift: 31,
    width: 1,
    numbers: &[0; 16],
};

/// Words in which the masks have 8, 16 and 32 rows, with a blowup of 4.
const WORD_OF_EIGHT: Entries = Entries {
    shift: 1,
    width: 1,
    numbers: &[0; 64],
};

const WORD_OF_SIXTEEN: Entries = Entries {
    shift: 1,
    width: 1,
    numbers: &[0; 128],
};

const WORD_OF_THIRTY_TWO: Entries = Entries {
    shift: 1,
    width: 1,
    numbers: &[0; 256],
};

/// A commitment of which nothing is read.
const UNREAD: Turn = Turn {
    kind: Kind::Private(&[]),
    is_by_fork: false,
    refusal: None,
    wanted: &[],
    masks: Masks::Any,
};

/// Each call that commits, in turn: to columns, to the same as preprocessing, to words with masks
/// of the same heights, to random polynomials on the domains of the columns, and to chunks of a
/// quotient, where there are some. All are refused so, or none is.
macro_rules! calls {
    ($refusal:expr, $columns:expr, $words:expr, $domains:expr $(, $chunks:expr)?) => {
        &[
            Turn { kind: Kind::Private($columns), refusal: $refusal, ..UNREAD },
            Turn { kind: Kind::Preprocessed($columns), refusal: $refusal, ..UNREAD },
            Turn { kind: Kind::Ldes($words), refusal: $refusal, ..UNREAD },
            Turn { kind: Kind::Random($domains), refusal: $refusal, ..UNREAD },
            $(Turn { kind: Kind::Chunks($chunks), refusal: $refusal, ..UNREAD },)?
        ]
    };
}

static CASES: [Question; 9] = [
    Question::InTurn(
        SMALL,
        calls!(
            Some(LOW),
            &[EIGHT],
            &[WORD_OF_EIGHT],
            &[(1, 4)],
            &[EIGHT, OTHER_EIGHT]
        ),
    ),
    Question::InTurn(
        SMALL,
        calls!(
            None,
            &[SIXTEEN],
            &[WORD_OF_SIXTEEN],
            &[(1, 5)],
            &[SIXTEEN, OTHER_SIXTEEN]
        ),
    ),
    // a budget that 16 rows meet exactly, and one that they miss by two
    Question::InTurn(
        Setting {
            num_queries: 4,
            ..SMALL
        },
        calls!(
            None,
            &[THIRTY_TWO, SIXTEEN],
            &[WORD_OF_THIRTY_TWO, WORD_OF_SIXTEEN],
            &[(1, 6), (1, 5)],
            &[SIXTEEN, OTHER_SIXTEEN]
        ),
    ),
    Question::InTurn(
        Setting {
            num_queries: 5,
            ..SMALL
        },
        calls!(
            Some(HidingFriProverError::HidingBudgetExceeded {
                mask_height: 16,
                num_queries: 5,
                num_opening_points: 1,
                extension_degree: 4,
            }),
            &[THIRTY_TWO, SIXTEEN],
            &[WORD_OF_THIRTY_TWO, WORD_OF_SIXTEEN],
            &[(1, 6), (1, 5)],
            &[SIXTEEN, OTHER_SIXTEEN]
        ),
    ),
    Question::InTurn(
        Setting {
            num_random_codewords: 3,
            ..SMALL
        },
        calls!(
            Some(FEW_CODEWORDS),
            &[SIXTEEN],
            &[WORD_OF_SIXTEEN],
            &[(1, 5)],
            &[SIXTEEN, OTHER_SIXTEEN]
        ),
    ),
    Question::InTurn(
        Setting {
            num_queries: usize::MAX,
            ..SMALL
        },
        calls!(
            Some(HidingFriProverError::BudgetOverflow),
            &[SIXTEEN],
            &[WORD_OF_SIXTEEN],
            &[(1, 5)],
            &[SIXTEEN, OTHER_SIXTEEN]
        ),
    ),
    Question::InTurn(
        Setting {
            num_random_codewords: 3,
            num_queries: usize::MAX,
            ..SMALL
        },
        calls!(
            Some(FEW_CODEWORDS),
            &[EIGHT],
            &[WORD_OF_EIGHT],
            &[(1, 4)],
            &[EIGHT, OTHER_EIGHT]
        ),
    ),
    // of no matrices no budget is asked
    Question::InTurn(SMALL, calls!(None, &[], &[], &[])),
    Question::InTurn(
        Setting {
            num_random_codewords: 0,
            num_queries: usize::MAX,
            ..SMALL
        },
        calls!(None, &[], &[], &[]),
    ),
];

#[test]
fn the_budget_is_met_or_refused(rt: HostRuntime) {
    hold(&rt, rt.alloc(), &CASES);
}
