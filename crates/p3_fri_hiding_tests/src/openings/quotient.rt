//! The words of a quotient's chunks, opened beside a trace and random polynomials.

use crate::kind::Kind;
use crate::matrices::{Entries, SHORT_E, SHORT_PI};
use crate::openings::cases::{ACCEPTED, Asked, Call};
use crate::openings::requests::{Batch, Batches};
use crate::openings::shapes::{ANY, First};
use crate::scheme::SMALL;

/// Two chunks of a quotient, each a column of 16 rows, on the halves of the coset of 31 of 32
/// points.
pub(crate) const CHUNKS: [Entries; 2] = [
    Entries {
        shift: 31,
        width: 1,
        numbers: &SHORT_PI,
    },
    Entries {
        shift: 1_414_256_219,
        width: 1,
        numbers: &SHORT_E,
    },
];

/// The values at 1 of the first chunk and of the second: they recombine to the quotient at 1 of the
/// chunks as they were handed in.
pub(crate) const FIRST_CHUNK: First = First {
    factor: 1_683_716_237,
    sum: None,
};

pub(crate) const SECOND_CHUNK: First = First {
    factor: 329_549_685,
    sum: Some(1_664_801_475),
};

/// A trace of 16 rows.
const TRACE: [Entries; 1] = [Entries {
    shift: 1,
    width: 1,
    numbers: &SHORT_PI,
}];

/// Random polynomials on the trace's domain, the trace, and the chunks.
pub(crate) const BATCHES: Batches = Batches {
    setting: SMALL,
    is_preprocessed: false,
    each: &[
        Batch {
            kind: Kind::Random(&[(1, 5)]),
            domains: &[(1, 5)],
        },
        Batch {
            kind: Kind::Private(&TRACE),
            domains: &[(1, 5)],
        },
        Batch {
            kind: Kind::Chunks(&CHUNKS),
            domains: &[(1, 5), (1, 5)],
        },
    ],
};

/// They are opened at 1: the trace has its first row there.
pub(crate) const AT_ONE: Asked = Asked {
    points: &[[1, 0, 0, 0]],
    is_opened: &[true, true, true],
    values: &[[1, 1, 4], [1, 1, 1], [2, 1, 1]],
    random: &[[1, 1, 4], [1, 1, 4], [2, 1, 4]],
    firsts: &[
        ANY,
        First {
            factor: 1,
            sum: Some(SHORT_PI[0]),
        },
        FIRST_CHUNK,
        SECOND_CHUNK,
    ],
    call: Call::VerifyWithPreprocessing(None),
    ..ACCEPTED
};
