//! The headline at a scheme that hides, and what else a STARK asks of it.

use crate::asked::{Question, hold};
use crate::kind::Kind;
use crate::lists::two;
use crate::matrices::{E, E_COLUMN, Entries, OTHER_POINT, PI, POINT, POINTS, element, evaluation};
use crate::openings::cases::{ACCEPTED, Asked, Call, are_moved};
use crate::openings::quotient::{AT_ONE, BATCHES};
use crate::openings::requests::{Batch, Batches};
use crate::openings::shapes::ANY;
use crate::scheme::SMALL;
use crate::tested::Tested;
use p3_challenger::Sha256Challenger;
use p3_test_openings::one::commit_and_show;
use std::alloc::Global;
use std::process::Abort;

/// Whether a column is opened at two points and verified: the data counts as opened, and both sides
/// end in one state that isn't the first.
pub(crate) fn is_column_accepted<P: Tested>(rt: &impl Abort, alloc: Global) -> bool {
    let mut challenger = Sha256Challenger::new();
    let mut scheme = P::of(SMALL);
    let column = evaluation(rt, alloc, &E_COLUMN, 2);
    let points = two(rt, alloc, element(POINT), element(OTHER_POINT));
    match commit_and_show(&mut scheme, alloc, column, points, &mut challenger) {
        Ok(shown) => { shown.1.is_opened() & are_moved(&challenger, &shown.0.challenger) }
        Err(_) => rt.panic("not accepted"),
    }
}

/// Preprocessing and a private column, of 32 rows each.
const BOTH: Batches = Batches {
    setting: SMALL,
    is_preprocessed: true,
    each: &[
        Batch {
            kind: Kind::Preprocessed(&[Entries {
                shift: 1,
                width: 1,
                numbers: &PI,
            }]),
            domains: &[(1, 6)],
        },
        Batch {
            kind: Kind::Private(&[Entries {
                shift: 1,
                width: 1,
                numbers: &E,
            }]),
            domains: &[(1, 6)],
        },
    ],
};

/// Both opened at two points: of the data the private column's alone counts as opened.
const AT_TWO: Asked = Asked {
    points: &POINTS,
    is_opened: &[false, true],
    values: &[[1, 2, 1], [1, 2, 1]],
    random: &[[1, 2, 0], [1, 2, 4]],
    firsts: &[ANY, ANY, ANY, ANY],
    call: Call::VerifyWithPreprocessing(Some(0)),
    ..ACCEPTED
};

/// A column, preprocessing beside a private column, a quotient beside its trace and random
/// polynomials, and a periodic column with these polynomials beside the columns of a STARK, which
/// are opened and verified by one call that serves preprocessing.
static QUESTIONS: [Question; 4] = [
    Question::IsColumnAccepted,
    Question::Openings(&BOTH, &[AT_TWO]),
    Question::Openings(&BATCHES, &[AT_ONE]),
    Question::IsStarkServed,
];

#[test]
fn what_a_stark_asks_is_answered(rt: HostRuntime) {
    hold(&rt, rt.alloc(), &QUESTIONS);
}
