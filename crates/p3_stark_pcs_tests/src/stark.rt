//! The columns of a STARK, opened by one function over any scheme.

ghost use Rattle.std.specs.Prelude.{◌≡◌, ◌≢◌, [], All, map};
ghost use Rattle.p3_fri_extensions.specs.Extension.{FitsDomain};

use crate::columns::{columns, domains_of};
use crate::parts::Part;
use crate::scheme::Domain;
use crate::tested::Tested;
use crate::values::{Coefficients, Values, are_opened_alike, element};
use p3_challenger::Sha256Challenger;
use p3_field::BabyBear;
use p3_stark_columns::{StarkColumns, open_stark_columns};
use std::alloc::Global;
use std::process::Abort;

/// `2 - X` as a preprocessed column.
static PREPROCESSED: [(u64, &[u64]); 1] = [(1, &[1, 3])];

/// `7 + X` and `1 + X^3`.
static TRACE: [(u64, &[u64]); 2] = [(1, &[8, 6]), (1, &[2, 284_861_409, 0, 1_728_404_514])];

/// `2 - X` on the coset of 3 of two points, and `4 + 2 * X` on the other half of that of four.
static QUOTIENT: [(u64, &[u64]); 2] = [
    (3, &[2_013_265_920, 5]),
    (1_158_681_697, &[304_097_477, 1_709_168_452]),
];

/// These columns, each matrix on its domain.
fn stark_columns(rt: &impl Abort, alloc: Global) -> StarkColumns<Domain, BabyBear>
    ensures preprocessed { All (λ e. FitsDomain 27 1 e.0.log_size e.1) result.preprocessed.items }
    ensures some_matrix { result.preprocessed.items ≢ [] }
    ensures trace { All (λ e. FitsDomain 27 1 e.0.log_size e.1) result.trace.items }
    ensures quotient { All (λ e. FitsDomain 27 1 e.0.log_size e.1) result.quotient.items }
    ensures quotient_domains { result.quotient_domains.items
        ≡ map (λ e. e.0) result.quotient.items }
{
    let preprocessed = columns(rt, alloc, &PREPROCESSED);
    assert!(rt; !preprocessed.is_empty(), "no preprocessed column");
    let trace = columns(rt, alloc, &TRACE);
    let quotient = columns(rt, alloc, &QUOTIENT);
    let quotient_domains = domains_of(rt, alloc, &quotient);
    StarkColumns {
        preprocessed,
        trace,
        quotient,
        quotient_domains,
    }
}

/// A point with its successor, and the values that are opened.
#[derive(Clone, Copy)]
pub(crate) struct Case {
    point: Coefficients,
    successor: Coefficients,
    values: Values<'static>,
}

/// Whether the columns have these values, and both sides end in one state that isn't the first.
pub(crate) fn are_opened<P: Tested>(
    rt: &impl Abort,
    alloc: Global,
    mut scheme: P,
    case: &Case,
) -> bool
    requires tested { P.IsTested scheme }
    requires prover { (P.rules scheme).InProverRange }
    requires verifier { (P.rules scheme).InVerifierRange }
{
    let columns = stark_columns(rt, alloc);
    let mut challenger = Sha256Challenger::new();
    let opened = open_stark_columns(
        &mut scheme,
        alloc,
        columns,
        element(case.point),
        element(case.successor),
        &mut challenger,
    );
    let Ok(shown) = opened else {
        panic!(rt; "not accepted")
    };
    let verified = &shown.verified;
    are_opened_alike(
        &verified.values,
        case.values,
        &challenger,
        &verified.challenger,
    )
}

/// At 5 and at `X`, with 1728404513 the root of unity of order 4 that leads to the successor.
pub(crate) static PARTS: [Part; 2] = [
    Part::Stark(Case {
        point: [5, 0, 0, 0],
        successor: [588_958_881, 0, 0, 0],
        values: &[
            &[&[[2_013_265_918, 0, 0, 0], [1_424_307_042, 0, 0, 0]]],
            &[
                &[[12, 0, 0, 0], [588_958_888, 0, 0, 0]],
                &[[126, 0, 0, 0], [1_382_155_344, 0, 0, 0]],
            ],
            &[&[[2_013_265_918, 0, 0, 0]], &[[14, 0, 0, 0]]],
        ],
    }),
    Part::Stark(Case {
        point: [0, 1, 0, 0],
        successor: [0, 1_728_404_513, 0, 0],
        values: &[
            &[&[[2, 2_013_265_920, 0, 0], [2, 284_861_408, 0, 0]]],
            &[
                &[[7, 1, 0, 0], [7, 1_728_404_513, 0, 0]],
                &[[1, 0, 0, 1], [1, 0, 0, 284_861_408]],
            ],
            &[&[[2, 2_013_265_920, 0, 0]], &[[4, 2, 0, 0]]],
        ],
    }),
];
