//! A periodic column, and the columns of a STARK, opened by one function over any scheme, which
//! opens random polynomials beside them here.

ghost use Rattle.std.specs.Prelude.{◌≡◌, ◌≢◌, ◌*◌, ◌^◌, [], All, length, map};
ghost use Rattle.p3_fri_hiding.specs.Quotients.{CanExtend};
ghost use Rattle.p3_fri_hiding_tests.specs.Fits.{Fits};

use crate::committable::chunks;
use crate::lists::{one, two};
use crate::matrices::{E, E_COLUMN, Entries, PI, coset, element, evaluation, evaluations};
use crate::openings::cases::are_moved;
use crate::openings::quotient::{CHUNKS, FIRST_CHUNK, SECOND_CHUNK};
use crate::openings::shapes::{ANY, Counts, First, are_opened_so};
use crate::scheme::{Domain, SMALL};
use crate::tested::Tested;
use p3_challenger::Sha256Challenger;
use p3_field::{BabyBear, BabyBear4, Field};
use p3_stark_columns::{StarkColumns, open_stark_columns};
use std::alloc::Global;
use std::process::Abort;

/// The root of unity of order 32, by which the rows of the trace are apart.
const GENERATOR: [u64; 4] = [760_005_850, 0, 0, 0];

static TRACE: [Entries; 1] = [Entries {
    shift: 1,
    width: 1,
    numbers: &PI,
}];

static QUOTIENT: [Entries; 2] = CHUNKS;

/// How many values are opened, and how many random ones beside the proof.
static COUNTS: [Counts; 4] = [[1, 2, 1], [1, 2, 1], [2, 1, 1], [1, 1, 4]];

static RANDOM_COUNTS: [Counts; 4] = [[1, 2, 0], [1, 2, 4], [2, 1, 4], [1, 1, 4]];

/// Preprocessing and trace have their first two rows, and the chunks recombine.
static FIRSTS: [First; 7] = [
    First {
        factor: 1,
        sum: Some(E[0]),
    },
    First {
        factor: 1,
        sum: Some(E[1]),
    },
    First {
        factor: 1,
        sum: Some(PI[0]),
    },
    First {
        factor: 1,
        sum: Some(PI[1]),
    },
    FIRST_CHUNK,
    SECOND_CHUNK,
    ANY,
];

/// Preprocessed and trace of one column each, and chunks of a quotient, with domains on which what
/// is committed to for them is claimed.
fn stark_columns(rt: &impl Abort, alloc: Global) -> StarkColumns<Domain, BabyBear>
    ensures preprocessed { All (λ e. Fits 2 e.0.log_size e.1) result.preprocessed.items }
    ensures some_matrix { result.preprocessed.items ≢ [] }
    ensures trace { All (λ e. Fits 2 e.0.log_size e.1) result.trace.items }
    ensures quotient { CanExtend ⟦<BabyBear as Field>⟧.ops (λ d. d.shift) (λ d. d.log_size) 27 2
        result.quotient.items (length result.quotient.items) }
    ensures quotient_domains { map (λ d. 2 ^ d.log_size) result.quotient_domains.items
        ≡ map (λ e. 2 * 2 ^ e.0.log_size) result.quotient.items }
{
    let preprocessed = one(rt, alloc, evaluation(rt, alloc, &E_COLUMN, 2));
    let trace = evaluations(rt, alloc, &TRACE, 2);
    let (first, second) = chunks(rt, alloc, &QUOTIENT);
    let of_first = coset(rt, 1, first.0.log_size() + 1);
    let of_second = coset(rt, 1, second.0.log_size() + 1);
    let quotient_domains = two(rt, alloc, of_first, of_second);
    let quotient = two(rt, alloc, first, second);
    StarkColumns {
        preprocessed,
        trace,
        quotient,
        quotient_domains,
    }
}

/// Whether a periodic column of 1 and 3 along a trace of 8 rows has a table of four rows on the
/// coset of 31 of 16 points: at the points 31 and -31 times a root of order 4 the values are
/// `2 - 31^4` and `2 + 31^4`. And whether the columns are opened at 1 and at the next row's point:
/// four commitments, of which the last is to four random polynomials, with these values, and with
/// random ones beside the proof, where both sides end in one state that isn't the first.
pub(crate) fn is_stark_served<P: Tested>(rt: &impl Abort, alloc: Global) -> bool {
    let mut scheme = P::of(SMALL);
    let period = two(rt, alloc, BabyBear::ONE, BabyBear::from_u64(3));
    let periodic = one(rt, alloc, period);
    let rows = coset(rt, 1, 3);
    let points = coset(rt, 31, 4);
    let table = scheme
        .build_periodic_lde_table(alloc, &periodic, rows, points)
        .expect(rt, "no table");
    let has_entries = (table.height() == 4)
        & (table.get(0, 0) == Some(BabyBear::from_u64(2_012_342_402)))
        & (table.get(14, 0) == Some(BabyBear::from_u64(923_523)));
    let mut challenger = Sha256Challenger::new();
    let columns = stark_columns(rt, alloc);
    let answer = open_stark_columns::<BabyBear4, Sha256Challenger, P>(
        &mut scheme,
        alloc,
        columns,
        BabyBear4::ONE,
        element(GENERATOR),
        &mut challenger,
    );
    let mut opened = answer.expect(rt, "not accepted");
    let random = P::random_values(&mut opened.verified.proof);
    let has_random_values = are_opened_so(&*random, &RANDOM_COUNTS, &[]);
    has_entries
        & has_random_values
        & (opened.known.len() == 4)
        & are_opened_so(&opened.verified.values, &COUNTS, &FIRSTS)
        & are_moved(&challenger, &opened.verified.challenger)
}
