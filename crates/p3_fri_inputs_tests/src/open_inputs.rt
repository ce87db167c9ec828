//! Matrices committed to, claimed and opened as the cases say.

ghost use Rattle.std.specs.Prelude.{◌≡◌, ◌^◌, ◌<◌};

use crate::cases::{Case, Change, Coefficients, Columns, Outcome, REFUSED, SUMS};
use crate::commitments::{commit_and_open, matrix_of};
use p3_field::{
    BabyBear, BabyBear4, ExtensionField, Field, TwoAdicField, TwoAdicMultiplicativeCoset,
};
use p3_fri_folding::FriParameters;
use p3_fri_inputs::{heights_are_within, open_inputs};
use p3_fri_relation::error::{FriError, FriOpenings};
use p3_fri_relation::proof::BatchMultiOpening;
use p3_matrix::RowMajorMatrix;
use p3_mmcs::{
    CommitmentOpening, MatrixOpening, PointOpening, Sha256Mmcs, Sha256MmcsError, indices_are_below,
};
use std::alloc::Global;
use std::process::Abort;

type Inputs = Sha256Mmcs<BabyBear>;

type Rounds = Sha256Mmcs<BabyBear4>;

type Domain = TwoAdicMultiplicativeCoset<BabyBear>;

type Claim = CommitmentOpening<BabyBear4, [u8; 32], Domain>;

type Opening = BatchMultiOpening<BabyBear, Inputs>;

type Answer = Result<Vec<FriOpenings<BabyBear4>>, FriError<Sha256MmcsError, Sha256MmcsError>>;

/// The element with the coefficients `n`, `n + 1`, `n + 2` and `n + 3`, that of one first.
fn extended(n: u32) -> BabyBear4 {
    let n = u64::from(n);
    element([n, n + 1, n + 2, n + 3])
}

/// The element with these coefficients.
fn element(coefficients: Coefficients) -> BabyBear4 {
    let [constant, linear, quadratic, cubic] = coefficients;
    BabyBear4::from_coefficients(&[
        BabyBear::from_u64(constant),
        BabyBear::from_u64(linear),
        BabyBear::from_u64(quadratic),
        BabyBear::from_u64(cubic),
    ])
}

/// The matrix whose entries are `1000 * seed + 10 * row + column + 1`.
fn matrix(rt: &impl Abort, alloc: Global, columns: &Columns) -> RowMajorMatrix<BabyBear> {
    let mut values = Vec::new(alloc);
    for row in 0..columns.height {
        for column in 0..columns.width {
            let entry = 1000 * u64::from(columns.seed)
                + 10 * u64::from(row)
                + u64::from(column)
                + 1;
            values.push(BabyBear::from_u64(entry)).expect(rt, "memory");
        }
    }
    matrix_of(rt, values, usize::from(columns.width))
}

/// The elements from this one on, one for each column.
fn values(rt: &impl Abort, alloc: Global, first: u32, width: u16) -> Vec<BabyBear4> {
    let mut values = Vec::new(alloc);
    for column in 0..width {
        let value = extended(first.wrapping_add(u32::from(column)));
        values.push(value).expect(rt, "memory");
    }
    values
}

/// What is claimed of the columns: at point `p` of column `c` the element from `100 * seed + 10 * p
/// + c` on.
fn points(rt: &impl Abort, alloc: Global, columns: &Columns) -> Vec<PointOpening<BabyBear4>> {
    let mut points = Vec::new(alloc);
    let mut first: u32 = 100 * u32::from(columns.seed);
    for point in columns.points {
        let opening = PointOpening {
            point: extended(*point),
            values: values(rt, alloc, first, columns.width),
        };
        points.push(opening).expect(rt, "memory");
        first = first.wrapping_add(10);
    }
    points
}

/// What is claimed of the matrices.
fn claimed(
    rt: &impl Abort,
    alloc: Global,
    all: &[Columns],
) -> Vec<MatrixOpening<BabyBear4, Domain>> {
    let mut claimed = Vec::new(alloc);
    for columns in all {
        let domain = Domain::new(BabyBear::ONE, columns.log_size).expect(rt, "a domain");
        let points = points(rt, alloc, columns);
        claimed
            .push(MatrixOpening { domain, points })
            .expect(rt, "memory");
    }
    claimed
}

/// These matrices.
fn matrices(rt: &impl Abort, alloc: Global, all: &[Columns]) -> Vec<RowMajorMatrix<BabyBear>> {
    let mut matrices = Vec::new(alloc);
    for columns in all {
        matrices
            .push(matrix(rt, alloc, columns))
            .expect(rt, "memory");
    }
    matrices
}

/// One commitment to these matrices, as it is claimed, and as it is opened at these indices.
fn commitment_of(
    rt: &impl Abort,
    alloc: Global,
    all: &[Columns],
    indices: &[usize],
) -> (Claim, Opening) {
    let committed = matrices(rt, alloc, all);
    let (commitment, opened_values, opening_proof) = commit_and_open(
        rt,
        alloc,
        &Inputs::new(),
        committed,
        indices,
    );
    let claim = CommitmentOpening {
        commitment,
        matrices: claimed(rt, alloc, all),
    };
    let opening = BatchMultiOpening {
        opened_values,
        opening_proof,
    };
    (claim, opening)
}

/// The commitments of the case, as they are claimed and as they are opened.
fn commitments_of(rt: &impl Abort, alloc: Global, case: &Case) -> (Vec<Claim>, Vec<Opening>) {
    let mut claims = Vec::new(alloc);
    let mut openings = Vec::new(alloc);
    for (all, indices) in case.commitments {
        let (claim, opening) = commitment_of(rt, alloc, *all, *indices);
        claims.push(claim).expect(rt, "memory");
        openings.push(opening).expect(rt, "memory");
    }
    (claims, openings)
}

/// What is opened with that change, where it is one of theirs.
fn change_openings(openings: &mut Vec<Opening>, change: Change) {
    if let Change::NoOpenings = change {
        openings.clear();
    }
    for opening in openings {
        for rows in &mut opening.opened_values {
            change_rows(rows, change);
        }
    }
}

/// The rows with that change, where it is one of theirs.
fn change_rows(rows: &mut Vec<Vec<BabyBear>>, change: Change) {
    match change {
        Change::NoRows => rows.clear(),
        Change::OtherRows => {
            for row in rows {
                for value in row {
                    *value = BabyBear::ONE;
                }
            }
        },
        _ => {},
    }
}

/// The claims with that change, where it is one of theirs.
fn change_claims(rt: &impl Abort, claims: &mut Vec<Claim>, change: Change) {
    for claim in claims {
        for matrix in &mut claim.matrices {
            change_points(rt, &mut matrix.points, change);
        }
    }
}

/// The claimed points with that change, where it is one of theirs.
fn change_points(rt: &impl Abort, points: &mut Vec<PointOpening<BabyBear4>>, change: Change) {
    match change {
        Change::NoPoints => points.clear(),
        Change::LongerValues => {
            if let Some(last) = points.last_mut() {
                last.values.push(BabyBear4::ONE).expect(rt, "memory");
            }
        },
        Change::QueriedPoint => {
            if let Some(last) = points.last_mut() {
                last.point = element([2_013_265_890, 0, 0, 0]);
            }
        },
        Change::ConstantValues => {
            for opened in points {
                for value in &mut opened.values {
                    *value = element([1011, 0, 0, 0]);
                }
            }
        },
        _ => {},
    }
}

/// The power of two of this logarithm.
fn power_of_two(logarithm: usize) -> usize
    requires { logarithm < 64 }
    ensures { result ≡ 2 ^ logarithm }
{
    1 << logarithm
}

/// What the call answers at the batching challenge from 5 on, if its conditions hold.
fn answer(
    rt: &impl Abort,
    alloc: Global,
    case: &Case,
    claims: &[Claim],
    openings: &[Opening],
) -> Answer {
    let log_global_max_height = case.log_global_max_height;
    assert!(rt;
        log_global_max_height <= BabyBear::TWO_ADICITY
            && indices_are_below(case.indices, power_of_two(log_global_max_height))
            && heights_are_within(claims, 1, log_global_max_height),
        "not conditions of the call"
    );
    let mut params = FriParameters::new_testing(Rounds::new(), 0);
    params.log_blowup = 1;
    open_inputs(
        alloc,
        &params,
        log_global_max_height,
        case.indices,
        openings,
        extended(5),
        &Inputs::new(),
        claims,
    )
}

/// Whether a query's sums are these.
fn are_sums(sums: &[(usize, BabyBear4)], expected: &[(usize, Coefficients)]) -> bool {
    for ((height, sum), (log_height, coefficients)) in sums.iter().zip(expected) {
        if *height != *log_height || *sum != element(*coefficients) {
            return false;
        }
    }
    sums.len() == expected.len()
}

/// Whether each query's are.
fn are_each(all: &[FriOpenings<BabyBear4>], expected: &[&[(usize, Coefficients)]]) -> bool {
    for (sums, expected) in all.iter().zip(expected) {
        if !are_sums(sums, *expected) {
            return false;
        }
    }
    all.len() == expected.len()
}

/// Whether this is the outcome.
fn is_outcome(rt: &impl Abort, alloc: Global, answer: &Answer, outcome: Outcome) -> bool {
    match (answer, outcome) {
        (Ok(sums), Outcome::Sums(expected)) => are_each(sums, expected),
        (Err(refusal), Outcome::Refused(text)) => {
            format!(in alloc; "{refusal:?}")
                .expect(rt, "memory")
                .as_str()
                == text
        },
        _ => false,
    }
}

/// Whether the case has its outcome.
fn is_met(rt: &impl Abort, alloc: Global, case: &Case) -> bool {
    let (mut claims, mut openings) = commitments_of(rt, alloc, case);
    change_openings(&mut openings, case.change);
    change_claims(rt, &mut claims, case.change);
    let answer = answer(rt, alloc, case, &claims, &openings);
    is_outcome(rt, alloc, &answer, case.outcome)
}

/// Asserts that each case has its outcome.
pub(crate) fn assert_all(rt: &impl Abort, alloc: Global, cases: &[Case]) {
    for case in cases {
        assert!(rt; is_met(rt, alloc, case), "{}", case.name);
    }
}

#[test]
fn sums_up_quotients(rt: HostRuntime) {
    assert_all(&rt, rt.alloc(), &SUMS);
}

#[test]
fn refuses_openings(rt: HostRuntime) {
    assert_all(&rt, rt.alloc(), &REFUSED);
}
