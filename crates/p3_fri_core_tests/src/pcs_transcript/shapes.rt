//! Opened values and claims, and the shapes and streams that they have.

ghost use Rattle.std.specs.Prelude.{◌≡◌};

use crate::pcs_transcript::cases::{Claim, Counts};
use p3_field::{BabyBear, BabyBear4, Field};
use p3_fri_core::FriParameters;
use p3_fri_core::pcs_transcript::PcsShape;
use p3_mmcs::{CommitmentOpening, MatrixOpening, OpenedValues, PointOpening};
use std::alloc::Global;
use std::process::Abort;

/// The parameters of a test whose openings are batched behind so many bits of proof of work.
pub(crate) fn parameters(batch_proof_of_work_bits: usize) -> FriParameters<()>
    ensures { result.batch_proof_of_work_bits ≡ batch_proof_of_work_bits }
{
    FriParameters {
        log_blowup: 1,
        log_final_poly_len: 0,
        max_log_arity: 1,
        num_queries: 2,
        batch_proof_of_work_bits,
        commit_proof_of_work_bits: 0,
        query_proof_of_work_bits: 0,
        mmcs: (),
    }
}

/// The list of one value.
fn listed<T>(rt: &impl Abort, alloc: Global, value: T) -> Vec<T> {
    let mut values = Vec::new(alloc);
    values.push(value).expect(rt, "memory");
    values
}

/// The value one at one point of one matrix.
pub(crate) fn one_value(rt: &impl Abort, alloc: Global) -> OpenedValues<BabyBear4> {
    let points = listed(rt, alloc, listed(rt, alloc, BabyBear4::ONE));
    listed(rt, alloc, listed(rt, alloc, points))
}

/// The claim of so many values at one point of one matrix, or none at all.
pub(crate) fn claims_of(rt: &impl Abort, alloc: Global, count: usize) -> Vec<Claim> {
    let mut claims = Vec::new(alloc);
    if count != 0 {
        let mut values = Vec::new(alloc);
        for index in 0..count {
            let value = if index == 1 {
                BabyBear4::ZERO
            } else {
                BabyBear4::ONE
            };
            values.push(value).expect(rt, "memory");
        }
        let point = PointOpening {
            point: BabyBear4::ZERO,
            values,
        };
        let matrix = MatrixOpening {
            domain: (),
            points: listed(rt, alloc, point),
        };
        let claim = CommitmentOpening {
            commitment: [7u8; 32],
            matrices: listed(rt, alloc, matrix),
        };
        claims.push(claim).expect(rt, "memory");
    }
    claims
}

/// A shape by its counts.
pub(crate) fn shape_of(rt: &impl Abort, alloc: Global, counts: Counts) -> PcsShape {
    let mut claimed_evaluation_counts = Vec::new(alloc);
    for matrices in counts {
        let mut of_matrices = Vec::new(alloc);
        for points in *matrices {
            let of_points = Vec::from_slice(alloc, *points).expect(rt, "memory");
            of_matrices.push(of_points).expect(rt, "memory");
        }
        claimed_evaluation_counts
            .push(of_matrices)
            .expect(rt, "memory");
    }
    PcsShape {
        claimed_evaluation_counts,
        batch_pow_bits: 0,
    }
}

/// The stream of a shape by its counts.
fn stream_of(rt: &impl Abort, alloc: Global, counts: Counts) -> Vec<u8> {
    let separator = shape_of(rt, alloc, counts).domain_separator::<BabyBear, BabyBear4>(alloc);
    separator
        .expect(rt, "memory")
        .seed_stream(alloc)
        .expect(rt, "memory")
}

const TWO_MATRICES: Counts = &[&[&[3], &[3]]];

const TWO_POINTS: Counts = &[&[&[3, 3]]];

const TWO_COMMITMENTS: Counts = &[&[&[3]], &[&[3]]];

/// Two shapes.
static GROUPINGS: [(&str, Counts, Counts); 3] = [
    ("matrices and points", TWO_MATRICES, TWO_POINTS),
    ("commitments and matrices", TWO_COMMITMENTS, TWO_MATRICES),
    ("commitments and points", TWO_COMMITMENTS, TWO_POINTS),
];

/// Numbers of claimed values at one point of one matrix, and the numbers of their shape.
static CLAIMED: [(&str, usize, Counts); 4] = [
    ("none claimed", 0, &[]),
    ("one claimed", 1, &[&[&[1]]]),
    ("two claimed", 2, &[&[&[2]]]),
    ("three claimed", 3, &[&[&[3]]]),
];

#[test]
fn groupings_have_streams_of_their_own(rt: HostRuntime) {
    let alloc = rt.alloc();
    for (name, one, other) in &GROUPINGS {
        if stream_of(&rt, alloc, *one) == stream_of(&rt, alloc, *other) {
            rt.panic(*name);
        }
    }
    for (name, claimed, counts) in &CLAIMED {
        let claims = claims_of(&rt, alloc, *claimed);
        let shape = PcsShape::from_claims(alloc, &parameters(0), &claims).expect(&rt, "memory");
        if shape != shape_of(&rt, alloc, *counts) {
            rt.panic(*name);
        }
    }
    // three openings are six steps
    let shape = shape_of(&rt, alloc, &[&[&[3, 1], &[]], &[&[2]]]);
    let copy = shape.clone(alloc).expect(&rt, "memory");
    let pattern = shape.pattern::<BabyBear, BabyBear4>(alloc);
    let num_steps = pattern.expect(&rt, "memory").steps().len();
    assert!(rt; (copy == shape) & (shape.num_openings() == 3) & (num_steps == 6));
}
