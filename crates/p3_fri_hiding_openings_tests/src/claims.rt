//! Claims by their numbers.

use crate::numbers::numbered;
use p3_field::{BabyBear, BabyBear4, Field, TwoAdicMultiplicativeCoset};
use p3_mmcs::{CommitmentOpening, MatrixOpening, PointOpening};
use std::alloc::Global;
use std::process::Abort;

pub(crate) type Domain = TwoAdicMultiplicativeCoset<BabyBear>;

pub(crate) type Claim<Com> = CommitmentOpening<BabyBear4, Com, Domain>;

/// Matrices under commitments, each with the log size of its domain and the number of values that
/// are claimed at each point.
pub(crate) type Claimed = &'static [&'static [(usize, &'static [usize])]];

/// The claims of values at points, numbered on from `next`.
fn points_of(
    rt: &impl Abort,
    alloc: Global,
    counts: &[usize],
    next: &mut u64,
) -> Vec<PointOpening<BabyBear4>> {
    let mut points = Vec::new(alloc);
    for count in counts {
        let opening = PointOpening {
            point: BabyBear4::ZERO,
            values: numbered(rt, alloc, next, *count),
        };
        points.push(opening).expect(rt, "memory");
    }
    points
}

/// The claims of these matrices, under commitments that are all the same.
pub(crate) fn claims_of<Com: Copy>(
    rt: &impl Abort,
    alloc: Global,
    commitment: Com,
    claimed: Claimed,
) -> Vec<Claim<Com>> {
    let mut next = 1;
    let mut claims = Vec::new(alloc);
    for matrices in claimed {
        let mut openings = Vec::new(alloc);
        for (log_size, counts) in *matrices {
            let opening = MatrixOpening {
                domain: Domain::new(BabyBear::ONE, *log_size).expect(rt, "no such domain"),
                points: points_of(rt, alloc, counts, &mut next),
            };
            openings.push(opening).expect(rt, "memory");
        }
        let claim = CommitmentOpening {
            commitment,
            matrices: openings,
        };
        claims.push(claim).expect(rt, "memory");
    }
    claims
}
