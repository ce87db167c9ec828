//! Rounds of requests to open data that a tree of SHA-256 commits to.

use crate::opened::{Coefficients, Expected, is_opened, lists};
use crate::rounds::extended;
use p3_field::{BabyBear, BabyBear4};
use p3_fri_openings::rounds_of_requests;
use p3_mmcs::{Mmcs, Sha256Mmcs};
use p3_pcs::OpeningRequest;
use std::alloc::Global;
use std::process::Abort;

type Scheme = Sha256Mmcs<BabyBear>;

/// 7 and 5.
static POINTS: [Coefficients; 2] = [[7, 0, 0, 0], [5, 0, 0, 0]];

/// The values -5 and -3.
static VALUES: Expected = Expected::Opened {
    values: &[&[&[2_013_265_916, 2_013_265_918]]],
    coset: 4,
    points: &[([7, 0, 0, 0], 4), ([5, 0, 0, 0], 4)],
};

/// Whether a request for `2 - X` at the points opens these values.
fn is_met(rt: &impl Abort, alloc: Global) -> bool {
    let scheme = Scheme::new();
    let matrix = extended(rt, alloc, 1, &[1, 3]);
    let (_, mut data) = scheme.commit_matrix(alloc, matrix).expect(rt, "memory");
    let mut requests = Vec::new(alloc);
    let request = OpeningRequest {
        prover_data: &mut data,
        points: lists(rt, alloc, &[&POINTS]),
    };
    requests.push(request).expect(rt, "memory");
    let rounds = rounds_of_requests::<BabyBear, BabyBear4, Scheme>(alloc, &scheme, &requests);
    is_opened(rt, alloc, &rounds.expect(rt, "memory"), &VALUES)
}

#[test]
fn a_request_opens_its_data(rt: HostRuntime) {
    assert!(rt; is_met(&rt, rt.alloc()));
}
