//! Commitments of several kinds, and requests for them at the same points.

use crate::kind::Kind;
use crate::lists::push;
use crate::matrices::element;
use crate::scheme::{Domain, Setting};
use p3_challenger::Sha256Challenger;
use p3_field::BabyBear4;
use p3_pcs::{OpeningRequest, Pcs};
use p3_test_openings::one::Opened;
use std::alloc::Global;
use std::process::Abort;

/// An opening, with the claims that it makes.
pub(crate) type Opening<P> = Opened<
    BabyBear4,
    [u8; 32],
    Domain,
    <P as Pcs<BabyBear4, Sha256Challenger>>::Proof,
>;

/// What is committed to, and the shifts and log sizes of domains on which its matrices are claimed.
pub(crate) struct Batch {
    pub kind: Kind,
    pub domains: &'static [(u64, usize)],
}

/// Batches that a scheme of that setting commits to, the first as preprocessing where that is said.
pub(crate) struct Batches {
    pub setting: Setting,
    pub each: &'static [Batch],
    pub is_preprocessed: bool,
}

/// Requests for the data of batches, each matrix at the points with these coefficients.
pub(crate) fn requests_of<'a, D>(
    rt: &impl Abort,
    alloc: Global,
    data: &'a mut [D],
    batches: &[Batch],
    coefficients: &[[u64; 4]],
) -> Vec<OpeningRequest<'a, D, BabyBear4>> {
    let mut requests = Vec::new(alloc);
    for (prover_data, batch) in data.iter_mut().zip(batches) {
        let mut points = Vec::new(alloc);
        for _domain in batch.domains {
            let mut of_matrix = Vec::new(alloc);
            for each in coefficients {
                push(rt, &mut of_matrix, element(*each));
            }
            push(rt, &mut points, of_matrix);
        }
        let request = OpeningRequest {
            prover_data,
            points,
        };
        push(rt, &mut requests, request);
    }
    requests
}
