//! From requests to what is to be opened.

ghost use Rattle.std.specs.Prelude.{◌≡◌, IfOk, map};
ghost use Rattle.p3_fri_openings.specs.Requests.{round_request, matrices_request};

use crate::round::OpeningRound;
use p3_field_core::Field;
use p3_mmcs::Mmcs;
use p3_pcs::OpeningRequest;
use std::alloc::{AllocError, Global};

/// For each request the matrices of its data, with its points.
pub fn rounds_of_requests<'a, F: Field, EF: Field, M: Mmcs<F>>(
    alloc: Global,
    mmcs: &M,
    requests: &'a [OpeningRequest<'_, M::ProverData, EF>],
) -> Result<Vec<OpeningRound<'a, F, EF>>, AllocError>
    ensures { IfOk result (λ rounds. map round_request rounds.items
        ≡ map (matrices_request M.committed) requests.now) }
{
    let mut rounds = Vec::with_capacity(alloc, requests.len())?;
    for request in requests {
        rounds.push(OpeningRound {
            matrices: mmcs.get_matrices(request.prover_data),
            points: &request.points,
        })?;
    }
    Ok(rounds)
}
