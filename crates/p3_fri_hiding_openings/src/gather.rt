//! What is opened inside of requests to a scheme that hides.

ghost use Rattle.std.specs.Prelude.{◌≡◌, IfOk, map};
ghost use Rattle.p3_fri_openings.specs.Requests.{round_request, matrices_request};
ghost use Rattle.p3_fri_hiding_openings.specs.Requests.{inner_request};

use crate::data::HidingFriPcsProverData;
use p3_field_core::Field;
use p3_fri_openings::OpeningRound;
use p3_fri_prover::prover::ProverDataWithOpeningPoints;
use p3_mmcs::Mmcs;
use p3_pcs::OpeningRequest;
use std::alloc::{AllocError, Global};

/// The matrices of each request's data, with its points.
pub(crate) fn hidden_rounds<'a, F: Field, EF: Field, InputMmcs: Mmcs<F>>(
    alloc: Global,
    input_mmcs: &InputMmcs,
    requests: &'a [OpeningRequest<'_, HidingFriPcsProverData<InputMmcs::ProverData>, EF>],
) -> Result<Vec<OpeningRound<'a, F, EF>>, AllocError>
    ensures { IfOk result (λ rounds. map round_request rounds.items
        ≡ map (λ r. matrices_request InputMmcs.committed (inner_request r)) requests.now) }
{
    let mut rounds = Vec::with_capacity(alloc, requests.len())?;
    for request in requests {
        rounds.push(OpeningRound {
            matrices: input_mmcs.get_matrices(&request.prover_data.inner),
            points: &request.points,
        })?;
    }
    Ok(rounds)
}

/// What is inside of each request's data, with its points.
pub(crate) fn hidden_data<'a, EF, T>(
    alloc: Global,
    requests: &'a [OpeningRequest<'_, HidingFriPcsProverData<T>, EF>],
) -> Result<Vec<ProverDataWithOpeningPoints<'a, EF, T>>, AllocError>
    ensures { IfOk result (λ found. map (λ d. d.prover_data.now) found.items
        ≡ map (λ r. r.prover_data.now.inner) requests.now) }
{
    let mut found = Vec::with_capacity(alloc, requests.len())?;
    for request in requests {
        found.push(ProverDataWithOpeningPoints {
            prover_data: &request.prover_data.inner,
            points: &request.points,
        })?;
    }
    Ok(found)
}
