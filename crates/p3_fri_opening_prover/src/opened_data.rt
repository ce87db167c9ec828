//! What the low-degree test opens of each request.

ghost use Rattle.std.specs.Prelude.{◌≡◌, IfOk, map};

use p3_fri_prover::prover::ProverDataWithOpeningPoints;
use p3_pcs::OpeningRequest;
use std::alloc::{AllocError, Global};

/// The data of each request, with its points.
pub(crate) fn data_of_requests<'a, EF, D>(
    alloc: Global,
    requests: &'a [OpeningRequest<'_, D, EF>],
) -> Result<Vec<ProverDataWithOpeningPoints<'a, EF, D>>, AllocError>
    ensures { IfOk result (λ found. map (λ d. d.prover_data.now) found.items
        ≡ map (λ r. r.prover_data.now) requests.now) }
{
    let mut found = Vec::with_capacity(alloc, requests.len())?;
    for request in requests {
        found.push(ProverDataWithOpeningPoints {
            prover_data: request.prover_data,
            points: &request.points,
        })?;
    }
    Ok(found)
}
