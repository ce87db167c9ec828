//! Data that requests borrow, so that its list is known again afterwards.
//!
//! Nothing says what a list has become once requests that borrowed from it are gone. So requests
//! borrow from a list of spares, with which the data changes places before the call and after it.

ghost use Rattle.std.specs.Prelude.{◌≡◌, IfOk, vec_len};
ghost use Rattle.fri_opening.specs.Lent.{lent_to, taken_from};

use fri_commitments::Committed;
use p3_field_core::ElementBytes;
use p3_mmcs::{Mmcs, Sha256Mmcs, Sha256ProverData};
use p3_pcs::OpeningRequest;
use std::alloc::{AllocError, Global};
use std::{cmp, mem};

/// So many trees over nothing.
pub fn spares<V: ElementBytes, Domain: Drop>(
    alloc: Global,
    count: usize,
) -> Result<Vec<Committed<Sha256ProverData<V>, Domain>>, AllocError>
    ensures { IfOk result (λ all. vec_len all ≡ count) }
{
    let mut all = Vec::with_capacity(alloc, count)?;
    for _ in 0..count {
        let (commitment, data) = Sha256Mmcs::<V>::new().commit(alloc, Vec::new(alloc))?;
        all.push(Committed {
            commitment,
            data,
            domains: Vec::new(alloc),
        })?;
    }
    Ok(all)
}

/// Swaps the data that is kept with the data behind the requests, each with the one in its place.
pub fn swap_data<D, Domain, EF>(
    all: &mut [Committed<D, Domain>],
    requests: &mut [OpeningRequest<'_, D, EF>],
)
    ensures taken { all.new ≡ taken_from requests.old all.old }
    ensures lent { requests.new ≡ lent_to requests.old all.old }
{
    let count = cmp::min(all.len(), requests.len());
    for index in 0..count {
        mem::swap(&mut all[index].data, &mut *requests[index].prover_data);
    }
}
