//! Private data is marked as opened.

ghost use Rattle.std.specs.Prelude.{◌≡◌, map};
ghost use Rattle.p3_pcs.specs.Requests.{with_data};
ghost use Rattle.p3_fri_hiding_openings.specs.Requests.{after_opening};

use crate::data::HidingFriPcsProverData;
use p3_pcs::OpeningRequest;

/// Marks the data of a request as opened, unless it is preprocessing.
fn mark<T, EF>(request: &mut OpeningRequest<'_, HidingFriPcsProverData<T>, EF>)
    ensures { request.new ≡ with_data after_opening request.old }
{
    if !request.prover_data.preprocessed {
        request.prover_data.opened = true;
    }
}

/// Marks all private data of the requests as opened.
pub(crate) fn mark_all<T, EF>(requests: &mut [OpeningRequest<'_, HidingFriPcsProverData<T>, EF>])
    ensures { requests.new ≡ map (with_data after_opening) requests.old }
{
    for i in 0..requests.len() {
        mark(&mut requests[i]);
    }
}
