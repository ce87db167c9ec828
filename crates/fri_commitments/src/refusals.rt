//! Refusals of a scheme's prover.

ghost use Rattle.std.specs.Prelude.{◌≡◌};
ghost use Rattle.fri_records.specs.Failures.{MatchRequestError};

use fri_records::RequestError;
use fri_schemes::{Coset, MadeScheme, SchemeField};

/// Why a request isn't answered that the scheme's prover refuses for this reason.
pub fn refusal<F: SchemeField, P: MadeScheme<F, F::Extension, Coset<F>>>(
    error: P::ProverError,
) -> RequestError<P::ProverError>
    ensures { MatchRequestError ⊥ (λ e. (e ≡ error) × (¬ P.IsMemory e)) result }
{
    if P::is_out_of_memory(&error) {
        RequestError::OutOfMemory
    } else {
        RequestError::Refused(error)
    }
}
