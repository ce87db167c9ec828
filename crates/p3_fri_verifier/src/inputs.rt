//! Whether a proof opens each commitment once for each query.

ghost use Rattle.std.specs.Prelude.{◌↔◌, IsOk, IfErr};
ghost use Rattle.p3_fri_relation.specs.Views.{inputs_opened};
ghost use Rattle.p3_fri_verifier.specs.Counts.{HasInputs, InputCountFault};

use p3_fri_relation::error::FriError;
use p3_fri_relation::proof::BatchMultiOpening;
use p3_mmcs::Mmcs;

/// Whether there is one opening for each commitment, and in each opening one set of rows for each
/// query: so it is told before a query is drawn.
///
/// # Errors
///
/// `InputProofBatchCountMismatch`, or the first opening of another number of sets, with
/// `InputOpeningsQueryCountMismatch`.
pub fn check_inputs<F: Copy, InputMmcs: Mmcs<F>, A>(
    num_queries: usize,
    num_commitments: usize,
    inputs: &[BatchMultiOpening<F, InputMmcs>],
) -> Result<(), FriError<A, InputMmcs::Error>>
    ensures exact { IsOk result
        ↔ HasInputs num_queries num_commitments (inputs_opened inputs.now) }
    ensures refusal { IfErr result
        (InputCountFault num_queries num_commitments (inputs_opened inputs.now)) }
{
    let got = inputs.len();
    if got != num_commitments {
        return Err(FriError::InputProofBatchCountMismatch {
            expected: num_commitments,
            got,
        });
    }
    for batch in 0..inputs.len() {
        let got = inputs[batch].opened_values.len();
        if got != num_queries {
            return Err(FriError::InputOpeningsQueryCountMismatch {
                batch,
                expected: num_queries,
                got,
            });
        }
    }
    Ok(())
}
