//! Whether the lengths of a proof's lists are those that an instance asks for.

ghost use Rattle.std.specs.Prelude.{◌<◌, ◌↔◌, All, length, IsOk, IfErr};
ghost use Rattle.p3_fri_relation.specs.TestRounds.{HasCounts};
ghost use Rattle.p3_fri_relation.specs.Faults.{CountFault};
ghost use Rattle.p3_fri_relation.specs.Views.{parameters_of, proof_of};
ghost use Rattle.p3_fri_verifier.specs.Counts.{HasLengths};

use crate::siblings::check_siblings;
use p3_fri_folding::FriParameters;
use p3_fri_relation::error::FriError;
use p3_fri_relation::proof::{BatchMultiOpening, FriProof};
use p3_mmcs::Mmcs;

/// Whether the rounds' lists have an entry for each log arity, and the final polynomial the length
/// that the parameters fix.
fn check_lengths<F: Copy, EF: Copy, M: Mmcs<EF>, InputMmcs: Mmcs<F>>(
    params: &FriParameters<M>,
    log_arities: &[usize],
    proof: &FriProof<EF, M, F, Vec<BatchMultiOpening<F, InputMmcs>>>,
) -> Result<(), FriError<M::Error, InputMmcs::Error>>
    requires log_final_poly_len_below_64 { params.now.log_final_poly_len < 64 }
    ensures exact { IsOk result
        ↔ HasLengths (parameters_of params.now) log_arities.now (proof_of proof.now) }
    ensures refusal { IfErr result
        (CountFault (parameters_of params.now) log_arities.now (proof_of proof.now)) }
{
    let expected = log_arities.len();
    let got = proof.commit_phase_openings.len();
    if got != expected {
        return Err(FriError::CommitPhaseOpeningsCountMismatch { expected, got });
    }
    let got = proof.commit_phase_commits.len();
    if got != expected {
        return Err(FriError::CommitRoundCountMismatch { expected, got });
    }
    let got = proof.commit_pow_witnesses.len();
    if got != expected {
        return Err(FriError::CommitPowWitnessCountMismatch { expected, got });
    }
    let expected = params.final_poly_len();
    let got = proof.final_poly.len();
    if got != expected {
        return Err(FriError::FinalPolyLengthMismatch { expected, got });
    }
    Ok(())
}

/// Whether a proof's lists have the lengths that its parameters and rounds of these log arities ask
/// for: an opening, a commitment and a witness for each round, in each opening a row for each query
/// that has one value less than the round's arity, and as many final coefficients as the parameters
/// say.
///
/// # Errors
///
/// Where a length is another, by its name.
pub fn check_counts<F: Copy, EF: Copy, M: Mmcs<EF>, InputMmcs: Mmcs<F>>(
    params: &FriParameters<M>,
    log_arities: &[usize],
    proof: &FriProof<EF, M, F, Vec<BatchMultiOpening<F, InputMmcs>>>,
) -> Result<(), FriError<M::Error, InputMmcs::Error>>
    requires log_final_poly_len_below_64 { params.now.log_final_poly_len < 64 }
    requires small { All (λ log_arity. log_arity < 64) log_arities.now }
    ensures exact { IsOk result ↔ HasCounts (parameters_of params.now) (proof_of proof.now)
        log_arities.now (length (proof_of proof.now).inputs) }
    ensures refusal { IfErr result
        (CountFault (parameters_of params.now) log_arities.now (proof_of proof.now)) }
{
    check_lengths(params, log_arities, proof)?;
    check_siblings(
        params.num_queries,
        log_arities,
        proof.commit_phase_openings.as_slice(),
    )
}
