//! What is compared before the transcript begins, and what the test will play.

ghost use Rattle.std.specs.Prelude.{◌≡◌, ◌≢◌, ◌+◌, ◌<◌, ◌↔◌, ◌⊎◌, Err, IsOk, IfOk, IfErr};
ghost use Rattle.p3_fri_relation.specs.declared.error.FriError.TheVariants.{OutOfMemory};
ghost use Rattle.p3_fri_relation.specs.Acceptance.{top_height};
ghost use Rattle.p3_fri_relation.specs.Acceptance.{log_arities as scheduled};
ghost use Rattle.p3_fri_relation.specs.Views.{parameters_of, claims_of, proof_of};
ghost use Rattle.p3_fri_verifier.specs.Plans.{CanBegin, BeginningFault};

use crate::{check_counts, check_inputs, check_instance};
use p3_field_core::{ExtensionField, TwoAdicField, TwoAdicMultiplicativeCoset};
use p3_fri_folding::{FriParameters, fold_schedule};
use p3_fri_relation::error::FriError;
use p3_fri_relation::proof::{BatchMultiOpening, FriProof};
use p3_mmcs::{CommitmentOpening, Mmcs};
use std::alloc::{AllocError, Global};

/// The rounds of a test, and the log height that they begin at.
#[derive(Drop)]
pub(crate) struct Plan {
    /// The logarithm of each round's arity: the schedule's.
    pub log_arities: Vec<usize>,
    /// The greatest log height of a claimed matrix.
    pub log_global_max_height: usize,
}

/// The plan of a test of these claims, if it can begin: the parameters and the claims are in range,
/// the proof has the lists that they ask for, and it opens each commitment once for each query. No
/// challenger is touched.
pub(crate) fn make_plan<F: TwoAdicField, EF: ExtensionField<F>, M: Mmcs<EF>, InputMmcs: Mmcs<F>>(
    alloc: Global,
    params: &FriParameters<M>,
    claims: &[CommitmentOpening<EF, InputMmcs::Commitment, TwoAdicMultiplicativeCoset<F>>],
    proof: &FriProof<EF, M, F, Vec<BatchMultiOpening<F, InputMmcs>>>,
) -> Result<Plan, FriError<M::Error, InputMmcs::Error>>
    requires final_height_below_64 { params.now.log_blowup + params.now.log_final_poly_len < 64 }
    ensures exact { result ≢ Err OutOfMemory → (IsOk result
        ↔ CanBegin (parameters_of params.now) (claims_of (λ d. d.log_size) claims.now)
        (proof_of proof.now) F.TWO_ADICITY) }
    ensures refusal { IfErr result (λ e.
        BeginningFault (parameters_of params.now) (claims_of (λ d. d.log_size) claims.now)
        (proof_of proof.now) F.TWO_ADICITY e ⊎ (e ≡ OutOfMemory)) }
    ensures schedule { IfOk result (λ plan. plan.log_arities.items
        ≡ scheduled (parameters_of params.now) (claims_of (λ d. d.log_size) claims.now)) }
    ensures top { IfOk result (λ plan. plan.log_global_max_height
        ≡ top_height (parameters_of params.now) (claims_of (λ d. d.log_size) claims.now)) }
{
    let heights = match check_instance::<F, EF, M, InputMmcs>(alloc, params, claims) {
        Ok(heights) => heights,
        Err(refusal) => return Err(refusal),
    };
    let log_final_height = params.log_blowup + params.log_final_poly_len;
    let cap = params.max_log_arity;
    let log_arities = match fold_schedule(alloc, &heights, log_final_height, cap) {
        Ok(log_arities) => log_arities,
        Err(AllocError) => return Err(FriError::OutOfMemory),
    };
    match check_counts(params, &log_arities, proof) {
        Ok(()) => {},
        Err(refusal) => return Err(refusal),
    }
    match check_inputs(params.num_queries, claims.len(), &proof.input_openings) {
        Ok(()) => Ok(Plan {
            log_global_max_height: heights[0],
            log_arities,
        }),
        Err(refusal) => Err(refusal),
    }
}
