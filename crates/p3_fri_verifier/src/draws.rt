//! What a test's transcript draws.

ghost use Rattle.std.specs.Prelude.{◌≡◌, ◌≢◌, ◌+◌, ◌^◌, ◌<◌, ◌≤◌, ◌↔◌, length};
ghost use Rattle.std.specs.Prelude.{Err, IsOk, IfOk, IfErr, IsTrue};
ghost use Rattle.p3_fri_transcript.specs.Shapes.{fri_shape};
ghost use Rattle.p3_fri_relation.specs.declared.error.FriError.TheVariants.{OutOfMemory};
ghost use Rattle.p3_fri_relation.specs.TestRounds.{bound_numbers, HasCounts};
ghost use Rattle.p3_fri_relation.specs.Views.{parameters_of, proof_of};
ghost use Rattle.p3_fri_verifier.specs.Draws.{proof_replay, ReplayFault, AreDrawn};

use crate::plan::Plan;
use crate::positions::{index_bits, positions_of};
use crate::replay::replay;
use p3_challenger_core::{CanObserve, FieldChallenger, GrindingChallenger, Plays};
use p3_field_core::{ExtensionField, Field};
use p3_fri_folding::FriParameters;
use p3_fri_relation::error::FriError;
use p3_fri_relation::proof::{BatchMultiOpening, FriProof};
use p3_fri_transcript::transcript::FriShape;
use p3_mmcs::Mmcs;
use std::alloc::{AllocError, Global};

/// What a test's transcript draws.
#[derive(Drop)]
pub(crate) struct Draws<EF: Copy> {
    /// The folding challenge of each round.
    pub betas: Vec<EF>,
    /// The position of each query.
    pub positions: Vec<usize>,
}

/// The shape of a plan's test, whose indices have so many extra bits. Refused only for want of
/// memory.
fn shape_of<M>(
    alloc: Global,
    params: &FriParameters<M>,
    plan: &Plan,
    extra_bits: usize,
) -> Result<FriShape, AllocError>
    requires log_final_poly_len_below_64 { params.now.log_final_poly_len < 64 }
    requires index_bits_fit { plan.now.log_global_max_height + extra_bits < 2 ^ 64 }
    ensures { IfOk result (λ shape.
        fri_shape shape ≡ bound_numbers (parameters_of params.now) plan.now.log_arities.items
        plan.now.log_global_max_height extra_bits) }
{
    let log_arities = Vec::from_slice(alloc, &plan.log_arities)?;
    let width = index_bits(plan.log_global_max_height, extra_bits);
    Ok(FriShape::with_schedule(params, log_arities, width))
}

/// What the transcript of a plan's test draws, replayed with what the proof carries. The widths are
/// at most the challenger's greatest. Refused only where a proof of work doesn't pass, or for want
/// of memory.
pub(crate) fn draw<
    F: Field,
    EF: ExtensionField<F>,
    M: Mmcs<EF>,
    InputMmcs: Mmcs<F>,
    C: FieldChallenger<F> + GrindingChallenger<Witness = F> + CanObserve<M::Commitment>,
>(
    alloc: Global,
    params: &FriParameters<M>,
    plan: &Plan,
    proof: &FriProof<EF, M, F, Vec<BatchMultiOpening<F, InputMmcs>>>,
    challenger: &mut C,
    extra_bits: usize,
) -> Result<Draws<EF>, FriError<M::Error, InputMmcs::Error>>
    requires log_final_poly_len_below_64 { params.now.log_final_poly_len < 64 }
    requires index_bits_at_most_max { plan.now.log_global_max_height + extra_bits
        ≤ C.MAX_SAMPLE_BITS }
    requires commit_bits_at_most_max { params.now.commit_proof_of_work_bits ≤ C.MAX_SAMPLE_BITS }
    requires query_bits_at_most_max { params.now.query_proof_of_work_bits ≤ C.MAX_SAMPLE_BITS }
    requires counts { HasCounts (parameters_of params.now) (proof_of proof.now)
        plan.now.log_arities.items (length (proof_of proof.now).inputs) }
    ensures exact { let numbers = bound_numbers (parameters_of params.now)
        plan.now.log_arities.items plan.now.log_global_max_height extra_bits in
        result ≢ Err OutOfMemory → (IsOk result
        ↔ IsTrue (proof_replay ⟦<C as Plays<F, EF, M::Commitment>>⟧.moves EF.coefficients F.ops
        EF.DIMENSION numbers (proof_of proof.now) challenger.old).passes) }
    ensures drawn { let numbers = bound_numbers (parameters_of params.now)
        plan.now.log_arities.items plan.now.log_global_max_height extra_bits in
        IfOk result (λ draws. AreDrawn numbers extra_bits
        (proof_replay ⟦<C as Plays<F, EF, M::Commitment>>⟧.moves EF.coefficients F.ops
        EF.DIMENSION numbers (proof_of proof.now) challenger.old)
        draws.betas.items draws.positions.items challenger.new) }
    ensures refusal { let numbers = bound_numbers (parameters_of params.now)
        plan.now.log_arities.items plan.now.log_global_max_height extra_bits in
        IfErr result (ReplayFault ⟦<C as Plays<F, EF, M::Commitment>>⟧.moves EF.coefficients F.ops
        EF.DIMENSION numbers (proof_of proof.now) challenger.old) }
{
    let shape = match shape_of(alloc, params, plan, extra_bits) {
        Ok(shape) => shape,
        Err(AllocError) => return Err(FriError::OutOfMemory),
    };
    let replayed = match replay::<F, EF, M::Commitment, C, M::Error, InputMmcs::Error>(
        alloc,
        challenger,
        shape,
        &proof.commit_phase_commits,
        &proof.commit_pow_witnesses,
        &proof.final_poly,
        proof.query_pow_witness,
    ) {
        Ok(replayed) => replayed,
        Err(refusal) => return Err(refusal),
    };
    let positions = positions_of(replayed.indices, extra_bits);
    Ok(Draws {
        betas: replayed.betas,
        positions,
    })
}
