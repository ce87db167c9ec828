//! The low-degree test of the quotients' words.

ghost use Rattle.std.specs.Prelude.{◌≡◌, ◌≢◌, ◌≤◌, ℕ, [], List, All, IfOk, IfErr, map, length};
ghost use Rattle.std.specs.List.{AllZip};
ghost use Rattle.algebra.specs.Nested.{lists};
ghost use Rattle.p3_pcs.specs.Claims.{opened_values};
ghost use Rattle.p3_fri_folding.specs.Schedule.{tallest};
ghost use Rattle.p3_fri_relation.specs.Views.{parameters_of, proof_of};
ghost use Rattle.p3_fri_openings.specs.Rounds.{IsRound};
ghost use Rattle.p3_fri_openings.specs.Refusals.{AreTallEnough};
ghost use Rattle.p3_fri_openings.specs.Denominators.{AreInverses, ArePointsCovered};
ghost use Rattle.p3_fri_batch.specs.Rounds.{HaveValues, opened_of};
ghost use Rattle.p3_fri_prover.specs.Inputs.{AreInputs, HaveHeights};
ghost use Rattle.p3_fri_prover.specs.Openings.{OpensBatch};
ghost use Rattle.p3_fri_prover.specs.Proved.{IsProved, positions};
ghost use Rattle.p3_fri_prover.specs.Prover.{IsInProverRange, ProverRefusal};
ghost use Rattle.p3_fri_opening_prover.specs.Opening.{heights, top};
ghost use Rattle.p3_fri_opening_prover.specs.Opening.{words as words_of};
ghost use Rattle.p3_fri_opening_prover.specs.Refusals.{LeavesState};

use crate::opened_rounds::OpenedRounds;
use crate::setting::{OpensFri, ProverSetting};
use p3_challenger_core::{CanObserve, FieldChallenger, GrindingChallenger};
use p3_field_core::{ExtensionField, TwoAdicField, log2_strict_usize};
use p3_fri_batch::batch_words;
use p3_fri_folding::{FriFoldingStrategy, FriProverError};
use p3_fri_prover::prover::prove_fri;
use p3_fri_relation::proof::{BatchMultiOpening, FriProof};
use p3_fri_relation::setting::ChallengeField;
use p3_mmcs::Mmcs;
use std::alloc::{AllocError, Global};

/// The log height of the first of some words, which is the tallest.
fn tallest_log_height<EF>(words: &[Vec<EF>]) -> usize
    requires words { (top : ℕ) × AreInputs top (lists words.now) }
    ensures { (heights : List ℕ) → HaveHeights heights (lists words.now)
        → result ≡ tallest heights }
{
    log2_strict_usize(words[0].len())
}

/// Proves that the words of the quotients of all matrices, batched by `alpha`, are of low degree,
/// and opens the data at the queries' positions.
pub(crate) fn prove_words<
    F: TwoAdicField,
    EF: ExtensionField<F>,
    M: Mmcs<EF>,
    InputMmcs: Mmcs<F>,
    S: FriFoldingStrategy<F, EF>,
    C: FieldChallenger<F> + GrindingChallenger<Witness = F> + CanObserve<M::Commitment>,
>(
    alloc: Global,
    setting: &ProverSetting<'_, S, M, InputMmcs>,
    opened: &OpenedRounds<'_, '_, F, EF, InputMmcs::ProverData>,
    alpha: EF,
    batch_pow_witness: F,
    challenger: &mut C,
) -> Result<FriProof<EF, M, F, Vec<BatchMultiOpening<F, InputMmcs>>>, FriProverError>
    requires in_range { IsInProverRange (parameters_of setting.now.params.now) F.TWO_ADICITY
        (S.extra_query_index_bits setting.now.folding.now) C.MAX_SAMPLE_BITS }
    requires max_log_height { F.TWO_ADICITY ≤ S.max_log_height setting.now.folding.now }
    requires rounds { All (IsRound F.TWO_ADICITY) opened.now.rounds.now }
    requires tall_enough { let p = parameters_of setting.now.params.now in
        All (λ r. AreTallEnough p r.matrices.now) opened.now.rounds.now }
    requires values { AllZip HaveValues opened.now.rounds.now
        (opened_values opened.now.values.now.items) }
    requires inverses { All (AreInverses ⟦<EF as ChallengeField<F>>⟧.fields)
        opened.now.denominators.now }
    requires covered { All (ArePointsCovered opened.now.denominators.now) opened.now.rounds.now }
    requires some_matrix { opened_of opened.now.rounds.now
        (opened_values opened.now.values.now.items) ≢ [] }
    requires opened { map (λ d. InputMmcs.committed d.prover_data.now) opened.now.data.now
        ≡ map (λ r. r.matrices.now) opened.now.rounds.now }
    ensures proved { let r = ⟦<C as OpensFri<F, EF, S, M, InputMmcs>>⟧.parts
        setting.now.folding.now setting.now.params.now setting.now.input_mmcs.now in
        let f = r.setting.fields in
        let ms = opened_of opened.now.rounds.now (opened_values opened.now.values.now.items) in
        IfOk result (λ proof. IsProved r.setting r.parameters (heights f ms) (top f ms)
        (words_of f ms alpha) challenger.old (proof_of proof) (length opened.now.data.now)
        challenger.new) }
    ensures inputs_opened { let r = ⟦<C as OpensFri<F, EF, S, M, InputMmcs>>⟧.parts
        setting.now.folding.now setting.now.params.now setting.now.input_mmcs.now in
        let f = r.setting.fields in
        let ms = opened_of opened.now.rounds.now (opened_values opened.now.values.now.items) in
        IfOk result (λ proof. AllZip (λ d o. OpensBatch r.setting.opens_input (top f ms)
        (positions r.setting r.parameters (heights f ms) (top f ms) (words_of f ms alpha)
        challenger.old (proof_of proof)) (r.committed d.prover_data.now)
        (r.commitment_of d.prover_data.now) o) opened.now.data.now (proof_of proof).inputs) }
    ensures batch_witness { IfOk result (λ proof. proof.batch_pow_witness ≡ batch_pow_witness) }
    ensures refused { let r = ⟦<C as OpensFri<F, EF, S, M, InputMmcs>>⟧.parts
        setting.now.folding.now setting.now.params.now setting.now.input_mmcs.now in
        let f = r.setting.fields in
        let ms = opened_of opened.now.rounds.now (opened_values opened.now.values.now.items) in
        IfErr result (ProverRefusal r.setting r.round_committed r.round_commitment_of r.parameters
        (heights f ms) (top f ms) (words_of f ms alpha) challenger.old r.solution) }
    ensures not_checked { IfErr result (λ e. ¬ LeavesState e) }
{
    let batched = batch_words(
        alloc,
        alpha,
        opened.rounds,
        opened.values,
        opened.denominators,
    );
    let words = match batched {
        Ok(words) => words,
        Err(AllocError) => return Err(FriProverError::OutOfMemory),
    };
    let log_global_max_height = tallest_log_height(&words);
    prove_fri(
        alloc,
        setting.folding,
        setting.params,
        words,
        challenger,
        log_global_max_height,
        opened.data,
        setting.input_mmcs,
        batch_pow_witness,
    )
}
