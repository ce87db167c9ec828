//! The whole proof.

ghost use Rattle.std.specs.Prelude.{◌≡◌, ◌+◌, ◌/◌, ◌^◌, ◌<◌, ◌≤◌, ◌∷◌, [], ℕ, List, All};
ghost use Rattle.std.specs.Prelude.{IfOk, IfErr, OnOk, length, map, vec_len};
ghost use Rattle.std.specs.Prelude.{slice_index, slice_index_or};
ghost use Rattle.std.specs.List.{AllZip};
ghost use Rattle.algebra.specs.Nested.{lists, nested};
ghost use Rattle.p3_matrix.specs.declared.dense.RowMajorMatrix.{RowMajorMatrix};
ghost use Rattle.p3_mmcs.specs.Batch.{max_height, dimensions_of};
ghost use Rattle.p3_fri_relation.specs.Views.{parameters_of, proof_of};
ghost use Rattle.p3_fri_prover.specs.Inputs.{AreInputs, HaveHeights};
ghost use Rattle.p3_fri_prover.specs.Openings.{OpensRows, OpensBatch, IsOpenable, index_into};
ghost use Rattle.p3_fri_prover.specs.Proved.{IsProved, positions};
ghost use Rattle.p3_fri_prover.specs.Prover.{IsInProverRange, IsForHeight, ProverRefusal};
ghost use Rattle.p3_fri_relation.specs.TallEnough.{IsTallEnough};

use crate::prover::openings::{
    ProverDataWithOpeningPoints, QueriedInputs, answer_queries, open_inputs, shifted,
};
use crate::prover::plan::{Plan, make_plan};
use crate::prover::play::{Played, play_test};
use crate::prover::rounds::CommittedRounds;
use p3_challenger_core::{CanObserve, FieldChallenger, GrindingChallenger};
use p3_field_core::{ExtensionField, TwoAdicField};
use p3_fri_folding::{FriFoldingStrategy, FriParameters, FriProverError};
use p3_fri_relation::proof::{BatchMultiOpening, CommitPhaseMultiStep, FriProof};
use p3_fri_relation::setting::PlaysFri;
use p3_mmcs::Mmcs;
use std::alloc::{AllocError, Global};

/// The inputs and the rounds opened at the positions, which are the indices without their extra
/// bits.
fn open_at_indices<EF: Copy, F: Copy, M: Mmcs<EF>, InputMmcs: Mmcs<F>>(
    alloc: Global,
    params: &FriParameters<M>,
    input_mmcs: &InputMmcs,
    queried: &QueriedInputs<'_, EF, InputMmcs::ProverData>,
    log_arities: &[usize],
    indices: &[usize],
    prover_data: &[M::ProverData],
) -> Result<
    (
        Vec<BatchMultiOpening<F, InputMmcs>>,
        Vec<CommitPhaseMultiStep<EF, M>>,
    ),
    AllocError,
>
    requires extra_bits_below_64 { queried.now.extra_bits < 64 }
    requires top_below_64 { queried.now.log_global_max_height < 64 }
    requires positions { All (λ q. q < 2 ^ queried.now.log_global_max_height)
        (map (λ i. i / 2 ^ queried.now.extra_bits) indices.now) }
    requires data_heights { All (λ datum. max_height
        (dimensions_of (InputMmcs.committed datum.prover_data.now))
        ≤ 2 ^ queried.now.log_global_max_height) queried.now.data_with_points.now }
    requires data_for_each { length prover_data.now ≡ length log_arities.now }
    requires openable { (k : ℕ) (datum : M.ProverData) → k < length log_arities.now →
        IsOpenable log_arities.now (map (λ i. i / 2 ^ queried.now.extra_bits) indices.now) k
        (M.committed (slice_index_or prover_data.now k datum)) }
    ensures inputs_opened { IfOk result (λ opened. AllZip (λ datum o.
        OpensBatch (InputMmcs.opens input_mmcs.now) queried.now.log_global_max_height
        (map (λ i. i / 2 ^ queried.now.extra_bits) indices.now)
        (InputMmcs.committed datum.prover_data.now)
        (InputMmcs.commitment_of datum.prover_data.now)
        (record { rows = nested o.opened_values.items; path = o.opening_proof }))
        queried.now.data_with_points.now opened.0.items) }
    ensures rounds_counted { IfOk result (λ opened.
        vec_len opened.1 ≡ length log_arities.now) }
    ensures rounds_opened { IfOk result (λ opened. (k : ℕ) (o : _) (datum : M.ProverData)
        (matrix : RowMajorMatrix EF) → k < length log_arities.now →
        M.committed (slice_index_or prover_data.now k datum) ≡ matrix ∷ [] →
        OpensRows (M.opens params.now.mmcs) (slice_index log_arities.now k) matrix
        (map (λ q. index_into log_arities.now q k)
        (map (λ i. i / 2 ^ queried.now.extra_bits) indices.now))
        (M.commitment_of (slice_index_or prover_data.now k datum))
        (lists (slice_index_or opened.1.items k o).sibling_values.items)
        (slice_index_or opened.1.items k o).opening_proof) }
{
    let positions = shifted(alloc, indices, queried.extra_bits)?;
    let input_openings = open_inputs(
        alloc,
        input_mmcs,
        queried.log_global_max_height,
        &positions,
        queried.data_with_points,
    )?;
    let commit_phase_openings = answer_queries(
        alloc,
        &params.mmcs,
        log_arities,
        prover_data,
        &positions,
    )?;
    Ok((input_openings, commit_phase_openings))
}

/// The proof of what was played: the inputs and the rounds opened at the positions, which are the
/// drawn indices without their extra bits.
fn open_played<F: TwoAdicField, EF: ExtensionField<F>, M: Mmcs<EF>, InputMmcs: Mmcs<F>>(
    alloc: Global,
    params: &FriParameters<M>,
    input_mmcs: &InputMmcs,
    queried: &QueriedInputs<'_, EF, InputMmcs::ProverData>,
    log_arities: &[usize],
    played: Played<F, EF, M>,
    batch_pow_witness: F,
) -> Result<FriProof<EF, M, F, Vec<BatchMultiOpening<F, InputMmcs>>>, AllocError>
    requires extra_bits_below_64 { queried.now.extra_bits < 64 }
    requires top_below_64 { queried.now.log_global_max_height < 64 }
    requires positions { All (λ q. q < 2 ^ queried.now.log_global_max_height)
        (map (λ i. i / 2 ^ queried.now.extra_bits) played.indices.items) }
    requires data_heights { All (λ datum. max_height
        (dimensions_of (InputMmcs.committed datum.prover_data.now))
        ≤ 2 ^ queried.now.log_global_max_height) queried.now.data_with_points.now }
    requires data_for_each { length played.rounds.prover_data.items ≡ length log_arities.now }
    requires openable { (k : ℕ) (datum : M.ProverData) → k < length log_arities.now →
        IsOpenable log_arities.now
        (map (λ i. i / 2 ^ queried.now.extra_bits) played.indices.items) k
        (M.committed (slice_index_or played.rounds.prover_data.items k datum)) }
    ensures batch_witness { IfOk result (λ proof. proof.batch_pow_witness ≡ batch_pow_witness) }
    ensures commitments { IfOk result (λ proof.
        proof.commit_phase_commits ≡ played.rounds.commitments) }
    ensures witnesses { IfOk result (λ proof.
        proof.commit_pow_witnesses ≡ played.rounds.witnesses) }
    ensures final_poly { IfOk result (λ proof. proof.final_poly ≡ played.final_poly) }
    ensures query_witness { IfOk result (λ proof.
        proof.query_pow_witness ≡ played.query_witness) }
    ensures inputs_opened { IfOk result (λ proof. AllZip (λ datum o.
        OpensBatch (InputMmcs.opens input_mmcs.now) queried.now.log_global_max_height
        (map (λ i. i / 2 ^ queried.now.extra_bits) played.indices.items)
        (InputMmcs.committed datum.prover_data.now)
        (InputMmcs.commitment_of datum.prover_data.now)
        (record { rows = nested o.opened_values.items; path = o.opening_proof }))
        queried.now.data_with_points.now proof.input_openings.items) }
    ensures rounds_counted { IfOk result (λ proof.
        vec_len proof.commit_phase_openings ≡ length log_arities.now) }
    ensures rounds_opened { IfOk result (λ proof. (k : ℕ) (o : _) (datum : M.ProverData)
        (matrix : RowMajorMatrix EF) → k < length log_arities.now →
        M.committed (slice_index_or played.rounds.prover_data.items k datum) ≡ matrix ∷ [] →
        OpensRows (M.opens params.now.mmcs) (slice_index log_arities.now k) matrix
        (map (λ q. index_into log_arities.now q k)
        (map (λ i. i / 2 ^ queried.now.extra_bits) played.indices.items))
        (M.commitment_of (slice_index_or played.rounds.prover_data.items k datum))
        (lists (slice_index_or proof.commit_phase_openings.items k o).sibling_values.items)
        (slice_index_or proof.commit_phase_openings.items k o).opening_proof) }
{
    let Played {
        rounds,
        final_poly,
        query_witness,
        indices,
    } = played;
    let CommittedRounds {
        commitments,
        prover_data,
        witnesses,
    } = rounds;
    let (input_openings, commit_phase_openings) = open_at_indices(
        alloc,
        params,
        input_mmcs,
        queried,
        log_arities,
        &indices,
        &prover_data,
    )?;
    Ok(FriProof {
        batch_pow_witness,
        commit_phase_commits: commitments,
        commit_pow_witnesses: witnesses,
        input_openings,
        commit_phase_openings,
        final_poly,
        query_pow_witness: query_witness,
    })
}

/// Proves that the words `inputs`, folded together, are of low degree (FRI, ICALP 2018), and opens
/// committed matrices at the queries' positions, for what an opening protocol says of them.
///
/// The words' lengths are powers of two and fall strictly, the first of them
/// `2^log_global_max_height`, which is at most the two-adicity. No committed matrix is taller. The
/// challenger draws as many bits at once as the two-adicity and the strategy's extra bits together,
/// and as each difficulty. The strategy folds words of each log height up to the two-adicity.
///
/// The batch witness is carried as it is.
///
/// # Errors
///
/// Where a final polynomial of more than one coefficient is asked for, and a word's log height is
/// not above its word's, `InputHeightTooSmall` or, where that has no number, `FinalHeightOverflow`:
/// these leave the challenger as it was. `NoPowWitness` where no element passes a proof of work.
/// Want of memory is `OutOfMemory`.
///
/// # Examples
///
/// A word of 16 values, and one committed datum that is opened beside it:
///
/// ```
/// let folding: TwoAdicFriFolding<(), Sha256MmcsError> = TwoAdicFriFolding(PhantomData);
/// let words = vec![in alloc; word]?;
/// let data = [ProverDataWithOpeningPoints {
///     prover_data: &committed,
///     points: &points,
/// }];
/// let proof = prove_fri(
///     alloc,
///     &folding,
///     &params,
///     words,
///     &mut challenger,
///     4,
///     &data,
///     &input_mmcs,
///     BabyBear::ZERO,
/// )?;
/// ```
pub fn prove_fri<
    F: TwoAdicField,
    EF: ExtensionField<F>,
    S: FriFoldingStrategy<F, EF>,
    M: Mmcs<EF>,
    InputMmcs: Mmcs<F>,
    C: FieldChallenger<F> + GrindingChallenger<Witness = F> + CanObserve<M::Commitment>,
>(
    alloc: Global,
    folding: &S,
    params: &FriParameters<M>,
    inputs: Vec<Vec<EF>>,
    challenger: &mut C,
    log_global_max_height: usize,
    data_with_points: &[ProverDataWithOpeningPoints<'_, EF, InputMmcs::ProverData>],
    input_mmcs: &InputMmcs,
    batch_pow_witness: F,
) -> Result<FriProof<EF, M, F, Vec<BatchMultiOpening<F, InputMmcs>>>, FriProverError>
    requires in_range { IsInProverRange (parameters_of params.now) F.TWO_ADICITY
        (S.extra_query_index_bits folding.now) C.MAX_SAMPLE_BITS }
    requires max_log_height { F.TWO_ADICITY ≤ S.max_log_height folding.now }
    requires inputs { AreInputs log_global_max_height (lists inputs.items) }
    requires within_two_adicity { log_global_max_height ≤ F.TWO_ADICITY }
    requires data_heights { All (λ datum. max_height
        (dimensions_of (InputMmcs.committed datum.prover_data.now)) ≤ 2 ^ log_global_max_height)
        data_with_points.now }
    ensures proved { (heights : List ℕ) → HaveHeights heights (lists inputs.items) →
        let s = ⟦<C as PlaysFri<F, EF, S, M, InputMmcs>>⟧.setting folding.now params.now.mmcs
        input_mmcs.now in
        IfOk result (λ proof. IsProved s (parameters_of params.now) heights log_global_max_height
        (lists inputs.items) challenger.old (proof_of proof) (length data_with_points.now)
        challenger.new) }
    ensures inputs_opened { (heights : List ℕ) → HaveHeights heights (lists inputs.items) →
        let s = ⟦<C as PlaysFri<F, EF, S, M, InputMmcs>>⟧.setting folding.now params.now.mmcs
        input_mmcs.now in
        IfOk result (λ proof. AllZip (λ datum o. OpensBatch s.opens_input log_global_max_height
        (positions s (parameters_of params.now) heights log_global_max_height (lists inputs.items)
        challenger.old (proof_of proof))
        (InputMmcs.committed datum.prover_data.now)
        (InputMmcs.commitment_of datum.prover_data.now) o)
        data_with_points.now (proof_of proof).inputs) }
    ensures batch_witness { IfOk result (λ proof. proof.batch_pow_witness ≡ batch_pow_witness) }
    ensures tall_enough { (heights : List ℕ) → HaveHeights heights (lists inputs.items) →
        OnOk result (All (IsTallEnough (parameters_of params.now)) heights) }
    ensures refused { (heights : List ℕ) → HaveHeights heights (lists inputs.items) →
        let s = ⟦<C as PlaysFri<F, EF, S, M, InputMmcs>>⟧.setting folding.now params.now.mmcs
        input_mmcs.now in
        IfErr result (ProverRefusal s M.committed M.commitment_of (parameters_of params.now) heights
        log_global_max_height (lists inputs.items) challenger.old C.solution) }
    ensures unmoved { IfErr result (λ e. IsForHeight e → challenger.new ≡ challenger.old) }
{
    let extra_bits = folding.extra_query_index_bits();
    let plan = make_plan::<F, EF, M>(alloc, params, &inputs, log_global_max_height, extra_bits);
    let Plan {
        log_arities,
        transcript,
    } = match plan {
        Ok(plan) => plan,
        Err(refusal) => return Err(refusal),
    };
    let test = play_test(
        alloc,
        folding,
        params,
        inputs,
        &log_arities,
        &mut *challenger,
        transcript,
    );
    let played = match test {
        Ok(played) => played,
        Err(refusal) => return Err(refusal),
    };
    let queried = QueriedInputs {
        data_with_points,
        log_global_max_height,
        extra_bits,
    };
    let opened = open_played(
        alloc,
        params,
        input_mmcs,
        &queried,
        &log_arities,
        played,
        batch_pow_witness,
    );
    match opened {
        Ok(proof) => Ok(proof),
        Err(AllocError) => Err(FriProverError::OutOfMemory),
    }
}
