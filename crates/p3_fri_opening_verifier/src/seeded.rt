//! The transcript around the test, once its seed is made.

ghost use Rattle.std.specs.Prelude.{◌≡◌, ◌≢◌, ◌≤◌, ◌↔◌, Some, Err, true, IsTrue, map};
ghost use Rattle.std.specs.Prelude.{[], IsOk, IfOk, IfErr, OnOk};
ghost use Rattle.std.specs.List.{flat_map};
ghost use Rattle.p3_challenger_core.specs.Run.{observed_all};
ghost use Rattle.p3_challenger_fs.specs.Pattern.{turn_of};
ghost use Rattle.p3_challenger_fs.specs.Separator.{seed_bytes, seed_turns};
ghost use Rattle.p3_fri_pcs_transcript.specs.Counts.{counts_of_claims, all_claimed};
ghost use Rattle.p3_fri_pcs_transcript.specs.Failures.{BatchFailure};
ghost use Rattle.p3_fri_pcs_transcript.specs.Replay.{shown_batch_replay};
ghost use Rattle.p3_fri_pcs_transcript.specs.Shapes.{pcs_shape};
ghost use Rattle.p3_fri_pcs_transcript.specs.Steps.{pcs_steps, pcs_stream};
ghost use Rattle.p3_fri_pcs_transcript.specs.Turns.{bracket_turns};
ghost use Rattle.p3_fri_pcs_transcript.specs.Views.{state_of, left_of, shape_of, Kept};
ghost use Rattle.p3_fri_pcs_transcript.specs.Views.{AllClaimsLeft};
ghost use Rattle.p3_fri_relation.specs.declared.error.FriError.TheVariants.{OutOfMemory};
ghost use Rattle.p3_fri_relation.specs.Acceptance.{Accepts, AreCanonical, FriAccepts, test_replay};
ghost use Rattle.p3_fri_relation.specs.Failures.{of_pcs_transcript};
ghost use Rattle.p3_fri_relation.specs.Faults.{Stands, StandsInScheme};
ghost use Rattle.p3_fri_relation.specs.Views.{parameters_of, claims_of, proof_of};
ghost use Rattle.p3_fri_opening_verifier.specs.Ends.{last_state};
ghost use Rattle.p3_fri_opening_verifier.specs.Ranges.{IsInVerifierRange};

use p3_challenger_core::{CanObserve, FieldChallenger, GrindingChallenger, Plays};
use p3_challenger_fs::Seed;
use p3_field_core::{ExtensionField, TwoAdicField, TwoAdicMultiplicativeCoset};
use p3_fri_folding::FriFoldingStrategy;
use p3_fri_pcs_transcript::PcsShape;
use p3_fri_pcs_transcript::pcs_transcript::{PcsTranscriptFailure, PcsVerifierTranscript};
use p3_fri_relation::error::FriError;
use p3_fri_relation::proof::{BatchMultiOpening, FriProof};
use p3_fri_relation::setting::PlaysFri;
use p3_fri_verifier::setting::VerifierSetting;
use p3_fri_verifier::verify_canonical;
use p3_mmcs::{CommitmentOpening, Mmcs};
use std::alloc::Global;

/// What the refusal of a transcript becomes.
fn refused<A, B>(failure: PcsTranscriptFailure) -> FriError<A, B>
    ensures { result ≡ of_pcs_transcript failure }
{
    FriError::from(failure)
}

/// Absorbs what is claimed, of which there is as much as described, checks the proof of work, and
/// draws the challenge that batches the openings. After a refusal only `abort` may follow.
fn draw_alpha<
    F: TwoAdicField,
    EF: ExtensionField<F>,
    C: FieldChallenger<F> + GrindingChallenger<Witness = F>,
    Com,
>(
    transcript: &mut PcsVerifierTranscript<'_, C, F, EF>,
    claims: &[CommitmentOpening<EF, Com, TwoAdicMultiplicativeCoset<F>>],
    witness: F,
) -> Result<EF, PcsTranscriptFailure>
    requires no_step_played { AllClaimsLeft EF.DIMENSION transcript.old }
    requires counts { counts_of_claims claims.now ≡ (shape_of transcript.old).counts }
    requires at_most_max { (shape_of transcript.old).batch_pow_bits ≤ C.MAX_SAMPLE_BITS }
    ensures kept { Kept transcript.old transcript.new }
    ensures passes { let claimed = observed_all C.observed (state_of transcript.old)
        (flat_map EF.coefficients (all_claimed claims.now)) in
        IsOk result ↔ IsTrue (shown_batch_replay ⟦<C as Plays<F, EF, F>>⟧.moves
        (shape_of transcript.old).batch_pow_bits claimed (Some witness)).passes }
    ensures batch { let claimed = observed_all C.observed (state_of transcript.old)
        (flat_map EF.coefficients (all_claimed claims.now)) in
        IfOk result (λ alpha. shown_batch_replay ⟦<C as Plays<F, EF, F>>⟧.moves
        (shape_of transcript.old).batch_pow_bits claimed (Some witness)
        ≡ record { passes = true; alpha = alpha; state = state_of transcript.new }) }
    ensures steps { OnOk result (left_of transcript.new ≡ bracket_turns) }
    ensures failure { let claimed = observed_all C.observed (state_of transcript.old)
        (flat_map EF.coefficients (all_claimed claims.now)) in
        IfErr result (BatchFailure ⟦<C as Plays<F, EF, F>>⟧.moves
        (shape_of transcript.old).batch_pow_bits claimed (Some witness)) }
{
    match transcript.claimed_openings(claims) {
        Ok(()) => transcript.batch_phase(Some(witness)),
        Err(failure) => Err(failure),
    }
}

/// Verifies the low-degree test on the transcript's challenger, from the state in which `alpha` was
/// drawn. After `Ok` all steps were played; after a refusal only `abort` may follow.
fn test_inside<
    F: TwoAdicField,
    EF: ExtensionField<F>,
    M: Mmcs<EF>,
    InputMmcs: Mmcs<F>,
    S: FriFoldingStrategy<F, EF, InputError = InputMmcs::Error>,
    C: FieldChallenger<F> + GrindingChallenger<Witness = F> + CanObserve<M::Commitment>,
>(
    alloc: Global,
    known: &VerifierSetting<'_, F, EF, M, InputMmcs, S>,
    proof: &FriProof<EF, M, F, Vec<BatchMultiOpening<F, InputMmcs>>>,
    alpha: EF,
    transcript: &mut PcsVerifierTranscript<'_, C, F, EF>,
) -> Result<(), FriError<M::Error, InputMmcs::Error>>
    requires range { let k = known.now in IsInVerifierRange (parameters_of k.params.now)
        F.TWO_ADICITY (S.extra_query_index_bits k.folding.now) (S.max_log_height k.folding.now)
        C.MAX_SAMPLE_BITS }
    requires canonical { AreCanonical (parameters_of known.now.params.now) (proof_of proof.now)
        F.ops.zero }
    requires bracket_left { left_of transcript.old ≡ bracket_turns }
    ensures kept { Kept transcript.old transcript.new }
    ensures exact { let k = known.now in
        let s = ⟦<C as PlaysFri<F, EF, S, M, InputMmcs>>⟧.setting k.folding.now
        k.params.now.mmcs k.input_mmcs.now in
        result ≢ Err OutOfMemory → (IsOk result
        ↔ FriAccepts s (parameters_of k.params.now) (claims_of (λ d. d.log_size) k.claims.now)
        (proof_of proof.now) (state_of transcript.old) alpha) }
    ensures state { let k = known.now in
        let s = ⟦<C as PlaysFri<F, EF, S, M, InputMmcs>>⟧.setting k.folding.now
        k.params.now.mmcs k.input_mmcs.now in
        IsOk result → state_of transcript.new
        ≡ (test_replay s (parameters_of k.params.now) (claims_of (λ d. d.log_size) k.claims.now)
        (proof_of proof.now) (state_of transcript.old)).state }
    ensures steps { IsOk result → left_of transcript.new ≡ [] }
    ensures refusal { let k = known.now in
        let s = ⟦<C as PlaysFri<F, EF, S, M, InputMmcs>>⟧.setting k.folding.now
        k.params.now.mmcs k.input_mmcs.now in
        IfErr result (Stands s (parameters_of k.params.now)
        (claims_of (λ d. d.log_size) k.claims.now) (proof_of proof.now)
        (state_of transcript.old) alpha) }
{
    let tested = verify_canonical::<F, EF, M, InputMmcs, S, C>(
        alloc,
        known,
        proof,
        transcript.begin_delegate(),
        alpha,
    );
    match tested {
        Ok(()) => {
            transcript.end_delegate();
            Ok(())
        },
        Err(refusal) => Err(refusal),
    }
}

/// Replays the transcript of these claims, whose shape and seed were made, and verifies the
/// low-degree test inside it. No witness of a proof of work without bits is other than zero.
pub(crate) fn verify_seeded<
    F: TwoAdicField,
    EF: ExtensionField<F>,
    M: Mmcs<EF>,
    InputMmcs: Mmcs<F>,
    S: FriFoldingStrategy<F, EF, InputError = InputMmcs::Error>,
    C: FieldChallenger<F> + GrindingChallenger<Witness = F> + CanObserve<M::Commitment>,
>(
    alloc: Global,
    known: &VerifierSetting<'_, F, EF, M, InputMmcs, S>,
    proof: &FriProof<EF, M, F, Vec<BatchMultiOpening<F, InputMmcs>>>,
    challenger: &mut C,
    seed: Seed,
    shape: PcsShape,
) -> Result<(), FriError<M::Error, InputMmcs::Error>>
    requires range { let k = known.now in IsInVerifierRange (parameters_of k.params.now)
        F.TWO_ADICITY (S.extra_query_index_bits k.folding.now) (S.max_log_height k.folding.now)
        C.MAX_SAMPLE_BITS }
    requires canonical { AreCanonical (parameters_of known.now.params.now) (proof_of proof.now)
        F.ops.zero }
    requires shape { pcs_shape shape ≡ record {
      counts = counts_of_claims known.now.claims.now;
      batch_pow_bits = known.now.params.now.batch_proof_of_work_bits;
    } }
    requires stream { seed_bytes seed ≡ pcs_stream EF.DIMENSION (pcs_shape shape) }
    requires turns { seed_turns seed ≡ map turn_of (pcs_steps EF.DIMENSION (pcs_shape shape)) }
    ensures exact { let k = known.now in
        let s = ⟦<C as PlaysFri<F, EF, S, M, InputMmcs>>⟧.setting k.folding.now
        k.params.now.mmcs k.input_mmcs.now in
        result ≢ Err OutOfMemory → (IsOk result
        ↔ Accepts s (parameters_of k.params.now) (claims_of (λ d. d.log_size) k.claims.now)
        (proof_of proof.now) challenger.old) }
    ensures state { let k = known.now in
        let s = ⟦<C as PlaysFri<F, EF, S, M, InputMmcs>>⟧.setting k.folding.now
        k.params.now.mmcs k.input_mmcs.now in
        IsOk result → challenger.new
        ≡ last_state s (parameters_of k.params.now) (claims_of (λ d. d.log_size) k.claims.now)
        (proof_of proof.now) challenger.old }
    ensures refusal { let k = known.now in
        let s = ⟦<C as PlaysFri<F, EF, S, M, InputMmcs>>⟧.setting k.folding.now
        k.params.now.mmcs k.input_mmcs.now in
        IfErr result (StandsInScheme s (parameters_of k.params.now)
        (claims_of (λ d. d.log_size) k.claims.now) (proof_of proof.now) challenger.old) }
{
    let mut transcript = PcsVerifierTranscript::<C, F, EF>::start(challenger, seed, shape);
    let alpha = match draw_alpha(&mut transcript, known.claims, proof.batch_pow_witness) {
        Ok(alpha) => alpha,
        Err(failure) => {
            transcript.abort();
            return Err(refused(failure));
        },
    };
    let tested = test_inside::<F, EF, M, InputMmcs, S, C>(
        alloc,
        known,
        proof,
        alpha,
        &mut transcript,
    );
    match tested {
        Ok(()) => {
            transcript.finish();
            Ok(())
        },
        Err(refusal) => {
            transcript.abort();
            Err(refusal)
        },
    }
}
