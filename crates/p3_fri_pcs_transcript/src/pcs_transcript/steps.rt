//! What follows the seed in whole transcripts, by both sides: the claims and what batches them, and
//! the bracket with the low-degree test in it.

ghost use Rattle.std.specs.Prelude.{◌≡◌, ◌≢◌, ◌↔◌, [], true, Some, Err, IsOk, IfOk, IfErr, OnOk};
ghost use Rattle.std.specs.Prelude.{length};
ghost use Rattle.p3_challenger_fs.specs.Turns.{bytes_observed};
ghost use Rattle.p3_fri_pow.specs.Reached.{Reaches};
ghost use Rattle.p3_fri_transcript.specs.Failures.{FriPasses, FriFailure};
ghost use Rattle.p3_fri_transcript.specs.Found.{FriFound, PlayRefused};
ghost use Rattle.p3_fri_transcript.specs.Indices.{AreIndices};
ghost use Rattle.p3_fri_transcript.specs.Replay.{fri_replay};
ghost use Rattle.p3_fri_transcript.specs.Shapes.{fri_shape};
ghost use Rattle.p3_fri_transcript.specs.Steps.{fri_stream};
ghost use Rattle.p3_fri_pcs_transcript.specs.Counts.{counts_of_values, all_values};
ghost use Rattle.p3_fri_pcs_transcript.specs.Counts.{counts_of_claims, all_claimed};
ghost use Rattle.p3_fri_pcs_transcript.specs.Failures.{WidthsWithin, PcsPasses, PcsRunFailure};
ghost use Rattle.p3_fri_pcs_transcript.specs.Found.{PcsFound, PcsPlayRefused};
ghost use Rattle.p3_fri_pcs_transcript.specs.Replay.{pcs_replay};
ghost use Rattle.p3_fri_pcs_transcript.specs.Turns.{bracket_turns};
ghost use Rattle.p3_fri_pcs_transcript.specs.Views.{state_of, left_of, shape_of, Kept, IsSeeded};
ghost use Rattle.p3_fri_pcs_transcript.specs.Views.{AllClaimsLeft};

use crate::pcs_transcript::play::{PcsFailure, PlayedPcs, ReplayedPcs};
use crate::pcs_transcript::state::{PcsProverTranscript, PcsVerifierTranscript};
use p3_challenger_core::{CanObserve, FieldChallenger, GrindingChallenger, Plays};
use p3_field_core::{ExtensionField, Field};
use p3_fri_folding::FriProverError;
use p3_fri_transcript::transcript::{
    FriMessages, FriShape, PlayedFri, ReplayedFri, TranscriptFailure, play_fri, replay_fri,
};
use p3_mmcs::{CommitmentWithOpeningPoints, OpenedValues};
use std::alloc::Global;

/// Plays all steps. The clauses speak of any state `before` from which the stream was absorbed.
pub(super) fn play_steps<
    F: Field,
    EF: ExtensionField<F>,
    Com: Copy,
    C: FieldChallenger<F> + GrindingChallenger<Witness = F> + CanObserve<Com>,
>(
    alloc: Global,
    transcript: &mut PcsProverTranscript<'_, C, F, EF>,
    opened_values: &OpenedValues<EF>,
    test: FriShape,
    commitments: &[Com],
    final_poly: &[EF],
) -> Result<PlayedPcs<F, EF>, FriProverError>
    requires no_step_played { AllClaimsLeft EF.DIMENSION transcript.old }
    requires described { counts_of_values opened_values.now.items
        ≡ (shape_of transcript.old).counts }
    requires rounds { length commitments.now ≡ length (fri_shape test).log_arities }
    requires final_poly { length final_poly.now ≡ (fri_shape test).final_poly_len }
    requires widths { WidthsWithin C.MAX_SAMPLE_BITS (shape_of transcript.old) (fri_shape test) }
    ensures kept { Kept transcript.old transcript.new }
    ensures replay { (before : _) →
        IsSeeded F.ops ⟦<C as CanObserve<F>>⟧.observed EF.DIMENSION before transcript.old →
        IfOk result (λ played.
        pcs_replay ⟦<C as Plays<F, EF, Com>>⟧.moves EF.coefficients F.ops EF.DIMENSION
        (shape_of transcript.old) (fri_shape test) before (all_values opened_values.now.items)
        (Some played.batch_witness) commitments.now played.test.commit_witnesses.items
        final_poly.now (Some played.test.query_witness)
        ≡ record {
          passes = true;
          alpha = played.alpha;
          betas = played.test.betas.items;
          indices = played.test.indices.items;
          state = state_of transcript.new;
        }) }
    ensures betas { IfOk result (λ played.
        length played.test.betas.items ≡ length commitments.now) }
    ensures witnesses { IfOk result (λ played.
        length played.test.commit_witnesses.items ≡ length commitments.now) }
    ensures indices { IfOk result (λ played.
        AreIndices (fri_shape test) played.test.indices.items) }
    ensures found { (before : _) →
        IsSeeded F.ops ⟦<C as CanObserve<F>>⟧.observed EF.DIMENSION before transcript.old →
        IfOk result (λ played.
        PcsFound ⟦<C as Plays<F, EF, Com>>⟧.moves EF.coefficients F.ops EF.DIMENSION
        (shape_of transcript.old) (fri_shape test) before (all_values opened_values.now.items)
        C.solution played.batch_witness commitments.now played.test.commit_witnesses.items
        final_poly.now played.test.query_witness) }
    ensures steps { OnOk result (left_of transcript.new ≡ []) }
    ensures refused { (before : _) →
        IsSeeded F.ops ⟦<C as CanObserve<F>>⟧.observed EF.DIMENSION before transcript.old →
        IfErr result (λ e.
        PcsPlayRefused ⟦<C as Plays<F, EF, Com>>⟧.moves EF.coefficients F.ops EF.DIMENSION
        (shape_of transcript.old) (fri_shape test) before (all_values opened_values.now.items)
        C.solution commitments.now final_poly.now e) }
    ensures reached { Reaches ⟦<C as Plays<F, EF, Com>>⟧.moves (state_of transcript.old)
        (state_of transcript.new) }
{
    transcript.claimed_openings(opened_values);
    let (alpha, witness) = match transcript.batch_phase() {
        Ok(drawn) => drawn,
        Err(refusal) => return Err(refusal),
    };
    match play_test(alloc, transcript, test, commitments, final_poly) {
        Ok(test) => Ok(PlayedPcs {
            alpha,
            batch_witness: witness.unwrap_or(F::ZERO),
            test,
        }),
        Err(refusal) => Err(refusal),
    }
}

/// Plays the bracket, and in it the low-degree test's transcript, whose refused seed is want of
/// memory.
fn play_test<
    F: Field,
    EF: ExtensionField<F>,
    Com: Copy,
    C: FieldChallenger<F> + GrindingChallenger<Witness = F> + CanObserve<Com>,
>(
    alloc: Global,
    transcript: &mut PcsProverTranscript<'_, C, F, EF>,
    test: FriShape,
    commitments: &[Com],
    final_poly: &[EF],
) -> Result<PlayedFri<F, EF>, FriProverError>
    requires bracket_left { left_of transcript.old ≡ bracket_turns }
    requires rounds { length commitments.now ≡ length (fri_shape test).log_arities }
    requires final_poly { length final_poly.now ≡ (fri_shape test).final_poly_len }
    requires widths { WidthsWithin C.MAX_SAMPLE_BITS (shape_of transcript.old) (fri_shape test) }
    ensures kept { Kept transcript.old transcript.new }
    ensures replay { IfOk result (λ played.
        fri_replay ⟦<C as Plays<F, EF, Com>>⟧.moves EF.coefficients (fri_shape test) F.ops
        (fri_stream EF.DIMENSION (fri_shape test)) (state_of transcript.old) commitments.now
        played.commit_witnesses.items final_poly.now (Some played.query_witness)
        ≡ record {
          passes = true;
          betas = played.betas.items;
          indices = played.indices.items;
          state = state_of transcript.new;
        }) }
    ensures betas { IfOk result (λ played. length played.betas.items ≡ length commitments.now) }
    ensures witnesses { IfOk result (λ played.
        length played.commit_witnesses.items ≡ length commitments.now) }
    ensures indices { IfOk result (λ played. AreIndices (fri_shape test) played.indices.items) }
    ensures found { IfOk result (λ played.
        let stream = fri_stream EF.DIMENSION (fri_shape test) in
        let observe = ⟦<C as CanObserve<F>>⟧.observed in
        FriFound ⟦<C as Plays<F, EF, Com>>⟧.moves F.ops.zero C.solution EF.coefficients
        (fri_shape test) (bytes_observed F.ops observe (state_of transcript.old) stream)
        commitments.now played.commit_witnesses.items final_poly.now played.query_witness) }
    ensures steps { OnOk result (left_of transcript.new ≡ []) }
    ensures refused { IfErr result (λ e.
        let stream = fri_stream EF.DIMENSION (fri_shape test) in
        let observe = ⟦<C as CanObserve<F>>⟧.observed in
        PlayRefused ⟦<C as Plays<F, EF, Com>>⟧.moves F.ops.zero C.solution EF.coefficients
        (fri_shape test) (bytes_observed F.ops observe (state_of transcript.old) stream)
        commitments.now final_poly.now e) }
    ensures reached { Reaches ⟦<C as Plays<F, EF, Com>>⟧.moves (state_of transcript.old)
        (state_of transcript.new) }
{
    let tested = play_fri::<F, EF, Com, C>(
        alloc,
        transcript.begin_delegate(),
        test,
        commitments,
        final_poly,
    );
    match tested {
        Ok(played) => {
            transcript.end_delegate();
            Ok(played)
        },
        Err(refusal) => Err(refusal.of_step(FriProverError::OutOfMemory)),
    }
}

/// Replays all steps. The clauses speak of any state `before` from which the stream was absorbed.
pub(super) fn replay_steps<
    F: Field,
    EF: ExtensionField<F>,
    Com: Copy,
    C: FieldChallenger<F> + GrindingChallenger<Witness = F> + CanObserve<Com>,
    InputCom,
    Domain,
>(
    alloc: Global,
    transcript: &mut PcsVerifierTranscript<'_, C, F, EF>,
    claims: &[CommitmentWithOpeningPoints<EF, InputCom, Domain>],
    batch_witness: Option<F>,
    test: FriShape,
    messages: FriMessages<'_, F, EF, Com>,
) -> Result<ReplayedPcs<EF>, PcsFailure>
    requires no_step_played { AllClaimsLeft EF.DIMENSION transcript.old }
    requires described { counts_of_claims claims.now ≡ (shape_of transcript.old).counts }
    requires widths { WidthsWithin C.MAX_SAMPLE_BITS (shape_of transcript.old) (fri_shape test) }
    ensures kept { Kept transcript.old transcript.new }
    ensures passes { (before : _) →
        IsSeeded F.ops ⟦<C as CanObserve<F>>⟧.observed EF.DIMENSION before transcript.old →
        let sent = messages.entry in
        result ≢ Err (PcsFailure.Fri TranscriptFailure.OutOfMemory)
        → (IsOk result ↔ PcsPasses ⟦<C as Plays<F, EF, Com>>⟧.moves EF.coefficients F.ops
        EF.DIMENSION (shape_of transcript.old) (fri_shape test) before (all_claimed claims.now)
        batch_witness sent.commitments.now sent.commit_witnesses.now sent.final_poly.now
        sent.query_witness) }
    ensures replay { (before : _) →
        IsSeeded F.ops ⟦<C as CanObserve<F>>⟧.observed EF.DIMENSION before transcript.old →
        IfOk result (λ replayed.
        let sent = messages.entry in
        pcs_replay ⟦<C as Plays<F, EF, Com>>⟧.moves EF.coefficients F.ops EF.DIMENSION
        (shape_of transcript.old) (fri_shape test) before (all_claimed claims.now) batch_witness
        sent.commitments.now sent.commit_witnesses.now sent.final_poly.now sent.query_witness
        ≡ record {
          passes = true;
          alpha = replayed.alpha;
          betas = replayed.betas.items;
          indices = replayed.indices.items;
          state = state_of transcript.new;
        }) }
    ensures betas { IfOk result (λ replayed.
        length replayed.betas.items ≡ length (fri_shape test).log_arities) }
    ensures indices { IfOk result (λ replayed. AreIndices (fri_shape test) replayed.indices.items) }
    ensures steps { OnOk result (left_of transcript.new ≡ []) }
    ensures failure { (before : _) →
        IsSeeded F.ops ⟦<C as CanObserve<F>>⟧.observed EF.DIMENSION before transcript.old →
        IfErr result (λ e.
        let sent = messages.entry in
        PcsRunFailure ⟦<C as Plays<F, EF, Com>>⟧.moves EF.coefficients F.ops EF.DIMENSION
        (shape_of transcript.old) (fri_shape test) before (all_claimed claims.now) batch_witness
        sent.commitments.now sent.commit_witnesses.now sent.final_poly.now sent.query_witness
        (state_of transcript.new) e) }
    ensures reached { Reaches ⟦<C as Plays<F, EF, Com>>⟧.moves (state_of transcript.old)
        (state_of transcript.new) }
{
    match transcript.claimed_openings(claims) {
        Ok(()) => {},
        Err(failure) => return Err(PcsFailure::Pcs(failure)),
    }
    let alpha = match transcript.batch_phase(batch_witness) {
        Ok(alpha) => alpha,
        Err(failure) => return Err(PcsFailure::Pcs(failure)),
    };
    match replay_test(alloc, transcript, test, messages) {
        Ok(replayed) => {
            let ReplayedFri { betas, indices } = replayed;
            Ok(ReplayedPcs {
                alpha,
                betas,
                indices,
            })
        },
        Err(failure) => Err(PcsFailure::Fri(failure)),
    }
}

/// Replays the bracket, and in it the low-degree test's transcript, whose refused seed is want of
/// memory.
fn replay_test<
    F: Field,
    EF: ExtensionField<F>,
    Com: Copy,
    C: FieldChallenger<F> + GrindingChallenger<Witness = F> + CanObserve<Com>,
>(
    alloc: Global,
    transcript: &mut PcsVerifierTranscript<'_, C, F, EF>,
    test: FriShape,
    messages: FriMessages<'_, F, EF, Com>,
) -> Result<ReplayedFri<EF>, TranscriptFailure>
    requires bracket_left { left_of transcript.old ≡ bracket_turns }
    requires widths { WidthsWithin C.MAX_SAMPLE_BITS (shape_of transcript.old) (fri_shape test) }
    ensures kept { Kept transcript.old transcript.new }
    ensures passes { let sent = messages.entry in
        result ≢ Err TranscriptFailure.OutOfMemory → (IsOk result
        ↔ FriPasses ⟦<C as Plays<F, EF, Com>>⟧.moves EF.coefficients (fri_shape test)
        (state_of transcript.old) sent.commitments.now sent.commit_witnesses.now
        sent.final_poly.now sent.query_witness F.ops (fri_stream EF.DIMENSION (fri_shape test))) }
    ensures replay { IfOk result (λ replayed.
        let sent = messages.entry in
        fri_replay ⟦<C as Plays<F, EF, Com>>⟧.moves EF.coefficients (fri_shape test) F.ops
        (fri_stream EF.DIMENSION (fri_shape test)) (state_of transcript.old) sent.commitments.now
        sent.commit_witnesses.now sent.final_poly.now sent.query_witness
        ≡ record {
          passes = true;
          betas = replayed.betas.items;
          indices = replayed.indices.items;
          state = state_of transcript.new;
        }) }
    ensures betas { IfOk result (λ replayed.
        length replayed.betas.items ≡ length (fri_shape test).log_arities) }
    ensures indices { IfOk result (λ replayed. AreIndices (fri_shape test) replayed.indices.items) }
    ensures steps { OnOk result (left_of transcript.new ≡ []) }
    ensures failure { IfErr result (λ e.
        let sent = messages.entry in
        let stream = fri_stream EF.DIMENSION (fri_shape test) in
        let observe = ⟦<C as CanObserve<F>>⟧.observed in
        FriFailure ⟦<C as Plays<F, EF, Com>>⟧.moves EF.coefficients (fri_shape test)
        (bytes_observed F.ops observe (state_of transcript.old) stream)
        sent.commitments.now sent.commit_witnesses.now sent.final_poly.now sent.query_witness
        (state_of transcript.new) e) }
    ensures reached { Reaches ⟦<C as Plays<F, EF, Com>>⟧.moves (state_of transcript.old)
        (state_of transcript.new) }
{
    let tested = replay_fri::<F, EF, Com, C>(alloc, transcript.begin_delegate(), test, messages);
    match tested {
        Ok(replayed) => {
            transcript.end_delegate();
            Ok(replayed)
        },
        Err(refusal) => Err(refusal.of_step(TranscriptFailure::OutOfMemory)),
    }
}
