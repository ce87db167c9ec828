//! What follows the seed in whole transcripts, by both sides: the rounds and the queries.

ghost use Rattle.std.specs.Prelude.{◌≡◌, ◌≢◌, ◌≤◌, ◌↔◌, [], true, Some, Err};
ghost use Rattle.std.specs.Prelude.{IsOk, IfOk, IfErr, OnOk, length};
ghost use Rattle.p3_fri_pow.specs.Reached.{Reaches};
ghost use Rattle.p3_fri_transcript.specs.Failures.{FriPasses, FriFailure};
ghost use Rattle.p3_fri_transcript.specs.Found.{RoundsFound, FriFound, RoundsRefused, PlayRefused};
ghost use Rattle.p3_fri_transcript.specs.Indices.{AreIndices};
ghost use Rattle.p3_fri_transcript.specs.Replay.{rounds_replay, fri_replay};
ghost use Rattle.p3_fri_transcript.specs.Turns.{RoundsLeft};
ghost use Rattle.p3_fri_transcript.specs.Views.{state_of, left_of, shape_of, Kept};

use crate::transcript::failure::TranscriptFailure;
use crate::transcript::play::{FriMessages, PlayedFri, ReplayedFri};
use crate::transcript::state::{ProverTranscript, VerifierTranscript};
use crate::transcript::verifier::push;
use p3_challenger_core::{CanObserve, FieldChallenger, GrindingChallenger, Plays};
use p3_field_core::{ExtensionField, Field};
use p3_fri_folding::FriProverError;
use std::alloc::Global;

/// What a prover draws and finds along the rounds.
#[derive(Drop)]
struct PlayedRounds<F, EF> {
    betas: Vec<EF>,
    commit_witnesses: Vec<F>,
}

/// Plays a round for each commitment.
fn play_rounds<
    F: Field,
    EF: ExtensionField<F>,
    Com: Copy,
    C: FieldChallenger<F> + GrindingChallenger<Witness = F> + CanObserve<Com>,
>(
    alloc: Global,
    transcript: &mut ProverTranscript<'_, C, F, EF>,
    commitments: &[Com],
) -> Result<PlayedRounds<F, EF>, FriProverError>
    requires rounds_left { RoundsLeft EF.DIMENSION (shape_of transcript.old)
        (length commitments.now) (left_of transcript.old) }
    requires at_most_max { (shape_of transcript.old).commit_pow_bits ≤ C.MAX_SAMPLE_BITS }
    ensures kept { Kept transcript.old transcript.new }
    ensures rounds { IfOk result (λ played.
        rounds_replay ⟦<C as Plays<F, EF, Com>>⟧.moves (shape_of transcript.old).commit_pow_bits
        (state_of transcript.old) commitments.now played.commit_witnesses.items
        ≡ record { passes = true; betas = played.betas.items; state = state_of transcript.new }) }
    ensures betas { IfOk result (λ played. length played.betas.items ≡ length commitments.now) }
    ensures witnesses { IfOk result (λ played.
        length played.commit_witnesses.items ≡ length commitments.now) }
    ensures found { IfOk result (λ played.
        RoundsFound ⟦<C as Plays<F, EF, Com>>⟧.moves F.ops.zero C.solution
        (shape_of transcript.old).commit_pow_bits (state_of transcript.old)
        commitments.now played.commit_witnesses.items) }
    ensures steps { OnOk result
        (RoundsLeft EF.DIMENSION (shape_of transcript.old) 0 (left_of transcript.new)) }
    ensures refused { IfErr result (λ e.
        RoundsRefused ⟦<C as Plays<F, EF, Com>>⟧.moves F.ops.zero C.solution
        (shape_of transcript.old).commit_pow_bits (state_of transcript.old) commitments.now e) }
    ensures reached { Reaches ⟦<C as Plays<F, EF, Com>>⟧.moves (state_of transcript.old)
        (state_of transcript.new) }
{
    let mut betas = Vec::with_capacity(alloc, commitments.len())?;
    let mut commit_witnesses = Vec::with_capacity(alloc, commitments.len())?;
    for round in 0..commitments.len() {
        match transcript.commit_round(commitments[round]) {
            Ok(drawn) => {
                push(&mut betas, drawn.0)?;
                push(&mut commit_witnesses, drawn.1.unwrap_or(F::ZERO))?;
            },
            Err(refusal) => return Err(refusal),
        }
    }
    Ok(PlayedRounds {
        betas,
        commit_witnesses,
    })
}

/// Plays all steps. The stream was absorbed already: the clauses speak of the replay with none.
pub(super) fn play_steps<
    F: Field,
    EF: ExtensionField<F>,
    Com: Copy,
    C: FieldChallenger<F> + GrindingChallenger<Witness = F> + CanObserve<Com>,
>(
    alloc: Global,
    transcript: &mut ProverTranscript<'_, C, F, EF>,
    commitments: &[Com],
    final_poly: &[EF],
) -> Result<PlayedFri<F, EF>, FriProverError>
    requires rounds_left { RoundsLeft EF.DIMENSION (shape_of transcript.old)
        (length commitments.now) (left_of transcript.old) }
    requires final_poly { length final_poly.now ≡ (shape_of transcript.old).final_poly_len }
    requires commit_bits_at_most_max { (shape_of transcript.old).commit_pow_bits
        ≤ C.MAX_SAMPLE_BITS }
    requires query_bits_at_most_max { (shape_of transcript.old).query_pow_bits
        ≤ C.MAX_SAMPLE_BITS }
    requires index_bits_at_most_max { (shape_of transcript.old).index_bits ≤ C.MAX_SAMPLE_BITS }
    ensures kept { Kept transcript.old transcript.new }
    ensures replay { IfOk result (λ played.
        fri_replay ⟦<C as Plays<F, EF, Com>>⟧.moves EF.coefficients (shape_of transcript.old) F.ops
        [] (state_of transcript.old) commitments.now played.commit_witnesses.items final_poly.now
        (Some played.query_witness)
        ≡ record {
          passes = true;
          betas = played.betas.items;
          indices = played.indices.items;
          state = state_of transcript.new;
        }) }
    ensures betas { IfOk result (λ played. length played.betas.items ≡ length commitments.now) }
    ensures witnesses { IfOk result (λ played.
        length played.commit_witnesses.items ≡ length commitments.now) }
    ensures indices { IfOk result (λ played.
        AreIndices (shape_of transcript.old) played.indices.items) }
    ensures found { IfOk result (λ played.
        FriFound ⟦<C as Plays<F, EF, Com>>⟧.moves F.ops.zero C.solution EF.coefficients
        (shape_of transcript.old) (state_of transcript.old) commitments.now
        played.commit_witnesses.items final_poly.now played.query_witness) }
    ensures steps { OnOk result (left_of transcript.new ≡ []) }
    ensures refused { IfErr result (λ e.
        PlayRefused ⟦<C as Plays<F, EF, Com>>⟧.moves F.ops.zero C.solution EF.coefficients
        (shape_of transcript.old) (state_of transcript.old) commitments.now final_poly.now e) }
    ensures reached { Reaches ⟦<C as Plays<F, EF, Com>>⟧.moves (state_of transcript.old)
        (state_of transcript.new) }
{
    let rounds = match play_rounds(alloc, transcript, commitments) {
        Ok(rounds) => rounds,
        Err(refusal) => return Err(refusal),
    };
    let (indices, witness) = match transcript.query_phase(alloc, final_poly) {
        Ok(drawn) => drawn,
        Err(refusal) => return Err(refusal),
    };
    let PlayedRounds {
        betas,
        commit_witnesses,
    } = rounds;
    Ok(PlayedFri {
        betas,
        commit_witnesses,
        indices,
        query_witness: witness.unwrap_or(F::ZERO),
    })
}

/// Replays all steps. The stream was absorbed already: the clauses speak of the replay with none.
pub(super) fn replay_steps<
    F: Field,
    EF: ExtensionField<F>,
    Com: Copy,
    C: FieldChallenger<F> + GrindingChallenger<Witness = F> + CanObserve<Com>,
>(
    alloc: Global,
    transcript: &mut VerifierTranscript<'_, C, F, EF>,
    messages: FriMessages<'_, F, EF, Com>,
) -> Result<ReplayedFri<EF>, TranscriptFailure>
    requires no_round_played { let described = shape_of transcript.old in
        RoundsLeft EF.DIMENSION described (length described.log_arities)
        (left_of transcript.old) }
    requires commit_bits_at_most_max { (shape_of transcript.old).commit_pow_bits
        ≤ C.MAX_SAMPLE_BITS }
    requires query_bits_at_most_max { (shape_of transcript.old).query_pow_bits
        ≤ C.MAX_SAMPLE_BITS }
    requires index_bits_at_most_max { (shape_of transcript.old).index_bits ≤ C.MAX_SAMPLE_BITS }
    ensures kept { Kept transcript.old transcript.new }
    ensures passes { let sent = messages.entry in
        result ≢ Err TranscriptFailure.OutOfMemory → (IsOk result
        ↔ FriPasses ⟦<C as Plays<F, EF, Com>>⟧.moves EF.coefficients (shape_of transcript.old)
        (state_of transcript.old) sent.commitments.now sent.commit_witnesses.now
        sent.final_poly.now sent.query_witness F.ops []) }
    ensures replay { IfOk result (λ replayed.
        let sent = messages.entry in
        fri_replay ⟦<C as Plays<F, EF, Com>>⟧.moves EF.coefficients (shape_of transcript.old) F.ops
        [] (state_of transcript.old) sent.commitments.now sent.commit_witnesses.now
        sent.final_poly.now sent.query_witness
        ≡ record {
          passes = true;
          betas = replayed.betas.items;
          indices = replayed.indices.items;
          state = state_of transcript.new;
        }) }
    ensures betas { IfOk result (λ replayed.
        length replayed.betas.items ≡ length (shape_of transcript.old).log_arities) }
    ensures indices { IfOk result (λ replayed.
        AreIndices (shape_of transcript.old) replayed.indices.items) }
    ensures steps { OnOk result (left_of transcript.new ≡ []) }
    ensures failure { IfErr result (λ e.
        let sent = messages.entry in
        FriFailure ⟦<C as Plays<F, EF, Com>>⟧.moves EF.coefficients (shape_of transcript.old)
        (state_of transcript.old) sent.commitments.now sent.commit_witnesses.now
        sent.final_poly.now sent.query_witness (state_of transcript.new) e) }
    ensures reached { Reaches ⟦<C as Plays<F, EF, Com>>⟧.moves (state_of transcript.old)
        (state_of transcript.new) }
{
    let FriMessages {
        commitments,
        commit_witnesses,
        final_poly,
        query_witness,
    } = messages;
    let betas = match transcript.commit_rounds(alloc, commitments, commit_witnesses) {
        Ok(betas) => betas,
        Err(failure) => return Err(failure),
    };
    let indices = match transcript.query_phase(alloc, final_poly, query_witness) {
        Ok(indices) => indices,
        Err(failure) => return Err(failure),
    };
    Ok(ReplayedFri { betas, indices })
}
