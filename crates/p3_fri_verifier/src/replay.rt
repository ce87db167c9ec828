//! The test's transcript, replayed with what a proof of the right lengths carries.

ghost use Rattle.std.specs.Prelude.{◌≡◌, ◌≢◌, ◌≤◌, ◌↔◌, ◌⊎◌, true, false, Some, length};
ghost use Rattle.std.specs.Prelude.{Err, IsOk, IfOk, IfErr, IsTrue};
ghost use Rattle.p3_challenger_fs.specs.Turns.{bytes_observed};
ghost use Rattle.p3_fri_folding.specs.declared.pow_phase.PowPhase.TheVariants.{CommitPhase, Query};
ghost use Rattle.p3_fri_transcript.specs.declared.transcript.play.Refusal.TheVariants.{Seed, Step};
ghost use Rattle.p3_fri_transcript.specs.Indices.{AreIndices};
ghost use Rattle.p3_fri_transcript.specs.Replay.{rounds_replay, shown_queries_replay, fri_replay};
ghost use Rattle.p3_fri_transcript.specs.Shapes.{fri_shape};
ghost use Rattle.p3_fri_transcript.specs.Steps.{fri_stream};
ghost use Rattle.p3_fri_relation.specs.declared.error.FriError.TheVariants.{InvalidPowWitness};
ghost use Rattle.p3_fri_relation.specs.declared.error.FriError.TheVariants.{OutOfMemory};
ghost use Rattle.p3_fri_relation.specs.Failures.{of_transcript};

use p3_challenger_core::{CanObserve, FieldChallenger, GrindingChallenger, Plays};
use p3_field_core::{ExtensionField, Field};
use p3_fri_relation::error::FriError;
use p3_fri_transcript::transcript::{
    FriMessages, FriShape, Refusal, ReplayedFri, TranscriptFailure, replay_fri,
};
use std::alloc::Global;

/// What the refusal of a transcript becomes.
fn refused<A, B>(refusal: Refusal<TranscriptFailure>) -> FriError<A, B>
    ensures seed { refusal ≡ Seed → result ≡ OutOfMemory }
    ensures step { (failure : _) → refusal ≡ Step failure → result ≡ of_transcript failure }
{
    FriError::from(refusal.of_step(TranscriptFailure::OutOfMemory))
}

/// Replays the transcript of this shape with a commitment and a witness for each round and a final
/// polynomial of the described length. The widths are at most the challenger's greatest. Refused
/// only where a proof of work doesn't pass, or for want of memory.
pub(crate) fn replay<
    F: Field,
    EF: ExtensionField<F>,
    Com: Copy,
    C: FieldChallenger<F> + GrindingChallenger<Witness = F> + CanObserve<Com>,
    A,
    B,
>(
    alloc: Global,
    challenger: &mut C,
    shape: FriShape,
    commitments: &[Com],
    commit_witnesses: &[F],
    final_poly: &[EF],
    query_witness: F,
) -> Result<ReplayedFri<EF>, FriError<A, B>>
    requires commit_bits_at_most_max { (fri_shape shape).commit_pow_bits ≤ C.MAX_SAMPLE_BITS }
    requires query_bits_at_most_max { (fri_shape shape).query_pow_bits ≤ C.MAX_SAMPLE_BITS }
    requires index_bits_at_most_max { (fri_shape shape).index_bits ≤ C.MAX_SAMPLE_BITS }
    requires commitments { length commitments.now ≡ length (fri_shape shape).log_arities }
    requires witnesses { length commit_witnesses.now ≡ length (fri_shape shape).log_arities }
    requires final_poly { length final_poly.now ≡ (fri_shape shape).final_poly_len }
    ensures exact { result ≢ Err OutOfMemory → (IsOk result
        ↔ IsTrue (fri_replay ⟦<C as Plays<F, EF, Com>>⟧.moves EF.coefficients (fri_shape shape)
        F.ops (fri_stream EF.DIMENSION (fri_shape shape)) challenger.old commitments.now
        commit_witnesses.now final_poly.now (Some query_witness)).passes) }
    ensures replayed { IfOk result (λ replayed.
        fri_replay ⟦<C as Plays<F, EF, Com>>⟧.moves EF.coefficients (fri_shape shape) F.ops
        (fri_stream EF.DIMENSION (fri_shape shape)) challenger.old commitments.now
        commit_witnesses.now final_poly.now (Some query_witness)
        ≡ record {
          passes = true;
          betas = replayed.betas.items;
          indices = replayed.indices.items;
          state = challenger.new;
        }) }
    ensures betas { IfOk result (λ replayed.
        length replayed.betas.items ≡ length (fri_shape shape).log_arities) }
    ensures indices { IfOk result (λ replayed.
        AreIndices (fri_shape shape) replayed.indices.items) }
    ensures refusal { IfErr result (λ e.
        let m = ⟦<C as Plays<F, EF, Com>>⟧.moves in
        let seeded = bytes_observed F.ops ⟦<C as CanObserve<F>>⟧.observed challenger.old
        (fri_stream EF.DIMENSION (fri_shape shape)) in
        let rounds = rounds_replay m (fri_shape shape).commit_pow_bits seeded commitments.now
        commit_witnesses.now in
        (e ≡ OutOfMemory)
        ⊎ ((e ≡ InvalidPowWitness CommitPhase) × (rounds.passes ≡ false))
        ⊎ ((e ≡ InvalidPowWitness Query)
        × ((shown_queries_replay m EF.coefficients (fri_shape shape) rounds.state final_poly.now
        (Some query_witness)).passes ≡ false))) }
{
    let messages = FriMessages {
        commitments,
        commit_witnesses,
        final_poly,
        query_witness: Some(query_witness),
    };
    match replay_fri(alloc, challenger, shape, messages) {
        Ok(replayed) => Ok(replayed),
        Err(refusal) => Err(refused(refusal)),
    }
}
