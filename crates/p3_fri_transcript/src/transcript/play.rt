//! Whole transcripts, for a caller that has all values at hand.

ghost use Rattle.std.specs.Prelude.{◌≡◌, ◌≢◌, ◌≤◌, ◌↔◌, true, Some, Err, IsOk, IfOk, length};
ghost use Rattle.p3_challenger_fs.specs.Turns.{bytes_observed};
ghost use Rattle.p3_fri_transcript.specs.Indices.{AreIndices};
ghost use Rattle.p3_fri_pow.specs.Reached.{Reaches};
ghost use Rattle.p3_fri_transcript.specs.declared.transcript.play.Refusal.TheVariants.{Seed, Step};
ghost use Rattle.p3_fri_transcript.specs.Failures.{FriPasses, FriFailure};
ghost use Rattle.p3_fri_transcript.specs.Found.{FriFound, PlayRefused};
ghost use Rattle.p3_fri_transcript.specs.Replay.{fri_replay};
ghost use Rattle.p3_fri_transcript.specs.Shapes.{fri_shape};
ghost use Rattle.p3_fri_transcript.specs.Steps.{fri_stream};

use crate::transcript::failure::TranscriptFailure;
use crate::transcript::shape::FriShape;
use crate::transcript::state::{ProverTranscript, VerifierTranscript};
use crate::transcript::steps::{play_steps, replay_steps};
use p3_challenger_core::{CanObserve, FieldChallenger, GrindingChallenger, Plays};
use p3_field_core::{ExtensionField, Field};
use p3_fri_folding::FriProverError;
use std::alloc::{AllocError, Global};

/// Why a whole transcript is refused.
#[derive(Clone, Copy, Debug, PartialEq, Eq)]
pub enum Refusal<E> {
    /// Memory for the seed was refused, before the challenger was touched.
    Seed,
    /// A step was refused.
    Step(E),
}

impl<E: Copy> Refusal<E> {
    /// Why the step that ran the whole transcript is refused, where `out_of_memory` says that its
    /// seed was.
    pub fn of_step(self, out_of_memory: E) -> E
        ensures seed { self ≡ Seed → result ≡ out_of_memory }
        ensures step { (e : E) → self ≡ Step e → result ≡ e }
    {
        match self {
            Refusal::Seed => out_of_memory,
            Refusal::Step(error) => error,
        }
    }
}

/// What a prover draws and finds along a transcript. A witness at no bits is zero, and not looked
/// at.
#[derive(Debug, Drop)]
pub struct PlayedFri<F, EF> {
    /// The folding challenge of each round.
    pub betas: Vec<EF>,
    /// The witness of each round.
    pub commit_witnesses: Vec<F>,
    /// The queries' indices.
    pub indices: Vec<usize>,
    /// The witness before the queries.
    pub query_witness: F,
}

/// What a verifier draws along a transcript.
#[derive(Debug, Drop)]
pub struct ReplayedFri<EF> {
    /// The folding challenge of each round.
    pub betas: Vec<EF>,
    /// The queries' indices.
    pub indices: Vec<usize>,
}

/// What a prover sent along a low-degree test.
#[derive(Clone, Copy, Debug)]
pub struct FriMessages<'a, F, EF, Com> {
    /// The commitment of each round.
    pub commitments: &'a [Com],
    /// The witness of each round.
    pub commit_witnesses: &'a [F],
    /// The coefficients of the final polynomial.
    pub final_poly: &'a [EF],
    /// The witness before the queries.
    pub query_witness: Option<F>,
}

/// Plays all of a low-degree test's transcript: a round for each commitment, of which there are as
/// many as described, then the final polynomial, of the described length, and the indices. The
/// widths are at most the challenger's greatest. `Refusal::Seed` leaves the challenger as it was;
/// at any other answer it has absorbed the seed. A step is refused where no element passes its
/// proof of work, or for want of memory.
pub fn play_fri<
    F: Field,
    EF: ExtensionField<F>,
    Com: Copy,
    C: FieldChallenger<F> + GrindingChallenger<Witness = F> + CanObserve<Com>,
>(
    alloc: Global,
    challenger: &mut C,
    shape: FriShape,
    commitments: &[Com],
    final_poly: &[EF],
) -> Result<PlayedFri<F, EF>, Refusal<FriProverError>>
    requires rounds { length commitments.now ≡ length (fri_shape shape).log_arities }
    requires final_poly { length final_poly.now ≡ (fri_shape shape).final_poly_len }
    requires commit_bits_at_most_max { (fri_shape shape).commit_pow_bits ≤ C.MAX_SAMPLE_BITS }
    requires query_bits_at_most_max { (fri_shape shape).query_pow_bits ≤ C.MAX_SAMPLE_BITS }
    requires index_bits_at_most_max { (fri_shape shape).index_bits ≤ C.MAX_SAMPLE_BITS }
    ensures replay { IfOk result (λ played.
        fri_replay ⟦<C as Plays<F, EF, Com>>⟧.moves EF.coefficients (fri_shape shape) F.ops
        (fri_stream EF.DIMENSION (fri_shape shape)) challenger.old commitments.now
        played.commit_witnesses.items final_poly.now (Some played.query_witness)
        ≡ record {
          passes = true;
          betas = played.betas.items;
          indices = played.indices.items;
          state = challenger.new;
        }) }
    ensures betas { IfOk result (λ played. length played.betas.items ≡ length commitments.now) }
    ensures witnesses { IfOk result (λ played.
        length played.commit_witnesses.items ≡ length commitments.now) }
    ensures indices { IfOk result (λ played. AreIndices (fri_shape shape) played.indices.items) }
    ensures found { IfOk result (λ played.
        let stream = fri_stream EF.DIMENSION (fri_shape shape) in
        FriFound ⟦<C as Plays<F, EF, Com>>⟧.moves F.ops.zero C.solution EF.coefficients
        (fri_shape shape)
        (bytes_observed F.ops ⟦<C as CanObserve<F>>⟧.observed challenger.old stream)
        commitments.now played.commit_witnesses.items final_poly.now played.query_witness) }

    // A refused seed leaves the challenger as it was; a step is refused after the seed.
    ensures unchanged { result ≡ Err Seed → challenger.new ≡ challenger.old }
    ensures refused { (e : _) → result ≡ Err (Step e) →
        let stream = fri_stream EF.DIMENSION (fri_shape shape) in
        PlayRefused ⟦<C as Plays<F, EF, Com>>⟧.moves F.ops.zero C.solution EF.coefficients
        (fri_shape shape)
        (bytes_observed F.ops ⟦<C as CanObserve<F>>⟧.observed challenger.old stream)
        commitments.now final_poly.now e }
    ensures absorbed { result ≢ Err Seed →
        let stream = fri_stream EF.DIMENSION (fri_shape shape) in
        Reaches ⟦<C as Plays<F, EF, Com>>⟧.moves
        (bytes_observed F.ops ⟦<C as CanObserve<F>>⟧.observed challenger.old stream)
        challenger.new }
{
    let seed = match shape.seed::<F, EF>(alloc) {
        Ok(seed) => seed,
        Err(_) => return Err(Refusal::Seed),
    };
    let mut transcript = ProverTranscript::<C, F, EF>::start(challenger, seed, shape);
    let played = play_steps(alloc, &mut transcript, commitments, final_poly);
    match played {
        Ok(played) => {
            transcript.finish();
            Ok(played)
        },
        Err(refusal) => {
            transcript.abort();
            Err(Refusal::Step(refusal))
        },
    }
}

/// Replays all of a low-degree test's transcript with what a proof carries, and answers the folding
/// challenges and the queries' indices. The widths are at most the challenger's greatest.
/// `Refusal::Seed` leaves the challenger as it was; at any other answer it has absorbed the seed. A
/// step is refused as `commit_rounds` and `query_phase` refuse.
pub fn replay_fri<
    F: Field,
    EF: ExtensionField<F>,
    Com: Copy,
    C: FieldChallenger<F> + GrindingChallenger<Witness = F> + CanObserve<Com>,
>(
    alloc: Global,
    challenger: &mut C,
    shape: FriShape,
    messages: FriMessages<'_, F, EF, Com>,
) -> Result<ReplayedFri<EF>, Refusal<TranscriptFailure>>
    requires commit_bits_at_most_max { (fri_shape shape).commit_pow_bits ≤ C.MAX_SAMPLE_BITS }
    requires query_bits_at_most_max { (fri_shape shape).query_pow_bits ≤ C.MAX_SAMPLE_BITS }
    requires index_bits_at_most_max { (fri_shape shape).index_bits ≤ C.MAX_SAMPLE_BITS }
    ensures passes { let sent = messages.entry in
        result ≢ Err Seed → result ≢ Err (Step TranscriptFailure.OutOfMemory) → (IsOk result
        ↔ FriPasses ⟦<C as Plays<F, EF, Com>>⟧.moves EF.coefficients (fri_shape shape)
        challenger.old sent.commitments.now sent.commit_witnesses.now sent.final_poly.now
        sent.query_witness F.ops (fri_stream EF.DIMENSION (fri_shape shape))) }
    ensures replay { IfOk result (λ replayed.
        let sent = messages.entry in
        fri_replay ⟦<C as Plays<F, EF, Com>>⟧.moves EF.coefficients (fri_shape shape) F.ops
        (fri_stream EF.DIMENSION (fri_shape shape)) challenger.old sent.commitments.now
        sent.commit_witnesses.now sent.final_poly.now sent.query_witness
        ≡ record {
          passes = true;
          betas = replayed.betas.items;
          indices = replayed.indices.items;
          state = challenger.new;
        }) }
    ensures betas { IfOk result (λ replayed.
        length replayed.betas.items ≡ length (fri_shape shape).log_arities) }
    ensures indices { IfOk result (λ replayed.
        AreIndices (fri_shape shape) replayed.indices.items) }

    // A refused seed leaves the challenger as it was; a step is refused after the seed.
    ensures unchanged { result ≡ Err Seed → challenger.new ≡ challenger.old }
    ensures failure { (e : _) → result ≡ Err (Step e) →
        let sent = messages.entry in
        let stream = fri_stream EF.DIMENSION (fri_shape shape) in
        FriFailure ⟦<C as Plays<F, EF, Com>>⟧.moves EF.coefficients (fri_shape shape)
        (bytes_observed F.ops ⟦<C as CanObserve<F>>⟧.observed challenger.old stream)
        sent.commitments.now sent.commit_witnesses.now sent.final_poly.now sent.query_witness
        challenger.new e }
    ensures absorbed { result ≢ Err Seed →
        let stream = fri_stream EF.DIMENSION (fri_shape shape) in
        Reaches ⟦<C as Plays<F, EF, Com>>⟧.moves
        (bytes_observed F.ops ⟦<C as CanObserve<F>>⟧.observed challenger.old stream)
        challenger.new }
{
    let seed = match shape.seed::<F, EF>(alloc) {
        Ok(seed) => seed,
        Err(AllocError) => return Err(Refusal::Seed),
    };
    let mut transcript = VerifierTranscript::<C, F, EF>::start(challenger, seed, shape);
    let replayed = replay_steps(alloc, &mut transcript, messages);
    match replayed {
        Ok(replayed) => {
            transcript.finish();
            Ok(replayed)
        },
        Err(failure) => {
            transcript.abort();
            Err(Refusal::Step(failure))
        },
    }
}
