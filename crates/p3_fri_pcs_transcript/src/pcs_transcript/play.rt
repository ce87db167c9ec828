//! Whole transcripts, with the low-degree test inside, for a caller that has all values at hand.

ghost use Rattle.std.specs.Prelude.{◌≡◌, ◌≢◌, ◌↔◌, true, Some, Err, IsOk, IfOk, length};
ghost use Rattle.p3_challenger_fs.specs.Turns.{bytes_observed};
ghost use Rattle.p3_fri_pow.specs.Reached.{Reaches};
ghost use Rattle.p3_fri_transcript.specs.declared.transcript.play.Refusal.TheVariants.{Seed, Step};
ghost use Rattle.p3_fri_transcript.specs.Indices.{AreIndices};
ghost use Rattle.p3_fri_transcript.specs.Shapes.{fri_shape};
ghost use Rattle.p3_fri_pcs_transcript.specs.Counts.{counts_of_values, all_values};
ghost use Rattle.p3_fri_pcs_transcript.specs.Counts.{counts_of_claims, all_claimed};
ghost use Rattle.p3_fri_pcs_transcript.specs.Failures.{WidthsWithin, PcsPasses, PcsRunFailure};
ghost use Rattle.p3_fri_pcs_transcript.specs.Found.{PcsFound, PcsPlayRefused};
ghost use Rattle.p3_fri_pcs_transcript.specs.Replay.{pcs_replay};
ghost use Rattle.p3_fri_pcs_transcript.specs.Shapes.{pcs_shape};
ghost use Rattle.p3_fri_pcs_transcript.specs.Steps.{pcs_stream};

use crate::pcs_transcript::failure::PcsTranscriptFailure;
use crate::pcs_transcript::shape::PcsShape;
use crate::pcs_transcript::state::{PcsProverTranscript, PcsVerifierTranscript};
use crate::pcs_transcript::steps::{play_steps, replay_steps};
use p3_challenger_core::{CanObserve, FieldChallenger, GrindingChallenger, Plays};
use p3_field_core::{ExtensionField, Field};
use p3_fri_folding::FriProverError;
use p3_fri_transcript::transcript::{FriMessages, FriShape, PlayedFri, Refusal, TranscriptFailure};
use p3_mmcs::{CommitmentWithOpeningPoints, OpenedValues};
use std::alloc::{AllocError, Global};

/// Why a verifier refuses along the transcript or along the test inside it.
#[derive(Clone, Copy, Debug, PartialEq, Eq)]
pub enum PcsFailure {
    /// A step around the test.
    Pcs(PcsTranscriptFailure),
    /// A step of the low-degree test, or want of memory for its seed.
    Fri(TranscriptFailure),
}

/// What a prover draws and finds along the transcript and the test inside it. A witness at no bits
/// is zero, and not looked at.
#[derive(Debug, Drop)]
pub struct PlayedPcs<F, EF> {
    /// The challenge that batches the openings.
    pub alpha: EF,
    /// The witness before it.
    pub batch_witness: F,
    /// What the low-degree test drew and found.
    pub test: PlayedFri<F, EF>,
}

/// What a verifier draws along the transcript and the test inside it.
#[derive(Debug, Drop)]
pub struct ReplayedPcs<EF> {
    /// The challenge that batches the openings.
    pub alpha: EF,
    /// The folding challenge of each round.
    pub betas: Vec<EF>,
    /// The queries' indices.
    pub indices: Vec<usize>,
}

/// Plays all of the transcript, and inside the bracket all of the low-degree test's. There are as
/// many values, commitments and coefficients as described, and the widths are at most the
/// challenger's greatest. `Refusal::Seed` leaves the challenger as it was; at any other answer it
/// has absorbed the seed. A step is refused where no element passes its proof of work, or for want
/// of memory.
pub fn play_pcs<
    F: Field,
    EF: ExtensionField<F>,
    Com: Copy,
    C: FieldChallenger<F> + GrindingChallenger<Witness = F> + CanObserve<Com>,
>(
    alloc: Global,
    challenger: &mut C,
    shape: PcsShape,
    opened_values: &OpenedValues<EF>,
    test: FriShape,
    commitments: &[Com],
    final_poly: &[EF],
) -> Result<PlayedPcs<F, EF>, Refusal<FriProverError>>
    requires described { counts_of_values opened_values.now.items ≡ (pcs_shape shape).counts }
    requires rounds { length commitments.now ≡ length (fri_shape test).log_arities }
    requires final_poly { length final_poly.now ≡ (fri_shape test).final_poly_len }
    requires widths { WidthsWithin C.MAX_SAMPLE_BITS (pcs_shape shape) (fri_shape test) }
    ensures replay { IfOk result (λ played.
        pcs_replay ⟦<C as Plays<F, EF, Com>>⟧.moves EF.coefficients F.ops EF.DIMENSION
        (pcs_shape shape) (fri_shape test) challenger.old (all_values opened_values.now.items)
        (Some played.batch_witness) commitments.now played.test.commit_witnesses.items
        final_poly.now (Some played.test.query_witness)
        ≡ record {
          passes = true;
          alpha = played.alpha;
          betas = played.test.betas.items;
          indices = played.test.indices.items;
          state = challenger.new;
        }) }
    ensures betas { IfOk result (λ played.
        length played.test.betas.items ≡ length commitments.now) }
    ensures witnesses { IfOk result (λ played.
        length played.test.commit_witnesses.items ≡ length commitments.now) }
    ensures indices { IfOk result (λ played.
        AreIndices (fri_shape test) played.test.indices.items) }
    ensures found { IfOk result (λ played.
        PcsFound ⟦<C as Plays<F, EF, Com>>⟧.moves EF.coefficients F.ops EF.DIMENSION
        (pcs_shape shape) (fri_shape test) challenger.old (all_values opened_values.now.items)
        C.solution played.batch_witness commitments.now played.test.commit_witnesses.items
        final_poly.now played.test.query_witness) }

    // A refused seed leaves the challenger as it was; a step is refused after the seed.
    ensures unchanged { result ≡ Err Seed → challenger.new ≡ challenger.old }
    ensures refused { (e : _) → result ≡ Err (Step e) →
        PcsPlayRefused ⟦<C as Plays<F, EF, Com>>⟧.moves EF.coefficients F.ops EF.DIMENSION
        (pcs_shape shape) (fri_shape test) challenger.old (all_values opened_values.now.items)
        C.solution commitments.now final_poly.now e }
    ensures absorbed { result ≢ Err Seed →
        let stream = pcs_stream EF.DIMENSION (pcs_shape shape) in
        Reaches ⟦<C as Plays<F, EF, Com>>⟧.moves
        (bytes_observed F.ops ⟦<C as CanObserve<F>>⟧.observed challenger.old stream)
        challenger.new }
{
    let seed = match shape.seed::<F, EF>(alloc) {
        Ok(seed) => seed,
        Err(_) => return Err(Refusal::Seed),
    };
    let mut transcript = PcsProverTranscript::<C, F, EF>::start(challenger, seed, shape);
    let played = play_steps(
        alloc,
        &mut transcript,
        opened_values,
        test,
        commitments,
        final_poly,
    );
    match played {
        Ok(played) => {
            transcript.finish();
            Ok(played)
        },
        Err(refusal) => {
            transcript.abort();
            Err(Refusal::Step(refusal))
        },
    }
}

/// Replays all of the transcript, whose shape has the counts of these claims, and inside the
/// bracket all of the low-degree test's. Answers the challenge that batches the openings, the
/// folding challenges and the queries' indices. The widths are at most the challenger's greatest.
/// `Refusal::Seed` leaves the challenger as it was; at any other answer it has absorbed the seed.
/// A step is refused as the transcripts' own calls refuse.
pub fn replay_pcs<
    F: Field,
    EF: ExtensionField<F>,
    Com: Copy,
    C: FieldChallenger<F> + GrindingChallenger<Witness = F> + CanObserve<Com>,
    InputCom,
    Domain,
>(
    alloc: Global,
    challenger: &mut C,
    shape: PcsShape,
    claims: &[CommitmentWithOpeningPoints<EF, InputCom, Domain>],
    batch_witness: Option<F>,
    test: FriShape,
    messages: FriMessages<'_, F, EF, Com>,
) -> Result<ReplayedPcs<EF>, Refusal<PcsFailure>>
    requires described { counts_of_claims claims.now ≡ (pcs_shape shape).counts }
    requires widths { WidthsWithin C.MAX_SAMPLE_BITS (pcs_shape shape) (fri_shape test) }
    ensures passes { let sent = messages.entry in
        result ≢ Err Seed → result ≢ Err (Step (PcsFailure.Fri TranscriptFailure.OutOfMemory))
        → (IsOk result ↔ PcsPasses ⟦<C as Plays<F, EF, Com>>⟧.moves EF.coefficients F.ops
        EF.DIMENSION (pcs_shape shape) (fri_shape test) challenger.old (all_claimed claims.now)
        batch_witness sent.commitments.now sent.commit_witnesses.now sent.final_poly.now
        sent.query_witness) }
    ensures replay { IfOk result (λ replayed.
        let sent = messages.entry in
        pcs_replay ⟦<C as Plays<F, EF, Com>>⟧.moves EF.coefficients F.ops EF.DIMENSION
        (pcs_shape shape) (fri_shape test) challenger.old (all_claimed claims.now) batch_witness
        sent.commitments.now sent.commit_witnesses.now sent.final_poly.now sent.query_witness
        ≡ record {
          passes = true;
          alpha = replayed.alpha;
          betas = replayed.betas.items;
          indices = replayed.indices.items;
          state = challenger.new;
        }) }
    ensures betas { IfOk result (λ replayed.
        length replayed.betas.items ≡ length (fri_shape test).log_arities) }
    ensures indices { IfOk result (λ replayed. AreIndices (fri_shape test) replayed.indices.items) }

    // A refused seed leaves the challenger as it was; a step is refused after the seed.
    ensures unchanged { result ≡ Err Seed → challenger.new ≡ challenger.old }
    ensures failure { (e : _) → result ≡ Err (Step e) →
        let sent = messages.entry in
        PcsRunFailure ⟦<C as Plays<F, EF, Com>>⟧.moves EF.coefficients F.ops EF.DIMENSION
        (pcs_shape shape) (fri_shape test) challenger.old (all_claimed claims.now) batch_witness
        sent.commitments.now sent.commit_witnesses.now sent.final_poly.now sent.query_witness
        challenger.new e }
    ensures absorbed { result ≢ Err Seed →
        let stream = pcs_stream EF.DIMENSION (pcs_shape shape) in
        Reaches ⟦<C as Plays<F, EF, Com>>⟧.moves
        (bytes_observed F.ops ⟦<C as CanObserve<F>>⟧.observed challenger.old stream)
        challenger.new }
{
    let seed = match shape.seed::<F, EF>(alloc) {
        Ok(seed) => seed,
        Err(AllocError) => return Err(Refusal::Seed),
    };
    let mut transcript = PcsVerifierTranscript::<C, F, EF>::start(challenger, seed, shape);
    let replayed = replay_steps(
        alloc,
        &mut transcript,
        claims,
        batch_witness,
        test,
        messages,
    );
    match replayed {
        Ok(replayed) => {
            transcript.finish();
            Ok(replayed)
        },
        Err(failure) => {
            transcript.abort();
            Err(Refusal::Step(failure))
        },
    }
}
