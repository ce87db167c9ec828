//! All of a test's transcript, from its first round to the queries' indices.

ghost use Rattle.std.specs.Prelude.{◌≡◌, ◌<◌, ◌≤◌, ◌^◌, [], ℕ, All};
ghost use Rattle.std.specs.Prelude.{IfOk, IfErr, OnOk, map, length, vec_len, slice_index_or};
ghost use Rattle.algebra.specs.Nested.{lists};
ghost use Rattle.p3_challenger_fs.specs.Pattern.{turn_of};
ghost use Rattle.p3_challenger_fs.specs.Separator.{seed_bytes, seed_turns};
ghost use Rattle.p3_challenger_fs.specs.Turns.{bytes_observed};
ghost use Rattle.p3_fri_transcript.specs.Shapes.{fri_shape};
ghost use Rattle.p3_fri_transcript.specs.Steps.{fri_steps};
ghost use Rattle.p3_fri_transcript.specs.Turns.{RoundsLeft};
ghost use Rattle.p3_fri_transcript.specs.Views.{state_of, left_of, shape_of, Kept};
ghost use Rattle.p3_fri_prover.specs.Played.{CanPlay, Describes, IsPlayed, PlayRefusal};
ghost use Rattle.p3_fri_prover.specs.Played.{AreQueriesPlayed, QueriesRefusal};

use crate::prover::last_word::final_polynomial;
use crate::prover::plan::PlannedTranscript;
use crate::prover::rounds::{CommittedRounds, commit_rounds};
use p3_challenger_core::{CanObserve, FieldChallenger, GrindingChallenger, Plays};
use p3_field_core::{ExtensionField, TwoAdicField};
use p3_fri_folding::{FriFoldingStrategy, FriParameters, FriProverError};
use p3_fri_relation::setting::ChallengeField;
use p3_fri_transcript::transcript::ProverTranscript;
use p3_mmcs::Mmcs;
use std::alloc::Global;

/// What was played.
#[derive(Drop)]
pub(crate) struct Played<F, EF: Copy, M: Mmcs<EF>> {
    /// The rounds.
    pub rounds: CommittedRounds<F, EF, M>,
    /// The coefficients of the final polynomial.
    pub final_poly: Vec<EF>,
    /// The witness before the queries, zero at no bits.
    pub query_witness: F,
    /// The queries' indices.
    pub indices: Vec<usize>,
}

/// Plays the queries on the final polynomial of the word. Answers its coefficients, the witness
/// before the queries, zero at no bits, and their indices.
fn play_queries<
    F: TwoAdicField,
    EF: ExtensionField<F>,
    M,
    C: FieldChallenger<F> + GrindingChallenger<Witness = F>,
>(
    alloc: Global,
    params: &FriParameters<M>,
    word: Vec<EF>,
    transcript: &mut ProverTranscript<'_, C, F, EF>,
) -> Result<(Vec<EF>, F, Vec<usize>), FriProverError>
    requires log_final_poly_len_below_64 { params.now.log_final_poly_len < 64 }
    requires within_two_adicity { params.now.log_final_poly_len ≤ F.TWO_ADICITY }
    requires long_enough { 2 ^ params.now.log_final_poly_len ≤ vec_len word }
    requires described { (shape_of transcript.old).final_poly_len
        ≡ 2 ^ params.now.log_final_poly_len }
    requires all_rounds_played { RoundsLeft EF.DIMENSION (shape_of transcript.old) 0
        (left_of transcript.old) }
    requires query_bits_at_most_max { (shape_of transcript.old).query_pow_bits
        ≤ C.MAX_SAMPLE_BITS }
    requires index_bits_at_most_max { (shape_of transcript.old).index_bits ≤ C.MAX_SAMPLE_BITS }
    ensures kept { Kept transcript.old transcript.new }
    ensures steps { OnOk result (left_of transcript.new ≡ []) }
    ensures played { IfOk result (λ played.
        AreQueriesPlayed ⟦<EF as ChallengeField<F>>⟧.fields ⟦<C as Plays<F, EF, F>>⟧.moves
        params.now.log_final_poly_len (shape_of transcript.old) word.items
        (state_of transcript.old) C.solution played.0.items played.1 played.2.items
        (state_of transcript.new)) }
    ensures refused { IfErr result
        (QueriesRefusal ⟦<EF as ChallengeField<F>>⟧.fields ⟦<C as Plays<F, EF, F>>⟧.moves
        params.now.log_final_poly_len (shape_of transcript.old) word.items
        (state_of transcript.old)) }
{
    let final_poly = final_polynomial::<F, EF, M>(alloc, params, word)?;
    match transcript.query_phase(alloc, &final_poly) {
        Ok((indices, witness)) => Ok((final_poly, witness.unwrap_or(F::ZERO), indices)),
        Err(refusal) => Err(refusal),
    }
}

/// Plays all rounds from the first input on, into which the others are rolled, then the final
/// polynomial of the word after them and the queries.
pub(crate) fn play<
    F: TwoAdicField,
    EF: ExtensionField<F>,
    S: FriFoldingStrategy<F, EF>,
    M: Mmcs<EF>,
    C: FieldChallenger<F> + GrindingChallenger<Witness = F> + CanObserve<M::Commitment>,
>(
    alloc: Global,
    folding: &S,
    params: &FriParameters<M>,
    inputs: Vec<Vec<EF>>,
    log_arities: &[usize],
    transcript: &mut ProverTranscript<'_, C, F, EF>,
) -> Result<Played<F, EF, M>, FriProverError>
    requires some_input { 0 < vec_len inputs }
    requires positive { All (λ a. 0 < a) log_arities.now }
    requires below_64 { All (λ a. a < 64) log_arities.now }
    requires can_play { CanPlay log_arities.now params.now.log_final_poly_len
        (S.max_log_height folding.now) (length (slice_index_or (lists inputs.items) 0 [])) }
    requires log_final_poly_len_below_64 { params.now.log_final_poly_len < 64 }
    requires within_two_adicity { params.now.log_final_poly_len ≤ F.TWO_ADICITY }
    requires described { Describes (shape_of transcript.old) log_arities.now
        params.now.log_final_poly_len C.MAX_SAMPLE_BITS }
    requires rounds_left { RoundsLeft EF.DIMENSION (shape_of transcript.old)
        (length log_arities.now) (left_of transcript.old) }
    ensures kept { Kept transcript.old transcript.new }
    ensures steps { OnOk result (left_of transcript.new ≡ []) }
    ensures played { IfOk result (λ played. (top : ℕ) →
        length (slice_index_or (lists inputs.items) 0 []) ≡ 2 ^ top →
        IsPlayed M.committed M.commitment_of ⟦<EF as ChallengeField<F>>⟧.fields
        (S.row_fold folding.now) ⟦<C as Plays<F, EF, M::Commitment>>⟧.moves
        params.now.log_final_poly_len (shape_of transcript.old) top (lists inputs.items)
        (state_of transcript.old) C.solution played.rounds.commitments.items
        played.rounds.witnesses.items played.rounds.prover_data.items played.final_poly.items
        played.query_witness played.indices.items (state_of transcript.new)) }
    ensures refused { IfErr result (λ e. (top : ℕ) →
        length (slice_index_or (lists inputs.items) 0 []) ≡ 2 ^ top →
        PlayRefusal M.committed M.commitment_of ⟦<EF as ChallengeField<F>>⟧.fields
        (S.row_fold folding.now) ⟦<C as Plays<F, EF, M::Commitment>>⟧.moves
        params.now.log_final_poly_len (shape_of transcript.old) top (lists inputs.items)
        (state_of transcript.old) C.solution e) }
{
    let committed = {
        let mut others = inputs;
        let first = others.remove(0);
        commit_rounds(
            alloc,
            folding,
            &params.mmcs,
            &others,
            log_arities,
            first,
            &mut *transcript,
        )
    };
    let (rounds, word) = match committed {
        Ok(committed) => committed,
        Err(refusal) => return Err(refusal),
    };
    match play_queries(alloc, params, word, transcript) {
        Ok((final_poly, query_witness, indices)) => Ok(Played {
            rounds,
            final_poly,
            query_witness,
            indices,
        }),
        Err(refusal) => Err(refusal),
    }
}

/// Plays the planned transcript over the challenger. A refusal leaves the challenger where it was
/// reached.
pub(crate) fn play_test<
    F: TwoAdicField,
    EF: ExtensionField<F>,
    S: FriFoldingStrategy<F, EF>,
    M: Mmcs<EF>,
    C: FieldChallenger<F> + GrindingChallenger<Witness = F> + CanObserve<M::Commitment>,
>(
    alloc: Global,
    folding: &S,
    params: &FriParameters<M>,
    inputs: Vec<Vec<EF>>,
    log_arities: &[usize],
    challenger: &mut C,
    planned: PlannedTranscript,
) -> Result<Played<F, EF, M>, FriProverError>
    requires some_input { 0 < vec_len inputs }
    requires positive { All (λ a. 0 < a) log_arities.now }
    requires below_64 { All (λ a. a < 64) log_arities.now }
    requires can_play { CanPlay log_arities.now params.now.log_final_poly_len
        (S.max_log_height folding.now) (length (slice_index_or (lists inputs.items) 0 [])) }
    requires log_final_poly_len_below_64 { params.now.log_final_poly_len < 64 }
    requires within_two_adicity { params.now.log_final_poly_len ≤ F.TWO_ADICITY }
    requires described { Describes (fri_shape planned.shape) log_arities.now
        params.now.log_final_poly_len C.MAX_SAMPLE_BITS }
    requires turns { seed_turns planned.seed
        ≡ map turn_of (fri_steps EF.DIMENSION (fri_shape planned.shape)) }
    ensures played { IfOk result (λ played. (top : ℕ) →
        length (slice_index_or (lists inputs.items) 0 []) ≡ 2 ^ top →
        IsPlayed M.committed M.commitment_of ⟦<EF as ChallengeField<F>>⟧.fields
        (S.row_fold folding.now) ⟦<C as Plays<F, EF, M::Commitment>>⟧.moves
        params.now.log_final_poly_len (fri_shape planned.shape) top (lists inputs.items)
        (bytes_observed F.ops ⟦<C as CanObserve<F>>⟧.observed challenger.old
        (seed_bytes planned.seed))
        C.solution played.rounds.commitments.items played.rounds.witnesses.items
        played.rounds.prover_data.items played.final_poly.items played.query_witness
        played.indices.items challenger.new) }
    ensures refused { IfErr result (λ e. (top : ℕ) →
        length (slice_index_or (lists inputs.items) 0 []) ≡ 2 ^ top →
        PlayRefusal M.committed M.commitment_of ⟦<EF as ChallengeField<F>>⟧.fields
        (S.row_fold folding.now) ⟦<C as Plays<F, EF, M::Commitment>>⟧.moves
        params.now.log_final_poly_len (fri_shape planned.shape) top (lists inputs.items)
        (bytes_observed F.ops ⟦<C as CanObserve<F>>⟧.observed challenger.old
        (seed_bytes planned.seed))
        C.solution e) }
{
    let PlannedTranscript { shape, seed } = planned;
    let mut transcript = ProverTranscript::<C, F, EF>::start(challenger, seed, shape);
    match play(alloc, folding, params, inputs, log_arities, &mut transcript) {
        Ok(played) => {
            transcript.finish();
            Ok(played)
        },
        Err(refusal) => {
            transcript.abort();
            Err(refusal)
        },
    }
}
