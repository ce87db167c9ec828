//! The prover's calls.

ghost use Rattle.std.specs.Prelude.{◌≡◌, ◌≢◌, ◌≤◌, ◌⊎◌, [], ◌∷◌, true, Err};
ghost use Rattle.std.specs.Prelude.{IfOk, IfErr, OnOk, OnErr, IsSome, length, unwrap_or};
ghost use Rattle.p3_fri_folding.specs.declared.error.FriProverError.TheVariants.{NoPowWitness};
ghost use Rattle.p3_fri_folding.specs.declared.error.FriProverError.TheVariants.{OutOfMemory};
ghost use Rattle.p3_fri_folding.specs.declared.pow_phase.PowPhase.TheVariants.{CommitPhase, Query};
ghost use Rattle.p3_fri_transcript.specs.Indices.{AreIndices};
ghost use Rattle.p3_fri_pow.specs.Pow.{found_witness, NonePasses};
ghost use Rattle.p3_fri_pow.specs.Reached.{Reaches};
ghost use Rattle.p3_fri_transcript.specs.Replay.{round_replay, queries_replay, polynomial_observed};
ghost use Rattle.p3_fri_transcript.specs.Turns.{RoundsLeft, SomeRoundLeft, RoundPlayed};
ghost use Rattle.p3_fri_transcript.specs.Views.{state_of, left_of, shape_of, Kept};

use crate::transcript::state::ProverTranscript;
use p3_challenger_core::{CanObserve, FieldChallenger, GrindingChallenger, Plays};
use p3_field_core::{ExtensionField, Field};
use p3_fri_folding::{FriProverError, PowPhase};
use p3_fri_pow::pow::grind;
use std::alloc::Global;

#[tactic(auto, unfolding(crate::specs::Shapes::fri_shape))]
impl<
    'a,
    F: Field,
    EF: ExtensionField<F>,
    C: FieldChallenger<F> + GrindingChallenger<Witness = F>,
> ProverTranscript<'a, C, F, EF> {
    /// Plays a round: absorbs its commitment, makes the proof of work, and draws the folding
    /// challenge, which it answers with the witness, if there are bits. Refused only where no
    /// element passes; then only `abort` may follow.
    pub fn commit_round<Com: Copy>(
        &mut self,
        commitment: Com,
    ) -> Result<(EF, Option<F>), FriProverError>
    where
        C: CanObserve<Com>,
        requires some_round_left { SomeRoundLeft EF.DIMENSION (shape_of self.old)
            (left_of self.old) }
        requires at_most_max { (shape_of self.old).commit_pow_bits ≤ C.MAX_SAMPLE_BITS }
        ensures kept { Kept self.old self.new }
        ensures round { IfOk result (λ drawn.
            let bits = (shape_of self.old).commit_pow_bits in
            round_replay ⟦<C as Plays<F, EF, Com>>⟧.moves bits (state_of self.old) commitment
            (unwrap_or drawn.1 F.ops.zero)
            ≡ record { passes = true; betas = drawn.0 ∷ []; state = state_of self.new }) }
        ensures steps { OnOk result
            (RoundPlayed EF.DIMENSION (shape_of self.old) (left_of self.old) (left_of self.new)) }

        // The witness is the search's, and the round is refused only where none passes.
        ensures witness { IfOk result (λ drawn.
            let observed = ⟦<C as CanObserve<Com>>⟧.observed (state_of self.old) commitment in
            drawn.1 ≡ found_witness C.solution observed (shape_of self.old).commit_pow_bits) }
        ensures found { (shape_of self.old).commit_pow_bits ≢ 0
            → IfOk result (λ drawn. IsSome drawn.1) }
        ensures refused { IfErr result (λ e. e ≡ NoPowWitness CommitPhase) }
        ensures none_passes { OnErr result (
            let observed = ⟦<C as CanObserve<Com>>⟧.observed (state_of self.old) commitment in
            NonePasses ⟦<C as CanObserve<F>>⟧.observed C.sampled_bits observed
            (shape_of self.old).commit_pow_bits) }
        ensures reached { Reaches ⟦<C as Plays<F, EF, Com>>⟧.moves (state_of self.old)
            (state_of self.new) }
    {
        self.script
            .observe_opaque(&mut *self.challenger, commitment);
        let witness = grind(
            &mut self.script,
            &mut *self.challenger,
            self.shape.commit_pow_bits,
            PowPhase::CommitPhase,
        )?;
        let challenge = self.script.challenge_extension(&mut *self.challenger);
        Ok((challenge, witness))
    }

    /// Absorbs the final polynomial, which has as many coefficients as described, makes the proof
    /// of work, and draws the queries' indices, as many as described, each below `2^index_bits`,
    /// which it answers with the witness, if there are bits. Refused where no element passes, or
    /// for want of memory; then only `abort` may follow.
    pub fn query_phase(
        &mut self,
        alloc: Global,
        final_poly: &[EF],
    ) -> Result<(Vec<usize>, Option<F>), FriProverError>
        requires all_rounds_played { RoundsLeft EF.DIMENSION (shape_of self.old) 0
            (left_of self.old) }
        requires described { length final_poly.now ≡ (shape_of self.old).final_poly_len }
        requires pow_at_most_max { (shape_of self.old).query_pow_bits ≤ C.MAX_SAMPLE_BITS }
        requires index_at_most_max { (shape_of self.old).index_bits ≤ C.MAX_SAMPLE_BITS }
        ensures kept { Kept self.old self.new }
        ensures queries { IfOk result (λ drawn.
            queries_replay ⟦<C as Plays<F, EF, F>>⟧.moves EF.coefficients (shape_of self.old)
            (state_of self.old) final_poly.now (unwrap_or drawn.1 F.ops.zero)
            ≡ record { passes = true; indices = drawn.0.items; state = state_of self.new }) }
        ensures indices { IfOk result (λ drawn. AreIndices (shape_of self.old) drawn.0.items) }
        ensures steps { OnOk result (left_of self.new ≡ []) }

        // The witness is the search's, and the queries are refused only where none passes, or for
        // want of memory.
        ensures witness { IfOk result (λ drawn.
            let before = state_of self.old in
            let observed = polynomial_observed C.observed EF.coefficients before final_poly.now in
            drawn.1 ≡ found_witness C.solution observed (shape_of self.old).query_pow_bits) }
        ensures found { (shape_of self.old).query_pow_bits ≢ 0
            → IfOk result (λ drawn. IsSome drawn.1) }
        ensures refused { IfErr result (λ e. (e ≡ NoPowWitness Query) ⊎ (e ≡ OutOfMemory)) }
        ensures none_passes { result ≡ Err (NoPowWitness Query) →
            let before = state_of self.old in
            let observed = polynomial_observed C.observed EF.coefficients before final_poly.now in
            NonePasses C.observed C.sampled_bits observed (shape_of self.old).query_pow_bits }
        ensures reached { Reaches ⟦<C as Plays<F, EF, F>>⟧.moves (state_of self.old)
            (state_of self.new) }
    {
        self.script
            .observe_extensions(&mut *self.challenger, final_poly);
        let witness = grind(
            &mut self.script,
            &mut *self.challenger,
            self.shape.query_pow_bits,
            PowPhase::Query,
        )?;
        let indices = self.script.challenge_bits(
            alloc,
            &mut *self.challenger,
            self.shape.index_bits,
            self.shape.num_queries,
        )?;
        Ok((indices, witness))
    }
}
