//! The verifier's calls.

ghost use Rattle.std.specs.Prelude.{◌≡◌, ◌≢◌, ◌≤◌, ◌↔◌, [], ◌∷◌, ◌++◌, true, Some, Err};
ghost use Rattle.std.specs.Prelude.{IsTrue, IsOk, IfOk, IfErr, OnOk, length};
ghost use Rattle.p3_fri_folding.specs.declared.pow_phase.PowPhase.TheVariants.{CommitPhase, Query};
ghost use Rattle.p3_fri_transcript.specs.Indices.{AreIndices};
ghost use Rattle.p3_fri_pow.specs.Reached.{Reaches};
ghost use Rattle.p3_fri_transcript.specs.Failures.{RoundsPass, RoundsFailure};
ghost use Rattle.p3_fri_transcript.specs.Failures.{QueriesPass, QueriesFailure};
ghost use Rattle.p3_fri_transcript.specs.Replay.{round_replay, rounds_replay, shown_queries_replay};
ghost use Rattle.p3_fri_transcript.specs.Turns.{RoundsLeft, SomeRoundLeft, RoundPlayed};
ghost use Rattle.p3_fri_transcript.specs.Views.{state_of, left_of, shape_of, Kept};

use crate::transcript::failure::TranscriptFailure;
use crate::transcript::state::VerifierTranscript;
use p3_challenger_core::{CanObserve, FieldChallenger, GrindingChallenger, Plays};
use p3_field_core::{ExtensionField, Field};
use p3_fri_folding::PowPhase;
use p3_fri_pow::pow::{PowFailure, check};
use std::alloc::{AllocError, Global};

#[tactic(auto, unfolding(crate::specs::Shapes::fri_shape))]
impl<
    'a,
    F: Field,
    EF: ExtensionField<F>,
    C: FieldChallenger<F> + GrindingChallenger<Witness = F>,
> VerifierTranscript<'a, C, F, EF> {
    /// Replays a round against the witness that the proof carries.
    fn commit_round<Com: Copy>(
        &mut self,
        commitment: Com,
        witness: F,
    ) -> Result<EF, TranscriptFailure>
    where
        C: CanObserve<Com>,
        requires some_round_left { SomeRoundLeft EF.DIMENSION (shape_of self.old)
            (left_of self.old) }
        requires at_most_max { (shape_of self.old).commit_pow_bits ≤ C.MAX_SAMPLE_BITS }
        ensures kept { Kept self.old self.new }
        ensures passes { IsOk result
            ↔ IsTrue (round_replay ⟦<C as Plays<F, EF, Com>>⟧.moves
            (shape_of self.old).commit_pow_bits (state_of self.old) commitment witness).passes }
        ensures round { IfOk result (λ beta.
            round_replay ⟦<C as Plays<F, EF, Com>>⟧.moves (shape_of self.old).commit_pow_bits
            (state_of self.old) commitment witness
            ≡ record { passes = true; betas = beta ∷ []; state = state_of self.new }) }
        ensures steps { OnOk result
            (RoundPlayed EF.DIMENSION (shape_of self.old) (left_of self.old) (left_of self.new)) }
        ensures refused { IfErr result (λ e. e ≡ TranscriptFailure.PowWitness CommitPhase) }
        ensures reached { Reaches ⟦<C as Plays<F, EF, Com>>⟧.moves (state_of self.old)
            (state_of self.new) }
    {
        self.script
            .observe_opaque(&mut *self.challenger, commitment);
        let bits = self.shape.commit_pow_bits;
        match check(&mut self.script, &mut *self.challenger, bits, Some(witness)) {
            Ok(()) => Ok(self.script.challenge_extension(&mut *self.challenger)),
            Err(_) => Err(TranscriptFailure::PowWitness(PowPhase::CommitPhase)),
        }
    }

    /// Replays all rounds with the commitments and witnesses that a proof carries, one of each for
    /// a round, and answers the folding challenges, one for each round. The number of commitments
    /// is compared first (`CommitRoundCount`), then that of witnesses (`CommitPowWitnessCount`),
    /// before anything is absorbed; `PowWitness` names a witness that doesn't pass. The bits are at
    /// most the challenger's greatest width. After a refusal only `abort` may follow.
    pub fn commit_rounds<Com: Copy>(
        &mut self,
        alloc: Global,
        commitments: &[Com],
        witnesses: &[F],
    ) -> Result<Vec<EF>, TranscriptFailure>
    where
        C: CanObserve<Com>,
        requires no_round_played { let described = shape_of self.old in
            RoundsLeft EF.DIMENSION described (length described.log_arities) (left_of self.old) }
        requires at_most_max { (shape_of self.old).commit_pow_bits ≤ C.MAX_SAMPLE_BITS }
        ensures kept { Kept self.old self.new }
        ensures passes { result ≢ Err TranscriptFailure.OutOfMemory → (IsOk result
            ↔ RoundsPass ⟦<C as Plays<F, EF, Com>>⟧.moves (shape_of self.old) (state_of self.old)
            commitments.now witnesses.now) }
        ensures rounds { IfOk result (λ betas.
            rounds_replay ⟦<C as Plays<F, EF, Com>>⟧.moves (shape_of self.old).commit_pow_bits
            (state_of self.old) commitments.now witnesses.now
            ≡ record { passes = true; betas = betas.items; state = state_of self.new }) }
        ensures count { IfOk result (λ betas.
            length betas.items ≡ length (shape_of self.old).log_arities) }
        ensures steps { OnOk result
            (RoundsLeft EF.DIMENSION (shape_of self.old) 0 (left_of self.new)) }

        // Each failure names what stands, and a wrong count leaves the challenger as it was.
        ensures failure { IfErr result (λ e.
            RoundsFailure ⟦<C as Plays<F, EF, Com>>⟧.moves (shape_of self.old) (state_of self.old)
            commitments.now witnesses.now (state_of self.new) e) }
        ensures wrong_commitments { let rounds = length (shape_of self.old).log_arities in
            length commitments.now ≢ rounds
            → result ≡ Err (TranscriptFailure.CommitRoundCount rounds (length commitments.now)) }
        ensures wrong_witnesses { let rounds = length (shape_of self.old).log_arities in
            length commitments.now ≡ rounds → length witnesses.now ≢ rounds
            → result ≡ Err (TranscriptFailure.CommitPowWitnessCount rounds (length witnesses.now)) }
        ensures reached { Reaches ⟦<C as Plays<F, EF, Com>>⟧.moves (state_of self.old)
            (state_of self.new) }
    {
        let expected = self.shape.log_arities.len();
        if commitments.len() != expected {
            return Err(TranscriptFailure::CommitRoundCount {
                expected,
                got: commitments.len(),
            });
        }
        if witnesses.len() != expected {
            return Err(TranscriptFailure::CommitPowWitnessCount {
                expected,
                got: witnesses.len(),
            });
        }
        let mut betas = Vec::with_capacity(alloc, expected)?;
        for round in 0..expected {
            match self.commit_round(commitments[round], witnesses[round]) {
                Ok(beta) => push(&mut betas, beta)?,
                Err(failure) => return Err(failure),
            }
        }
        Ok(betas)
    }

    /// Replays the final polynomial and the proof of work, whose witness may be missing only at no
    /// bits (`MissingPowWitness`, else `PowWitness`), and answers the queries' indices, as many as
    /// described, each below `2^index_bits`. A polynomial of another length than described is
    /// refused first (`FinalPolyLen`). Both widths are at most the challenger's greatest. After a
    /// refusal only `abort` may follow.
    pub fn query_phase(
        &mut self,
        alloc: Global,
        final_poly: &[EF],
        witness: Option<F>,
    ) -> Result<Vec<usize>, TranscriptFailure>
        requires all_rounds_played { RoundsLeft EF.DIMENSION (shape_of self.old) 0
            (left_of self.old) }
        requires pow_at_most_max { (shape_of self.old).query_pow_bits ≤ C.MAX_SAMPLE_BITS }
        requires index_at_most_max { (shape_of self.old).index_bits ≤ C.MAX_SAMPLE_BITS }
        ensures kept { Kept self.old self.new }
        ensures passes { result ≢ Err TranscriptFailure.OutOfMemory → (IsOk result
            ↔ QueriesPass ⟦<C as Plays<F, EF, F>>⟧.moves EF.coefficients (shape_of self.old)
            (state_of self.old) final_poly.now witness) }
        ensures queries { IfOk result (λ indices.
            shown_queries_replay ⟦<C as Plays<F, EF, F>>⟧.moves EF.coefficients (shape_of self.old)
            (state_of self.old) final_poly.now witness
            ≡ record { passes = true; indices = indices.items; state = state_of self.new }) }
        ensures indices { IfOk result (λ indices. AreIndices (shape_of self.old) indices.items) }
        ensures steps { OnOk result (left_of self.new ≡ []) }

        // Each failure names what stands, and a wrong length leaves the challenger as it was.
        ensures failure { IfErr result (λ e.
            QueriesFailure ⟦<C as Plays<F, EF, F>>⟧.moves EF.coefficients (shape_of self.old)
            (state_of self.old) final_poly.now witness (state_of self.new) e) }
        ensures wrong_length { let expected = (shape_of self.old).final_poly_len in
            length final_poly.now ≢ expected
            → result ≡ Err (TranscriptFailure.FinalPolyLen expected (length final_poly.now)) }
        ensures reached { Reaches ⟦<C as Plays<F, EF, F>>⟧.moves (state_of self.old)
            (state_of self.new) }
    {
        let expected = self.shape.final_poly_len;
        if final_poly.len() != expected {
            return Err(TranscriptFailure::FinalPolyLen {
                expected,
                got: final_poly.len(),
            });
        }
        self.script
            .observe_extensions(&mut *self.challenger, final_poly);
        let bits = self.shape.query_pow_bits;
        match check(&mut self.script, &mut *self.challenger, bits, witness) {
            Ok(()) => {},
            Err(PowFailure::Missing) => {
                return Err(TranscriptFailure::MissingPowWitness(PowPhase::Query));
            },
            Err(PowFailure::Wrong) => {
                return Err(TranscriptFailure::PowWitness(PowPhase::Query));
            },
        }
        let indices = self.script.challenge_bits(
            alloc,
            &mut *self.challenger,
            self.shape.index_bits,
            self.shape.num_queries,
        )?;
        Ok(indices)
    }
}

/// Appends a value.
pub(super) fn push<T: Copy>(list: &mut Vec<T>, value: T) -> Result<(), AllocError>
    ensures { OnOk result (list.new.items ≡ list.old.items ++ value ∷ []) }
{
    list.push(value)?;
    Ok(())
}
