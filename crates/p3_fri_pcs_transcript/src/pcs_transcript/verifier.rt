//! The verifier's calls.

ghost use Rattle.std.specs.Prelude.{◌≡◌, ◌≤◌, ◌↔◌, ◌++◌, ℕ, true, List, IsTrue};
ghost use Rattle.std.specs.Prelude.{IsOk, IfOk, IfErr, IsOkAnd, OnOk, OnErr};
ghost use Rattle.std.specs.List.{flat_map};
ghost use Rattle.p3_challenger_core.specs.Run.{observed_all};
ghost use Rattle.p3_fri_pow.specs.Pow.{shown_attempt};
ghost use Rattle.p3_fri_pcs_transcript.specs.Claims.{BeginsWith, IsClaimFailure};
ghost use Rattle.p3_fri_pcs_transcript.specs.Counts.{counts_of_claims, all_claimed};
ghost use Rattle.p3_fri_pcs_transcript.specs.Failures.{BatchFailure};
ghost use Rattle.p3_fri_pcs_transcript.specs.Replay.{shown_batch_replay};
ghost use Rattle.p3_fri_pcs_transcript.specs.Steps.{widths};
ghost use Rattle.p3_fri_pcs_transcript.specs.Turns.{ClaimsLeft, bracket_turns};
ghost use Rattle.p3_fri_pcs_transcript.specs.Views.{state_of, left_of, shape_of, Kept};
ghost use Rattle.p3_fri_pcs_transcript.specs.Views.{AllClaimsLeft, NoClaimsLeft};

use crate::pcs_transcript::claims::absorb_claims;
use crate::pcs_transcript::described::DescribedCounts;
use crate::pcs_transcript::failure::PcsTranscriptFailure;
use crate::pcs_transcript::state::PcsVerifierTranscript;
use p3_challenger_core::{FieldChallenger, GrindingChallenger, Plays};
use p3_field_core::{ExtensionField, Field};
use p3_fri_pow::pow::{PowFailure, check};
use p3_mmcs::CommitmentWithOpeningPoints;

#[tactic(auto, unfolding(crate::specs::Shapes::pcs_shape))]
impl<
    'a,
    F: Field,
    EF: ExtensionField<F>,
    C: FieldChallenger<F> + GrindingChallenger<Witness = F>,
> PcsVerifierTranscript<'a, C, F, EF> {
    /// Absorbs all claimed values, in the order of commitments, matrices and points, and compares
    /// how many there are at each with the described count at its place. A claim past the last
    /// described one is refused. Where there are fewer claims than described, the others are left
    /// to play. After a refusal only `abort` may follow.
    pub fn claimed_openings<Com, Domain>(
        &mut self,
        claims: &[CommitmentWithOpeningPoints<EF, Com, Domain>],
    ) -> Result<(), PcsTranscriptFailure>
        requires no_step_played { AllClaimsLeft EF.DIMENSION self.old }
        ensures kept { Kept self.old self.new }
        ensures passes { IsOk result ↔
            BeginsWith (widths (shape_of self.old).counts) (widths (counts_of_claims claims.now)) }
        ensures state { OnOk result (state_of self.new ≡ observed_all C.observed (state_of self.old)
            (flat_map EF.coefficients (all_claimed claims.now))) }
        ensures steps { OnOk result ((left : List ℕ) →
            widths (shape_of self.old).counts ≡ widths (counts_of_claims claims.now) ++ left →
            ClaimsLeft EF.DIMENSION (shape_of self.new) left (left_of self.new)) }
        ensures whole { counts_of_claims claims.now ≡ (shape_of self.old).counts →
            IsOkAnd result (λ _. NoClaimsLeft EF.DIMENSION self.new) }
        ensures fault { IfErr result (λ e. IsClaimFailure 0 (widths (shape_of self.old).counts)
            (widths (counts_of_claims claims.now)) e) }
    {
        let mut described = DescribedCounts::new(&self.shape.claimed_evaluation_counts);
        match absorb_claims(
            &mut self.script,
            &mut *self.challenger,
            &mut described,
            claims,
        ) {
            Ok(()) => Ok(()),
            Err(failure) => Err(failure),
        }
    }

    /// Checks the proof of work, whose witness may be missing only at no bits, and draws the
    /// challenge that batches the openings. After a refusal only `abort` may follow.
    pub fn batch_phase(&mut self, witness: Option<F>) -> Result<EF, PcsTranscriptFailure>
        requires all_claims_played { NoClaimsLeft EF.DIMENSION self.old }
        requires at_most_max { (shape_of self.old).batch_pow_bits ≤ C.MAX_SAMPLE_BITS }
        ensures kept { Kept self.old self.new }
        ensures passes { IsOk result ↔
            IsTrue (shown_batch_replay ⟦<C as Plays<F, EF, F>>⟧.moves
            (shape_of self.old).batch_pow_bits (state_of self.old) witness).passes }
        ensures batch { IfOk result (λ alpha.
            shown_batch_replay ⟦<C as Plays<F, EF, F>>⟧.moves (shape_of self.old).batch_pow_bits
            (state_of self.old) witness
            ≡ record { passes = true; alpha = alpha; state = state_of self.new }) }
        ensures steps { OnOk result (left_of self.new ≡ bracket_turns) }
        ensures refused { OnErr result (state_of self.new ≡ (shown_attempt C.observed C.sampled_bits
            (state_of self.old) (shape_of self.old).batch_pow_bits witness).state) }
        ensures failure { IfErr result (λ e.
            BatchFailure ⟦<C as Plays<F, EF, F>>⟧.moves (shape_of self.old).batch_pow_bits
            (state_of self.old) witness e) }
    {
        let bits = self.shape.batch_pow_bits;
        match check(&mut self.script, &mut *self.challenger, bits, witness) {
            Ok(()) => Ok(self.script.challenge_extension(&mut *self.challenger)),
            Err(PowFailure::Missing) => Err(PcsTranscriptFailure::MissingPowWitness { bits }),
            Err(PowFailure::Wrong) => Err(PcsTranscriptFailure::PowWitness { bits }),
        }
    }
}
