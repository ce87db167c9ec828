//! The prover's calls.

ghost use Rattle.std.specs.Prelude.{◌≡◌, ◌≢◌, ◌≤◌, true, IsSome, IfOk, IfErr, OnOk, OnErr};
ghost use Rattle.std.specs.Prelude.{length, map, unwrap_or};
ghost use Rattle.std.specs.List.{flat_map};
ghost use Rattle.p3_challenger_core.specs.Run.{observed_all};
ghost use Rattle.p3_challenger_fs.specs.Script.{remaining};
ghost use Rattle.p3_fri_folding.specs.declared.error.FriProverError.TheVariants.{NoPowWitness};
ghost use Rattle.p3_fri_folding.specs.declared.pow_phase.PowPhase.TheVariants.{Batch};
ghost use Rattle.p3_fri_pow.specs.Pow.{found_witness, NonePasses};
ghost use Rattle.p3_fri_pcs_transcript.specs.Absorption.{ClaimsThen, Absorbs};
ghost use Rattle.p3_fri_pcs_transcript.specs.Counts.{counts_of_values, lists_of_values, all_values};
ghost use Rattle.p3_fri_pcs_transcript.specs.Replay.{batch_replay};
ghost use Rattle.p3_fri_pcs_transcript.specs.Turns.{bracket_turns};
ghost use Rattle.p3_fri_pcs_transcript.specs.Views.{state_of, left_of, shape_of, Kept};
ghost use Rattle.p3_fri_pcs_transcript.specs.Views.{AllClaimsLeft, NoClaimsLeft};

use crate::pcs_transcript::state::PcsProverTranscript;
use p3_challenger_core::{FieldChallenger, GrindingChallenger, Plays};
use p3_challenger_fs::Script;
use p3_field_core::{ExtensionField, Field};
use p3_fri_folding::{FriProverError, PowPhase};
use p3_fri_pow::pow::grind;
use p3_mmcs::OpenedValues;

#[tactic(auto, unfolding(crate::specs::Shapes::pcs_shape))]
impl<
    'a,
    F: Field,
    EF: ExtensionField<F>,
    C: FieldChallenger<F> + GrindingChallenger<Witness = F>,
> PcsProverTranscript<'a, C, F, EF> {
    /// Absorbs all values, in the order of commitments, matrices and points. At each there are as
    /// many as described.
    pub fn claimed_openings(&mut self, opened_values: &OpenedValues<EF>)
        requires no_step_played { AllClaimsLeft EF.DIMENSION self.old }
        requires described { counts_of_values opened_values.now.items ≡ (shape_of self.old).counts }
        ensures kept { Kept self.old self.new }
        ensures state { state_of self.new ≡ observed_all C.observed (state_of self.old)
            (flat_map EF.coefficients (all_values opened_values.now.items)) }
        ensures steps { NoClaimsLeft EF.DIMENSION self.new }
    {
        absorb_values(&mut self.script, &mut *self.challenger, opened_values);
    }

    /// Makes the proof of work and draws the challenge that batches the openings, which it answers
    /// with the witness, if there are bits. Refused only where no element passes; then only `abort`
    /// may follow.
    pub fn batch_phase(&mut self) -> Result<(EF, Option<F>), FriProverError>
        requires all_claims_played { NoClaimsLeft EF.DIMENSION self.old }
        requires at_most_max { (shape_of self.old).batch_pow_bits ≤ C.MAX_SAMPLE_BITS }
        ensures kept { Kept self.old self.new }
        ensures witness { IfOk result (λ answer. answer.1
            ≡ found_witness C.solution (state_of self.old) (shape_of self.old).batch_pow_bits) }
        ensures found { (shape_of self.old).batch_pow_bits ≢ 0
            → IfOk result (λ answer. IsSome answer.1) }
        ensures batch { IfOk result (λ answer.
            batch_replay ⟦<C as Plays<F, EF, F>>⟧.moves (shape_of self.old).batch_pow_bits
            (state_of self.old) (unwrap_or answer.1 F.ops.zero)
            ≡ record { passes = true; alpha = answer.0; state = state_of self.new }) }
        ensures steps { OnOk result (left_of self.new ≡ bracket_turns) }
        ensures refused { IfErr result (λ e. e ≡ NoPowWitness Batch) }
        ensures none_passes { OnErr result (NonePasses C.observed C.sampled_bits
            (state_of self.old) (shape_of self.old).batch_pow_bits) }
        ensures unchanged { OnErr result (state_of self.new ≡ state_of self.old) }
    {
        let witness = grind(
            &mut self.script,
            &mut *self.challenger,
            self.shape.batch_pow_bits,
            PowPhase::Batch,
        )?;
        let challenge = self.script.challenge_extension(&mut *self.challenger);
        Ok((challenge, witness))
    }
}

/// Absorbs the values in the order of commitments, matrices and points.
fn absorb_values<F: Field, EF: ExtensionField<F>, C: FieldChallenger<F>>(
    script: &mut Script,
    challenger: &mut C,
    commitments: &[Vec<Vec<Vec<EF>>>],
)
    requires next { ClaimsThen EF.DIMENSION (map length (lists_of_values commitments.now))
        (remaining script.old) }
    ensures { Absorbs C.observed EF.coefficients EF.DIMENSION script.old script.new
        challenger.old challenger.new (lists_of_values commitments.now) }
{
    for matrices in commitments {
        for points in matrices {
            for values in points {
                script.observe_extensions(challenger, values);
            }
        }
    }
}
