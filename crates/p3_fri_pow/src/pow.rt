//! Proofs of work that are asked for only where there are bits.

ghost use Rattle.std.specs.Prelude.{◌≡◌, ◌≢◌, ◌≤◌, ◌↔◌, Err, IsTrue, IsOk, IfOk, IfErr};
ghost use Rattle.std.specs.Prelude.{OnOk, OnErr, IsSome, unwrap_or};
ghost use Rattle.p3_challenger_core.specs.Run.{grind_attempt, Passes};
ghost use Rattle.p3_challenger_fs.specs.Script.{remaining};
ghost use Rattle.p3_fri_folding.specs.declared.error.FriProverError.TheVariants.{NoPowWitness};
ghost use Rattle.p3_fri_pow.specs.Pow.{IsPowNext, PowPlayed, found_witness, shown_attempt};
ghost use Rattle.p3_fri_pow.specs.Pow.{NonePasses, IsMissing, IsWrongWitness};

use p3_challenger_core::{FieldChallenger, GrindingChallenger};
use p3_challenger_fs::Script;
use p3_field_core::Field;
use p3_fri_folding::{FriProverError, PowPhase};

/// Makes the proof of work, of which there is none at no bits: answers what the challenger's search
/// gives. Where no element passes it is refused, with the challenger unchanged.
pub fn grind<F: Field, C: FieldChallenger<F> + GrindingChallenger<Witness = F>>(
    script: &mut Script,
    challenger: &mut C,
    bits: usize,
    phase: PowPhase,
) -> Result<Option<F>, FriProverError>
    requires next { IsPowNext bits (remaining script.old) }
    requires at_most_max { bits ≤ C.MAX_SAMPLE_BITS }
    ensures witness { IfOk result (λ w. w ≡ found_witness C.solution challenger.old bits) }
    ensures found { bits ≢ 0 → IfOk result (λ w. IsSome w) }
    ensures passes { IfOk result (λ w.
        Passes C.observed C.sampled_bits challenger.old bits (unwrap_or w F.ops.zero)) }
    ensures state { IfOk result (λ w.
        let attempt = grind_attempt C.observed C.sampled_bits challenger.old bits in
        challenger.new ≡ (attempt (unwrap_or w F.ops.zero)).state) }
    ensures steps { OnOk result (PowPlayed bits (remaining script.old) (remaining script.new)) }
    ensures refused { IfErr result (λ e. e ≡ NoPowWitness phase) }
    ensures none_passes { OnErr result (NonePasses C.observed C.sampled_bits challenger.old bits) }
    ensures unchanged { OnErr result (challenger.new ≡ challenger.old) }
{
    if bits == 0 {
        return Ok(None);
    }
    match script.grind(challenger, bits) {
        Some(witness) => Ok(Some(witness)),
        None => Err(FriProverError::NoPowWitness { phase }),
    }
}

/// Why a proof of work is refused.
#[derive(Clone, Copy, Debug, PartialEq, Eq)]
pub enum PowFailure {
    /// There is no witness.
    Missing,
    /// The witness doesn't pass.
    Wrong,
}

/// Checks the proof of work, of which there is none at no bits. A witness is `Missing` only where
/// there are bits, and `Wrong` only where it doesn't pass; it has been absorbed then.
pub fn check<F: Field, C: FieldChallenger<F> + GrindingChallenger<Witness = F>>(
    script: &mut Script,
    challenger: &mut C,
    bits: usize,
    witness: Option<F>,
) -> Result<(), PowFailure>
    requires next { IsPowNext bits (remaining script.old) }
    requires at_most_max { bits ≤ C.MAX_SAMPLE_BITS }
    ensures passes { IsOk result
        ↔ IsTrue (shown_attempt C.observed C.sampled_bits challenger.old bits witness).value }
    ensures state { challenger.new
        ≡ (shown_attempt C.observed C.sampled_bits challenger.old bits witness).state }
    ensures steps { OnOk result (PowPlayed bits (remaining script.old) (remaining script.new)) }
    ensures missing { result ≡ Err PowFailure.Missing → IsMissing bits witness }
    ensures wrong { result ≡ Err PowFailure.Wrong
        → IsWrongWitness C.observed C.sampled_bits challenger.old bits witness }
{
    if bits == 0 {
        return Ok(());
    }
    let Some(witness) = witness else {
        return Err(PowFailure::Missing);
    };
    if script.check_witness(challenger, bits, witness) {
        Ok(())
    } else {
        Err(PowFailure::Wrong)
    }
}
