//! The verifier of openings.

ghost use Rattle.std.specs.Prelude.{◌≡◌, ◌≢◌, ◌↔◌, Err, IsOk, IfErr};
ghost use Rattle.p3_fri_folding.specs.declared.pow_phase.PowPhase.{PowPhase};
ghost use Rattle.p3_fri_relation.specs.declared.error.FriError.TheVariants.{OutOfMemory};
ghost use Rattle.p3_fri_relation.specs.declared.error.FriError.TheVariants.{NonCanonicalPowWitness};
ghost use Rattle.p3_fri_relation.specs.Acceptance.{Accepts};
ghost use Rattle.p3_fri_relation.specs.Faults.{StandsInScheme};
ghost use Rattle.p3_fri_relation.specs.Views.{parameters_of, claims_of, proof_of};
ghost use Rattle.p3_fri_opening_verifier.specs.Ends.{last_state};
ghost use Rattle.p3_fri_opening_verifier.specs.Ranges.{IsInVerifierRange};

use crate::seeded::verify_seeded;
use p3_challenger_core::{CanObserve, FieldChallenger, GrindingChallenger};
use p3_field_core::{ExtensionField, TwoAdicField, TwoAdicMultiplicativeCoset};
use p3_fri_folding::{FriFoldingStrategy, FriParameters};
use p3_fri_pcs_transcript::PcsShape;
use p3_fri_relation::error::FriError;
use p3_fri_relation::proof::{BatchMultiOpening, FriProof};
use p3_fri_relation::setting::PlaysFri;
use p3_fri_verifier::check_canonical;
use p3_fri_verifier::setting::VerifierSetting;
use p3_mmcs::{CommitmentOpening, Mmcs};
use std::alloc::{AllocError, Global};

/// Verifies a proof of what is claimed of committed matrices at points: the claimed values are
/// absorbed, a challenge that batches them is drawn, and with it the low-degree test (FRI, ICALP
/// 2018) of their quotients verified.
///
/// Memory aside it is `Ok` exactly where the claims and the proof are accepted, and then the
/// challenger is left in the last state of both transcripts. Of a claimed domain the size alone is
/// read.
///
/// The final height is below 64. The challenger draws as many bits at once as the two-adicity and
/// the strategy's extra bits together, and as each difficulty. The strategy folds words of each log
/// height up to the two-adicity.
///
/// # Errors
///
/// A refusal names a fault that stands. Witnesses of proofs of work that have no bits are compared
/// with zero first, before the challenger is touched: `NonCanonicalPowWitness` leaves it as it was.
/// Want of memory is `OutOfMemory`. After another refusal the challenger is of no use.
pub fn verify_opening<
    F: TwoAdicField,
    EF: ExtensionField<F>,
    M: Mmcs<EF>,
    InputMmcs: Mmcs<F>,
    S: FriFoldingStrategy<F, EF, InputError = InputMmcs::Error>,
    C: FieldChallenger<F> + GrindingChallenger<Witness = F> + CanObserve<M::Commitment>,
>(
    alloc: Global,
    folding: &S,
    params: &FriParameters<M>,
    input_mmcs: &InputMmcs,
    claims: &[CommitmentOpening<EF, InputMmcs::Commitment, TwoAdicMultiplicativeCoset<F>>],
    proof: &FriProof<EF, M, F, Vec<BatchMultiOpening<F, InputMmcs>>>,
    challenger: &mut C,
) -> Result<(), FriError<M::Error, InputMmcs::Error>>
    requires range { IsInVerifierRange (parameters_of params.now) F.TWO_ADICITY
        (S.extra_query_index_bits folding.now) (S.max_log_height folding.now) C.MAX_SAMPLE_BITS }
    ensures exact { let s = ⟦<C as PlaysFri<F, EF, S, M, InputMmcs>>⟧.setting folding.now
        params.now.mmcs input_mmcs.now in
        result ≢ Err OutOfMemory → (IsOk result
        ↔ Accepts s (parameters_of params.now) (claims_of (λ d. d.log_size) claims.now)
        (proof_of proof.now) challenger.old) }
    ensures state { let s = ⟦<C as PlaysFri<F, EF, S, M, InputMmcs>>⟧.setting folding.now
        params.now.mmcs input_mmcs.now in
        IsOk result → challenger.new
        ≡ last_state s (parameters_of params.now) (claims_of (λ d. d.log_size) claims.now)
        (proof_of proof.now) challenger.old }
    ensures refusal { let s = ⟦<C as PlaysFri<F, EF, S, M, InputMmcs>>⟧.setting folding.now
        params.now.mmcs input_mmcs.now in
        IfErr result (StandsInScheme s (parameters_of params.now)
        (claims_of (λ d. d.log_size) claims.now) (proof_of proof.now) challenger.old) }
    ensures unchanged { (phase : PowPhase) → result ≡ Err (NonCanonicalPowWitness phase)
        → challenger.new ≡ challenger.old }
{
    match check_canonical(params, proof) {
        Ok(()) => {},
        Err(refusal) => return Err(refusal),
    }
    let shape = match PcsShape::from_claims(alloc, params, claims) {
        Ok(shape) => shape,
        Err(AllocError) => return Err(FriError::OutOfMemory),
    };
    let seed = match shape.seed::<F, EF>(alloc) {
        Ok(seed) => seed,
        Err(AllocError) => return Err(FriError::OutOfMemory),
    };
    let known = VerifierSetting {
        folding,
        params,
        input_mmcs,
        claims,
    };
    verify_seeded::<F, EF, M, InputMmcs, S, C>(alloc, &known, proof, challenger, seed, shape)
}
