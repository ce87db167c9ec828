//! The verifier of claims whose values are random beyond those that are shown.

ghost use Rattle.std.specs.Prelude.{◌≡◌, ◌≢◌, ◌↔◌, Err, IsOk, IfErr, map};
ghost use Rattle.p3_pcs.specs.Claims.{claim, opened_values};
ghost use Rattle.p3_fri_relation.specs.declared.error.FriError.TheVariants.{OutOfMemory};
ghost use Rattle.p3_fri_relation.specs.Views.{parameters_of, proof_of};
ghost use Rattle.p3_fri_openings.specs.SchemeClaims.{relation_claims};
ghost use Rattle.p3_fri_opening_verifier.specs.Ends.{last_state};
ghost use Rattle.p3_fri_two_adic.specs.Ranges.{InVerifierRange};
ghost use Rattle.p3_fri_hiding_openings.specs.RandomValues.{with_random_values};
ghost use Rattle.p3_fri_hiding_openings.specs.Hiding.{HidingAccepts, StandsInHidingScheme};
ghost use Rattle.p3_fri_hiding_openings.specs.Hiding.{LeavesHidingVerifier};

use crate::append::append_random_values;
use p3_challenger_core::{CanObserve, FieldChallenger, GrindingChallenger};
use p3_field_core::{PackableExtension, PackableField, TwoAdicField, TwoAdicMultiplicativeCoset};
use p3_fri_folding::{FriParameters, TwoAdicFriFolding};
use p3_fri_opening_verifier::setting::{PlaysTwoAdic, TwoAdicFriFoldingForMmcs};
use p3_fri_opening_verifier::verify_opening;
use p3_fri_relation::error::FriError;
use p3_fri_relation::proof::{BatchMultiOpening, FriProof};
use p3_mmcs::{CommitmentOpening, Mmcs};
use std::alloc::Global;
use std::marker::PhantomData;

/// What a verifier of the hiding scheme knows beside the claims and the proof.
#[derive(Drop)]
pub struct HidingVerifierSetting<'a, M, InputMmcs> {
    /// The parameters, with the commitment scheme of the rounds.
    pub params: &'a FriParameters<M>,
    /// The commitment scheme of the inputs.
    pub input_mmcs: &'a InputMmcs,
    /// How many random values stand at each point.
    pub num_random_codewords: usize,
    /// The index of the commitment to preprocessing, which has none of them, if there is one.
    pub preprocessing: Option<usize>,
}

/// Verifies a proof of claims whose values at each point are followed by random ones, which stand
/// beside the proof: they are appended to the claims in place, as `append_random_values` does, and
/// the opening of all these values is verified, whose words are two-adic ones.
///
/// Memory aside it is `Ok` exactly where the random values may be appended and the claims with them
/// are accepted, and then the challenger is left in the last state of both transcripts.
///
/// The final height is below 64, and the challenger draws as many bits at once as the two-adicity
/// and as each difficulty.
///
/// # Errors
///
/// A refusal names a fault that stands: of the random values, which are looked at first, or of the
/// claims with them. The former, and `NonCanonicalPowWitness`, leave the challenger as it was. Want
/// of memory is `OutOfMemory`.
pub fn verify_with_random_values<
    F: TwoAdicField + PackableField,
    EF: PackableExtension<F>,
    InputMmcs: Mmcs<F>,
    M: Mmcs<EF>,
    C: FieldChallenger<F> + GrindingChallenger<Witness = F> + CanObserve<M::Commitment>,
>(
    alloc: Global,
    setting: &HidingVerifierSetting<'_, M, InputMmcs>,
    mut claims: Vec<CommitmentOpening<EF, InputMmcs::Commitment, TwoAdicMultiplicativeCoset<F>>>,
    random: &[Vec<Vec<Vec<EF>>>],
    proof: &FriProof<EF, M, F, Vec<BatchMultiOpening<F, InputMmcs>>>,
    challenger: &mut C,
) -> Result<(), FriError<M::Error, InputMmcs::Error>>
    requires range { InVerifierRange (parameters_of setting.now.params.now) F.TWO_ADICITY
        C.MAX_SAMPLE_BITS }
    ensures exactly { let k = setting.now in
        let s = ⟦<C as PlaysTwoAdic<F, EF, InputMmcs, M>>⟧.setting k.input_mmcs.now
        k.params.now.mmcs in
        result ≢ Err OutOfMemory → (IsOk result ↔ HidingAccepts s (parameters_of k.params.now)
        k.num_random_codewords k.preprocessing
        (relation_claims (λ d. d.log_size) (map claim claims.items)) (opened_values random.now)
        (proof_of proof.now) challenger.old) }
    ensures state { let k = setting.now in
        let s = ⟦<C as PlaysTwoAdic<F, EF, InputMmcs, M>>⟧.setting k.input_mmcs.now
        k.params.now.mmcs in
        IsOk result → challenger.new ≡ last_state s (parameters_of k.params.now)
        (with_random_values (relation_claims (λ d. d.log_size) (map claim claims.items))
        (opened_values random.now)) (proof_of proof.now) challenger.old }
    ensures stands { let k = setting.now in
        let s = ⟦<C as PlaysTwoAdic<F, EF, InputMmcs, M>>⟧.setting k.input_mmcs.now
        k.params.now.mmcs in
        IfErr result (StandsInHidingScheme s (parameters_of k.params.now)
        k.num_random_codewords k.preprocessing
        (relation_claims (λ d. d.log_size) (map claim claims.items)) (opened_values random.now)
        (proof_of proof.now) challenger.old) }
    ensures unmoved { IfErr result (λ e. LeavesHidingVerifier e
        → challenger.new ≡ challenger.old) }
{
    let appended = append_random_values(
        claims.as_mut_slice(),
        random,
        setting.num_random_codewords,
        setting.params.num_queries,
        setting.preprocessing,
    );
    match appended {
        Ok(()) => {},
        Err(refusal) => return Err(refusal),
    }
    let folding: TwoAdicFriFoldingForMmcs<F, InputMmcs> = TwoAdicFriFolding(PhantomData);
    verify_opening::<F, EF, M, InputMmcs, TwoAdicFriFoldingForMmcs<F, InputMmcs>, C>(
        alloc,
        &folding,
        setting.params,
        setting.input_mmcs,
        &claims,
        proof,
        challenger,
    )
}
