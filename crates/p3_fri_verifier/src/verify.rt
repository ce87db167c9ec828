//! The verifier of the low-degree test.

ghost use Rattle.std.specs.Prelude.{◌≡◌, ◌≢◌, ◌+◌, ◌<◌, ◌≤◌, ◌↔◌, Err, IsOk, IfErr};
ghost use Rattle.p3_fri_folding.specs.declared.pow_phase.PowPhase.{PowPhase};
ghost use Rattle.p3_fri_relation.specs.declared.error.FriError.TheVariants.{OutOfMemory};
ghost use Rattle.p3_fri_relation.specs.declared.error.FriError.TheVariants.{NonCanonicalPowWitness};
ghost use Rattle.p3_fri_relation.specs.Acceptance.{AreCanonical, FriAccepts, test_replay};
ghost use Rattle.p3_fri_relation.specs.Faults.{Stands};
ghost use Rattle.p3_fri_relation.specs.Views.{parameters_of, claims_of, proof_of};

use crate::canonical::check_canonical;
use crate::draws::draw;
use crate::openings::verify_openings;
use crate::plan::make_plan;
use crate::setting::{DrawnTest, VerifierSetting};
use p3_challenger_core::{CanObserve, FieldChallenger, GrindingChallenger};
use p3_field_core::{ExtensionField, TwoAdicField, TwoAdicMultiplicativeCoset};
use p3_fri_folding::{FriFoldingStrategy, FriParameters};
use p3_fri_relation::error::FriError;
use p3_fri_relation::proof::{BatchMultiOpening, FriProof};
use p3_fri_relation::setting::PlaysFri;
use p3_mmcs::{CommitmentOpening, Mmcs};
use std::alloc::Global;

/// `verify_fri` of a proof that `check_canonical` has accepted, so that each witness of a proof of
/// work of no bits is zero. After a refusal the challenger is of no use.
///
/// # Errors
///
/// Those of `verify_fri`, without `NonCanonicalPowWitness`.
pub fn verify_canonical<
    F: TwoAdicField,
    EF: ExtensionField<F>,
    M: Mmcs<EF>,
    InputMmcs: Mmcs<F>,
    S: FriFoldingStrategy<F, EF, InputError = InputMmcs::Error>,
    C: FieldChallenger<F> + GrindingChallenger<Witness = F> + CanObserve<M::Commitment>,
>(
    alloc: Global,
    known: &VerifierSetting<'_, F, EF, M, InputMmcs, S>,
    proof: &FriProof<EF, M, F, Vec<BatchMultiOpening<F, InputMmcs>>>,
    challenger: &mut C,
    alpha: EF,
) -> Result<(), FriError<M::Error, InputMmcs::Error>>
    requires final_height_below_64 { let p = known.now.params.now in
        p.log_blowup + p.log_final_poly_len < 64 }
    requires index_bits_at_most_max { F.TWO_ADICITY
        + S.extra_query_index_bits known.now.folding.now ≤ C.MAX_SAMPLE_BITS }
    requires commit_bits_at_most_max { known.now.params.now.commit_proof_of_work_bits
        ≤ C.MAX_SAMPLE_BITS }
    requires query_bits_at_most_max { known.now.params.now.query_proof_of_work_bits
        ≤ C.MAX_SAMPLE_BITS }
    requires max_log_height { F.TWO_ADICITY ≤ S.max_log_height known.now.folding.now }
    requires canonical { AreCanonical (parameters_of known.now.params.now) (proof_of proof.now)
        F.ops.zero }
    ensures exact { let k = known.now in
        let s = ⟦<C as PlaysFri<F, EF, S, M, InputMmcs>>⟧.setting k.folding.now
        k.params.now.mmcs k.input_mmcs.now in
        result ≢ Err OutOfMemory → (IsOk result
        ↔ FriAccepts s (parameters_of k.params.now) (claims_of (λ d. d.log_size) k.claims.now)
        (proof_of proof.now) challenger.old alpha) }
    ensures state { let k = known.now in
        let s = ⟦<C as PlaysFri<F, EF, S, M, InputMmcs>>⟧.setting k.folding.now
        k.params.now.mmcs k.input_mmcs.now in
        IsOk result → challenger.new
        ≡ (test_replay s (parameters_of k.params.now) (claims_of (λ d. d.log_size) k.claims.now)
        (proof_of proof.now) challenger.old).state }
    ensures refusal { let k = known.now in
        let s = ⟦<C as PlaysFri<F, EF, S, M, InputMmcs>>⟧.setting k.folding.now
        k.params.now.mmcs k.input_mmcs.now in
        IfErr result (Stands s (parameters_of k.params.now)
        (claims_of (λ d. d.log_size) k.claims.now) (proof_of proof.now) challenger.old alpha) }
    ensures no_witness_named { (phase : PowPhase) → result ≢ Err (NonCanonicalPowWitness phase) }
{
    let plan = match make_plan::<F, EF, M, InputMmcs>(alloc, known.params, known.claims, proof) {
        Ok(plan) => plan,
        Err(refusal) => return Err(refusal),
    };
    let extra_bits = known.folding.extra_query_index_bits();
    let draws = match draw::<F, EF, M, InputMmcs, C>(
        alloc,
        known.params,
        &plan,
        proof,
        challenger,
        extra_bits,
    ) {
        Ok(draws) => draws,
        Err(refusal) => return Err(refusal),
    };
    let test = DrawnTest {
        log_arities: plan.log_arities.as_slice(),
        log_global_max_height: plan.log_global_max_height,
        betas: draws.betas.as_slice(),
        positions: draws.positions.as_slice(),
    };
    verify_openings::<F, EF, M, InputMmcs, S, C>(alloc, known, proof, alpha, &test)
}

/// Verifies a proof of the low-degree test (FRI, ICALP 2018) of what is claimed of committed
/// matrices, where `alpha` is the challenge that batches the claims' quotients.
///
/// Memory aside it is `Ok` exactly where the test accepts, and then the challenger is left in the
/// last state of the test's transcript. No index, sum or size is taken from the proof before it was
/// compared with what the parameters and the claims ask for, and no query is drawn before the proof
/// was found to open each commitment for all of them.
///
/// The final height is below 64. The challenger draws as many bits at once as the two-adicity and
/// the strategy's extra bits together, and as each difficulty. The strategy folds words of each log
/// height up to the two-adicity.
///
/// # Errors
///
/// A refusal names a fault that stands: of the parameters and the claims, of the lengths of the
/// proof's lists, of its proofs of work, of the openings of the inputs or of the rounds. Want of
/// memory is `OutOfMemory`. `NonCanonicalPowWitness` leaves the challenger as it was; after another
/// refusal it is of no use.
///
/// # Example
///
/// Over `BabyBear`, with words that are committed to by SHA-256:
///
/// ```text
/// let folding: Folding = TwoAdicFriFolding(PhantomData);
/// let input_mmcs = Sha256Mmcs::<BabyBear>::new();
/// verify_fri::<BabyBear, BabyBear4, Rounds, Inputs, Folding, Sha256Challenger>(
///     alloc, &folding, &params, &proof, &mut challenger, &claims, &input_mmcs, alpha,
/// )?;
/// ```
pub fn verify_fri<
    F: TwoAdicField,
    EF: ExtensionField<F>,
    M: Mmcs<EF>,
    InputMmcs: Mmcs<F>,
    S: FriFoldingStrategy<F, EF, InputError = InputMmcs::Error>,
    C: FieldChallenger<F> + GrindingChallenger<Witness = F> + CanObserve<M::Commitment>,
>(
    alloc: Global,
    folding: &S,
    params: &FriParameters<M>,
    proof: &FriProof<EF, M, F, Vec<BatchMultiOpening<F, InputMmcs>>>,
    challenger: &mut C,
    claims: &[CommitmentOpening<EF, InputMmcs::Commitment, TwoAdicMultiplicativeCoset<F>>],
    input_mmcs: &InputMmcs,
    alpha: EF,
) -> Result<(), FriError<M::Error, InputMmcs::Error>>
    requires final_height_below_64 { params.now.log_blowup + params.now.log_final_poly_len < 64 }
    requires index_bits_at_most_max { F.TWO_ADICITY + S.extra_query_index_bits folding.now
        ≤ C.MAX_SAMPLE_BITS }
    requires commit_bits_at_most_max { params.now.commit_proof_of_work_bits ≤ C.MAX_SAMPLE_BITS }
    requires query_bits_at_most_max { params.now.query_proof_of_work_bits ≤ C.MAX_SAMPLE_BITS }
    requires max_log_height { F.TWO_ADICITY ≤ S.max_log_height folding.now }
    ensures exact { let s = ⟦<C as PlaysFri<F, EF, S, M, InputMmcs>>⟧.setting folding.now
        params.now.mmcs input_mmcs.now in
        result ≢ Err OutOfMemory → (IsOk result
        ↔ FriAccepts s (parameters_of params.now) (claims_of (λ d. d.log_size) claims.now)
        (proof_of proof.now) challenger.old alpha) }
    ensures state { let s = ⟦<C as PlaysFri<F, EF, S, M, InputMmcs>>⟧.setting folding.now
        params.now.mmcs input_mmcs.now in
        IsOk result → challenger.new
        ≡ (test_replay s (parameters_of params.now) (claims_of (λ d. d.log_size) claims.now)
        (proof_of proof.now) challenger.old).state }
    ensures refusal { let s = ⟦<C as PlaysFri<F, EF, S, M, InputMmcs>>⟧.setting folding.now
        params.now.mmcs input_mmcs.now in
        IfErr result (Stands s (parameters_of params.now) (claims_of (λ d. d.log_size) claims.now)
        (proof_of proof.now) challenger.old alpha) }
    ensures unchanged { (phase : PowPhase) → result ≡ Err (NonCanonicalPowWitness phase)
        → challenger.new ≡ challenger.old }
{
    match check_canonical(params, proof) {
        Ok(()) => {},
        Err(refusal) => return Err(refusal),
    }
    let known = VerifierSetting {
        folding,
        params,
        input_mmcs,
        claims,
    };
    verify_canonical::<F, EF, M, InputMmcs, S, C>(alloc, &known, proof, challenger, alpha)
}
