//! The verifier.

ghost use Rattle.std.specs.Prelude.{◌≡◌, ◌≤◌, ◌+◌, ◌≢◌, ◌↔◌, ◌^◌, ℕ, length};
ghost use Rattle.std.specs.Prelude.{IsOk, IfOk, IfErr, OnErr, Err};
ghost use Rattle.stark_algebra.specs.Selectors.{zerofier};
ghost use Rattle.p3_uni_stark_verifier.specs.Chunks.{hiding_bits};
ghost use Rattle.p3_uni_stark_verifier.specs.Claimed.{preprocessed_index};
ghost use Rattle.p3_uni_stark_verifier.specs.Inputs.{IsReady};
ghost use Rattle.p3_uni_stark_verifier.specs.Opened.{Agrees, IdentityFault};
ghost use Rattle.p3_uni_stark_verifier.specs.Relation.{IsExactly, IsOpened, IsLastState};
ghost use Rattle.p3_uni_stark_verifier.specs.Relation.{drawn, HoldsAt, FaultAt};
ghost use Rattle.p3_uni_stark_verifier.specs.Relation.{StarkAccepts, StarkFault};
ghost use Rattle.p3_uni_stark_verifier.specs.Setting.{stark_setting};
ghost use Rattle.p3_uni_stark_verifier.specs.Shown.{key_commitment};
ghost use Rattle.p3_uni_stark_verifier.specs.declared.error.VerificationError.TheVariants as fault;

use crate::chunks::with_hiding;
use crate::claims::stark_claims;
use crate::error::VerificationError;
use crate::inputs::check_inputs;
use crate::opened::{agrees, periodic_values, subgroup};
use crate::proof::{PreprocessedVerifierKey, Proof, Statement};
use crate::setting::StarkField;
use p3_challenger_core::{CanObserve, FieldChallenger, Plays};
use p3_dft::TwoAdicSubgroupDft;
use p3_field_core::{
    ExtensionField, Field, PrimeField64, TwoAdicField, TwoAdicMultiplicativeCoset,
};
use p3_stark_pcs::UnivariateStarkPcs;
use p3_uni_stark_identity::{Challenges, is_on_domain};
use p3_uni_stark_transcript::{StarkCommitments, StarkInstance, replay_stark};
use std::alloc::{AllocError, Global};

/// The commitment of a key, if there is one.
pub fn commitment_of<Com: Copy>(key: Option<PreprocessedVerifierKey<Com>>) -> Option<Com>
    ensures { result ≡ key_commitment key }
{
    match key {
        Some(known) => Some(known.commitment),
        None => None,
    }
}

/// Preprocessed columns are opened first.
fn index_of<Com: Copy>(preprocessed: Option<Com>) -> Option<usize>
    ensures { result ≡ preprocessed_index preprocessed }
{
    match preprocessed {
        Some(_) => Some(0),
        None => None,
    }
}

/// Absorbs what the statement and the proof show, in its order, and draws both challenges.
fn draw_challenges<
    F: TwoAdicField + PrimeField64,
    EF: ExtensionField<F>,
    Com: Copy,
    C: FieldChallenger<F> + CanObserve<Com>,
    Opening,
>(
    alloc: Global,
    statement: &Statement<'_, F, Com>,
    proof: &Proof<EF, Com, Opening>,
    challenger: &mut C,
) -> Result<Challenges<EF>, AllocError>
    ensures drawn { IfOk result (λ challenges. drawn ⟦<EF as StarkField<F>>⟧.fields
        ⟦<C as Plays<F, EF, Com>>⟧.moves statement.now proof.now challenger.old
        ≡ record { alpha = challenges.alpha; zeta = challenges.zeta; state = challenger.new }) }
    ensures unchanged { OnErr result (challenger.new ≡ challenger.old) }
{
    let instance = StarkInstance {
        air: statement.air,
        public_values: statement.public_values,
        periodic: statement.periodic,
        log_height: proof.log_height,
    };
    let commitments = StarkCommitments {
        preprocessed: commitment_of(statement.preprocessed),
        trace: proof.commitments.trace,
        quotient: proof.commitments.quotient_chunks,
        random: proof.commitments.random,
    };
    let drawn = replay_stark::<F, EF, Com, C>(alloc, challenger, &instance, commitments)?;
    Ok(Challenges {
        alpha: drawn.alpha,
        zeta: drawn.zeta,
    })
}

/// Whether the opening is accepted of what the proof claims at a point and at the next one.
fn verify_opening<
    F: TwoAdicField + PrimeField64,
    EF: ExtensionField<F>,
    Com: Copy,
    C: FieldChallenger<F> + CanObserve<Com>,
    P: UnivariateStarkPcs<EF, C, Val = F, Domain = TwoAdicMultiplicativeCoset<F>, Commitment = Com>,
>(
    scheme: &P,
    alloc: Global,
    statement: &Statement<'_, F, Com>,
    proof: &Proof<EF, Com, P::Proof>,
    point: EF,
    challenger: &mut C,
) -> Result<(), VerificationError<P::Error>>
    requires range { (P.rules scheme.now).InVerifierRange }
    requires room { proof.now.log_height + hiding_bits P.ZK ≤ F.TWO_ADICITY }
    ensures exactly { let S = stark_setting ⟦<EF as StarkField<F>>⟧.fields
        ⟦<C as Plays<F, EF, Com>>⟧.moves P.ZK (P.rules scheme.now)
        (λ k d. (d.shift ≡ F.ONE) × (d.log_size ≡ k)) in
        IsExactly S.scheme.out_of_memory (IsOpened S statement.now proof.now point challenger.old)
        result }
    ensures state { let S = stark_setting ⟦<EF as StarkField<F>>⟧.fields
        ⟦<C as Plays<F, EF, Com>>⟧.moves P.ZK (P.rules scheme.now)
        (λ k d. (d.shift ≡ F.ONE) × (d.log_size ≡ k)) in
        IsOk result → IsLastState S statement.now proof.now point challenger.old challenger.new }
    ensures stands { let S = stark_setting ⟦<EF as StarkField<F>>⟧.fields
        ⟦<C as Plays<F, EF, Com>>⟧.moves P.ZK (P.rules scheme.now)
        (λ k d. (d.shift ≡ F.ONE) × (d.log_size ≡ k)) in (log : ℕ) (alpha : EF)
        → IfErr result (FaultAt S statement.now proof.now log alpha point challenger.old) }
{
    let log_rows = with_hiding(proof.log_height, P::ZK);
    let generator = EF::from_base(F::two_adic_generator(proof.log_height));
    let preprocessed = commitment_of(statement.preprocessed);
    let claims = match stark_claims(
        alloc,
        subgroup::<F>(log_rows),
        preprocessed,
        proof.commitments,
        &proof.opened_values,
        (point, generator * point),
    ) {
        Ok(claims) => claims,
        Err(_) => return Err(VerificationError::OutOfMemory),
    };
    let index = index_of(preprocessed);
    let opening = &proof.opening_proof;
    match scheme.verify_with_preprocessing(alloc, claims, opening, challenger, index) {
        Ok(()) => Ok(()),
        Err(error) => Err(VerificationError::InvalidOpeningArgument(error)),
    }
}

/// Whether the opened values agree with the quotient.
fn check_identity<
    F: TwoAdicField + PrimeField64,
    EF: ExtensionField<F>,
    Com: Copy,
    Opening,
    OpeningError,
>(
    alloc: Global,
    statement: &Statement<'_, F, Com>,
    proof: &Proof<EF, Com, Opening>,
    log_chunks: usize,
    zk: bool,
    challenges: Challenges<EF>,
    periodic: &[EF],
) -> Result<(), VerificationError<OpeningError>>
    requires ready { IsReady F.TWO_ADICITY EF.DIMENSION zk statement.now proof.now log_chunks }
    requires off { zerofier EF.ops (2 ^ proof.now.log_height) challenges.zeta ≢ EF.ops.zero }
    requires periodic { length periodic.now ≡ length statement.now.periodic.now }
    ensures exactly { result ≢ Err fault.OutOfMemory
        → (IsOk result ↔ Agrees ⟦<EF as StarkField<F>>⟧.fields zk statement.now proof.now
        log_chunks challenges.alpha challenges.zeta periodic.now) }
    ensures stands { IfErr result (IdentityFault (Agrees ⟦<EF as StarkField<F>>⟧.fields zk
        statement.now proof.now log_chunks challenges.alpha challenges.zeta periodic.now)) }
{
    match agrees(
        alloc, statement, proof, log_chunks, zk, challenges, periodic,
    ) {
        Ok(true) => Ok(()),
        Ok(false) => Err(VerificationError::OodEvaluationMismatch),
        Err(_) => Err(VerificationError::OutOfMemory),
    }
}

/// What is asked once the challenges are drawn: that the point is off the trace's domain, that the
/// opening is accepted, and that the identity holds at the point.
fn verify_at<
    F: TwoAdicField + PrimeField64,
    EF: ExtensionField<F>,
    Com: Copy,
    C: FieldChallenger<F> + CanObserve<Com>,
    Dft: TwoAdicSubgroupDft<F> + Default + Drop,
    P: UnivariateStarkPcs<EF, C, Val = F, Domain = TwoAdicMultiplicativeCoset<F>, Commitment = Com>,
>(
    scheme: &P,
    alloc: Global,
    statement: &Statement<'_, F, Com>,
    proof: &Proof<EF, Com, P::Proof>,
    log_chunks: usize,
    challenges: Challenges<EF>,
    challenger: &mut C,
) -> Result<(), VerificationError<P::Error>>
    requires range { (P.rules scheme.now).InVerifierRange }
    requires ready { IsReady F.TWO_ADICITY EF.DIMENSION P.ZK statement.now proof.now log_chunks }
    ensures exactly { let S = stark_setting ⟦<EF as StarkField<F>>⟧.fields
        ⟦<C as Plays<F, EF, Com>>⟧.moves P.ZK (P.rules scheme.now)
        (λ k d. (d.shift ≡ F.ONE) × (d.log_size ≡ k)) in
        IsExactly S.scheme.out_of_memory (HoldsAt S statement.now proof.now log_chunks
        challenges.alpha challenges.zeta challenger.old) result }
    ensures state { let S = stark_setting ⟦<EF as StarkField<F>>⟧.fields
        ⟦<C as Plays<F, EF, Com>>⟧.moves P.ZK (P.rules scheme.now)
        (λ k d. (d.shift ≡ F.ONE) × (d.log_size ≡ k)) in
        IsOk result
        → IsLastState S statement.now proof.now challenges.zeta challenger.old challenger.new }
    ensures stands { let S = stark_setting ⟦<EF as StarkField<F>>⟧.fields
        ⟦<C as Plays<F, EF, Com>>⟧.moves P.ZK (P.rules scheme.now)
        (λ k d. (d.shift ≡ F.ONE) × (d.log_size ≡ k)) in
        IfErr result (FaultAt S statement.now proof.now log_chunks challenges.alpha
        challenges.zeta challenger.old) }
{
    if is_on_domain(proof.log_height, challenges.zeta) {
        return Err(VerificationError::PointOnTraceDomain);
    }
    let found = periodic_values::<F, EF, Dft, P::Error>(
        alloc,
        statement.periodic,
        proof.log_height,
        challenges.zeta,
    );
    let periodic = match found {
        Ok(values) => values,
        Err(fault) => return Err(fault),
    };
    match verify_opening(scheme, alloc, statement, proof, challenges.zeta, challenger) {
        Ok(()) => {},
        Err(fault) => return Err(fault),
    }
    let values = periodic.as_slice();
    check_identity(
        alloc,
        statement,
        proof,
        log_chunks,
        P::ZK,
        challenges,
        values,
    )
}

/// Whether the proof shows that some trace satisfies the statement's constraint system. Nothing is
/// asked of the statement or of the proof: an ill-formed one is refused by name. Both sides begin
/// from one state of the challenger, and end in one.
pub fn verify<
    F: TwoAdicField + PrimeField64,
    EF: ExtensionField<F>,
    Com: Copy,
    C: FieldChallenger<F> + CanObserve<Com>,
    Dft: TwoAdicSubgroupDft<F> + Default + Drop,
    P: UnivariateStarkPcs<EF, C, Val = F, Domain = TwoAdicMultiplicativeCoset<F>, Commitment = Com>,
>(
    scheme: &P,
    alloc: Global,
    statement: &Statement<'_, F, Com>,
    proof: &Proof<EF, Com, P::Proof>,
    challenger: &mut C,
) -> Result<(), VerificationError<P::Error>>
    requires range { (P.rules scheme.now).InVerifierRange }
    ensures exactly { let S = stark_setting ⟦<EF as StarkField<F>>⟧.fields
        ⟦<C as Plays<F, EF, Com>>⟧.moves P.ZK (P.rules scheme.now)
        (λ k d. (d.shift ≡ F.ONE) × (d.log_size ≡ k)) in
        IsExactly S.scheme.out_of_memory
        (StarkAccepts S statement.now proof.now challenger.old) result }
    ensures state { let S = stark_setting ⟦<EF as StarkField<F>>⟧.fields
        ⟦<C as Plays<F, EF, Com>>⟧.moves P.ZK (P.rules scheme.now)
        (λ k d. (d.shift ≡ F.ONE) × (d.log_size ≡ k)) in
        let begun = drawn S.fields S.moves statement.now proof.now challenger.old in
        IsOk result
        → IsLastState S statement.now proof.now begun.zeta begun.state challenger.new }
    ensures stands { let S = stark_setting ⟦<EF as StarkField<F>>⟧.fields
        ⟦<C as Plays<F, EF, Com>>⟧.moves P.ZK (P.rules scheme.now)
        (λ k d. (d.shift ≡ F.ONE) × (d.log_size ≡ k)) in
        IfErr result (StarkFault S statement.now proof.now challenger.old) }
    ensures unmoved { ¬ ((log : ℕ)
        × IsReady F.TWO_ADICITY EF.DIMENSION P.ZK statement.now proof.now log)
        → challenger.new ≡ challenger.old }
{
    let checked = check_inputs::<F, EF, Com, P::Proof, P::Error>(alloc, statement, proof, P::ZK);
    let log_chunks = match checked {
        Ok(log) => log,
        Err(fault) => return Err(fault),
    };
    let challenges = match draw_challenges(alloc, statement, proof, challenger) {
        Ok(drawn) => drawn,
        Err(_) => return Err(VerificationError::OutOfMemory),
    };
    verify_at::<F, EF, Com, C, Dft, P>(
        scheme, alloc, statement, proof, log_chunks, challenges, challenger,
    )
}
