//! What acceptance shows, of both schemes: at the relations that the traits of schemes name for
//! them, over all fields, challengers and commitments that meet the traits. It has no program code:
//! each function is a law.
#![tactic(auto)]

ghost use Rattle.std.specs.Prelude.{◌≤◌, ℕ, Option, map};
ghost use Rattle.p3_pcs.specs.Claims.{claim, opened_values};
ghost use Rattle.p3_fri_relation.specs.Views.{parameters_of, proof_of};
ghost use Rattle.p3_fri_openings.specs.SchemeClaims.{relation_claims};
ghost use Rattle.p3_fri_hiding_openings.specs.RandomValues.{with_random_values};
ghost use Rattle.p3_fri_scheme_soundness.specs.Shown.{IsSoundProof, OpensOrCollides, tree_of};

use p3_challenger_core::{CanObserve, FieldChallenger, GrindingChallenger};
use p3_dft::TwoAdicSubgroupDft;
use p3_field_core::{
    ElementBytes, PackableExtension, PackableField, SampleField, TwoAdicField,
    TwoAdicMultiplicativeCoset,
};
use p3_fri_hiding::HidingFriPcs;
use p3_fri_opening_verifier::setting::PlaysTwoAdic;
use p3_fri_relation::proof::{BatchMultiOpening, FriProof};
use p3_fri_two_adic::TwoAdicFriPcs;
use p3_mmcs::{CommitmentOpening, Mmcs, OpenedValues, Sha256Mmcs};
use p3_pcs::Pcs;
use rand_core::CryptoRng;

/// What the plain scheme accepts is sound, with or without preprocessing: for all words and tables
/// whose rows the proof opens, which are those of the words and tables to which alone the
/// commitments open, if there are such.
pub fn plain_law<
    F: TwoAdicField + PackableField,
    EF: PackableExtension<F>,
    Dft: TwoAdicSubgroupDft<F>,
    InputMmcs: Mmcs<F>,
    M: Mmcs<EF>,
    C: FieldChallenger<F> + GrindingChallenger<Witness = F> + CanObserve<M::Commitment>,
>(
    scheme: &TwoAdicFriPcs<F, Dft, InputMmcs, M>,
    claims: &[CommitmentOpening<EF, InputMmcs::Commitment, TwoAdicMultiplicativeCoset<F>>],
    proof: &FriProof<EF, M, F, Vec<BatchMultiOpening<F, InputMmcs>>>,
    challenger: &C,
)
    requires index_bits { F.TWO_ADICITY ≤ C.MAX_SAMPLE_BITS }
    ensures accepted { let s = ⟦<C as PlaysTwoAdic<F, EF, InputMmcs, M>>⟧.setting
        scheme.now.mmcs scheme.now.fri.mmcs in
        (⟦<TwoAdicFriPcs<F, Dft, InputMmcs, M> as Pcs<EF, C>>⟧.rules scheme.now).Accepts None
        challenger.now (map claim claims.now) proof.now
        → IsSoundProof s (parameters_of scheme.now.fri)
        (relation_claims (λ d. d.log_size) (map claim claims.now)) (proof_of proof.now)
        challenger.now }
    ensures preprocessed { (index : Option ℕ) →
        let s = ⟦<C as PlaysTwoAdic<F, EF, InputMmcs, M>>⟧.setting scheme.now.mmcs
        scheme.now.fri.mmcs in
        (⟦<TwoAdicFriPcs<F, Dft, InputMmcs, M> as Pcs<EF, C>>⟧.rules scheme.now).Accepts
        index challenger.now (map claim claims.now) proof.now
        → IsSoundProof s (parameters_of scheme.now.fri)
        (relation_claims (λ d. d.log_size) (map claim claims.now)) (proof_of proof.now)
        challenger.now }
{}

/// What the hiding scheme accepts is sound in the same way, of the claims with the proof's random
/// values: the random columns are columns like others.
pub fn hiding_law<
    F: TwoAdicField + PackableField + SampleField,
    EF: PackableExtension<F>,
    Dft: TwoAdicSubgroupDft<F>,
    InputMmcs: Mmcs<F>,
    M: Mmcs<EF>,
    R: CryptoRng,
    C: FieldChallenger<F> + GrindingChallenger<Witness = F> + CanObserve<M::Commitment>,
>(
    scheme: &HidingFriPcs<F, Dft, InputMmcs, M, R>,
    claims: &[CommitmentOpening<EF, InputMmcs::Commitment, TwoAdicMultiplicativeCoset<F>>],
    proof: &(
        OpenedValues<EF>,
        FriProof<EF, M, F, Vec<BatchMultiOpening<F, InputMmcs>>>,
    ),
    challenger: &C,
)
    requires index_bits { F.TWO_ADICITY ≤ C.MAX_SAMPLE_BITS }
    ensures accepted { let s = ⟦<C as PlaysTwoAdic<F, EF, InputMmcs, M>>⟧.setting
        scheme.now.mmcs scheme.now.fri.mmcs in
        (⟦<HidingFriPcs<F, Dft, InputMmcs, M, R> as Pcs<EF, C>>⟧.rules scheme.now).Accepts None
        challenger.now (map claim claims.now) proof.now
        → IsSoundProof s (parameters_of scheme.now.fri)
        (with_random_values (relation_claims (λ d. d.log_size) (map claim claims.now))
        (opened_values proof.now.0.items)) (proof_of proof.now.1) challenger.now }
    ensures preprocessed { (index : Option ℕ) →
        let s = ⟦<C as PlaysTwoAdic<F, EF, InputMmcs, M>>⟧.setting scheme.now.mmcs
        scheme.now.fri.mmcs in
        (⟦<HidingFriPcs<F, Dft, InputMmcs, M, R> as Pcs<EF, C>>⟧.rules scheme.now).Accepts
        index challenger.now (map claim claims.now) proof.now
        → IsSoundProof s (parameters_of scheme.now.fri)
        (with_random_values (relation_claims (λ d. d.log_size) (map claim claims.now))
        (opened_values proof.now.0.items)) (proof_of proof.now.1) challenger.now }
{}

/// The plain scheme over trees of SHA-256.
pub type PlainOverTrees<F, EF, Dft> = TwoAdicFriPcs<F, Dft, Sha256Mmcs<F>, Sha256Mmcs<EF>>;

/// The hiding scheme over trees of SHA-256.
pub type HidingOverTrees<F, EF, Dft, R> = HidingFriPcs<F, Dft, Sha256Mmcs<F>, Sha256Mmcs<EF>, R>;

/// Over trees of SHA-256, with or without preprocessing. Where the same commitments have another
/// opening at the drawn positions, to the rows of words and tables, a proof that the plain scheme
/// accepts opens the rows of these, or one of its openings collides with the other.
pub fn plain_trees_law<
    F: TwoAdicField + PackableField + ElementBytes,
    EF: PackableExtension<F> + ElementBytes,
    Dft: TwoAdicSubgroupDft<F>,
    C: FieldChallenger<F> + GrindingChallenger<Witness = F> + CanObserve<[u8; 32]>,
>(
    scheme: &PlainOverTrees<F, EF, Dft>,
    claims: &[CommitmentOpening<EF, [u8; 32], TwoAdicMultiplicativeCoset<F>>],
    proof: &FriProof<EF, Sha256Mmcs<EF>, F, Vec<BatchMultiOpening<F, Sha256Mmcs<F>>>>,
    challenger: &C,
)
    ensures { (index : Option ℕ) →
        let s = ⟦<C as PlaysTwoAdic<F, EF, Sha256Mmcs<F>, Sha256Mmcs<EF>>>⟧.setting
        scheme.now.mmcs scheme.now.fri.mmcs in
        (⟦<PlainOverTrees<F, EF, Dft> as Pcs<EF, C>>⟧.rules scheme.now).Accepts
        index challenger.now (map claim claims.now) proof.now
        → OpensOrCollides s (parameters_of scheme.now.fri)
        (relation_claims (λ d. d.log_size) (map claim claims.now)) (proof_of proof.now)
        challenger.now (tree_of F.bytes) (tree_of EF.bytes) }
{}

/// The same of the hiding scheme, and of the claims with the proof's random values.
pub fn hiding_trees_law<
    F: TwoAdicField + PackableField + SampleField + ElementBytes,
    EF: PackableExtension<F> + ElementBytes,
    Dft: TwoAdicSubgroupDft<F>,
    R: CryptoRng,
    C: FieldChallenger<F> + GrindingChallenger<Witness = F> + CanObserve<[u8; 32]>,
>(
    scheme: &HidingOverTrees<F, EF, Dft, R>,
    claims: &[CommitmentOpening<EF, [u8; 32], TwoAdicMultiplicativeCoset<F>>],
    proof: &(
        OpenedValues<EF>,
        FriProof<EF, Sha256Mmcs<EF>, F, Vec<BatchMultiOpening<F, Sha256Mmcs<F>>>>,
    ),
    challenger: &C,
)
    ensures { (index : Option ℕ) →
        let s = ⟦<C as PlaysTwoAdic<F, EF, Sha256Mmcs<F>, Sha256Mmcs<EF>>>⟧.setting
        scheme.now.mmcs scheme.now.fri.mmcs in
        (⟦<HidingOverTrees<F, EF, Dft, R> as Pcs<EF, C>>⟧.rules scheme.now).Accepts
        index challenger.now (map claim claims.now) proof.now
        → OpensOrCollides s (parameters_of scheme.now.fri)
        (with_random_values (relation_claims (λ d. d.log_size) (map claim claims.now))
        (opened_values proof.now.0.items)) (proof_of proof.now.1) challenger.now
        (tree_of F.bytes) (tree_of EF.bytes) }
{}
